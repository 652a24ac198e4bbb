// The edits of a space's rows: one added, one removed, words copied in or cleared.
#![tactic(auto)]

ghost use Rattle.std.specs.Prelude.{◌≡◌, true, [], ◌∷◌, ◌++◌, suc, ◌-◌, ◌<◌, ◌≤◌, length, take, drop, get_or};
ghost use Rattle.rules.specs.State.{with_entries};
ghost use Rattle.rules.specs.Words.{zeros, row_of, encode, decode, sound};
ghost use Rattle.edits.specs.Row.{meant};

use words::StoredPair;

// E1: an entry as it comes to stand in a row.
#[derive(Clone, Copy)]
pub struct Entry<'a> {
    pub writer: u64,
    pub read: StoredPair,
    pub take: StoredPair,
    pub fields: &'a [u64],
}

// C4: each row of the part gives way to the one after it, and the last is cleared. A `for`, here and in `copy_in`: the boards'
// build takes no copy by the library, which compares pointers (board/module.py).
fn close_up(part: &mut [u64])
    requires { 14 ≤ length part.old }
    ensures { part.new ≡ drop 14 part.old ++ zeros 14 }
{
    let n = part.len() - 14;
    for i in 0..n {
        part[i] = part[i + 14];
    }
    clear(&mut part[n..]);
}

// L4: every word becomes 0, as past the live rows.
#[tactic(auto, unfolding(rules::specs::Words::zeros))]
pub fn clear(part: &mut [u64])
    ensures { part.new ≡ zeros (length part.old) }
{
    for w in part {
        *w = 0;
    }
}

// C3: the source comes first in the destination, and the rest is kept.
pub fn copy_in(src: &[u64], dst: &mut [u64])
    requires { length src.now ≤ length dst.old }
    ensures { dst.new ≡ src.now ++ drop (length src.now) dst.old }
{
    for i in 0..src.len() {
        dst[i] = src[i];
    }
}

// C4: the entry in that place is removed. What moves ends where the last live row ends, 14 words after its start: past the 128
// rows no row starts.
pub fn remove_row(space: &mut [u64], row: usize)
    requires { (sound space.old ≡ true) × (row < get_or space.old 0 0) }
    ensures { space.new ≡ encode (with_entries (take row (decode space.old).entries ++ drop (suc row) (decode space.old).entries) (decode space.old)) }
{
    let live = space[0] as u32;
    let at = starts::start(row as u32) as usize;
    let end = starts::start(live - 1) as usize + 14;
    close_up(&mut space[at..end]);
    space[0] = (live - 1) as u64;
}

// L4: the 14 words of an entry's row.
fn write_row(row: &mut [u64], entry: Entry<'_>)
    requires { (length row.old ≡ 14) × (length entry.fields.now ≤ 8) }
    ensures { row.new ≡ row_of (meant entry.entry) }
{
    let n = entry.fields.len();
    row[0] = entry.writer;
    row[1] = entry.read.partitions;
    row[2] = entry.read.key;
    row[3] = entry.take.partitions;
    row[4] = entry.take.key;
    row[5] = n as u64;
    copy_in(entry.fields, &mut row[6..]);
    clear(&mut row[6 + n..]);
}

// C2: the entry becomes the newest.
pub fn add_row(space: &mut [u64], entry: Entry<'_>)
    requires { (sound space.old ≡ true) × (get_or space.old 0 0 < 128) × (length entry.fields.now ≤ 8) }
    ensures { space.new ≡ encode (with_entries ((decode space.old).entries ++ (meant entry.entry ∷ [])) (decode space.old)) }
{
    let live = space[0] as u32;
    let at = starts::start(live) as usize;
    write_row(&mut space[at..at + 14], entry);
    space[0] = (live + 1) as u64;
}
