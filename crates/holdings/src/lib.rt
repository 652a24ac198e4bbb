// The edits of a space's holdings: names held, and an opening.
#![tactic(auto)]

ghost use Rattle.std.specs.Prelude.{◌≡◌, true, map, ◌<◌, length};
ghost use Rattle.rules.specs.Names.{with_bit};
ghost use Rattle.rules.specs.Fields.{field, name_in, names_in};
ghost use Rattle.rules.specs.State.{give_all};
ghost use Rattle.rules.specs.Calls.{opened};
ghost use Rattle.rules.specs.Words.{encode, decode, sound};

use words::Field;

// C3: the party holds the name in the field, if it carries one.
fn hold_name(space: &mut [u64], party: usize, w: u64)
    requires { (sound space.old ≡ true) × (party < 8) }
    ensures { space.new ≡ encode (give_all party (name_in (field w)) (decode space.old)) }
{
    match Field::from(w) {
        Field::Partition(c) => words::set_bit(space, 1 + party, c),
        Field::Key(k) => words::set_bit(space, 9 + party, k),
        _ => {}
    }
}

// C3: the party holds each name in the fields.
pub fn hold_names(space: &mut [u64], party: usize, fields: &[u64])
    requires { (sound space.old ≡ true) × (party < 8) }
    ensures { space.new ≡ encode (give_all party (names_in fields.now) (decode space.old)) }
{
    for w in fields {
        hold_name(space, party, *w);
    }
}

// C1: each word of the source, with the bit set.
fn with_all(src: &[u64], dst: &mut [u64], c: u64)
    requires { (length src.now ≡ length dst.old) × (c < 64) }
    ensures { dst.new ≡ map (λ w. with_bit w c) src.now }
{
    for i in 0..src.len() {
        dst[i] = words::with_bit(src[i], c);
    }
}

// C1: no entries, the roster's holdings, and key 0 for everyone. Only the rows are cleared; each word before them is written
// once, the partitions by `edits`, since the boards' build takes no copy by the library (board/module.py).
pub fn fill(space: &mut [u64], roster: &[u64])
    requires { (length space.old ≡ 1809) × (length roster.now ≡ 16) }
    ensures { space.new ≡ encode (opened roster.now) }
{
    let rows = starts::start(0) as usize;
    let end = starts::END as usize;
    edits::clear(&mut space[rows..end]);
    edits::copy_in(&roster[0..8], &mut space[1..9]);
    with_all(&roster[8..16], &mut space[9..17], 31);
    space[0] = 0;
}
