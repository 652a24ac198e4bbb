// What is printed of a roster, and the setting up of a space from a roster file.
#![tactic(auto)]

ghost use Rattle.std.specs.Prelude.{◌≡◌, [], ◌∷◌, ◌++◌, map, ◌+◌, ◌<◌, ◌≤◌, length, slice_index_or};
ghost use Rattle.numbers.specs.Written.{Written};
ghost use Rattle.roster_file.specs.File.{read_file};
ghost use Rattle.rules.specs.Names.{bits_in};
ghost use Rattle.roster_file.specs.Printed.{name_text, right_text, names_text, party_text, printed, output};
ghost use Rattle.roster_print.specs.Answers.{named, SetUpBy};

use numbers::Out;
use refusal::Refusal;

// Whether a word's bits are partitions or keys. (A closure in its place would be made of the same two arms.)
#[derive(Clone, Copy)]
enum Kind {
    Partition,
    Key,
}

// D2: the kind and the number of a line.
fn render_name(kind: Kind, c: u64, out: &mut Out)
    requires { out.old.at + length (name_text (named kind c)) ≤ length out.old.bytes.now }
    ensures written { Written out.old.bytes.now out.old.at (name_text (named kind c)) out.new.bytes.now out.new.at }
    ensures len { length out.new.bytes.now ≡ length out.old.bytes.now }
    ensures same_reference { out.new.bytes.ghost_name ≡ out.old.bytes.ghost_name }
{
    match kind {
        Kind::Partition => {
            out.place(b"p ");
            out.decimal(c);
        }
        Kind::Key => {
            out.place(b"k ");
            out.key(c);
        }
    }
}

// D2: a line.
fn render_right(party: u64, kind: Kind, c: u64, out: &mut Out)
    requires { out.old.at + length (right_text party (named kind c) ++ (10 ∷ [])) ≤ length out.old.bytes.now }
    ensures written { Written out.old.bytes.now out.old.at (right_text party (named kind c) ++ (10 ∷ [])) out.new.bytes.now out.new.at }
    ensures len { length out.new.bytes.now ≡ length out.old.bytes.now }
    ensures same_reference { out.new.bytes.ghost_name ≡ out.old.bytes.ghost_name }
{
    out.decimal(party);
    out.place(b" ");
    render_name(kind, c, out);
    out.place(b"\n");
}

// D6: the names in a word, smallest first.
fn render_word(party: u64, kind: Kind, w: u64, out: &mut Out)
    requires { out.old.at + length (names_text party (map (named kind) (bits_in w))) ≤ length out.old.bytes.now }
    ensures written { Written out.old.bytes.now out.old.at (names_text party (map (named kind) (bits_in w))) out.new.bytes.now out.new.at }
    ensures len { length out.new.bytes.now ≡ length out.old.bytes.now }
    ensures same_reference { out.new.bytes.ghost_name ≡ out.old.bytes.ghost_name }
{
    for c in 0..64 {
        if words::has_bit(w, c) {
            render_right(party, kind, c, out);
        }
    }
}

// D6: partitions before keys.
fn render_party(roster: &[u64; 16], party: usize, out: &mut Out)
    requires bound { party < 8 }
    requires room { out.old.at + length (party_text roster.now party) ≤ length out.old.bytes.now }
    ensures written { Written out.old.bytes.now out.old.at (party_text roster.now party) out.new.bytes.now out.new.at }
    ensures len { length out.new.bytes.now ≡ length out.old.bytes.now }
    ensures same_reference { out.new.bytes.ghost_name ≡ out.old.bytes.ghost_name }
{
    render_word(party as u64, Kind::Partition, roster[party], out);
    render_word(party as u64, Kind::Key, roster[8 + party], out);
}

// D6: the names line, and then party by party.
fn render_roster(roster: &[u64; 16], out: &mut Out)
    requires { out.old.at + length (printed roster.now) ≤ length out.old.bytes.now }
    ensures written { Written out.old.bytes.now out.old.at (printed roster.now) out.new.bytes.now out.new.at }
    ensures len { length out.new.bytes.now ≡ length out.old.bytes.now }
    ensures same_reference { out.new.bytes.ghost_name ≡ out.old.bytes.ghost_name }
{
    out.place(b"party kind name\n");
    for party in 0..8 {
        render_party(roster, party, out);
    }
}

// D7: the file is read; then the space is opened with its roster, which is printed, or the refusal is.
pub fn set_up(
    file: &[u8],
    roster: &mut [u64; 16],
    space: &mut [u64],
    out: &mut Out,
) -> Result<(), Refusal>
    requires { out.old.at + 8208 ≤ length out.old.bytes.now }
    ensures written { Written out.old.bytes.now out.old.at (output file.now) out.new.bytes.now out.new.at }
    ensures len { length out.new.bytes.now ≡ length out.old.bytes.now }
    ensures set_up_by { SetUpBy (read_file file.now) result roster.old roster.new space.old space.new }
    ensures same_reference { out.new.bytes.ghost_name ≡ out.old.bytes.ghost_name }
{
    match roster_file::read_roster(file, roster) {
        Ok(()) => {
            // not handed on: only a space of another length is refused here, and such a one has always been left as it was
            let _opened = space::open(space, roster);
            render_roster(roster, out);
            Ok(())
        }
        Err(refusal) => {
            out.refusal(refusal);
            Err(refusal)
        }
    }
}
