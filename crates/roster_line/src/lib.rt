// A line of a roster file: what it gives, and the bit of the roster's words that this is.
#![tactic(auto)]

ghost use Rattle.std.specs.Prelude.{◌≡◌, ◌≤◌, IfOk};
ghost use Rattle.refusal.specs.Numbers.{numbered};
ghost use Rattle.rules.specs.Names.{partition, key};
ghost use Rattle.roster_line.specs.Rights.{kind_of, judged, read_line};
ghost use Rattle.roster_line.specs.Answers.{right_for, meant, kind_meant, judged_in, line_is};

use numbers::NumberError::{self, Large, Unreadable};
use refusal::Refusal;

// D2: what the number of a line is.
#[derive(Clone, Copy)]
enum Kind {
    Partition,
    Key,
}

// What a line gives: a bit of a word of the roster.
#[derive(Clone, Copy)]
pub struct Right {
    pub word: usize,
    pub bit: u64,
}

impl Right {
    // L2: the party's partitions are the bits of its first word.
    pub fn partition(party: usize, number: u64) -> Right
        ensures { result ≡ right_for party (partition number) }
    {
        Right {
            word: party,
            bit: number,
        }
    }

    // L3: its keys, as they are stored, those of its second.
    pub fn key(party: usize, stored: u64) -> Right
        requires { party ≤ 7 }
        ensures { result ≡ right_for party (key stored) }
    {
        Right {
            word: 8 + party,
            bit: stored,
        }
    }
}

// D2
fn kind_of(text: &[u8]) -> Option<Kind>
    ensures { kind_meant result ≡ kind_of text.now }
{
    match text {
        b"p" => Some(Kind::Partition),
        b"k" => Some(Kind::Key),
        _ => None,
    }
}

// R12, N2, N3, N5: the party's bit for a number in range.
fn right_of(party: u32, kind: Kind, number: i32) -> Result<Right, Refusal>
    requires { party ≤ 7 }
    ensures { numbered result ≡ line_is (judged party (meant kind) number) }
{
    let party = party as usize;
    match kind {
        Kind::Partition if 0 <= number && number <= 63 => Ok(Right::partition(
            party,
            number as u64,
        )),
        Kind::Key if words::key_in_range(number) => Ok(Right::key(
            party,
            words::stored_key(number),
        )),
        _ => Err(Refusal::OutOfRange),
    }
}

// R11, R12: what can't be read comes before what is out of range.
fn judge(
    party: Result<u32, NumberError>,
    kind: Kind,
    number: Result<i32, NumberError>,
) -> Result<Right, Refusal>
    requires { IfOk party (λ p. p ≤ 7) }
    ensures { numbered result ≡ judged_in party (meant kind) number }
{
    match (party, number) {
        (Ok(party), Ok(number)) => right_of(party, kind, number),
        (Err(Unreadable), _) | (_, Err(Unreadable)) => Err(Refusal::UnreadableLine),
        (Err(Large), _) | (_, Err(Large)) => Err(Refusal::OutOfRange),
    }
}

// D2, D3: three items with one blank between; the blank before a fourth would stand in the number, which then can't be read.
pub fn read_line(line: &[u8]) -> Result<Right, Refusal>
    ensures { numbered result ≡ line_is (read_line line.now) }
{
    let (party, rest) = numbers::split_once(line, b' ').ok_or(Refusal::UnreadableLine)?;
    let (kind, number) = numbers::split_once(rest, b' ').ok_or(Refusal::UnreadableLine)?;
    let kind = kind_of(kind).ok_or(Refusal::UnreadableLine)?;
    let party = numbers::read_natural(party, 7);
    let number = numbers::read_whole(number);
    judge(party, kind, number)
}
