// A roster from a file: a usual line, and the whole file in one pass.
#![tactic(auto)]

ghost use Rattle.std.specs.Prelude.{◌≡◌, ◌≤◌, ◌<◌, length, IfSome, MatchResult};
ghost use Rattle.numbers.specs.Numbers.{decimal};
ghost use Rattle.numbers.specs.Parts.{parts};
ghost use Rattle.roster_file.specs.File.{read_lines, read_file};
ghost use Rattle.roster_file.specs.Answers.{Stands, NameAt, RightAt, FirstLine, Faulty, Went, ReadAs};

use refusal::Refusal;
use roster_line::Right;

// T2: one or two digits, no leading zero, and a line feed; the lines after it are left.
#[tactic(auto, using(crate::proofs::UsualLines::one_stands))]
fn usual_number(text: &[u8]) -> Option<(u64, &[u8])>
    ensures { IfSome result (λ x. Stands text.now (decimal x.0) x.1.now) }
{
    match text {
        [d @ b'0'..=b'9', b'\n', rest @ ..] => Some(((d - b'0') as u64, rest)),
        [d @ b'1'..=b'9', e @ b'0'..=b'9', b'\n', rest @ ..] => Some((
            (10 * (d - b'0') + (e - b'0')) as u64,
            rest,
        )),
        _ => None,
    }
}

// D2, N2, N3, N5: a kind and a number in its range.
fn usual_name(text: &[u8], party: usize) -> Option<(Right, &[u8])>
    requires { party ≤ 7 }
    ensures { IfSome result (λ x. NameAt text.now party x.0 x.1.now) }
{
    match text {
        [b'p', b' ', digits @ ..] => {
            let (v, rest) = usual_number(digits)?;
            if 63 < v {
                return None;
            }
            Some((Right::partition(party, v), rest))
        }
        [b'k', b' ', b'-', digits @ ..] => {
            let (v, rest) = usual_number(digits)?;
            if v == 0 || 31 < v {
                return None;
            }
            Some((Right::key(party, 31 - v), rest))
        }
        [b'k', b' ', digits @ ..] => {
            let (v, rest) = usual_number(digits)?;
            if 31 < v {
                return None;
            }
            Some((Right::key(party, 31 + v), rest))
        }
        _ => None,
    }
}

// D2, D3: the line of a right as it is printed. A line of any other form is read by its items.
fn usual_line(lines: &[u8]) -> Option<(Right, &[u8])>
    ensures { IfSome result (λ x. RightAt lines.now x.0 x.1.now) }
{
    match lines {
        [party @ b'0'..=b'7', b' ', name @ ..] => usual_name(name, (party - b'0') as usize),
        _ => None,
    }
}

// D1, D4: a line of any form.
fn other_line(lines: &[u8]) -> Result<(Right, &[u8]), Refusal>
    requires { 0 < length lines.now }
    ensures { MatchResult result (λ x. FirstLine lines.now x.0 x.1.now) (λ e. Faulty lines.now e) }
{
    let (line, rest) = numbers::split_once(lines, b'\n').ok_or(Refusal::UnreadableLine)?;
    let right = roster_line::read_line(line)?;
    Ok((right, rest))
}

// D4: most lines are usual ones, and these are read quickly.
fn next_line(lines: &[u8]) -> Result<(Right, &[u8]), Refusal>
    requires { 0 < length lines.now }
    ensures { MatchResult result (λ x. FirstLine lines.now x.0 x.1.now) (λ e. Faulty lines.now e) }
{
    match usual_line(lines) {
        Some((right, rest)) => Ok((right, rest)),
        None => other_line(lines),
    }
}

// D1, D5: line by line, up to the first faulty one.
fn read_lines(file: &[u8], words: &mut [u64; 16]) -> Result<(), Refusal>
    ensures { Went (read_lines words.old (parts 10 file.now)) result words.new }
{
    let mut lines = file;
    while !lines.is_empty() {
        let (right, rest) = next_line(lines)?;
        words::set_bit(words, right.word, right.bit);
        lines = rest;
    }
    Ok(())
}

// D1 to D5: a refused file leaves the words as they were.
pub fn read_roster(file: &[u8], roster: &mut [u64]) -> Result<(), Refusal>
    requires { length roster.old ≡ 16 }
    ensures { ReadAs (read_file file.now) result roster.old roster.new }
{
    let lines = numbers::lines_start(file, 16384, b"party kind name").ok_or(Refusal::BadFile)?;
    let mut words = [0; 16];
    read_lines(lines, &mut words)?;
    edits::copy_in(&words, roster);
    Ok(())
}
