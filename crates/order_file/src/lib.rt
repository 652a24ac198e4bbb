// Pairs from a file: the pairs of its lines, and what they come to.
#![tactic(auto)]

ghost use Rattle.std.specs.Prelude.{◌≡◌, [], ◌≤◌, IfSome, option_map};
ghost use Rattle.numbers.specs.Numbers.{natural};
ghost use Rattle.numbers.specs.Parts.{parts};
ghost use Rattle.start_order.specs.Answers.{Settled};
ghost use Rattle.order_file.specs.File.{read_pair, read_pairs, read_file};
ghost use Rattle.order_file.specs.Answers.{party_of, word_in, words_in};

use numbers::NumberError;
use refusal::Refusal;
use start_order::Start;

// T2, R16: the party of an item, if it can be read; 8 stands for every one above 7, since all of them are refused alike.
#[tactic(auto, unfolding(numbers::specs::Answers::natural_of))]
fn party(item: &[u8]) -> Option<u64>
    ensures value { result ≡ party_of (natural item.now) }
    ensures bound { IfSome result (λ p. p ≤ 8) }
{
    match numbers::read_natural(item, 7) {
        Ok(p) => Some(p as u64),
        Err(NumberError::Large) => Some(8),
        Err(NumberError::Unreadable) => None,
    }
}

// O6: the word of a line's pair: two numbers with one blank between.
fn read_pair(line: &[u8]) -> Option<u64>
    ensures { result ≡ word_in (read_pair line.now) }
{
    let (first, second) = numbers::split_once(line, b' ')?;
    Some(party(first)? * 4294967296 + party(second)?)
}

// O6, R11: the words of the pairs of all lines. Of more than 64 only 65 are kept, in an array that is lent, since there is no heap.
fn read_pairs<'a>(lines: &[u8], words: &'a mut [u64; 65]) -> Option<&'a [u64]>
    ensures { option_map (λ w. w.now) result ≡ words_in (read_pairs [] (parts 10 lines.now)) }
{
    let mut rest = lines;
    let mut n = 0;
    while let Some((line, next)) = numbers::split_once(rest, b'\n') {
        let word = read_pair(line)?;
        if n < 65 {
            words[n] = word;
            n += 1;
        }
        rest = next;
    }
    if rest.is_empty() {
        Some(&words[..n])
    } else {
        None
    }
}

// O6, O7: what the file comes to, with the order in the eight words.
pub fn start_by(file: &[u8], places: &mut [u64; 8]) -> Result<Start, Refusal>
    ensures { Settled (read_file file.now) result places.old places.new }
{
    let lines = numbers::lines_start(file, 4096, b"before after").ok_or(Refusal::BadFile)?;
    let mut words = [0u64; 65];
    let pairs = read_pairs(lines, &mut words).ok_or(Refusal::UnreadableLine)?;
    start_order::start_order(pairs, places)
}
