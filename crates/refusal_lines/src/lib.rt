// What the programs with the refused calls share: a space to make calls on, its damaged copies, and the line printed of a call.
#![tactic(auto)]

ghost use Rattle.std.specs.Prelude.{◌≡◌, ◌&&◌, [], ◌∷◌, ◌<◌, pos, set, take};
ghost use Rattle.rules.specs.Matching.{pair};
ghost use Rattle.rules.specs.Calls.{put};
ghost use Rattle.rules.specs.Words.{call};
ghost use Rattle.words.specs.Pairs.{meant};
ghost use Rattle.numbers.specs.Parts as parts;
ghost use Rattle.refusal_lines.specs.Start.{roster, opened};

use refusal::Refusal;
use search::Op;
use words::Pair;

// The pairs of what party 0 puts; party 1 finds it by the co-key.
pub const OWN: Pair = Pair {
    partitions: SET_5,
    key: 4,
};

// Field words with value 0.
pub const PARTITION: u64 = 4294967296;

pub const KEY: u64 = 8589934592;

pub const WILDCARD: u64 = 12884901888;

pub const AT_LEAST: u64 = 17179869184;

pub const AT_MOST: u64 = 21474836480;

pub const KIND_6: u64 = 25769803776;

// Sets of partitions, in pairs and in holdings.
pub const EMPTY: u64 = 0;

pub const SET_0: u64 = 1;

pub const SET_5: u64 = 32;

pub const SET_0_5: u64 = 33;

pub const SET_6: u64 = 64;

pub const SET_5_6: u64 = 96;

pub const SET_OF_ALL: u64 = 18446744073709551615;

// Holdings: key 4, which is stored as 35, and key -4, which is stored as 27.
const KEY_4: u64 = 34359738368;

const KEY_MINUS_4: u64 = 134217728;

pub fn pair(partitions: u64, key: i32) -> Pair
    ensures { meant result ≡ pair partitions key }
{
    Pair { partitions, key }
}

// Party 0 holds partition 5 and key 4, and party 1 partitions 0 and 5 and key -4.
#[tactic(auto, unfolding(crate::specs::Start::roster))]
pub fn roster() -> [u64; 16]
    ensures { result ≡ roster }
{
    let mut roster = [0u64; 16];
    roster[0] = SET_5;
    roster[8] = KEY_4;
    roster[1] = SET_0_5;
    roster[9] = KEY_MINUS_4;
    roster
}

#[tactic(auto, unfolding(rules::specs::Words::zeros, crate::specs::Start::opened))]
pub fn opened() -> [u64; 1809]
    ensures { result ≡ opened }
{
    let mut words = [0u64; 1809];
    let _ = space::open(&mut words, &roster());
    words
}

pub fn first_1808(words: [u64; 1809]) -> [u64; 1808]
    ensures { result ≡ take 1808 words }
{
    let mut first = [0u64; 1808];
    first.copy_from_slice(&words[..1808]);
    first
}

// A copy with another word in one place.
pub fn with_word(words: [u64; 1809], at: usize, word: u64) -> [u64; 1809]
    requires { at < 1809 }
    ensures { result ≡ set words at word }
{
    let mut damaged = words;
    damaged[at] = word;
    damaged
}

pub fn with_129_entries(words: [u64; 1809]) -> [u64; 1809]
    ensures { result ≡ set words 0 129 }
{
    with_word(words, 0, 129)
}

pub fn with_an_entry(words: [u64; 1809]) -> [u64; 1809]
    ensures { result ≡ (call words (put 0 (pair 32 (pos 4)) (pair 32 (pos 4)) (7 ∷ 120 ∷ []))).space }
{
    let mut more = words;
    let _ = space::put(&mut more, 0, OWN, OWN, &[7, 120]);
    more
}

// The set of the first row's read pair.
pub fn with_an_empty_read_set(words: [u64; 1809]) -> [u64; 1809]
    ensures { result ≡ set words 18 0 }
{
    with_word(words, 18, EMPTY)
}

// That of its take pair.
pub fn with_an_empty_take_set(words: [u64; 1809]) -> [u64; 1809]
    ensures { result ≡ set words 20 0 }
{
    with_word(words, 20, EMPTY)
}

// What a call answers, which a line says.
pub trait Answer {
    fn say(self);
}

// An opening or a put.
impl Answer for Result<(), Refusal> {
    fn say(self) {
        match self {
            Ok(()) => say(b"done"),
            Err(refusal) => say_refusal(refusal),
        }
    }
}

// A look, a receive or a take.
impl Answer for Result<Option<usize>, Refusal> {
    fn say(self) {
        match self {
            Ok(Some(n)) => {
                say(b"found ");
                io::print_decimal(1, n as u64);
            }
            Ok(None) => say(b"none"),
            Err(refusal) => say_refusal(refusal),
        }
    }
}

// A call as a program in C makes it.
impl Answer for u32 {
    fn say(self) {
        io::print_decimal(1, self as u64);
    }
}

// Prints the line of a call: the text, its answer, and whether its words have changed, which it also answers.
pub fn show<A: Answer>(text: &[u8], answer: A, before: &[u64], after: &[u64]) -> bool
    ensures { result ≡ parts.same before.now after.now }
{
    say(text);
    say(b": ");
    answer.say();
    let unchanged = before == after;
    say_change(unchanged);
    unchanged
}

// The same of a look, a receive or a take, which can also change its result words.
pub fn show_seek(
    op: Op,
    text: &[u8],
    answer: Result<Option<usize>, Refusal>,
    before: &[u64],
    after: &[u64],
    lent: &[u64],
    res: &[u64],
) -> bool
    ensures { result ≡ (parts.same before.now after.now && parts.same lent.now res.now) }
{
    say_op(op);
    say(text);
    say(b": ");
    answer.say();
    let unchanged = (before == after) & (lent == res);
    say_change(unchanged);
    unchanged
}

fn say_op(op: Op) {
    match op {
        Op::Looking => say(b"look, "),
        Op::Receiving => say(b"receive, "),
        Op::Taking => say(b"take, "),
    }
}

fn say_refusal(refusal: Refusal) {
    say(b"no");
    io::print_decimal(1, refusal.number() as u64);
}

fn say_change(unchanged: bool) {
    if unchanged {
        say(b", unchanged\n");
    } else {
        say(b", changed\n");
    }
}

// No `println!`, whose failure a caller would have to be told: to show a line can't fail.
fn say(text: &[u8]) {
    io::write_all(1, text);
}
