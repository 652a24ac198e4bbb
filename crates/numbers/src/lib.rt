// Text as bytes: its parts, its start, texts compared, decimal numbers of any length, read and rendered, and refusals.
#![tactic(auto)]

ghost use Rattle.std.specs.Prelude.{◌≡◌, ◌+◌, ◌*◌, ◌≤◌, ◌<◌, ◌∷◌, ◌++◌, [], true, length, take, IfOk, IfSome, MatchOption};
ghost use Rattle.std.proofs.Math.Option.{none, some};
ghost use Rattle.refusal.specs.Numbers.{number};
ghost use Rattle.numbers.specs.Numbers as numbers;
ghost use Rattle.numbers.specs.Numbers.{is_digit, starts_well, decimal, decimal_key, key_of, refusal_text};
ghost use Rattle.numbers.specs.Parts.{before, parts, same};
ghost use Rattle.numbers.specs.Lines.{begun_with};
ghost use Rattle.numbers.specs.Written.{Written};
ghost use Rattle.numbers.specs.Answers.{natural_of, whole_of, with_digit};

use refusal::Refusal;

// Why a text is no number that its reader holds: a large one is above the most that it takes.
#[derive(Clone, Copy, Debug, PartialEq, Eq)]
pub enum NumberError {
    Large,
    Unreadable,
}

// T1
pub fn is_digit(b: u8) -> bool
    ensures { result ≡ is_digit b }
{
    b.is_ascii_digit()
}

// T2
fn starts_well(text: &[u8]) -> bool
    ensures { result ≡ starts_well text.now }
{
    match text {
        [] => false,
        [_] => true,
        [first, ..] => *first != b'0',
    }
}

// T2: one more digit; a value past the most stays as it is, so that no length makes it wrap.
fn with_digit(value: u64, most: u32, b: u8) -> u64
    requires { (is_digit b ≡ true) × (value ≤ 10 * most + 9) }
    ensures { result ≡ with_digit most value b }
{
    if value <= most as u64 {
        return 10 * value + (b - b'0') as u64;
    }
    value
}

// T2: left at the first byte that is no digit.
pub fn read_natural(text: &[u8], most: u32) -> Result<u32, NumberError>
    ensures value { result ≡ natural_of most (numbers.natural text.now) }
    ensures bound { IfOk result (λ v. v ≤ most) }
{
    if !starts_well(text) {
        return Err(NumberError::Unreadable);
    }
    let mut value: u64 = 0;
    for b in text {
        if !is_digit(*b) {
            return Err(NumberError::Unreadable);
        }
        value = with_digit(value, most, *b);
    }
    if (most as u64) < value {
        return Err(NumberError::Large);
    }
    Ok(value as u32)
}

// T4
fn has_minus(text: &[u8]) -> bool
    ensures { result ≡ same (take 1 text.now) (45 ∷ []) }
{
    matches!(text, [b'-', ..])
}

// T4: a minus stands before no zero.
pub fn read_whole(text: &[u8]) -> Result<i32, NumberError>
    ensures { result ≡ whole_of (numbers.whole text.now) }
{
    if !has_minus(text) {
        return Ok(read_natural(text, 2147483647)? as i32);
    }
    match read_natural(&text[1..], 2147483648)? {
        0 => Err(NumberError::Unreadable),
        v => Ok((-(v as i64)) as i32),
    }
}

// T7: the bytes before the first separator, and those after it.
pub fn split_once(text: &[u8], sep: u8) -> Option<(&[u8], &[u8])>
    ensures parts { MatchOption result (parts sep text.now ≡ text.now ∷ []) (λ x. parts sep text.now ≡ x.0.now ∷ parts sep x.1.now) }
    ensures before { MatchOption result (before sep text.now ≡ text.now) (λ x. before sep text.now ≡ x.0.now) }
    ensures whole { IfSome result (λ x. text.now ≡ x.0.now ++ (sep ∷ x.1.now)) }
    ensures lengths { IfSome result (λ x. length x.0.now + 1 + length x.1.now ≡ length text.now) }
{
    // a `for`, and no iterator's method: the boards' build takes no `Option` of a reference (board/module.py)
    for (i, b) in text.iter().enumerate() {
        if *b == sep {
            return Some((&text[..i], &text[i + 1..]));
        }
    }
    None
}

// By a `for`, since `==` goes by an iterator.
pub fn same(a: &[u8], b: &[u8]) -> bool
    ensures { result ≡ same a.now b.now }
{
    if a.len() != b.len() {
        return false;
    }
    for (i, x) in a.iter().enumerate() {
        if *x != b[i] {
            return false;
        }
    }
    true
}

// D1, O6, R10: what follows the names line, in a text of at most `most` bytes that begins with it.
pub fn lines_start<'a>(text: &'a [u8], most: usize, names: &[u8]) -> Option<&'a [u8]>
    ensures lines { MatchOption result (begun_with most names.now text.now ≡ none)
        (λ rest. begun_with most names.now text.now ≡ some (parts 10 rest.now)) }
    ensures begins { IfSome result (λ rest. text.now ≡ names.now ++ (10 ∷ rest.now)) }
    ensures short { IfSome result (λ rest. (length text.now ≤ most) × (length rest.now < length text.now)) }
{
    if most < text.len() {
        return None;
    }
    let (first, rest) = split_once(text, b'\n')?;
    if same(first, names) { Some(rest) } else { None }
}

// T5: the digits of a tenth, and then the last digit. The place is handed from digit to digit: kept in an `Out` in memory, as it was
// tried, a card's numbers took twice the instructions.
fn write_decimal(v: u64, bytes: &mut [u8], at: usize) -> usize
    requires { at + length (decimal v) ≤ length bytes.old }
    ensures { Written bytes.old at (decimal v) bytes.new result }
{
    if v < 10 {
        bytes[at] = b'0' + v as u8;
        return at + 1;
    }
    let end = write_decimal(v / 10, bytes, at);
    bytes[end] = b'0' + (v % 10) as u8;
    end + 1
}

// Lent bytes, and how far they are written.
#[derive(Drop)]
pub struct Out<'a> {
    pub bytes: &'a mut [u8],
    pub at: usize,
}

impl Out<'_> {
    // The bytes, written there.
    pub fn place(&mut self, bytes: &[u8])
        requires { self.old.at + length bytes.now ≤ length self.old.bytes.now }
        ensures written { Written self.old.bytes.now self.old.at bytes.now self.new.bytes.now self.new.at }
        ensures len { length self.new.bytes.now ≡ length self.old.bytes.now }
        ensures same_reference { self.new.bytes.ghost_name ≡ self.old.bytes.ghost_name }
    {
        let end = self.at + bytes.len();
        self.bytes[self.at..end].copy_from_slice(bytes);
        self.at = end;
    }

    // T5
    pub fn decimal(&mut self, v: u64)
        requires { self.old.at + length (decimal v) ≤ length self.old.bytes.now }
        ensures written { Written self.old.bytes.now self.old.at (decimal v) self.new.bytes.now self.new.at }
        ensures len { length self.new.bytes.now ≡ length self.old.bytes.now }
        ensures same_reference { self.new.bytes.ghost_name ≡ self.old.bytes.ghost_name }
    {
        self.at = write_decimal(v, self.bytes, self.at);
    }

    // T5: a stored key, as the key that it stands for.
    pub fn key(&mut self, s: u64)
        requires { self.old.at + length (decimal_key (key_of s)) ≤ length self.old.bytes.now }
        ensures written { Written self.old.bytes.now self.old.at (decimal_key (key_of s)) self.new.bytes.now self.new.at }
        ensures len { length self.new.bytes.now ≡ length self.old.bytes.now }
        ensures same_reference { self.new.bytes.ghost_name ≡ self.old.bytes.ghost_name }
    {
        if 31 <= s {
            self.decimal(s - 31);
        } else {
            self.place(b"-");
            self.decimal(31 - s);
        }
    }

    // D7, O8: the line of a refusal with that number, whichever it is.
    pub fn refusal_number(&mut self, n: u32)
        requires { self.old.at + length (refusal_text n) ≤ length self.old.bytes.now }
        ensures written { Written self.old.bytes.now self.old.at (refusal_text n) self.new.bytes.now self.new.at }
        ensures len { length self.new.bytes.now ≡ length self.old.bytes.now }
        ensures same_reference { self.new.bytes.ghost_name ≡ self.old.bytes.ghost_name }
    {
        self.place(b"no");
        self.decimal(n as u64);
        self.place(b"\n");
    }

    // D7, O8
    pub fn refusal(&mut self, r: Refusal)
        requires { self.old.at + length (refusal_text (number r)) ≤ length self.old.bytes.now }
        ensures written { Written self.old.bytes.now self.old.at (refusal_text (number r)) self.new.bytes.now self.new.at }
        ensures len { length self.new.bytes.now ≡ length self.old.bytes.now }
        ensures same_reference { self.new.bytes.ghost_name ≡ self.old.bytes.ghost_name }
    {
        self.refusal_number(r.number());
    }
}
