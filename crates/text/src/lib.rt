// The console's text: numbers, sets of partitions, fields and lists of fields read from bytes, and fields rendered to bytes.
#![tactic(auto)]

ghost use Rattle.std.specs.Prelude.{◌≡◌, ℕ, ◌+◌, ◌≤◌, ◌∷◌, length};
ghost use Rattle.std.proofs.Math.Option as rules;
ghost use Rattle.numbers.specs.Numbers.{decimal};
ghost use Rattle.numbers.specs.Written.{Written};
ghost use Rattle.refusal.specs.Given.{given};
ghost use Rattle.text.specs.Numbers.{unsigned, signed};
ghost use Rattle.text.specs.Partitions.{read_partitions};
ghost use Rattle.text.specs.Fields.{of_kind, stored_in, read_field, render_field, read_fields, words_after, render_fields};
ghost use Rattle.text.specs.Answers.{count_of};

use numbers::Out;
use words::Field;

// T3
pub fn read_unsigned(text: &[u8]) -> Option<u32>
    ensures { result ≡ given (unsigned text.now) }
{
    numbers::read_natural(text, u32::MAX).ok()
}

// T4
pub fn read_signed(text: &[u8]) -> Option<i32>
    ensures { result ≡ given (signed text.now) }
{
    numbers::read_whole(text).ok()
}

// T16: part by part; left at the first that is no partition, or not past the one before it.
pub fn read_partitions(text: &[u8]) -> Option<u64>
    ensures { result ≡ given (read_partitions text.now) }
{
    let mut set = 0;
    let mut least = 0;
    for part in text.split(|b| *b == b':') {
        let c = numbers::read_natural(part, 63).ok()?;
        if c < least {
            return None;
        }
        set = words::with_bit(set, c as u64);
        least = c + 1;
    }
    Some(set)
}

// T6
pub fn read_field(text: &[u8]) -> Option<u64>
    ensures { result ≡ given (read_field text.now) }
{
    let (kind, value) = text.split_first()?;
    match *kind {
        b'm' => of_kind(0, read_unsigned(value)),
        b'p' => of_kind(1, read_unsigned(value)),
        b'k' => of_kind(2, read_key(value)),
        b'*' => if value.is_empty() {
            of_kind(3, Some(0))
        } else {
            None
        },
        b'g' => of_kind(4, read_unsigned(value)),
        b'l' => of_kind(5, read_unsigned(value)),
        _ => None,
    }
}

// F1: a kind is the number that the rules give it, since words with it are lent to callers in C.
fn of_kind(kind: u64, value: Option<u32>) -> Option<u64>
    requires { kind ≤ 5 }
    ensures { (read : rules.Option ℕ) → value ≡ given read → result ≡ given (of_kind kind read) }
{
    Some(kind * 4294967296 + value? as u64)
}

// T6: a key from -31 to 31, as it is stored.
fn read_key(text: &[u8]) -> Option<u32>
    ensures { result ≡ given (stored_in (signed text.now)) }
{
    let key = read_signed(text)?;
    if words::key_in_range(key) {
        Some(words::stored_key(key) as u32)
    } else {
        None
    }
}

// T8, T9: left at the first unreadable part, or once sixteen are read and more follow.
pub fn read_fields(text: &[u8], fields: &mut [u64]) -> Option<usize>
    requires { 16 ≤ length fields.old }
    ensures value { result ≡ count_of (read_fields text.now) }
    ensures words { fields.new ≡ words_after text.now fields.old }
{
    if numbers::same(text, b"-") {
        return Some(0);
    }
    let mut n = 0; // counted by hand, since the count is answered after the last part
    for part in text.split(|b| *b == b',') {
        if n == 16 {
            return None;
        }
        fields[n] = read_field(part)?;
        n += 1;
    }
    Some(n)
}

// T6
#[tactic(auto, unfolding(crate::specs::Fields::render_field))]
pub fn render_field(w: u64, out: &mut Out<'_>)
    requires { out.old.at + length (render_field w) ≤ length out.old.bytes.now }
    ensures written { Written out.old.bytes.now out.old.at (render_field w) out.new.bytes.now out.new.at }
    ensures len { length out.new.bytes.now ≡ length out.old.bytes.now }
    ensures same_reference { out.new.bytes.ghost_name ≡ out.old.bytes.ghost_name }
{
    match Field::from(w) {
        Field::Message(v) => lettered(b'm', v, out),
        Field::Partition(c) => lettered(b'p', c, out),
        Field::Key(k) => {
            out.place(b"k");
            out.key(k)
        }
        Field::Wildcard => out.place(b"*"),
        Field::AtLeast(v) => lettered(b'g', v, out),
        Field::AtMost(v) => lettered(b'l', v, out),
        Field::Bad => out.place(b"?"),
    }
}

// T6: a letter and the number after it.
fn lettered(letter: u8, v: u64, out: &mut Out<'_>)
    requires { out.old.at + length (letter ∷ decimal v) ≤ length out.old.bytes.now }
    ensures written { Written out.old.bytes.now out.old.at (letter ∷ decimal v) out.new.bytes.now out.new.at }
    ensures len { length out.new.bytes.now ≡ length out.old.bytes.now }
    ensures same_reference { out.new.bytes.ghost_name ≡ out.old.bytes.ghost_name }
{
    out.place(&[letter]);
    out.decimal(v);
}

// T10: each field after the first stands after a comma.
pub fn render_fields(fields: &[u64], out: &mut Out<'_>)
    requires { out.old.at + length (render_fields fields.now) ≤ length out.old.bytes.now }
    ensures written { Written out.old.bytes.now out.old.at (render_fields fields.now) out.new.bytes.now out.new.at }
    ensures len { length out.new.bytes.now ≡ length out.old.bytes.now }
    ensures same_reference { out.new.bytes.ghost_name ≡ out.old.bytes.ghost_name }
{
    let Some((first, others)) = fields.split_first() else {
        out.place(b"-");
        return;
    };
    render_field(*first, out);
    for w in others {
        out.place(b",");
        render_field(*w, out);
    }
}
