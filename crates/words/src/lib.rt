// Words: the bits of sets and holdings, the kinds of field words, stored keys.
#![tactic(auto)]

ghost use Rattle.std.specs.Prelude.{◌≡◌, true, ◌<◌, length};
ghost use Rattle.rules.specs.Lists.{all};
ghost use Rattle.rules.specs.Names.{bit, bits_in, with_bit, set_bit, held_in, key_in_range, co_key, stored};
ghost use Rattle.rules.specs.Partitions.{sets_agree};
ghost use Rattle.rules.specs.Fields.{field, put_field, template_field, name_in, field_agrees};
ghost use Rattle.rules.specs.Matching.{stored_pair};
ghost use Rattle.words.specs.Kind.{meant, plain};
ghost use Rattle.words.specs.Pairs as pairs;

// What a field word is.
#[derive(Clone, Copy)]
pub enum Field {
    Message(u64),
    Partition(u64),
    Key(u64),
    Wildcard,
    AtLeast(u64),
    AtMost(u64),
    // a case and no `None`: it is one of the rules' definition of a field, which the contracts cite
    Bad,
}

// F2: the one place that knows the kinds and their ranges.
impl From<u64> for Field {
    ghost from_gives = { λ w f. meant f ≡ field w };

    #[tactic(auto, unfolding(rules::specs::Fields::field))]
    fn from(w: u64) -> Field {
        let kind = w / 4294967296;
        let value = w % 4294967296;
        match kind {
            0 => Field::Message(value),
            1 if value < 64 => Field::Partition(value),
            2 if value < 63 => Field::Key(value),
            3 if value == 0 => Field::Wildcard,
            4 => Field::AtLeast(value),
            5 => Field::AtMost(value),
            _ => Field::Bad,
        }
    }
}

// E1, E2: a pair as a call names it: a set of partitions and a key.
#[derive(Clone, Copy)]
pub struct Pair {
    pub partitions: u64,
    pub key: i32,
}

// E1: a pair as an entry has it, its key stored.
#[derive(Clone, Copy)]
pub struct StoredPair {
    pub partitions: u64,
    pub key: u64,
}

impl Pair {
    // N5
    pub fn stored(self) -> StoredPair
        requires { key_in_range self.key ≡ true }
        ensures { pairs.meant_stored result ≡ stored_pair (pairs.meant self) }
    {
        StoredPair {
            partitions: self.partitions,
            key: stored_key(self.key),
        }
    }
}

// F3
#[tactic(auto, unfolding(rules::specs::Fields::put_field))]
pub fn put_field(w: u64) -> bool
    ensures { result ≡ put_field w }
{
    // bounds ask, and are not put
    matches!(
        Field::from(w),
        Field::Message(_) | Field::Partition(_) | Field::Key(_)
    )
}

// F4
#[tactic(auto, unfolding(rules::specs::Fields::template_field))]
pub fn template_field(w: u64) -> bool
    ensures { result ≡ template_field w }
{
    !matches!(Field::from(w), Field::Bad)
}

// F2: a field of a template that is no bound.
#[tactic(auto, unfolding(crate::specs::Kind::plain))]
pub fn plain_field(w: u64) -> bool
    ensures { result ≡ plain w }
{
    // a bound is tested by its range
    !matches!(
        Field::from(w),
        Field::AtLeast(_) | Field::AtMost(_) | Field::Bad
    )
}

// R7: the name in a field word, if it carries one, is held.
pub fn field_held(partitions: u64, keys: u64, w: u64) -> bool
    ensures { result ≡ all (held_in partitions keys) (name_in (field w)) }
{
    match Field::from(w) {
        Field::Partition(c) => has_bit(partitions, c),
        Field::Key(k) => has_bit(keys, k),
        _ => true,
    }
}

// M2
pub fn field_agrees(t: u64, f: u64) -> bool
    ensures { result ≡ field_agrees t f }
{
    match Field::from(t) {
        Field::Wildcard => true,
        Field::AtLeast(v) => (v <= f) & (f < 4294967296),
        Field::AtMost(v) => f <= v,
        _ => t == f,
    }
}

// M2 for a field that is no bound: the wildcard's word is 3 × 2^32.
pub fn plain_agrees(t: u64, f: u64) -> bool
    requires { plain t ≡ true }
    ensures { result ≡ field_agrees t f }
{
    (t == 12884901888) | (t == f)
}

// L2: no word has a bit past 63.
pub fn has_bit(w: u64, c: u64) -> bool
    ensures { result ≡ bit w c }
{
    c < 64 && (w >> c) % 2 == 1
}

// M3: the sets share a partition.
pub fn sets_agree(t: u64, e: u64) -> bool
    ensures { result ≡ sets_agree t e }
{
    t & e != 0
}

// R13: every partition of the set is held.
pub fn set_held(partitions: u64, set: u64) -> bool
    ensures { result ≡ all (bit partitions) (bits_in set) }
{
    set & partitions == set
}

// L2
pub fn with_bit(w: u64, c: u64) -> u64
    requires { c < 64 }
    ensures { result ≡ with_bit w c }
{
    w | (1u64 << c)
}

// L2, L3
pub fn set_bit(ws: &mut [u64], at: usize, c: u64)
    requires { (at < length ws.old) × (c < 64) }
    ensures { ws.new ≡ set_bit at c ws.old }
{
    let w = with_bit(ws[at], c);
    ws[at] = w;
}

// N3
pub fn key_in_range(k: i32) -> bool
    ensures { result ≡ key_in_range k }
{
    -31 <= k && k <= 31
}

// N5
pub fn stored_key(k: i32) -> u64
    requires { key_in_range k ≡ true }
    ensures { result ≡ stored k }
{
    (k + 31) as u64
}

// N4, N5: a u32, since the search compares 32 bits.
pub fn stored_co_key(k: i32) -> u32
    requires { key_in_range k ≡ true }
    ensures { result ≡ stored (co_key k) }
{
    let co = -k;
    (co + 31) as u32
}
