// Reading a line of the console: seven items, as a gift to the roster or as a call.
#![tactic(auto)]

ghost use Rattle.std.specs.Prelude.{◌≡◌, List, ℕ};
ghost use Rattle.text.specs.Numbers.{unsigned, signed};
ghost use Rattle.text.specs.Partitions.{read_partitions};
ghost use Rattle.search.specs.Place as place;
ghost use Rattle.numbers.specs.Parts.{same};
ghost use Rattle.lines.specs.Lines.{dash, pair_of, op_of, read_line};
ghost use Rattle.lines.specs.Read.{no_take_pair, partition_gift, key_gift, give_in, put_in, seek_in, meant_gift, meant_op, meant_pair, ItemsAre, LineIs};

use search::Op;
use words::Pair;

// T15: the items of a line, named as in the names line.
#[derive(Clone, Copy)]
struct Items<'a> {
    call: &'a [u8],
    party: &'a [u8],
    rpart: &'a [u8],
    rkey: &'a [u8],
    tpart: &'a [u8],
    tkey: &'a [u8],
    fields: &'a [u8],
}

// C2 to C4, C8: a call. The words of its fields are the first `count` of those lent.
#[derive(Clone, Copy)]
pub enum Call {
    Put {
        party: u32,
        read: Pair,
        take: Pair,
        count: usize,
    },
    Seek {
        op: Op,
        party: u32,
        pair: Pair,
        count: usize,
    },
}

// T11, T12: what a line asks for. A gift may leave out its partition and its stored key.
#[derive(Clone, Copy)]
pub enum Line {
    Give {
        party: u32,
        partition: Option<u64>,
        key: Option<u64>,
    },
    Ask(Call),
}

// T15: none, where a line doesn't have six blanks.
#[tactic(auto, using(crate::proofs::Cuts::past_cut, crate::proofs::Cuts::blanks_cut, crate::proofs::Cuts::one_item))]
fn split(line: &[u8]) -> Option<Items<'_>>
    ensures { ItemsAre line.now result }
{
    let (call, rest) = numbers::split_once(line, b' ')?;
    let (party, rest) = numbers::split_once(rest, b' ')?;
    let (rpart, rest) = numbers::split_once(rest, b' ')?;
    let (rkey, rest) = numbers::split_once(rest, b' ')?;
    let (tpart, rest) = numbers::split_once(rest, b' ')?;
    let (tkey, fields) = numbers::split_once(rest, b' ')?;
    if fields.contains(&b' ') {
        return None;
    }
    Some(Items {
        call,
        party,
        rpart,
        rkey,
        tpart,
        tkey,
        fields,
    })
}

fn pair_in(partitions: &[u8], key: &[u8]) -> Option<Pair>
    ensures { meant_pair result ≡ pair_of (read_partitions partitions.now) (signed key.now) }
{
    let partitions = text::read_partitions(partitions)?;
    let key = text::read_signed(key)?;
    Some(Pair { partitions, key })
}

fn is_dash(item: &[u8]) -> bool
    ensures { result ≡ same item.now dash }
{
    numbers::same(item, b"-")
}

// T12, T14: `-` for both.
fn no_take_pair(items: &Items<'_>) -> bool
    ensures { result ≡ no_take_pair items.now.tpart.now items.now.tkey.now }
{
    is_dash(items.tpart) & is_dash(items.tkey)
}

// T12
fn partition_gift(item: &[u8]) -> Option<Option<u64>>
    ensures { meant_gift result ≡ partition_gift item.now }
{
    match text::read_unsigned(item) {
        Some(partition) if partition <= 63 => Some(Some(partition as u64)),
        None if is_dash(item) => Some(None),
        _ => None,
    }
}

// T12; one function with `partition_gift`, by closures, would be no shorter
fn key_gift(item: &[u8]) -> Option<Option<u64>>
    ensures { meant_gift result ≡ key_gift item.now }
{
    match text::read_signed(item) {
        Some(key) if words::key_in_range(key) => Some(Some(words::stored_key(key))),
        None if is_dash(item) => Some(None),
        _ => None,
    }
}

// T12
fn read_give(items: &Items<'_>) -> Option<Line>
    ensures { (ws : List ℕ) → LineIs (give_in items.now) result ws }
{
    if !(no_take_pair(items) & is_dash(items.fields)) {
        return None;
    }
    let party = text::read_unsigned(items.party)?;
    let partition = partition_gift(items.rpart)?;
    let key = key_gift(items.rkey)?;
    if 7 < party {
        return None;
    }
    Some(Line::Give {
        party,
        partition,
        key,
    })
}

// T13
fn read_put(items: &Items<'_>, words: &mut [u64; 16]) -> Option<Line>
    ensures { LineIs (put_in items.now) result words.new }
{
    let party = text::read_unsigned(items.party)?;
    let read = pair_in(items.rpart, items.rkey)?;
    let take = pair_in(items.tpart, items.tkey)?;
    let count = text::read_fields(items.fields, words)?;
    Some(Line::Ask(Call::Put {
        party,
        read,
        take,
        count,
    }))
}

// T14
fn read_seek(op: Op, items: &Items<'_>, words: &mut [u64; 16]) -> Option<Line>
    ensures { LineIs (seek_in (place.meant op) items.now) result words.new }
{
    if !no_take_pair(items) {
        return None;
    }
    let party = text::read_unsigned(items.party)?;
    let pair = pair_in(items.rpart, items.rkey)?;
    let count = text::read_fields(items.fields, words)?;
    Some(Line::Ask(Call::Seek {
        op,
        party,
        pair,
        count,
    }))
}

// T11
fn op_in(word: &[u8]) -> Option<Op>
    ensures { meant_op result ≡ op_of word.now }
{
    // tried as a match on byte strings, and the proof didn't close: each byte that may differ is a goal of its own
    if numbers::same(word, b"look") {
        return Some(Op::Looking);
    }
    if numbers::same(word, b"receive") {
        return Some(Op::Receiving);
    }
    if numbers::same(word, b"take") {
        return Some(Op::Taking);
    }
    None
}

// T15, T11: the fields of a call are read into the words.
pub fn read_line(line: &[u8], words: &mut [u64; 16]) -> Option<Line>
    ensures { LineIs (read_line line.now) result words.new }
{
    let items = split(line)?;
    if numbers::same(items.call, b"give") {
        return read_give(&items);
    }
    if numbers::same(items.call, b"put") {
        return read_put(&items, words);
    }
    read_seek(op_in(items.call)?, &items, words)
}
