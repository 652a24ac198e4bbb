// The search for the oldest entry that matches a template. Words that a sound space keeps small are compared as u32, since the
// board's core has 32 bits.
#![tactic(auto)]

ghost use Rattle.std.specs.Prelude.{◌≡◌, true, not, ◌+◌, ◌≤◌, ◌<◌, length, get_or, take, drop};
ghost use Rattle.rules.specs.Names.{co_stored};
ghost use Rattle.rules.specs.Lists.{all};
ghost use Rattle.rules.specs.Partitions.{sets};
ghost use Rattle.rules.specs.Fields.{field_agrees};
ghost use Rattle.rules.specs.Matching.{pair, fields_agree, matches};
ghost use Rattle.rules.specs.Words.{row_start, decode, sound};
ghost use Rattle.search.specs.Place.{meant, place};
ghost use Rattle.words.specs.Kind.{plain};
ghost use Rattle.search.specs.Pairs.{offset, SmallAt, pair_at};

// C3, C4, C8: what the search is for.
#[derive(Clone, Copy)]
pub enum Op {
    Looking,
    Receiving,
    Taking,
}

// M5: left at the first row whose fields all agree, and each row at the first field that does not. Whoever tested the template
// knows whether it has bounds.
pub fn search(
    space: &[u64],
    op: Op,
    partitions: u64,
    cokey: u32,
    template: &[u64],
    bounded: bool,
) -> Option<usize>
    requires { (sound space.now ≡ true) × (cokey ≤ 62) × (length template.now ≤ 8) × (not bounded ≡ true → all plain template.now ≡ true) }
    ensures { result ≡ place (matches sets (meant op) (pair partitions (co_stored cokey)) template.now) (decode space.now).entries }
{
    let pair = pair_of(op);
    let live = live_rows(space);
    let count = template.len() as u32;
    // by hand: as `for`s, which were tried, a call took up to 11 percent more instructions on the smaller core
    let mut row = 0;
    'rows: while row < live {
        let at = starts::start(row) as usize;
        let end = at + 6;
        if pair_agrees(&space[at..end], pair, partitions, cokey, count) {
            let mut i = 0;
            'fields: loop {
                if i == count {
                    break 'rows;
                }
                let k = i as usize;
                if !agrees(template[k], space[at + (6 + k)], bounded) {
                    break 'fields;
                }
                i += 1;
            }
        }
        row += 1;
    }
    if row < live { Some(row as usize) } else { None }
}

// S2: how many rows are live. More than 128 there never are; the test tells the compiler, which then needs none at each row.
fn live_rows(space: &[u64]) -> u32
    requires { sound space.now ≡ true }
    ensures { result ≡ get_or space.now 0 0 }
{
    space[0].min(128) as u32
}

// M2, by the quicker test where no word is a bound.
fn agrees(t: u64, f: u64, bounded: bool) -> bool
    requires { not bounded ≡ true → plain t ≡ true }
    ensures { result ≡ field_agrees t f }
{
    if bounded {
        words::field_agrees(t, f)
    } else {
        words::plain_agrees(t, f)
    }
}

// L4: where a row has the operation's pair.
fn pair_of(op: Op) -> usize
    ensures { result ≡ offset op }
{
    match op {
        Op::Looking | Op::Receiving => 1,
        Op::Taking => 3,
    }
}

// M1, M3, M4: the row has the count, and the pair.
fn pair_agrees(head: &[u64], pair: usize, partitions: u64, cokey: u32, count: u32) -> bool
    requires { (length head.now ≡ 6) × (pair ≤ 3) × SmallAt head.now pair }
    ensures { result ≡ pair_at head.now pair partitions cokey count }
{
    let fields = head[5] as u32 == count;
    let shared = words::sets_agree(partitions, head[pair]);
    let keys = head[pair + 1] as u32 == cokey;
    fields & shared & keys
}
