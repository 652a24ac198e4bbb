// The start order: from pairs "a before b" the order in which to start the eight programs, or a party on a circle.
#![tactic(auto)]

ghost use Rattle.std.specs.Prelude.{◌≡◌, true, false, not, ◌++◌, map, ◌≤◌, ◌<◌, length, drop, get_or};
ghost use Rattle.std.proofs.Math.Option.{some};
ghost use Rattle.refusal.specs.Given.{given};
ghost use Rattle.rules.specs.Lists.{all, any, keep, first};
ghost use Rattle.rules.specs.Names.{parties, bit, with_bit};
ghost use Rattle.rules.specs.Words.{zeros};
ghost use Rattle.start_order.specs.Pairs.{pair_of, chain};
ghost use Rattle.start_order.specs.Order.{ready, next, order};
ghost use Rattle.start_order.specs.Call.{above7, call_on};
ghost use Rattle.start_order.specs.Answers.{relation_of, gathered, full_order, joined_by, Settled};

use refusal::Refusal;

// O4: an order, or the smallest party on a circle.
#[derive(Clone, Copy)]
pub enum Start {
    Order,
    Circle(u32),
}

// A set of parties is a byte with their bits, so that none in it is above 7 by its type. A trait for these two tests and those of
// the 64 bits in `words` would be longer than both, and no function is generic over it.
fn has(set: u8, p: u32) -> bool
    requires { p < 8 }
    ensures { result ≡ bit set p }
{
    (set >> p) % 2 == 1
}

fn with(set: u8, p: u32) -> u8
    requires { p < 8 }
    ensures { result ≡ with_bit set p }
{
    set | (1u8 << p)
}

// O3: all parties of the set are placed.
fn all_placed(set: u8, placed: u8) -> bool
    ensures { result ≡ all (bit placed) (keep (bit set) parties) }
{
    set & placed == set
}

// R16: no party is above 7: the bits of all words together tell. A `for`: what `fold` takes from its iterator is laid out otherwise
// on the boards, for which the desk's module is compiled.
fn in_range(pairs: &[u64]) -> bool
    ensures { result ≡ not (any above7 (map pair_of pairs.now)) }
{
    let mut seen = 0;
    for pair in pairs {
        seen |= *pair;
    }
    !((7 < seen / 4294967296) | (7 < seen % 4294967296))
}

// O1: each party's predecessors.
#[tactic(auto, unfolding(rules::specs::Words::zeros))]
fn gather(pairs: &[u64]) -> [u8; 8]
    requires { any above7 (map pair_of pairs.now) ≡ false }
    ensures { result ≡ gathered (zeros 8) (map pair_of pairs.now) }
{
    let mut waits = [0u8; 8];
    for pair in pairs {
        let at = (*pair % 4294967296) as usize;
        waits[at] = with(waits[at], (*pair / 4294967296) as u32);
    }
    waits
}

// O3: not placed, and all predecessors placed.
#[tactic(auto, unfolding(crate::specs::Order::ready))]
fn is_ready(waits: &[u8; 8], placed: u8, p: u32) -> bool
    requires { p < 8 }
    ensures { result ≡ ready (relation_of waits.now) (bit placed) p }
{
    !has(placed, p) & all_placed(waits[p as usize], placed)
}

// O3: the party for the next place. A `for` here and below: what a closure of `find` holds is refused where the desk's module is
// made ready for the boards.
fn next_party(waits: &[u8; 8], placed: u8) -> Option<u32>
    ensures { result ≡ given (next (relation_of waits.now) (bit placed)) }
{
    for p in 0..8 {
        if is_ready(waits, placed, p) {
            return Some(p);
        }
    }
    None
}

// O3: the order, if all eight places are taken.
fn arrange(waits: &[u8; 8]) -> Option<[u64; 8]>
    ensures { result ≡ full_order (order (relation_of waits.now)) }
{
    let mut places = [0u64; 8];
    let mut placed: u8 = 0;
    for place in places.iter_mut() {
        let p = next_party(waits, placed)?;
        *place = p as u64;
        placed = with(placed, p);
    }
    Some(places)
}

// O2: what leads to a party, with what leads to k if k does.
fn joined(set: u8, via: u8, k: u32) -> u8
    requires { k < 8 }
    ensures { result ≡ joined_by via k set }
{
    if has(set, k) { set | via } else { set }
}

// O2: the chains through k, for each party at their end.
fn join(waits: &mut [u8; 8], k: u32)
    requires { k < 8 }
    ensures { waits.new ≡ map (joined_by (get_or waits.old k 0) k) waits.old }
{
    let via = waits[k as usize];
    for set in waits.iter_mut() {
        *set = joined(*set, via, k);
    }
}

// O2: all chains.
fn close(waits: &mut [u8; 8])
    ensures { relation_of waits.new ≡ chain (relation_of waits.old) 8 }
{
    for k in 0..8 {
        join(waits, k);
    }
}

// O2: the smallest party that a chain leads back to; there is one, so the last need not be tested.
fn smallest(chains: &[u8; 8]) -> u32
    requires { any (λ p. relation_of chains.now p p) parties ≡ true }
    ensures { first (λ p. relation_of chains.now p p) parties ≡ some result }
{
    for p in 0..7 {
        if has(chains[p as usize], p) {
            return p;
        }
    }
    7
}

// O4: the order comes first, and the rest is kept. Place by place: `copy_from_slice` compares addresses as 64 bits, which a board hasn't.
fn write_places(places: &[u64; 8], res: &mut [u64])
    requires { 8 ≤ length res.old }
    ensures { res.new ≡ places.now ++ drop 8 res.old }
{
    for (i, place) in places.iter().enumerate() {
        res[i] = *place;
    }
}

// O4
pub fn start_order(pairs: &[u64], res: &mut [u64]) -> Result<Start, Refusal>
    ensures { Settled (call_on pairs.now res.old) result res.old res.new }
{
    if (64 < pairs.len()) | (res.len() < 8) {
        return Err(Refusal::TooManyPairs);
    }
    if !in_range(pairs) {
        return Err(Refusal::UnknownStarter);
    }
    let mut waits = gather(pairs);
    if let Some(places) = arrange(&waits) {
        write_places(&places, res);
        return Ok(Start::Order);
    }
    close(&mut waits);
    Ok(Start::Circle(smallest(&waits)))
}
