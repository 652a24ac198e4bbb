// The soundness test of a space: one pass over its words, which also counts each writer's entries.
#![tactic(auto)]

ghost use Rattle.std.specs.Prelude.{◌≡◌, ◌≤◌, length, get_or, drop};
ghost use Rattle.rules.specs.Lists.{all};
ghost use Rattle.rules.specs.Words.{row_start, decode, is_zero, holdings_ok};
ghost use Rattle.audit.specs.Audited.{audited, AfterRowsFor};

// S6 to S8 of n live rows: how many of them the party has, if they are sound. Each writer's are counted here and not handed out, so that
// a call keeps them on its stack once. A row is a slice where it is used, and each test below a `for`: the boards' build takes no array
// made of a slice, no slice handed out and no iterator's Option of a reference (board/module.py).
fn charge_of(space: &[u64], n: u32, party: u32) -> Option<u32>
    requires { (length space.now ≡ 1809) × (n ≤ 128) × (n ≡ get_or space.now 0 0) }
    ensures { AfterRowsFor result party space.now }
{
    let mut charges = [0u32; 8];
    for r in 0..n {
        let at = starts::start(r) as usize;
        let end = at + 14;
        let row = &space[at..end];
        if !rows::row_ok(row) {
            return None;
        }
        let charge = &mut charges[row[0] as usize];
        if 16 <= *charge {
            return None;
        }
        *charge += 1;
    }
    // whoever asks for a party above 7 makes no use of the answer
    Some(charges[(party % 8) as usize])
}

// S4, S5: the eight key words.
fn holdings_ok(space: &[u64]) -> bool
    requires { length space.now ≡ 1809 }
    ensures { result ≡ holdings_ok (decode space.now) }
{
    for keys in &space[9..17] {
        let good = words::has_bit(*keys, 31) & !words::has_bit(*keys, 63);
        if !good {
            return false;
        }
    }
    true
}

// S9: the rows past the live ones, each tested as a whole, so that a comparison serves many words.
fn rest_ok(space: &[u64], n: u32) -> bool
    requires { length space.now ≡ 1809 }
    ensures { result ≡ all is_zero (drop (row_start n) space.now) }
{
    for r in n..128 {
        let at = starts::start(r) as usize;
        let end = at + 14;
        if !rows::blank(&space[at..end]) {
            return false;
        }
    }
    true
}

// S1, S2, S4 to S9
pub fn audit(space: &[u64], party: u32) -> Option<u32>
    ensures { result ≡ audited space.now party }
{
    if space.len() != 1809 {
        return None;
    }
    let live = space[0];
    if 128 < live {
        return None;
    }
    let n = live as u32;
    if !holdings_ok(space) {
        return None;
    }
    let charge = charge_of(space, n, party)?;
    if !rest_ok(space, n) {
        return None;
    }
    if 7 < party {
        return Some(0);
    }
    Some(charge)
}
