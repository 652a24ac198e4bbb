// Whether a party holds the names that a call uses: the tests of refusals 13, 14 and 7.
#![tactic(auto)]

ghost use Rattle.std.specs.Prelude.{◌≡◌, true, [], ◌∷◌, ◌+◌, ◌≤◌, ◌<◌, length, get_or};
ghost use Rattle.rules.specs.Lists.{all};
ghost use Rattle.rules.specs.Names.{key_in_range, stored, bit, bits_in, held_in};
ghost use Rattle.rules.specs.Partitions.{sets};
ghost use Rattle.rules.specs.Fields.{names_in};
ghost use Rattle.rules.specs.Matching.{stored_pair};
ghost use Rattle.rules.specs.Calls.{held_tests, name_tests};
ghost use Rattle.rules.specs.Words.{decode};
ghost use Rattle.refusal.specs.Numbers.{numbered};
ghost use Rattle.words.specs.Pairs.{meant};
ghost use Rattle.held.specs.Verdicts.{verdict};

use refusal::Refusal;
use words::Pair;

// L2, L3: what a party holds.
#[derive(Clone, Copy)]
struct Holdings {
    partitions: u64,
    keys: u64,
}

// R13, R14, R7
pub fn put_names(
    space: &[u64],
    party: u32,
    read: Pair,
    take: Pair,
    fields: &[u64],
) -> Result<(), Refusal>
    requires { (length space.now ≡ 1809) × (party < 8) × (key_in_range read.key ≡ true) × (key_in_range take.key ≡ true) × (length fields.now ≤ 8) }
    ensures { numbered result ≡ verdict (name_tests sets (decode space.now) party (stored_pair (meant read) ∷ stored_pair (meant take) ∷ []) fields.now) }
{
    let holdings = holdings_of(space, party);
    let within = holdings.set_held(read) & holdings.set_held(take);
    let has_keys = holdings.key_held(read) & holdings.key_held(take);
    holdings.missing(within, has_keys, fields)
}

// R13, R14, R7
pub fn seek_names(space: &[u64], party: u32, pair: Pair, template: &[u64]) -> Result<(), Refusal>
    requires { (length space.now ≡ 1809) × (party < 8) × (key_in_range pair.key ≡ true) × (length template.now ≤ 8) }
    ensures { numbered result ≡ verdict (name_tests sets (decode space.now) party (stored_pair (meant pair) ∷ []) template.now) }
{
    let holdings = holdings_of(space, party);
    let within = holdings.set_held(pair);
    let has_key = holdings.key_held(pair);
    holdings.missing(within, has_key, template)
}

// L2, L3: the party's two words.
fn holdings_of(space: &[u64], party: u32) -> Holdings
    requires { (length space.now ≡ 1809) × (party < 8) }
    ensures partitions { result.partitions ≡ get_or space.now (1 + party) 0 }
    ensures keys { result.keys ≡ get_or space.now (9 + party) 0 }
{
    let p = party as usize;
    Holdings {
        partitions: space[1 + p],
        keys: space[9 + p],
    }
}

impl Holdings {
    // R13: the partitions of a pair.
    fn set_held(self, pair: Pair) -> bool
        ensures { result ≡ all (bit self.partitions) (bits_in pair.partitions) }
    {
        words::set_held(self.partitions, pair.partitions)
    }

    // R14: the key of a pair.
    fn key_held(self, pair: Pair) -> bool
        requires { key_in_range pair.key ≡ true }
        ensures { result ≡ bit self.keys (stored pair.key) }
    {
        words::has_bit(self.keys, words::stored_key(pair.key))
    }

    // R7: the names in fields.
    fn fields_held(self, fields: &[u64]) -> bool
        ensures { result ≡ all (held_in self.partitions self.keys) (names_in fields.now) }
    {
        // a `for`: the boards' build takes no iterator's Option of a reference (board/module.py)
        for field in fields {
            if !words::field_held(self.partitions, self.keys, *field) {
                return false;
            }
        }
        true
    }

    // R13, R14, R7, by whether all partitions of pairs are held, all their keys, and the names in fields.
    fn missing(self, within: bool, has_keys: bool, fields: &[u64]) -> Result<(), Refusal>
        ensures { numbered result ≡ verdict (held_tests within has_keys (all (held_in self.partitions self.keys) (names_in fields.now))) }
    {
        if !within {
            return Err(Refusal::PartitionNotHeld);
        }
        if !has_keys {
            return Err(Refusal::KeyNotHeld);
        }
        if !self.fields_held(fields) {
            return Err(Refusal::NameNotHeld);
        }
        Ok(())
    }
}
