// When a call is turned away: the tests in the table's order, of which the first that applies decides.
#![tactic(auto)]

ghost use Rattle.std.specs.Prelude.{◌≡◌, not, ◌∷◌, ◌≤◌, length};
ghost use Rattle.rules.specs.Lists.{all};
ghost use Rattle.rules.specs.Partitions.{sets};
ghost use Rattle.rules.specs.Fields.{template_field};
ghost use Rattle.rules.specs.State.{live};
ghost use Rattle.rules.specs.Calls.{first_that_applies, bad_pair, put_table, seek_table};
ghost use Rattle.rules.specs.Words.{decode, sound, bad_roster};
ghost use Rattle.refusal.specs.Numbers.{numbered};
ghost use Rattle.words.specs.Kind.{plain};
ghost use Rattle.words.specs.Pairs.{meant};
ghost use Rattle.held.specs.Verdicts.{verdict};
ghost use Rattle.refusals.specs.Admissions.{first_tests, begun, admitted_by};

use refusal::Refusal;
use words::Pair;

// R1 to R8, R13, R14
#[tactic(auto, using(crate::proofs::Steps::put_steps))]
pub fn of_put(
    space: &[u64],
    party: u32,
    read: Pair,
    take: Pair,
    fields: &[u64],
) -> Result<(), Refusal>
    ensures { numbered result ≡ verdict ((not (sound space.now), 1) ∷ put_table sets (decode space.now) party (meant read) (meant take) fields.now) }
{
    let live = first_tests(space, party, fields)?;
    if bad_pair(read) | bad_pair(take) {
        return Err(Refusal::BadPair);
    }
    if !rows::put_fields(fields) {
        return Err(Refusal::BadField);
    }
    held::put_names(space, party, read, take, fields)?;
    if 16 <= live {
        return Err(Refusal::NoRoom);
    }
    Ok(())
}

// R1 to R7, R13, R14: where the call passes, whether its template has bounds, which the search has to know.
#[tactic(auto, using(crate::proofs::Steps::seek_steps))]
pub fn of_seek(
    space: &[u64],
    party: u32,
    pair: Pair,
    template: &[u64],
    room: usize,
) -> Result<bool, Refusal>
    ensures { numbered result ≡ admitted_by (verdict ((not (sound space.now), 1) ∷ seek_table sets (decode space.now) party (meant pair) template.now room)) (all plain template.now) }
{
    first_tests(space, party, template)?;
    if bad_pair(pair) {
        return Err(Refusal::BadPair);
    }
    let bounded = !plain_fields(template);
    if !fields_ok(template, bounded) {
        return Err(Refusal::BadField);
    }
    held::seek_names(space, party, pair, template)?;
    if room < template.len() {
        return Err(Refusal::ShortResult);
    }
    Ok(bounded)
}

// R1 to R3: how many live entries the party has, where the tests that every call begins with pass.
fn first_tests(space: &[u64], party: u32, fields: &[u64]) -> Result<u32, Refusal>
    ensures { numbered result ≡ begun (first_that_applies (first_tests space.now party fields.now)) (live party (decode space.now).entries) }
{
    let live = audit::audit(space, party).ok_or(Refusal::Unsound)?;
    if 7 < party {
        return Err(Refusal::UnknownParty);
    }
    let n = fields.len();
    if (n == 0) | (8 < n) {
        return Err(Refusal::FieldCount);
    }
    Ok(live)
}

// R4
fn bad_pair(pair: Pair) -> bool
    ensures { result ≡ bad_pair sets (meant pair) }
{
    (pair.partitions == 0) | !words::key_in_range(pair.key)
}

// R5. Plain fields need no second look.
fn fields_ok(template: &[u64], bounded: bool) -> bool
    requires { bounded ≡ not (all plain template.now) }
    ensures { result ≡ all template_field template.now }
{
    !bounded || template_fields(template)
}

// F2: no field is a bound, nor bad. (This and the next stay two: one function over both tests would be no shorter than either.)
fn plain_fields(template: &[u64]) -> bool
    ensures { result ≡ all plain template.now }
{
    // a `for`, here and below: the boards' build takes no iterator's Option of a reference (board/module.py)
    for field in template {
        if !words::plain_field(*field) {
            return false;
        }
    }
    true
}

// F4
fn template_fields(template: &[u64]) -> bool
    ensures { result ≡ all template_field template.now }
{
    for field in template {
        if !words::template_field(*field) {
            return false;
        }
    }
    true
}

// R9
pub fn bad_roster(roster: &[u64]) -> bool
    ensures { result ≡ bad_roster roster.now }
{
    if roster.len() != 16 {
        return true;
    }
    for keys in &roster[8..] {
        if words::has_bit(*keys, 63) {
            return true;
        }
    }
    false
}
