// The five calls of the space: open, put, look, receive and take.
#![tactic(auto)]

ghost use Rattle.std.specs.Prelude.{◌≡◌, true, [], ◌++◌, ◌<◌, ◌≤◌, length, drop};
ghost use Rattle.rules.specs.Names.{key_in_range, co_key, stored};
ghost use Rattle.rules.specs.Matching.{looking, receiving, taking};
ghost use Rattle.rules.specs.Calls.{put, seek};
ghost use Rattle.rules.specs.Words.{exit, call, opening};
ghost use Rattle.refusal.specs.Numbers.{numbered};
ghost use Rattle.words.specs.Pairs.{meant};
ghost use Rattle.search.specs.Place as place;
ghost use Rattle.space.specs.Answers.{done_meant, found_meant, sought_in, fields_at, written, granted};

use edits::Entry;
use refusal::Refusal;
use search::Op;
use words::Pair;

// C1
pub fn open(space: &mut [u64], roster: &[u64]) -> Result<(), Refusal>
    ensures { exit (done_meant result) space.new [] ≡ opening space.old roster.now }
{
    if space.len() != 1809 {
        return Err(Refusal::Unsound);
    }
    if refusals::bad_roster(roster) {
        return Err(Refusal::BadRoster);
    }
    holdings::fill(space, roster);
    Ok(())
}

// C2
pub fn put(
    space: &mut [u64],
    party: u32,
    read: Pair,
    take: Pair,
    fields: &[u64],
) -> Result<(), Refusal>
    ensures { exit (done_meant result) space.new [] ≡ call space.old (put party (meant read) (meant take) fields.now) }
{
    refusals::of_put(space, party, read, take, fields)?;
    let entry = Entry {
        writer: party as u64,
        read: read.stored(),
        take: take.stored(),
        fields,
    };
    edits::add_row(space, entry);
    Ok(())
}

// C8: the space is lent for reading only, so no word of it changes.
pub fn look(
    space: &[u64],
    party: u32,
    pair: Pair,
    fields: &[u64],
    res: &mut [u64],
) -> Result<Option<usize>, Refusal>
    ensures { exit (found_meant result) space.now res.new ≡ call space.now (seek looking party (meant pair) fields.now res.old) }
{
    let found = seek(space, Op::Looking, party, pair, fields, res)?;
    // `and`: the boards' build takes no closure that holds a reference (board/module.py)
    Ok(found.and(Some(fields.len())))
}

// C3
pub fn receive(
    space: &mut [u64],
    party: u32,
    pair: Pair,
    fields: &[u64],
    res: &mut [u64],
) -> Result<Option<usize>, Refusal>
    ensures { exit (found_meant result) space.new res.new ≡ call space.old (seek receiving party (meant pair) fields.now res.old) }
{
    let found = obtain(space, Op::Receiving, party, pair, fields, res)?;
    Ok(found.and(Some(fields.len())))
}

// C4
pub fn take(
    space: &mut [u64],
    party: u32,
    pair: Pair,
    fields: &[u64],
    res: &mut [u64],
) -> Result<Option<usize>, Refusal>
    ensures { exit (found_meant result) space.new res.new ≡ call space.old (seek taking party (meant pair) fields.now res.old) }
{
    let Some(row) = obtain(space, Op::Taking, party, pair, fields, res)? else {
        return Ok(None);
    };
    edits::remove_row(space, row as usize);
    Ok(Some(fields.len()))
}

// C3, C4: what receive and take have in common: where an entry is found, the party holds the names in its fields.
fn obtain(
    space: &mut [u64],
    op: Op,
    party: u32,
    pair: Pair,
    fields: &[u64],
    res: &mut [u64],
) -> Result<Option<u32>, Refusal>
    ensures value { numbered result ≡ sought_in space.old (place.meant op) party (meant pair) fields.now (length res.old) }
    ensures space_after { space.new ≡ granted (numbered result) party (length fields.now) space.old }
    ensures res_after { res.new ≡ written (numbered result) (length fields.now) space.old res.old }
{
    let Some(row) = seek(space, op, party, pair, fields, res)? else {
        return Ok(None);
    };
    holdings::hold_names(space, party as usize, &res[..fields.len()]);
    Ok(Some(row))
}

// R1 to R7, R13, R14, M5: what all three have in common: the oldest match is sought, and its fields are copied out.
fn seek(
    space: &[u64],
    op: Op,
    party: u32,
    pair: Pair,
    fields: &[u64],
    res: &mut [u64],
) -> Result<Option<u32>, Refusal>
    ensures value { numbered result ≡ sought_in space.now (place.meant op) party (meant pair) fields.now (length res.old) }
    ensures res_after { res.new ≡ written (numbered result) (length fields.now) space.now res.old }
{
    // parts of their own: passed on whole, a slice is read byte by byte on the board's smaller core
    let template = &fields[0..];
    let shared = &space[0..];
    let bounded = refusals::of_seek(shared, party, pair, template, res.len())?;
    let cokey = co_key_of(pair);
    let Some(row) = search::search(shared, op, pair.partitions, cokey, template, bounded) else {
        return Ok(None);
    };
    copy_out(shared, row, fields.len(), res);
    Ok(Some(row as u32))
}

// N4, N5: the key that the search looks for.
fn co_key_of(pair: Pair) -> u32
    requires { key_in_range pair.key ≡ true }
    ensures { result ≡ stored (co_key pair.key) }
{
    words::stored_co_key(pair.key)
}

// C3, C8: the row's first n field words come first in the result, and the rest of it is kept.
fn copy_out(space: &[u64], row: usize, n: usize, res: &mut [u64])
    requires { (length space.now ≡ 1809) × (row < 128) × (n ≤ 8) × (n ≤ length res.old) }
    ensures { res.new ≡ fields_at row n space.now ++ drop n res.old }
{
    let at = starts::start(row as u32) as usize + 6;
    let end = at + n;
    edits::copy_in(&space[at..end], res);
}
