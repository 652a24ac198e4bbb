// The five calls, the reading of a roster and the start order, for programs in C: the crate space_c_c exports them as include/space.h declares them.
#![tactic(auto)]

ghost use Rattle.std.specs.Prelude.{◌≡◌, ◌+◌, []};
ghost use Rattle.rules.specs.Matching.{pair, looking, receiving, taking};
ghost use Rattle.rules.specs.Calls.{put, seek};
ghost use Rattle.rules.specs.Words.{call, opening};
ghost use Rattle.refusal.specs.Numbers.{number};
ghost use Rattle.space.specs.Answers.{done_meant, found_meant, Small};
ghost use Rattle.start_order.specs.Call.{call_on};
ghost use Rattle.space_c.specs.Codes.{code_of, Left, read_into, Read, Started};

use refusal::Refusal;
use start_order::Start;
use words::Pair;

// C1
pub fn space_open(space: &mut [u64], roster: &[u64]) -> u32
    ensures { Left result space.new [] (opening space.old roster.now) }
{
    done(space::open(space, roster))
}

// C2
pub fn space_put(
    space: &mut [u64],
    party: u32,
    read_partitions: u64,
    read_key: i32,
    take_partitions: u64,
    take_key: i32,
    fields: &[u64],
) -> u32
    ensures { Left result space.new [] (call space.old (put party (pair read_partitions read_key) (pair take_partitions take_key) fields.now)) }
{
    let read = Pair {
        partitions: read_partitions,
        key: read_key,
    };
    let take = Pair {
        partitions: take_partitions,
        key: take_key,
    };
    done(space::put(space, party, read, take, fields))
}

// C8
pub fn space_look(
    space: &[u64],
    party: u32,
    partitions: u64,
    key: i32,
    fields: &[u64],
    res: &mut [u64],
) -> u32
    ensures { Left result space.now res.new (call space.now (seek looking party (pair partitions key) fields.now res.old)) }
{
    let pair = Pair { partitions, key };
    found(space::look(space, party, pair, fields, res))
}

// C3
pub fn space_receive(
    space: &mut [u64],
    party: u32,
    partitions: u64,
    key: i32,
    fields: &[u64],
    res: &mut [u64],
) -> u32
    ensures { Left result space.new res.new (call space.old (seek receiving party (pair partitions key) fields.now res.old)) }
{
    let pair = Pair { partitions, key };
    found(space::receive(space, party, pair, fields, res))
}

// C4
pub fn space_take(
    space: &mut [u64],
    party: u32,
    partitions: u64,
    key: i32,
    fields: &[u64],
    res: &mut [u64],
) -> u32
    ensures { Left result space.new res.new (call space.old (seek taking party (pair partitions key) fields.now res.old)) }
{
    let pair = Pair { partitions, key };
    found(space::take(space, party, pair, fields, res))
}

// D1 to D5: a roster from a file.
pub fn space_read_roster(file: &[u8], roster: &mut [u64]) -> u32
    ensures { Read result roster.old roster.new (read_into file.now roster.old) }
{
    if roster.len() != 16 {
        return refused(Refusal::BadRoster);
    }
    done(roster_file::read_roster(file, roster))
}

// O4, O5: the start order.
pub fn space_start_order(pairs: &[u64], res: &mut [u64]) -> u32
    ensures { Started result res.old res.new (call_on pairs.now res.old) }
{
    match start_order::start_order(pairs, res) {
        Ok(Start::Order) => 0,
        Ok(Start::Circle(party)) => party + 1,
        Err(refusal) => refused(refusal),
    }
}

// C5, D5: an opening, a put or a file as a number.
fn done(answer: Result<(), Refusal>) -> u32
    ensures { result ≡ code_of (done_meant answer) }
{
    match answer {
        Ok(()) => 0,
        Err(refusal) => refused(refusal),
    }
}

// C5: a look, receive or take as a number.
fn found(answer: Result<Option<usize>, Refusal>) -> u32
    requires { Small (found_meant answer) }
    ensures { result ≡ code_of (found_meant answer) }
{
    match answer {
        Ok(Some(n)) => n as u32,
        Ok(None) => 0,
        Err(refusal) => refused(refusal),
    }
}

// C5
fn refused(refusal: Refusal) -> u32
    ensures { result ≡ 100 + number refusal }
{
    100 + refusal.number()
}
