// The functions of space_c for programs in C, exported as include/space.h declares them: a crate is a library or a static library, not both.
#![tactic(auto)]

ghost use Rattle.std.specs.Prelude.{[]};
ghost use Rattle.rules.specs.Matching.{pair, looking, receiving, taking};
ghost use Rattle.rules.specs.Calls.{put, seek};
ghost use Rattle.rules.specs.Words.{call, opening};
ghost use Rattle.start_order.specs.Call.{call_on};
ghost use Rattle.space_c.specs.Codes.{Left, read_into, Read, Started};

// C1
#[unsafe(no_mangle)]
pub extern "C" fn space_open(space: &mut [u64], roster: &[u64]) -> u32
    ensures { Left result space.new [] (opening space.old roster.now) }
{
    space_c::space_open(space, roster)
}

// C2
#[unsafe(no_mangle)]
pub extern "C" fn space_put(
    space: &mut [u64],
    party: u32,
    read_partitions: u64,
    read_key: i32,
    take_partitions: u64,
    take_key: i32,
    fields: &[u64],
) -> u32
    ensures { Left result space.new [] (call space.old (put party (pair read_partitions read_key) (pair take_partitions take_key) fields.now)) }
{
    space_c::space_put(
        space,
        party,
        read_partitions,
        read_key,
        take_partitions,
        take_key,
        fields,
    )
}

// C8
#[unsafe(no_mangle)]
pub extern "C" fn space_look(
    space: &[u64],
    party: u32,
    partitions: u64,
    key: i32,
    fields: &[u64],
    res: &mut [u64],
) -> u32
    ensures { Left result space.now res.new (call space.now (seek looking party (pair partitions key) fields.now res.old)) }
{
    space_c::space_look(space, party, partitions, key, fields, res)
}

// C3
#[unsafe(no_mangle)]
pub extern "C" fn space_receive(
    space: &mut [u64],
    party: u32,
    partitions: u64,
    key: i32,
    fields: &[u64],
    res: &mut [u64],
) -> u32
    ensures { Left result space.new res.new (call space.old (seek receiving party (pair partitions key) fields.now res.old)) }
{
    space_c::space_receive(space, party, partitions, key, fields, res)
}

// C4
#[unsafe(no_mangle)]
pub extern "C" fn space_take(
    space: &mut [u64],
    party: u32,
    partitions: u64,
    key: i32,
    fields: &[u64],
    res: &mut [u64],
) -> u32
    ensures { Left result space.new res.new (call space.old (seek taking party (pair partitions key) fields.now res.old)) }
{
    space_c::space_take(space, party, partitions, key, fields, res)
}

// D1 to D5: a roster from a file.
#[unsafe(no_mangle)]
pub extern "C" fn space_read_roster(file: &[u8], roster: &mut [u64]) -> u32
    ensures { Read result roster.old roster.new (read_into file.now roster.old) }
{
    space_c::space_read_roster(file, roster)
}

// O4, O5: the start order.
#[unsafe(no_mangle)]
pub extern "C" fn space_start_order(pairs: &[u64], res: &mut [u64]) -> u32
    ensures { Started result res.old res.new (call_on pairs.now res.old) }
{
    space_c::space_start_order(pairs, res)
}
