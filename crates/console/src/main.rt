// The console: reads standard input, hands each line to the session, and writes what it prints.
#![tactic(auto)]

fn main() {
    let mut input = [0u8; 65537];
    let mut space = [0u64; 1809];
    let mut roster = [0u64; 16];
    let mut out = [0u8; 256];
    let n = io::read_full(0, &mut input);
    if 65536 < n {
        io::write_all(1, b"input too long\n");
        return;
    }
    let mut turn = session::begin(&input[..n], &mut out);
    // a `while let` over the turns would need the write twice
    loop {
        io::write_all(1, &out[..turn.printed]);
        let Some(from) = turn.next else {
            return;
        };
        turn = session::take_turn(from, &mut roster, &mut space, &mut out);
    }
}
