// The program `roster`: reads a station's roster file from standard input, opens a space with it and prints the roster back.
#![tactic(auto)]

use numbers::Out;

fn main() {
    let mut input = [0; 16385];
    let mut space = [0; 1809];
    let mut roster = [0; 16];
    let mut bytes = [0; 8208];
    let n = io::read_full(0, &mut input);
    let mut out = Out {
        bytes: &mut bytes,
        at: 0,
    };
    let _done = roster_print::set_up(&input[..n], &mut roster, &mut space, &mut out);
    let Out { bytes, at } = out;
    io::write_all(1, &bytes[..at]);
}
