// The program `order`: reads a file of pairs from standard input and prints the start order, or a party on a circle, or the refusal.
#![tactic(auto)]

use numbers::Out;

fn main() {
    let mut input = [0; 4097];
    let mut bytes = [0; 22];
    let n = io::read_full(0, &mut input);
    let mut out = Out {
        bytes: &mut bytes,
        at: 0,
    };
    order_print::print_order(&input[..n], &mut out);
    let end = out.at;
    io::write_all(1, &bytes[..end]);
}
