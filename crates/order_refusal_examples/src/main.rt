// Every refusal of the start order and of a file of pairs, and for every two neighbours of the table one that both would turn away.
// A line says the call and what is wrong with it; then its answer and whether a result word has changed, or what is printed of the file.
#![tactic(auto)]

use numbers::Out;

// The pair "a before b" is the word a * BEFORE + b.
const BEFORE: u64 = 4294967296;

fn main() {
    bad_lengths();
    bad_parties();
    refused_twice();
    not_refused();
    order_in_12_words();
    files();
}

fn files() {
    bad_starts();
    bad_lines();
    bad_numbers();
    bad_blanks();
    large_parties();
    long_files();
    long_numbers();
    files_of_one_pair();
    large_parties_and_more();
    good_files();
}

fn bad_lengths() {
    start(b"start order, 65 pairs", &[BEFORE + 2; 65]);
    let text = b"start order, 7 words lent";
    start_into(text, &[BEFORE + 2], &[99; 7], &mut [99; 7]);
}

fn bad_parties() {
    start(b"start order, party 8 before 1", &[8 * BEFORE + 1]);
    start(b"start order, 1 before party 8", &[BEFORE + 8]);
    start(b"start order, party 9 before itself", &[9 * BEFORE + 9]);
}

fn refused_twice() {
    start(b"start order, 65 pairs, party 8", &[8 * BEFORE + 1; 65]);
    let text = b"start order, 7 words lent, party 8";
    start_into(text, &[BEFORE + 8], &[99; 7], &mut [99; 7]);
    let text = b"start order, party 8 before 1, a circle of party 3";
    start(text, &[8 * BEFORE + 1, 3 * BEFORE + 3]);
}

// A circle is no refusal, and writes nothing either.
fn not_refused() {
    let text = b"start order, a circle of parties 3 and 5";
    start(text, &[5 * BEFORE + 3, 3 * BEFORE + 5]);
    start(b"start order, 64 pairs, nothing wrong", &[BEFORE + 2; 64]);
    start(b"start order, no pair, nothing wrong", &[]);
}

// An order is written to the first eight words.
fn order_in_12_words() {
    let mut result = [99u64; 12];
    let code = space_c::space_start_order(&[7 * BEFORE], &mut result);
    refusal_lines::show(
        b"start order, 12 words lent, nothing wrong",
        code,
        &[99; 12],
        &result,
    );
    refusal_lines::show(
        b"start order, 12 words lent, the last four",
        code,
        &[99; 4],
        &result[8..],
    );
}

fn bad_starts() {
    file(b"file of pairs, empty", b"");
    let text = b"file of pairs, names line without a line feed";
    file(text, b"before after");
    file(b"file of pairs, another names line", b"before then\n0 3\n");
    let text = b"file of pairs, another names line, a leading zero";
    file(text, b"before then\n0 03\n");
}

fn bad_lines() {
    let text = b"file of pairs, no line feed at the end";
    file(text, b"before after\n0 3");
    file(b"file of pairs, an empty line", b"before after\n\n");
    file(b"file of pairs, one number", b"before after\n3\n");
    file(b"file of pairs, three numbers", b"before after\n0 3 5\n");
}

fn bad_numbers() {
    file(b"file of pairs, a leading zero", b"before after\n0 03\n");
    file(b"file of pairs, a minus", b"before after\n-0 3\n");
    file(b"file of pairs, a plus", b"before after\n0 +3\n");
    file(b"file of pairs, a letter", b"before after\n0 x\n");
}

fn bad_blanks() {
    file(b"file of pairs, two blanks", b"before after\n0  3\n");
    let text = b"file of pairs, a blank at the end";
    file(text, b"before after\n0 3 \n");
    file(b"file of pairs, a tab", b"before after\n0\t3\n");
    let text = b"file of pairs, a carriage return";
    file(text, b"before after\n0 3\r\n");
}

fn large_parties() {
    file(b"file of pairs, party 8 before 1", b"before after\n8 1\n");
    file(b"file of pairs, 1 before party 8", b"before after\n1 8\n");
    let text = b"file of pairs, party 9 before itself";
    file(text, b"before after\n9 9\n");
    let text = b"file of pairs, party 18446744073709551616";
    file(text, b"before after\n1 18446744073709551616\n");
}

// The names line and empty lines, which can't be read: as long as a file may be, and longer.
fn long_files() {
    let mut longest = [10u8; 4096];
    longest[..13].copy_from_slice(b"before after\n");
    file(b"file of pairs, 4096 bytes, empty lines", &longest);
    let mut longer = [10u8; 4097];
    longer[..13].copy_from_slice(b"before after\n");
    file(b"file of pairs, 4097 bytes, empty lines", &longer);
}

// The same with one line, whose second party is above 7.
fn long_numbers() {
    let mut longest = [49u8; 4096];
    longest[..15].copy_from_slice(b"before after\n0 ");
    longest[4095] = 10;
    let text = b"file of pairs, 4096 bytes, a party of 4080 digits";
    file(text, &longest);
    let mut longer = [49u8; 4097];
    longer[..15].copy_from_slice(b"before after\n0 ");
    longer[4096] = 10;
    let text = b"file of pairs, 4097 bytes, a party of 4081 digits";
    file(text, &longer);
}

// 269 bytes are the names line and 64 lines.
fn files_of_one_pair() {
    let text = b"file of pairs, 64 pairs, nothing wrong";
    file_of(text, b"0 3\n", &mut [0; 269]);
    file_of(b"file of pairs, 65 pairs", b"0 3\n", &mut [0; 273]);
    let text = b"file of pairs, 65 pairs, then no line feed at the end";
    file_of(text, b"0 3\n", &mut [0; 274]);
    file_of(b"file of pairs, 65 pairs, party 8", b"8 3\n", &mut [0; 273]);
}

fn large_parties_and_more() {
    let text = b"file of pairs, party 8, no line feed at the end";
    file(text, b"before after\n8 1");
    let text = b"file of pairs, party 8, then a leading zero";
    file(text, b"before after\n8 1\n0 03\n");
    let text = b"file of pairs, a leading zero, then party 8";
    file(text, b"before after\n0 03\n8 1\n");
    let text = b"file of pairs, party 8, a circle of party 3";
    file(text, b"before after\n8 1\n3 3\n");
}

fn good_files() {
    let text = b"file of pairs, a circle of parties 3 and 5";
    file(text, b"before after\n5 3\n3 5\n");
    file(b"file of pairs, nothing wrong", b"before after\n7 0\n");
    file(b"file of pairs, no pair, nothing wrong", b"before after\n");
}

// From here on: as a program in C makes the call, with words that are the same before it.
fn start(text: &[u8], pairs: &[u64]) {
    start_into(text, pairs, &[99; 8], &mut [99; 8]);
}

fn start_into(text: &[u8], pairs: &[u64], before: &[u64], res: &mut [u64]) {
    let code = space_c::space_start_order(pairs, res);
    refusal_lines::show(text, code, before, res);
}

fn file(text: &[u8], bytes: &[u8]) {
    io::write_all(1, text);
    io::write_all(1, b": ");
    let mut lent = [0; 22];
    let mut out = Out {
        bytes: &mut lent,
        at: 0,
    };
    order_print::print_order(bytes, &mut out);
    let end = out.at;
    io::write_all(1, &lent[..end]);
}

// The names line, and the line of four bytes as often as it fits.
fn file_of(text: &[u8], line: &[u8; 4], bytes: &mut [u8]) {
    let names = b"before after\n";
    for (i, byte) in bytes.iter_mut().enumerate() {
        *byte = if i < 13 { names[i] } else { line[(i - 13) % 4] };
    }
    file(text, bytes);
}
