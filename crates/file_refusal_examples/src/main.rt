// Every refusal of a roster file, and for every two neighbours of the table one that both would turn away.
// A line says what is wrong with the file, its answer, and whether a word of the roster has changed.
#![tactic(auto)]

fn main() {
    words_lent();
    bad_starts();
    bad_lines();
    bad_names();
    long_files();
    refused_by_the_start();
    refused_by_lines();
}

fn words_lent() {
    let text = b"file, 15 words lent";
    file_into(text, b"party kind name\n1 p 5\n", &[99; 15], &mut [99; 15]);
    let text = b"file, 17 words lent";
    file_into(text, b"party kind name\n1 p 5\n", &[99; 17], &mut [99; 17]);
}

fn bad_starts() {
    file(b"file, empty", b"");
    file(b"file, names line without a line feed", b"party kind name");
    file(b"file, another names line", b"party kind value\n1 p 5\n");
}

fn bad_lines() {
    file(b"file, an empty line", b"party kind name\n\n");
    file(b"file, a leading zero", b"party kind name\n1 p 05\n");
    file(b"file, -0", b"party kind name\n1 k -0\n");
    let text = b"file, a minus before the party";
    file(text, b"party kind name\n-1 p 5\n");
    file(b"file, kind s", b"party kind name\n1 s 5\n");
    file(b"file, no line feed at the end", b"party kind name\n1 p 5");
}

fn bad_names() {
    file(b"file, party 8", b"party kind name\n8 p 5\n");
    file(b"file, partition 64", b"party kind name\n1 p 64\n");
    file(b"file, partition -5", b"party kind name\n1 p -5\n");
    file(b"file, key -32", b"party kind name\n1 k -32\n");
    let text = b"file, partition 18446744073709551621";
    file(text, b"party kind name\n1 p 18446744073709551621\n");
    let text = b"file, nothing wrong";
    file(text, b"party kind name\n1 p 5\n1 k -4\n1 p 5\n");
}

// The names line and empty lines, which can't be read: as long as a file may be, and longer.
fn long_files() {
    let mut longest = [10u8; 16384];
    longest[..16].copy_from_slice(b"party kind name\n");
    file(b"file, 16384 bytes, empty lines", &longest);
    let mut longer = [10u8; 16385];
    longer[..16].copy_from_slice(b"party kind name\n");
    file(b"file, 16385 bytes, empty lines", &longer);
}

fn refused_by_the_start() {
    file_into(b"file, 15 words lent, empty", b"", &[99; 15], &mut [99; 15]);
    let text = b"file, another names line, a leading zero";
    file(text, b"party kind value\n1 p 05\n");
    let text = b"file, another names line, party 8";
    file(text, b"party kind value\n8 p 5\n");
}

fn refused_by_lines() {
    file(b"file, party 8, kind s", b"party kind name\n8 s 5\n");
    let text = b"file, party 8, no line feed at the end";
    file(text, b"party kind name\n8 p 5");
    let text = b"file, party 8, then a line with a leading zero";
    file(text, b"party kind name\n8 p 5\n1 p 05\n");
    let text = b"file, a leading zero, then a line with party 8";
    file(text, b"party kind name\n1 p 05\n8 p 5\n");
}

fn file(text: &[u8], bytes: &[u8]) {
    file_into(text, bytes, &[99; 16], &mut [99; 16]);
}

// As a program in C makes the call, with words that are the same before it.
fn file_into(text: &[u8], bytes: &[u8], before: &[u64], words: &mut [u64]) {
    let code = space_c::space_read_roster(bytes, words);
    refusal_lines::show(text, code, before, words);
}
