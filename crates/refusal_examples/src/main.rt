// Every refusal of an opening and of a put, and for every two neighbours of the table one that both would turn away.
// A line says the call, what is wrong with it, its answer, and whether a word of the space has changed.
#![tactic(auto)]

use refusal_lines::{
    AT_LEAST, AT_MOST, EMPTY, KEY, KIND_6, OWN, PARTITION, SET_0, SET_5, SET_5_6, SET_6,
    SET_OF_ALL, WILDCARD, pair,
};
use words::Pair;

const BIT_63: u64 = 9223372036854775808;

// Key 0, which is stored as 31, in a key word.
const KEY_0: u64 = 2147483648;

fn main() {
    open_of_bad_lengths();
    open_of_rosters();
    let words = refusal_lines::opened();
    put_of_unsound(words);
    put_of_unsound_holdings(words);
    put_of_bad_counts(words);
    put_of_bad_pairs(words);
    put_of_bad_fields(words);
    put_of_bounds(words);
    put_of_others_read_pairs(words);
    put_of_others_take_pairs(words);
    put_of_others_fields(words);
    put_of_two_others_names(words);
    put_of_others_pairs_and_fields(words);
    put_of_bad_counts_and_more(words);
    put_of_pairs_and_wildcards(words);
    put_of_wildcards_and_names(words);
    put_at_the_limit(words);
}

fn open_of_bad_lengths() {
    open_words(b"open, 1808 words", [0; 1808], &refusal_lines::roster());
    open(b"open, roster of 15 words", &[0; 15]);
    open(b"open, roster of 17 words", &[0; 17]);
}

fn open_of_rosters() {
    let mut bad = refusal_lines::roster();
    bad[15] = BIT_63;
    open(b"open, bit 63 in a key word", &bad);
    open_words(b"open, 1808 words, roster of 15 words", [0; 1808], &[0; 15]);
    open(b"open, nothing wrong", &refusal_lines::roster());
}

fn put_of_unsound(words: [u64; 1809]) {
    let one = refusal_lines::with_an_entry(words);
    put_1808(b"1808 words", words, 0);
    let text = b"129 live entries";
    put_fields(text, refusal_lines::with_129_entries(words), &[7]);
    let text = b"a row with an empty read set";
    put_fields(text, refusal_lines::with_an_empty_read_set(one), &[7]);
    let text = b"a row with an empty take set";
    put_fields(text, refusal_lines::with_an_empty_take_set(one), &[7]);
    put_1808(b"1808 words, party 8", words, 8);
}

fn put_of_unsound_holdings(words: [u64; 1809]) {
    put_fields(b"party 7 without key 0", with_last_keys(words, 0), &[7]);
    let text = b"bit 63 in a key word";
    put_fields(text, with_last_keys(words, BIT_63 + KEY_0), &[7]);
}

// The key word of party 7.
fn with_last_keys(words: [u64; 1809], keys: u64) -> [u64; 1809] {
    refusal_lines::with_word(words, 16, keys)
}

fn put_of_bad_counts(words: [u64; 1809]) {
    put(b"party 8", words, 8, OWN, OWN, &[7]);
    put_fields(b"no field", words, &[]);
    put(b"9 fields", words, 0, OWN, OWN, &[7; 9]);
}

fn put_of_bad_pairs(words: [u64; 1809]) {
    put_pairs(b"empty read set", words, pair(EMPTY, 4), OWN);
    put_pairs(b"read key 32", words, pair(SET_5, 32), OWN);
    put_pairs(b"empty take set", words, OWN, pair(EMPTY, 4));
    put_pairs(b"take key -32", words, OWN, pair(SET_5, -32));
}

fn put_of_bad_fields(words: [u64; 1809]) {
    put_fields(b"field of kind 6", words, &[KIND_6]);
    put_fields(b"field with partition 64", words, &[PARTITION + 64]);
    put_fields(b"field with stored key 63", words, &[KEY + 63]);
    put_fields(b"wildcard", words, &[WILDCARD]);
}

fn put_of_bounds(words: [u64; 1809]) {
    put_fields(b"at least 7", words, &[AT_LEAST + 7]);
    put_fields(b"at most 7", words, &[AT_MOST + 7]);
    let text = b"empty read set, at least 7";
    put(text, words, 0, pair(EMPTY, 4), OWN, &[AT_LEAST + 7]);
    let text = b"at most 7, read key -4 not held";
    put(text, words, 0, pair(SET_5, -4), OWN, &[AT_MOST + 7]);
}

fn put_of_others_read_pairs(words: [u64; 1809]) {
    put_pairs(b"read set {6}, 6 not held", words, pair(SET_6, 4), OWN);
    put_pairs(b"read set {5, 6}, 6 not held", words, pair(SET_5_6, 4), OWN);
    let text = b"read set of all 64, most not held";
    put_pairs(text, words, pair(SET_OF_ALL, 4), OWN);
    put_pairs(b"read key -4 not held", words, pair(SET_5, -4), OWN);
    put_pairs(b"read set {0}, 0 not held", words, pair(SET_0, 0), OWN);
}

fn put_of_others_take_pairs(words: [u64; 1809]) {
    put_pairs(b"take set {6}, 6 not held", words, OWN, pair(SET_6, 4));
    put_pairs(b"take set {5, 6}, 6 not held", words, OWN, pair(SET_5_6, 4));
    let text = b"take set of all 64, most not held";
    put_pairs(text, words, OWN, pair(SET_OF_ALL, 4));
    put_pairs(b"take key -4 not held", words, OWN, pair(SET_5, -4));
    put_pairs(b"take set {0}, 0 not held", words, OWN, pair(SET_0, 0));
}

fn put_of_others_fields(words: [u64; 1809]) {
    put_fields(b"carried partition 6 not held", words, &[PARTITION + 6]);
    put_fields(b"carried key -4 not held", words, &[KEY + 27]);
    put_fields(b"carried partition 0 not held", words, &[PARTITION]);
}

fn put_of_two_others_names(words: [u64; 1809]) {
    let text = b"read set {5, 6}, 6 not held, read key -4 not held";
    put_pairs(text, words, pair(SET_5_6, -4), OWN);
    let text = b"read key -4 not held, take set {6}, 6 not held";
    put_pairs(text, words, pair(SET_5, -4), pair(SET_6, 4));
}

fn put_of_others_pairs_and_fields(words: [u64; 1809]) {
    let text = b"read set {6}, 6 not held, carried key -4 not held";
    put(text, words, 0, pair(SET_6, 4), OWN, &[KEY + 27]);
    let text = b"take set {6}, 6 not held, carried partition 6 not held";
    put(text, words, 0, OWN, pair(SET_6, 4), &[PARTITION + 6]);
    let text = b"read key -4 not held, carried partition 6 not held";
    put(text, words, 0, pair(SET_5, -4), OWN, &[PARTITION + 6]);
    let text = b"take key -4 not held, carried key -4 not held";
    put(text, words, 0, OWN, pair(SET_5, -4), &[KEY + 27]);
}

fn put_of_bad_counts_and_more(words: [u64; 1809]) {
    put(b"party 8, no field", words, 8, OWN, OWN, &[]);
    let text = b"9 fields, take key -32";
    put(text, words, 0, OWN, pair(SET_5, -32), &[7; 9]);
    let text = b"9 fields, empty take set";
    put(text, words, 0, OWN, pair(EMPTY, 4), &[7; 9]);
}

fn put_of_pairs_and_wildcards(words: [u64; 1809]) {
    let text = b"empty read set, wildcard";
    put(text, words, 0, pair(EMPTY, 4), OWN, &[WILDCARD]);
    let text = b"take key -32, wildcard";
    put(text, words, 0, OWN, pair(SET_5, -32), &[WILDCARD]);
}

fn put_of_wildcards_and_names(words: [u64; 1809]) {
    let text = b"wildcard, read set {5, 6}, 6 not held";
    put(text, words, 0, pair(SET_5_6, 4), OWN, &[WILDCARD]);
    let text = b"wildcard, take set {6}, 6 not held";
    put(text, words, 0, OWN, pair(SET_6, 4), &[WILDCARD]);
    let text = b"wildcard, read key -4 not held";
    put(text, words, 0, pair(SET_5, -4), OWN, &[WILDCARD]);
}

// The entries before the 16th are put unshown, and so is the 16th after it is shown.
fn put_at_the_limit(words: [u64; 1809]) {
    let mut full = words;
    for _ in 0..15 {
        let _ = space::put(&mut full, 0, OWN, OWN, &[7]);
    }
    put_fields(b"16th entry", full, &[7]);
    let _ = space::put(&mut full, 0, OWN, OWN, &[7]);
    put_above_the_limit(full);
}

fn put_above_the_limit(full: [u64; 1809]) {
    put_fields(b"17th entry", full, &[7]);
    let text = b"17th entry, take set {5, 6}, 6 not held";
    put_pairs(text, full, OWN, pair(SET_5_6, 4));
    let text = b"17th entry, take key -4 not held";
    put_pairs(text, full, OWN, pair(SET_5, -4));
    put_fields(b"17th entry, carried key -4 not held", full, &[KEY + 27]);
}

// From here on: each call is made on a copy, which is then compared with the words as they were.
fn open(text: &[u8], roster: &[u64]) {
    open_words(text, [0; 1809], roster);
}

fn open_words<const N: usize>(text: &[u8], words: [u64; N], roster: &[u64]) {
    let mut after = words;
    let answer = space::open(&mut after, roster);
    refusal_lines::show(text, answer, &words, &after);
}

fn put_fields(text: &[u8], words: [u64; 1809], fields: &[u64]) {
    put(text, words, 0, OWN, OWN, fields);
}

fn put_pairs(text: &[u8], words: [u64; 1809], read: Pair, take: Pair) {
    put(text, words, 0, read, take, &[7]);
}

fn put<const N: usize>(
    text: &[u8],
    words: [u64; N],
    party: u32,
    read: Pair,
    take: Pair,
    fields: &[u64],
) {
    let mut after = words;
    let answer = space::put(&mut after, party, read, take, fields);
    io::write_all(1, b"put, ");
    refusal_lines::show(text, answer, &words, &after);
}

fn put_1808(text: &[u8], words: [u64; 1809], party: u32) {
    let fewer = refusal_lines::first_1808(words);
    put(text, fewer, party, OWN, OWN, &[7]);
}
