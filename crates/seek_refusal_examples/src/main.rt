// Every refusal of a look, a receive and a take, and for every two neighbours of the table one that both would turn away.
// A line says the call, what is wrong with it, its answer, and whether a word of space or result has changed.
#![tactic(auto)]

use refusal::Refusal;
use refusal_lines::{
    AT_LEAST, AT_MOST, EMPTY, KEY, KIND_6, PARTITION, SET_0, SET_0_5, SET_5, SET_5_6, SET_6,
    SET_OF_ALL, WILDCARD, pair,
};
use search::Op;
use words::Pair;

fn main() {
    let words = refusal_lines::opened();
    seek_examples(words, Op::Looking);
    seek_examples(words, Op::Receiving);
    seek_examples(words, Op::Taking);
}

// The first field of the first row.
fn with_a_bound(words: [u64; 1809]) -> [u64; 1809] {
    refusal_lines::with_word(words, 23, AT_LEAST + 7)
}

// A seek is a look, a receive or a take. There is an entry that it would find.
fn seek_examples(opened: [u64; 1809], op: Op) {
    let words = refusal_lines::with_an_entry(opened);
    seek_refused(words, op);
    seek_of_names(words, op);
    seek_refused_twice(words, op);
    seek_fields(b"nothing wrong", words, op, &[7, WILDCARD]);
}

fn seek_refused(words: [u64; 1809], op: Op) {
    seek_of_unsound(words, op);
    seek_of_bad_counts(words, op);
    seek_of_bad_pairs(words, op);
    seek_of_bad_fields(words, op);
    seek_of_bounds(words, op);
}

fn seek_of_names(words: [u64; 1809], op: Op) {
    seek_of_sets(words, op);
    seek_of_others_pairs(words, op);
    seek_of_others_fields(words, op);
    seek_of_two_others_names(words, op);
}

fn seek_refused_twice(words: [u64; 1809], op: Op) {
    seek_of_bad_counts_and_more(words, op);
    seek_of_bad_fields_and_more(words, op);
    seek_of_bad_fields_and_others(words, op);
    seek_to_one_word_and_more(words, op);
    seek_to_one_word_and_all(words, op);
}

fn seek_of_unsound(words: [u64; 1809], op: Op) {
    seek_1808(b"1808 words", words, op, 1);
    let text = b"129 live entries";
    seek_fields(text, refusal_lines::with_129_entries(words), op, &[7, 120]);
    let text = b"a row with an empty read set";
    seek_fields(
        text,
        refusal_lines::with_an_empty_read_set(words),
        op,
        &[7, 120],
    );
    let text = b"a row with an empty take set";
    seek_fields(
        text,
        refusal_lines::with_an_empty_take_set(words),
        op,
        &[7, 120],
    );
    seek_1808(b"1808 words, party 8", words, op, 8);
}

fn seek_of_bad_counts(words: [u64; 1809], op: Op) {
    seek(b"party 8", words, op, 8, pair(SET_5, -4), &[7, 120]);
    seek_fields(b"no field", words, op, &[]);
    seek(b"9 fields", words, op, 1, pair(SET_5, -4), &[7; 9]);
}

fn seek_of_bad_pairs(words: [u64; 1809], op: Op) {
    seek(b"empty set", words, op, 1, pair(EMPTY, -4), &[7, 120]);
    seek(b"key 32", words, op, 1, pair(SET_5, 32), &[7, 120]);
    seek(b"key -32", words, op, 1, pair(SET_5, -32), &[7, 120]);
}

fn seek_of_bad_fields(words: [u64; 1809], op: Op) {
    seek_fields(b"field of kind 6", words, op, &[7, KIND_6]);
    seek_fields(b"field with partition 64", words, op, &[7, PARTITION + 64]);
    seek_fields(b"field with stored key 63", words, op, &[7, KEY + 63]);
    seek_fields(b"wildcard with value 1", words, op, &[7, WILDCARD + 1]);
    seek_to_one_word(
        b"2 fields, 1 result word",
        words,
        op,
        pair(SET_5, -4),
        &[7, 120],
    );
}

fn seek_of_bounds(words: [u64; 1809], op: Op) {
    seek_fields(b"a row with at least 7", with_a_bound(words), op, &[7, 120]);
    let text = b"bounds, 1 result word";
    seek_to_one_word(
        text,
        words,
        op,
        pair(SET_5, -4),
        &[AT_MOST + 7, AT_LEAST + 120],
    );
    let text = b"bounds, nothing wrong";
    seek_fields(text, words, op, &[AT_MOST + 7, AT_LEAST + 120]);
}

fn seek_of_sets(words: [u64; 1809], op: Op) {
    let text = b"set {0, 5}, nothing wrong";
    seek(text, words, op, 1, pair(SET_0_5, -4), &[7, 120]);
    let text = b"set {0}, nothing shared";
    seek(text, words, op, 1, pair(SET_0, -4), &[7, 120]);
    let text = b"party 0, set {0}, 0 not held";
    seek(text, words, op, 0, pair(SET_0, 0), &[7, 120]);
}

fn seek_of_others_pairs(words: [u64; 1809], op: Op) {
    seek(
        b"set {6}, 6 not held",
        words,
        op,
        1,
        pair(SET_6, -4),
        &[7, 120],
    );
    let text = b"set {5, 6}, 6 not held";
    seek(text, words, op, 1, pair(SET_5_6, -4), &[7, 120]);
    let text = b"set of all 64, most not held";
    seek(text, words, op, 1, pair(SET_OF_ALL, -4), &[7, 120]);
    seek(b"key 4 not held", words, op, 1, pair(SET_5, 4), &[7, 120]);
}

fn seek_of_others_fields(words: [u64; 1809], op: Op) {
    let text = b"partition 6 in a field, not held";
    seek_fields(text, words, op, &[7, PARTITION + 6]);
    seek_fields(b"key 4 in a field, not held", words, op, &[7, KEY + 35]);
    let text = b"party 0, partition 0 in a field, not held";
    seek(text, words, op, 0, pair(SET_5, 4), &[7, PARTITION]);
}

fn seek_of_two_others_names(words: [u64; 1809], op: Op) {
    let text = b"set {5, 6}, 6 not held, key 4 not held";
    seek(text, words, op, 1, pair(SET_5_6, 4), &[7, 120]);
    let text = b"set {6}, 6 not held, key 4 in a field, not held";
    seek(text, words, op, 1, pair(SET_6, -4), &[7, KEY + 35]);
    let text = b"key 4 not held, partition 6 in a field, not held";
    seek(text, words, op, 1, pair(SET_5, 4), &[7, PARTITION + 6]);
}

fn seek_of_bad_counts_and_more(words: [u64; 1809], op: Op) {
    seek(b"party 8, no field", words, op, 8, pair(SET_5, -4), &[]);
    seek(
        b"9 fields, empty set",
        words,
        op,
        1,
        pair(EMPTY, -4),
        &[7; 9],
    );
    seek(b"9 fields, key 32", words, op, 1, pair(SET_5, 32), &[7; 9]);
}

fn seek_of_bad_fields_and_more(words: [u64; 1809], op: Op) {
    let text = b"empty set, field of kind 6";
    seek(text, words, op, 1, pair(EMPTY, -4), &[7, KIND_6]);
    let text = b"key 32, field of kind 6";
    seek(text, words, op, 1, pair(SET_5, 32), &[7, KIND_6]);
    let text = b"field of kind 6, 1 result word";
    seek_to_one_word(text, words, op, pair(SET_5, -4), &[7, KIND_6]);
}

fn seek_of_bad_fields_and_others(words: [u64; 1809], op: Op) {
    let text = b"field of kind 6, set {6}, 6 not held";
    seek(text, words, op, 1, pair(SET_6, -4), &[7, KIND_6]);
    let text = b"field of kind 6, key 4 not held";
    seek(text, words, op, 1, pair(SET_5, 4), &[7, KIND_6]);
    let text = b"field of kind 6, key 4 in a field, not held";
    seek_fields(text, words, op, &[KEY + 35, KIND_6]);
}

fn seek_to_one_word_and_more(words: [u64; 1809], op: Op) {
    let text = b"1 result word, set {5, 6}, 6 not held";
    seek_to_one_word(text, words, op, pair(SET_5_6, -4), &[7, 120]);
    let text = b"1 result word, key 4 not held";
    seek_to_one_word(text, words, op, pair(SET_5, 4), &[7, 120]);
    let text = b"1 result word, partition 6 in a field, not held";
    seek_to_one_word(text, words, op, pair(SET_5, -4), &[7, PARTITION + 6]);
    let text = b"1 result word, key 4 in a field, not held";
    seek_to_one_word(text, words, op, pair(SET_5, -4), &[7, KEY + 35]);
}

fn seek_to_one_word_and_all(words: [u64; 1809], op: Op) {
    let text = b"1 result word, set {6}, 6 not held, key 4 not held, and in a field";
    seek_to_one_word(text, words, op, pair(SET_6, 4), &[7, KEY + 35]);
    let text = b"1 result word, key 4 not held, and in a field";
    seek_to_one_word(text, words, op, pair(SET_5, 4), &[7, KEY + 35]);
    let text = b"1 result word, bounds, set {6}, 6 not held";
    seek_to_one_word(
        text,
        words,
        op,
        pair(SET_6, -4),
        &[AT_MOST + 7, AT_LEAST + 120],
    );
}

// From here on: each call is made on a copy, which is then compared with the words as they were.
fn seek_fields(text: &[u8], words: [u64; 1809], op: Op, fields: &[u64]) {
    seek(text, words, op, 1, pair(SET_5, -4), fields);
}

fn seek<const N: usize>(
    text: &[u8],
    words: [u64; N],
    op: Op,
    party: u32,
    pair: Pair,
    fields: &[u64],
) {
    seek_into(text, words, op, party, pair, fields, [99; 8]);
}

fn seek_to_one_word(text: &[u8], words: [u64; 1809], op: Op, pair: Pair, fields: &[u64]) {
    seek_into(text, words, op, 1, pair, fields, [99; 1]);
}

fn seek_into<const N: usize, const M: usize>(
    text: &[u8],
    words: [u64; N],
    op: Op,
    party: u32,
    pair: Pair,
    fields: &[u64],
    lent: [u64; M],
) {
    let mut after = words;
    let mut result = lent;
    let answer = sought(&mut after, op, party, pair, fields, &mut result);
    refusal_lines::show_seek(op, text, answer, &words, &after, &lent, &result);
}

fn seek_1808(text: &[u8], words: [u64; 1809], op: Op, party: u32) {
    let fewer = refusal_lines::first_1808(words);
    seek(text, fewer, op, party, pair(SET_5, -4), &[7, 120]);
}

fn sought(
    words: &mut [u64],
    op: Op,
    party: u32,
    pair: Pair,
    fields: &[u64],
    res: &mut [u64],
) -> Result<Option<usize>, Refusal> {
    match op {
        Op::Looking => space::look(words, party, pair, fields, res),
        Op::Receiving => space::receive(words, party, pair, fields, res),
        Op::Taking => space::take(words, party, pair, fields, res),
    }
}
