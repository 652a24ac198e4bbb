// One row of the table: whether its words are sound.
#![tactic(auto)]

ghost use Rattle.std.specs.Prelude.{◌≡◌, length, drop};
ghost use Rattle.rules.specs.Lists.{all};
ghost use Rattle.rules.specs.Fields.{put_field};
ghost use Rattle.rules.specs.Words.{is_zero, head_ok, row_ok};

// L4: every word of the row is 0. Their bits are gathered, so that one comparison serves many words. The first two go apart:
// past a return in between, the compiler branches on the answer and makes no number of it, which is shorter on the board.
pub fn blank(row: &[u64]) -> bool
    requires { length row.now ≡ 14 }
    ensures { result ≡ all is_zero row.now }
{
    if (row[0] | row[1]) != 0 {
        return false;
    }
    let head = row[2] | row[3] | row[4] | row[5];
    let rest = head | row[6] | row[7] | row[8] | row[9] | row[10] | row[11] | row[12] | row[13];
    rest == 0
}

// F3: every field is one that a put may carry. A `for`: the boards' build takes no iterator's Option of a reference (board/module.py).
pub fn put_fields(fields: &[u64]) -> bool
    ensures { result ≡ all put_field fields.now }
{
    for w in fields {
        if !words::put_field(*w) {
            return false;
        }
    }
    true
}

// S6: the six words before the fields. The count is tested first, which is shorter on every core.
fn head_ok(row: &[u64]) -> bool
    requires { length row.now ≡ 14 }
    ensures { result ≡ head_ok row.now }
{
    let writer = row[0] <= 7;
    let read_partitions = row[1] != 0;
    let read_key = row[2] <= 62;
    let take_partitions = row[3] != 0;
    let take_key = row[4] <= 62;
    let some = 1 <= row[5];
    let few = row[5] <= 8;
    some & (few & (writer & (read_partitions & (read_key & (take_partitions & take_key)))))
}

// S7: the words of the row from that one on are 0. The index is a u32, since the board's core has 32 bits.
fn zero_from(row: &[u64], from: u32) -> bool
    requires { length row.now ≡ 14 }
    ensures { result ≡ all is_zero (drop from row.now) }
{
    for i in from..14 {
        if row[i as usize] != 0 {
            return false;
        }
    }
    true
}

// S6, S7: all eight field words are tested as fields, since those past the fields are 0, and 0 is one. A loop over eight words
// is shorter than one that the row's own count bounds.
pub fn row_ok(row: &[u64]) -> bool
    requires { length row.now ≡ 14 }
    ensures { result ≡ row_ok row.now }
{
    head_ok(row) && put_fields(&row[6..]) && zero_from(row, 6 + row[5] as u32)
}
