// What is printed of a file of pairs.
#![tactic(auto)]

ghost use Rattle.std.specs.Prelude.{◌≡◌, ◌+◌, ◌≤◌, length};
ghost use Rattle.numbers.specs.Written.{Written};
ghost use Rattle.order_print.specs.Printed.{parties_text, order_text, circle_text, output};

use numbers::Out;
use start_order::Start;

// O8
fn render_parties(parties: &[u64; 8], out: &mut Out)
    requires { out.old.at + length (parties_text parties.now) ≤ length out.old.bytes.now }
    ensures written { Written out.old.bytes.now out.old.at (parties_text parties.now) out.new.bytes.now out.new.at }
    ensures len { length out.new.bytes.now ≡ length out.old.bytes.now }
    ensures same_reference { out.new.bytes.ghost_name ≡ out.old.bytes.ghost_name }
{
    for party in parties {
        out.place(b" ");
        out.decimal(*party);
    }
}

// O8
fn render_order(places: &[u64; 8], out: &mut Out)
    requires { out.old.at + length (order_text places.now) ≤ length out.old.bytes.now }
    ensures written { Written out.old.bytes.now out.old.at (order_text places.now) out.new.bytes.now out.new.at }
    ensures len { length out.new.bytes.now ≡ length out.old.bytes.now }
    ensures same_reference { out.new.bytes.ghost_name ≡ out.old.bytes.ghost_name }
{
    out.place(b"order");
    render_parties(places, out);
    out.place(b"\n");
}

// O8
fn render_circle(p: u32, out: &mut Out)
    requires { out.old.at + length (circle_text p) ≤ length out.old.bytes.now }
    ensures written { Written out.old.bytes.now out.old.at (circle_text p) out.new.bytes.now out.new.at }
    ensures len { length out.new.bytes.now ≡ length out.old.bytes.now }
    ensures same_reference { out.new.bytes.ghost_name ≡ out.old.bytes.ghost_name }
{
    out.place(b"circle ");
    out.decimal(p as u64);
    out.place(b"\n");
}

// O8: the longest line is an order's, of 22 bytes.
pub fn print_order(file: &[u8], out: &mut Out)
    requires { out.old.at + 22 ≤ length out.old.bytes.now }
    ensures written { Written out.old.bytes.now out.old.at (output file.now) out.new.bytes.now out.new.at }
    ensures len { length out.new.bytes.now ≡ length out.old.bytes.now }
    ensures same_reference { out.new.bytes.ghost_name ≡ out.old.bytes.ghost_name }
{
    let mut places = [0; 8];
    match order_file::start_by(file, &mut places) {
        Ok(Start::Order) => render_order(&places, out),
        Ok(Start::Circle(p)) => render_circle(p, out),
        Err(refusal) => out.refusal(refusal),
    }
}
