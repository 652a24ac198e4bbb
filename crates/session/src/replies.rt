// Rendering what the console prints.
ghost use Rattle.std.specs.Prelude.{[], ◌≡◌, ◌+◌, ◌≤◌, length};
ghost use Rattle.rules.specs.Words.{exit};
ghost use Rattle.numbers.specs.Written.{Written};
ghost use Rattle.session.specs.Transcript.{answer_text, reply_text, unreadable};
ghost use Rattle.session.specs.Steps.{count_of, meant_answer};

use crate::Answer;
use numbers::Out;
use refusal::Refusal;

// G8: how many fields were found.
fn found(answer: Result<Answer, Refusal>) -> usize
    ensures { result ≡ count_of (meant_answer answer) }
{
    match answer {
        Ok(Answer::Found(n)) => n,
        _ => 0,
    }
}

// T21
#[tactic(auto, unfolding(crate::specs::Transcript::answer_text))]
fn render_answer(answer: Result<Answer, Refusal>, out: &mut Out<'_>)
    requires { out.old.at + length (answer_text (meant_answer answer)) ≤ length out.old.bytes.now }
    ensures written { Written out.old.bytes.now out.old.at (answer_text (meant_answer answer)) out.new.bytes.now out.new.at }
    ensures len { length out.new.bytes.now ≡ length out.old.bytes.now }
    ensures same_reference { out.new.bytes.ghost_name ≡ out.old.bytes.ghost_name }
{
    match answer {
        Ok(Answer::Done) => out.place(b"done"),
        Ok(Answer::Found(_)) => out.place(b"found"),
        Ok(Answer::Nothing) => out.place(b"none"),
        Err(refusal) => {
            out.place(b"no");
            out.decimal(refusal.number() as u64);
        }
    }
}

// T21
pub fn render_reply(
    number: u64,
    answer: Result<Answer, Refusal>,
    res: &[u64; 8],
    out: &mut [u8],
) -> usize
    requires { (count_of (meant_answer answer) ≤ 8) × (length (reply_text number (exit (meant_answer answer) [] res.now)) ≤ length out.old) }
    ensures { Written out.old 0 (reply_text number (exit (meant_answer answer) [] res.now)) out.new result }
{
    let mut out = Out { bytes: out, at: 0 };
    out.decimal(number);
    out.place(b" ");
    render_answer(answer, &mut out);
    out.place(b" ");
    let n = found(answer);
    text::render_fields(&res[..n], &mut out);
    out.place(b"\n");
    out.at
}

// T22
pub fn render_unreadable(number: u64, out: &mut [u8]) -> usize
    requires { length (unreadable number) ≤ length out.old }
    ensures { Written out.old 0 (unreadable number) out.new result }
{
    let mut out = Out { bytes: out, at: 0 };
    out.place(b"line ");
    out.decimal(number);
    out.place(b" unreadable\n");
    out.at
}
