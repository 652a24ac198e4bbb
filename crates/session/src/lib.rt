// What the console does with its input, line by line.
#![tactic(auto)]

mod replies;

ghost use Rattle.std.specs.Prelude.{◌≡◌, ◌<◌, ◌≤◌, length, None, IfSome};
ghost use Rattle.rules.specs.Words.{zeros, call};
ghost use Rattle.numbers.specs.Parts.{parts};
ghost use Rattle.numbers.specs.Written.{Written};
ghost use Rattle.session.specs.Transcript.{with_name, from_start, transcript, unreadable};
ghost use Rattle.lines.specs.Read.{name_of, meant_call, field_count};
ghost use Rattle.session.specs.Steps.{phase_of, calls_of, opened_space, meant_answer, Ready, Gave, Made, Replied, StepIs, Turned, more_after, Onward, Kept};

use lines::{Call, Line};
use numbers::Out;
use refusal::Refusal;
use search::Op;

// T20: whether the space is open, and then how many calls were made.
#[derive(Clone, Copy)]
pub enum Session {
    Giving,
    Running(u64),
}

// T22, T25: the lines that are left, the number of the first, and the session before it.
#[derive(Clone, Copy)]
pub struct LineStart<'a> {
    pub lines: &'a [u8],
    pub number: u64,
    pub session: Session,
}

// T25: how many bytes are to be printed, and where the session goes on; without that the input is done with.
#[derive(Clone, Copy)]
pub struct Turn<'a> {
    pub printed: usize,
    pub next: Option<LineStart<'a>>,
}

// C5: what a call that isn't refused answers.
#[derive(Clone, Copy)]
enum Answer {
    Done,
    Found(usize),
    Nothing,
}

// T24: the first line.
pub fn begin<'a>(input: &'a [u8], out: &mut [u8]) -> Turn<'a>
    requires { 256 ≤ length out.old }
    ensures turned { Turned (from_start (parts 10 input.now)) out.old out.new result.printed (more_after result.next (zeros 16) (zeros 1809)) }
    ensures onward { Onward result.next input.now 1 0 (zeros 1809) }
{
    let names = b"call party rpart rkey tpart tkey fields";
    let Some(lines) = numbers::lines_start(input, input.len(), names) else {
        return stop(1, out);
    };
    let mut out = Out { bytes: out, at: 0 };
    out.place(b"line answer fields\n");
    Turn {
        printed: out.at,
        next: Some(LineStart {
            lines,
            number: 2,
            session: Session::Giving,
        }),
    }
}

// T25: the line that begins there.
#[tactic(auto, using(crate::proofs::Follow::ended, numbers::proofs::Placing::written_none))]
pub fn take_turn<'a>(
    from: LineStart<'a>,
    roster: &mut [u64; 16],
    space: &mut [u64; 1809],
    out: &mut [u8],
) -> Turn<'a>
    requires { (from.number < 1000000) × (calls_of from.session < 1000000) × Ready from.session space.old × (256 ≤ length out.old) }
    ensures turned { Turned (transcript (phase_of from.entry.session roster.old space.old) from.entry.number (parts 10 from.entry.lines.now)) out.old out.new result.printed (more_after result.next roster.new space.new) }
    ensures onward { Onward result.next from.entry.lines.now from.entry.number (calls_of from.entry.session) space.new }
    ensures kept { Kept result.next roster.old roster.new space.old space.new }
{
    let number = from.number;
    let Some((line, lines)) = numbers::split_once(from.lines, b'\n') else {
        if from.lines.is_empty() {
            return Turn {
                printed: 0,
                next: None,
            };
        }
        return stop(number, out);
    };
    let Some((session, printed)) = step_line(from.session, line, roster, space, out) else {
        return stop(number, out);
    };
    let next = Some(LineStart {
        lines,
        number: number + 1,
        session,
    });
    Turn { printed, next }
}

// T22: the line is reported as unreadable, and the input is done with.
fn stop<'a>(number: u64, out: &mut [u8]) -> Turn<'a>
    requires { (number ≤ 1000000) × (256 ≤ length out.old) }
    ensures printed { Written out.old 0 (unreadable number) out.new result.printed }
    ensures last { result.next ≡ None }
{
    Turn {
        printed: replies::render_unreadable(number, out),
        next: None,
    }
}

// T20: none, where the line is unreadable; else how the session goes on, and how many bytes are printed.
fn step_line(
    s: Session,
    line: &[u8],
    roster: &mut [u64; 16],
    space: &mut [u64; 1809],
    out: &mut [u8],
) -> Option<(Session, usize)>
    requires { (calls_of s < 1000000) × Ready s space.old × (256 ≤ length out.old) }
    ensures { StepIs result s line.now roster.old roster.new space.old space.new out.old out.new }
{
    let mut words = [0u64; 16];
    let read = lines::read_line(line, &mut words)?;
    match read {
        Line::Give {
            party,
            partition,
            key,
        } => give(s, party as usize, partition, key, roster),
        Line::Ask(asked) => {
            let number = open_first(s, roster, space) + 1;
            let k = reply(space, number, asked, &words, out);
            Some((Session::Running(number), k))
        }
    }
}

// T20, T12: a gift comes too late once the space is open.
fn give(
    s: Session,
    party: usize,
    partition: Option<u64>,
    key: Option<u64>,
    roster: &mut [u64; 16],
) -> Option<(Session, usize)>
    requires { (party ≤ 7) × IfSome partition (λ c. c ≤ 63) × IfSome key (λ c. c ≤ 62) }
    ensures { Gave result s party (name_of partition) (name_of key) roster.old roster.new }
{
    let Session::Giving = s else {
        return None;
    };
    add_name(roster, party, partition);
    add_name(roster, 8 + party, key);
    Some((s, 0))
}

// T12
fn add_name(roster: &mut [u64; 16], at: usize, name: Option<u64>)
    requires { (at < 16) × IfSome name (λ c. c ≤ 63) }
    ensures { roster.new ≡ with_name at (name_of name) roster.old }
{
    if let Some(c) = name {
        words::set_bit(roster, at, c);
    }
}

// T20: the first call opens the space. The answer is how many calls were made before.
fn open_first(s: Session, roster: &[u64; 16], space: &mut [u64; 1809]) -> u64
    ensures space_after { space.new ≡ opened_space s roster.now space.old }
    ensures value { result ≡ calls_of s }
{
    match s {
        Session::Giving => {
            let _ = space::open(space, roster);
            0
        }
        Session::Running(calls) => calls,
    }
}

// T21: the call is made, and its reply printed.
fn reply(
    space: &mut [u64; 1809],
    number: u64,
    asked: Call,
    words: &[u64; 16],
    out: &mut [u8],
) -> usize
    requires { (number ≤ 1000000) × (field_count asked ≤ 16) × (256 ≤ length out.old) }
    ensures { Replied number (call space.old (meant_call asked words.now)) space.new out.old out.new result }
{
    let mut result = [0u64; 8];
    let answer = make(space, asked, words, &mut result);
    replies::render_reply(number, answer, &result, out)
}

// C2 to C4, C8
fn make(
    space: &mut [u64; 1809],
    asked: Call,
    words: &[u64; 16],
    res: &mut [u64; 8],
) -> Result<Answer, Refusal>
    requires { (field_count asked ≤ 16) × (res.old ≡ zeros 8) }
    ensures { Made (meant_answer result) space.new res.new (call space.old (meant_call asked words.now)) }
{
    let found = match asked {
        Call::Put {
            party,
            read,
            take,
            count,
        } => {
            space::put(space, party, read, take, &words[..count])?;
            return Ok(Answer::Done);
        }
        Call::Seek {
            op,
            party,
            pair,
            count,
        } => {
            let fields = &words[..count];
            match op {
                Op::Looking => space::look(space, party, pair, fields, res)?,
                Op::Receiving => space::receive(space, party, pair, fields, res)?,
                Op::Taking => space::take(space, party, pair, fields, res)?,
            }
        }
    };
    Ok(found.map_or(Answer::Nothing, Answer::Found))
}
