// The log writer: it borrows a lent slice and holds the position of the next line (document 01, "Lines").
#![tactic(auto)]

ghost use Rattle.std.specs.Prelude.{◌≡◌};
ghost use Rattle.definitions.specs.declared.Rulebook.TheVariants.{Desk};
ghost use Rattle.definitions.specs.Rules.{rules_in};
ghost use Rattle.calls.specs.Calls.{put_line_call};
ghost use Rattle.log_writer.specs.Writers.{put_line_in, put_of, written_to};

use definitions::{Line, Refusal, Rulebook};

#[derive(Drop)]
pub struct LogWriter<'a> {
    pub out: &'a mut [u8],
    pub at: usize,
}

// The answer to a line that was put, with the position after it.
#[derive(Drop)]
pub struct Put {
    pub answer: Result<(), Refusal>,
    pub at: usize,
}

// ---- the calls

// Puts the line at byte `at`, with an amount column of this width.
pub fn put_line_in(out: &mut [u8], at: usize, line: Line, width: usize) -> Put
    ensures { (result ≡ put_of (put_line_in width out.old at line)) × (out.new ≡ (put_line_in width out.old at line).out) }
{
    if out.len() < at {
        return Put {
            answer: Err(Refusal::WrongLength),
            at,
        };
    }
    match lines::write_line_in(&mut out[at..], line, width) {
        Err(refusal) => Put {
            answer: Err(refusal),
            at,
        },
        Ok(()) => Put {
            answer: Ok(()),
            at: at + (15 + width),
        },
    }
}

// The same at the desk's width.
pub fn put_line_at(out: &mut [u8], at: usize, line: Line) -> Put
    ensures { (result ≡ put_of (put_line_call (rules_in Desk) out.old at line))
        × (out.new ≡ (put_line_call (rules_in Desk) out.old at line).out) }
{
    put_line_in(out, at, line, rules::amount_width(Rulebook::Desk))
}

// The lent slice goes into the writer, and the position is its first byte.
pub fn new<'a>(out: &'a mut [u8]) -> LogWriter<'a>
    ensures { (result.out ≡ out.entry) × (result.at ≡ 0) }
{
    LogWriter { out, at: 0 }
}

// Puts the line at the writer's position, which moves on.
pub fn put_line<'s, 'a>(w: &'s mut LogWriter<'a>, line: Line) -> Put
    ensures { (result ≡ put_of (put_line_call (rules_in Desk) w.old.out.now w.old.at line))
        × (w.new ≡ written_to w.old line) }
{
    let at = w.at;
    let put = put_line_at(&mut *w.out, at, line);
    w.at = put.at;
    put
}

// The position of the next line. The slice is as it was.
pub fn position<'a>(w: LogWriter<'a>) -> usize
    ensures { (result ≡ w.entry.at) × (w.exit.0.now ≡ w.entry.out.now) }
{
    w.at
}

// Puts the line at byte `at`, through a writer of its own.
pub fn put_through(out: &mut [u8], at: usize, line: Line) -> Put
    ensures { (result ≡ put_of (put_line_call (rules_in Desk) out.old at line))
        × (out.new ≡ (put_line_call (rules_in Desk) out.old at line).out) }
{
    let mut w = LogWriter { out, at };
    put_line(&mut w, line)
}
