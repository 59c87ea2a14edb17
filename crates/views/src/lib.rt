// The view of a round: the stretch of a lent log from the line after the bound line before it through its own bound line (document 01,
// "Lines").
#![tactic(auto)]

ghost use Rattle.std.specs.Prelude.{◌≡◌, false, ℕ, ◌+◌, ◌*◌, ◌<◌, ◌≤◌, length, take, drop, if◌then◌else◌, Ok};
ghost use Rattle.definitions.specs.declared.Rulebook.TheVariants.{Desk};
ghost use Rattle.definitions.specs.Rules.{rules_in};
ghost use Rattle.definitions.specs.Lines.{line_length, is_kind, has_part};
ghost use Rattle.definitions.specs.declared.Refusal.TheVariants.{OutOfRange, CutShort};
ghost use Rattle.definitions.specs.Answers.{from_to, span_says, line_named};
ghost use Rattle.definitions.specs.Views.{span_in, round_span, round_view};
ghost use Rattle.lines.specs.AtWidth.{width_out, read_line_at};
ghost use Rattle.views.specs.Steps.{ended_step, line_step, passed_step, round_span_at};

use definitions::{Line, Refusal, RefusedAt, Rulebook, Span};

// The kind of a bound line.
const BOUND: i64 = 4;

// After a line: the round's lines, or the first line of the round in which the next one lies, and the rounds still to pass.
#[derive(Clone, Copy)]
enum Step {
    Found(Span),
    On { from: usize, left: u64 },
}

// After the bound line `at`, where lines have `long` bytes.
fn round_ended(long: usize, at: usize, from: usize, left: u64) -> Step
    requires { (from ≤ at) × (at < 9_223_372_036_854_775_808) × ((at + 1) * long ≤ 9_223_372_036_854_775_808) }
    ensures { result ≡ ended_step long at from left }
{
    if left == 0 {
        return Step::Found(Span {
            from: from * long,
            to: (at + 1) * long,
        });
    }
    Step::On {
        from: at + 1,
        left: left - 1,
    }
}

fn is_bound(line: Line) -> bool
    ensures { result ≡ is_kind 4 line }
{
    line.kind == BOUND
}

fn passed(line: Line, long: usize, at: usize, from: usize, left: u64) -> Step
    requires { (from ≤ at) × (at < 9_223_372_036_854_775_808) × ((at + 1) * long ≤ 9_223_372_036_854_775_808) }
    ensures { result ≡ line_step line long at from left }
{
    if is_bound(line) {
        return round_ended(long, at, from, left);
    }
    Step::On { from, left }
}

fn step_at(log: &[u8], width: usize, at: usize, from: usize, left: u64) -> Result<Step, RefusedAt>
    requires { (from ≤ at) × ((at + 1) * line_length width ≤ length log.now) }
    ensures { result ≡ passed_step (read_line_at width (take (line_length width) (drop (at * line_length width) log.now)))
        (line_length width) at from left }
{
    let long = 15 + width;
    let start = at * long;
    let end = start + long;
    let Ok(line) = lines::read_line_in(&log[start..end], width) else {
        return Err(RefusedAt {
            refusal: Refusal::NotInColumns,
            line: at,
        });
    };
    Ok(passed(line, long, at, from, left))
}

// What is said of a round that is not there.
fn not_there(log: &[u8], width: usize) -> Refusal
    requires { width ≤ 18 }
    ensures { result ≡ (if has_part width log.now then CutShort else OutOfRange) }
{
    if log.len() % (15 + width) == 0 {
        Refusal::OutOfRange
    } else {
        Refusal::CutShort
    }
}

fn span_in(log: &[u8], round: u64, width: usize) -> Result<Span, RefusedAt>
    requires { width_out width ≡ false }
    ensures { result ≡ span_in width log.now round }
{
    let whole = log.len() / (15 + width);
    let mut from: usize = 0;
    let mut left = round;
    for at in 0..whole {
        let step = step_at(log, width, at, from, left)?;
        match step {
            Step::Found(span) => return Ok(span),
            Step::On {
                from: first,
                left: fewer,
            } => {
                from = first;
                left = fewer;
            }
        }
    }
    Err(RefusedAt {
        refusal: not_there(log, width),
        line: whole,
    })
}

// ---- the calls

// Where the round's lines lie in the log, with an amount column of this width.
pub fn round_span_in(log: &[u8], round: u64, width: usize) -> Result<Span, RefusedAt>
    ensures { result ≡ round_span_at width log.now round }
{
    if lines::width_out(width) {
        return Err(RefusedAt {
            refusal: Refusal::NotInColumns,
            line: 0,
        });
    }
    span_in(log, round, width)
}

// The same at the desk's width.
pub fn round_span(log: &[u8], round: u64) -> Result<Span, RefusedAt>
    ensures { result ≡ round_span (rules_in Desk) log.now round }
{
    round_span_in(log, round, rules::amount_width(Rulebook::Desk))
}

// That part of the log itself, empty where it is refused. The number (0 where none applies) and the refusal's line (else 0) are written to
// `number` and `line`.
pub fn round_view<'a>(log: &'a [u8], round: u64, number: &mut u8, line: &mut usize) -> &'a [u8]
    ensures result_value { result.now ≡ round_view (rules_in Desk) log.now round }
    ensures by_index { (from to : ℕ) → round_span (rules_in Desk) log.now round ≡ (Ok (from_to from to))
        → result.ref_ptr ≡ (log.entry.ref_ptr.0, from + log.entry.ref_ptr.1) }
    ensures number_after { number.new ≡ (span_says (round_span (rules_in Desk) log.now round)).number }
    ensures line_after { line.new ≡ line_named (span_says (round_span (rules_in Desk) log.now round)) }
{
    let span = round_span(log, round);
    match span {
        Ok(Span { from, to }) => {
            *number = 0;
            *line = 0;
            &log[from..to]
        }
        Err(RefusedAt { refusal, line: at }) => {
            *number = texts::number_of(refusal);
            *line = at;
            &log[0..0]
        }
    }
}
