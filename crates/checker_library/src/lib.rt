// The checker's functions for programs in other languages: a case file read, totals, the replay of a log, the view of a round, scoring, why a channel
// was kept, whether the pairs form no loop. A case and the replay's record cross as bytes (crate encoding). What each function answers is defined in
// specs/.
#![tactic(auto)]

ghost use Rattle.std.specs.Prelude.{◌≡◌, false, pos};
ghost use Rattle.std.specs.Int.Signed.{lt_z};
ghost use Rattle.definitions.specs.declared.Rulebook.TheVariants.{Desk};
ghost use Rattle.definitions.specs.Rules.{rules_in, rules_of};
ghost use Rattle.definitions.specs.Refusals.{number};
ghost use Rattle.definitions.specs.Answers.{outcome_says, figure_says, verdict_says, size_says, file_says, span_says, choice_says, value_at};
ghost use Rattle.definitions.specs.CaseFiles.{case_size};
ghost use Rattle.calls.specs.Calls.{upper_bound_answer, objective_answer, is_acyclic_answer};
ghost use Rattle.definitions.specs.Views.{round_span};
ghost use Rattle.definitions.specs.Scoring.{better_of};
ghost use Rattle.checker.specs.Checker.{is_void, block_replay};
ghost use Rattle.encoding.specs.CaseBytes.{case_in};
ghost use Rattle.encoding.specs.RecordBytes.{record_bytes};
ghost use Rattle.encoding.specs.Version.{version_number};
ghost use Rattle.checker_library.specs.Answers.{ceiling_size_of, lines_of, total_of, rounds_of, span_of, choice_of, value_of, ceiling_verdict_of};
ghost use Rattle.checker_library.specs.Calls.{case_after, read_call, value_call, start_record, block_answer, replay_call};
ghost use Rattle.checker_library.specs.Calls.{not_record, not_record_at_end, end_with, end_call};

use checker::{Due, Replay};
use definitions::{Case, CaseRead, CaseSize, Choice, Refusal, RefusedAt, Span};
use encoding::{CaseArray, RecordArray};

// What the head of a case file says, with the length of the table to lend.
#[repr(C)]
#[derive(Clone, Copy)]
pub struct CeilingSize {
    pub number: u64,
    pub n: usize,
    pub d: usize,
    pub m: usize,
    pub table: usize,
}

// Lines used, or the refusal's line.
#[repr(C)]
#[derive(Clone, Copy)]
pub struct CeilingLines {
    pub number: u64,
    pub lines: usize,
}

#[repr(C)]
#[derive(Clone, Copy)]
pub struct CeilingTotal {
    pub number: u64,
    pub total: i64,
}

// void is 1 where the log is void: no lawful plan exists. It has no rounds to tell then.
#[repr(C)]
#[derive(Clone, Copy)]
pub struct CeilingRounds {
    pub number: u64,
    pub rounds: u64,
    pub void: u64,
}

// A stretch of a log, or the refusal's line.
#[repr(C)]
#[derive(Clone, Copy)]
pub struct CeilingSpan {
    pub number: u64,
    pub from: usize,
    pub to: usize,
    pub line: usize,
}

// 0 is the first plan, 1 the second.
#[repr(C)]
#[derive(Clone, Copy)]
pub struct CeilingChoice {
    pub number: u64,
    pub choice: u64,
}

// A channel of a link.
#[repr(C)]
#[derive(Clone, Copy)]
pub struct CeilingValue {
    pub number: u64,
    pub value: usize,
}

// 1 is yes, 0 is no.
#[repr(C)]
#[derive(Clone, Copy)]
pub struct CeilingVerdict {
    pub number: u64,
    pub yes: u64,
}

// ---- answers as numbers

fn number_of(refusal: Refusal) -> u64
    ensures { result ≡ number refusal }
{
    u64::from(texts::number_of(refusal))
}

fn size_of(size: Result<CaseSize, Refusal>) -> CeilingSize
    ensures { result ≡ ceiling_size_of (size_says size) }
{
    match size {
        Ok(CaseSize { n, d, m, table }) => CeilingSize {
            number: 0,
            n,
            d,
            m,
            table,
        },
        Err(refusal) => CeilingSize {
            number: number_of(refusal),
            n: 0,
            d: 0,
            m: 0,
            table: 0,
        },
    }
}

fn lines_of(answer: Result<usize, RefusedAt>) -> CeilingLines
    ensures { result ≡ lines_of (file_says answer) }
{
    match answer {
        Ok(lines) => CeilingLines { number: 0, lines },
        Err(RefusedAt { refusal, line }) => CeilingLines {
            number: number_of(refusal),
            lines: line,
        },
    }
}

fn total_of(figure: Result<i64, Refusal>) -> CeilingTotal
    ensures { result ≡ total_of (figure_says figure) }
{
    match figure {
        Ok(total) => CeilingTotal { number: 0, total },
        Err(refusal) => CeilingTotal {
            number: number_of(refusal),
            total: 0,
        },
    }
}

fn outcome_number(outcome: Result<(), Refusal>) -> u64
    ensures { result ≡ (outcome_says outcome).number }
{
    match outcome {
        Ok(()) => 0,
        Err(refusal) => number_of(refusal),
    }
}

fn rounds_of(rounds: u64, over: bool, outcome: Result<(), Refusal>) -> CeilingRounds
    ensures { result ≡ rounds_of rounds over (outcome_says outcome) }
{
    match outcome {
        Err(refusal) => CeilingRounds {
            number: number_of(refusal),
            rounds: 0,
            void: 0,
        },
        Ok(()) if over => CeilingRounds {
            number: 0,
            rounds: 0,
            void: 1,
        },
        Ok(()) => CeilingRounds {
            number: 0,
            rounds,
            void: 0,
        },
    }
}

fn span_of(span: Result<Span, RefusedAt>) -> CeilingSpan
    ensures { result ≡ span_of (span_says span) }
{
    match span {
        Ok(Span { from, to }) => CeilingSpan {
            number: 0,
            from,
            to,
            line: 0,
        },
        Err(RefusedAt { refusal, line }) => CeilingSpan {
            number: number_of(refusal),
            from: 0,
            to: 0,
            line,
        },
    }
}

fn choice_of(choice: Result<Choice, Refusal>) -> CeilingChoice
    ensures { result ≡ choice_of (choice_says choice) }
{
    match choice {
        Ok(Choice::First) => CeilingChoice {
            number: 0,
            choice: 0,
        },
        Ok(Choice::Second) => CeilingChoice {
            number: 0,
            choice: 1,
        },
        Err(refusal) => CeilingChoice {
            number: number_of(refusal),
            choice: 0,
        },
    }
}

fn value_of(figure: Result<i64, Refusal>) -> CeilingValue
    requires { lt_z (value_at (figure_says figure) 0) (pos 0) ≡ false }
    ensures { result ≡ value_of (figure_says figure) }
{
    match figure {
        Ok(value) => CeilingValue {
            number: 0,
            value: value as usize,
        },
        Err(refusal) => CeilingValue {
            number: number_of(refusal),
            value: 0,
        },
    }
}

fn verdict_of(verdict: Result<bool, Refusal>) -> CeilingVerdict
    ensures { result ≡ ceiling_verdict_of (verdict_says verdict) }
{
    match verdict {
        Ok(yes) => CeilingVerdict {
            number: 0,
            yes: u64::from(yes),
        },
        Err(refusal) => CeilingVerdict {
            number: number_of(refusal),
            yes: 0,
        },
    }
}

// ---- a case that was read

// Its bytes, where it is not refused.
fn keep_case(read: CaseRead, case: &mut CaseArray)
    ensures { case.new ≡ case_after read.answer read case.old }
{
    if read.answer.is_ok() {
        encoding::write_case_bytes(read.case, case);
    }
}

// ---- the replay

fn replay_block(
    case: Case,
    table: &mut [i64],
    state: &mut RecordArray,
    replay: Replay,
    lines: &[u8],
) -> CeilingLines
    ensures { (result ≡ block_answer (block_replay (rules_of case) case table.old replay lines.now).block)
        × (state.new ≡ record_bytes (block_replay (rules_of case) case table.old replay lines.now).block.replay)
        × (table.new ≡ (block_replay (rules_of case) case table.old replay lines.now).table) }
{
    let block = replay.lines(case, table, lines);
    encoding::write_record(block.replay, state);
    CeilingLines {
        number: outcome_number(block.answer),
        lines: block.lines,
    }
}

// The number of bytes that say no record, beside a table and at the end.
fn not_record(case: Case, table: &[i64]) -> u64
    ensures { result ≡ not_record case table.now }
{
    outcome_number(tables::check_working(case, table, false, true))
}

fn not_record_at_end(case: Case) -> u64
    ensures { result ≡ not_record_at_end case }
{
    outcome_number(tables::check_edges(case, true))
}

// Whether a void line is whole.
fn is_over(due: Due) -> bool
    ensures { result ≡ is_void due }
{
    matches!(due, Due::Nothing)
}

fn end_with(part: usize, end: Result<(), Refusal>) -> Result<(), Refusal>
    ensures { result ≡ end_with part end }
{
    end?;
    if part == 0 {
        Ok(())
    } else {
        Err(Refusal::CutShort)
    }
}

// ---- the calls

#[unsafe(no_mangle)]
pub extern "C" fn ceiling_version() -> u64
    ensures { result ≡ version_number }
{
    encoding::version()
}

#[unsafe(no_mangle)]
pub extern "C" fn ceiling_case_size(text: &[u8]) -> CeilingSize
    ensures { result ≡ ceiling_size_of (size_says (case_size Desk text.now)) }
{
    size_of(casefile::case_size(text))
}

#[unsafe(no_mangle)]
pub extern "C" fn ceiling_upper_bound(case: &CaseArray, table: &[i64]) -> CeilingTotal
    ensures { result ≡ total_of (figure_says (upper_bound_answer (rules_of (case_in case.now)) (case_in case.now) table.now)) }
{
    total_of(figures::upper_bound(encoding::case_of(case), table))
}

#[unsafe(no_mangle)]
pub extern "C" fn ceiling_objective(case: &CaseArray, table: &[i64], plan: &[u8]) -> CeilingTotal
    ensures { result ≡ total_of (figure_says (objective_answer (rules_of (case_in case.now)) (case_in case.now) table.now
        plan.now)) }
{
    total_of(figures::objective(encoding::case_of(case), table, plan))
}

// The plan with the greater total, the first on a tie.
#[unsafe(no_mangle)]
pub extern "C" fn ceiling_better_of(
    case: &CaseArray,
    table: &[i64],
    first: &[u8],
    second: &[u8],
) -> CeilingChoice
    ensures { result ≡ choice_of (choice_says (better_of (rules_of (case_in case.now)) (case_in case.now) table.now
        first.now second.now)) }
{
    choice_of(plans::better_of(encoding::case_of(case), table, first, second))
}

// The lowest active channel of a link that is not refuted with all other scopes raised. Its largest family and the lowest partners are written
// to the lent bytes; refused, they stay.
#[unsafe(no_mangle)]
pub extern "C" fn ceiling_supported_value(
    case: &CaseArray,
    table: &[i64],
    link: usize,
    family: &mut [u8],
    partners: &mut [u8],
) -> CeilingValue
    ensures { (result ≡ (value_call case.now table.now link family.old partners.old).answer)
        × (family.new ≡ (value_call case.now table.now link family.old partners.old).family)
        × (partners.new ≡ (value_call case.now table.now link family.old partners.old).partners) }
{
    value_of(families::supported_value(encoding::case_of(case), table, link, family, partners))
}

// Whether the pairs form no loop.
#[unsafe(no_mangle)]
pub extern "C" fn ceiling_is_acyclic(case: &CaseArray) -> CeilingVerdict
    ensures { result ≡ ceiling_verdict_of (verdict_says (is_acyclic_answer (rules_of (case_in case.now)) (case_in case.now))) }
{
    verdict_of(graphs::is_acyclic(encoding::case_of(case)))
}

#[unsafe(no_mangle)]
pub extern "C" fn ceiling_round_span(log: &[u8], round: u64) -> CeilingSpan
    ensures { result ≡ span_of (span_says (round_span (rules_in Desk) log.now round)) }
{
    span_of(views::round_span(log, round))
}

// A case with nothing after it: its bytes and its starting weights. A refusal leaves the weights as after the last good line.
#[unsafe(no_mangle)]
pub extern "C" fn ceiling_read_case(
    text: &[u8],
    case: &mut CaseArray,
    table: &mut [i64],
) -> CeilingLines
    ensures { (result ≡ (read_call text.now case.old table.old).answer)
        × (case.new ≡ (read_call text.now case.old table.old).case)
        × (table.new ≡ (read_call text.now case.old table.old).table) }
{
    let read = casefile::read_case_alone(text, table);
    keep_case(read, case);
    lines_of(read.answer)
}

// A fresh record; refused, it stands so.
#[unsafe(no_mangle)]
pub extern "C" fn ceiling_replay_start(
    case: &CaseArray,
    table: &[i64],
    state: &mut RecordArray,
) -> u64
    ensures { (result ≡ (outcome_says (start_record case.now table.now).standing).number)
        × (state.new ≡ record_bytes (start_record case.now table.now)) }
{
    let replay = Replay::fresh(encoding::case_of(case), table);
    encoding::write_record(replay, state);
    outcome_number(replay.standing)
}

// A block of whole lines; a part line at its end is not looked at.
#[unsafe(no_mangle)]
pub extern "C" fn ceiling_replay_lines(
    case: &CaseArray,
    table: &mut [i64],
    state: &mut RecordArray,
    lines: &[u8],
) -> CeilingLines
    ensures { (result ≡ (replay_call case.now table.old state.old lines.now).answer)
        × (state.new ≡ (replay_call case.now table.old state.old lines.now).state)
        × (table.new ≡ (replay_call case.now table.old state.old lines.now).table) }
{
    if encoding::is_record(state) {
        let replay = encoding::record_of(state);
        replay_block(encoding::case_of(case), table, state, replay, lines)
    } else {
        CeilingLines {
            number: not_record(encoding::case_of(case), table),
            lines: 0,
        }
    }
}

// The end of the log, of whose part line so many bytes are left: its rounds, where it is accepted, or that it is void.
#[unsafe(no_mangle)]
pub extern "C" fn ceiling_replay_end(
    case: &CaseArray,
    state: &RecordArray,
    part: usize,
) -> CeilingRounds
    ensures { result ≡ end_call case.now state.now part }
{
    if encoding::is_record(state) {
        let replay = encoding::record_of(state);
        let end = replay.end(encoding::case_of(case));
        rounds_of(replay.rounds, is_over(replay.due), end_with(part, end))
    } else {
        CeilingRounds {
            number: not_record_at_end(encoding::case_of(case)),
            rounds: 0,
            void: 0,
        }
    }
}
