// The program `replay` as a start, a block and a finish (document 01, on `replay`): each block of an input is handed over once, and what stands
// between blocks is a record by value and the lent table.
#![tactic(auto)]

ghost use Rattle.std.specs.Prelude.{◌≡◌, ◌↔◌, ◌≤◌, T, length, Ok, Err};
ghost use Rattle.definitions.specs.declared.Rulebook.TheVariants.{Desk};
ghost use Rattle.definitions.specs.Rules.{rules_of};
ghost use Rattle.definitions.specs.Refusals.{first_refusal};
ghost use Rattle.definitions.specs.Answers.{outcome_of};
ghost use Rattle.definitions.specs.Valid.{working_weight};
ghost use Rattle.definitions.specs.Places.{table_places};
ghost use Rattle.definitions.specs.CaseFiles.{case_size};
ghost use Rattle.definitions.specs.Programs.{table_for};
ghost use Rattle.theory.proofs.Validity.{Handed};
ghost use Rattle.checker.specs.Checker.{is_void, good_in};
ghost use Rattle.judging.specs.Judging.{lines_counted, answer_at, state_of, start_judging, block_from, block_judging, finish_tests, finish_standing};
ghost use Rattle.judging.specs.Judging.{judgement_from, judgement_of, finish_judging};

use checker::{Due, Replay};
use definitions::{Case, Judgement, Refusal, RefusedAt};

// The greatest count of lines.
const GREATEST: usize = 9_223_372_036_854_775_807;

// What stands between the blocks of an input: the case, the replay's record, and how far the input was read: no number yet and so many lines
// passed, or the refusal and its line.
#[derive(Clone, Copy)]
pub struct Judging {
    pub case: Case,
    pub replay: Replay,
    pub answer: Result<usize, RefusedAt>,
}

// ---- a block

fn count(at: usize, more: usize) -> usize
    ensures { result ≡ lines_counted at more }
{
    if GREATEST <= at {
        return GREATEST;
    }
    if GREATEST - at <= more {
        return GREATEST;
    }
    at + more
}

fn answer_at(at: usize, answer: Result<(), Refusal>) -> Result<usize, RefusedAt>
    ensures { result ≡ answer_at at answer }
{
    match answer {
        Ok(()) => Ok(at),
        Err(refusal) => Err(RefusedAt { refusal, line: at }),
    }
}

// A block after so many lines that got no number.
fn block_from(judging: Judging, table: &mut [i64], bytes: &[u8], passed: usize) -> Judging
    ensures { state_of result table.new ≡ block_from (state_of judging table.old) bytes.now (Ok passed) }
{
    let case = judging.case;
    let replay = judging.replay;
    let block = replay.lines(case, table, bytes);
    let after = block.replay;
    let last = block.answer;
    let answer = answer_at(count(passed, block.lines), last);
    Judging {
        case,
        replay: after,
        answer,
    }
}

// ---- the end

// Whether the end's number is 5.
fn is_out(ended: Result<(), Refusal>) -> bool
    ensures { T result ↔ (ended ≡ Err Refusal.OutOfRange) }
{
    matches!(ended, Err(Refusal::OutOfRange))
}

// A record that is good. The end asks 5 of the record, the carry and the edges, which are asked here again with the table.
fn finish_good(case: Case, table: &[i64], replay: Replay, part: bool) -> Result<(), Refusal>
    requires { replay.standing ≡ Ok tt }
    ensures { result ≡ outcome_of (first_refusal (finish_tests case table.now replay part)) }
{
    let ended = replay.end(case);
    tables::check_working(case, table, false, is_out(ended))?;
    if part {
        return Err(Refusal::CutShort);
    }
    ended
}

fn finish_standing(case: Case, table: &[i64], replay: Replay, part: bool) -> Result<(), Refusal>
    ensures { result ≡ finish_standing case table.now replay part replay.standing }
{
    replay.standing?;
    finish_good(case, table, replay, part)
}

// Whether a void line is whole.
fn is_over(due: Due) -> bool
    ensures { result ≡ is_void due }
{
    matches!(due, Due::Nothing)
}

// The judgement where neither a line nor the end has a number.
fn good_judgement(
    case: Case,
    table: &[i64],
    replay: Replay,
    passed: usize,
) -> Result<Judgement, RefusedAt>
    requires { Handed (rules_of case) (working_weight (rules_of case)) case table.now }
    ensures { result ≡ good_in case replay table.now }
{
    if is_over(replay.due) {
        return Ok(Judgement::Void);
    }
    let sum = tables::sum_of_greatest(case, table);
    match sum {
        Err(refusal) => Err(RefusedAt {
            refusal,
            line: passed,
        }),
        Ok(bound) => Ok(Judgement::Accepted {
            rounds: replay.rounds,
            bound,
        }),
    }
}

// The judgement where no line has a number.
fn end_judgement(
    judging: Judging,
    table: &[i64],
    part: bool,
    passed: usize,
) -> Result<Judgement, RefusedAt>
    ensures { result ≡ judgement_from (state_of judging table.now) part (Ok passed) }
{
    let case = judging.case;
    let replay = judging.replay;
    finish_standing(case, table, replay, part).map_err(|refusal| RefusedAt {
        refusal,
        line: passed,
    })?;
    good_judgement(case, table, replay, passed)
}

// ---- the calls

// The length of the table that the head of the case asks for.
pub fn table_length(front: &[u8]) -> usize
    ensures { (result ≡ length (table_for (case_size Desk front.now))) × (result ≤ table_places) }
{
    match casefile::case_size(front) {
        Ok(size) => size.table,
        Err(_) => 0,
    }
}

// Reads the case at the front of the input. The front must hold the longest case or the whole input.
pub fn start(front: &[u8], table: &mut [i64]) -> Judging
    ensures { state_of result table.new ≡ start_judging Desk front.now table.old }
{
    let read = casefile::read_case(front, table);
    let case = read.case;
    let answer = read.answer;
    let replay = Replay::fresh(case, table);
    Judging {
        case,
        replay,
        answer,
    }
}

// The next whole lines of the log.
pub fn block(judging: Judging, table: &mut [i64], bytes: &[u8]) -> Judging
    ensures { state_of result table.new ≡ block_judging (state_of judging table.old) bytes.now }
{
    match judging.answer {
        Err(_) => judging,
        Ok(passed) => block_from(judging, table, bytes, passed),
    }
}

// The judgement where the input ends here; `part`: fewer bytes than a line are left.
pub fn judge(judging: Judging, table: &[i64], part: bool) -> Result<Judgement, RefusedAt>
    ensures { result ≡ judgement_of (state_of judging table.now) part }
{
    let passed = judging.answer?;
    end_judgement(judging, table, part, passed)
}

// Writes what `replay` prints where the input ends here: the text of the judgement.
pub fn finish(judging: Judging, table: &[i64], part: bool, out: &mut [u8]) -> Result<usize, Refusal>
    ensures { (result ≡ (finish_judging (state_of judging table.now) part out.old).answer)
        × (out.new ≡ (finish_judging (state_of judging table.now) part out.old).out) }
{
    texts::write_judgement(out, judge(judging, table, part))
}
