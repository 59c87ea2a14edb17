// Lines of a record that is good, on a case and a table that were checked.
ghost use Rattle.std.specs.Prelude.{◌≡◌, not, T, length, Ok, Some};
ghost use Rattle.definitions.specs.Rules.{rules_of, scope_places};
ghost use Rattle.definitions.specs.Valid.{working_weight};
ghost use Rattle.theory.proofs.Validity.{Handed};
ghost use Rattle.tables.specs.Scopes.{BestOf};
ghost use Rattle.checker.specs.Checker.{record_out, step_line, step_replay, fold_replay};
ghost use Rattle.checker.specs.Taken.{good_replay, step_of};

use crate::columns::{line_length, read_line};
use crate::due_lines::is_due;
use crate::kinds::take_line;
use crate::raise_runs::raise_on;
use crate::ranges::line_out;
use crate::records::{progress_of, record_of, refused};
use crate::{Block, Progress, Replay, Stepped, Taken};
use definitions::{Case, Line, Refusal, SCOPE_PLACES};

fn prepare(case: Case, table: &[i64], best: &mut [i64])
    requires handed { Handed (rules_of case) (working_weight (rules_of case)) case table.now }
    requires best_len { length best.old ≡ scope_places }
    ensures { BestOf case table.now best.new }
{
    // The table was checked: nothing is refused.
    let _ = tables::greatest_weights(case, table, best);
}

fn good_read(
    case: Case,
    table: &mut [i64],
    best: &mut [i64],
    raised: &mut [u8],
    progress: Progress,
    line: Line,
) -> Taken
    requires handed { Handed (rules_of case) (working_weight (rules_of case)) case table.old }
    requires best_of { BestOf case table.old best.old }
    requires raised_len { length raised.old ≡ scope_places }
    requires t { T (not (record_out (rules_of case) case (good_replay progress raised.old))) }
    ensures table_after { step_of result raised.new table.new
        ≡ step_line (rules_of case) case table.old (good_replay progress raised.old) (Some line) }
    ensures best_of_2 { BestOf case table.new best.new }
{
    let due = progress.due;
    if !is_due(due, line) {
        return refused(progress, Refusal::NotDue);
    }
    if line_out(case, progress.rounds, due, line) {
        return refused(progress, Refusal::OutOfRange);
    }
    take_line(case, table, best, raised, progress, line)
}

fn good_line(
    case: Case,
    table: &mut [i64],
    best: &mut [i64],
    raised: &mut [u8],
    progress: Progress,
    bytes: &[u8],
) -> Taken
    requires handed { Handed (rules_of case) (working_weight (rules_of case)) case table.old }
    requires best_of { BestOf case table.old best.old }
    requires raised_len { length raised.old ≡ scope_places }
    requires t { T (not (record_out (rules_of case) case (good_replay progress raised.old))) }
    ensures table_after { step_of result raised.new table.new
        ≡ step_replay (rules_of case) case table.old (good_replay progress raised.old) bytes.now }
    ensures best_of_2 { BestOf case table.new best.new }
{
    let read = read_line(case, bytes);
    match read {
        Err(_) => refused(progress, Refusal::NotInColumns),
        Ok(line) => good_read(case, table, best, raised, progress, line),
    }
}

// The lines of a block.
pub(crate) fn good_lines(replay: Replay, case: Case, table: &mut [i64], bytes: &[u8]) -> Block
    requires handed { Handed (rules_of case) (working_weight (rules_of case)) case table.old }
    requires standing_value { (replay.standing ≡ (Ok tt)) × T (not (record_out (rules_of case) case replay)) }
    ensures { (result ≡ (fold_replay (rules_of case) case table.old replay bytes.now).block)
        × (table.new ≡ (fold_replay (rules_of case) case table.old replay bytes.now).table) }
{
    let line = line_length(case);
    let mut best = [0i64; SCOPE_PLACES];
    prepare(case, table, &mut best);
    let mut raised = replay.raised;
    let mut progress = progress_of(replay);
    let mut from: usize = 0;
    let mut done: usize = 0;
    // Not a for: how far a turn goes depends on the raise lines after the line.
    while line <= bytes.len() - from {
        let to = from + line;
        let taken = good_line(
            case,
            table,
            &mut best,
            &mut raised,
            progress,
            &bytes[from..to],
        );
        let next = taken.progress;
        let answer = taken.answer;
        if let Err(refusal) = answer {
            return Block {
                replay: record_of(next, raised, Err(refusal)),
                lines: done,
                answer,
            };
        }
        let on = raise_on(case, &mut raised, next, bytes, to, done + 1);
        progress = on.progress;
        from = on.from;
        done = on.done;
    }
    Block {
        replay: record_of(progress, raised, Ok(())),
        lines: done,
        answer: Ok(()),
    }
}

pub(crate) fn good_step(replay: Replay, case: Case, table: &mut [i64], bytes: &[u8]) -> Stepped
    requires handed { Handed (rules_of case) (working_weight (rules_of case)) case table.old }
    requires standing_value { (replay.standing ≡ (Ok tt)) × T (not (record_out (rules_of case) case replay)) }
    ensures { (result ≡ (step_replay (rules_of case) case table.old replay bytes.now).stepped)
        × (table.new ≡ (step_replay (rules_of case) case table.old replay bytes.now).table) }
{
    let mut best = [0i64; SCOPE_PLACES];
    prepare(case, table, &mut best);
    let mut raised = replay.raised;
    let progress = progress_of(replay);
    let taken = good_line(case, table, &mut best, &mut raised, progress, bytes);
    let after = taken.progress;
    let answer = taken.answer;
    Stepped {
        replay: record_of(after, raised, answer),
        answer,
    }
}
