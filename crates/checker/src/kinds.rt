// What each kind of line does, where none of its numbers up to 15 applies.
ghost use Rattle.std.specs.Prelude.{◌≡◌, not, false, List, ℕ, ◌^◌, ◌<◌, ℤ, pos, T, length};
ghost use Rattle.std.specs.Int.Signed.{lt_z};
ghost use Rattle.definitions.specs.Rules.{rules_of, scope_places};
ghost use Rattle.definitions.specs.Refusals.{first_refusal};
ghost use Rattle.definitions.specs.Answers.{outcome_of, unless_refused};
ghost use Rattle.definitions.specs.Case.{upper_bound};
ghost use Rattle.definitions.specs.Valid.{working_weight};
ghost use Rattle.theory.proofs.Validity.{Handed};
ghost use Rattle.tables.specs.Scopes.{BestOf};
ghost use Rattle.checker.specs.Checker.{record_out, of_shift, of_begin, of_bound, of_due};
ghost use Rattle.checker.specs.Taken.{good_replay, step_of, step_next};

use crate::columns::index;
use crate::presses::raise_line;
use crate::records::{after_bound, after_move, refused, with_due};
use crate::{Due, Progress, Replay, Taken, Target};
use definitions::{Case, Line, Refusal};

fn shift_made(case: Case, table: &mut [i64], best: &mut [i64], line: Line) -> Result<(), Refusal>
    requires handed { Handed (rules_of case) (working_weight (rules_of case)) case table.old }
    requires best_of { BestOf case table.old best.old }
    requires t { (p : Replay) → T (not (of_shift (rules_of case) case table.old p line).out) }
    ensures value { (p : Replay) → (result ≡ outcome_of (first_refusal (of_shift (rules_of case) case table.old p line).later))
        × (table.new
        ≡ unless_refused (first_refusal (of_shift (rules_of case) case table.old p line).later)
        (of_shift (rules_of case) case table.old p line).table table.old) }
    ensures best_of_2 { BestOf case table.new best.new }
{
    let edge = index(line.a);
    let end = index(line.b);
    let value = index(line.c);
    changes::transfer(case, table, best, edge, end, value, line.amount)
}

fn shift_line(
    case: Case,
    table: &mut [i64],
    best: &mut [i64],
    progress: Progress,
    line: Line,
) -> Taken
    requires handed { Handed (rules_of case) (working_weight (rules_of case)) case table.old }
    requires best_of { BestOf case table.old best.old }
    requires t { (p : Replay) → T (not (of_shift (rules_of case) case table.old p line).out) }
    ensures by_index { (raised : List ℕ)
        → step_of result raised table.new
        ≡ step_next table.old (good_replay progress raised)
        (of_shift (rules_of case) case table.old (good_replay progress raised) line) }
    ensures best_of_2 { BestOf case table.new best.new }
{
    let made = shift_made(case, table, best, line);
    match made {
        Err(refusal) => refused(progress, refusal),
        Ok(()) => after_move(progress),
    }
}

// A press or a void line is begun.
fn begin_line(raised: &mut [u8], progress: Progress, target: Target, line: Line) -> Taken
    requires raised_len { length raised.old ≡ scope_places }
    requires pos_value { (lt_z line.a (pos 0) ≡ false) × (lt_z line.b (pos 0) ≡ false) }
    ensures { (c : Case) (w : List ℤ)
        → step_of result raised.new w
        ≡ step_next w (good_replay progress raised.old) (of_begin (rules_of c) c w (good_replay progress raised.old) target line) }
{
    raised.fill(0);
    let variable = index(line.a);
    let left = index(line.b);
    with_due(
        progress,
        Due::Raise {
            variable,
            target,
            left,
            last: None,
        },
    )
}

fn stated_bound(progress: Progress, line: Line, bound: i64) -> Taken
    requires { progress.rounds < 2 ^ 63 }
    ensures { (c : Case) (w : List ℤ) (raised : List ℕ) → bound ≡ upper_bound c w
        → step_of result raised w ≡ step_next w (good_replay progress raised) (of_bound (rules_of c) c w (good_replay progress raised) line) }
{
    if line.amount != bound {
        return refused(progress, Refusal::OtherBound);
    }
    if progress.start <= bound {
        return refused(progress, Refusal::BoundNotLower);
    }
    after_bound(progress, bound)
}

fn bound_line(case: Case, best: &[i64], progress: Progress, line: Line) -> Taken
    requires { progress.rounds < (rules_of case).rounds }
    ensures { (w : List ℤ) (raised : List ℕ) → Handed (rules_of case) (working_weight (rules_of case)) case w → BestOf case w best.now
        → step_of result raised w ≡ step_next w (good_replay progress raised) (of_bound (rules_of case) case w (good_replay progress raised) line) }
{
    let sum = tables::sum_of_best(case, best);
    match sum {
        Err(refusal) => refused(progress, refusal),
        Ok(bound) => stated_bound(progress, line, bound),
    }
}

fn move_line(
    case: Case,
    table: &mut [i64],
    best: &mut [i64],
    raised: &mut [u8],
    progress: Progress,
    line: Line,
) -> Taken
    requires handed { Handed (rules_of case) (working_weight (rules_of case)) case table.old }
    requires best_of { BestOf case table.old best.old }
    requires raised_len { length raised.old ≡ scope_places }
    requires t { T (not (of_due (rules_of case) case table.old (good_replay progress raised.old) Due.MoveOrBound line).out) }
    ensures table_after { step_of result raised.new table.new
        ≡ step_next table.old (good_replay progress raised.old)
        (of_due (rules_of case) case table.old (good_replay progress raised.old) Due.MoveOrBound line) }
    ensures best_of_2 { BestOf case table.new best.new }
{
    if line.kind == 1 {
        return shift_line(case, table, best, progress, line);
    }
    if line.kind == 2 {
        return begin_line(raised, progress, Target::Press(line.amount), line);
    }
    if line.kind == 4 {
        return bound_line(case, best, progress, line);
    }
    begin_line(raised, progress, Target::Void, line)
}

// A line that is due and in range.
pub(crate) fn take_line(
    case: Case,
    table: &mut [i64],
    best: &mut [i64],
    raised: &mut [u8],
    progress: Progress,
    line: Line,
) -> Taken
    requires handed { Handed (rules_of case) (working_weight (rules_of case)) case table.old }
    requires best_of { BestOf case table.old best.old }
    requires raised_len { length raised.old ≡ scope_places }
    requires t { T (not (record_out (rules_of case) case (good_replay progress raised.old))) }
    requires t_2 { T (not (of_due (rules_of case) case table.old (good_replay progress raised.old) progress.due line).out) }
    ensures table_after { step_of result raised.new table.new
        ≡ step_next table.old (good_replay progress raised.old)
        (of_due (rules_of case) case table.old (good_replay progress raised.old) progress.due line) }
    ensures best_of_2 { BestOf case table.new best.new }
{
    let due = progress.due;
    match due {
        Due::MoveOrBound => move_line(case, table, best, raised, progress, line),
        Due::Raise {
            variable,
            target,
            left,
            last,
        } => raise_line(
            case, table, best, raised, progress, variable, target, left, last, line,
        ),
        Due::Nothing => with_due(progress, Due::Nothing),
    }
}
