// A raise line, and the press or the void line with its last one.
ghost use Rattle.std.specs.Prelude.{◌≡◌, not, List, ℕ, ◌≤◌, ◌<◌, ℤ, T, length};
ghost use Rattle.definitions.specs.Rules.{rules_of, scope_places};
ghost use Rattle.definitions.specs.Refusals.{first_refusal};
ghost use Rattle.definitions.specs.Answers.{outcome_of, unless_refused};
ghost use Rattle.definitions.specs.Case.{scope_count};
ghost use Rattle.definitions.specs.Valid.{working_weight};
ghost use Rattle.definitions.specs.Consistency.{all_refuted};
ghost use Rattle.definitions.specs.Moves.{press_amount, active_values};
ghost use Rattle.definitions.specs.Lines.{outside};
ghost use Rattle.calls.specs.Calls.{is_raised};
ghost use Rattle.theory.proofs.Validity.{Handed};
ghost use Rattle.tables.specs.Scopes.{BestOf};
ghost use Rattle.changes.specs.Kept.{MarksOf};
ghost use Rattle.checker.specs.Checker.{none_raised, not_above_last, target_out, after_target, target_table, last_tests, of_raise};
ghost use Rattle.checker.specs.Taken.{good_replay, step_of, step_taken, step_next, TargetTaken, whole_tests, last_step};

use crate::columns::index;
use crate::records::{after_move, refused, with_due};
use crate::{Due, Progress, Taken, Target};
use definitions::{Case, Line, Refusal};

fn not_above(last: Option<usize>, x: usize) -> bool
    ensures { result ≡ not_above_last last x }
{
    last.is_some_and(|y| x <= y)
}

fn all_refuted(
    case: Case,
    table: &[i64],
    best: &[i64],
    raised: &[u8],
    variable: usize,
    values: u8,
) -> bool
    requires handed { Handed (rules_of case) (working_weight (rules_of case)) case table.now }
    requires best_of { BestOf case table.now best.now }
    requires raised_len { (length raised.now ≡ scope_places) × (variable < case.n) }
    requires marks_of { MarksOf case (active_values case table.now variable) values }
    ensures { result ≡ all_refuted case table.now (is_raised raised.now) variable (active_values case table.now variable) }
{
    arcs::values_unsupported(case, table, best, raised, variable, values).unwrap_or(false)
}

fn press_made(
    case: Case,
    table: &mut [i64],
    best: &mut [i64],
    raised: &[u8],
    variable: usize,
    values: u8,
    amount: i64,
) -> Result<(), Refusal>
    requires handed { Handed (rules_of case) (working_weight (rules_of case)) case table.old }
    requires best_of { BestOf case table.old best.old }
    requires raised_len { (length raised.now ≡ scope_places) × (variable < case.n) × T (press_amount (rules_of case) amount) }
    requires marks_of { MarksOf case (active_values case table.old variable) values }
    ensures target_taken { TargetTaken case table.old variable raised.now (Target.Press amount) result table.new }
    ensures best_of_2 { BestOf case table.new best.new }
{
    changes::lower_and_raise(case, table, best, raised, variable, values, amount)
}

// A void line with its raised scopes, unless number 16 applies.
fn void_made(
    case: Case,
    table: &[i64],
    best: &[i64],
    raised: &[u8],
    variable: usize,
) -> Result<(), Refusal>
    requires handed { Handed (rules_of case) (working_weight (rules_of case)) case table.now }
    requires best_of { BestOf case table.now best.now }
    requires raised_len { (length raised.now ≡ scope_places) × (variable < case.n) }
    ensures { result ≡ outcome_of (first_refusal (last_tests (rules_of case) case table.now variable raised.now Target.Void)) }
{
    if bars::rest_barred(case, table, best, raised, variable) {
        return Ok(());
    }
    Err(Refusal::NotAllBarred)
}

fn target_made(
    case: Case,
    table: &mut [i64],
    best: &mut [i64],
    raised: &[u8],
    variable: usize,
    values: u8,
    target: Target,
) -> Result<(), Refusal>
    requires handed { Handed (rules_of case) (working_weight (rules_of case)) case table.old }
    requires best_of { BestOf case table.old best.old }
    requires raised_len { (length raised.now ≡ scope_places) × (variable < case.n) × T (not (target_out (rules_of case) target)) }
    requires marks_of { MarksOf case (active_values case table.old variable) values }
    ensures target_taken { TargetTaken case table.old variable raised.now target result table.new }
    ensures best_of_2 { BestOf case table.new best.new }
{
    match target {
        Target::Press(amount) => press_made(case, table, best, raised, variable, values, amount),
        Target::Void => void_made(case, table, best, raised, variable),
    }
}

// The press or the void line with its raised scopes, unless number 10, 16 or 11 applies.
fn target_whole(
    case: Case,
    table: &mut [i64],
    best: &mut [i64],
    raised: &[u8],
    variable: usize,
    target: Target,
) -> Result<(), Refusal>
    requires handed { Handed (rules_of case) (working_weight (rules_of case)) case table.old }
    requires best_of { BestOf case table.old best.old }
    requires raised_len { (length raised.now ≡ scope_places) × (variable < case.n) × T (not (target_out (rules_of case) target)) }
    ensures value { (result ≡ outcome_of (first_refusal (whole_tests case table.old variable raised.now target)))
        × (table.new
        ≡ unless_refused (first_refusal (whole_tests case table.old variable raised.now target))
        (target_table (rules_of case) case table.old variable raised.now target) table.old) }
    ensures best_of_2 { BestOf case table.new best.new }
{
    let values = changes::best_values(case, table, best, variable);
    if !all_refuted(case, table, best, raised, variable, values) {
        return Err(Refusal::NotRefuted);
    }
    target_made(case, table, best, raised, variable, values, target)
}

fn after_target(progress: Progress, target: Target) -> Taken
    ensures { (raised : List ℕ) (w : List ℤ)
        → step_of result none_raised w ≡ step_taken (after_target (good_replay progress raised) target) w }
{
    match target {
        Target::Press(_) => after_move(progress),
        Target::Void => with_due(progress, Due::Nothing),
    }
}

// The last raise line, of scope x.
fn last_raise(
    case: Case,
    table: &mut [i64],
    best: &mut [i64],
    raised: &mut [u8],
    progress: Progress,
    variable: usize,
    target: Target,
    x: usize,
) -> Taken
    requires handed { Handed (rules_of case) (working_weight (rules_of case)) case table.old }
    requires best_of { BestOf case table.old best.old }
    requires raised_len { (length raised.old ≡ scope_places) × (variable < case.n) × T (not (target_out (rules_of case) target)) × (x < scope_places) }
    ensures table_after { step_of result raised.new table.new
        ≡ last_step case table.old (good_replay progress raised.old) variable target x }
    ensures best_of_2 { BestOf case table.new best.new }
{
    let before = raised[x];
    raised[x] = 1;
    let made = target_whole(case, table, best, raised, variable, target);
    match made {
        Err(refusal) => {
            raised[x] = before;
            refused(progress, refusal)
        }
        Ok(()) => {
            raised.fill(0);
            after_target(progress, target)
        }
    }
}

pub(crate) fn raise_line(
    case: Case,
    table: &mut [i64],
    best: &mut [i64],
    raised: &mut [u8],
    progress: Progress,
    variable: usize,
    target: Target,
    left: usize,
    last: Option<usize>,
    line: Line,
) -> Taken
    requires handed { Handed (rules_of case) (working_weight (rules_of case)) case table.old }
    requires best_of { BestOf case table.old best.old }
    requires raised_len { (length raised.old ≡ scope_places) × (variable < case.n) × T (not (target_out (rules_of case) target)) × (1 ≤ left) }
    requires t { T (not (outside (scope_count case) line.a)) }
    ensures table_after { step_of result raised.new table.new
        ≡ step_next table.old (good_replay progress raised.old)
        (of_raise (rules_of case) case table.old (good_replay progress raised.old) variable target left last line) }
    ensures best_of_2 { BestOf case table.new best.new }
{
    let x = index(line.a);
    if not_above(last, x) {
        return refused(progress, Refusal::RaiseNotAscending);
    }
    if x == variable {
        return refused(progress, Refusal::RaiseNotAscending);
    }
    if left == 1 {
        return last_raise(case, table, best, raised, progress, variable, target, x);
    }
    raised[x] = 1;
    with_due(
        progress,
        Due::Raise {
            variable,
            target,
            left: left - 1,
            last: Some(x),
        },
    )
}
