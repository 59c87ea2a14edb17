// A weight's line, and a line that bars.
ghost use Rattle.std.specs.Prelude.{◌≡◌, ◌&&◌, ◌≤◌, ◌<◌, length, set};
ghost use Rattle.definitions.specs.Rules.{rules_in};
ghost use Rattle.definitions.specs.Refusals.{first_refusal};
ghost use Rattle.definitions.specs.Case.{barred_weight};
ghost use Rattle.definitions.specs.Valid.{in_starting};
ghost use Rattle.definitions.specs.Answers.{outcome_of, unless_refused};
ghost use Rattle.definitions.specs.CaseFiles.{names as names_place, bars as bars_tuple};
ghost use Rattle.casefile.specs.Steps.{plain_tests, bar_tests, others_barred};

use crate::columns;
use definitions::{Line, Refusal, Rulebook};

fn names_places(line: Line, a: usize, b: usize, c: usize) -> bool
    requires { (a < 65536) × (b < 65536) × (c < 65536) }
    ensures { result ≡ (names_place a line.a && names_place b line.b && names_place c line.c) }
{
    columns::names(line.a, a) & columns::names(line.b, b) & columns::names(line.c, c)
}

fn starting(rulebook: Rulebook, line: Line) -> bool
    ensures { result ≡ in_starting (rules_in rulebook) line.amount }
{
    columns::is_between(
        line.amount,
        rules::least_starting(rulebook),
        rules::most_starting(rulebook),
    )
}

// `due` says that the line's kind is due.
fn weigh(
    rulebook: Rulebook,
    line: Line,
    due: bool,
    a: usize,
    b: usize,
    c: usize,
) -> Result<(), Refusal>
    requires { (a < 65536) × (b < 65536) × (c < 65536) }
    ensures { result ≡ outcome_of (first_refusal (plain_tests rulebook due a b c line)) }
{
    if !due {
        return Err(Refusal::NotDue);
    }
    if !names_places(line, a, b, c) {
        return Err(Refusal::OutOfRange);
    }
    if !starting(rulebook, line) {
        return Err(Refusal::WeightOutOfRange);
    }
    Ok(())
}

// Puts the weight at its place, if nothing refuses the line.
pub(crate) fn take_weight(
    rulebook: Rulebook,
    line: Line,
    due: bool,
    a: usize,
    b: usize,
    c: usize,
    place: usize,
    table: &mut [i64],
) -> Result<(), Refusal>
    requires a_bound { (a < 65536) × (b < 65536) × (c < 65536) }
    requires place_in_bounds { place < length table.old }
    ensures { (result ≡ outcome_of (first_refusal (plain_tests rulebook due a b c line)))
        × (table.new ≡ unless_refused (first_refusal (plain_tests rulebook due a b c line)) (set table.old place line.amount)
        table.old) }
{
    weigh(rulebook, line, due, a, b, c)?;
    table[place] = line.amount;
    Ok(())
}

// ---- a line that bars

pub(crate) fn bars(line: Line) -> bool
    ensures { result ≡ bars_tuple line }
{
    (line.kind == 14) | (line.kind == 15)
}

// All other tuples of a scope, which lie before `place`, are barred; `last` says that the tuple there is its last.
pub(crate) fn others_barred(last: bool, others: usize, place: usize, table: &[i64]) -> bool
    requires { (others ≤ place) × (place < length table.now) }
    ensures { result ≡ others_barred last others place table.now }
{
    if !last {
        return false;
    }
    let from = place - others;
    tables::all_barred(&table[from..place])
}

// Bars the tuple at `place`, if nothing refuses the line. `closing` says that its scope would be wholly barred.
pub(crate) fn bar(
    line: Line,
    due: bool,
    closing: bool,
    a: usize,
    b: usize,
    c: usize,
    place: usize,
    table: &mut [i64],
) -> Result<(), Refusal>
    requires a_bound { (a < 65536) × (b < 65536) × (c < 65536) }
    requires place_in_bounds { place < length table.old }
    ensures { (result ≡ outcome_of (first_refusal (bar_tests due closing a b c line)))
        × (table.new ≡ unless_refused (first_refusal (bar_tests due closing a b c line)) (set table.old place barred_weight)
        table.old) }
{
    if !due {
        return Err(Refusal::NotDue);
    }
    if !names_places(line, a, b, c) {
        return Err(Refusal::OutOfRange);
    }
    if closing {
        return Err(Refusal::ScopeBarred);
    }
    table[place] = rules::barred();
    Ok(())
}
