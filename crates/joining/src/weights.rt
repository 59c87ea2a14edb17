// A weight's line in a join.
ghost use Rattle.std.specs.Prelude.{◌≡◌, ◌&&◌, List, ℕ, ◌≤◌, ◌<◌, length, set};
ghost use Rattle.definitions.specs.Rules.{rules_in};
ghost use Rattle.definitions.specs.Refusals.{first_refusal};
ghost use Rattle.definitions.specs.Valid.{in_starting};
ghost use Rattle.definitions.specs.Answers.{outcome_of};
ghost use Rattle.definitions.specs.CaseFiles.{names as names_place, weight_in, variable-weight, edge-weight};
ghost use Rattle.joining.specs.Steps.{Placed, rest_tests, others_barred, placed_tests};

use crate::{columns, room};
use definitions::{Case, Line, Refusal, Rulebook};

// What the line says that waits.
fn weight_in(line: Line) -> i64
    ensures { result ≡ weight_in line }
{
    if columns::bars(line) {
        return rules::barred();
    }
    line.amount
}

// The line's weight waits at this place.
pub(crate) fn wait(starting: &mut [i64], place: usize, line: Line)
    requires { place < length starting.old }
    ensures { starting.new ≡ set starting.old place (weight_in line) }
{
    let weight = weight_in(line);
    starting[place] = weight;
}

fn is_starting(rulebook: Rulebook, line: Line) -> bool
    ensures { result ≡ in_starting (rules_in rulebook) line.amount }
{
    columns::is_between(
        line.amount,
        rules::least_starting(rulebook),
        rules::most_starting(rulebook),
    )
}

// All other tuples of a scope, which lie before `place`, are barred; `last` says that the tuple there is its last.
fn others_barred(last: bool, others: usize, place: usize, table: &[i64]) -> bool
    requires { (others ≤ place) × (place < length table.now) }
    ensures { result ≡ others_barred last others place table.now }
{
    if !last {
        return false;
    }
    let from = place - others;
    tables::all_barred(&table[from..place])
}

// `out` says that number 5 applies. The weight would wait at `place`.
fn check_placed(
    rulebook: Rulebook,
    starting: &[i64],
    out: bool,
    last: bool,
    others: usize,
    place: usize,
    line: Line,
) -> Result<(), Refusal>
    requires { (others ≤ place) × (place < length starting.now) }
    ensures { result ≡ outcome_of (first_refusal (placed_tests rulebook starting.now out last others place line)) }
{
    if out {
        return Err(Refusal::OutOfRange);
    }
    if columns::bars(line) {
        if others_barred(last, others, place, starting) {
            return Err(Refusal::ScopeBarred);
        }
        return Ok(());
    }
    if is_starting(rulebook, line) {
        return Ok(());
    }
    Err(Refusal::WeightOutOfRange)
}

fn names_value(line: Line, i: usize, k: usize) -> bool
    requires { (i < 65536) × (k < 65536) }
    ensures { result ≡ (names_place i line.a && names_place k line.b) }
{
    columns::names(line.a, i) & columns::names(line.b, k)
}

fn names_tuple(line: Line, e: usize, k: usize, l: usize) -> bool
    requires { (e < 65536) × (k < 65536) × (l < 65536) }
    ensures { result ≡ (names_place e line.a && names_place k line.b && names_place l line.c) }
{
    columns::names(line.a, e) & columns::names(line.b, k) & columns::names(line.c, l)
}

// Numbers 5, 8 and 15 of the new variable's weight.
pub(crate) fn check_value(
    case: Case,
    starting: &[i64],
    edges: usize,
    i: usize,
    k: usize,
    line: Line,
) -> Result<(), Refusal>
    requires placed { Placed case (length starting.now) edges }
    requires i_bound { (i < 1) × (k < case.d) }
    ensures { (lower : List ℕ)
        → result ≡ outcome_of (first_refusal (rest_tests case starting.now edges (variable-weight i k) lower line)) }
{
    let rulebook = case.rulebook;
    let d = case.d;
    let place = room::own_length(case) + (i * d + k);
    let named = names_value(line, case.n + i, k);
    check_placed(rulebook, starting, !named, k + 1 == d, k, place, line)
}

// Numbers 5, 8 and 15 of a new edge's weight.
pub(crate) fn check_tuple(
    case: Case,
    starting: &[i64],
    edges: usize,
    e: usize,
    k: usize,
    l: usize,
    line: Line,
) -> Result<(), Refusal>
    requires placed { Placed case (length starting.now) edges }
    requires e_lt_edges { (e < edges) × (k < case.d) × (l < case.d) }
    ensures { (lower : List ℕ)
        → result ≡ outcome_of (first_refusal (rest_tests case starting.now edges (edge-weight e k l) lower line)) }
{
    let rulebook = case.rulebook;
    let d = case.d;
    let others = k * d + l;
    let place = room::own_length(case) + (d + (e * (d * d) + others));
    let named = names_tuple(line, case.m + e, k, l);
    check_placed(
        rulebook,
        starting,
        !named,
        (k + 1 == d) & (l + 1 == d),
        others,
        place,
        line,
    )
}
