// What is handed over in the middle of a join.
ghost use Rattle.std.specs.Prelude.{◌≡◌, false, ◌+◌, ◌≤◌, ◌<◌, pos, length, get_or, None};
ghost use Rattle.integers.specs.Words.{below, all};
ghost use Rattle.definitions.specs.Rules.{rules_of, edge_places};
ghost use Rattle.definitions.specs.Refusals.{first_refusal};
ghost use Rattle.definitions.specs.Answers.{outcome_of};
ghost use Rattle.definitions.specs.Case.{place, own_length, lent_length, wholly_barred};
ghost use Rattle.definitions.specs.Valid.{edge_tests};
ghost use Rattle.logs.specs.Waiting.{small_case, ends_read, scopes_read, waiting_weights};
ghost use Rattle.case_lines.specs.Dues.{due_awaited, InCase};
ghost use Rattle.tables.specs.Scopes.{Limited, size_of};
ghost use Rattle.joining.specs.Steps.{small_sizes, Placed, end_beyond, record_out, repeated_at, repeated_ends, same_bar, first_held, waiting_barred};
ghost use Rattle.joining.specs.Steps.{working_tests, held_tests, lent_tests};

use crate::room;
use case_lines::Awaited;
use definitions::{Case, Refusal};
use growing::Ends;

// How many edges' ends and whole scopes were read before the line.
fn ends_read(case: Case, edges: usize, due: Awaited) -> usize
    requires edges_le_edge_places { edges ≤ edge_places }
    requires in_case { InCase (small_sizes case edges) due }
    ensures { (result ≡ ends_read (due_awaited due)) × (result ≤ edges) }
{
    match due {
        Awaited::VariableWeight {
            variable: _,
            value: _,
        } => 0,
        Awaited::EdgeEnds(edge) => edge,
        Awaited::EdgeWeight { edge, k: _, l: _ } => edge + 1,
    }
}

fn scopes_read(case: Case, edges: usize, due: Awaited) -> usize
    requires edges_le_edge_places { edges ≤ edge_places }
    requires in_case { InCase (small_sizes case edges) due }
    ensures { (result ≡ scopes_read (due_awaited due)) × (result ≤ edges) }
{
    match due {
        Awaited::VariableWeight {
            variable: _,
            value: _,
        } => 0,
        Awaited::EdgeEnds(edge) => edge + 1,
        Awaited::EdgeWeight { edge, k: _, l: _ } => edge + 1,
    }
}

// ---- the lower ends

fn end_beyond(lower: &Ends, count: usize, n: usize) -> bool
    requires { count ≤ edge_places }
    ensures { result ≡ end_beyond lower.now count n }
{
    (0..count).any(|e| n <= usize::from(lower[e]))
}

// Number 5 of the record; `out` says that it applies already.
pub(crate) fn record_out(case: Case, edges: usize, due: Awaited, lower: &Ends, out: bool) -> bool
    requires { edges ≤ edge_places }
    ensures { result ≡ record_out case edges (due_awaited due) lower.now out }
{
    if out {
        return true;
    }
    if case.n < edges {
        return true;
    }
    if !room::in_join(case, edges, due) {
        return true;
    }
    end_beyond(lower, ends_read(case, edges, due), case.n)
}

fn repeated_at(lower: &Ends, e: usize) -> bool
    requires { e < edge_places }
    ensures { result ≡ repeated_at lower.now e }
{
    let end = lower[e];
    let mut found = false;
    for &before in &lower[..e] {
        found |= end == before;
    }
    found
}

fn some_repeated(lower: &Ends, count: usize) -> bool
    requires { count ≤ edge_places }
    ensures { result ≡ repeated_ends lower.now count }
{
    (0..count).any(|e| repeated_at(lower, e))
}

// ---- the weights

// Both are barred or neither is.
fn same_bar(first: i64, second: i64) -> bool
    ensures { result ≡ same_bar first second }
{
    if rules::is_barred(first) {
        return rules::is_barred(second);
    }
    !rules::is_barred(second)
}

fn same_bars<'a>(starting: &'a [i64], table: &'a [i64], own: usize) -> bool
    requires { (own ≤ length starting.now) × (own ≤ length table.now) }
    ensures { result ≡ all (λ p. same_bar (get_or starting.now p (pos 0)) (get_or table.now p (pos 0))) (below own) }
{
    (0..own).all(|p| same_bar(starting[p], table[p]))
}

// What number 8 asks of the starting weights and those that wait, with the working weights beside them.
fn first_held<'a>(case: Case, starting: &'a [i64], table: &'a [i64], waiting: usize) -> bool
    requires limited { Limited case }
    requires starting_len { (length starting.now ≡ lent_length (rules_of case) case) × (length table.now ≡ lent_length (rules_of case) case) }
    requires waiting_in_bounds { own_length case + waiting ≤ length starting.now }
    ensures { result ≡ first_held (rules_of case) case starting.now table.now waiting }
{
    let rulebook = case.rulebook;
    let low = rules::least_starting(rulebook);
    let high = rules::most_starting(rulebook);
    let own = room::own_length(case);
    let end = own + waiting;
    if !tables::all_holdable(&starting[..end], low, high) {
        return false;
    }
    if !tables::all_zero(&starting[end..]) {
        return false;
    }
    same_bars(starting, table, own)
}

// Where scope y of those that wait begins, and its size.
fn scope_place(case: Case, edges: usize, y: usize) -> usize
    requires { (case.d ≤ 8) × (y ≤ edge_places) }
    ensures { result ≡ place (small_case case edges) y 0 0 }
{
    if y == 0 {
        return 0;
    }
    let d = case.d;
    d + (y - 1) * (d * d)
}

fn scope_size(case: Case, edges: usize, y: usize) -> usize
    requires { case.d ≤ 8 }
    ensures { result ≡ size_of (small_case case edges) y }
{
    let d = case.d;
    if y == 0 {
        return d;
    }
    d * d
}

// Scope y of those that wait is wholly barred.
fn scope_barred(case: Case, starting: &[i64], edges: usize, y: usize) -> bool
    requires placed { Placed case (length starting.now) edges }
    requires y_le_edges { y ≤ edges }
    ensures { result ≡ wholly_barred (small_case case edges) (waiting_weights case starting.now) y }
{
    let first = room::own_length(case) + scope_place(case, edges, y);
    let end = first + scope_size(case, edges, y);
    tables::all_barred(&starting[first..end])
}

fn some_barred(case: Case, starting: &[i64], edges: usize, count: usize) -> bool
    requires placed { Placed case (length starting.now) edges }
    requires count_bound { count ≤ edges + 1 }
    ensures { result ≡ waiting_barred case starting.now edges count }
{
    (0..count).any(|y| scope_barred(case, starting, edges, y))
}

// ---- in order

// Number 8 of the working weights, and 15.
fn working_outcome<'a>(
    case: Case,
    starting: &'a [i64],
    table: &'a [i64],
    edges: usize,
    count: usize,
) -> Result<(), Refusal>
    requires placed { Placed case (length starting.now) edges }
    requires table_len { length table.now ≡ lent_length (rules_of case) case }
    requires false_value { first_refusal (edge_tests (rules_of case) case false) ≡ None }
    requires count_bound { count ≤ edges + 1 }
    ensures { result ≡ outcome_of (first_refusal (working_tests (rules_of case) case starting.now table.now edges count)) }
{
    tables::check_working(case, table, false, false)?;
    if some_barred(case, starting, edges, count) {
        return Err(Refusal::ScopeBarred);
    }
    Ok(())
}

// Number 7 of the lower ends, 8 and 15.
fn held_outcome<'a>(
    case: Case,
    starting: &'a [i64],
    table: &'a [i64],
    edges: usize,
    due: Awaited,
    lower: &'a Ends,
) -> Result<(), Refusal>
    requires placed { Placed case (length starting.now) edges }
    requires table_len { length table.now ≡ lent_length (rules_of case) case }
    requires false_value { first_refusal (edge_tests (rules_of case) case false) ≡ None }
    requires in_case { InCase (small_sizes case edges) due }
    ensures { result ≡ outcome_of (first_refusal
        (held_tests (rules_of case) case starting.now table.now edges (due_awaited due) lower.now)) }
{
    if some_repeated(lower, ends_read(case, edges, due)) {
        return Err(Refusal::EdgeRepeated);
    }
    let waiting = room::weights_read(case, edges, due);
    if first_held(case, starting, table, waiting) {
        let count = scopes_read(case, edges, due);
        return working_outcome(case, starting, table, edges, count);
    }
    Err(Refusal::WeightOutOfRange)
}

// Numbers 5 to 8 and 15, of tables of the right length; `out` says that 5 applies to the record.
pub(crate) fn check_lent<'a>(
    case: Case,
    starting: &'a [i64],
    table: &'a [i64],
    edges: usize,
    due: Awaited,
    lower: &'a Ends,
    out: bool,
) -> Result<(), Refusal>
    requires placed { Placed case (length starting.now) edges }
    requires table_len { length table.now ≡ lent_length (rules_of case) case }
    ensures { result ≡ outcome_of (first_refusal
        (lent_tests (rules_of case) case starting.now table.now edges (due_awaited due) lower.now out)) }
{
    let beyond = record_out(case, edges, due, lower, out);
    tables::check_edges(case, beyond)?;
    held_outcome(case, starting, table, edges, due, lower)
}
