// Entry points for totals, ceilings and activity (document 01, "Links, scopes and totals"): each refuses by the numbered list. An unlawful plan
// has no total (document 02, change 2).
#![tactic(auto)]

ghost use Rattle.std.specs.Prelude.{◌≡◌, T, ◌+◌, ◌≤◌, ◌<◌, if◌then◌else◌, Ok};
ghost use Rattle.definitions.specs.Rules.{rules_of, edge_places};
ghost use Rattle.definitions.specs.Case.{place, weight, value_of, at_used, objective as total, active, uses_barred, is_lawful};
ghost use Rattle.definitions.specs.Valid.{working_weight};
ghost use Rattle.calls.specs.Calls.{objective_answer, upper_bound_answer, is_active_answer, tuple_out};
ghost use Rattle.theory.proofs.Validity.{Handed};
ghost use Rattle.tables.specs.Scopes.{Limited, of_size};

use definitions::{Case, Refusal};

fn place_of(n: usize, d: usize, x: usize, k: usize, l: usize) -> usize
    requires { (n ≤ 256) × (d ≤ 8) × (x < n + edge_places) × (k < 256) × (l < 256) }
    ensures { result ≡ place (of_size n d) x k l }
{
    if x < n {
        x * d + k
    } else {
        n * d + (x - n) * (d * d) + (k * d + l)
    }
}

// 0 past the table's end.
fn weight_at(case: Case, table: &[i64], x: usize, k: usize, l: usize) -> i64
    requires limited { Limited case }
    requires x_bound { (x < case.n + case.m) × (k < 256) × (l < 256) }
    ensures { result ≡ weight case table.now x k l }
{
    let at = place_of(case.n, case.d, x, k, l);
    if at < table.len() {
        return table[at];
    }
    0
}

// ---- activity

fn tuple_out(case: Case, x: usize, k: usize, l: usize) -> bool
    ensures { result ≡ tuple_out case x k l }
{
    if case.d <= k {
        return true;
    }
    if x < case.n {
        return l != 0;
    }
    if case.m <= x - case.n {
        return true;
    }
    !(l < case.d)
}

fn has_greatest(case: Case, table: &[i64], x: usize, k: usize, l: usize) -> Result<bool, Refusal>
    requires handed { Handed (rules_of case) (working_weight (rules_of case)) case table.now }
    requires x_bound { (x < case.n + case.m) × (k < case.d) × (l < case.d) }
    ensures { result ≡ Ok (active case table.now x k l) }
{
    let greatest = tables::greatest(tables::scope_weights(case, table, x));
    Ok(weight_at(case, table, x, k, l) == greatest)
}

// ---- the objective

fn value_of(assignment: &[u8], i: usize) -> usize
    ensures { (result ≡ value_of assignment.now i) × (result < 256) }
{
    if i < assignment.len() {
        usize::from(assignment[i])
    } else {
        0
    }
}

fn used_weight(case: Case, table: &[i64], assignment: &[u8], x: usize) -> i64
    requires limited { Limited case }
    requires x_bound { x < case.n + case.m }
    ensures { result ≡ at_used case assignment.now x (weight case table.now x) }
{
    if x < case.n {
        return weight_at(case, table, x, value_of(assignment, x), 0);
    }
    let e = x - case.n;
    let k = value_of(assignment, usize::from(case.lower[e]));
    let l = value_of(assignment, usize::from(case.upper[e]));
    weight_at(case, table, x, k, l)
}

// Asked before the ranges of weights, so of any table.
fn uses_barred(case: Case, table: &[i64], assignment: &[u8]) -> bool
    requires { Limited case }
    ensures { result ≡ uses_barred case table.now assignment.now }
{
    let scopes = case.n + case.m;
    (0..scopes).any(|x| rules::is_barred(used_weight(case, table, assignment, x)))
}

fn sum_of_used(case: Case, table: &[i64], assignment: &[u8]) -> i64
    requires handed { Handed (rules_of case) (working_weight (rules_of case)) case table.now }
    requires t { T (is_lawful case table.now assignment.now) }
    ensures { result ≡ total case table.now assignment.now }
{
    let scopes = case.n + case.m;
    let mut sum: i64 = 0;
    for x in 0..scopes {
        sum += used_weight(case, table, assignment, x);
    }
    sum
}

// ---- the calls

pub fn objective(case: Case, table: &[i64], assignment: &[u8]) -> Result<i64, Refusal>
    ensures { result ≡ objective_answer (rules_of case) case table.now assignment.now }
{
    if !tables::within_limits(case) {
        return Err(Refusal::OutsideLimits);
    }
    let wrong = assignment.len() != case.n;
    let out = tables::some_beyond(assignment, case.d) | uses_barred(case, table, assignment);
    tables::check_working(case, table, wrong, out)?;
    Ok(sum_of_used(case, table, assignment))
}

pub fn upper_bound(case: Case, table: &[i64]) -> Result<i64, Refusal>
    ensures { result ≡ upper_bound_answer (rules_of case) case table.now }
{
    tables::check_working(case, table, false, false)?;
    tables::sum_of_greatest(case, table)
}

pub fn is_active(
    case: Case,
    table: &[i64],
    scope: usize,
    k: usize,
    l: usize,
) -> Result<bool, Refusal>
    ensures { result ≡ is_active_answer (rules_of case) case table.now scope k l }
{
    tables::check_working(case, table, false, tuple_out(case, scope, k, l))?;
    has_greatest(case, table, scope, k, l)
}
