// Inner functions of a case and its table: the check of what is handed over, a scope's weights, and sums over scopes.
#![tactic(auto)]

mod both;

ghost use Rattle.std.specs.Prelude.{◌≡◌, not, ◌&&◌, ◌||◌, ltb, ◌∷◌, map, ◌+◌, ◌*◌, ◌≤◌, ◌<◌, ◌<ℤ◌, length, take, pos};
ghost use Rattle.integers.specs.Words.{below, any, all, within, within_z, minus, eq_z, greatest_of, smallest_of};
ghost use Rattle.definitions.specs.Rules.{rules_in, rules_of, edge_places};
ghost use Rattle.definitions.specs.Refusals.{first_refusal};
ghost use Rattle.definitions.specs.Answers.{outcome_of};
ghost use Rattle.definitions.specs.Case.{lower_end, upper_end, place, greatest as greatest_weight, scope_count, scopes, own_length, lent_length, barred_weight, is_barred, wholly_barred};
ghost use Rattle.definitions.specs.Valid.{in_working, starting_weight, working_weight, carry_out, within_limits, some_edge, end_outside, same_ends, limit_test, edge_tests, handed_over, both_handed_over};
ghost use Rattle.definitions.specs.CaseFiles.{zeroed_from};
ghost use Rattle.tables.specs.Scopes.{Limited, of_size, size_of, holdable, front_tests, own_tests, tuple_tests, scope_part, is_sized, scope_weights, best_at};
ghost use Rattle.tables.specs.Scopes.{written_over, greatest_call, sum_in_range, greatest_sum, best_sum};
ghost use Rattle.tables.specs.Edges.{with_edges};

use definitions::{Case, EDGE_PLACES, Refusal, Rulebook, SCOPE_PLACES};

// ---- the check

fn in_range(x: usize, low: usize, high: usize) -> bool
    ensures { result ≡ within low high x }
{
    low <= x && x <= high
}

fn same_ends<'a>(
    lower: &'a [u8; EDGE_PLACES],
    upper: &'a [u8; EDGE_PLACES],
    e: usize,
    f: usize,
) -> bool
    requires { (e < edge_places) × (f < edge_places) }
    ensures { result ≡ same_ends (with_edges 0 lower.now upper.now) e f }
{
    (lower[e] == lower[f]) & (upper[e] == upper[f])
}

// An edge before e joins the same variables. All are looked at, so that many are at once.
fn repeated<'a>(lower: &'a [u8; EDGE_PLACES], upper: &'a [u8; EDGE_PLACES], e: usize) -> bool
    requires { e < edge_places }
    ensures { result ≡ any (same_ends (with_edges 0 lower.now upper.now) e) (below e) }
{
    let mut found = false;
    for f in 0..e {
        found |= same_ends(lower, upper, e, f);
    }
    found
}

fn both_below(i: u8, j: u8, n: usize) -> bool
    ensures { result ≡ (ltb i n && ltb j n) }
{
    usize::from(i) < n && usize::from(j) < n
}

fn are_limited(rulebook: Rulebook, n: usize, d: usize, m: usize) -> bool
    ensures { result ≡ within_limits (rules_in rulebook) n d m }
{
    in_range(n, 1, rules::variables(rulebook))
        & in_range(d, 1, rules::values(rulebook))
        & in_range(m, 0, rules::edges(rulebook))
}

fn is_within(weight: i64, low: i64, high: i64) -> bool
    ensures { result ≡ within_z low high weight }
{
    low <= weight && weight <= high
}

fn is_working(rulebook: Rulebook, weight: i64) -> bool
    ensures { result ≡ in_working (rules_in rulebook) weight }
{
    is_within(
        weight,
        rules::least_working(rulebook),
        rules::most_working(rulebook),
    )
}

// In the range, or barred.
fn is_holdable(weight: i64, low: i64, high: i64) -> bool
    ensures { result ≡ holdable low high weight }
{
    if is_within(weight, low, high) {
        return true;
    }
    rules::is_barred(weight)
}

fn all_within(weights: &[i64], low: i64, high: i64) -> bool
    ensures { result ≡ all (within_z low high) weights.now }
{
    weights.iter().all(|weight| is_within(*weight, low, high))
}

pub fn all_holdable(weights: &[i64], low: i64, high: i64) -> bool
    ensures { result ≡ all (holdable low high) weights.now }
{
    weights.iter().all(|weight| is_holdable(*weight, low, high))
}

fn scope_barred(case: Case, table: &[i64], x: usize) -> bool
    requires limited { Limited case }
    requires table_len { length table.now ≡ lent_length (rules_of case) case }
    requires x_bound { x < case.n + case.m }
    ensures { result ≡ wholly_barred case table.now x }
{
    all_barred(scope_part(case, table, x))
}

fn some_scope_barred(case: Case, table: &[i64]) -> bool
    requires limited { Limited case }
    requires table_len { length table.now ≡ lent_length (rules_of case) case }
    ensures { result ≡ any (wholly_barred case table.now) (scopes case) }
{
    (0..scope_count(case)).any(|x| scope_barred(case, table, x))
}

// All bits are looked at, so that many weights are at once.
pub fn all_zero(weights: &[i64]) -> bool
    ensures { result ≡ all (λ z. eq_z z (pos 0)) weights.now }
{
    let mut bits = 0;
    for &weight in weights {
        bits |= weight;
    }
    bits == 0
}

// Numbers 8 and 15 of the own places. Where all are in the range nothing applies, and no more is looked at.
fn own_outcome<'a>(
    case: Case,
    table: &'a [i64],
    own: &'a [i64],
    low: i64,
    high: i64,
) -> Result<(), Refusal>
    requires limited { Limited case }
    requires table_len { length table.now ≡ lent_length (rules_of case) case }
    requires own_value { own.now ≡ take (own_length case) table.now }
    requires barred_weight_lt_low { barred_weight <ℤ low }
    ensures { result ≡ outcome_of (first_refusal (own_tests case table.now low high)) }
{
    if all_within(own, low, high) {
        return Ok(());
    }
    if !all_holdable(own, low, high) {
        return Err(Refusal::WeightOutOfRange);
    }
    if some_scope_barred(case, table) {
        return Err(Refusal::ScopeBarred);
    }
    Ok(())
}

// Numbers 8 and 15.
fn weight_outcome(case: Case, table: &[i64], low: i64, high: i64) -> Result<(), Refusal>
    requires limited { Limited case }
    requires table_len { length table.now ≡ lent_length (rules_of case) case }
    requires barred_weight_lt_low { barred_weight <ℤ low }
    ensures { result ≡ outcome_of (first_refusal (tuple_tests case table.now low high)) }
{
    let own = own_length(case);
    if all_zero(&table[own..]) {
        own_outcome(case, table, &table[..own], low, high)
    } else {
        Err(Refusal::WeightOutOfRange)
    }
}

fn own_length(case: Case) -> usize
    requires { Limited case }
    ensures { result ≡ own_length case }
{
    case.n * case.d + case.m * (case.d * case.d)
}

fn table_length(case: Case) -> usize
    requires { Limited case }
    ensures { result ≡ lent_length (rules_of case) case }
{
    let rulebook = case.rulebook;
    let variables = rules::variables(rulebook);
    let edges = rules::edges(rulebook);
    variables * case.d + edges * (case.d * case.d)
}

fn is_carried(rulebook: Rulebook, carry: i64) -> bool
    ensures { result ≡ within_z (minus (rules_in rulebook).carried) (pos (rules_in rulebook).carried) carry }
{
    is_within(
        carry,
        rules::least_carried(rulebook),
        rules::most_carried(rulebook),
    )
}

fn some_end_outside(case: Case) -> bool
    requires { case.m ≤ edge_places }
    ensures { result ≡ some_edge case (end_outside case) }
{
    (0..case.m).any(|e| !both_below(case.lower[e], case.upper[e], case.n))
}

fn some_not_ascending(case: Case) -> bool
    requires { case.m ≤ edge_places }
    ensures { result ≡ some_edge case (λ e. not (ltb (lower_end case e) (upper_end case e))) }
{
    (0..case.m).any(|e| case.upper[e] <= case.lower[e])
}

fn some_repeated(case: Case) -> bool
    requires { case.m ≤ edge_places }
    ensures { result ≡ some_edge case (λ e. any (same_ends case e) (below e)) }
{
    (0..case.m).any(|e| repeated(&case.lower, &case.upper, e))
}

// Number 5: an argument, the carry or the end of an edge is outside its range.
fn some_outside(case: Case, out: bool) -> bool
    requires { case.m ≤ edge_places }
    ensures { result ≡ (out || carry_out (rules_of case) case || some_edge case (end_outside case)) }
{
    out || carry_out(case) || some_end_outside(case)
}

fn edge_outcome(case: Case, out: bool) -> Result<(), Refusal>
    requires { case.m ≤ edge_places }
    ensures { result ≡ outcome_of (first_refusal (edge_tests (rules_of case) case out)) }
{
    if some_outside(case, out) {
        return Err(Refusal::OutOfRange);
    }
    if some_not_ascending(case) {
        return Err(Refusal::EndsNotAscending);
    }
    if some_repeated(case) {
        return Err(Refusal::EdgeRepeated);
    }
    Ok(())
}

// Numbers 3 to 7, of a table of this length.
fn front_outcome(case: Case, length: usize, wrong: bool, out: bool) -> Result<(), Refusal>
    ensures { result ≡ outcome_of (first_refusal (front_tests (rules_of case) case length wrong out)) }
{
    if !within_limits(case) {
        return Err(Refusal::OutsideLimits);
    }
    if length != table_length(case) || wrong {
        return Err(Refusal::WrongLength);
    }
    edge_outcome(case, out)
}

fn check(
    case: Case,
    table: &[i64],
    wrong: bool,
    out: bool,
    low: i64,
    high: i64,
) -> Result<(), Refusal>
    requires { barred_weight <ℤ low }
    ensures { result ≡ outcome_of (first_refusal (handed_over (rules_of case) (holdable low high) case table.now wrong out)) }
{
    front_outcome(case, table.len(), wrong, out)?;
    weight_outcome(case, table, low, high)
}

// ---- scopes

fn scope_count(case: Case) -> usize
    requires { Limited case }
    ensures { result ≡ scope_count case }
{
    case.n + case.m
}

fn first_place(n: usize, d: usize, x: usize) -> usize
    requires { (n ≤ 256) × (d ≤ 8) × (x < n + edge_places) }
    ensures { result ≡ place (of_size n d) x 0 0 }
{
    if x < n {
        x * d
    } else {
        n * d + (x - n) * (d * d)
    }
}

fn size_of(n: usize, d: usize, x: usize) -> usize
    requires { d ≤ 8 }
    ensures { result ≡ size_of (of_size n d) x }
{
    if x < n { d } else { d * d }
}

fn has_scope(case: Case, length: usize, x: usize) -> bool
    ensures { result ≡ (is_sized (rules_of case) case length && ltb x (scope_count case)) }
{
    if !is_sized(case, length) {
        return false;
    }
    x < scope_count(case)
}

fn scope_part(case: Case, table: &[i64], x: usize) -> &[i64]
    requires limited { Limited case }
    requires table_len { length table.now ≡ lent_length (rules_of case) case }
    requires x_bound { x < case.n + case.m }
    ensures { result.now ≡ scope_part case table.now x }
{
    let first = first_place(case.n, case.d, x);
    let end = first + size_of(case.n, case.d, x);
    &table[first..end]
}

fn scope_greatest(case: Case, table: &[i64], x: usize) -> i64
    requires limited { Limited case }
    requires table_len { length table.now ≡ lent_length (rules_of case) case }
    requires x_bound { x < case.n + case.m }
    ensures { result ≡ greatest_weight case table.now x }
{
    greatest(scope_part(case, table, x))
}

// ---- sums over scopes

fn write_greatest(case: Case, table: &[i64], best: &mut [i64])
    requires limited { Limited case }
    requires table_len { length table.now ≡ lent_length (rules_of case) case }
    requires case_in_bounds { scope_count case ≤ length best.old }
    ensures { best.new ≡ written_over (map (greatest_weight case table.now) (scopes case)) best.old }
{
    for x in 0..scope_count(case) {
        best[x] = scope_greatest(case, table, x);
    }
}

// The numbers are added to the carry only while they are in the range, so that the sum fits.
fn sum_in_range(case: Case, best: &[i64]) -> Result<i64, Refusal>
    requires limited { Limited case }
    requires case_in_bounds { scope_count case ≤ length best.now }
    ensures { result ≡ sum_in_range (rules_of case) case (best_at best.now) }
{
    let scopes = scope_count(case);
    let rulebook = case.rulebook;
    if carry_out(case) {
        return Err(Refusal::OutOfRange);
    }
    let mut sum: i64 = case.carry;
    for &weight in &best[..scopes] {
        if !is_working(rulebook, weight) {
            return Err(Refusal::WeightOutOfRange);
        }
        sum += weight;
    }
    Ok(sum)
}

fn add_greatest(case: Case, table: &[i64]) -> Result<i64, Refusal>
    requires limited { Limited case }
    requires table_len { length table.now ≡ lent_length (rules_of case) case }
    ensures { result ≡ sum_in_range (rules_of case) case (greatest_weight case table.now) }
{
    let mut best = [0i64; SCOPE_PLACES];
    write_greatest(case, table, &mut best);
    sum_in_range(case, &best)
}

// ---- the calls

pub fn within_limits(case: Case) -> bool
    ensures { result ≡ within_limits (rules_of case) case.n case.d case.m }
{
    let rulebook = case.rulebook;
    are_limited(rulebook, case.n, case.d, case.m)
}

// The carry is outside its range.
pub fn carry_out(case: Case) -> bool
    ensures { result ≡ carry_out (rules_of case) case }
{
    let rulebook = case.rulebook;
    !is_carried(rulebook, case.carry)
}

// Numbers 3 and 4 do not apply to a table of this length.
pub fn is_sized(case: Case, length: usize) -> bool
    ensures { result ≡ is_sized (rules_of case) case length }
{
    if !within_limits(case) {
        return false;
    }
    length == table_length(case)
}

pub fn check_starting(case: Case, table: &[i64], wrong: bool, out: bool) -> Result<(), Refusal>
    ensures { result ≡ outcome_of (first_refusal (handed_over (rules_of case) (starting_weight (rules_of case)) case table.now wrong out)) }
{
    let rulebook = case.rulebook;
    check(
        case,
        table,
        wrong,
        out,
        rules::least_starting(rulebook),
        rules::most_starting(rulebook),
    )
}

pub fn check_working(case: Case, table: &[i64], wrong: bool, out: bool) -> Result<(), Refusal>
    ensures { result ≡ outcome_of (first_refusal (handed_over (rules_of case) (working_weight (rules_of case)) case table.now wrong out)) }
{
    let rulebook = case.rulebook;
    check(
        case,
        table,
        wrong,
        out,
        rules::least_working(rulebook),
        rules::most_working(rulebook),
    )
}

// Starting weights and working weights that are lent together.
pub fn check_both<'a>(
    case: Case,
    starting: &'a [i64],
    table: &'a [i64],
    out: bool,
) -> Result<(), Refusal>
    ensures { result ≡ outcome_of (first_refusal (both_handed_over (rules_of case) case starting.now table.now out)) }
{
    let wrong = starting.len() != table.len();
    front_outcome(case, table.len(), wrong, out)?;
    both::both_outcome(case, starting, table)
}

// What is asked where no table is lent.
pub fn check_edges(case: Case, out: bool) -> Result<(), Refusal>
    ensures { result ≡ outcome_of (first_refusal (limit_test (rules_of case) case ∷ edge_tests (rules_of case) case out)) }
{
    if within_limits(case) {
        edge_outcome(case, out)
    } else {
        Err(Refusal::OutsideLimits)
    }
}

// 0 where there is none.
pub fn greatest(weights: &[i64]) -> i64
    ensures { result ≡ greatest_of weights.now }
{
    let Some((first, rest)) = weights.split_first() else {
        return 0;
    };
    // An if, which is quicker here than an iterator's max.
    let mut best = *first;
    for &weight in rest {
        if best < weight {
            best = weight;
        }
    }
    best
}

// 0 where there is none.
pub fn least(weights: &[i64]) -> i64
    ensures { result ≡ smallest_of weights.now }
{
    let Some((first, rest)) = weights.split_first() else {
        return 0;
    };
    // An if, as in `greatest`.
    let mut lowest = *first;
    for &weight in rest {
        if weight < lowest {
            lowest = weight;
        }
    }
    lowest
}

// Writes each scope's greatest weight to the first n + m places of `best`.
pub fn greatest_weights(case: Case, table: &[i64], best: &mut [i64]) -> Result<(), Refusal>
    ensures { (result ≡ (greatest_call (rules_of case) case table.now best.old).answer)
        × (best.new ≡ (greatest_call (rules_of case) case table.now best.old).best) }
{
    if !within_limits(case) {
        return Err(Refusal::OutsideLimits);
    }
    if table.len() != table_length(case) {
        return Err(Refusal::WrongLength);
    }
    if best.len() < scope_count(case) {
        return Err(Refusal::WrongLength);
    }
    write_greatest(case, table, best);
    Ok(())
}

// The sum of the first n + m numbers of `best` and the carry; a number outside the range of working weights is refused.
pub fn sum_of_best(case: Case, best: &[i64]) -> Result<i64, Refusal>
    ensures { result ≡ best_sum (rules_of case) case best.now }
{
    if !within_limits(case) {
        return Err(Refusal::OutsideLimits);
    }
    if best.len() < scope_count(case) {
        return Err(Refusal::WrongLength);
    }
    sum_in_range(case, best)
}

// All tuples are barred.
pub fn all_barred(weights: &[i64]) -> bool
    ensures { result ≡ all is_barred weights.now }
{
    weights.iter().all(|weight| rules::is_barred(*weight))
}

// Writes 0 from place `from` on.
pub fn zero_from(table: &mut [i64], from: usize)
    ensures { table.new ≡ zeroed_from from table.old }
{
    if from < table.len() {
        table[from..].fill(0);
    }
}

// Some value is d or more.
pub fn some_beyond(values: &[u8], d: usize) -> bool
    ensures { result ≡ any (λ k. not (ltb k d)) values.now }
{
    values.iter().any(|value| d <= usize::from(*value))
}

// The sum of each scope's greatest weight and the carry; a weight outside the range of working weights is refused.
pub fn sum_of_greatest(case: Case, table: &[i64]) -> Result<i64, Refusal>
    ensures { result ≡ greatest_sum (rules_of case) case table.now }
{
    if !within_limits(case) {
        return Err(Refusal::OutsideLimits);
    }
    if table.len() != table_length(case) {
        return Err(Refusal::WrongLength);
    }
    add_greatest(case, table)
}

// The part of the table that belongs to scope x; empty where there is none.
pub fn scope_weights(case: Case, table: &[i64], x: usize) -> &[i64]
    ensures { result.now ≡ scope_weights (rules_of case) case table.now x }
{
    if has_scope(case, table.len(), x) {
        scope_part(case, table, x)
    } else {
        &table[0..0]
    }
}
