// The pair whose round the engine makes (document 02, changes 1 and 2): the lowest that gains and is not passed over. A pair with values of its
// ends that are active together with the tuple that they make does not gain. Any other is taken if it has a choice, and if its round stays in the
// working range and lowers the upper bound: then it gains.
#![tactic(auto)]

ghost use Rattle.std.specs.Prelude.{◌≡◌, false, ◌+◌, ◌*◌, ◌≤◌, ◌<◌, length, get_or};
ghost use Rattle.integers.specs.Words.{within_z, below, those, first};
ghost use Rattle.definitions.specs.Rules.{rules_in, rules_of, edge_places};
ghost use Rattle.definitions.specs.Case.{scope_count};
ghost use Rattle.definitions.specs.Valid.{in_working, end_outside};
ghost use Rattle.arcs.specs.Active.{Sized};
ghost use Rattle.pair_choice.specs.PairChoice.{shifted_of, all_working, tuple_stays, tuple_passes, is_free, is_asked, row_has, rows_have, tuples_have};
ghost use Rattle.pair_choice.specs.PairChoice.{round_leaves, leaves_by, has_choice, less_one, most_left, takes_round, takes_pair};
ghost use Rattle.pair_choice.specs.PairChoice.{marks_short, lowest_pair_answer};

use definitions::{Case, Rulebook};

// What is asked of a pair's tuples: does one pass the range or this number, is one a choice.
#[derive(Clone, Copy)]
enum Asked {
    Passes(i64),
    Choice,
}

// ---- a tuple

fn is_within(z: i64, low: i64, high: i64) -> bool
    ensures { result ≡ within_z low high z }
{
    low <= z && z <= high
}

fn is_working(rulebook: Rulebook, weight: i64) -> bool
    ensures { result ≡ in_working (rules_in rulebook) weight }
{
    is_within(
        weight,
        rules::least_working(rulebook),
        rules::most_working(rulebook),
    )
}

// What the round shifts of a value with this weight.
fn shifted(weight: i64) -> i64
    ensures { result ≡ shifted_of weight }
{
    if rules::is_barred(weight) { 0 } else { weight }
}

fn all_working(rulebook: Rulebook, own: i64, other: i64, weight: i64) -> bool
    ensures { result ≡ all_working (rules_in rulebook) own other weight }
{
    is_working(rulebook, own) && is_working(rulebook, other) && is_working(rulebook, weight)
}

// Sums are formed only of weights in the range, so that they fit.
fn tuple_stays(rulebook: Rulebook, own: i64, other: i64, weight: i64, most: i64) -> bool
    ensures { result ≡ tuple_stays (rules_in rulebook) own other weight most }
{
    if !all_working(rulebook, own, other, weight) {
        return false;
    }
    let first = weight + own;
    if !is_working(rulebook, first) {
        return false;
    }
    let both = own + other + weight;
    if !is_working(rulebook, both) {
        return false;
    }
    both <= most
}

fn tuple_passes(rulebook: Rulebook, own: i64, other: i64, weight: i64, most: i64) -> bool
    ensures { result ≡ tuple_passes (rules_in rulebook) own other weight most }
{
    if rules::is_barred(weight) {
        return false;
    }
    !tuple_stays(rulebook, shifted(own), shifted(other), weight, most)
}

fn is_free(own: i64, other: i64, weight: i64) -> bool
    ensures { result ≡ is_free own other weight }
{
    !rules::is_barred(own) && !rules::is_barred(other) && !rules::is_barred(weight)
}

fn is_asked(rulebook: Rulebook, asked: Asked, own: i64, other: i64, weight: i64) -> bool
    ensures { result ≡ is_asked (rules_in rulebook) asked own other weight }
{
    match asked {
        Asked::Passes(most) => tuple_passes(rulebook, own, other, weight, most),
        Asked::Choice => is_free(own, other, weight),
    }
}

// ---- a pair's tuples

// One value of the lower end, with each value of the upper end.
fn row_has(
    rulebook: Rulebook,
    table: &[i64],
    asked: Asked,
    own: usize,
    upper: usize,
    row: usize,
    d: usize,
) -> bool
    requires { (own < length table.now) × (upper + d ≤ length table.now) × (row + d ≤ length table.now) }
    ensures { result ≡ row_has (rules_in rulebook) table.now asked own upper row d }
{
    for l in 0..d {
        if is_asked(
            rulebook,
            asked,
            table[own],
            table[upper + l],
            table[row + l],
        ) {
            return true;
        }
    }
    false
}

fn rows_have(
    rulebook: Rulebook,
    table: &[i64],
    asked: Asked,
    lower: usize,
    upper: usize,
    at: usize,
    d: usize,
) -> bool
    requires { (lower + d ≤ length table.now) × (upper + d ≤ length table.now) × (at + d * d ≤ length table.now) }
    ensures { result ≡ rows_have (rules_in rulebook) table.now asked lower upper at d }
{
    for k in 0..d {
        if row_has(rulebook, table, asked, lower + k, upper, at + k * d, d) {
            return true;
        }
    }
    false
}

// An end is no variable.
fn end_outside(case: Case, edge: usize) -> bool
    requires { edge < edge_places }
    ensures { result ≡ end_outside case edge }
{
    case.n <= usize::from(case.lower[edge]) || case.n <= usize::from(case.upper[edge])
}

fn tuples_have(case: Case, table: &[i64], asked: Asked, edge: usize) -> bool
    requires { Sized case table.now × (edge < case.m) × (end_outside case edge ≡ false) }
    ensures { result ≡ tuples_have (rules_of case) case table.now edge asked }
{
    let rulebook = case.rulebook;
    let d = case.d;
    let lower = usize::from(case.lower[edge]) * d;
    let upper = usize::from(case.upper[edge]) * d;
    let at = case.n * d + edge * (d * d);
    rows_have(rulebook, table, asked, lower, upper, at, d)
}

fn round_leaves(case: Case, table: &[i64], edge: usize) -> bool
    requires { Sized case table.now × (edge < case.m) }
    ensures { result ≡ round_leaves (rules_of case) case table.now edge }
{
    if end_outside(case, edge) {
        return true;
    }
    let rulebook = case.rulebook;
    let most = rules::most_working(rulebook);
    tuples_have(case, table, Asked::Passes(most), edge)
}

// ---- the pair

// 0 from the slice's end on.
fn byte_at(bytes: &[u8], i: usize) -> u8
    ensures { result ≡ get_or bytes.now i 0 }
{
    bytes.get(i).copied().unwrap_or(0)
}

// A value of `set` has a partner in `other`. The partners of value k stand at rows[at + k].
fn has_choice(rows: &[u8], at: usize, set: u8, other: u8) -> bool
    requires { at + 8 ≤ length rows.now }
    ensures { result ≡ has_choice rows.now at set other }
{
    let mut left = set;
    // Not a for: it runs over the values that a byte of marks holds.
    while left != 0 {
        let k = marks::lowest(left);
        if marks::common(rows[at + usize::from(k)], other) != 0 {
            return true;
        }
        left = marks::strike(left, k);
    }
    false
}

// Sums are formed only of weights in the range, so that they fit.
fn less_one(rulebook: Rulebook, own: i64, other: i64, weight: i64) -> i64
    ensures { result ≡ less_one (rules_in rulebook) own other weight }
{
    if !all_working(rulebook, own, other, weight) {
        return rules::barred();
    }
    own + other + weight - 1
}

fn most_left(case: Case, best: &[i64], edge: usize) -> i64
    requires { (edge < case.m) × (case.m ≤ edge_places) × (end_outside case edge ≡ false) × (scope_count case ≤ length best.now) }
    ensures { result ≡ most_left (rules_of case) case best.now edge }
{
    let rulebook = case.rulebook;
    let x = case.n + edge;
    let lower = usize::from(case.lower[edge]);
    let upper = usize::from(case.upper[edge]);
    less_one(rulebook, best[lower], best[upper], best[x])
}

fn takes_round(case: Case, table: &[i64], best: &[i64], edge: usize) -> bool
    requires { Sized case table.now × (edge < case.m) × (scope_count case ≤ length best.now) }
    ensures { result ≡ takes_round (rules_of case) case table.now best.now edge }
{
    if end_outside(case, edge) {
        return false;
    }
    let most = most_left(case, best, edge);
    if tuples_have(case, table, Asked::Passes(most), edge) {
        return false;
    }
    tuples_have(case, table, Asked::Choice, edge)
}

// The table is looked at only for pairs that have no active choice: no active values of their ends make an active tuple.
fn lowest_in(case: Case, table: &[i64], best: &[i64], acts: &[u8], rows: &[u8]) -> Option<usize>
    requires { Sized case table.now × (scope_count case ≤ length best.now) × (16 * case.m ≤ length rows.now) }
    ensures { result ≡ first (those (takes_pair (rules_of case) case table.now best.now acts.now rows.now) (below case.m)) }
{
    for e in 0..case.m {
        let own = byte_at(acts, usize::from(case.lower[e]));
        let other = byte_at(acts, usize::from(case.upper[e]));
        if !has_choice(rows, 16 * e, own, other) && takes_round(case, table, best, e) {
            return Some(e);
        }
    }
    None
}

fn marks_short(case: Case, acts: usize, rows: usize) -> bool
    ensures { result ≡ marks_short case acts rows }
{
    acts < case.n || rows / 16 < case.m
}

// ---- the calls

// The round of this pair would leave the working range at some shift; also where there is no such pair, and where 3 or 4 applies.
pub fn leaves_range(case: Case, table: &[i64], edge: usize) -> bool
    ensures { result ≡ leaves_by (rules_of case) case table.now edge }
{
    if !tables::is_sized(case, table.len()) {
        return true;
    }
    if case.m <= edge {
        return true;
    }
    round_leaves(case, table, edge)
}

// The lowest pair that gains and is not passed over. `best` holds each scope's greatest weight, `acts` the active values of each variable, `rows`
// sixteen bytes for each edge, as `arcs::active_marks` writes them. None where 3 applies, or 4 to the table, or one of these is too short.
pub fn lowest_pair(
    case: Case,
    table: &[i64],
    best: &[i64],
    acts: &[u8],
    rows: &[u8],
) -> Option<usize>
    ensures { result ≡ lowest_pair_answer (rules_of case) case table.now best.now acts.now rows.now }
{
    if !tables::is_sized(case, table.len()) {
        return None;
    }
    if best.len() < case.n + case.m {
        return None;
    }
    if marks_short(case, acts.len(), rows.len()) {
        return None;
    }
    lowest_in(case, table, best, acts, rows)
}
