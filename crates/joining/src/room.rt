// Whether there is a place for a join and for its line, and where its weight waits.
ghost use Rattle.std.specs.Prelude.{◌≡◌, true, not, ◌&&◌, ◌||◌, ◌+◌, ◌^◌, ◌≤◌, ◌<◌, pos, nat_abs, ◌+ℤ◌, eqb, ltb};
ghost use Rattle.std.specs.Int.Signed.{lt_z};
ghost use Rattle.definitions.specs.Rules.{rules_of};
ghost use Rattle.definitions.specs.Case.{own_length};
ghost use Rattle.definitions.specs.Valid.{within_limits};
ghost use Rattle.logs.specs.Waiting.{weights_read, not_in_join};
ghost use Rattle.case_lines.specs.Dues.{due_awaited, InCase};
ghost use Rattle.tables.specs.Scopes.{Limited};
ghost use Rattle.joining.specs.Joining.{has_place};
ghost use Rattle.joining.specs.Steps.{small_sizes};

use case_lines::Awaited;
use definitions::Case;

pub(crate) fn own_length(case: Case) -> usize
    requires { Limited case }
    ensures { result ≡ own_length case }
{
    case.n * case.d + case.m * (case.d * case.d)
}

// The number after k is this one.
pub(crate) fn is_next(k: usize, most: usize) -> bool
    ensures { result ≡ eqb (k + 1) most }
{
    if most <= k {
        return false;
    }
    k + 1 == most
}

// The case is within the limits, and with one variable and so many edges more it is too.
pub(crate) fn can_grow(case: Case, edges: usize) -> bool
    ensures { result ≡ (within_limits (rules_of case) case.n case.d case.m
        && within_limits (rules_of case) (case.n + 1) case.d (case.m + edges)) }
{
    if !tables::within_limits(case) {
        return false;
    }
    let rulebook = case.rulebook;
    if rules::variables(rulebook) <= case.n {
        return false;
    }
    edges <= rules::edges(rulebook) - case.m
}

// The line is due in a join of so many edges.
pub(crate) fn in_join(case: Case, edges: usize, due: Awaited) -> bool
    ensures { result ≡ not (not_in_join case edges (due_awaited due)) }
{
    let d = case.d;
    match due {
        Awaited::VariableWeight { variable, value } => (variable == 0) & (value < d),
        Awaited::EdgeEnds(edge) => edge < edges,
        Awaited::EdgeWeight { edge, k, l } => (edge < edges) & (k < d) & (l < d),
    }
}

pub(crate) fn has_place(case: Case, length: usize, edges: usize, due: Awaited) -> bool
    ensures { result ≡ has_place case length edges (due_awaited due) }
{
    if !tables::is_sized(case, length) {
        return false;
    }
    if !can_grow(case, edges) {
        return false;
    }
    in_join(case, edges, due)
}

// How many weights were read before the line.
pub(crate) fn weights_read(case: Case, edges: usize, due: Awaited) -> usize
    requires limited { Limited case }
    requires edges_bound { case.m + edges ≤ (rules_of case).edges }
    requires in_case { InCase (small_sizes case edges) due }
    ensures { result ≡ weights_read case edges (due_awaited due) }
{
    let d = case.d;
    match due {
        Awaited::VariableWeight { variable, value } => variable * d + value,
        Awaited::EdgeEnds(edge) => d + edge * (d * d),
        Awaited::EdgeWeight { edge, k, l } => d + (edge * (d * d) + (k * d + l)),
    }
}

// Where the line's weight waits.
pub(crate) fn waiting_place(case: Case, edges: usize, due: Awaited) -> usize
    requires limited { Limited case }
    requires edges_bound { case.m + edges ≤ (rules_of case).edges }
    requires in_case { InCase (small_sizes case edges) due }
    ensures { result ≡ own_length case + weights_read case edges (due_awaited due) }
{
    own_length(case) + weights_read(case, edges, due)
}

// Number 3 of a join of `edges` edges.
pub(crate) fn too_many(case: Case, edges: i64) -> bool
    ensures { result ≡ (not (ltb case.n (rules_of case).variables) || lt_z (pos (rules_of case).edges) (pos case.m +ℤ edges)) }
{
    let rulebook = case.rulebook;
    if rules::variables(rulebook) <= case.n {
        return true;
    }
    exceeds(case.m, edges, rules::edges(rulebook))
}

// How far the number lies below -1.
fn below_minus_one(z: i64) -> usize
    requires { lt_z z (pos 0) ≡ true }
    ensures { (result + 1 ≡ nat_abs z) × (result < 2 ^ 63) }
{
    (-(z + 1)) as usize
}

// The sum of both is above `most`.
fn exceeds(m: usize, edges: i64, most: usize) -> bool
    requires { most ≤ 65535 }
    ensures { result ≡ lt_z (pos most) (pos m +ℤ edges) }
{
    if m <= most {
        return ((most - m) as i64) < edges;
    }
    if 0 <= edges {
        return true;
    }
    below_minus_one(edges) + 1 < m - most
}
