// The case that is left.
ghost use Rattle.std.specs.Prelude.{◌≡◌, ◌+◌, ◌<◌, length, set, replicate, if◌then◌else◌};
ghost use Rattle.definitions.specs.Rules.{edge_places};
ghost use Rattle.definitions.specs.Case.{lower_end, upper_end};
ghost use Rattle.logs.specs.Leave.{has_end, staying_edges, moved_down, case_without};
ghost use Rattle.tables.specs.Scopes.{Limited};
ghost use Rattle.leaving.specs.Scopes.{ends_left};

use definitions::{Case, EDGE_PLACES};

pub(crate) fn has_end(case: Case, variable: usize, e: usize) -> bool
    requires { e < edge_places }
    ensures { result ≡ has_end case variable e }
{
    (usize::from(case.lower[e]) == variable) | (usize::from(case.upper[e]) == variable)
}

fn moved_down(variable: usize, end: u8) -> u8
    ensures { result ≡ moved_down variable end }
{
    if variable < usize::from(end) {
        return end - 1;
    }
    end
}

// Writes the ends of edge e to place q if it stays; the place after it.
fn put_edge(
    case: Case,
    variable: usize,
    e: usize,
    q: usize,
    lower: &mut [u8; EDGE_PLACES],
    upper: &mut [u8; EDGE_PLACES],
) -> usize
    requires { (e < edge_places) × (q < edge_places) }
    ensures { (result ≡ (if has_end case variable e then q else q + 1))
        × (lower.new ≡ (if has_end case variable e then lower.old else set lower.old q (moved_down variable (lower_end case e))))
        × (upper.new ≡ (if has_end case variable e then upper.old else set upper.old q (moved_down variable (upper_end case e)))) }
{
    if has_end(case, variable, e) {
        return q;
    }
    lower[q] = moved_down(variable, case.lower[e]);
    upper[q] = moved_down(variable, case.upper[e]);
    q + 1
}

// Writes the ends of the edges that stay; how many they are.
fn put_edges(
    case: Case,
    variable: usize,
    lower: &mut [u8; EDGE_PLACES],
    upper: &mut [u8; EDGE_PLACES],
) -> usize
    requires limited { Limited case }
    requires lower_value { (lower.old ≡ replicate edge_places 0) × (upper.old ≡ replicate edge_places 0) }
    ensures { (result ≡ length (staying_edges case variable)) × (lower.new ≡ ends_left case (lower_end case) variable case.m)
        × (upper.new ≡ ends_left case (upper_end case) variable case.m) }
{
    let mut q = 0;
    for e in 0..case.m {
        q = put_edge(case, variable, e, q, lower, upper);
    }
    q
}

pub(crate) fn case_without(case: Case, variable: usize, carry: i64) -> Case
    requires { Limited case }
    ensures { result ≡ case_without case variable carry }
{
    let mut lower = [0u8; EDGE_PLACES];
    let mut upper = [0u8; EDGE_PLACES];
    let m = put_edges(case, variable, &mut lower, &mut upper);
    let rulebook = case.rulebook;
    Case {
        n: case.n - 1,
        d: case.d,
        m,
        lower,
        upper,
        carry,
        rulebook,
    }
}
