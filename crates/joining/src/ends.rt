// The line of a new edge's ends.
ghost use Rattle.std.specs.Prelude.{◌≡◌, false, not, ◌&&◌, ◌||◌, List, ◌+◌, ◌≤◌, ◌<◌, ℤ, pos, nat_abs, eqb, length, get_or};
ghost use Rattle.std.specs.Int.Signed.{lt_z};
ghost use Rattle.definitions.specs.Rules.{edge_places};
ghost use Rattle.definitions.specs.Refusals.{first_refusal};
ghost use Rattle.definitions.specs.Answers.{outcome_of};
ghost use Rattle.definitions.specs.Lines.{outside};
ghost use Rattle.definitions.specs.CaseFiles.{names as names_place, edge-ends};
ghost use Rattle.joining.specs.Joining.{lower_stored};
ghost use Rattle.joining.specs.Steps.{Placed, rest_tests, joined_before, end_before};

use crate::columns;
use definitions::{Case, EDGE_PLACES, Line, Refusal};
use growing::Ends;

fn ends_out(line: Line, n: usize, e: usize) -> bool
    requires { (n < 65535) × (e < 65536) }
    ensures { result ≡ (not (names_place e line.a) || outside (n + 1) line.b || not (names_place n line.c)) }
{
    !columns::names(line.a, e) | !columns::is_below(line.b, n + 1) | !columns::names(line.c, n)
}

fn ascending(line: Line) -> bool
    ensures { result ≡ lt_z line.b line.c }
{
    line.b < line.c
}

fn has_ends<'a>(
    lower: &'a [u8; EDGE_PLACES],
    upper: &'a [u8; EDGE_PLACES],
    f: usize,
    i: u8,
    j: u8,
) -> bool
    requires { f < edge_places }
    ensures { result ≡ (eqb (get_or lower.now f 0) i && eqb (get_or upper.now f 0) j) }
{
    (lower[f] == i) & (upper[f] == j)
}

// One of the first m edges joins i and j.
fn joined_before<'a>(
    lower: &'a [u8; EDGE_PLACES],
    upper: &'a [u8; EDGE_PLACES],
    m: usize,
    i: u8,
    j: u8,
) -> bool
    requires { m ≤ edge_places }
    ensures { result ≡ joined_before lower.now upper.now m i j }
{
    let mut found = false;
    for f in 0..m {
        found |= has_ends(lower, upper, f, i, j);
    }
    found
}

// One of the first e lower ends is i.
fn end_before(lower: &[u8], e: usize, i: u8) -> bool
    requires { e ≤ length lower.now }
    ensures { result ≡ end_before lower.now e i }
{
    let mut found = false;
    for &end in &lower[..e] {
        found |= end == i;
    }
    found
}

fn end_of(z: i64) -> u8
    requires { (lt_z z (pos 0) ≡ false) × (nat_abs z < 256) }
    ensures { result ≡ nat_abs z }
{
    z as u8
}

// The line's lower end is kept as that of the new edge e, if it is a byte.
pub(crate) fn keep(lower: &mut Ends, e: usize, line: Line)
    requires { e < edge_places }
    ensures { lower.new ≡ lower_stored (edge-ends e) line lower.old }
{
    if columns::is_below(line.b, 256) {
        let end = end_of(line.b);
        lower[e] = end;
    }
}

// An edge before the new edge e joins i and the new variable.
fn is_joined(case: Case, lower: &Ends, e: usize, i: u8) -> bool
    requires { (case.n < 256) × (case.m ≤ edge_places) × (e ≤ edge_places) }
    ensures { (result ≡ (joined_before case.lower case.upper case.m i case.n || end_before lower.now e i))
        × (length lower.now ≡ edge_places) }
{
    if end_before(lower, e, i) {
        return true;
    }
    joined_before(&case.lower, &case.upper, case.m, i, case.n as u8)
}

// Numbers 5 to 7.
pub(crate) fn check_ends(
    case: Case,
    starting: usize,
    edges: usize,
    lower: &Ends,
    e: usize,
    line: Line,
) -> Result<(), Refusal>
    requires placed { Placed case starting edges }
    requires e_lt_edges { e < edges }
    ensures { (w₀ : List ℤ)
        → result ≡ outcome_of (first_refusal (rest_tests case w₀ edges (edge-ends e) lower.now line)) }
{
    if ends_out(line, case.n, case.m + e) {
        return Err(Refusal::OutOfRange);
    }
    if !ascending(line) {
        return Err(Refusal::EndsNotAscending);
    }
    if is_joined(case, lower, e, end_of(line.b)) {
        return Err(Refusal::EdgeRepeated);
    }
    Ok(())
}
