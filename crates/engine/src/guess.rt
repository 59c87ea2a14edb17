// A guess at scopes that are enough to press a variable: those that struck values, back from a set that ran empty.
ghost use Rattle.std.specs.Prelude.{◌≡◌, ◌+◌, ◌*◌, ◌-◌, ◌≤◌, ◌<◌, length};
ghost use Rattle.definitions.specs.Rules.{variable_places, edge_places};
ghost use Rattle.definitions.specs.Case.{scope_count};

use crate::choosing;
use definitions::{Case, VARIABLE_PLACES};

// The values of all variables.
const VALUE_PLACES: usize = 8 * VARIABLE_PLACES;

// The values of `own` that have a partner in `other`. The partners of value k stand at rows[at + k].
fn with_partners(rows: &[u8], at: usize, own: u8, other: u8) -> u8
    requires { at + 8 ≤ length rows.now }
{
    let mut kept = own;
    for k in 0..8 {
        if marks::common(rows[at + k], other) == 0 {
            kept = marks::strike(kept, k as u8);
        }
    }
    kept
}

// Strikes what has no partner over an arc, and notes the arc if it struck something.
fn note_arc(
    rows: &[u8],
    arc: usize,
    i: usize,
    j: usize,
    sets: &mut [u8],
    noted: &mut [u16],
    count: usize,
) -> usize
    requires { (8 * arc + 8 ≤ length rows.now) × (arc < 65536) × (i < length sets.old) × (j < length sets.old) × (count ≤ length noted.old) }
    ensures { (count ≤ result) × (result ≤ length noted.old) }
{
    let own = sets[i];
    let kept = with_partners(rows, 8 * arc, own, sets[j]);
    sets[i] = kept;
    if kept == own {
        return count;
    }
    if noted.len() <= count {
        return count;
    }
    noted[count] = arc as u16;
    count + 1
}

// Both arcs of an edge, if it is raised.
fn note_edge(
    rows: &[u8],
    raised: u8,
    e: usize,
    i: usize,
    j: usize,
    sets: &mut [u8],
    noted: &mut [u16],
    count: usize,
) -> usize
    requires { (16 * e + 16 ≤ length rows.now) × (e < edge_places) × (i < length sets.old) × (j < length sets.old) × (count ≤ length noted.old) }
    ensures { (count ≤ result) × (result ≤ length noted.old) }
{
    if raised == 0 {
        return count;
    }
    let next = note_arc(rows, 2 * e, i, j, sets, noted, count);
    note_arc(rows, 2 * e + 1, j, i, sets, noted, next)
}

// The edges without a strike since the last one.
fn quiet_after(quiet: usize, before: usize, count: usize) -> usize
    requires { (quiet < edge_places) × (before ≤ count) }
    ensures { (result ≤ quiet + 1) × (quiet + 1 ≤ result + (edge_places + 1) * (count - before)) }
{
    if count == before { quiet + 1 } else { 0 }
}

fn edge_after(e: usize, edges: usize) -> usize
    requires { e < edges }
    ensures { result < edges }
{
    if e + 1 < edges { e + 1 } else { 0 }
}

// How many strikes were noted, and the variable whose set ran empty, VARIABLE_PLACES if none did.
#[derive(Clone, Copy)]
struct Strikes {
    count: usize,
    emptied: usize,
}

// Strikes values, edge by edge, until a set is empty or nothing is left to strike.
fn note_strikes(
    lower: &[u8],
    upper: &[u8],
    rows: &[u8],
    edges: &[u8],
    sets: &mut [u8],
    noted: &mut [u16],
) -> Strikes
    requires { (length edges.now ≤ length lower.now) × (length edges.now ≤ length upper.now) × (16 * length edges.now ≤ length rows.now)
        × (length edges.now ≤ edge_places) }
    ensures { result.count ≤ length noted.old }
{
    let mut count: usize = 0;
    let mut quiet: usize = 0;
    let mut e: usize = 0;
    // Not a for: it goes round the edges until none of them strikes a value.
    while quiet < edges.len() {
        let i = usize::from(lower[e]);
        let j = usize::from(upper[e]);
        if sets.len() <= i || sets.len() <= j {
            break;
        }
        let next = note_edge(rows, edges[e], e, i, j, sets, noted, count);
        if sets[i] == 0 {
            return Strikes {
                count: next,
                emptied: i,
            };
        }
        if sets[j] == 0 {
            return Strikes {
                count: next,
                emptied: j,
            };
        }
        quiet = quiet_after(quiet, count, next);
        count = next;
        e = edge_after(e, edges.len());
    }
    Strikes {
        count,
        emptied: VARIABLE_PLACES,
    }
}

// A strike in the set of `own` over scope x counts if that set does, and then the set of `other` does too.
fn count_strike(own: usize, other: usize, x: usize, counts: &mut [u8], used: &mut [u8]) {
    if counts.len() <= own || counts.len() <= other || used.len() <= x || counts[own] == 0 {
        return;
    }
    counts[other] = 1;
    used[x] = 1;
}

// The edge of an arc.
fn edge_of(arc: u16) -> usize
    ensures { result < 65536 }
{
    usize::from(arc / 2)
}

fn count_arc(lower: &[u8], upper: &[u8], n: usize, arc: u16, counts: &mut [u8], used: &mut [u8])
    requires { n ≤ variable_places }
{
    let e = edge_of(arc);
    if lower.len() <= e || upper.len() <= e {
        return;
    }
    let i = usize::from(lower[e]);
    let j = usize::from(upper[e]);
    if arc % 2 == 0 {
        count_strike(i, j, n + e, counts, used);
    } else {
        count_strike(j, i, n + e, counts, used);
    }
}

// Back through the strikes.
fn count_back(
    lower: &[u8],
    upper: &[u8],
    n: usize,
    noted: &[u16],
    counts: &mut [u8],
    used: &mut [u8],
)
    requires { n ≤ variable_places }
{
    for &arc in noted.iter().rev() {
        count_arc(lower, upper, n, arc, counts, used);
    }
}

fn own_use(counts: u8, active: u8, full: u8, used: u8) -> u8 {
    if counts == 0 || active == full {
        used
    } else {
        1
    }
}

// The variables' own scopes.
fn use_variables(acts: &[u8], full: u8, counts: &[u8], used: &mut [u8], n: usize)
    requires { (n ≤ length acts.now) × (n ≤ length counts.now) × (n ≤ length used.old) }
{
    for j in 0..n {
        used[j] = own_use(counts[j], acts[j], full, used[j]);
    }
}

// Marks scopes with which these values of the variable run out of partners. Whether a set ran empty.
fn explain(
    case: Case,
    acts: &[u8],
    rows: &[u8],
    raised: &[u8],
    used: &mut [u8],
    variable: usize,
    values: u8,
) -> bool
    requires case_in_bounds { (scope_count case ≤ length raised.now) × (scope_count case ≤ length used.old) × (case.n ≤ length acts.now) × (case.d ≤ 8) }
    requires variable_lt_n { (variable < case.n) × (case.n ≤ variable_places) × (case.m ≤ edge_places) × (16 * case.m ≤ length rows.now) }
{
    let n = case.n;
    let end = n + case.m;
    let full = marks::full(case.d as u8);
    let lower = case.lower;
    let upper = case.upper;
    let mut sets = [0u8; VARIABLE_PLACES];
    let mut noted = [0u16; VALUE_PLACES];
    let mut counts = [0u8; VARIABLE_PLACES];
    choosing::allow(acts, raised, full, &mut sets, n);
    sets[variable] = values;
    let strikes = note_strikes(&lower, &upper, rows, &raised[n..end], &mut sets, &mut noted);
    let count = strikes.count;
    let emptied = strikes.emptied;
    if VARIABLE_PLACES <= emptied {
        return false;
    }
    counts[emptied] = 1;
    count_back(&lower, &upper, n, &noted[..count], &mut counts, used);
    use_variables(acts, full, &counts, used, n);
    true
}

// Value k by itself, if it is active.
fn explain_value(
    case: Case,
    acts: &[u8],
    rows: &[u8],
    raised: &[u8],
    used: &mut [u8],
    variable: usize,
    k: u8,
)
    requires case_in_bounds { (scope_count case ≤ length raised.now) × (scope_count case ≤ length used.old) × (case.n ≤ length acts.now) × (case.d ≤ 8) }
    requires variable_lt_n { (variable < case.n) × (case.n ≤ variable_places) × (case.m ≤ edge_places) × (16 * case.m ≤ length rows.now) }
{
    let value = marks::common(acts[variable], marks::only(k));
    if value == 0 {
        return;
    }
    explain(case, acts, rows, raised, used, variable, value);
}

fn explain_each(
    case: Case,
    acts: &[u8],
    rows: &[u8],
    raised: &[u8],
    used: &mut [u8],
    variable: usize,
)
    requires case_in_bounds { (scope_count case ≤ length raised.now) × (scope_count case ≤ length used.old) × (case.n ≤ length acts.now) × (case.d ≤ 8) }
    requires variable_lt_n { (variable < case.n) × (case.n ≤ variable_places) × (case.m ≤ edge_places) × (16 * case.m ≤ length rows.now) }
{
    for k in 0..8 {
        explain_value(case, acts, rows, raised, used, variable, k);
    }
}

// All values at once, if a set runs empty then.
pub(crate) fn guess(
    case: Case,
    acts: &[u8],
    rows: &[u8],
    raised: &[u8],
    used: &mut [u8],
    variable: usize,
)
    requires case_in_bounds { (scope_count case ≤ length raised.now) × (scope_count case ≤ length used.old) × (case.n ≤ length acts.now) × (case.d ≤ 8) }
    requires variable_lt_n { (variable < case.n) × (case.n ≤ variable_places) × (case.m ≤ edge_places) }
{
    if rows.len() < 16 * case.m {
        return;
    }
    if explain(case, acts, rows, raised, used, variable, acts[variable]) {
        return;
    }
    explain_each(case, acts, rows, raised, used, variable);
}
