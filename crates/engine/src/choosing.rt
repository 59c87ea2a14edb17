// Which variable to press, and whether given scopes are enough to press it.
ghost use Rattle.std.specs.Prelude.{◌≡◌, not, List, ℕ, ◌≤◌, ◌<◌, eqb, ℤ, length, get_or, if◌then◌else◌};
ghost use Rattle.definitions.specs.Rules.{variable_places};
ghost use Rattle.definitions.specs.Case.{scope_count};
ghost use Rattle.calls.specs.Calls.{is_raised};
ghost use Rattle.engine.specs.Search.{Prepared, refutes_in, AllRaised, ChosenIn, ChosenIs};

use definitions::{Case, VARIABLE_PLACES};

// A loop, and not `copy_from_slice`: by that the library for C would need memmove too.
pub(crate) fn copy_bytes(from: &[u8], to: &mut [u8], n: usize)
    requires { (n ≤ length from.now) × (n ≤ length to.old) }
    ensures { (j : ℕ) → j < n → get_or to.new j 0 ≡ get_or from.now j 0 }
{
    for j in 0..n {
        to[j] = from[j];
    }
}

fn allowed_values(raised: u8, active: u8, full: u8) -> u8
    ensures { result ≡ (if not (eqb raised 0) then active else full) }
{
    if raised == 0 { full } else { active }
}

// The allowed values of each variable: the active ones if its scope is raised, else all.
pub(crate) fn allow(acts: &[u8], raised: &[u8], full: u8, sets: &mut [u8], n: usize)
    requires { (n ≤ length acts.now) × (n ≤ length raised.now) × (n ≤ length sets.old) }
    ensures { (j : ℕ) → j < n → get_or sets.new j 0 ≡ (if is_raised raised.now j then get_or acts.now j 0 else full) }
{
    for j in 0..n {
        sets[j] = allowed_values(raised[j], acts[j], full);
    }
}

// Whether the active values of the variable are all refuted.
pub(crate) fn refutes(case: Case, acts: &[u8], rows: &[u8], raised: &[u8], variable: usize) -> bool
    requires { (scope_count case ≤ length raised.now) × (case.n ≤ length acts.now) × (variable < case.n) × (case.n ≤ variable_places)
        × (case.d ≤ 8) }
    ensures { (w : List ℤ) → Prepared case w acts.now rows.now → result ≡ refutes_in case w variable raised.now }
{
    let n = case.n;
    let end = n + case.m;
    let lower = case.lower;
    let upper = case.upper;
    let mut sets = [0u8; VARIABLE_PLACES];
    allow(acts, raised, marks::full(case.d as u8), &mut sets, n);
    choice::is_unsupported(arcs::none_supported(
        &lower,
        &upper,
        rows,
        &raised[n..end],
        &sets[..n],
        variable,
        acts[variable],
    ))
}

// The lowest variable whose active values are refuted with all other scopes raised. To a variable's active values its own scope makes no
// difference, so that all scopes may be raised at once.
pub(crate) fn choose(case: Case, acts: &[u8], rows: &[u8], raised: &[u8]) -> Option<usize>
    requires { (scope_count case ≤ length raised.now) × (case.n ≤ length acts.now) × (case.n ≤ variable_places) }
    ensures { ChosenIn case result × ((w : List ℤ) → Prepared case w acts.now rows.now → AllRaised case raised.now
        → ChosenIs case w result) }
{
    let n = case.n;
    let end = n + case.m;
    let lower = case.lower;
    let upper = case.upper;
    let mut places = [0u8; VARIABLE_PLACES];
    let sets = &mut places[..n];
    sets.copy_from_slice(&acts[..n]);
    choice::lowest_unsupported(&lower, &upper, acts, rows, &raised[n..end], sets)
}
