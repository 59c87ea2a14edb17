// Which scopes are kept: upwards, each is dropped without which the values stay refuted.
ghost use Rattle.std.specs.Prelude.{◌≡◌, true, List, ℕ, ◌≤◌, ◌<◌, ℤ, length, get_or, Some};
ghost use Rattle.definitions.specs.Rules.{variable_places, edge_places};
ghost use Rattle.definitions.specs.Case.{scope_count};
ghost use Rattle.definitions.specs.Engine.{chosen, kept_scopes};
ghost use Rattle.round_lines.specs.Press.{raised_below};
ghost use Rattle.engine.specs.Search.{Prepared, refutes_in, AllRaised, OthersRaised, Enough, Dropped};

use crate::{choosing, guess};
use definitions::{Case, SCOPE_PLACES};

// Leaves out what is not raised.
fn keep_raised(raised: &[u8], enough: &mut [u8], n: usize)
    requires { (n ≤ length raised.now) × (n ≤ length enough.old) }
    ensures { (y : ℕ) → y < n → get_or raised.now y 0 ≡ 0 → get_or enough.new y 0 ≡ 0 }
{
    for j in 0..n {
        // The byte is read either way, so that the loop has no branch.
        let byte = enough[j];
        enough[j] = if raised[j] == 0 { 0 } else { byte };
    }
}

// Raised scopes with which the values are refuted: fewer, if the guess is right, else all.
fn renew(case: Case, acts: &[u8], rows: &[u8], raised: &[u8], enough: &mut [u8], variable: usize)
    requires case_in_bounds { (scope_count case ≤ length raised.now) × (scope_count case ≤ length enough.old) × (case.n ≤ length acts.now) × (case.d ≤ 8) }
    requires variable_lt_n { (variable < case.n) × (case.n ≤ variable_places) × (case.m ≤ edge_places) }
    ensures { (w : List ℤ) → Prepared case w acts.now rows.now → refutes_in case w variable raised.now ≡ true
        → Enough case w variable raised.now enough.new }
{
    let scopes = case.n + case.m;
    enough[..scopes].fill(0);
    guess::guess(case, acts, rows, raised, enough, variable);
    keep_raised(raised, enough, scopes);
    if choosing::refutes(case, acts, rows, enough, variable) {
        return;
    }
    choosing::copy_bytes(raised, enough, scopes);
}

// Drops scope x, unless the values are not refuted without it. With the scopes `enough` they are refuted.
fn drop_scope(
    case: Case,
    acts: &[u8],
    rows: &[u8],
    raised: &mut [u8],
    enough: &mut [u8],
    variable: usize,
    x: usize,
)
    requires case_in_bounds { (scope_count case ≤ length raised.old) × (scope_count case ≤ length enough.old) × (case.n ≤ length acts.now) × (case.d ≤ 8) }
    requires variable_lt_n { (variable < case.n) × (x < scope_count case) × (case.n ≤ variable_places) × (case.m ≤ edge_places) }
    ensures { (w : List ℤ) → Prepared case w acts.now rows.now
        → Enough case w variable raised.old enough.old
        → Enough case w variable raised.new enough.new × Dropped case w variable x raised.old raised.new }
{
    raised[x] = 0;
    if enough[x] == 0 {
        return;
    }
    if choosing::refutes(case, acts, rows, raised, variable) {
        renew(case, acts, rows, raised, enough, variable);
        return;
    }
    raised[x] = 1;
}

// Upwards through the raised scopes. With the scopes `enough` the values are refuted.
fn drop_scopes(
    case: Case,
    acts: &[u8],
    rows: &[u8],
    raised: &mut [u8],
    enough: &mut [u8],
    variable: usize,
)
    requires case_in_bounds { (scope_count case ≤ length raised.old) × (scope_count case ≤ length enough.old) × (case.n ≤ length acts.now) × (case.d ≤ 8) }
    requires variable_lt_n { (variable < case.n) × (case.n ≤ variable_places) × (case.m ≤ edge_places) }
    ensures { (w : List ℤ) → Prepared case w acts.now rows.now → OthersRaised case variable raised.old
        → Enough case w variable raised.old enough.old
        → raised_below raised.new (scope_count case) ≡ kept_scopes case w variable }
{
    for x in 0..case.n + case.m {
        drop_scope(case, acts, rows, raised, enough, variable, x);
    }
}

// Lowers the variable's own scope and those that are dropped.
pub(crate) fn trim(case: Case, acts: &[u8], rows: &[u8], raised: &mut [u8], variable: usize)
    requires case_in_bounds { (scope_count case ≤ length raised.old) × (case.n ≤ length acts.now) × (case.d ≤ 8) }
    requires variable_lt_n { (variable < case.n) × (case.n ≤ variable_places) × (case.m ≤ edge_places) }
    ensures { (w : List ℤ) → Prepared case w acts.now rows.now → AllRaised case raised.old
        → chosen case w ≡ Some variable → raised_below raised.new (scope_count case) ≡ kept_scopes case w variable }
{
    let mut enough = [0u8; SCOPE_PLACES];
    raised[variable] = 0;
    renew(case, acts, rows, raised, &mut enough, variable);
    drop_scopes(case, acts, rows, raised, &mut enough, variable);
}
