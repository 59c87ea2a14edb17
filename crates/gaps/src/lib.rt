// The amount of a press (document 01, "The engine's round"): the least gap of the scopes that limit it. A barred tuple sets no gap.
#![tactic(auto)]

ghost use Rattle.std.specs.Prelude.{◌≡◌, not, ◌||◌, ◌≤◌, ◌<◌, T, ltb, eqb, ◌-ℤ◌, length, if◌then◌else◌};
ghost use Rattle.integers.specs.Words.{max_z};
ghost use Rattle.definitions.specs.Rules.{rules_of};
ghost use Rattle.definitions.specs.Case.{scope_count, lent_length, barred_weight};
ghost use Rattle.tables.specs.Scopes.{Limited, scope_part};
ghost use Rattle.gaps.specs.Gaps.{small_weight, IsGap, limits_by, higher_floor, less_gaps, gap_below};
ghost use Rattle.gaps.specs.Gaps.{AllWorking, gap_in_range, least_gap_answer};

use definitions::{Case, Refusal};

// More than any gap of working weights.
pub const NO_GAP: i64 = 4_611_686_018_427_387_904;

// The weights above it have a lesser gap than `limit`, and none of them is barred.
fn first_floor(best: i64, limit: i64) -> i64
    requires { T (small_weight best) × IsGap limit }
    ensures { result ≡ max_z (best -ℤ limit) barred_weight }
{
    let floor = best - limit;
    let barred = rules::barred();
    if floor <= barred {
        return barred;
    }
    floor
}

// The greater of `floor` and a weight below `best`: its gap is the lesser.
fn higher_floor(weight: i64, best: i64, floor: i64) -> i64
    ensures { result ≡ higher_floor best weight floor }
{
    if best <= weight {
        return floor;
    }
    if weight <= floor {
        return floor;
    }
    weight
}

// Only the least gap is computed, so that weights may lie anywhere.
fn gap_in(part: &[i64], best: i64, limit: i64) -> i64
    requires { T (small_weight best) × IsGap limit }
    ensures { result ≡ less_gaps best part.now limit }
{
    let barred = rules::barred();
    let mut floor = first_floor(best, limit);
    for &weight in part {
        floor = higher_floor(weight, best, floor);
    }
    if floor <= barred {
        return limit;
    }
    best - floor
}

fn scope_gap(case: Case, table: &[i64], x: usize, best: i64, least: i64) -> i64
    requires limited { Limited case × (length table.now ≡ lent_length (rules_of case) case) × (x < scope_count case) }
    requires t { T (small_weight best) × IsGap least }
    ensures { result ≡ less_gaps best (scope_part case table.now x) least }
{
    gap_in(tables::scope_weights(case, table, x), best, least)
}

fn is_limiting(x: usize, variable: usize, mark: u8) -> bool
    ensures { result ≡ limits_by mark variable x }
{
    if x == variable {
        return true;
    }
    mark != 0
}

fn limited_gap(
    case: Case,
    table: &[i64],
    x: usize,
    best: i64,
    mark: u8,
    variable: usize,
    least: i64,
) -> i64
    requires limited { Limited case × (length table.now ≡ lent_length (rules_of case) case) × (x < scope_count case) }
    requires t { T (small_weight best) × IsGap least }
    ensures { result ≡ (if limits_by mark variable x then less_gaps best (scope_part case table.now x) least else least) }
{
    if is_limiting(x, variable, mark) {
        return scope_gap(case, table, x, best, least);
    }
    least
}

fn gap_of_scopes(case: Case, table: &[i64], best: &[i64], raised: &[u8], variable: usize) -> i64
    requires limited { Limited case × (length table.now ≡ lent_length (rules_of case) case) }
    requires case_in_bounds { (scope_count case ≤ length best.now) × (scope_count case ≤ length raised.now) }
    requires all_working { AllWorking (rules_of case) case best.now }
    ensures { result ≡ gap_below case table.now best.now raised.now variable (scope_count case) }
{
    let scopes = case.n + case.m;
    let mut least = NO_GAP;
    for x in 0..scopes {
        least = limited_gap(case, table, x, best[x], raised[x], variable, least);
    }
    least
}

// The sum of `best` is refused where a number is outside the range of working weights or the carry outside its own.
fn gap_in_range(
    case: Case,
    table: &[i64],
    best: &[i64],
    raised: &[u8],
    variable: usize,
) -> Result<i64, Refusal>
    requires limited { Limited case × (length table.now ≡ lent_length (rules_of case) case) }
    requires case_in_bounds { (scope_count case ≤ length best.now) × (scope_count case ≤ length raised.now) }
    ensures { result ≡ gap_in_range (rules_of case) case table.now best.now raised.now variable }
{
    tables::sum_of_best(case, best)?;
    Ok(gap_of_scopes(case, table, best, raised, variable))
}

fn lengths_wrong(case: Case, table: usize, best: usize, raised: usize) -> bool
    requires { Limited case }
    ensures { result ≡ (not (eqb table (lent_length (rules_of case) case)) || (ltb best (scope_count case) || ltb raised (scope_count case))) }
{
    if !tables::is_sized(case, table) {
        return true;
    }
    if best < case.n + case.m {
        return true;
    }
    raised < case.n + case.m
}

// The least of NO_GAP and the gaps in the scope of `variable` and in each scope x whose byte in `raised` is not 0: how far a weight lies below
// best[x], barred weights left out. Asks 3, 4, 5 of the arguments and the carry, and 8 of the first n + m numbers in `best`.
pub fn least_gap(
    case: Case,
    table: &[i64],
    best: &[i64],
    raised: &[u8],
    variable: usize,
) -> Result<i64, Refusal>
    ensures { result ≡ least_gap_answer (rules_of case) case table.now best.now raised.now variable }
{
    if !tables::within_limits(case) {
        return Err(Refusal::OutsideLimits);
    }
    if lengths_wrong(case, table.len(), best.len(), raised.len()) {
        return Err(Refusal::WrongLength);
    }
    if case.n <= variable {
        return Err(Refusal::OutOfRange);
    }
    gap_in_range(case, table, best, raised, variable)
}
