// Whether all is barred that a void line asks to be (document 02, change 2), on a table that was checked before, by each scope's greatest weight,
// kept beside it. An inner function, for the checker.
#![tactic(auto)]

ghost use Rattle.std.specs.Prelude.{◌≡◌, not, ◌&&◌, ◌||◌, ◌+◌, ◌≤◌, ◌<◌, eqb, length};
ghost use Rattle.integers.specs.Words.{any};
ghost use Rattle.definitions.specs.Rules.{rules_of};
ghost use Rattle.definitions.specs.Case.{scope_count, scopes};
ghost use Rattle.tables.specs.Scopes.{Limited};
ghost use Rattle.bars.specs.Bars.{is_open, open_in, some_open, rest_barred};

use definitions::Case;

// The weight is not `best`, and not barred.
fn is_open(weight: i64, best: i64) -> bool
    ensures { result ≡ is_open best weight }
{
    if weight == best {
        return false;
    }
    !rules::is_barred(weight)
}

fn some_open(weights: &[i64], best: i64) -> bool
    ensures { result ≡ any (is_open best) weights.now }
{
    weights.iter().any(|weight| is_open(*weight, best))
}

// A scope that is asked: the variable's own, or one raised.
fn is_asked(x: usize, variable: usize, mark: u8) -> bool
    ensures { result ≡ (eqb x variable || not (eqb mark 0)) }
{
    if x == variable {
        return true;
    }
    mark != 0
}

fn open_in(case: Case, table: &[i64], x: usize, best: i64, variable: usize, mark: u8) -> bool
    ensures { result ≡ ((eqb x variable || not (eqb mark 0)) && open_in (rules_of case) case table.now x best) }
{
    if !is_asked(x, variable, mark) {
        return false;
    }
    some_open(tables::scope_weights(case, table, x), best)
}

fn rest_open(case: Case, table: &[i64], best: &[i64], raised: &[u8], variable: usize) -> bool
    requires limited { Limited case }
    requires case_in_bounds { (scope_count case ≤ length best.now) × (scope_count case ≤ length raised.now) }
    ensures { result ≡ any (some_open (rules_of case) case table.now best.now raised.now variable) (scopes case) }
{
    let scopes = case.n + case.m;
    (0..scopes).any(|x| open_in(case, table, x, best[x], variable, raised[x]))
}

// In the scope of `variable` and in each scope x whose byte in `raised` is not 0, every weight that is not best[x] is barred. No where the limits or
// the length of `best` or `raised` are wrong.
pub fn rest_barred(case: Case, table: &[i64], best: &[i64], raised: &[u8], variable: usize) -> bool
    ensures { result ≡ rest_barred (rules_of case) case table.now best.now raised.now variable }
{
    if !tables::within_limits(case) {
        return false;
    }
    let scopes = case.n + case.m;
    if best.len() < scopes {
        return false;
    }
    if raised.len() < scopes {
        return false;
    }
    !rest_open(case, table, best, raised, variable)
}
