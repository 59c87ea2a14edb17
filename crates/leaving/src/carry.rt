// What a leave adds to the carry, and whether a tuple that leaves is barred.
ghost use Rattle.std.specs.Prelude.{◌≡◌, ◌<◌};
ghost use Rattle.integers.specs.Words.{any};
ghost use Rattle.definitions.specs.Rules.{rules_of};
ghost use Rattle.definitions.specs.Case.{scope_count, is_barred};
ghost use Rattle.definitions.specs.Valid.{starting_weight};
ghost use Rattle.logs.specs.Leave.{leaving_scopes, carry_after, some_barred};
ghost use Rattle.theory.proofs.Validity.{Handed, BothHanded};
ghost use Rattle.leaving.specs.Scopes.{growth, edge_growth, edge_barred};

use crate::ends;
use definitions::Case;

fn any_barred(weights: &[i64]) -> bool
    ensures { result ≡ any is_barred weights.now }
{
    weights.iter().any(|weight| rules::is_barred(*weight))
}

fn scope_barred(case: Case, starting: &[i64], x: usize) -> bool
    requires handed { Handed (rules_of case) (starting_weight (rules_of case)) case starting.now }
    requires x_bound { x < scope_count case }
    ensures { result ≡ some_barred case starting.now x }
{
    any_barred(tables::scope_weights(case, starting, x))
}

fn edge_barred(case: Case, starting: &[i64], variable: usize, e: usize) -> bool
    requires handed { Handed (rules_of case) (starting_weight (rules_of case)) case starting.now }
    requires e_lt_m { e < case.m }
    ensures { result ≡ edge_barred case starting.now variable e }
{
    if ends::has_end(case, variable, e) {
        return scope_barred(case, starting, case.n + e);
    }
    false
}

pub(crate) fn some_barred(case: Case, starting: &[i64], variable: usize) -> bool
    requires handed { Handed (rules_of case) (starting_weight (rules_of case)) case starting.now }
    requires variable_lt_n { variable < case.n }
    ensures { result ≡ any (some_barred case starting.now) (leaving_scopes case variable) }
{
    if scope_barred(case, starting, variable) {
        return true;
    }
    (0..case.m).any(|e| edge_barred(case, starting, variable, e))
}

fn scope_growth<'a>(case: Case, starting: &'a [i64], table: &'a [i64], x: usize) -> i64
    requires both_handed { BothHanded (rules_of case) case starting.now table.now }
    requires x_bound { x < scope_count case }
    ensures { result ≡ growth case starting.now table.now x }
{
    let greatest = tables::greatest(tables::scope_weights(case, table, x));
    let least = tables::least(tables::scope_weights(case, starting, x));
    greatest - least
}

fn edge_growth<'a>(
    case: Case,
    starting: &'a [i64],
    table: &'a [i64],
    variable: usize,
    e: usize,
) -> i64
    requires both_handed { BothHanded (rules_of case) case starting.now table.now }
    requires e_lt_m { e < case.m }
    ensures { result ≡ edge_growth case starting.now table.now variable e }
{
    if ends::has_end(case, variable, e) {
        return scope_growth(case, starting, table, case.n + e);
    }
    0
}

pub(crate) fn carry_after<'a>(
    case: Case,
    starting: &'a [i64],
    table: &'a [i64],
    variable: usize,
) -> i64
    requires both_handed { BothHanded (rules_of case) case starting.now table.now }
    requires variable_lt_n { variable < case.n }
    ensures { result ≡ carry_after case variable starting.now table.now }
{
    let mut carry = case.carry + scope_growth(case, starting, table, variable);
    for e in 0..case.m {
        carry += edge_growth(case, starting, table, variable, e);
    }
    carry
}
