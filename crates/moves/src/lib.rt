// Moves (document 01, "Moves"): shifts and presses, asked of everything that is handed over: numbers 3 to 8 and 15, and 9, 10 and 11.
#![tactic(auto)]

ghost use Rattle.std.specs.Prelude.{◌≡◌, not, ◌<◌, T, ltb, length};
ghost use Rattle.integers.specs.Words.{all, any, is_in};
ghost use Rattle.definitions.specs.Rules.{rules_of};
ghost use Rattle.definitions.specs.Case.{scope_count};
ghost use Rattle.definitions.specs.Valid.{working_weight};
ghost use Rattle.definitions.specs.Moves.{active_press, press_amount};
ghost use Rattle.calls.specs.Calls.{is_rising, move_call, shift_call, press_out, press_call};
ghost use Rattle.theory.proofs.Validity.{Handed};
ghost use Rattle.tables.specs.Scopes.{Limited};
ghost use Rattle.moves.specs.Marks.{marked, asked_of_raised, asked_of_press};

use definitions::{Case, Refusal, SCOPE_PLACES};

// ---- what a press is asked: numbers 5 and 9

fn some_beyond(scopes: &[u16], count: usize) -> bool
    ensures { result ≡ any (λ x. not (ltb x count)) scopes.now }
{
    scopes.iter().any(|scope| count <= usize::from(*scope))
}

fn holds(scopes: &[u16], x: usize) -> bool
    ensures { result ≡ is_in scopes.now x }
{
    scopes.iter().any(|scope| usize::from(*scope) == x)
}

fn is_rising(scopes: &[u16]) -> bool
    ensures { result ≡ is_rising scopes.now }
{
    for j in 1..scopes.len() {
        if scopes[j] <= scopes[j - 1] {
            return false;
        }
    }
    true
}

fn press_out(case: Case, variable: usize, raised: &[u16], amount: i64) -> bool
    requires { Limited case }
    ensures { result ≡ press_out (rules_of case) case variable raised.now amount }
{
    if changes::lowering_out(case, variable, amount) {
        return true;
    }
    let scopes = case.n + case.m;
    if raised.is_empty() {
        return true;
    }
    if scopes <= raised.len() {
        return true;
    }
    some_beyond(raised, scopes)
}

// ---- marks for the raised scopes, and number 10

fn mark_scopes(marks: &mut [u8], raised: &[u16])
    requires { T (all (λ x. ltb x (length marks.old)) raised.now) }
    ensures { marks.new ≡ marked marks.old raised.now }
{
    for scope in raised {
        marks[usize::from(*scope)] = 1;
    }
}

// ---- a press of raised scopes that rise

// Numbers 10 and 11, and the press.
fn press_raised(
    case: Case,
    table: &mut [i64],
    variable: usize,
    raised: &[u16],
    amount: i64,
) -> Result<(), Refusal>
    requires handed { Handed (rules_of case) (working_weight (rules_of case)) case table.old }
    requires variable_lt_n { (variable < case.n) × T (all (λ x. ltb x (scope_count case)) raised.now) }
    requires t { T (press_amount (rules_of case) amount) }
    ensures value { result ≡ (move_call (rules_of case) case table.old
        (active_press case table.old variable raised.now amount)
        (asked_of_raised (rules_of case) case table.old variable raised.now amount)).answer }
    ensures table_after { table.new ≡ (move_call (rules_of case) case table.old
        (active_press case table.old variable raised.now amount)
        (asked_of_raised (rules_of case) case table.old variable raised.now amount)).table }
{
    let mut marks = [0u8; SCOPE_PLACES];
    mark_scopes(&mut marks, raised);
    let mut best = [0i64; SCOPE_PLACES];
    // The table was checked: nothing is refused.
    let _ = tables::greatest_weights(case, table, &mut best);
    let values = changes::best_values(case, table, &best, variable);
    let refuted = arcs::values_unsupported(case, table, &best, &marks, variable, values);
    if !refuted.unwrap_or(false) {
        return Err(Refusal::NotRefuted);
    }
    changes::lower_and_raise(case, table, &mut best, &marks, variable, values, amount)
}

// Numbers 9, 10 and 11, and the press.
fn press_checked(
    case: Case,
    table: &mut [i64],
    variable: usize,
    raised: &[u16],
    amount: i64,
) -> Result<(), Refusal>
    requires handed { Handed (rules_of case) (working_weight (rules_of case)) case table.old }
    requires variable_lt_n { (variable < case.n) × T (all (λ x. ltb x (scope_count case)) raised.now) }
    requires t { T (press_amount (rules_of case) amount) }
    ensures value { result ≡ (move_call (rules_of case) case table.old
        (active_press case table.old variable raised.now amount)
        (asked_of_press (rules_of case) case table.old variable raised.now amount)).answer }
    ensures table_after { table.new ≡ (move_call (rules_of case) case table.old
        (active_press case table.old variable raised.now amount)
        (asked_of_press (rules_of case) case table.old variable raised.now amount)).table }
{
    if !is_rising(raised) {
        return Err(Refusal::RaiseNotAscending);
    }
    if holds(raised, variable) {
        return Err(Refusal::RaiseNotAscending);
    }
    press_raised(case, table, variable, raised, amount)
}

// ---- the calls

pub fn shift(
    case: Case,
    table: &mut [i64],
    edge: usize,
    end: usize,
    value: usize,
    amount: i64,
) -> Result<(), Refusal>
    ensures { (result ≡ (shift_call (rules_of case) case table.old edge end value amount).answer)
        × (table.new ≡ (shift_call (rules_of case) case table.old edge end value amount).table) }
{
    let out = changes::transfer_out(case, edge, end, value, amount);
    tables::check_working(case, table, false, out)?;
    let mut best = [0i64; SCOPE_PLACES];
    // The table was checked: nothing is refused.
    let _ = tables::greatest_weights(case, table, &mut best);
    changes::transfer(case, table, &mut best, edge, end, value, amount)
}

pub fn press(
    case: Case,
    table: &mut [i64],
    variable: usize,
    raised: &[u16],
    amount: i64,
) -> Result<(), Refusal>
    ensures { (result ≡ (press_call (rules_of case) case table.old variable raised.now amount).answer)
        × (table.new ≡ (press_call (rules_of case) case table.old variable raised.now amount).table) }
{
    if !tables::within_limits(case) {
        return Err(Refusal::OutsideLimits);
    }
    let out = press_out(case, variable, raised, amount);
    tables::check_working(case, table, false, out)?;
    press_checked(case, table, variable, raised, amount)
}
