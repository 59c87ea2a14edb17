// Number 5, of the record and of a line.
ghost use Rattle.std.specs.Prelude.{◌≡◌, ◌||◌, List, ℤ, ltb, eqb, drop};
ghost use Rattle.integers.specs.Words.{all, within};
ghost use Rattle.definitions.specs.Rules.{rules_of};
ghost use Rattle.definitions.specs.Moves.{shift_amount, press_amount};
ghost use Rattle.tables.specs.Scopes.{Limited};
ghost use Rattle.definitions.specs.Replay.{begin_out};
ghost use Rattle.checker.specs.Checker.{last_out, target_out, due_out, of_shift, of_due};

use crate::columns::{is_outside, is_within, most_rounds};
use crate::{Due, Replay, Target};
use definitions::{Case, Line};

fn last_out(case: Case, last: Option<usize>) -> bool
    requires { Limited case }
    ensures { result ≡ last_out case last }
{
    match last {
        None => false,
        Some(x) => case.n + case.m <= x,
    }
}

// No scope from `from` on is raised.
fn none_from(raised: &[u8], from: usize) -> bool
    ensures { result ≡ all (λ b. eqb b 0) (drop from raised.now) }
{
    for x in from..raised.len() {
        if raised[x] != 0 {
            return false;
        }
    }
    true
}

fn in_range(x: usize, low: usize, high: usize) -> bool
    ensures { result ≡ within low high x }
{
    low <= x && x <= high
}

fn is_press_amount(case: Case, amount: i64) -> bool
    ensures { result ≡ press_amount (rules_of case) amount }
{
    let rulebook = case.rulebook;
    is_within(amount, 1, rules::most_moving(rulebook))
}

fn target_out(case: Case, target: Target) -> bool
    ensures { result ≡ target_out (rules_of case) target }
{
    match target {
        Target::Press(amount) => !is_press_amount(case, amount),
        Target::Void => false,
    }
}

fn held_out(
    case: Case,
    raised: &[u8],
    variable: usize,
    target: Target,
    left: usize,
    last: Option<usize>,
) -> bool
    requires { Limited case }
    ensures { result ≡ due_out (rules_of case) case raised.now (Due.Raise variable target left last) }
{
    let scopes = case.n + case.m;
    !(variable < case.n)
        | target_out(case, target)
        | !in_range(left, 1, scopes - 1)
        | last_out(case, last)
        | !none_from(raised, scopes)
}

pub(crate) fn record_out(case: Case, raised: &[u8], rounds: u64, due: Due) -> bool
    requires { Limited case }
    ensures { result ≡ (ltb (rules_of case).rounds rounds || due_out (rules_of case) case raised.now due) }
{
    if most_rounds(case) < rounds {
        return true;
    }
    match due {
        Due::MoveOrBound => false,
        Due::Raise {
            variable,
            target,
            left,
            last,
        } => held_out(case, raised, variable, target, left, last),
        Due::Nothing => false,
    }
}

fn is_shift_amount(case: Case, amount: i64) -> bool
    ensures { result ≡ shift_amount (rules_of case) amount }
{
    let rulebook = case.rulebook;
    if !is_within(
        amount,
        rules::least_moving(rulebook),
        rules::most_moving(rulebook),
    ) {
        return false;
    }
    amount != 0
}

fn shift_out(case: Case, line: Line) -> bool
    ensures { (w : List ℤ) (p : Replay) → result ≡ (of_shift (rules_of case) case w p line).out }
{
    is_outside(line.a, case.m)
        | is_outside(line.b, 2)
        | is_outside(line.c, case.d)
        | !is_shift_amount(case, line.amount)
}

fn begin_out(case: Case, line: Line) -> bool
    requires { Limited case }
    ensures { result ≡ begin_out case line }
{
    let most = case.n + case.m - 1;
    is_outside(line.a, case.n) | !is_within(line.b, 1, most as i64)
}

fn move_out(case: Case, rounds: u64, line: Line) -> bool
    requires { Limited case }
    ensures { (w : List ℤ) (p : Replay) → p.rounds ≡ rounds → result ≡ (of_due (rules_of case) case w p Due.MoveOrBound line).out }
{
    if line.kind == 1 {
        return shift_out(case, line);
    }
    if line.kind == 2 {
        return begin_out(case, line) | !is_press_amount(case, line.amount);
    }
    if line.kind == 4 {
        return most_rounds(case) <= rounds;
    }
    begin_out(case, line)
}

pub(crate) fn line_out(case: Case, rounds: u64, due: Due, line: Line) -> bool
    requires { Limited case }
    ensures { (w : List ℤ) (p : Replay) → p.rounds ≡ rounds → result ≡ (of_due (rules_of case) case w p due line).out }
{
    match due {
        Due::MoveOrBound => move_out(case, rounds, line),
        Due::Raise {
            variable: _,
            target: _,
            left: _,
            last: _,
        } => is_outside(line.a, case.n + case.m),
        Due::Nothing => false,
    }
}
