// A link leaves (document 02, change 5): what is left of a case and of both its tables. Inner functions, for other crates.
#![tactic(auto)]

mod carry;
mod ends;
mod parts;

ghost use Rattle.std.specs.Prelude.{◌≡◌, false, not, ◌||◌, ◌<◌};
ghost use Rattle.std.specs.Int.Signed.{lt_z};
ghost use Rattle.definitions.specs.Rules.{rules_of};
ghost use Rattle.definitions.specs.Case.{upper_bound};
ghost use Rattle.definitions.specs.Valid.{working_weight, carry_out};
ghost use Rattle.logs.specs.Leave.{left_by};
ghost use Rattle.theory.proofs.Validity.{Handed, BothHanded};
ghost use Rattle.leaving.specs.Leaving.{leave_call};

use definitions::{Case, Refusal};

// The answer, and the case that is left; where it was refused, the case as it was.
#[derive(Clone, Copy)]
pub struct Left {
    pub answer: Result<(), Refusal>,
    pub case: Case,
}

fn bound(case: Case, table: &[i64]) -> i64
    requires { Handed (rules_of case) (working_weight (rules_of case)) case table.now }
    ensures { result ≡ upper_bound case table.now }
{
    let sum = tables::sum_of_greatest(case, table);
    match sum {
        Ok(bound) => bound,
        Err(_) => 0,
    }
}

// The carry is not kept: a tuple that leaves is barred, the carry is outside its range, or the fresh case's upper bound is not higher.
fn restarts<'a>(
    barred: bool,
    carried: Case,
    table: &'a [i64],
    fresh: Case,
    starting: &'a [i64],
) -> bool
    requires handed { carry_out (rules_of carried) carried ≡ false → Handed (rules_of carried) (working_weight (rules_of carried)) carried table.now }
    requires handed_2 { Handed (rules_of fresh) (working_weight (rules_of fresh)) fresh starting.now }
    ensures { result ≡ (barred || carry_out (rules_of carried) carried
        || not (lt_z (upper_bound carried table.now) (upper_bound fresh starting.now))) }
{
    if barred {
        return true;
    }
    if tables::carry_out(carried) {
        return true;
    }
    bound(fresh, starting) <= bound(carried, table)
}

fn leave_checked(case: Case, starting: &mut [i64], table: &mut [i64], variable: usize) -> Case
    requires both_handed { BothHanded (rules_of case) case starting.old table.old }
    requires variable_lt_n { (variable < case.n) × (1 < case.n) }
    ensures { (result ≡ (left_by (rules_of case) case variable starting.old table.old).case)
        × (starting.new ≡ (left_by (rules_of case) case variable starting.old table.old).starting)
        × (table.new ≡ (left_by (rules_of case) case variable starting.old table.old).weights) }
{
    let barred = carry::some_barred(case, starting, variable);
    let carry = carry::carry_after(case, starting, table, variable);
    let fresh = ends::case_without(case, variable, 0);
    let carried = ends::case_without(case, variable, carry);
    parts::remove_scopes(case, starting, variable);
    parts::remove_scopes(case, table, variable);
    if restarts(barred, carried, table, fresh, starting) {
        parts::copy(starting, table);
        return fresh;
    }
    carried
}

// Takes a variable and its edges away. The variables and edges above move down, and so do the weights of both tables.
pub fn leave(case: Case, starting: &mut [i64], table: &mut [i64], variable: usize) -> Left
    ensures { (result.answer ≡ (leave_call case starting.old table.old variable).answer)
        × (result.case ≡ (leave_call case starting.old table.old variable).after.case)
        × (starting.new ≡ (leave_call case starting.old table.old variable).after.starting)
        × (table.new ≡ (leave_call case starting.old table.old variable).after.weights) }
{
    if case.n <= 1 {
        let answer = Err(Refusal::OutsideLimits);
        return Left { answer, case };
    }
    let out = case.n <= variable;
    let answer = tables::check_both(case, starting, table, out);
    match answer {
        Err(refusal) => Left {
            answer: Err(refusal),
            case,
        },
        Ok(()) => Left {
            answer: Ok(()),
            case: leave_checked(case, starting, table, variable),
        },
    }
}
