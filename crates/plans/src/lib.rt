// Scoring: of two lent assignments (plans), the one with the greater objective under starting weights (document 01, "Lines"). Unlawful ones have
// none, and are all level, below the lawful (document 02, change 2).
#![tactic(auto)]

ghost use Rattle.std.specs.Prelude.{◌≡◌, if◌then◌else◌, Ok, Some};
ghost use Rattle.std.specs.Int.Signed.{lt_z};
ghost use Rattle.definitions.specs.Rules.{rules_of};
ghost use Rattle.definitions.specs.Answers.{choice_says};
ghost use Rattle.definitions.specs.Scoring.{ranks_below, better_of, better as better_part};
ghost use Rattle.plans.specs.Totals.{total_in};

use definitions::{Case, Choice, Refusal};

fn greater(first: i64, second: i64) -> Choice
    ensures { result ≡ (if lt_z first second then Choice.Second else Choice.First) }
{
    if first < second {
        Choice::Second
    } else {
        Choice::First
    }
}

// The second has a total.
fn against(first: Result<i64, Refusal>, second: i64) -> Choice
    ensures { result ≡ (if ranks_below (total_in first) (Some second) then Choice.Second else Choice.First) }
{
    match first {
        Ok(total) => greater(total, second),
        Err(_) => Choice::Second,
    }
}

// By totals; a plan whose total is refused ranks below one that has a total.
fn ranked(first: Result<i64, Refusal>, second: Result<i64, Refusal>) -> Choice
    ensures { result ≡ (if ranks_below (total_in first) (total_in second) then Choice.Second else Choice.First) }
{
    match second {
        Ok(total) => against(first, total),
        Err(_) => Choice::First,
    }
}

// ---- the calls

// The assignment with the greater objective, the first on a tie.
pub fn better_of(case: Case, table: &[i64], first: &[u8], second: &[u8]) -> Result<Choice, Refusal>
    ensures { result ≡ better_of (rules_of case) case table.now first.now second.now }
{
    let wrong = (first.len() != case.n) | (second.len() != case.n);
    let out = tables::some_beyond(first, case.d) | tables::some_beyond(second, case.d);
    tables::check_starting(case, table, wrong, out)?;
    Ok(ranked(
        figures::objective(case, table, first),
        figures::objective(case, table, second),
    ))
}

// That one itself; an empty part where it is refused. The number (0 where none applies) is written to `number`.
pub fn better<'a>(
    case: Case,
    table: &[i64],
    first: &'a [u8],
    second: &'a [u8],
    number: &mut u8,
) -> &'a [u8]
    ensures result_value { result.now ≡ better_part (rules_of case) case table.now first.now second.now }
    ensures value { (better_of (rules_of case) case table.now first.now second.now ≡ (Ok Choice.First) → result ≡ first.entry)
        × (better_of (rules_of case) case table.now first.now second.now ≡ (Ok Choice.Second) → result ≡ second.entry) }
    ensures number_after { number.new ≡ (choice_says (better_of (rules_of case) case table.now first.now second.now)).number }
{
    match better_of(case, table, first, second) {
        Ok(Choice::First) => {
            *number = 0;
            first
        }
        Ok(Choice::Second) => {
            *number = 0;
            second
        }
        Err(refusal) => {
            *number = texts::number_of(refusal);
            &first[0..0]
        }
    }
}
