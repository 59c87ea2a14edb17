// What is asked of starting weights and working weights that are lent together.
ghost use Rattle.std.specs.Prelude.{◌≡◌, ◌≤◌, length};
ghost use Rattle.integers.specs.Words.{below, all};
ghost use Rattle.definitions.specs.Rules.{rules_of};
ghost use Rattle.definitions.specs.Refusals.{first_refusal};
ghost use Rattle.definitions.specs.Answers.{outcome_of};
ghost use Rattle.definitions.specs.Case.{lent_length};
ghost use Rattle.tables.specs.Scopes.{Limited};
ghost use Rattle.tables.specs.Both.{paired, paired_at, is_first, both_tests};

use definitions::{Case, Refusal};

// The first may be held, and both are barred or neither is.
fn is_paired(first: i64, second: i64, low: i64, high: i64) -> bool
    ensures { result ≡ paired low high first second }
{
    if rules::is_barred(first) {
        return rules::is_barred(second);
    }
    if rules::is_barred(second) {
        return false;
    }
    crate::is_within(first, low, high)
}

fn all_paired<'a>(starting: &'a [i64], table: &'a [i64], own: usize, low: i64, high: i64) -> bool
    requires { (own ≤ length starting.now) × (own ≤ length table.now) }
    ensures { result ≡ all (paired_at low high starting.now table.now) (below own) }
{
    (0..own).all(|p| is_paired(starting[p], table[p], low, high))
}

// What number 8 asks of the starting weights, with the working weights beside them.
fn is_first<'a>(case: Case, starting: &'a [i64], table: &'a [i64], low: i64, high: i64) -> bool
    requires limited { Limited case }
    requires starting_len { (length starting.now ≡ lent_length (rules_of case) case) × (length table.now ≡ lent_length (rules_of case) case) }
    ensures { result ≡ is_first low high case starting.now table.now }
{
    let own = crate::own_length(case);
    if crate::all_zero(&starting[own..]) {
        return all_paired(starting, table, own, low, high);
    }
    false
}

// Numbers 8 and 15.
pub(crate) fn both_outcome<'a>(
    case: Case,
    starting: &'a [i64],
    table: &'a [i64],
) -> Result<(), Refusal>
    requires limited { Limited case }
    requires starting_len { (length starting.now ≡ lent_length (rules_of case) case) × (length table.now ≡ lent_length (rules_of case) case) }
    ensures { result ≡ outcome_of (first_refusal (both_tests (rules_of case) case starting.now table.now)) }
{
    let rulebook = case.rulebook;
    let low = rules::least_starting(rulebook);
    let high = rules::most_starting(rulebook);
    if is_first(case, starting, table, low, high) {
        let least = rules::least_working(rulebook);
        let most = rules::most_working(rulebook);
        return crate::weight_outcome(case, table, least, most);
    }
    Err(Refusal::WeightOutOfRange)
}
