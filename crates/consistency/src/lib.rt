// Refutation (document 01, "Refutation"), asked of everything that is handed over: numbers 3 to 8.
#![tactic(auto)]

ghost use Rattle.std.specs.Prelude.{◌≡◌, not, ◌+◌, ltb, eqb};
ghost use Rattle.integers.specs.Words.{any};
ghost use Rattle.definitions.specs.Rules.{rules_of};
ghost use Rattle.calls.specs.Calls.{refuted_answer};
ghost use Rattle.consistency.specs.Arguments.{arguments_out};

use definitions::{Case, Refusal, SCOPE_PLACES};

fn other_length(length: usize, n: usize, m: usize) -> bool
    ensures { result ≡ not (eqb length (n + m)) }
{
    length < n || length - n != m
}

fn has_other_mark(raised: &[u8]) -> bool
    ensures { result ≡ any (λ b. ltb 1 b) raised.now }
{
    raised.iter().any(|&mark| 1 < mark)
}

fn arguments_out(case: Case, raised: &[u8], variable: usize, value: usize) -> bool
    ensures { result ≡ arguments_out case raised.now variable value }
{
    has_other_mark(raised) || case.n <= variable || case.d <= value
}

// Whether a value of a variable is refuted; `raised` has a byte for each scope, 1 where it is raised and else 0.
pub fn refuted(
    case: Case,
    table: &[i64],
    raised: &[u8],
    variable: usize,
    value: usize,
) -> Result<bool, Refusal>
    ensures { result ≡ refuted_answer (rules_of case) case table.now raised.now variable value }
{
    let wrong = other_length(raised.len(), case.n, case.m);
    let out = arguments_out(case, raised, variable, value);
    tables::check_working(case, table, wrong, out)?;
    let mut best = [0i64; SCOPE_PLACES];
    // The table was checked: nothing is refused.
    let _ = tables::greatest_weights(case, table, &mut best);
    arcs::values_unsupported(
        case,
        table,
        &best,
        raised,
        variable,
        marks::only(value as u8),
    )
}
