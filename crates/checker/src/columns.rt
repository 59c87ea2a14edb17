// The numbers of the case's rules, a line read, and numbers in columns.
ghost use Rattle.std.specs.Prelude.{◌≡◌, false, pos, nat_abs};
ghost use Rattle.std.specs.Int.Signed.{lt_z};
ghost use Rattle.integers.specs.Words.{within_z};
ghost use Rattle.definitions.specs.Rules.{rules_of};
ghost use Rattle.definitions.specs.Lines.{outside};
ghost use Rattle.calls.specs.Calls.{read_line_answer};
ghost use Rattle.checker.specs.Taken.{bytes_per_line};

use definitions::{Case, Line, Refusal};

pub(crate) fn most_rounds(case: Case) -> u64
    ensures { result ≡ (rules_of case).rounds }
{
    let rulebook = case.rulebook;
    rules::most_rounds(rulebook)
}

pub(crate) fn line_length(case: Case) -> usize
    ensures { result ≡ bytes_per_line case }
{
    let rulebook = case.rulebook;
    rules::line_length(rulebook)
}

pub(crate) fn read_line(case: Case, bytes: &[u8]) -> Result<Line, Refusal>
    ensures { result ≡ read_line_answer (rules_of case) bytes.now }
{
    let rulebook = case.rulebook;
    lines::read_line_in(bytes, rules::amount_width(rulebook))
}

pub(crate) fn is_within(z: i64, low: i64, high: i64) -> bool
    ensures { result ≡ within_z low high z }
{
    low <= z && z <= high
}

pub(crate) fn is_outside(z: i64, n: usize) -> bool
    ensures { result ≡ outside n z }
{
    if z < 0 {
        return true;
    }
    n <= z as usize
}

pub(crate) fn index(z: i64) -> usize
    requires { lt_z z (pos 0) ≡ false }
    ensures { result ≡ nat_abs z }
{
    z as usize
}
