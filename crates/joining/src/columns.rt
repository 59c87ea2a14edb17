// What is asked of a line's columns.
ghost use Rattle.std.specs.Prelude.{◌≡◌, not, ◌&&◌, [], ◌∷◌, ◌<◌, pos};
ghost use Rattle.std.specs.Int.Signed.{lt_z, le_z};
ghost use Rattle.integers.specs.Words.{within_z};
ghost use Rattle.definitions.specs.declared.Rulebook.{Rulebook};
ghost use Rattle.definitions.specs.Rules.{rules_in};
ghost use Rattle.definitions.specs.Lines.{zero_unless, not_due};
ghost use Rattle.definitions.specs.CaseFiles.{names as names_place, bars as bars_tuple};
ghost use Rattle.case_lines.specs.Dues.{due_awaited};
ghost use Rattle.joining.specs.Steps.{kinds_due, is_of_kind};

use case_lines::Awaited;
use definitions::Line;

pub(crate) fn is_between(z: i64, low: i64, high: i64) -> bool
    ensures { result ≡ within_z low high z }
{
    low <= z && z <= high
}

fn zero_unless(used: bool, z: i64) -> bool
    ensures { result ≡ zero_unless used z }
{
    if used { true } else { z == 0 }
}

// The line is of this kind, and a third place and an amount that the kind does not use are 0.
fn is_of_kind(line: Line, kind: i64, third: bool, amount: bool) -> bool
    ensures { result ≡ is_of_kind kind third amount line }
{
    (line.kind == kind) & zero_unless(third, line.c) & zero_unless(amount, line.amount)
}

// The line's kind is due.
pub(crate) fn is_due(due: Awaited, line: Line) -> bool
    ensures { (b : Rulebook) → result ≡ not (not_due (rules_in b) (kinds_due (due_awaited due)) line) }
{
    match due {
        Awaited::VariableWeight {
            variable: _,
            value: _,
        } => is_of_kind(line, 11, false, true) | is_of_kind(line, 14, false, false),
        Awaited::EdgeEnds(_) => is_of_kind(line, 12, true, false),
        Awaited::EdgeWeight {
            edge: _,
            k: _,
            l: _,
        } => is_of_kind(line, 13, true, true) | is_of_kind(line, 15, true, false),
    }
}

// It is a join's first line.
pub(crate) fn is_join(line: Line) -> bool
    ensures { (b : Rulebook) → result ≡ not (not_due (rules_in b) (8 ∷ []) line) }
{
    is_of_kind(line, 8, false, false) & (line.b == 0)
}

pub(crate) fn bars(line: Line) -> bool
    ensures { result ≡ bars_tuple line }
{
    (line.kind == 14) | (line.kind == 15)
}

// The column names this place.
pub(crate) fn names(z: i64, place: usize) -> bool
    requires { place < 65536 }
    ensures { result ≡ names_place place z }
{
    z == place as i64
}

pub(crate) fn is_below(z: i64, n: usize) -> bool
    requires { n < 65536 }
    ensures { result ≡ (le_z (pos 0) z && lt_z z (pos n)) }
{
    0 <= z && z < n as i64
}
