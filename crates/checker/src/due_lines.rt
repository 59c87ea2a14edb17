// Number 2: the kinds of lines that are due.
ghost use Rattle.std.specs.Prelude.{◌≡◌, not, [], ◌∷◌};
ghost use Rattle.definitions.specs.declared.Rulebook.{Rulebook};
ghost use Rattle.definitions.specs.Rules.{rules_in};
ghost use Rattle.definitions.specs.Lines.{not_due};
ghost use Rattle.checker.specs.Checker.{due_kinds};

use crate::Due;
use definitions::Line;

fn move_due(line: Line) -> bool
    ensures { (b : Rulebook) → result ≡ not (not_due (rules_in b) (1 ∷ 2 ∷ 4 ∷ 5 ∷ []) line) }
{
    if line.kind == 1 {
        return true;
    }
    if line.kind == 2 {
        return line.c == 0;
    }
    if line.kind == 4 {
        return (line.a == 0) & (line.b == 0) & (line.c == 0);
    }
    if line.kind == 5 {
        return (line.c == 0) & (line.amount == 0);
    }
    false
}

fn raise_due(line: Line) -> bool
    ensures { (b : Rulebook) → result ≡ not (not_due (rules_in b) (3 ∷ []) line) }
{
    (line.kind == 3) & (line.b == 0) & (line.c == 0) & (line.amount == 0)
}

pub(crate) fn is_due(due: Due, line: Line) -> bool
    ensures { (b : Rulebook) → result ≡ not (not_due (rules_in b) (due_kinds due) line) }
{
    match due {
        Due::MoveOrBound => move_due(line),
        Due::Raise {
            variable: _,
            target: _,
            left: _,
            last: _,
        } => raise_due(line),
        Due::Nothing => false,
    }
}
