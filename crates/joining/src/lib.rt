// The lines of a join (document 02, change 5): what is asked of one, of the weights that wait, and where they wait. Inner functions, for other
// crates.
#![tactic(auto)]

mod columns;
mod ends;
mod room;
mod waiting;
mod weights;

ghost use Rattle.std.specs.Prelude.{◌≡◌, [], ◌∷◌, length};
ghost use Rattle.definitions.specs.declared.Refusal.TheVariants.{NotDue};
ghost use Rattle.definitions.specs.Rules.{rules_of};
ghost use Rattle.definitions.specs.Refusals.{◌when◌, first_refusal};
ghost use Rattle.definitions.specs.Answers.{outcome_of};
ghost use Rattle.definitions.specs.Lines.{not_due};
ghost use Rattle.logs.specs.Join.{join_tests};
ghost use Rattle.logs.specs.Waiting.{is_last_due, weight_waits, waiting_tests};
ghost use Rattle.case_lines.specs.Dues.{due_awaited, InCase};
ghost use Rattle.joining.specs.Joining.{line_refusal, starting_with, lower_stored, lower_with, without_waiting};
ghost use Rattle.joining.specs.Steps.{small_sizes, Placed, rest_tests};

use case_lines::Awaited;
use definitions::{Case, Line, Refusal};
use growing::Ends;

// The numbers of a line of a kind that is due, which has a place.
fn check_placed<'a>(
    case: Case,
    starting: &'a [i64],
    edges: usize,
    due: Awaited,
    lower: &'a Ends,
    line: Line,
) -> Result<(), Refusal>
    requires placed { Placed case (length starting.now) edges }
    requires in_case { InCase (small_sizes case edges) due }
    ensures { result ≡ outcome_of (first_refusal (rest_tests case starting.now edges (due_awaited due) lower.now line)) }
{
    match due {
        Awaited::VariableWeight { variable, value } => weights::check_value(
            case, starting, edges, variable, value, line,
        ),
        Awaited::EdgeEnds(edge) => ends::check_ends(case, starting.len(), edges, lower, edge, line),
        Awaited::EdgeWeight { edge, k, l } => weights::check_tuple(
            case, starting, edges, edge, k, l, line,
        ),
    }
}

fn put_placed(
    case: Case,
    starting: &mut [i64],
    edges: usize,
    due: Awaited,
    lower: &mut Ends,
    line: Line,
)
    requires placed { Placed case (length starting.old) edges }
    requires in_case { InCase (small_sizes case edges) due }
    ensures { (starting.new ≡ weight_waits case starting.old edges (due_awaited due) line)
        × (lower.new ≡ lower_stored (due_awaited due) line lower.old) }
{
    let place = room::waiting_place(case, edges, due);
    match due {
        Awaited::VariableWeight {
            variable: _,
            value: _,
        } => weights::wait(starting, place, line),
        Awaited::EdgeEnds(edge) => ends::keep(lower, edge, line),
        Awaited::EdgeWeight {
            edge: _,
            k: _,
            l: _,
        } => weights::wait(starting, place, line),
    }
}

// The numbers of a join's first line.
pub fn check_join(case: Case, line: Line) -> Result<(), Refusal>
    ensures { result ≡ outcome_of (first_refusal (NotDue when (not_due (rules_of case) (8 ∷ []) line) ∷ join_tests (rules_of case) case line)) }
{
    if !columns::is_join(line) {
        return Err(Refusal::NotDue);
    }
    if room::too_many(case, line.a) {
        return Err(Refusal::OutsideLimits);
    }
    if columns::is_below(line.a, case.n + 1) {
        return Ok(());
    }
    Err(Refusal::OutOfRange)
}

// Numbers 3 to 8 and 15 of what is handed over in the middle of a join; `out`: number 5 applies to the record.
pub fn check_waiting<'a>(
    case: Case,
    starting: &'a [i64],
    table: &'a [i64],
    edges: usize,
    due: Awaited,
    lower: &'a Ends,
    out: bool,
) -> Result<(), Refusal>
    ensures { result ≡ outcome_of (first_refusal
        (waiting_tests (rules_of case) case starting.now table.now edges (due_awaited due) lower.now out)) }
{
    if !room::can_grow(case, edges) {
        return Err(Refusal::OutsideLimits);
    }
    if !tables::is_sized(case, table.len()) {
        return Err(Refusal::WrongLength);
    }
    if !tables::is_sized(case, starting.len()) {
        return Err(Refusal::WrongLength);
    }
    waiting::check_lent(case, starting, table, edges, due, lower, out)
}

// The numbers of a case line of a join.
pub fn check_line<'a>(
    case: Case,
    starting: &'a [i64],
    edges: usize,
    due: Awaited,
    lower: &'a Ends,
    line: Line,
) -> Result<(), Refusal>
    ensures { result ≡ outcome_of (line_refusal case starting.now edges (due_awaited due) lower.now line) }
{
    if !columns::is_due(due, line) {
        return Err(Refusal::NotDue);
    }
    if room::has_place(case, starting.len(), edges, due) {
        return check_placed(case, starting, edges, due, lower, line);
    }
    Ok(())
}

// Takes a case line of a join: its weight waits, or its lower end is kept.
pub fn put_line(
    case: Case,
    starting: &mut [i64],
    edges: usize,
    due: Awaited,
    lower: &mut Ends,
    line: Line,
)
    ensures { (starting.new ≡ starting_with case starting.old edges (due_awaited due) line)
        × (lower.new ≡ lower_with case (length starting.old) edges (due_awaited due) lower.old line) }
{
    if room::has_place(case, starting.len(), edges, due) {
        put_placed(case, starting, edges, due, lower, line);
    }
}

// The line due is the join's last.
pub fn is_last(case: Case, edges: usize, due: Awaited) -> bool
    ensures { result ≡ is_last_due case edges (due_awaited due) }
{
    let d = case.d;
    match due {
        Awaited::VariableWeight { variable: _, value } => (edges == 0) & room::is_next(value, d),
        Awaited::EdgeEnds(_) => false,
        Awaited::EdgeWeight { edge, k, l } => {
            room::is_next(edge, edges) & room::is_next(k, d) & room::is_next(l, d)
        }
    }
}

// Sets the weights that wait to 0.
pub fn drop_waiting(case: Case, starting: &mut [i64])
    ensures { starting.new ≡ without_waiting case starting.old }
{
    if tables::within_limits(case) {
        tables::zero_from(starting, room::own_length(case));
    }
}
