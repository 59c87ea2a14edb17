// Raise lines of a press or a void line that are taken together, its last excepted.
ghost use Rattle.std.specs.Prelude.{◌≡◌, not, false, ℕ, ◌+◌, ◌-◌, ◌≤◌, ◌<◌, T, length, drop, Some};
ghost use Rattle.definitions.specs.Rules.{rules_in, rules_of, scope_places};
ghost use Rattle.definitions.specs.Case.{scope_count};
ghost use Rattle.definitions.specs.Lines.{read_line, line_length};
ghost use Rattle.definitions.specs.RoundLines.{raise_line};
ghost use Rattle.tables.specs.Scopes.{Limited};
ghost use Rattle.lines.specs.AtWidth.{width_out};
ghost use Rattle.checker.specs.Checker.{record_out};
ghost use Rattle.checker.specs.Taken.{good_replay, bytes_per_line};
ghost use Rattle.checker.specs.Raising.{last_under, held_progress, raising_progress, Onward};

use crate::records::with_due;
use crate::{Due, Place, Progress, Raises, Target};
use definitions::{Case, Rulebook, SCOPE_PLACES};

// The scope of a raise line, or more than any scope's number.
fn scope_or_none(bytes: &[u8], width: usize) -> usize
    requires { width_out width ≡ false }
    ensures { result < scope_places → read_line width bytes.now ≡ Some (raise_line result) }
{
    lines::raised_scope(bytes, width).unwrap_or(SCOPE_PLACES)
}

// Takes raise lines from the front of a block while more than one is left and they are in order.
fn raise_lines(
    rulebook: Rulebook,
    raised: &mut [u8],
    scopes: usize,
    variable: usize,
    left: usize,
    next: usize,
    bytes: &[u8],
    from: usize,
) -> Raises
    requires { (length raised.old ≡ scope_places) × (scopes ≤ scope_places) × (from ≤ length bytes.now) }
    ensures left_le_left { (result.left ≤ left) × (left + from ≤ result.left + result.from) × (result.from ≤ length bytes.now) }
    ensures onward { (q : Progress) (target : Target) (n : ℕ)
        → Onward (line_length (rules_in rulebook).amount_width) scopes n (raising_progress q variable target left next) raised.old
        (drop from bytes.now) (n + (left - result.left)) (raising_progress q variable target result.left result.next) raised.new
        (drop result.from bytes.now) }
{
    let line = rules::line_length(rulebook);
    let width = rules::amount_width(rulebook);
    let mut more = left;
    let mut above = next;
    let mut at = from;
    // Not a for: it runs until one raise line is left or a line is not in order.
    while 1 < more {
        if bytes.len() - at < line {
            break;
        }
        let to = at + line;
        let x = scope_or_none(&bytes[at..to], width);
        if !((x < scopes) & (above <= x) & (x != variable)) {
            break;
        }
        raised[x] = 1;
        more -= 1;
        above = x + 1;
        at = to;
    }
    Raises {
        left: more,
        next: above,
        from: at,
    }
}

fn next_of(last: Option<usize>) -> usize
    requires { (x : ℕ) → last ≡ Some x → x < scope_places }
    ensures { last_under result ≡ last }
{
    match last {
        None => 0,
        Some(x) => x + 1,
    }
}

fn last_of(next: usize) -> Option<usize>
    ensures { result ≡ last_under next }
{
    if next == 0 {
        return None;
    }
    Some(next - 1)
}

// The raise lines of a press or a void line begun, its last excepted.
fn held_on(
    case: Case,
    raised: &mut [u8],
    progress: Progress,
    variable: usize,
    target: Target,
    left: usize,
    last: Option<usize>,
    bytes: &[u8],
    from: usize,
    done: usize,
) -> Place
    requires limited { Limited case }
    requires raised_len { (length raised.old ≡ scope_places) × (done ≤ from) × (from ≤ length bytes.now)
        × T (not (record_out (rules_of case) case (good_replay (held_progress progress variable target left last) raised.old))) }
    ensures done_le_from { (result.done ≤ result.from) × (from ≤ result.from) × (result.from ≤ length bytes.now) }
    ensures onward { Onward (bytes_per_line case) (scope_count case) done (held_progress progress variable target left last) raised.old
        (drop from bytes.now) result.done result.progress raised.new (drop result.from bytes.now) }
{
    let rulebook = case.rulebook;
    let scopes = case.n + case.m;
    let next = next_of(last);
    let rest = raise_lines(rulebook, raised, scopes, variable, left, next, bytes, from);
    let taken = with_due(
        progress,
        Due::Raise {
            variable,
            target,
            left: rest.left,
            last: last_of(rest.next),
        },
    );
    let after = taken.progress;
    Place {
        progress: after,
        from: rest.from,
        done: done + (left - rest.left),
    }
}

pub(crate) fn raise_on(
    case: Case,
    raised: &mut [u8],
    progress: Progress,
    bytes: &[u8],
    from: usize,
    done: usize,
) -> Place
    requires limited { Limited case }
    requires raised_len { (length raised.old ≡ scope_places) × (done ≤ from) × (from ≤ length bytes.now)
        × T (not (record_out (rules_of case) case (good_replay progress raised.old))) }
    ensures done_le_from { (result.done ≤ result.from) × (from ≤ result.from) × (result.from ≤ length bytes.now) }
    ensures onward { Onward (bytes_per_line case) (scope_count case) done progress raised.old (drop from bytes.now) result.done
        result.progress raised.new (drop result.from bytes.now) }
{
    let due = progress.due;
    match due {
        Due::MoveOrBound => Place {
            progress,
            from,
            done,
        },
        Due::Nothing => Place {
            progress,
            from,
            done,
        },
        Due::Raise {
            variable,
            target,
            left,
            last,
        } => held_on(
            case, raised, progress, variable, target, left, last, bytes, from, done,
        ),
    }
}
