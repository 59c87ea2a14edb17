// The lines after the head.
ghost use Rattle.std.specs.Prelude.{◌≡◌, true, false, List, ℕ, ◌+◌, ◌*◌, ◌≤◌, ◌<◌, length, drop};
ghost use Rattle.definitions.specs.CaseFiles.{bars};
ghost use Rattle.case_lines.specs.Dues.{bytes_of_line, SizesLimited, due_awaited, InCase, lines_due, places_of};
ghost use Rattle.casefile.specs.Steps.{reading_of, Stepped, SteppedAt, left_from, call_with};
ghost use Rattle.casefile.specs.Reads.{line_from};

use crate::{columns, edges, weights};
use case_lines::{Awaited, Sizes};
use definitions::{EDGE_PLACES, Line, Refusal, RefusedAt, Rulebook};

// The line at byte `from`.
pub(crate) fn line_at(rulebook: Rulebook, bytes: &[u8], from: usize) -> Result<Line, Refusal>
    requires { from ≤ length bytes.now }
    ensures { result ≡ line_from rulebook (drop from bytes.now) }
{
    let long = rules::line_length(rulebook);
    if bytes.len() - from < long {
        return Err(Refusal::CutShort);
    }
    let to = from + long;
    lines::read_line_in(&bytes[from..to], rules::amount_width(rulebook))
}

// Takes a line that bars, where `due` is due.
fn take_bar(line: Line, sizes: Sizes, due: Awaited, table: &mut [i64]) -> Result<(), Refusal>
    requires sizes_limited { SizesLimited sizes × InCase sizes due }
    requires sizes_in_bounds { places_of sizes ≤ length table.old }
    requires line_value { bars line ≡ true }
    ensures { (lower upper : List ℕ) → Stepped sizes lower upper table.old line (due_awaited due) result
        (reading_of sizes lower upper table.new) }
{
    let d = sizes.d;
    let place = case_lines::place_of(sizes, due);
    match due {
        Awaited::VariableWeight { variable, value } => weights::bar(
            line,
            columns::is_of_kind(line, 14, false, false),
            weights::others_barred(value + 1 == d, value, place, table),
            variable,
            value,
            0,
            place,
            table,
        ),
        Awaited::EdgeEnds(_) => Err(Refusal::NotDue),
        Awaited::EdgeWeight { edge, k, l } => weights::bar(
            line,
            columns::is_of_kind(line, 15, true, false),
            weights::others_barred((k + 1 == d) & (l + 1 == d), k * d + l, place, table),
            edge,
            k,
            l,
            place,
            table,
        ),
    }
}

// Takes a line that does not bar.
fn take_plain(
    line: Line,
    sizes: Sizes,
    due: Awaited,
    lower: &mut [u8; EDGE_PLACES],
    upper: &mut [u8; EDGE_PLACES],
    table: &mut [i64],
) -> Result<(), Refusal>
    requires sizes_limited { SizesLimited sizes × InCase sizes due }
    requires sizes_in_bounds { places_of sizes ≤ length table.old }
    requires line_value { bars line ≡ false }
    ensures { Stepped sizes lower.old upper.old table.old line (due_awaited due) result
        (reading_of sizes lower.new upper.new table.new) }
{
    let rulebook = sizes.rulebook;
    let place = case_lines::place_of(sizes, due);
    match due {
        Awaited::VariableWeight { variable, value } => weights::take_weight(
            rulebook,
            line,
            columns::is_of_kind(line, 11, false, true),
            variable,
            value,
            0,
            place,
            table,
        ),
        Awaited::EdgeEnds(edge) => edges::take_ends(line, sizes, edge, lower, upper),
        Awaited::EdgeWeight { edge, k, l } => weights::take_weight(
            rulebook,
            line,
            columns::is_of_kind(line, 13, true, true),
            edge,
            k,
            l,
            place,
            table,
        ),
    }
}

fn take(
    line: Line,
    sizes: Sizes,
    due: Awaited,
    lower: &mut [u8; EDGE_PLACES],
    upper: &mut [u8; EDGE_PLACES],
    table: &mut [i64],
) -> Result<(), Refusal>
    requires sizes_limited { SizesLimited sizes × InCase sizes due }
    requires sizes_in_bounds { places_of sizes ≤ length table.old }
    ensures { Stepped sizes lower.old upper.old table.old line (due_awaited due) result
        (reading_of sizes lower.new upper.new table.new) }
{
    if weights::bars(line) {
        return take_bar(line, sizes, due, table);
    }
    take_plain(line, sizes, due, lower, upper, table)
}

fn take_at(
    bytes: &[u8],
    sizes: Sizes,
    q: usize,
    due: Awaited,
    lower: &mut [u8; EDGE_PLACES],
    upper: &mut [u8; EDGE_PLACES],
    table: &mut [i64],
) -> Result<(), Refusal>
    requires sizes_limited { SizesLimited sizes }
    requires q_bound { (q < lines_due sizes) × (bytes_of_line sizes.rulebook * (q + 1) ≤ length bytes.now) × InCase sizes due }
    requires sizes_in_bounds { places_of sizes ≤ length table.old }
    ensures { SteppedAt sizes lower.old upper.old table.old
        (drop (bytes_of_line sizes.rulebook * (q + 1)) bytes.now) (due_awaited due) result
        (reading_of sizes lower.new upper.new table.new) }
{
    let rulebook = sizes.rulebook;
    let line = line_at(rulebook, bytes, rules::line_length(rulebook) * (q + 1))?;
    take(line, sizes, due, lower, upper, table)
}

// All lines after the head.
pub(crate) fn read_lines(
    bytes: &[u8],
    sizes: Sizes,
    lower: &mut [u8; EDGE_PLACES],
    upper: &mut [u8; EDGE_PLACES],
    table: &mut [i64],
) -> Result<usize, RefusedAt>
    requires sizes_limited { SizesLimited sizes }
    requires rulebook_in_bounds { bytes_of_line sizes.rulebook ≤ length bytes.now }
    requires sizes_in_bounds { places_of sizes ≤ length table.old }
    ensures { call_with sizes.rulebook result (reading_of sizes lower.new upper.new table.new) ≡ left_from sizes
        (reading_of sizes lower.old upper.old table.old) 0 bytes.now }
{
    let total = case_lines::lines_due(sizes);
    let mut due = case_lines::first_due(sizes);
    for q in 0..total {
        if let Err(refusal) = take_at(bytes, sizes, q, due, lower, upper, table) {
            return Err(RefusedAt {
                refusal,
                line: q + 1,
            });
        }
        due = case_lines::next_due(sizes, due);
    }
    Ok(total + 1)
}
