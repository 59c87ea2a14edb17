// A case and its starting weights written as a case file (document 01, "Lines").
#![tactic(auto)]

ghost use Rattle.std.specs.Prelude.{◌≡◌, false, ◌+◌, ◌*◌, ◌≤◌, ◌<◌, ◌++◌, pos, length, take, drop};
ghost use Rattle.definitions.specs.Rules.{rules_in, rules_of};
ghost use Rattle.definitions.specs.Lines.{line, line_text, line_too_wide, overwritten};
ghost use Rattle.definitions.specs.CaseFiles.{weight_line, case_text};
ghost use Rattle.calls.specs.Calls.{write_case_call};
ghost use Rattle.theory.proofs.Validity.{Valid};
ghost use Rattle.case_theory.proofs.CaseDues.{line_of};
ghost use Rattle.case_lines.specs.Dues.{bytes_of_line, SizesLimited, due_awaited, InCase, lines_due, case_with, places_of};

use case_lines::{Awaited, Sizes};
use definitions::{Case, EDGE_PLACES, Line, Refusal, Rulebook};

fn make_line(kind: usize, a: usize, b: usize, c: usize, amount: i64) -> Line
    requires { (kind < 65536) × (a < 65536) × (b < 65536) × (c < 65536) }
    ensures { result ≡ line kind (pos a) (pos b) (pos c) amount }
{
    Line {
        kind: kind as i64,
        a: a as i64,
        b: b as i64,
        c: c as i64,
        amount,
    }
}

// A weight's line, of kind `barring` if the tuple is barred.
fn weight_line(kind: usize, barring: usize, a: usize, b: usize, c: usize, weight: i64) -> Line
    requires { (kind < 65536) × (barring < 65536) × (a < 65536) × (b < 65536) × (c < 65536) }
    ensures { result ≡ weight_line kind barring (pos a) (pos b) (pos c) weight }
{
    if rules::is_barred(weight) {
        return make_line(barring, a, b, c, 0);
    }
    make_line(kind, a, b, c, weight)
}

fn head_line(sizes: Sizes) -> Line
    requires { SizesLimited sizes }
    ensures { result ≡ line 10 (pos sizes.n) (pos sizes.d) (pos sizes.m) (pos 0) }
{
    make_line(10, sizes.n, sizes.d, sizes.m, 0)
}

// The line at which `due` is due.
fn line_after<'a>(
    sizes: Sizes,
    lower: &'a [u8; EDGE_PLACES],
    upper: &'a [u8; EDGE_PLACES],
    table: &[i64],
    due: Awaited,
) -> Line
    requires sizes_limited { SizesLimited sizes }
    requires in_case { InCase sizes due }
    requires sizes_in_bounds { places_of sizes ≤ length table.now }
    ensures { result ≡ line_of (case_with sizes lower.now upper.now) table.now (due_awaited due) }
{
    let place = case_lines::place_of(sizes, due);
    match due {
        Awaited::VariableWeight { variable, value } => {
            weight_line(11, 14, variable, value, 0, table[place])
        }
        Awaited::EdgeEnds(e) => make_line(12, e, usize::from(lower[e]), usize::from(upper[e]), 0),
        Awaited::EdgeWeight { edge, k, l } => weight_line(13, 15, edge, k, l, table[place]),
    }
}

// Puts a line that fits its columns at byte `from`.
fn put_at(rulebook: Rulebook, out: &mut [u8], from: usize, line: Line)
    requires { (from + bytes_of_line rulebook ≤ length out.old) × (line_too_wide (rules_in rulebook).amount_width line ≡ false) }
    ensures { out.new ≡ take from out.old ++ (line_text (rules_in rulebook).amount_width line ++ drop (from + bytes_of_line rulebook)
        out.old) }
{
    let to = from + rules::line_length(rulebook);
    // There is room, and the numbers fit: nothing is refused.
    let _ = lines::write_line_in(&mut out[from..to], line, rules::amount_width(rulebook));
}

fn put_lines<'a>(
    sizes: Sizes,
    lower: &'a [u8; EDGE_PLACES],
    upper: &'a [u8; EDGE_PLACES],
    table: &[i64],
    out: &mut [u8],
)
    requires valid { Valid (rules_in sizes.rulebook) (case_with sizes lower.now upper.now) table.now }
    requires sizes_in_bounds { bytes_of_line sizes.rulebook * (lines_due sizes + 1) ≤ length out.old }
    ensures { out.new ≡ overwritten (case_text (rules_in sizes.rulebook) (case_with sizes lower.now upper.now)
        table.now) out.old }
{
    let rulebook = sizes.rulebook;
    let long = rules::line_length(rulebook);
    let total = case_lines::lines_due(sizes);
    put_at(rulebook, out, 0, head_line(sizes));
    let mut due = case_lines::first_due(sizes);
    for q in 0..total {
        let line = line_after(sizes, lower, upper, table, due);
        put_at(rulebook, out, long * (q + 1), line);
        due = case_lines::next_due(sizes, due);
    }
}

// The bytes of the whole file.
fn file_bytes(sizes: Sizes) -> usize
    requires { SizesLimited sizes }
    ensures { result ≡ bytes_of_line sizes.rulebook * (lines_due sizes + 1) }
{
    let rulebook = sizes.rulebook;
    rules::line_length(rulebook) * (case_lines::lines_due(sizes) + 1)
}

// ---- the call

// Writes the case and its starting weights at out's first bytes. The carry is in no file.
pub fn write_case(case: Case, table: &[i64], out: &mut [u8]) -> Result<usize, Refusal>
    ensures { (result ≡ (write_case_call (rules_of case) case table.now out.old).answer)
        × (out.new ≡ (write_case_call (rules_of case) case table.now out.old).out) }
{
    if !tables::within_limits(case) {
        return Err(Refusal::OutsideLimits);
    }
    let rulebook = case.rulebook;
    let sizes = Sizes {
        n: case.n,
        d: case.d,
        m: case.m,
        rulebook,
    };
    let bytes = file_bytes(sizes);
    let short = out.len() < bytes;
    tables::check_starting(case, table, short, false)?;
    put_lines(sizes, &case.lower, &case.upper, table, out);
    Ok(bytes)
}
