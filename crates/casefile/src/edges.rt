// The line of an edge's ends.
ghost use Rattle.std.specs.Prelude.{◌≡◌, false, not, ◌&&◌, ◌||◌, ◌<◌, pos, nat_abs, eqb, get_or, set};
ghost use Rattle.std.specs.Int.Signed.{lt_z};
ghost use Rattle.definitions.specs.Rules.{edge_places};
ghost use Rattle.definitions.specs.Refusals.{first_refusal};
ghost use Rattle.definitions.specs.Lines.{outside};
ghost use Rattle.definitions.specs.Answers.{outcome_of, unless_refused};
ghost use Rattle.definitions.specs.CaseFiles.{names as names_place};
ghost use Rattle.case_lines.specs.Dues.{SizesLimited};
ghost use Rattle.casefile.specs.Steps.{ends_tests, joined_before, repeat_test, ends_refusal};

use crate::columns;
use case_lines::Sizes;
use definitions::{EDGE_PLACES, Line, Refusal};

fn ends_out(line: Line, n: usize, e: usize) -> bool
    requires { (n < 65536) × (e < 65536) }
    ensures { result ≡ (not (names_place e line.a) || outside n line.b || outside n line.c) }
{
    !columns::names(line.a, e) | !columns::is_below(line.b, n) | !columns::is_below(line.c, n)
}

fn ascending(line: Line) -> bool
    ensures { result ≡ lt_z line.b line.c }
{
    line.b < line.c
}

fn check_ends(line: Line, n: usize, e: usize) -> Result<(), Refusal>
    requires { (n < 65536) × (e < 65536) }
    ensures { result ≡ outcome_of (first_refusal (ends_tests n e line)) }
{
    if !columns::is_of_kind(line, 12, true, false) {
        return Err(Refusal::NotDue);
    }
    if ends_out(line, n, e) {
        return Err(Refusal::OutOfRange);
    }
    if !ascending(line) {
        return Err(Refusal::EndsNotAscending);
    }
    Ok(())
}

fn has_ends<'a>(
    lower: &'a [u8; EDGE_PLACES],
    upper: &'a [u8; EDGE_PLACES],
    f: usize,
    i: u8,
    j: u8,
) -> bool
    requires { f < edge_places }
    ensures { result ≡ (eqb (get_or lower.now f 0) i && eqb (get_or upper.now f 0) j) }
{
    (lower[f] == i) & (upper[f] == j)
}

// An edge before e joins i and j. All are looked at, so that many are at once.
fn joined_before<'a>(
    lower: &'a [u8; EDGE_PLACES],
    upper: &'a [u8; EDGE_PLACES],
    e: usize,
    i: u8,
    j: u8,
) -> bool
    requires { e < edge_places }
    ensures { result ≡ joined_before lower.now upper.now e i j }
{
    let mut found = false;
    for f in 0..e {
        found |= has_ends(lower, upper, f, i, j);
    }
    found
}

// Joins i and j by edge e, if no edge before e does.
fn join(
    i: u8,
    j: u8,
    e: usize,
    lower: &mut [u8; EDGE_PLACES],
    upper: &mut [u8; EDGE_PLACES],
) -> Result<(), Refusal>
    requires { e < edge_places }
    ensures { (result ≡ outcome_of (first_refusal (repeat_test lower.old upper.old e i j)))
        × (lower.new ≡ unless_refused (first_refusal (repeat_test lower.old upper.old e i j)) (set lower.old e i)
        lower.old) × (upper.new ≡ unless_refused (first_refusal (repeat_test lower.old upper.old e i j))
        (set upper.old e j) upper.old) }
{
    if joined_before(lower, upper, e, i, j) {
        return Err(Refusal::EdgeRepeated);
    }
    lower[e] = i;
    upper[e] = j;
    Ok(())
}

fn end_of(z: i64) -> u8
    requires { (lt_z z (pos 0) ≡ false) × (nat_abs z < 256) }
    ensures { result ≡ nat_abs z }
{
    z as u8
}

pub(crate) fn take_ends(
    line: Line,
    sizes: Sizes,
    e: usize,
    lower: &mut [u8; EDGE_PLACES],
    upper: &mut [u8; EDGE_PLACES],
) -> Result<(), Refusal>
    requires sizes_limited { SizesLimited sizes }
    requires e_lt_edge_places { e < edge_places }
    ensures { (result ≡ outcome_of (ends_refusal sizes.n lower.old upper.old e line))
        × (lower.new ≡ unless_refused (ends_refusal sizes.n lower.old upper.old e line)
        (set lower.old e (nat_abs line.b)) lower.old)
        × (upper.new ≡ unless_refused (ends_refusal sizes.n lower.old upper.old e line)
        (set upper.old e (nat_abs line.c)) upper.old) }
{
    check_ends(line, sizes.n, e)?;
    join(end_of(line.b), end_of(line.c), e, lower, upper)
}
