// What a round of the engine is asked before it is made, and the lines of a round of one press (document 01, "The engine's round") and of a void
// line (document 02, change 2), written from an output's first byte.
#![tactic(auto)]

ghost use Rattle.std.specs.Prelude.{◌≡◌, false, not, ◌+◌, ◌*◌, ◌^◌, ◌≤◌, ◌<◌, T, ltb, pos, length};
ghost use Rattle.integers.specs.Words.{any};
ghost use Rattle.definitions.specs.Rules.{rules_of};
ghost use Rattle.definitions.specs.Case.{scope_count};
ghost use Rattle.definitions.specs.Lines.{line_text, line_length, line_too_wide, overwritten};
ghost use Rattle.definitions.specs.Answers.{outcome_of};
ghost use Rattle.definitions.specs.RoundLines.{raise_line, bound_line};
ghost use Rattle.definitions.specs.Engine.{round_bytes};
ghost use Rattle.lines.specs.AtWidth.{width_out, line_out};
ghost use Rattle.tables.specs.Scopes.{Limited};
ghost use Rattle.round_lines.specs.Press.{raised_from, raised_below, entry_lines, first_line, last_lines, raise_texts, line_texts, put_text, Put};
ghost use Rattle.round_lines.specs.Press.{put_call, lines_call, checked_call, write_all_call, write_void_call};
ghost use Rattle.round_lines.specs.Asked.{round_refusal};

use definitions::{Case, Line, Refusal};

// A line of the widest amount column.
const LINE_PLACES: usize = 33;

// What lines are written of: a press, whose lines end with a bound line, or a void line.
#[derive(Clone, Copy)]
enum Entry {
    Press { amount: i64, bound: i64 },
    Void,
}

fn whole(x: usize) -> i64
    requires { x < 10 ^ 4 }
    ensures { result ≡ pos x }
{
    x as i64
}

// Puts the line at byte `at`, and answers where it ends.
fn put_line(out: &mut [u8], at: usize, line: Line, width: usize) -> usize
    requires { (at + line_length width ≤ length out.old) × T (not (line_out width line)) }
    ensures { (result ≡ at + line_length width) × Put at (line_text width line) (at + line_length width) out.old out.new }
{
    let to = at + 15 + width;
    // There is room, and the numbers fit: nothing is refused.
    let _ = lines::write_line_in(&mut out[at..to], line, width);
    to
}

fn count_raised(raised: &[u8]) -> usize
    ensures { result ≡ length (raised_below raised.now (length raised.now)) }
{
    raised.iter().filter(|&&mark| mark != 0).count()
}

fn raise_line(x: usize) -> Line
    requires { x < 10 ^ 4 }
    ensures { result ≡ raise_line x }
{
    Line {
        kind: 3,
        a: whole(x),
        b: 0,
        c: 0,
        amount: 0,
    }
}

fn counted_line(kind: i64, variable: usize, count: usize, amount: i64) -> Line
    requires { (variable < 10 ^ 4) × (count < 10 ^ 4) }
    ensures { result ≡ record { kind = kind; a = pos variable; b = pos count; c = pos 0; amount = amount } }
{
    Line {
        kind,
        a: whole(variable),
        b: whole(count),
        c: 0,
        amount,
    }
}

fn first_line(entry: Entry, variable: usize, count: usize) -> Line
    requires { (variable < 10 ^ 4) × (count < 10 ^ 4) }
    ensures { result ≡ first_line entry variable count }
{
    match entry {
        Entry::Press { amount, bound: _ } => counted_line(2, variable, count, amount),
        Entry::Void => counted_line(5, variable, count, 0),
    }
}

fn bound_line(bound: i64) -> Line
    ensures { result ≡ bound_line bound }
{
    Line {
        kind: 4,
        a: 0,
        b: 0,
        c: 0,
        amount: bound,
    }
}

// The raise line of scope x, if it is raised.
fn put_raise(out: &mut [u8], at: usize, raised: &[u8], x: usize, width: usize) -> usize
    requires x_in_bounds { (x < length raised.now) × (x < 10 ^ 4) × T (not (width_out width)) }
    requires x_in_bounds_2 { at + line_length width * length (raised_from raised.now x 1) ≤ length out.old }
    ensures value { result ≡ at + line_length width * length (raised_from raised.now x 1) }
    ensures put { Put at (raise_texts width (raised_from raised.now x 1)) result out.old out.new }
{
    if raised[x] == 0 {
        return at;
    }
    put_line(out, at, raise_line(x), width)
}

fn put_raises(out: &mut [u8], from: usize, raised: &[u8], width: usize) -> usize
    requires few { (length raised.now < 10 ^ 4) × T (not (width_out width)) }
    requires in_bounds { from + line_length width * length (raised_below raised.now (length raised.now)) ≤ length out.old }
    ensures value { result ≡ from + line_length width * length (raised_below raised.now (length raised.now)) }
    ensures put { Put from (raise_texts width (raised_below raised.now (length raised.now))) result out.old out.new }
{
    let mut at = from;
    for x in 0..raised.len() {
        at = put_raise(out, at, raised, x, width);
    }
    at
}

fn put_last(out: &mut [u8], at: usize, entry: Entry, width: usize) -> usize
    requires in_bounds { at + line_length width * length (last_lines entry) ≤ length out.old }
    requires t { T (not (width_out width)) × (any (line_too_wide width) (last_lines entry) ≡ false) }
    ensures { Put at (line_texts width (last_lines entry)) result out.old out.new }
{
    match entry {
        Entry::Press { amount: _, bound } => put_line(out, at, bound_line(bound), width),
        Entry::Void => at,
    }
}

// The lines from the first byte, and how many bytes they are.
fn put_lines(out: &mut [u8], raised: &[u8], first: Line, entry: Entry, width: usize) -> usize
    requires few { length raised.now < 10 ^ 4 }
    requires in_bounds { line_length width * (length (raised_below raised.now (length raised.now)) + 1 + length (last_lines entry)) ≤ length out.old }
    requires t { T (not (line_out width first)) × (any (line_too_wide width) (last_lines entry) ≡ false) }
    ensures value { result ≡ length (put_text width first (last_lines entry) (raised_below raised.now (length raised.now))) }
    ensures out_after { out.new ≡ overwritten (put_text width first (last_lines entry) (raised_below raised.now (length raised.now))) out.old }
{
    let next = put_line(out, 0, first, width);
    let end = put_raises(out, next, raised, width);
    put_last(out, end, entry, width)
}

// ---- what is asked

fn too_wide(line: Line, width: usize) -> bool
    requires { T (not (width_out width)) }
    ensures { result ≡ line_too_wide width line }
{
    let mut text = [0u8; LINE_PLACES];
    lines::write_line_in(&mut text, line, width).is_err()
}

fn last_too_wide(entry: Entry, width: usize) -> bool
    requires { T (not (width_out width)) }
    ensures { result ≡ any (line_too_wide width) (last_lines entry) }
{
    match entry {
        Entry::Press { amount: _, bound } => too_wide(bound_line(bound), width),
        Entry::Void => false,
    }
}

// The lines, where there is room for them, unless a number is too wide.
fn write_lines(
    out: &mut [u8],
    raised: &[u8],
    first: Line,
    entry: Entry,
    width: usize,
) -> Result<usize, Refusal>
    requires few { (length raised.now < 10 ^ 4) × T (not (width_out width)) }
    requires in_bounds { line_length width * (length (raised_below raised.now (length raised.now)) + 1 + length (last_lines entry)) ≤ length out.old }
    ensures value { result ≡ (put_call width first (last_lines entry) (raised_below raised.now (length raised.now)) out.old).answer }
    ensures out_after { out.new ≡ (put_call width first (last_lines entry) (raised_below raised.now (length raised.now)) out.old).out }
{
    if too_wide(first, width) {
        return Err(Refusal::OutOfRange);
    }
    if last_too_wide(entry, width) {
        return Err(Refusal::OutOfRange);
    }
    Ok(put_lines(out, raised, first, entry, width))
}

fn amount_width(case: Case) -> usize
    ensures { result ≡ (rules_of case).amount_width }
{
    let rulebook = case.rulebook;
    rules::amount_width(rulebook)
}

// How many lines, of so many raised scopes.
fn line_count(entry: Entry, count: usize) -> usize
    requires { count < 10 ^ 4 }
    ensures { result ≡ count + 1 + length (last_lines entry) }
{
    match entry {
        Entry::Press {
            amount: _,
            bound: _,
        } => count + 2,
        Entry::Void => count + 1,
    }
}

// The bytes of so many lines.
fn lines_length(case: Case, count: usize) -> usize
    requires { Limited case × (count ≤ scope_count case + 2) }
    ensures { result ≡ line_length (rules_of case).amount_width * count }
{
    (15 + amount_width(case)) * count
}

// The lines of a case that was checked.
fn write_checked(
    case: Case,
    out: &mut [u8],
    raised: &[u8],
    variable: usize,
    entry: Entry,
) -> Result<usize, Refusal>
    requires { Limited case × (scope_count case ≤ length raised.now) }
    ensures value { result ≡ (checked_call (rules_of case) case out.old variable
        (entry_lines entry variable (raised_below raised.now (scope_count case)))).answer }
    ensures out_after { out.new ≡ (checked_call (rules_of case) case out.old variable
        (entry_lines entry variable (raised_below raised.now (scope_count case)))).out }
{
    let scopes = &raised[..case.n + case.m];
    let count = count_raised(scopes);
    if out.len() < lines_length(case, line_count(entry, count)) {
        return Err(Refusal::WrongLength);
    }
    if case.n <= variable {
        return Err(Refusal::OutOfRange);
    }
    let first = first_line(entry, variable, count);
    write_lines(out, scopes, first, entry, amount_width(case))
}

fn write_entry(
    case: Case,
    out: &mut [u8],
    raised: &[u8],
    variable: usize,
    entry: Entry,
) -> Result<usize, Refusal>
    ensures value { result ≡ (lines_call (rules_of case) case out.old variable
        (entry_lines entry variable (raised_below raised.now (scope_count case))) raised.now).answer }
    ensures out_after { out.new ≡ (lines_call (rules_of case) case out.old variable
        (entry_lines entry variable (raised_below raised.now (scope_count case))) raised.now).out }
{
    if !tables::within_limits(case) {
        return Err(Refusal::OutsideLimits);
    }
    if raised.len() < case.n + case.m {
        return Err(Refusal::WrongLength);
    }
    write_checked(case, out, raised, variable, entry)
}

// An output is too short for a round.
fn too_short(case: Case, length: usize) -> bool
    requires { Limited case }
    ensures { result ≡ ltb length (round_bytes (rules_of case) case) }
{
    let rulebook = case.rulebook;
    length < rules::line_length(rulebook) * (case.n + case.m + 2 * case.d + 1)
}

// Numbers 3 to 8 and 15 of a case, its working weights and an output of so many bytes, 4 also where a round may need more; 5 also where `outside`
// says so.
pub fn check_round(case: Case, table: &[i64], length: usize, outside: bool) -> Result<(), Refusal>
    ensures { result ≡ outcome_of (round_refusal (rules_of case) case table.now length outside) }
{
    if !tables::within_limits(case) {
        return Err(Refusal::OutsideLimits);
    }
    tables::check_working(case, table, too_short(case, length), outside)
}

// The lines of a round that presses `variable` by `amount`, raises each scope of the case whose byte in `raised` is not 0, and says `bound`:
// from the output's first byte, and how many bytes they are. Asks 3, 4, 5 of the arguments, and 5 of the lines' numbers; refused, nothing is
// written.
pub fn write_all(
    case: Case,
    out: &mut [u8],
    raised: &[u8],
    variable: usize,
    amount: i64,
    bound: i64,
) -> Result<usize, Refusal>
    ensures value { result ≡ (write_all_call (rules_of case) case out.old raised.now variable amount bound).answer }
    ensures out_after { out.new ≡ (write_all_call (rules_of case) case out.old raised.now variable amount bound).out }
{
    write_entry(case, out, raised, variable, Entry::Press { amount, bound })
}

// As `write_all`, the lines of a void line of `variable`, which has no bound line.
pub fn write_void(
    case: Case,
    out: &mut [u8],
    raised: &[u8],
    variable: usize,
) -> Result<usize, Refusal>
    ensures value { result ≡ (write_void_call (rules_of case) case out.old raised.now variable).answer }
    ensures out_after { out.new ≡ (write_void_call (rules_of case) case out.old raised.now variable).out }
{
    write_entry(case, out, raised, variable, Entry::Void)
}
