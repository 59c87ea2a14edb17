// Case files read into a lent table (document 01, "Lines"), with 0 past the places of the case (document 02, change 5).
#![tactic(auto)]

mod body;
mod columns;
mod edges;
mod head;
mod past;
mod weights;

ghost use Rattle.std.specs.Prelude.{◌≡◌, ◌≤◌, List, ℤ, length, drop};
ghost use Rattle.definitions.specs.declared.Rulebook.TheVariants.{Desk};
ghost use Rattle.definitions.specs.Rules.{rules_in};
ghost use Rattle.definitions.specs.Answers.{outcome_of};
ghost use Rattle.definitions.specs.CaseFiles.{case_size, case_refused, case_taken, read_lines, read_case, read_lines_alone, read_case_alone, rest_refusal};
ghost use Rattle.case_lines.specs.Dues.{bytes_of_line, SizesLimited, places_of};
ghost use Rattle.casefile.specs.Steps.{reading_of, left_from, no_ends};

use case_lines::Sizes;
use definitions::{Case, CaseRead, CaseSize, EDGE_PLACES, Refusal, RefusedAt, Rulebook};

// ---- a case

fn file_refused(rulebook: Rulebook, refusal: Refusal, line: usize) -> CaseRead
    ensures { (w : List ℤ) → result ≡ (case_refused rulebook refusal line w).read }
{
    let answer = Err(RefusedAt { refusal, line });
    let lower = [0u8; EDGE_PLACES];
    let upper = [0u8; EDGE_PLACES];
    let case = Case {
        n: 0,
        d: 0,
        m: 0,
        lower,
        upper,
        carry: 0,
        rulebook,
    };
    CaseRead { answer, case }
}

fn file_accepted(
    lines: usize,
    sizes: Sizes,
    lower: [u8; EDGE_PLACES],
    upper: [u8; EDGE_PLACES],
) -> CaseRead
    ensures { (w : List ℤ) → result ≡ (case_taken (reading_of sizes lower upper w) lines).read }
{
    let answer = Ok(lines);
    let rulebook = sizes.rulebook;
    let case = Case {
        n: sizes.n,
        d: sizes.d,
        m: sizes.m,
        lower,
        upper,
        carry: 0,
        rulebook,
    };
    CaseRead { answer, case }
}

fn read_body(bytes: &[u8], sizes: Sizes, table: &mut [i64]) -> CaseRead
    requires sizes_limited { SizesLimited sizes }
    requires rulebook_in_bounds { bytes_of_line sizes.rulebook ≤ length bytes.now }
    requires sizes_in_bounds { places_of sizes ≤ length table.old }
    ensures { (result ≡ (left_from sizes (reading_of sizes no_ends no_ends table.old) 0 bytes.now).read)
        × (table.new ≡ (left_from sizes (reading_of sizes no_ends no_ends table.old) 0 bytes.now).table) }
{
    let rulebook = sizes.rulebook;
    let mut lower = [0u8; EDGE_PLACES];
    let mut upper = [0u8; EDGE_PLACES];
    match body::read_lines(bytes, sizes, &mut lower, &mut upper, table) {
        Err(at) => file_refused(rulebook, at.refusal, at.line),
        Ok(lines) => file_accepted(lines, sizes, lower, upper),
    }
}

// ---- a case alone

// What is asked of the bytes after a case.
fn check_rest(rulebook: Rulebook, bytes: &[u8], from: usize) -> Result<(), Refusal>
    requires { from ≤ length bytes.now }
    ensures { result ≡ outcome_of (rest_refusal (rules_in rulebook) (drop from bytes.now)) }
{
    if from == bytes.len() {
        return Ok(());
    }
    body::line_at(rulebook, bytes, from)?;
    Err(Refusal::NotDue)
}

// ---- the calls under any rules

fn case_size_in(rulebook: Rulebook, bytes: &[u8]) -> Result<CaseSize, Refusal>
    ensures { result ≡ case_size rulebook bytes.now }
{
    let line = body::line_at(rulebook, bytes, 0)?;
    head::head_answer(rulebook, line)
}

// The table past the places of the case is left.
fn read_lines_in(rulebook: Rulebook, bytes: &[u8], table: &mut [i64]) -> CaseRead
    ensures { (result ≡ (read_lines rulebook bytes.now table.old).read)
        × (table.new ≡ (read_lines rulebook bytes.now table.old).table) }
{
    match case_size_in(rulebook, bytes) {
        Err(refusal) => file_refused(rulebook, refusal, 0),
        Ok(size) => {
            if table.len() != size.table {
                return file_refused(rulebook, Refusal::WrongLength, 0);
            }
            let sizes = Sizes {
                n: size.n,
                d: size.d,
                m: size.m,
                rulebook,
            };
            read_body(bytes, sizes, table)
        }
    }
}

fn read_lines_alone_in(rulebook: Rulebook, bytes: &[u8], table: &mut [i64]) -> CaseRead
    ensures { (result ≡ (read_lines_alone rulebook bytes.now table.old).read)
        × (table.new ≡ (read_lines_alone rulebook bytes.now table.old).table) }
{
    let read = read_lines_in(rulebook, bytes, table);
    let Ok(lines) = read.answer else {
        return read;
    };
    match check_rest(rulebook, bytes, lines * rules::line_length(rulebook)) {
        Ok(()) => read,
        Err(refusal) => file_refused(rulebook, refusal, lines),
    }
}

fn read_case_in(rulebook: Rulebook, bytes: &[u8], table: &mut [i64]) -> CaseRead
    ensures { (result ≡ (read_case rulebook bytes.now table.old).read)
        × (table.new ≡ (read_case rulebook bytes.now table.old).table) }
{
    let read = read_lines_in(rulebook, bytes, table);
    past::zero_past(read, table);
    read
}

fn read_case_alone_in(rulebook: Rulebook, bytes: &[u8], table: &mut [i64]) -> CaseRead
    ensures { (result ≡ (read_case_alone rulebook bytes.now table.old).read)
        × (table.new ≡ (read_case_alone rulebook bytes.now table.old).table) }
{
    let read = read_lines_alone_in(rulebook, bytes, table);
    past::zero_past(read, table);
    read
}

// ---- the standard calls

pub fn case_size(bytes: &[u8]) -> Result<CaseSize, Refusal>
    ensures { result ≡ case_size Desk bytes.now }
{
    case_size_in(Rulebook::Desk, bytes)
}

pub fn read_case(bytes: &[u8], table: &mut [i64]) -> CaseRead
    ensures { (result ≡ (read_case Desk bytes.now table.old).read)
        × (table.new ≡ (read_case Desk bytes.now table.old).table) }
{
    read_case_in(Rulebook::Desk, bytes, table)
}

// A case with nothing after it.
pub fn read_case_alone(bytes: &[u8], table: &mut [i64]) -> CaseRead
    ensures { (result ≡ (read_case_alone Desk bytes.now table.old).read)
        × (table.new ≡ (read_case_alone Desk bytes.now table.old).table) }
{
    read_case_alone_in(Rulebook::Desk, bytes, table)
}
