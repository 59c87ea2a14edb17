// What the programs that execute vectors share: numbers and cases of their input, and what they print. A function that prints answers what it
// was handed, or how many; no contract can say what is written.
#![tactic(auto)]

ghost use Rattle.std.specs.Prelude.{◌≡◌, [], ◌∷◌, ◌+◌, ◌*◌, ◌≤◌, ◌<◌, ◌%◌, min, length, drop, set};
ghost use Rattle.definitions.specs.Refusals.{number};
ghost use Rattle.definitions.specs.declared.Rulebook.TheVariants.{Desk};
ghost use Rattle.definitions.specs.Rules.{rules_in, edge_places};
ghost use Rattle.calls.specs.Calls.{read_line_answer};
ghost use Rattle.definitions.specs.CaseFiles.{case_of, with_ends};
ghost use Rattle.drivers.specs.Drivers.{line_told, count_or, digest_from};
ghost use Rattle.drivers.specs.Taken.{places_after, headed_by, joined_by, nothing_held, taken_call, lent_places, lent_for, not_zero};

use definitions::{Case, EDGE_PLACES, Line, Refusal, Rulebook};

// A case that is taken line by line, and how many weights of its table are told.
#[derive(Clone, Copy)]
pub struct Held {
    pub case: Case,
    pub places: usize,
}

fn print_first(text: &[u8], n: usize) {
    if n <= text.len() {
        io::write_all(1, &text[0..n]);
    }
}

// ---- a line of a case

// Zeros where there is none.
fn told_line(read: Result<Line, Refusal>) -> Line
    ensures { result ≡ line_told read }
{
    read.unwrap_or(Line {
        kind: 0,
        a: 0,
        b: 0,
        c: 0,
        amount: 0,
    })
}

fn count(z: i64) -> usize
    ensures { result ≡ count_or 0 z }
{
    count_or(z, 0)
}

fn sized(n: usize, d: usize, m: usize) -> Case
    ensures { result ≡ case_of Desk n d m }
{
    Case {
        n,
        d,
        m,
        lower: [0; EDGE_PLACES],
        upper: [0; EDGE_PLACES],
        carry: 0,
        rulebook: Rulebook::Desk,
    }
}

// Edge e joins i and j, if the case has a place for it.
fn with_ends(case: Case, e: usize, i: u8, j: u8) -> Case
    ensures { result ≡ with_ends case e i j }
{
    if EDGE_PLACES <= e {
        return case;
    }
    let mut lower = case.lower;
    let mut upper = case.upper;
    let rulebook = case.rulebook;
    lower[e] = i;
    upper[e] = j;
    Case {
        n: case.n,
        d: case.d,
        m: case.m,
        lower,
        upper,
        carry: case.carry,
        rulebook,
    }
}

fn headed(line: Line) -> Case
    ensures { result ≡ headed_by line }
{
    let mut case = sized(count(line.a), count(line.b), count(line.c));
    case.carry = line.amount;
    case
}

fn joined(case: Case, line: Line) -> Case
    ensures { result ≡ joined_by case line }
{
    with_ends(
        case,
        count(line.a),
        byte(count(line.b)),
        byte(count(line.c)),
    )
}

// Puts a weight at the next place, if the table has one, and answers how many weights there are.
fn put(table: &mut [i64], places: usize, z: i64) -> usize
    ensures { (result ≡ places_after places (length table.old)) × (table.new ≡ set table.old places z) }
{
    if places < table.len() {
        table[places] = z;
        places + 1
    } else {
        places
    }
}

// ---- a table

// The places of so many links and pairs.
fn places_of(n: usize, d: usize, m: usize) -> usize
    requires { (n ≤ 256) × (d ≤ 8) × (m ≤ edge_places) }
    ensures { result ≡ n * d + m * (d * d) }
{
    n * d + m * (d * d)
}

// How many are not 0.
fn not_zero(weights: &[i64]) -> usize
    ensures { result ≡ not_zero weights.now }
{
    weights.iter().filter(|weight| **weight != 0).count()
}

// ---- the calls

// The number of document 01 or 02.
pub fn number_of(refusal: Refusal) -> u64
    ensures { result ≡ number refusal }
{
    u64::from(texts::number_of(refusal))
}

// The line that the text is, or zeros; a text that is not in columns is a title and is printed.
pub fn line_of(text: &[u8]) -> Line
    ensures { result ≡ line_told (read_line_answer (rules_in Desk) text.now) }
{
    let read = lines::read_line(text);
    if read.is_err() {
        io::write_all(1, text);
    }
    told_line(read)
}

// A number that is meant as a count, or `other` where it is negative.
pub fn count_or(z: i64, other: usize) -> usize
    ensures { result ≡ count_or other z }
{
    usize::try_from(z).unwrap_or(other)
}

// At most 255.
pub fn byte(n: usize) -> u8
    ensures { result ≡ min n 255 }
{
    u8::try_from(n).unwrap_or(255)
}

// No case yet.
pub fn empty() -> Held
    ensures { result ≡ nothing_held }
{
    Held {
        case: sized(0, 0, 0),
        places: 0,
    }
}

// How many places of a table are lent: those of a full case where as many weights are told as the case has places; else as many as are told, a
// wrong length.
pub fn lent(case: Case, told: usize) -> usize
    ensures { result ≡ lent_places case told }
{
    if !tables::within_limits(case) {
        return told;
    }
    if told != places_of(case.n, case.d, case.m) {
        return told;
    }
    let rulebook = case.rulebook;
    let variables = rules::variables(rulebook);
    places_of(variables, case.d, rules::edges(rulebook))
}

// The same of the case whose head begins the text; as many as are told where none does.
pub fn lent_for(text: &[u8], told: usize) -> usize
    ensures { result ≡ lent_for text.now told }
{
    if text.len() < 27 {
        return told;
    }
    lent(headed(told_line(lines::read_line(&text[..27]))), told)
}

// Takes a line of a case as it stands: kind 10 is its head, its amount the carry, and the table holds 0 then; kind 12 is the ends of an edge, any
// other a weight, which goes to the next place of the table. None of its numbers is asked.
pub fn taken(held: Held, table: &mut [i64], line: Line) -> Held
    ensures { (result ≡ (taken_call held table.old line).held) × (table.new ≡ (taken_call held table.old line).table) }
{
    let case = held.case;
    let kind = line.kind;
    if kind == 10 {
        tables::zero_from(table, 0);
        Held {
            case: headed(line),
            places: 0,
        }
    } else if kind == 12 {
        Held {
            case: joined(case, line),
            places: held.places,
        }
    } else {
        Held {
            case,
            places: put(table, held.places, line.amount),
        }
    }
}

// A checksum that goes on from an earlier one.
pub fn digest(earlier: u64, bytes: &[u8]) -> u64
    ensures { result ≡ digest_from (earlier % 1_000_000_007) bytes.now }
{
    let mut sum: u64 = earlier % 1_000_000_007;
    for byte in bytes {
        sum = (sum * 31 + u64::from(*byte)) % 1_000_000_007;
    }
    sum
}

// Prints the bytes, and answers how many.
pub fn print(text: &[u8]) -> usize
    ensures { result ≡ length text.now }
{
    io::write_all(1, text);
    text.len()
}

// Prints a space and the count, and answers the count.
pub fn print_count(n: u64) -> u64
    ensures { result ≡ n }
{
    io::write_all(1, b" ");
    io::print_decimal(1, n);
    n
}

// Prints the number, and answers it.
pub fn print_alone(z: i64) -> i64
    ensures { result ≡ z }
{
    let mut text = [0u8; 20];
    if let Ok(n) = lines::write_number(&mut text, z) {
        print_first(&text, n);
    }
    z
}

// Prints a space and the number, and answers the number.
pub fn print_number(z: i64) -> i64
    ensures { result ≡ z }
{
    io::write_all(1, b" ");
    print_alone(z);
    z
}

// Prints each number after a space, and answers how many.
pub fn print_numbers(numbers: &[i64]) -> usize
    ensures { result ≡ length numbers.now }
{
    for number in numbers {
        print_number(*number);
    }
    numbers.len()
}

// Prints the first weights of a table; where weights past them are not 0, how many they are. Answers that.
pub fn print_table(table: &[i64], shown: usize) -> usize
    ensures { result ≡ not_zero (drop shown table.now) }
{
    if table.len() <= shown {
        print_numbers(table);
        return 0;
    }
    print_numbers(&table[..shown]);
    let past = not_zero(&table[shown..]);
    if 0 < past {
        io::write_all(1, b" past");
        print_count(past as u64);
    }
    past
}

// Prints the number of each byte after a space, and answers how many.
pub fn print_bytes(bytes: &[u8]) -> usize
    ensures { result ≡ length bytes.now }
{
    for byte in bytes {
        print_count(u64::from(*byte));
    }
    bytes.len()
}

// Prints the word and the number of a refusal, and answers the number.
pub fn print_refusal(refusal: Refusal) -> u64
    ensures { result ≡ number refusal }
{
    io::write_all(1, b" refused");
    print_count(number_of(refusal))
}
