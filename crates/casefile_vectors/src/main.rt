// Case files read and written. Standard input holds vectors: a line that names what is tried, a line in columns whose amount is the number of
// bytes that follow, and these bytes.
// Kind 0: the bytes are asked for their size, read as the front of a longer input and read alone, into a table of a places that hold 7; what
// was read alone is written again.
// Kind 1: a case of a links, one value and b pairs is written to c dots, with weights 1, 2, 3, 4 and one more; the bytes are a line with
// the ends of pair 0, the ends of pair 1 and that weight.
// Kind 2: a case of three links in a row is written to c dots, from a table of a places with weights 1, 2, 3, 4 and 5; the bytes are a line
// with 0, a place, what it is to hold, 0 and the carry.
// After them the largest case goes there and back. The file `stdout` was worked out from documents 01 and 02; on files whose table has the
// right length the peer gives the same number and line.
#![tactic(auto)]

ghost use Rattle.std.specs.Prelude.{◌<◌};

use definitions::{Case, CaseRead, CaseSize, EDGE_PLACES, Line, RefusedAt, Rulebook};

// ---- what is printed

// Where the numbers at the end that are all z begin.
fn run_from(table: &[i64], z: i64) -> usize {
    for i in (0..table.len()).rev() {
        if table[i] != z {
            return i + 1;
        }
    }
    0
}

// The table, of which equal numbers at the end are counted.
fn print_weights(table: &[i64]) {
    let n = table.len();
    drivers::print(b":");
    if 0 < n {
        let z = table[n - 1];
        let from = run_from(table, z);
        if from <= n {
            drivers::print_numbers(&table[0..from]);
            drivers::print(b" and");
            drivers::print_count((n - from) as u64);
            drivers::print(b" of");
            drivers::print_number(z);
        }
    }
    drivers::print(b"\n");
}

// How many bytes, and their checksum.
fn print_bytes(bytes: &[u8]) {
    drivers::print_count(bytes.len() as u64);
    drivers::print_count(drivers::digest(0, bytes));
    drivers::print(b"\n");
}

// ---- a vector

fn size(bytes: &[u8]) {
    drivers::print(b"  size");
    match casefile::case_size(bytes) {
        Ok(CaseSize { n, d, m, table }) => {
            drivers::print_count(n as u64);
            drivers::print_count(d as u64);
            drivers::print_count(m as u64);
            drivers::print_count(table as u64);
        }
        Err(refusal) => {
            drivers::print_refusal(refusal);
        }
    }
    drivers::print(b"\n");
}

fn answer(read: CaseRead) {
    match read.answer {
        Ok(lines) => {
            drivers::print(b" read");
            drivers::print_count(lines as u64);
        }
        Err(RefusedAt { refusal, line }) => {
            drivers::print_refusal(refusal);
            drivers::print_count(line as u64);
        }
    }
}

fn front(bytes: &[u8], table: &mut [i64]) {
    drivers::print(b"  front");
    answer(casefile::read_case(bytes, table));
    print_weights(table);
}

// How many bytes are written, and all of the output after it.
fn write(case: Case, table: &[i64], out: &mut [u8]) {
    match case_writer::write_case(case, table, out) {
        Ok(n) => {
            drivers::print(b" written");
            drivers::print_count(n as u64);
        }
        Err(refusal) => {
            drivers::print_refusal(refusal);
        }
    }
    drivers::print(b" of");
    print_bytes(out);
}

// The bytes, and the case of them that was read alone, written to as many.
fn again(bytes: &[u8], case: Case, table: &[i64]) {
    drivers::print(b"  bytes");
    print_bytes(bytes);
    let n = bytes.len();
    if n <= 500 {
        let mut out = [46u8; 500];
        drivers::print(b"  again");
        write(case, table, &mut out[0..n]);
    }
}

fn alone(bytes: &[u8], table: &mut [i64]) {
    drivers::print(b"  alone");
    let read = casefile::read_case_alone(bytes, table);
    answer(read);
    print_weights(table);
    if 0 < read.case.n {
        again(bytes, read.case, table);
    }
}

fn read(bytes: &[u8], places: usize) {
    size(bytes);
    if places <= 480 {
        let mut one = [7i64; 480];
        front(bytes, &mut one[0..places]);
        let mut other = [7i64; 480];
        alone(bytes, &mut other[0..places]);
    }
}

// ---- a case that no file gives

fn count(z: i64) -> usize {
    drivers::count_or(z, 0)
}

fn byte(z: i64) -> u8 {
    drivers::byte(count(z))
}

// The case with the ends of two pairs in the line.
fn two(n: usize, m: usize, line: Line, carry: i64) -> Case {
    let mut lower = [0u8; EDGE_PLACES];
    let mut upper = [0u8; EDGE_PLACES];
    lower[0] = byte(line.kind);
    upper[0] = byte(line.a);
    lower[1] = byte(line.b);
    upper[1] = byte(line.c);
    Case {
        n,
        d: 1,
        m,
        lower,
        upper,
        carry,
        rulebook: Rulebook::Desk,
    }
}

fn put(case: Case, table: &[i64], room: usize) {
    if room <= 500 {
        let mut out = [46u8; 500];
        drivers::print(b" ");
        write(case, table, &mut out[0..room]);
    }
}

// Weights 1, 2, 3, 4 and z, and 0 past them.
fn five(z: i64) -> [i64; 145] {
    let mut table = [0i64; 145];
    table[0] = 1;
    table[1] = 2;
    table[2] = 3;
    table[3] = 4;
    table[4] = z;
    table
}

fn put_two(n: usize, m: usize, line: Line, room: usize) {
    let table = five(line.amount);
    put(two(n, m, line, 0), &table[0..144], room);
}

fn holding(table: [i64; 145], at: usize, held: i64) -> [i64; 145] {
    let mut after = table;
    if at < 145 {
        after[at] = held;
    }
    after
}

fn put_past(places: usize, line: Line, room: usize) {
    let table = holding(five(5), count(line.a), line.b);
    let ends = Line {
        kind: 0,
        a: 1,
        b: 1,
        c: 2,
        amount: 0,
    };
    if places <= 145 {
        put(two(3, 2, ends, line.amount), &table[0..places], room);
    }
}

// ---- the vectors

fn run(control: Line, bytes: &[u8]) {
    if control.kind == 0 {
        read(bytes, count(control.a));
    } else if control.kind == 1 {
        let ends = drivers::line_of(bytes);
        put_two(count(control.a), count(control.b), ends, count(control.c));
    } else {
        let given = drivers::line_of(bytes);
        put_past(count(control.a), given, count(control.c));
    }
}

// The bytes of the vector at the front, or 0 where there is none.
fn vector(input: &[u8]) -> usize {
    if input.len() < 54 {
        return 0;
    }
    drivers::print(&input[0..27]);
    let control = drivers::line_of(&input[27..54]);
    let size = count(control.amount);
    if input.len() - 54 < size {
        return 0;
    }
    let to = 54 + size;
    run(control, &input[54..to]);
    to
}

fn vectors(input: &[u8]) {
    let mut rest = input;
    // Not a for: a vector says how many bytes it has.
    while !rest.is_empty() {
        let used = vector(rest);
        if used == 0 || rest.len() < used {
            return;
        }
        rest = &rest[used..];
    }
}

// ---- the largest case there and back

// From -1,000,000 to 1,000,000.
fn weight(v: u64) -> i64
    requires { v < 2_000_001 }
{
    v as i64 - 1_000_000
}

fn fill(table: &mut [i64]) {
    let mut v: u64 = 0;
    for place in table.iter_mut() {
        *place = weight(v);
        v = (v + 777_777) % 2_000_001;
    }
}

// Links 0 to 3 joined to links 4 to 27.
fn full() -> Case {
    let mut lower = [0u8; EDGE_PLACES];
    let mut upper = [0u8; EDGE_PLACES];
    for e in 0..96 {
        lower[e] = (e / 24) as u8;
        upper[e] = (e % 24 + 4) as u8;
    }
    Case {
        n: 48,
        d: 8,
        m: 96,
        lower,
        upper,
        carry: 0,
        rulebook: Rulebook::Desk,
    }
}

// Reads the bytes alone, and writes the case again.
fn back(bytes: &[u8]) {
    let mut table = [7i64; 6528];
    let read = casefile::read_case_alone(bytes, &mut table);
    drivers::print(b"  alone");
    answer(read);
    drivers::print(b"\n  again");
    let mut out = [46u8; 178875];
    write(read.case, &table, &mut out);
}

fn largest() {
    let mut table = [0i64; 6528];
    fill(&mut table);
    let mut out = [46u8; 178875];
    drivers::print(b"largest");
    write(full(), &table, &mut out);
    back(&out);
}

fn main() {
    let mut input = [0u8; 40000];
    let n = io::read_full(0, &mut input);
    vectors(&input[..n]);
    largest();
}
