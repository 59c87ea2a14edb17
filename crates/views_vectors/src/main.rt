// Executes the log writer, the view of a round and the scoring of two plans at the borders of their numbers: a line for each call.
#![tactic(auto)]

use definitions::{Case, Choice, EDGE_PLACES, Line, Refusal, RefusedAt, Rulebook, Span};
use log_writer::Put;

// ---- lines

fn print(text: &[u8]) {
    drivers::print(text);
}

fn print_refusal(refusal: Refusal) {
    print(b":");
    drivers::print_refusal(refusal);
}

// ---- the log writer

fn show_put(put: Put) {
    match put.answer {
        Ok(()) => print(b": done"),
        Err(refusal) => print_refusal(refusal),
    }
    drivers::print_count(put.at as u64);
    print(b"\n");
}

fn print_line(at: usize, line: Line) {
    print(b"put at");
    drivers::print_count(at as u64);
    let numbers = [line.kind, line.b, line.c, line.amount];
    drivers::print_numbers(&numbers);
}

// A line at byte `at` of 57 dots, and the bytes after it.
fn put(at: usize, kind: i64, b: i64, c: i64, amount: i64) {
    let mut out = [46u8; 57];
    let line = Line {
        kind,
        a: 0,
        b,
        c,
        amount,
    };
    print_line(at, line);
    show_put(log_writer::put_line_at(&mut out, at, line));
    print(&out);
    print(b"\n");
}

fn puts() {
    put(0, 2, 2, 0, 1);
    put(27, 4, 0, 0, -1);
    put(30, 4, 0, 0, -1);
    put(31, 4, 0, 0, -1);
    put(57, 4, 0, 0, -1);
    put(60, 4, 0, 0, -1);
    put(1, 99, 9999, -999, 999_999_999_999);
    put(0, 100, 0, 0, 0);
    put(0, 4, 0, -1000, 0);
    put(0, 4, 0, 0, 1_000_000_000_000);
    put(31, 4, 0, 0, 1_000_000_000_000);
}

// The same through a writer that holds the bytes.
fn put_held(at: usize, kind: i64, b: i64, c: i64, amount: i64) {
    let mut out = [46u8; 57];
    let line = Line {
        kind,
        a: 0,
        b,
        c,
        amount,
    };
    print(b"through a writer, ");
    print_line(at, line);
    show_put(log_writer::put_through(&mut out, at, line));
    print(&out);
    print(b"\n");
}

fn held_puts() {
    put_held(0, 2, 2, 0, 1);
    put_held(30, 4, 0, 0, -1);
    put_held(31, 4, 0, 0, -1);
    put_held(58, 4, 0, 0, -1);
    put_held(0, 4, 0, -1000, 0);
}

// ---- the view of a round

fn print_span(span: Result<Span, RefusedAt>) {
    match span {
        Ok(Span { from, to }) => {
            print(b":");
            drivers::print_count(from as u64);
            drivers::print_count(to as u64);
        }
        Err(RefusedAt { refusal, line }) => {
            print_refusal(refusal);
            drivers::print_count(line as u64);
        }
    }
}

fn print_written(number: u8) {
    print(b" number");
    drivers::print_number(i64::from(number));
}

fn view(log: &[u8], round: u64) {
    let mut number = 255u8;
    let mut line: usize = 255;
    print_span(views::round_span(log, round));
    let part = views::round_view(log, round, &mut number, &mut line);
    print_written(number);
    print(b" line");
    drivers::print_count(line as u64);
    print(b"\n");
    print(part);
}

fn put_in(log: &mut [u8; 219], at: usize, kind: i64, a: i64, b: i64, amount: i64) {
    let line = Line {
        kind,
        a,
        b,
        c: 0,
        amount,
    };
    log_writer::put_line_at(log, at, line);
}

// P5's round as two of amount 1, and then three bytes.
fn two_rounds() -> [u8; 219] {
    let mut log = [32u8; 219];
    put_in(&mut log, 0, 2, 0, 2, 1);
    put_in(&mut log, 27, 3, 1, 0, 0);
    put_in(&mut log, 54, 3, 2, 0, 0);
    put_in(&mut log, 81, 4, 0, 0, 3);
    put_in(&mut log, 108, 2, 0, 2, 1);
    put_in(&mut log, 135, 3, 1, 0, 0);
    put_in(&mut log, 162, 3, 2, 0, 0);
    put_in(&mut log, 189, 4, 0, 0, 2);
    log
}

// That log with `byte` at 139, in line 5.
fn log_with(byte: u8) -> [u8; 219] {
    let mut log = two_rounds();
    log[139] = byte;
    log
}

fn view_part(byte: u8, from: usize, to: usize, round: u64) {
    let log = log_with(byte);
    print(b"view");
    drivers::print_count(from as u64);
    drivers::print_count(to as u64);
    if from <= to {
        if to <= 219 {
            view(&log[from..to], round);
        }
    }
}

fn rounds() {
    view_part(32, 0, 216, 0);
    view_part(32, 0, 216, 1);
    view_part(32, 0, 216, 2);
    view_part(32, 0, 216, 18_446_744_073_709_551_615);
    view_part(32, 0, 219, 1);
    view_part(32, 0, 219, 2);
    view_part(32, 0, 215, 1);
    view_part(48, 0, 219, 0);
    view_part(48, 0, 219, 1);
    view_part(48, 0, 219, 2);
}

fn short_logs() {
    view_part(32, 0, 108, 0);
    view_part(32, 0, 107, 0);
    view_part(32, 0, 81, 0);
    view_part(32, 81, 108, 0);
    view_part(32, 0, 26, 0);
    view_part(32, 0, 0, 0);
}

// ---- scoring, on the case of P4: two links, two channels, one pair

// The places of a full case with two values.
const LENT: usize = 480;

fn clash(n: usize, lower: u8, upper: u8) -> Case {
    let mut c = Case {
        n,
        d: 2,
        m: 1,
        lower: [0u8; EDGE_PLACES],
        upper: [0u8; EDGE_PLACES],
        carry: 0,
        rulebook: Rulebook::Desk,
    };
    c.lower[0] = lower;
    c.upper[0] = upper;
    c
}

// The table of a full case, with `weight` at the last place of this one.
fn full(weight: i64) -> [i64; LENT] {
    let mut table = [0i64; LENT];
    table[0] = 2;
    table[2] = 2;
    table[4] = -3;
    table[7] = weight;
    table
}

fn print_choice(choice: Result<Choice, Refusal>) {
    match choice {
        Ok(Choice::First) => print(b": first"),
        Ok(Choice::Second) => print(b": second"),
        Err(refusal) => print_refusal(refusal),
    }
}

fn print_plan(plan: &[u8]) {
    if plan.len() == 2 {
        drivers::print_number(i64::from(plan[0]));
        drivers::print_number(i64::from(plan[1]));
    } else {
        drivers::print_count(plan.len() as u64);
    }
}

fn compare<'a>(case: Case, table: &[i64], first: &'a [u8], second: &'a [u8]) {
    let mut number = 255u8;
    print_choice(plans::better_of(case, table, first, second));
    let plan = plans::better(case, table, first, second, &mut number);
    print_plan(plan);
    print_written(number);
    print(b"\n");
}

// Plans a b and c d, with `weight` in the case's last place, in a case of n links and the pair of these ends.
fn score_in(n: usize, lower: u8, upper: u8, weight: i64, a: u8, b: u8, c: u8, d: u8) {
    let table = full(weight);
    let first = [a, b];
    let second = [c, d];
    print_plan(&first);
    print_plan(&second);
    drivers::print_number(weight);
    compare(clash(n, lower, upper), &table, &first, &second);
}

fn score(weight: i64, a: u8, b: u8, c: u8, d: u8) {
    print(b"plans");
    score_in(2, 0, 1, weight, a, b, c, d);
}

fn score_case(n: usize, lower: u8, upper: u8) {
    print(b"case");
    drivers::print_count(n as u64);
    drivers::print_number(i64::from(lower));
    drivers::print_number(i64::from(upper));
    score_in(n, lower, upper, 0, 0, 0, 0, 1);
}

fn scores() {
    score(0, 0, 0, 0, 1);
    score(0, 0, 1, 0, 0);
    score(0, 0, 1, 1, 0);
    score(0, 1, 0, 0, 1);
    score(0, 1, 1, 0, 0);
    score(0, 1, 2, 0, 0);
    score(0, 0, 0, 2, 1);
    score(1_000_000, 0, 1, 1, 1);
    score(1_000_001, 0, 1, 1, 1);
    score(1_000_001, 0, 1, 1, 2);
    score(-1_000_000, 1, 1, 0, 1);
    score(-1_000_001, 1, 1, 0, 1);
}

fn cases() {
    score_case(49, 0, 1);
    score_case(3, 0, 1);
    score_case(2, 0, 2);
    score_case(2, 1, 0);
}

// Plans of one and three values.
fn lengths() {
    let table = full(0);
    let one = [0u8];
    let two = [0u8, 1];
    let three = [0u8, 1, 2];
    print(b"one");
    compare(clash(2, 0, 1), &table, &one, &two);
    print(b"three");
    compare(clash(2, 0, 1), &table, &two, &three);
}

// Two pairs of the same ends.
fn repeated() {
    let case = Case {
        n: 2,
        d: 2,
        m: 2,
        lower: [0u8; EDGE_PLACES],
        upper: [1u8; EDGE_PLACES],
        carry: 0,
        rulebook: Rulebook::Desk,
    };
    let table = [0i64; LENT];
    let first = [0u8, 0];
    let second = [0u8, 1];
    print(b"twice");
    compare(case, &table, &first, &second);
}

fn main() {
    puts();
    held_puts();
    rounds();
    short_logs();
    scores();
    cases();
    lengths();
    repeated();
}
