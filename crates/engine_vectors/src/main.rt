// Rounds and runs of the engine. Standard input holds lines of 27 bytes. One that is not in columns names what is tried and is printed. Kinds 10
// to 13 are a case, taken as it stands: none of its numbers is asked, and each weight goes to the next place of the table,
// -2000000000 where it is barred; the amount of kind 10 is the carry. Where as many weights are told as the case has places, the table of a full
// case is lent, with 0 past them (document 02, change 5).
// Kind 20: a run with limit amount; kind 24: one of pair rounds only; kind 21: one round; all with an output of a dots, which is printed after it.
// Kind 22: amount rounds with an output of a dots; the bound after them and a checksum of their log are printed.
// Kind 23: the table's first a weights are printed. Kind 26: place a of the table holds amount.
// The file `stdout` was worked out from documents 01 and 02 by a small engine of its own; the peer writes the same log of each case that a case file can
// hold. The largest case's log is the peer's. What a carry and kind 26 change was worked out by hand from P1's.
#![tactic(auto)]

use definitions::{Case, Line, Refusal, Round, Run, RunAnswer};
use drivers::Held;

// A checksum of the lines of all rounds so far, and the bound after the last.
#[derive(Clone, Copy)]
struct Log {
    sum: u64,
    bound: i64,
}

// ---- the calls

fn print_run(run: Run) {
    match run.answer {
        Ok(RunAnswer::Settled) => {
            drivers::print(b" settled");
        }
        Ok(RunAnswer::Limit) => {
            drivers::print(b" limit");
        }
        Ok(RunAnswer::Void) => {
            drivers::print(b" void");
        }
        Err(refusal) => {
            drivers::print_refusal(refusal);
        }
    }
    drivers::print_count(run.rounds);
    drivers::print_number(run.bound);
    drivers::print(b"\n");
}

fn run(case: Case, table: &mut [i64], out: &mut [u8], limit: u64) {
    drivers::print(b"run");
    drivers::print_count(limit);
    print_run(engine::run(case, table, out, limit));
    drivers::print(out);
    drivers::print(b"\n");
}

fn run_pairs(case: Case, table: &mut [i64], out: &mut [u8], limit: u64) {
    drivers::print(b"pairs");
    drivers::print_count(limit);
    print_run(engine::run_pairs(case, table, out, limit));
    drivers::print(out);
    drivers::print(b"\n");
}

fn print_round(round: Result<Round, Refusal>) {
    match round {
        Ok(Round::Settled) => {
            drivers::print(b" settled");
        }
        Err(refusal) => {
            drivers::print_refusal(refusal);
        }
        Ok(Round::Made { bytes, bound }) => {
            drivers::print(b" made");
            drivers::print_count(bytes as u64);
            drivers::print_number(bound);
        }
        Ok(Round::Void { bytes }) => {
            drivers::print(b" void");
            drivers::print_count(bytes as u64);
        }
    }
    drivers::print(b"\n");
}

fn round(case: Case, table: &mut [i64], out: &mut [u8]) {
    drivers::print(b"round");
    print_round(engine::round(case, table, out));
    drivers::print(out);
    drivers::print(b"\n");
}

fn sum_of_first(earlier: u64, text: &[u8], n: usize) -> u64 {
    if n <= text.len() {
        drivers::digest(earlier, &text[0..n])
    } else {
        0
    }
}

fn next(case: Case, table: &mut [i64], out: &mut [u8], log: Log) -> Log {
    match engine::round(case, table, out) {
        Ok(Round::Made { bytes, bound }) => Log {
            sum: sum_of_first(log.sum, out, bytes),
            bound,
        },
        _ => log,
    }
}

fn print_log(log: Log) {
    drivers::print_number(log.bound);
    drivers::print_count(log.sum);
    drivers::print(b"\n");
}

fn rounds(case: Case, table: &mut [i64], out: &mut [u8], most: u64) {
    drivers::print(b"rounds");
    drivers::print_count(most);
    let mut log = Log { sum: 0, bound: 0 };
    for _ in 0..most {
        log = next(case, table, out, log);
    }
    print_log(log);
}

// ---- the vectors

fn count(z: i64) -> usize {
    drivers::count_or(z, 0)
}

fn weights(table: &[i64], n: usize) {
    drivers::print(b"weights");
    if n <= table.len() {
        drivers::print_numbers(&table[0..n]);
    }
    drivers::print(b"\n");
}

fn call(case: Case, table: &mut [i64], out: &mut [u8], line: Line) {
    let most = count(line.amount) as u64;
    if line.kind == 20 {
        run(case, table, out, most);
    } else if line.kind == 21 {
        round(case, table, out);
    } else if line.kind == 24 {
        run_pairs(case, table, out, most);
    } else {
        rounds(case, table, out, most);
    }
}

fn with_output(case: Case, table: &mut [i64], line: Line) {
    let room = count(line.a);
    let mut out = [46u8; 4400];
    if room <= 4400 {
        call(case, table, &mut out[0..room], line);
    }
}

fn command(case: Case, table: &mut [i64], line: Line) {
    if line.kind == 23 {
        weights(table, count(line.a));
    } else {
        with_output(case, table, line);
    }
}

fn execute(held: Held, table: &mut [i64], line: Line) {
    let case = held.case;
    let places = drivers::lent(case, held.places);
    if places <= table.len() {
        command(case, &mut table[0..places], line);
    }
}

fn put_at(table: &mut [i64], place: usize, weight: i64) {
    if place < table.len() {
        table[place] = weight;
    }
}

fn step(held: Held, table: &mut [i64], line: Line) -> Held {
    if line.kind < 10 {
        held
    } else if line.kind < 20 {
        drivers::taken(held, table, line)
    } else if line.kind == 26 {
        put_at(table, count(line.a), line.amount);
        held
    } else {
        execute(held, table, line);
        held
    }
}

fn vectors(input: &[u8], table: &mut [i64]) {
    let mut held = drivers::empty();
    for line in input.chunks_exact(27) {
        held = step(held, table, drivers::line_of(line));
    }
}

fn main() {
    let mut input = [0u8; 320000];
    let mut table = [0i64; 6528];
    let n = io::read_full(0, &mut input);
    vectors(&input[..n], &mut table);
}
