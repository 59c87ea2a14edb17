// What the programs print, by the calls that they are made of. Standard input holds lines of 27 bytes. One that is not in columns names what is
// tried and is printed. Of kinds 20 and 21, a is the table's places (where the case has as many, a full case's are lent), c the output's bytes
// and amount the number of bytes that follow and are the program's input. Kind 20: judged by `judging`, the log in blocks of b lines, and printed.
// Kind 22: the same, and the judgement printed as numbers: the rounds and the bound, or void, or the number and its line. Kind 21: pressed by
// `pressing`, each call's text printed, and then the calls of `next` and the rounds that may still follow; where b is not 0, one more call is lent
// the output's first b bytes, and its answer is printed.
// The file `stdout` has what the peer's programs print of these inputs; where a table or an output is too short it was worked out from documents 01
// and 02.
#![tactic(auto)]

ghost use Rattle.std.specs.Prelude.{◌≤◌, length};

use definitions::{Judgement, Line, Refusal, RefusedAt, TABLE_PLACES};
use judging::Judging;
use pressing::Pressing;

// The calls of `next`, and what stands after them.
#[derive(Clone, Copy)]
struct Tally {
    calls: u64,
    pressing: Pressing,
}

// ---- what is printed

fn print_first(text: &[u8], n: usize) {
    if n <= text.len() {
        drivers::print(&text[0..n]);
    }
}

// Prints what a call wrote, and answers whether it was refused.
fn print_written(written: Result<usize, Refusal>, out: &[u8]) -> bool {
    match written {
        Ok(n) => {
            print_first(out, n);
            false
        }
        Err(refusal) => {
            drivers::print_refusal(refusal);
            drivers::print(b"\n");
            true
        }
    }
}

// ---- kinds 20 and 22

// Where the case ends.
fn case_end(answer: Result<usize, RefusedAt>, most: usize) -> usize
    ensures { result ≤ most }
{
    match answer {
        Ok(lines) if lines <= most / 27 => lines * 27,
        _ => most,
    }
}

// The whole lines of the log in blocks of so many bytes, or in one block where these are 0.
fn judge_blocks(begun: Judging, table: &mut [i64], log: &[u8], bytes: usize) -> Judging {
    let whole = log.len() - log.len() % 27;
    let size = if bytes == 0 { usize::MAX } else { bytes };
    let mut judging = begun;
    for block in log[..whole].chunks(size) {
        judging = judging::block(judging, table, block);
    }
    judging
}

fn print_judgement(judgement: Result<Judgement, RefusedAt>) {
    match judgement {
        Ok(Judgement::Accepted { rounds, bound }) => {
            drivers::print_count(rounds);
            drivers::print_number(bound);
        }
        Ok(Judgement::Void) => {
            drivers::print(b" void");
        }
        Err(RefusedAt { refusal, line }) => {
            drivers::print_refusal(refusal);
            drivers::print_count(line as u64);
        }
    }
    drivers::print(b"\n");
}

fn judge(input: &[u8], table: &mut [i64], out: &mut [u8], bytes: usize, text: bool) {
    let begun = judging::start(input, table);
    let from = case_end(begun.answer, input.len());
    let log = &input[from..];
    let judging = judge_blocks(begun, table, log, bytes);
    let part = log.len() % 27 != 0;
    if text {
        print_written(judging::finish(judging, table, part, out), out);
    } else {
        print_judgement(judging::judge(judging, table, part));
    }
}

// ---- kind 21

fn print_tally(calls: u64, left: u64) {
    drivers::print_count(calls);
    drivers::print_count(left);
    drivers::print(b"\n");
}

// Calls `next` until nothing more is due or a call is refused.
fn press_on(first: Pressing, table: &mut [i64], out: &mut [u8]) -> Tally {
    let mut pressing = first;
    for calls in 0..1000 {
        if pressing.left == 0 {
            return Tally { calls, pressing };
        }
        let pressed = pressing::next(pressing, table, out);
        pressing = pressed.pressing;
        if print_written(pressed.written, out) {
            return Tally {
                calls: calls + 1,
                pressing,
            };
        }
    }
    Tally {
        calls: 1000,
        pressing,
    }
}

fn print_answer(written: Result<usize, Refusal>) {
    match written {
        Ok(n) => {
            drivers::print_count(n as u64);
        }
        Err(refusal) => {
            drivers::print_refusal(refusal);
        }
    }
    drivers::print(b"\n");
}

fn call_again(pressing: Pressing, table: &mut [i64], out: &mut [u8], room: usize) {
    if room <= out.len() {
        let pressed = pressing::next(pressing, table, &mut out[0..room]);
        print_answer(pressed.written);
    }
}

fn press(input: &[u8], table: &mut [i64], out: &mut [u8], room: usize) {
    let begun = pressing::start(input, table, out);
    print_written(begun.written, out);
    let tally = press_on(begun.pressing, table, out);
    let pressing = tally.pressing;
    print_tally(tally.calls, pressing.left);
    if room != 0 {
        call_again(pressing, table, out, room);
    }
}

// ---- the vectors

fn count(z: i64) -> usize {
    drivers::count_or(z, 0)
}

fn call(input: &[u8], table: &mut [i64], out: &mut [u8], line: Line) {
    if line.kind == 20 || line.kind == 22 {
        let lines = count(line.b);
        if lines <= 1000 {
            judge(input, table, out, lines * 27, line.kind == 20);
        }
    } else if line.kind == 21 {
        press(input, table, out, count(line.b));
    }
}

fn lend(input: &[u8], line: Line) {
    let lent = drivers::lent_for(input, count(line.a));
    let room = count(line.c);
    let mut table = [0i64; TABLE_PLACES];
    let mut out = [46u8; 320];
    if lent <= TABLE_PLACES {
        if room <= 320 {
            call(input, &mut table[0..lent], &mut out[0..room], line);
        }
    }
}

// Answers how many bytes were the input.
fn execute(rest: &[u8], line: Line) -> usize
    ensures { result ≤ length rest.now }
{
    let size = count(line.amount);
    if rest.len() < size {
        return 0;
    }
    lend(&rest[0..size], line);
    size
}

fn vectors(input: &[u8]) {
    let mut rest = input;
    // Not a for: the line says how many bytes follow it.
    while 27 <= rest.len() {
        let line = drivers::line_of(&rest[..27]);
        let after = &rest[27..];
        let used = execute(after, line);
        rest = &after[used..];
    }
}

fn main() {
    let mut input = [0u8; 60000];
    let n = io::read_full(0, &mut input);
    vectors(&input[..n]);
}
