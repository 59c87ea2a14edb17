// Why values were kept (document 02, change 3), told by standard input: lines of 27 bytes. One that is not in columns names what is tried and is
// printed. Kinds 10 to 13 are a case, taken as it stands: none of its numbers is asked, and each weight goes to the next place of the table,
// -2000000000 where it is barred. Where as many weights are told as the case has places, the table of a full case is lent, with 0 past them
// (document 02, change 5).
// Kind 20: supported_value of link a, with the weights read so far; b bytes are lent for the family and c for the partners, of which each holds
// 46. A negative a stands for 2^64 - 1. The answer is printed, then the bytes after the call. Where b is above 64 or c above 1600, nothing is.
// The file `stdout` was worked out from documents 01 and 02 by a small script of its own, which deletes values without a partner and, where the
// case is small, lists every family too.
#![tactic(auto)]

use definitions::{Case, Line, Refusal, TABLE_PLACES};
use drivers::Held;

// ---- what is printed

fn print_figure(link: i64, answer: Result<i64, Refusal>) {
    drivers::print(b"link");
    drivers::print_number(link);
    match answer {
        Ok(k) => {
            drivers::print(b" value");
            drivers::print_number(k);
        }
        Err(refusal) => {
            drivers::print_refusal(refusal);
        }
    }
    drivers::print(b"\n");
}

fn print_lent(label: &[u8], bytes: &[u8]) {
    drivers::print(label);
    drivers::print_bytes(bytes);
    drivers::print(b"\n");
}

// ---- the call

fn show(case: Case, table: &[i64], link: i64, family: &mut [u8], partners: &mut [u8]) {
    let variable = drivers::count_or(link, 18446744073709551615);
    print_figure(
        link,
        families::supported_value(case, table, variable, family, partners),
    );
    print_lent(b"family", family);
    print_lent(b"partners", partners);
}

fn lend(case: Case, table: &[i64], link: i64, family_to: usize, partners_to: usize) {
    let mut family = [46u8; 64];
    let mut partners = [46u8; 1600];
    if family_to <= 64 {
        if partners_to <= 1600 {
            show(
                case,
                table,
                link,
                &mut family[0..family_to],
                &mut partners[0..partners_to],
            );
        }
    }
}

// ---- the vectors

fn count(z: i64) -> usize {
    drivers::count_or(z, 0)
}

fn execute(held: Held, table: &[i64], line: Line) {
    let case = held.case;
    let places = drivers::lent(case, held.places);
    if places <= table.len() {
        lend(
            case,
            &table[0..places],
            line.a,
            count(line.b),
            count(line.c),
        );
    }
}

fn step(held: Held, table: &mut [i64], line: Line) -> Held {
    let kind = line.kind;
    if kind < 10 {
        held
    } else if kind < 20 {
        drivers::taken(held, table, line)
    } else {
        if kind == 20 {
            execute(held, table, line);
        }
        held
    }
}

fn vectors(input: &[u8], table: &mut [i64]) {
    let mut held = drivers::empty();
    for line in input.chunks_exact(27) {
        held = step(held, table, drivers::line_of(line));
    }
}

fn main() {
    let mut input = [0u8; 300000];
    let mut table = [0i64; TABLE_PLACES];
    let n = io::read_full(0, &mut input);
    vectors(&input[..n], &mut table);
}
