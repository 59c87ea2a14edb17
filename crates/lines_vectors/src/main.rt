// Texts read as lines, and lines and numbers written, one answer to a line of output. Standard input holds vectors: a line in columns, and then
// the bytes of which its b says how many there are.
//
// 10        these bytes are read as a line
// 20 to 25  they are a line in columns, which is written to a dots, with its first (21) to fifth number (25) replaced by the amount
// 30        the amount is written to a dots, without padding
//
// Where c is not 0 the amount is a number that no column holds: 1 stands for 2^63 - 1, 2 for -2^63, 3 for 10^12 and 4 for -10^11.
// The texts are, in this order: lines in columns; columns with no number; leading zeros, and -0; signs that stand alone, apart, twice or last;
// bytes that are no digits, and numbers that are not right-justified; other lengths, and other last bytes. Then lines are written whose numbers
// just fit, with one byte of room more or less, and lines with a number that is one character too wide, or far too wide.
// The file `stdout` is what document 01 says.
#![tactic(auto)]

use definitions::Line;

// ---- what is printed

fn print_line(line: Line) {
    let numbers = [line.a, line.b, line.c, line.amount];
    drivers::print_alone(line.kind);
    drivers::print_numbers(&numbers);
}

// The five numbers, or the refusal.
fn read(text: &[u8]) {
    match lines::read_line(text) {
        Ok(line) => print_line(line),
        Err(refusal) => {
            drivers::print(b"refused");
            drivers::print_count(drivers::number_of(refusal));
        }
    }
    drivers::print(b"\n");
}

// What the output holds after a line was written to it, and the refusal.
fn line_to(out: &mut [u8], line: Line) {
    let answer = lines::write_line(out, line);
    drivers::print(out);
    match answer {
        Ok(()) => {
            if 27 < out.len() {
                drivers::print(b"\n");
            }
        }
        Err(refusal) => {
            drivers::print_refusal(refusal);
            drivers::print(b"\n");
        }
    }
}

// What the output holds after a number was written to it, and how many bytes it takes or the refusal.
fn number_to(out: &mut [u8], z: i64) {
    let answer = lines::write_number(out, z);
    drivers::print(out);
    match answer {
        Ok(n) => {
            drivers::print_count(n as u64);
        }
        Err(refusal) => {
            drivers::print_refusal(refusal);
        }
    }
    drivers::print(b"\n");
}

// ---- a vector

fn number(c: i64, amount: i64) -> i64 {
    match c {
        1 => 9223372036854775807,
        2 => -9223372036854775808,
        3 => 1_000_000_000_000,
        4 => -100_000_000_000,
        _ => amount,
    }
}

fn pick(replace: bool, by: i64, number: i64) -> i64 {
    if replace { by } else { number }
}

fn replaced(kind: i64, line: Line, z: i64) -> Line {
    Line {
        kind: pick(kind == 21, z, line.kind),
        a: pick(kind == 22, z, line.a),
        b: pick(kind == 23, z, line.b),
        c: pick(kind == 24, z, line.c),
        amount: pick(kind == 25, z, line.amount),
    }
}

fn write(kind: i64, line: Line, z: i64, out: &mut [u8]) {
    if kind == 30 {
        number_to(out, z);
    } else {
        line_to(out, replaced(kind, line, z));
    }
}

fn to_dots(kind: i64, line: Line, z: i64, room: usize) {
    if room <= 30 {
        let mut out = [46u8; 30];
        write(kind, line, z, &mut out[0..room]);
    }
}

fn run(control: Line, bytes: &[u8]) {
    if control.kind == 10 {
        read(bytes);
    } else {
        to_dots(
            control.kind,
            drivers::line_of(bytes),
            number(control.c, control.amount),
            drivers::count_or(control.a, 0),
        );
    }
}

// The bytes of the vector at the front, or 0 where there is none.
fn vector(input: &[u8]) -> usize {
    if input.len() < 27 {
        return 0;
    }
    let control = drivers::line_of(&input[0..27]);
    let size = drivers::count_or(control.b, 0);
    if input.len() - 27 < size {
        return 0;
    }
    let to = 27 + size;
    run(control, &input[27..to]);
    to
}

fn vectors(input: &[u8]) {
    let mut rest = input;
    // Not a for: a vector says how many bytes it has.
    while !rest.is_empty() {
        let used = vector(rest);
        if used == 0 || rest.len() < used {
            return;
        }
        rest = &rest[used..];
    }
}

fn main() {
    let mut input = [0u8; 10000];
    let n = io::read_full(0, &mut input);
    vectors(&input[..n]);
}
