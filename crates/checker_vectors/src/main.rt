// Logs replayed line by line and as one block. Standard input holds vectors: a line that names what is tried, a line in columns whose amount is
// the number of bytes that follow, and these bytes, a case file and then a log. The first line in columns also gives the table's places (a; where
// the case has as many, a full case's are lent, with 0 past them), and whether its first two are barred once the case is read (c).
// Each is printed with the number of every line, the number at the end, the rounds, the weights, and what the log is as one block.
// Where b is 2, two lines before the log tell the record that is handed over in place of a fresh one: the press begun, if its kind is 3, or the
// void line begun, if its kind is 5 (variable, lines left, last scope or -1, amount), or, if its kind is 6, that a void line is whole; the number
// that stands, a scope that is marked or -1, whether a move has no bound line after it, and the rounds (c: 0, 1 for the greatest count, 2 for one
// more). Then the number at its end and the record after it are printed too.
// The file `stdout` was worked out from documents 01 and 02; the peer gives each log the same answer.
#![tactic(auto)]

use checker::{Due, Replay, Target};
use definitions::{Case, Line, Refusal, SCOPE_PLACES, TABLE_PLACES};

// 0 where there is none.
fn number(answer: Result<(), Refusal>) -> u64 {
    match answer {
        Ok(()) => 0,
        Err(refusal) => drivers::number_of(refusal),
    }
}

// ---- what is printed

fn print(text: &[u8]) {
    drivers::print(text);
}

fn print_weights(table: &[i64], shown: usize) {
    drivers::print_table(table, shown);
    print(b"\n");
}

// ---- a record handed over

fn count(z: i64) -> usize {
    drivers::count_or(z, 0)
}

fn rounds_of(c: i64) -> u64 {
    if c == 0 {
        return 0;
    }
    if c == 1 {
        return 999_999_999_999_999_999;
    }
    1_000_000_000_000_000_000
}

fn marks_of(scope: i64) -> [u8; SCOPE_PLACES] {
    let mut raised = [0u8; SCOPE_PLACES];
    let x = count(scope);
    if scope < 0 {
        return raised;
    }
    if x < SCOPE_PLACES {
        raised[x] = 1;
    }
    raised
}

fn last_of(scope: i64) -> Option<usize> {
    usize::try_from(scope).ok()
}

fn raise_of(line: Line, target: Target) -> Due {
    Due::Raise {
        variable: count(line.a),
        target,
        left: count(line.b),
        last: last_of(line.c),
    }
}

fn due_of(line: Line) -> Due {
    if line.kind == 3 {
        return raise_of(line, Target::Press(line.amount));
    }
    if line.kind == 5 {
        return raise_of(line, Target::Void);
    }
    if line.kind == 6 {
        return Due::Nothing;
    }
    Due::MoveOrBound
}

fn standing_of(number: i64) -> Result<(), Refusal> {
    if number == 0 {
        return Ok(());
    }
    Err(Refusal::NotRefuted)
}

fn handed_over(fresh: Replay, press: Line, rest: Line) -> Replay {
    Replay {
        rounds: rounds_of(rest.c),
        start: fresh.start,
        moved: rest.b != 0,
        raised: marks_of(rest.a),
        due: due_of(press),
        standing: standing_of(rest.kind),
    }
}

// The record told by two lines, or the fresh one where there are none.
fn begun(fresh: Replay, given: &[u8]) -> Replay {
    if given.len() < 54 {
        return fresh;
    }
    let press = drivers::line_of(&given[0..27]);
    let rest = drivers::line_of(&given[27..54]);
    handed_over(fresh, press, rest)
}

fn print_last(last: Option<usize>) {
    match last {
        None => print(b" none"),
        Some(x) => {
            drivers::print_count(x as u64);
        }
    }
}

fn print_target(target: Target) {
    match target {
        Target::Press(amount) => {
            drivers::print_number(amount);
        }
        Target::Void => print(b" void"),
    }
}

fn print_due(due: Due) {
    match due {
        Due::MoveOrBound => print(b" 0"),
        Due::Raise {
            variable,
            target,
            left,
            last,
        } => {
            drivers::print_count(variable as u64);
            print_target(target);
            drivers::print_count(left as u64);
            print_last(last);
        }
        Due::Nothing => print(b" nothing"),
    }
}

fn print_mark(scope: usize, mark: u8) {
    if mark != 0 {
        drivers::print_count(scope as u64);
    }
}

fn print_marks(raised: &[u8]) {
    for (x, mark) in raised.iter().enumerate() {
        print_mark(x, *mark);
    }
}

fn print_flag(flag: bool) {
    if flag {
        print(b" 1");
    } else {
        print(b" 0");
    }
}

fn print_record(given: &[u8], replay: Replay) {
    if given.len() < 54 {
        return;
    }
    let due = replay.due;
    let raised = replay.raised;
    print(b"  record moved");
    print_flag(replay.moved);
    print(b" due");
    print_due(due);
    print(b" raised");
    print_marks(&raised);
    print(b" stands");
    drivers::print_count(number(replay.standing));
    print(b"\n");
}

fn print_given(given: &[u8], replay: Replay, case: Case) {
    if given.len() < 54 {
        return;
    }
    print(b"  given end");
    drivers::print_count(number(replay.end(case)));
    print(b"\n");
}

// ---- a log

// Each line by itself; what is left at the end is handed over as a line too.
fn by_lines(replay: Replay, case: Case, table: &mut [i64], log: &[u8]) -> Replay {
    let mut after = replay;
    for line in log.chunks(27) {
        let stepped = after.step(case, table, line);
        after = stepped.replay;
        drivers::print_count(number(stepped.answer));
    }
    after
}

// The number at the end, the rounds, the weights, and a record handed over as it is now.
fn finish(given: &[u8], after: Replay, case: Case, table: &[i64], shown: usize) {
    print(b" end");
    drivers::print_count(number(after.end(case)));
    print(b" rounds");
    drivers::print_count(after.rounds);
    print(b" weights");
    print_weights(table, shown);
    print_record(given, after);
}

fn single(case: Case, table: &mut [i64], shown: usize, given: &[u8], log: &[u8]) {
    let before = begun(Replay::fresh(case, table), given);
    print_given(given, before, case);
    print(b"  lines");
    let after = by_lines(before, case, table, log);
    finish(given, after, case, table, shown);
}

fn whole(case: Case, table: &mut [i64], shown: usize, given: &[u8], log: &[u8]) {
    print(b"  block");
    let before = begun(Replay::fresh(case, table), given);
    let block = before.lines(case, table, log);
    drivers::print_count(block.lines as u64);
    drivers::print_count(number(block.answer));
    let after = block.replay;
    finish(given, after, case, table, shown);
}

// ---- the vectors

fn first_lines(bytes: &[u8], n: usize) -> &[u8] {
    if n <= 1000 {
        let to = n * 27;
        if to <= bytes.len() {
            return &bytes[0..to];
        }
    }
    &bytes[0..0]
}

fn log_after(bytes: &[u8], used: usize) -> &[u8] {
    if used <= 1000 {
        let at = used * 27;
        if at <= bytes.len() {
            return &bytes[at..];
        }
    }
    &bytes[0..0]
}

// Bars the first two places.
fn bar(table: &mut [i64], barred: bool) {
    if barred {
        if 2 <= table.len() {
            table[0] = -2_000_000_000;
            table[1] = -2_000_000_000;
        }
    }
}

fn line_by_line(bytes: &[u8], table: &mut [i64], shown: usize, told: usize, barred: bool) {
    let read = casefile::read_case(bytes, table);
    bar(table, barred);
    let rest = log_after(bytes, read.answer.unwrap_or(0));
    single(
        read.case,
        table,
        shown,
        first_lines(rest, told),
        log_after(rest, told),
    );
}

fn as_a_block(bytes: &[u8], table: &mut [i64], shown: usize, told: usize, barred: bool) {
    let read = casefile::read_case(bytes, table);
    bar(table, barred);
    let rest = log_after(bytes, read.answer.unwrap_or(0));
    whole(
        read.case,
        table,
        shown,
        first_lines(rest, told),
        log_after(rest, told),
    );
}

fn replay(bytes: &[u8], places: usize, told: usize, barred: bool) {
    let lent = drivers::lent_for(bytes, places);
    if lent <= TABLE_PLACES {
        let mut one = [0i64; TABLE_PLACES];
        line_by_line(bytes, &mut one[0..lent], places, told, barred);
        let mut other = [0i64; TABLE_PLACES];
        as_a_block(bytes, &mut other[0..lent], places, told, barred);
    }
}

// The bytes of the vector at the front, or 0 where there is none.
fn vector(input: &[u8]) -> usize {
    if input.len() < 54 {
        return 0;
    }
    print(&input[0..27]);
    let control = drivers::line_of(&input[27..54]);
    let size = count(control.amount);
    if input.len() - 54 < size {
        return 0;
    }
    let to = 54 + size;
    replay(
        &input[54..to],
        count(control.a),
        count(control.b),
        control.c != 0,
    );
    to
}

fn vectors(input: &[u8]) {
    let mut rest = input;
    // Not a for: a vector says how many bytes it has.
    while !rest.is_empty() {
        let used = vector(rest);
        if used == 0 || rest.len() < used {
            return;
        }
        rest = &rest[used..];
    }
}

fn main() {
    let mut input = [0u8; 80000];
    let n = io::read_full(0, &mut input);
    vectors(&input[..n]);
}
