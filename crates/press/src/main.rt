// The program `press`: a case on standard input, the log of up to 100,000 rounds on standard output, or a refusal (document 01). The work is done
// by `pressing` on slices. Of an input that is longer than a case and a line more, only the front is read, and it is printed as the whole is
// (pressing, Prints.press-printed). Where a read failed nothing is printed; the rounds end where a write fails. Both are told on standard error, since
// a settled case prints nothing either.
#![tactic(auto)]

ghost use Rattle.std.specs.Prelude.{◌≡◌, ◌⊎◌, ◌+◌, ◌≤◌, ◌<◌, ◌^◌, pos, T, length, replicate};
ghost use Rattle.definitions.specs.declared.Rulebook.TheVariants.{Desk};
ghost use Rattle.definitions.specs.Places.{input_places, table_places, round_places};
ghost use Rattle.definitions.specs.CaseFiles.{case_size};
ghost use Rattle.definitions.specs.Programs.{table_for};
ghost use Rattle.streams.specs.Streams.{is_over};
ghost use Rattle.pressing.specs.Prints.{printed_bytes};
ghost use Rattle.press.specs.Rounds.{nothing_due, NextCall, Rounds, Presses};

use definitions::ROUND_PLACES;
use pressing::Pressed;
use streams::Filled;

// The most calls that are made.
const ROUNDS: u64 = 100_000;

// What the last call left, how many bytes were handed to be printed so far, and whether the last write took all of its bytes.
#[derive(Clone, Copy)]
struct State {
    pressed: Pressed,
    bytes: usize,
    all: bool,
}

// The same of all calls.
#[derive(Clone, Copy)]
struct Printed {
    bytes: usize,
    all: bool,
}

// Prints what a call wrote, after so many bytes.
fn print(rt: &impl Print, pressed: Pressed, out: &[u8], before: usize) -> State
    requires { before + length out.now < 2 ^ 62 }
    ensures { (result.pressed ≡ pressed) × (result.bytes ≡ before + length (printed_bytes pressed.written out.now)) }
{
    let written = pressed.written;
    let part = streams::printed_part(written, out);
    let all = rt.write_all(part).is_ok();
    State {
        pressed,
        bytes: before + part.len(),
        all,
    }
}

// A write failed, or nothing more is due.
fn is_last(state: State) -> bool
    ensures { result ≡ nothing_due state }
{
    let pressed = state.pressed;
    let pressing = pressed.pressing;
    if state.all {
        return pressing.left == 0;
    }
    true
}

// The next call, printed.
fn print_next(rt: &impl Print, state: State, table: &mut [i64], out: &mut [u8]) -> State
    requires { state.bytes + length out.old < 2 ^ 62 }
    ensures { NextCall state table.old out.old result table.new out.new }
{
    let pressed = state.pressed;
    let pressing = pressed.pressing;
    let next = pressing::next(pressing, table, out);
    print(rt, next, out, state.bytes)
}

// The rounds after a start that was printed.
fn print_rounds(rt: &impl Print, first: State, table: &mut [i64], out: &mut [u8]) -> State
    requires { (length out.old ≡ round_places) × (first.bytes ≡ length (printed_bytes first.pressed.written out.old)) }
    ensures { Rounds (record { pressed = first.pressed; table = table.old; out = out.old }) result table.new
        out.new }
{
    let mut state = first;
    for _ in 0..ROUNDS {
        if is_last(state) {
            return state;
        }
        state = print_next(rt, state, table, out);
    }
    state
}

// The output has room for the lines of the longest round.
fn run(rt: &impl Print, input: &[u8], filled: Filled, table: &mut [i64]) -> Printed
    requires { (table.old ≡ table_for (case_size Desk input.now)) × ((input_places ≤ length input.now) ⊎ T (is_over filled)) }
    ensures { Presses input.now filled result }
{
    if streams::is_failed(filled) {
        return Printed {
            bytes: 0,
            all: true,
        };
    }
    let mut space = [0u8; ROUND_PLACES];
    let out: &mut [u8] = &mut space;
    let begun = pressing::start(input, table, out);
    let first = print(rt, begun, out, 0);
    let last = print_rounds(rt, first, table, out);
    Printed {
        bytes: last.bytes,
        all: last.all,
    }
}

// Tells on standard error that a read or a write failed. Where that cannot be told either, nothing is left to be done.
fn tell(rt: &impl Eprint, failed: bool, all: bool) {
    if failed {
        let _ = rt.eprintln("press: standard input could not be read");
    }
    if !all {
        let _ = rt.eprintln("press: standard output could not be written");
    }
}

fn main(rt: HostRuntime) {
    let mut space = streams::buffer();
    let mut weights = streams::weights();
    let filled = streams::fill(&mut rt.stdin(), &mut space, 0);
    let to = filled.to;
    let input = &space[..to];
    let long = pressing::table_length(input);
    let printed = run(&rt, input, filled, &mut weights[0..long]);
    tell(&rt, streams::is_failed(filled), printed.all);
}
