// The program `replay`: a case and its log on standard input, the judgement on standard output (document 01). The work is done by `judging` on
// slices; here the input is cut into blocks of whole lines, and a part line is carried over to the next block. The input ends where a read brings
// nothing; where a read failed nothing is printed, since what was read is not the input, and standard error tells it.
#![tactic(auto)]

ghost use Rattle.std.specs.Prelude.{◌≡◌, ◌⊎◌, ◌-◌, ◌%◌, ◌≤◌, ◌<◌, pos, T, length, take, drop, replicate, Ok};
ghost use Rattle.definitions.specs.declared.Rulebook.TheVariants.{Desk};
ghost use Rattle.definitions.specs.Places.{input_places, table_places};
ghost use Rattle.definitions.specs.CaseFiles.{case_size};
ghost use Rattle.definitions.specs.Programs.{table_for};
ghost use Rattle.texts.specs.Texts.{text_room};
ghost use Rattle.streams.specs.Streams.{is_over, printed_part};
ghost use Rattle.judging.specs.Judging.{state_of};
ghost use Rattle.replay.specs.Turns.{desk_line, case_end, most_turns, Turns, Goes, Judges, Prints};

use definitions::{Refusal, RefusedAt, Rulebook};
use judging::Judging;
use std::io::Read;
use streams::Filled;

// What stands between two blocks: so many bytes of a part line are held at the buffer's front; and the last fill.
#[derive(Clone, Copy)]
struct Turned {
    judging: Judging,
    held: usize,
    filled: Filled,
}

// Moves the bytes from `from` to `to` to the buffer's front.
fn to_front(buf: &mut [u8], from: usize, to: usize) -> usize
    requires { (from ≤ to) × (to ≤ length buf.old) }
    ensures { (result ≡ to - from) × (take result buf.new ≡ take result (drop from buf.old)) }
{
    buf.copy_within(from..to, 0);
    to - from
}

fn line_bytes() -> usize
    ensures { result ≡ desk_line }
{
    rules::line_length(Rulebook::Desk)
}

// The bytes of a part line at the end of so many.
fn part_bytes(count: usize) -> usize
    ensures { (result ≡ count % desk_line) × (result ≤ count) × (result < desk_line) }
{
    count % line_bytes()
}

// Hands over the whole lines from byte `from` to where the last fill ended.
fn turn(judging: Judging, table: &mut [i64], buf: &mut [u8], from: usize, filled: Filled) -> Turned
    requires { (from ≤ filled.to) × (filled.to ≤ length buf.old) }
    ensures { Turns judging table.old (take (filled.to - from) (drop from buf.old)) filled result table.new
        buf.new }
{
    let to = filled.to;
    let end = to - part_bytes(to - from);
    let next = judging::block(judging, table, &buf[from..end]);
    let held = to_front(buf, end, to);
    Turned {
        judging: next,
        held,
        filled,
    }
}

// The bytes of so many lines, `most` where they are more.
fn lines_bytes(lines: usize, most: usize) -> usize
    ensures { (result ≡ case_end (Ok lines) most) × (result ≤ most) }
{
    let long = line_bytes();
    if lines <= most / long {
        return lines * long;
    }
    most
}

// The bytes of the case at the front of the input's first `most` bytes: all of these where it was refused.
fn case_bytes(answer: Result<usize, RefusedAt>, most: usize) -> usize
    ensures { (result ≡ case_end answer most) × (result ≤ most) }
{
    match answer {
        Ok(lines) => lines_bytes(lines, most),
        Err(_) => most,
    }
}

// Reads on and judges until the last fill is over. The bytes of a part line stand at the buffer's front.
fn go_on(input: &mut impl Read, first: Turned, table: &mut [i64], buf: &mut [u8]) -> Turned
    requires { (first.held ≤ length buf.old) × (first.held < desk_line) }
    ensures { Goes most_turns (length buf.old - desk_line) (state_of first.judging table.old)
        (take first.held buf.old) first.filled result table.new buf.new }
{
    let mut state = first;
    for _ in 0..u64::MAX {
        let filled = state.filled;
        if streams::is_over(filled) {
            return state;
        }
        let held = state.held;
        let judging = state.judging;
        let next = streams::fill(input, buf, held);
        state = turn(judging, table, buf, 0, next);
    }
    state
}

// Judges the whole input, whose first bytes the first fill read.
fn judge_input(input: &mut impl Read, buf: &mut [u8], table: &mut [i64], filled: Filled) -> Turned
    requires { filled.to ≤ length buf.old }
    ensures { Judges (length buf.old - desk_line) (take filled.to buf.old) table.old filled result table.new }
{
    let to = filled.to;
    let begun = judging::start(&buf[0..to], table);
    let answer = begun.answer;
    let from = case_bytes(answer, to);
    let first = turn(begun, table, buf, from, filled);
    go_on(input, first, table, buf)
}

// Writes the judgement of the whole input, whose first bytes the first fill read, and answers how much of the text is to be printed: nothing where
// a read failed.
fn write_text(
    input: &mut impl Read,
    buf: &mut [u8],
    table: &mut [i64],
    filled: Filled,
    text: &mut [u8],
) -> Result<usize, Refusal>
    requires to_in_bounds { (filled.to ≤ length buf.old) × ((length buf.old ≤ filled.to) ⊎ T (is_over filled)) }
    requires buf_len { (length buf.old ≡ input_places) × (text_room ≤ length text.old) }
    requires table_value { table.old ≡ table_for (case_size Desk (take filled.to buf.old)) }
    ensures { Prints (length buf.old - desk_line) (take filled.to buf.old) filled text.old
        (printed_part result text.new) }
{
    let state = judge_input(input, buf, table, filled);
    let last = state.filled;
    if streams::is_failed(last) {
        return Ok(0);
    }
    let judging = state.judging;
    judging::finish(judging, table, state.held != 0, text)
}

// The part of the text that is to be printed.
fn text_of_input<'a>(
    input: &mut impl Read,
    buf: &mut [u8],
    table: &mut [i64],
    filled: Filled,
    text: &'a mut [u8],
) -> &'a [u8]
    requires to_in_bounds { (filled.to ≤ length buf.old) × ((length buf.old ≤ filled.to) ⊎ T (is_over filled)) }
    requires buf_len { (length buf.old ≡ input_places) × (text_room ≤ length text.old) }
    requires table_value { table.old ≡ table_for (case_size Desk (take filled.to buf.old)) }
    ensures { Prints (length buf.old - desk_line) (take filled.to buf.old) filled text.old result.now }
{
    let written = write_text(input, buf, table, filled, text);
    streams::printed_part(written, text)
}

// Tells on standard error that a read or a write failed. Where that cannot be told either, nothing is left to be done.
fn tell(rt: &impl Eprint, failed: bool, all: bool) {
    if failed {
        let _ = rt.eprintln("replay: standard input could not be read");
    }
    if !all {
        let _ = rt.eprintln("replay: standard output could not be written");
    }
}

fn main(rt: HostRuntime) {
    let mut space = streams::buffer();
    let buf: &mut [u8] = &mut space;
    let mut weights = streams::weights();
    let mut text = [0u8; 64];
    let mut input = rt.stdin();
    let filled = streams::fill(&mut input, buf, 0);
    let to = filled.to;
    let long = judging::table_length(&buf[0..to]);
    let part = text_of_input(&mut input, buf, &mut weights[0..long], filled, &mut text);
    let all = rt.write_all(part).is_ok();
    tell(&rt, part.len() == 0, all);
}
