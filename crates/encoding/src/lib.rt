// The case and the replay's record as bytes of fixed size, in which they cross to other languages, and the version of the functions that take
// them. What each byte says is defined in specs/.
#![tactic(auto)]

ghost use Rattle.definitions.specs.Answers.{outcome_says};
ghost use Rattle.std.specs.Prelude.{◌≡◌, ◌+◌, ◌%◌, ◌≤◌, ◌<◌, length, take, drop};
ghost use Rattle.definitions.specs.Rules.{edge_places, scope_places};
ghost use Rattle.definitions.specs.Lines.{overwritten};
ghost use Rattle.texts.specs.Texts.{placed_at};
ghost use Rattle.encoding.specs.Numbers.{value_of_bytes, number_bytes, number_at, word_of, signed_of};
ghost use Rattle.encoding.specs.CaseBytes.{bytes_of_case, case_in};
ghost use Rattle.encoding.specs.Version.{version_number};
ghost use Rattle.encoding.specs.RecordBytes.{last_recorded, raised_of, target_kind, target_amount, none_begun, begun_recorded};
ghost use Rattle.encoding.specs.RecordBytes.{raise_recorded, due_recorded, standing_at, begun_at, record_numbers, record_tags};
ghost use Rattle.encoding.specs.RecordBytes.{record_bytes, is_record, record_in};

use checker::{Due, Replay, Target};
use definitions::{Case, EDGE_PLACES, Refusal, Rulebook, SCOPE_PLACES};

// The bytes of a case, and those of the replay's record.
pub type CaseArray = [u8; 32 + 2 * EDGE_PLACES];

pub type RecordArray = [u8; 52 + SCOPE_PLACES];

// Where the upper ends of a case begin, and its carry.
const UPPER: usize = 24 + EDGE_PLACES;

const CARRY: usize = UPPER + EDGE_PLACES;

// The last scope that a press or a void line has raised, if any, as numbers.
#[derive(Clone, Copy)]
struct Last {
    known: u8,
    scope: usize,
}

// What is due, as numbers: its kind, and what a press or a void line begun holds.
#[derive(Clone, Copy)]
struct Begun {
    kind: u8,
    variable: usize,
    amount: i64,
    left: usize,
    last: Last,
}

// ---- numbers

fn number_at(bytes: &[u8], at: usize) -> u64
    requires { at + 8 ≤ length bytes.now }
    ensures { result ≡ number_at bytes.now at }
{
    let mut word = [0u8; 8];
    word.copy_from_slice(&bytes[at..at + 8]);
    u64::from_le_bytes(word)
}

fn number_bytes(x: u64) -> [u8; 8]
    ensures { result ≡ number_bytes x }
{
    x.to_le_bytes()
}

fn bits_of(z: i64) -> u64
    ensures { result ≡ word_of z }
{
    z.cast_unsigned()
}

fn signed_of(x: u64) -> i64
    ensures { result ≡ signed_of x }
{
    x.cast_signed()
}

// ---- parts of the bytes

// Puts the bytes at byte `at`.
fn put_bytes(out: &mut [u8], at: usize, bytes: &[u8])
    requires { at + length bytes.now ≤ length out.old }
    ensures { out.new ≡ placed_at at bytes.now out.old }
{
    let end = at + bytes.len();
    out[at..end].copy_from_slice(bytes);
}

fn put_word(out: &mut [u8], at: usize, x: u64)
    requires { at + 8 ≤ length out.old }
    ensures { out.new ≡ placed_at at (number_bytes x) out.old }
{
    let word = number_bytes(x);
    put_bytes(out, at, &word);
}

fn put_ends(out: &mut [u8], at: usize, ends: &[u8; EDGE_PLACES])
    requires { at + edge_places ≤ length out.old }
    ensures { (out.new ≡ placed_at at ends.now out.old) × (length ends.now ≡ edge_places) }
{
    put_bytes(out, at, ends);
}

fn put_marks(out: &mut [u8], at: usize, marks: &[u8; SCOPE_PLACES])
    requires { at + scope_places ≤ length out.old }
    ensures { (out.new ≡ placed_at at marks.now out.old) × (length marks.now ≡ scope_places) }
{
    put_bytes(out, at, marks);
}

// A byte for each edge's place, from byte `at` on.
fn ends_at(bytes: &[u8], at: usize) -> [u8; EDGE_PLACES]
    requires { at + edge_places ≤ length bytes.now }
    ensures { result ≡ take edge_places (drop at bytes.now) }
{
    let mut part = [0u8; EDGE_PLACES];
    let end = at + EDGE_PLACES;
    part.copy_from_slice(&bytes[at..end]);
    part
}

// A byte for each scope's place, from byte `at` on.
fn marks_at(bytes: &[u8], at: usize) -> [u8; SCOPE_PLACES]
    requires { at + scope_places ≤ length bytes.now }
    ensures { result ≡ take scope_places (drop at bytes.now) }
{
    let mut part = [0u8; SCOPE_PLACES];
    let end = at + SCOPE_PLACES;
    part.copy_from_slice(&bytes[at..end]);
    part
}

// ---- what is due and what stands, as numbers

fn last_recorded(last: Option<usize>) -> Last
    ensures { result ≡ last_recorded last }
{
    match last {
        None => Last { known: 0, scope: 0 },
        Some(x) => Last { known: 1, scope: x },
    }
}

fn kind_of(target: Target) -> u8
    ensures { result ≡ target_kind target }
{
    match target {
        Target::Press(_) => 1,
        Target::Void => 2,
    }
}

fn amount_of(target: Target) -> i64
    ensures { result ≡ target_amount target }
{
    match target {
        Target::Press(amount) => amount,
        Target::Void => 0,
    }
}

fn none_begun(kind: u8) -> Begun
    ensures { result ≡ none_begun kind }
{
    Begun {
        kind,
        variable: 0,
        amount: 0,
        left: 0,
        last: Last { known: 0, scope: 0 },
    }
}

fn begun_of(due: Due) -> Begun
    ensures { result ≡ begun_recorded due }
{
    match due {
        Due::MoveOrBound => none_begun(0),
        Due::Raise {
            variable,
            target,
            left,
            last,
        } => {
            Begun {
                kind: kind_of(target),
                variable,
                amount: amount_of(target),
                left,
                last: last_recorded(last),
            }
        }
        Due::Nothing => none_begun(3),
    }
}

fn raised_of(last: Last) -> Option<usize>
    ensures { result ≡ raised_of last }
{
    (last.known == 1).then_some(last.scope)
}

fn raise_of(begun: Begun, target: Target) -> Due
    ensures { result ≡ raise_recorded begun target }
{
    Due::Raise {
        variable: begun.variable,
        target,
        left: begun.left,
        last: raised_of(begun.last),
    }
}

fn due_of(begun: Begun) -> Due
    ensures { result ≡ due_recorded begun }
{
    match begun.kind {
        1 => raise_of(begun, Target::Press(begun.amount)),
        2 => raise_of(begun, Target::Void),
        3 => Due::Nothing,
        _ => Due::MoveOrBound,
    }
}

fn standing_of(b: u8) -> Result<(), Refusal>
    ensures { result ≡ standing_at b }
{
    match b {
        1 => Err(Refusal::NotInColumns),
        2 => Err(Refusal::NotDue),
        3 => Err(Refusal::OutsideLimits),
        4 => Err(Refusal::WrongLength),
        5 => Err(Refusal::OutOfRange),
        6 => Err(Refusal::EndsNotAscending),
        7 => Err(Refusal::EdgeRepeated),
        8 => Err(Refusal::WeightOutOfRange),
        9 => Err(Refusal::RaiseNotAscending),
        10 => Err(Refusal::NotRefuted),
        11 => Err(Refusal::LeavesRange),
        12 => Err(Refusal::OtherBound),
        13 => Err(Refusal::BoundNotLower),
        14 => Err(Refusal::CutShort),
        15 => Err(Refusal::ScopeBarred),
        16 => Err(Refusal::NotAllBarred),
        _ => Ok(()),
    }
}

fn standing_number(standing: Result<(), Refusal>) -> u8
    ensures { result ≡ (outcome_says standing).number }
{
    match standing {
        Ok(()) => 0,
        Err(refusal) => texts::number_of(refusal),
    }
}

// The record's numbers, from the first byte on.
fn put_words(out: &mut [u8], rounds: u64, start: i64, begun: Begun)
    requires { 48 ≤ length out.old }
    ensures { out.new ≡ overwritten (record_numbers rounds start begun) out.old }
{
    put_word(out, 0, rounds);
    put_word(out, 8, bits_of(start));
    put_word(out, 16, begun.variable as u64);
    put_word(out, 24, bits_of(begun.amount));
    put_word(out, 32, begun.left as u64);
    put_word(out, 40, begun.last.scope as u64);
}

fn tags_of(moved: bool, begun: Begun, standing: Result<(), Refusal>) -> [u8; 4]
    ensures { result ≡ record_tags moved begun standing }
{
    [
        moved as u8,
        begun.kind,
        begun.last.known,
        standing_number(standing),
    ]
}

// The bytes after its numbers.
fn put_tags(out: &mut [u8], moved: bool, begun: Begun, standing: Result<(), Refusal>)
    requires { 52 ≤ length out.old }
    ensures { out.new ≡ placed_at 48 (record_tags moved begun standing) out.old }
{
    let tags = tags_of(moved, begun, standing);
    put_bytes(out, 48, &tags);
}

// What the record's bytes say of what is due.
fn begun_at(bytes: &[u8]) -> Begun
    requires { 52 ≤ length bytes.now }
    ensures { result ≡ begun_at bytes.now }
{
    let variable = number_at(bytes, 16);
    let amount = signed_of(number_at(bytes, 24));
    let left = number_at(bytes, 32);
    let scope = number_at(bytes, 40);
    Begun {
        kind: bytes[49],
        variable: variable as usize,
        amount,
        left: left as usize,
        last: Last {
            known: bytes[50],
            scope: scope as usize,
        },
    }
}

// ---- the calls

// The case that the bytes say.
pub fn case_of(bytes: &CaseArray) -> Case
    ensures { result ≡ case_in bytes.now }
{
    let n = number_at(bytes, 0);
    let d = number_at(bytes, 8);
    let m = number_at(bytes, 16);
    let lower = ends_at(bytes, 24);
    let upper = ends_at(bytes, UPPER);
    let carry = signed_of(number_at(bytes, CARRY));
    Case {
        n: n as usize,
        d: d as usize,
        m: m as usize,
        lower,
        upper,
        carry,
        rulebook: Rulebook::Desk,
    }
}

// The bytes that say the case.
pub fn write_case_bytes(case: Case, out: &mut CaseArray)
    ensures { out.new ≡ bytes_of_case case }
{
    put_word(out, 0, case.n as u64);
    put_word(out, 8, case.d as u64);
    put_word(out, 16, case.m as u64);
    put_ends(out, 24, &case.lower);
    put_ends(out, UPPER, &case.upper);
    put_word(out, CARRY, bits_of(case.carry));
}

// Whether the bytes say a record.
pub fn is_record(bytes: &RecordArray) -> bool
    ensures { result ≡ is_record bytes.now }
{
    (bytes[48] <= 1) & (bytes[49] <= 3) & (bytes[50] <= 1) & (bytes[51] <= 16)
}

// The record that they say.
pub fn record_of(bytes: &RecordArray) -> Replay
    ensures { result ≡ record_in bytes.now }
{
    let begun = begun_at(bytes);
    let due = due_of(begun);
    let rounds = number_at(bytes, 0);
    let start = signed_of(number_at(bytes, 8));
    let raised = marks_at(bytes, 52);
    let standing = standing_of(bytes[51]);
    Replay {
        rounds,
        start,
        moved: bytes[48] == 1,
        raised,
        due,
        standing,
    }
}

// The bytes that say the record.
pub fn write_record(replay: Replay, out: &mut RecordArray)
    ensures { out.new ≡ record_bytes replay }
{
    let begun = begun_of(replay.due);
    put_words(out, replay.rounds, replay.start, begun);
    put_tags(out, replay.moved, begun, replay.standing);
    put_marks(out, 52, &replay.raised);
}

// ---- the version

pub fn version() -> u64
    ensures { result ≡ version_number }
{
    20000
}
