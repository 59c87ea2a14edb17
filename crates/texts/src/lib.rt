// The lines that the programs print, written to a lent output (document 01, on `press` and `replay`).
#![tactic(auto)]

ghost use Rattle.std.specs.Prelude.{◌≡◌, ◌+◌, ◌≤◌, pos, length};
ghost use Rattle.definitions.specs.Refusals.{number};
ghost use Rattle.definitions.specs.Lines.{number_text, overwritten};
ghost use Rattle.texts.specs.Texts.{text_room, printed, placed_at, write_refused_call, write_accepted_call};
ghost use Rattle.texts.specs.Texts.{write_void_call, write_judgement_call};

use definitions::{Judgement, Refusal, RefusedAt};

// An output must have so many bytes: no text is longer.
const ROOM: usize = 64;

// The greatest line and the greatest number of rounds that are written.
const GREATEST: u64 = 9_223_372_036_854_775_807;

// Puts the bytes at byte `at`, and answers where they end.
fn put(out: &mut [u8], at: usize, bytes: &[u8]) -> usize
    requires { at + length bytes.now ≤ length out.old }
    ensures { (result ≡ at + length bytes.now) × (out.new ≡ placed_at at bytes.now out.old) }
{
    let end = at + bytes.len();
    out[at..end].copy_from_slice(bytes);
    end
}

// The same of a number.
fn put_number(out: &mut [u8], at: usize, z: i64) -> usize
    requires { at + length (number_text z) ≤ length out.old }
    ensures { (result ≡ at + length (number_text z)) × (out.new ≡ placed_at at (number_text z) out.old) }
{
    let written = lines::write_number(&mut out[at..], z);
    match written {
        Ok(n) => at + n,
        Err(_) => at,
    }
}

// A word, two numbers and a line feed at out's first bytes, and how many they are.
fn print(out: &mut [u8], word: &[u8], a: i64, b: i64) -> usize
    requires { (length word.now ≤ 9) × (text_room ≤ length out.old) }
    ensures { (result ≡ length (printed word.now a b)) × (out.new ≡ overwritten (printed word.now a b) out.old) }
{
    let mut at = put(out, 0, word);
    at = put_number(out, at, a);
    at = put(out, at, b" ");
    at = put_number(out, at, b);
    put(out, at, b"\n")
}

// ---- the calls

// The number of document 01 or 02.
pub fn number_of(refusal: Refusal) -> u8
    ensures { result ≡ number refusal }
{
    match refusal {
        Refusal::NotInColumns => 1,
        Refusal::NotDue => 2,
        Refusal::OutsideLimits => 3,
        Refusal::WrongLength => 4,
        Refusal::OutOfRange => 5,
        Refusal::EndsNotAscending => 6,
        Refusal::EdgeRepeated => 7,
        Refusal::WeightOutOfRange => 8,
        Refusal::RaiseNotAscending => 9,
        Refusal::NotRefuted => 10,
        Refusal::LeavesRange => 11,
        Refusal::OtherBound => 12,
        Refusal::BoundNotLower => 13,
        Refusal::CutShort => 14,
        Refusal::ScopeBarred => 15,
        Refusal::NotAllBarred => 16,
    }
}

// `refused`, the number and the line, counted from 0.
pub fn write_refused(out: &mut [u8], refusal: Refusal, line: usize) -> Result<usize, Refusal>
    ensures { (result ≡ (write_refused_call out.old refusal line).answer)
        × (out.new ≡ (write_refused_call out.old refusal line).out) }
{
    if out.len() < ROOM {
        return Err(Refusal::WrongLength);
    }
    let count = line as u64;
    if GREATEST < count {
        return Err(Refusal::OutOfRange);
    }
    Ok(print(out, b"refused ", i64::from(number_of(refusal)), line as i64))
}

// `accepted`, the rounds and the upper bound.
pub fn write_accepted(out: &mut [u8], rounds: u64, bound: i64) -> Result<usize, Refusal>
    ensures { (result ≡ (write_accepted_call out.old rounds bound).answer)
        × (out.new ≡ (write_accepted_call out.old rounds bound).out) }
{
    if out.len() < ROOM {
        return Err(Refusal::WrongLength);
    }
    if GREATEST < rounds {
        return Err(Refusal::OutOfRange);
    }
    Ok(print(out, b"accepted ", rounds as i64, bound))
}

// `void`.
pub fn write_void(out: &mut [u8]) -> Result<usize, Refusal>
    ensures { (result ≡ (write_void_call out.old).answer) × (out.new ≡ (write_void_call out.old).out) }
{
    if out.len() < ROOM {
        return Err(Refusal::WrongLength);
    }
    Ok(put(out, 0, b"void\n"))
}

// The text of a judgement.
pub fn write_judgement(
    out: &mut [u8],
    judgement: Result<Judgement, RefusedAt>,
) -> Result<usize, Refusal>
    ensures { (result ≡ (write_judgement_call out.old judgement).answer)
        × (out.new ≡ (write_judgement_call out.old judgement).out) }
{
    match judgement {
        Ok(Judgement::Accepted { rounds, bound }) => write_accepted(out, rounds, bound),
        Ok(Judgement::Void) => write_void(out),
        Err(RefusedAt { refusal, line }) => write_refused(out, refusal, line),
    }
}
