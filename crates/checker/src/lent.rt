// Numbers 3 to 8 of what was handed over, and a line or a block where one applies.
ghost use Rattle.std.specs.Prelude.{◌≡◌, ◌↔◌, false, List, ℤ, T, Err, Some};
ghost use Rattle.definitions.specs.Rules.{rules_of};
ghost use Rattle.definitions.specs.Refusals.{first_refusal};
ghost use Rattle.definitions.specs.Answers.{outcome_of};
ghost use Rattle.definitions.specs.Valid.{working_weight, handed_over};
ghost use Rattle.checker.specs.Checker.{refused_replay, step_refused, record_out, step_replay, lent_standing, block_replay};
ghost use Rattle.checker.specs.Taken.{front_tests};

use crate::columns::{line_length, read_line};
use crate::due_lines::is_due;
use crate::ranges::{line_out, record_out};
use crate::records::{progress_of, record_of};
use crate::{Block, Replay, Stepped};
use definitions::{Case, Line, Refusal};

// Numbers 3 to 8.
fn check_lent(replay: Replay, case: Case, table: &[i64]) -> Result<(), Refusal>
    ensures { result
        ≡ outcome_of (first_refusal
        (handed_over (rules_of case) (working_weight (rules_of case)) case table.now false (record_out (rules_of case) case replay))) }
{
    if !tables::within_limits(case) {
        return Err(Refusal::OutsideLimits);
    }
    let raised = replay.raised;
    let due = replay.due;
    let beyond = record_out(case, &raised, replay.rounds, due);
    tables::check_working(case, table, false, beyond)
}

// The number that stands, else 3 to 8.
pub(crate) fn lent_answer(replay: Replay, case: Case, table: &[i64]) -> Result<(), Refusal>
    ensures { result ≡ outcome_of (lent_standing (rules_of case) case table.now replay replay.standing) }
{
    replay.standing?;
    check_lent(replay, case, table)
}

fn is_wrong_length(refusal: Refusal) -> bool
    ensures { T result ↔ (refusal ≡ Refusal.WrongLength) }
{
    matches!(refusal, Refusal::WrongLength)
}

// The number of a line in columns, where `lent` is the first of 3 to 8 without the line's own 5.
fn line_number(replay: Replay, case: Case, line: Line, lent: Refusal) -> Refusal
    ensures { (w : List ℤ)
        → first_refusal (handed_over (rules_of case) (working_weight (rules_of case)) case w false (record_out (rules_of case) case replay)) ≡ Some lent
        → first_refusal (front_tests case w replay line) ≡ Some result }
{
    let due = replay.due;
    if !is_due(due, line) {
        return Refusal::NotDue;
    }
    if !tables::within_limits(case) {
        return Refusal::OutsideLimits;
    }
    if is_wrong_length(lent) {
        return lent;
    }
    if line_out(case, replay.rounds, due, line) {
        return Refusal::OutOfRange;
    }
    lent
}

// The number of a line where `lent` stands or applies to what was handed over.
pub(crate) fn first_number(replay: Replay, case: Case, bytes: &[u8], lent: Refusal) -> Refusal
    ensures { (w : List ℤ) → lent_standing (rules_of case) case w replay replay.standing ≡ Some lent
        → step_replay (rules_of case) case w replay bytes.now ≡ step_refused replay w result }
{
    let standing = replay.standing;
    if let Err(refusal) = standing {
        return refusal;
    }
    let read = read_line(case, bytes);
    match read {
        Err(_) => Refusal::NotInColumns,
        Ok(line) => line_number(replay, case, line, lent),
    }
}

pub(crate) fn refuse(replay: Replay, refusal: Refusal) -> Stepped
    ensures { result ≡ record { replay = refused_replay replay refusal; answer = Err refusal } }
{
    let raised = replay.raised;
    Stepped {
        replay: record_of(progress_of(replay), raised, Err(refusal)),
        answer: Err(refusal),
    }
}

fn no_lines(replay: Replay, refusal: Refusal) -> Block
    ensures { result ≡ record { replay = refused_replay replay refusal; lines = 0; answer = Err refusal } }
{
    let stepped = refuse(replay, refusal);
    let after = stepped.replay;
    Block {
        replay: after,
        lines: 0,
        answer: Err(refusal),
    }
}

// A block where `lent` stands or applies to what was handed over.
pub(crate) fn refused_lines(replay: Replay, case: Case, bytes: &[u8], lent: Refusal) -> Block
    ensures { (w : List ℤ) → lent_standing (rules_of case) case w replay replay.standing ≡ Some lent
        → (result ≡ (block_replay (rules_of case) case w replay bytes.now).block)
        × (w ≡ (block_replay (rules_of case) case w replay bytes.now).table) }
{
    let line = line_length(case);
    if bytes.len() < line {
        return no_lines(replay, lent);
    }
    no_lines(replay, first_number(replay, case, &bytes[..line], lent))
}
