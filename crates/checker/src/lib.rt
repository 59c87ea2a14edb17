// The replay's record, by value: the next record comes back with the answer (document 01, "The replay's record says what is due").
// What its calls answer is defined in specs/.
#![tactic(auto)]

mod blocks;
mod columns;
mod due_lines;
mod kinds;
mod lent;
mod presses;
mod raise_runs;
mod ranges;
mod records;

ghost use Rattle.std.specs.Prelude.{◌≡◌};
ghost use Rattle.definitions.specs.Rules.{rules_of};
ghost use Rattle.definitions.specs.Refusals.{first_refusal};
ghost use Rattle.definitions.specs.Answers.{outcome_of};
ghost use Rattle.checker.specs.Taken.{fresh_from};
ghost use Rattle.checker.specs.Checker.{fresh_replay, step_replay, end_replay, block_replay, is_short, ending_tests};

use blocks::{good_lines, good_step};
use definitions::{Case, Refusal, SCOPE_PLACES};
use lent::{first_number, lent_answer, refuse, refused_lines};
use ranges::record_out;

// What the last raise line completes: a press by an amount, or a void line.
#[derive(Clone, Copy)]
pub enum Target {
    Press(i64),
    Void,
}

// What the replay's record says is due: a move, a bound line or a void line; a raise line of a press or a void line begun; after a whole void
// line nothing.
#[derive(Clone, Copy)]
pub enum Due {
    MoveOrBound,
    Raise {
        variable: usize,
        target: Target,
        left: usize,
        last: Option<usize>,
    },
    Nothing,
}

// The replay's record. `raised` has a byte for each scope, 0 where the press or void line begun has not raised it.
#[derive(Clone, Copy)]
pub struct Replay {
    pub rounds: u64,
    pub start: i64,
    pub moved: bool,
    pub raised: [u8; SCOPE_PLACES],
    pub due: Due,
    pub standing: Result<(), Refusal>,
}

// The next record with the answer to the line.
#[derive(Clone, Copy)]
pub struct Stepped {
    pub replay: Replay,
    pub answer: Result<(), Refusal>,
}

// The record after a block of lines, how many lines got no number, and the first refusal.
#[derive(Clone, Copy)]
pub struct Block {
    pub replay: Replay,
    pub lines: usize,
    pub answer: Result<(), Refusal>,
}

// What the record holds beside the raised scopes and the standing.
#[derive(Clone, Copy)]
struct Progress {
    rounds: u64,
    start: i64,
    moved: bool,
    due: Due,
}

// What stands after a line, and the answer to it.
#[derive(Clone, Copy)]
struct Taken {
    progress: Progress,
    answer: Result<(), Refusal>,
}

// What is left of a press or a void line after some of its raise lines: lines, the lowest scope above the raised ones, and where the next line begins.
#[derive(Clone, Copy)]
struct Raises {
    left: usize,
    next: usize,
    from: usize,
}

// Where a block stands between two lines: the record, where the next line begins, and how many lines are done.
#[derive(Clone, Copy)]
struct Place {
    progress: Progress,
    from: usize,
    done: usize,
}

fn is_short(due: Due, moved: bool) -> bool
    ensures { result ≡ is_short due moved }
{
    match due {
        Due::MoveOrBound => moved,
        Due::Raise {
            variable: _,
            target: _,
            left: _,
            last: _,
        } => true,
        Due::Nothing => false,
    }
}

fn end_good(replay: Replay, case: Case) -> Result<(), Refusal>
    ensures { result ≡ outcome_of (first_refusal (ending_tests (rules_of case) case replay)) }
{
    if !tables::within_limits(case) {
        return Err(Refusal::OutsideLimits);
    }
    let raised = replay.raised;
    let due = replay.due;
    let out = record_out(case, &raised, replay.rounds, due);
    tables::check_edges(case, out)?;
    if is_short(due, replay.moved) {
        return Err(Refusal::CutShort);
    }
    Ok(())
}

// A fresh record with this bound at the round's start, or one that stands refused.
fn fresh_from(start: Result<i64, Refusal>) -> Replay
    ensures { result ≡ fresh_from start }
{
    match start {
        Err(refusal) => Replay {
            rounds: 0,
            start: 0,
            moved: false,
            raised: [0u8; SCOPE_PLACES],
            due: Due::MoveOrBound,
            standing: Err(refusal),
        },
        Ok(bound) => Replay {
            rounds: 0,
            start: bound,
            moved: false,
            raised: [0u8; SCOPE_PLACES],
            due: Due::MoveOrBound,
            standing: Ok(()),
        },
    }
}

// ---- the calls

impl Replay {
    pub fn fresh(case: Case, table: &[i64]) -> Replay
        ensures { result ≡ fresh_replay (rules_of case) case table.now }
    {
        let checked = tables::check_starting(case, table, false, false);
        match checked {
            Err(refusal) => fresh_from(Err(refusal)),
            Ok(()) => fresh_from(tables::sum_of_greatest(case, table)),
        }
    }

    // A line of any bytes.
    pub fn step(self, case: Case, table: &mut [i64], line: &[u8]) -> Stepped
        ensures { (result ≡ (step_replay (rules_of case) case table.old self line.now).stepped)
            × (table.new ≡ (step_replay (rules_of case) case table.old self line.now).table) }
    {
        let lent = lent_answer(self, case, table);
        match lent {
            Err(refusal) => refuse(self, first_number(self, case, line, refusal)),
            Ok(()) => good_step(self, case, table, line),
        }
    }

    pub fn end(self, case: Case) -> Result<(), Refusal>
        ensures { result ≡ end_replay (rules_of case) case self }
    {
        self.standing?;
        end_good(self, case)
    }

    // A block of whole lines; a part line at its end is not looked at.
    pub fn lines(self, case: Case, table: &mut [i64], bytes: &[u8]) -> Block
        ensures { (result ≡ (block_replay (rules_of case) case table.old self bytes.now).block)
            × (table.new ≡ (block_replay (rules_of case) case table.old self bytes.now).table) }
    {
        let lent = lent_answer(self, case, table);
        match lent {
            Err(refusal) => refused_lines(self, case, bytes, refusal),
            Ok(()) => good_lines(self, case, table, bytes),
        }
    }
}
