// The next record, in parts and whole.
ghost use Rattle.std.specs.Prelude.{◌≡◌, true, false, ◌+◌, ◌^◌, ◌<◌, Ok, Err};
ghost use Rattle.checker.specs.Taken.{replay_of};

use crate::{Due, Progress, Replay, Taken};
use definitions::{Refusal, SCOPE_PLACES};

pub(crate) fn refused(progress: Progress, refusal: Refusal) -> Taken
    ensures { result ≡ record { progress = progress; answer = Err refusal } }
{
    Taken {
        progress,
        answer: Err(refusal),
    }
}

pub(crate) fn with_due(progress: Progress, due: Due) -> Taken
    ensures { result
        ≡ record {
          progress = record
              { rounds = progress.rounds; start = progress.start; moved = progress.moved; due = due };
          answer = Ok tt;
        } }
{
    Taken {
        progress: Progress {
            rounds: progress.rounds,
            start: progress.start,
            moved: progress.moved,
            due,
        },
        answer: Ok(()),
    }
}

// After a shift or a press.
pub(crate) fn after_move(progress: Progress) -> Taken
    ensures { result
        ≡ record {
          progress = record
              { rounds = progress.rounds; start = progress.start; moved = true; due = Due.MoveOrBound };
          answer = Ok tt;
        } }
{
    Taken {
        progress: Progress {
            rounds: progress.rounds,
            start: progress.start,
            moved: true,
            due: Due::MoveOrBound,
        },
        answer: Ok(()),
    }
}

pub(crate) fn after_bound(progress: Progress, bound: i64) -> Taken
    requires { progress.rounds < 2 ^ 63 }
    ensures { result
        ≡ record {
          progress = record
              { rounds = progress.rounds + 1; start = bound; moved = false; due = Due.MoveOrBound };
          answer = Ok tt;
        } }
{
    Taken {
        progress: Progress {
            rounds: progress.rounds + 1,
            start: bound,
            moved: false,
            due: Due::MoveOrBound,
        },
        answer: Ok(()),
    }
}

// The record of its parts.
pub(crate) fn record_of(
    progress: Progress,
    raised: [u8; SCOPE_PLACES],
    standing: Result<(), Refusal>,
) -> Replay
    ensures { result ≡ replay_of progress raised standing }
{
    let due = progress.due;
    Replay {
        rounds: progress.rounds,
        start: progress.start,
        moved: progress.moved,
        raised,
        due,
        standing,
    }
}

pub(crate) fn progress_of(replay: Replay) -> Progress
    ensures { result ≡ record { rounds = replay.rounds; start = replay.start; moved = replay.moved; due = replay.due } }
{
    let due = replay.due;
    Progress {
        rounds: replay.rounds,
        start: replay.start,
        moved: replay.moved,
        due,
    }
}
