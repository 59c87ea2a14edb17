// The replay of a log, with links that leave and join. Its record goes by value: the next record comes back with the answer (document 01, "The
// replay's record says what is due"). What its calls answer is defined in specs/.
#![tactic(auto)]

use case_lines::Awaited;
use checker::Replay;
use definitions::{Case, EDGE_PLACES, Refusal};

// A join begun: how many edges it has, and the line of it that is due.
#[derive(Clone, Copy)]
pub struct JoinBegun {
    pub edges: usize,
    pub due: Awaited,
}

// The replay's record: that of the stretch, the join begun, if there is one, and the lower ends of its edges, as far as they were read.
#[derive(Clone, Copy)]
pub struct LogRecord {
    pub stretch: Replay,
    pub joining: Option<JoinBegun>,
    pub lower: [u8; EDGE_PLACES],
}

// The next record and the case with the answer to the line.
#[derive(Clone, Copy)]
pub struct Stepped {
    pub replay: LogRecord,
    pub case: Case,
    pub answer: Result<(), Refusal>,
}

// The record and the case after a block of lines, how many lines got no number, and the first refusal.
#[derive(Clone, Copy)]
pub struct Block {
    pub replay: LogRecord,
    pub case: Case,
    pub lines: usize,
    pub answer: Result<(), Refusal>,
}
