// The types that cross the library's border. What each function answers is defined in the crates calls and checker.
#![tactic(auto)]

// Places in arrays, which hold what the greatest rules ask (specs/Rules, specs/Places): variables, edges and scopes of a case; and in the
// programs its table, the input and the output of a round.
pub const VARIABLE_PLACES: usize = 48;

pub const EDGE_PLACES: usize = 96;

pub const SCOPE_PLACES: usize = VARIABLE_PLACES + EDGE_PLACES;

pub const TABLE_PLACES: usize = 8 * VARIABLE_PLACES + 64 * EDGE_PLACES;

pub const INPUT_PLACES: usize = 262144;

pub const ROUND_PLACES: usize = 4347;

// Which rules a case is under. The planner's desk has those of document 01.
#[derive(Clone, Copy)]
pub enum Rulebook {
    Desk,
}

// A case (document 01): n variables (links), d values (channels) for each, m edges (pairs).
// Edge e joins variables lower[e] and upper[e]; places from m on are never asked. The carry, 0 at first, counts in the upper bound (document 02,
// change 5).
#[derive(Clone, Copy)]
pub struct Case {
    pub n: usize,
    pub d: usize,
    pub m: usize,
    pub lower: [u8; EDGE_PLACES],
    pub upper: [u8; EDGE_PLACES],
    pub carry: i64,
    pub rulebook: Rulebook,
}

// Why something is turned back: the numbers 1 to 14 of document 01, and 15 and 16 of document 02, change 2.
#[derive(Clone, Copy)]
pub enum Refusal {
    NotInColumns,
    NotDue,
    OutsideLimits,
    WrongLength,
    OutOfRange,
    EndsNotAscending,
    EdgeRepeated,
    WeightOutOfRange,
    RaiseNotAscending,
    NotRefuted,
    LeavesRange,
    OtherBound,
    BoundNotLower,
    CutShort,
    ScopeBarred,
    NotAllBarred,
}

// A refusal in a file or a log, and the line that it names.
#[derive(Clone, Copy)]
pub struct RefusedAt {
    pub refusal: Refusal,
    pub line: usize,
}

// The five numbers of a line.
#[derive(Clone, Copy)]
pub struct Line {
    pub kind: i64,
    pub a: i64,
    pub b: i64,
    pub c: i64,
    pub amount: i64,
}

// What the head of a case file says, with the length of the table to lend.
#[derive(Clone, Copy)]
pub struct CaseSize {
    pub n: usize,
    pub d: usize,
    pub m: usize,
    pub table: usize,
}

// A case that was read, and the lines used; all zero where it was refused.
#[derive(Clone, Copy)]
pub struct CaseRead {
    pub answer: Result<usize, RefusedAt>,
    pub case: Case,
}

// The judgement of a case and a log that are not refused: the rounds and the last upper bound, or void (no lawful plan exists).
#[derive(Clone, Copy)]
pub enum Judgement {
    Accepted { rounds: u64, bound: i64 },
    Void,
}

// Where the lines of a round lie in a log.
#[derive(Clone, Copy)]
pub struct Span {
    pub from: usize,
    pub to: usize,
}

// One round of the engine: the bytes written and the bound, if one was made; the bytes of a void line.
#[derive(Clone, Copy)]
pub enum Round {
    Settled,
    Made { bytes: usize, bound: i64 },
    Void { bytes: usize },
}

// How a run of the engine ended.
#[derive(Clone, Copy)]
pub enum RunAnswer {
    Settled,
    Limit,
    Void,
}

#[derive(Clone, Copy)]
pub struct Run {
    pub answer: Result<RunAnswer, Refusal>,
    pub rounds: u64,
    pub bound: i64,
}

// Which of two assignments (plans) has the greater objective.
#[derive(Clone, Copy)]
pub enum Choice {
    First,
    Second,
}
