// The program `press` as a start and rounds one after another (document 01, on `press`): the case is handed over once, each call writes what is
// to be printed next to a lent output, and what stands between the calls is a record by value and the lent table.
#![tactic(auto)]

ghost use Rattle.definitions.specs.Answers.{answer_of};
ghost use Rattle.std.specs.Prelude.{◌≡◌, false, ◌<◌, length};
ghost use Rattle.definitions.specs.declared.Rulebook.TheVariants.{Desk};
ghost use Rattle.definitions.specs.Rules.{rules_of};
ghost use Rattle.definitions.specs.CaseFiles.{case_of, case_size};
ghost use Rattle.calls.specs.EngineCalls.{is_leaving};
ghost use Rattle.definitions.specs.Programs.{table_for};
ghost use Rattle.round_lines.specs.Asked.{round_refusal};
ghost use Rattle.pressing.specs.Pressing.{with_left, after_text, press_refusal, short_or, head_or_short, start_pressing, round_next, next_pressing};

use definitions::{Case, CaseSize, EDGE_PLACES, Refusal, RefusedAt, Round, Rulebook};

// An output must have so many bytes for a text.
const ROOM: usize = 64;

// The number where a move would take a working weight outside its range.
const LEAVES_RANGE: u8 = 11;

// The number where the input stops inside a line or the case.
const CUT_SHORT: u8 = 14;

// The most rounds that are made.
const ROUNDS: u64 = 100_000;

// What stands between the calls: the case, the lines of the input, and how many rounds may follow. With none, nothing more is due.
#[derive(Clone, Copy)]
pub struct Pressing {
    pub case: Case,
    pub lines: usize,
    pub left: u64,
}

// What a call leaves, and how many of the output's first bytes are to be printed.
#[derive(Clone, Copy)]
pub struct Pressed {
    pub pressing: Pressing,
    pub written: Result<usize, Refusal>,
}

fn no_case() -> Case
    ensures { result ≡ case_of Desk 0 0 0 }
{
    let lower = [0u8; EDGE_PLACES];
    let upper = [0u8; EDGE_PLACES];
    Case {
        n: 0,
        d: 0,
        m: 0,
        lower,
        upper,
        carry: 0,
        rulebook: Rulebook::Desk,
    }
}

fn with_left(pressing: Pressing, left: u64) -> Pressing
    ensures { result ≡ with_left pressing left }
{
    let case = pressing.case;
    Pressing {
        case,
        lines: pressing.lines,
        left,
    }
}

fn is_leaving(refusal: Refusal) -> bool
    ensures { result ≡ is_leaving refusal }
{
    texts::number_of(refusal) == LEAVES_RANGE
}

fn write_refusal(refusal: Refusal, lines: usize, out: &mut [u8]) -> Result<usize, Refusal>
    ensures { (result ≡ (press_refusal refusal lines out.old).answer) × (out.new ≡ (press_refusal refusal lines out.old).out) }
{
    if is_leaving(refusal) {
        texts::write_refused(out, refusal, lines)
    } else {
        Err(refusal)
    }
}

// Nothing more is due after a text or a void line.
fn after_text(pressing: Pressing, written: Result<usize, Refusal>) -> Pressed
    ensures { result ≡ after_text pressing written }
{
    match written {
        Ok(n) => {
            let over = with_left(pressing, 0);
            Pressed {
                pressing: over,
                written: Ok(n),
            }
        }
        Err(refusal) => Pressed {
            pressing,
            written: Err(refusal),
        },
    }
}

fn one_round(pressing: Pressing, table: &mut [i64], out: &mut [u8]) -> Pressed
    requires { 0 < pressing.left }
    ensures { (result ≡ (round_next pressing table.old out.old).pressed)
        × (table.new ≡ (round_next pressing table.old out.old).table)
        × (out.new ≡ (round_next pressing table.old out.old).out) }
{
    let case = pressing.case;
    let round = engine::round(case, table, out);
    match round {
        Ok(Round::Settled) => after_text(pressing, Ok(0)),
        Ok(Round::Made { bytes, bound: _ }) => {
            let next = with_left(pressing, pressing.left - 1);
            Pressed {
                pressing: next,
                written: Ok(bytes),
            }
        }
        Ok(Round::Void { bytes }) => after_text(pressing, Ok(bytes)),
        Err(refusal) => {
            let written = write_refusal(refusal, pressing.lines, out);
            after_text(pressing, written)
        }
    }
}

// No round may follow: what is handed over is asked as the engine's round asks it.
fn ask_round(case: Case, table: &[i64], length: usize) -> Result<usize, Refusal>
    ensures { result ≡ answer_of (round_refusal (rules_of case) case table.now length false) 0 }
{
    round_lines::check_round(case, table, length, false)?;
    Ok(0)
}

// 4 of the output, unless the head is refused by what is asked before it.
fn short_or(refusal: Refusal) -> Refusal
    ensures { result ≡ short_or refusal }
{
    if texts::number_of(refusal) == CUT_SHORT {
        return Refusal::WrongLength;
    }
    refusal
}

fn head_or_short(bytes: &[u8]) -> Refusal
    ensures { result ≡ head_or_short (case_size Desk bytes.now) }
{
    let size = casefile::case_size(bytes);
    match size {
        Err(refusal) => short_or(refusal),
        Ok(
            CaseSize {
                n: _,
                d: _,
                m: _,
                table: _,
            },
        ) => Refusal::WrongLength,
    }
}

// ---- the calls

// The length of the table to lend: what the head of the case asks for.
pub fn table_length(bytes: &[u8]) -> usize
    ensures { result ≡ length (table_for (case_size Desk bytes.now)) }
{
    let size = casefile::case_size(bytes);
    match size {
        Err(_) => 0,
        Ok(
            CaseSize {
                n: _,
                d: _,
                m: _,
                table,
            },
        ) => table,
    }
}

// Reads the case. Refused, its text is written and nothing more is due.
pub fn start(bytes: &[u8], table: &mut [i64], out: &mut [u8]) -> Pressed
    ensures { (result ≡ (start_pressing Desk bytes.now table.old out.old).pressed)
        × (table.new ≡ (start_pressing Desk bytes.now table.old out.old).table)
        × (out.new ≡ (start_pressing Desk bytes.now table.old out.old).out) }
{
    if out.len() < ROOM {
        let refusal = head_or_short(bytes);
        return Pressed {
            pressing: Pressing {
                case: no_case(),
                lines: 0,
                left: 0,
            },
            written: Err(refusal),
        };
    }
    let read = casefile::read_case_alone(bytes, table);
    let case = read.case;
    let answer = read.answer;
    match answer {
        Err(RefusedAt { refusal, line }) => {
            let written = texts::write_refused(out, refusal, line);
            Pressed {
                pressing: Pressing {
                    case,
                    lines: line,
                    left: 0,
                },
                written,
            }
        }
        Ok(lines) => Pressed {
            pressing: Pressing {
                case,
                lines,
                left: ROUNDS,
            },
            written: Ok(0),
        },
    }
}

// The next round, if one may follow: its lines, those of a void line, or the text of a refusal by the engine. If none may, only what is handed
// over is asked.
pub fn next(pressing: Pressing, table: &mut [i64], out: &mut [u8]) -> Pressed
    ensures { (result ≡ (next_pressing pressing table.old out.old).pressed)
        × (table.new ≡ (next_pressing pressing table.old out.old).table)
        × (out.new ≡ (next_pressing pressing table.old out.old).out) }
{
    if pressing.left == 0 {
        let case = pressing.case;
        let written = ask_round(case, table, out.len());
        return Pressed { pressing, written };
    }
    one_round(pressing, table, out)
}
