// The engine's functions for programs in other languages. A case crosses as bytes (crate encoding). What each function answers is defined in
// specs/.
#![tactic(auto)]

ghost use Rattle.std.specs.Prelude.{◌≡◌};
ghost use Rattle.definitions.specs.Rules.{rules_of};
ghost use Rattle.definitions.specs.Refusals.{number};
ghost use Rattle.definitions.specs.Answers.{run_says};
ghost use Rattle.definitions.specs.Engine.{engine_next, pairs_next};
ghost use Rattle.calls.specs.EngineCalls.{round_call, run_call};
ghost use Rattle.encoding.specs.CaseBytes.{case_in};
ghost use Rattle.encoding.specs.Version.{version_number};
ghost use Rattle.engine_library.specs.Answers.{round_of, by_limit, by_void, run_of};

use definitions::{Refusal, Round, Run, RunAnswer};
use encoding::CaseArray;

// The bytes written and the bound; no bytes where it is settled. none_lawful is 1 where they are a void line's, which has no bound: no lawful plan
// exists.
#[repr(C)]
#[derive(Clone, Copy)]
pub struct CeilingRound {
    pub number: u64,
    pub bytes: usize,
    pub bound: i64,
    pub none_lawful: u64,
}

// limit is 1 where the run ended by its limit, none_lawful where it ended with a void line; both are 0 where it is settled.
#[repr(C)]
#[derive(Clone, Copy)]
pub struct CeilingRun {
    pub number: u64,
    pub limit: u64,
    pub rounds: u64,
    pub bound: i64,
    pub none_lawful: u64,
}

// ---- answers as numbers

fn number_of(refusal: Refusal) -> u64
    ensures { result ≡ number refusal }
{
    integers::wide(texts::number_of(refusal))
}

fn round_of(round: Result<Round, Refusal>) -> CeilingRound
    ensures { result ≡ round_of round }
{
    match round {
        Ok(Round::Settled) => CeilingRound {
            number: 0,
            bytes: 0,
            bound: 0,
            none_lawful: 0,
        },
        Ok(Round::Made { bytes, bound }) => CeilingRound {
            number: 0,
            bytes,
            bound,
            none_lawful: 0,
        },
        Ok(Round::Void { bytes }) => CeilingRound {
            number: 0,
            bytes,
            bound: 0,
            none_lawful: 1,
        },
        Err(refusal) => CeilingRound {
            number: number_of(refusal),
            bytes: 0,
            bound: 0,
            none_lawful: 0,
        },
    }
}

fn answer_number(answer: Result<RunAnswer, Refusal>) -> u64
    ensures { result ≡ (run_says answer).number }
{
    match answer {
        Ok(RunAnswer::Settled) => 0,
        Ok(RunAnswer::Limit) => 0,
        Ok(RunAnswer::Void) => 0,
        Err(refusal) => number_of(refusal),
    }
}

fn limit_of(answer: Result<RunAnswer, Refusal>) -> u64
    ensures { result ≡ by_limit answer }
{
    match answer {
        Ok(RunAnswer::Settled) => 0,
        Ok(RunAnswer::Limit) => 1,
        Ok(RunAnswer::Void) => 0,
        Err(_) => 0,
    }
}

fn none_lawful_of(answer: Result<RunAnswer, Refusal>) -> u64
    ensures { result ≡ by_void answer }
{
    match answer {
        Ok(RunAnswer::Settled) => 0,
        Ok(RunAnswer::Limit) => 0,
        Ok(RunAnswer::Void) => 1,
        Err(_) => 0,
    }
}

fn run_of(run: Run) -> CeilingRun
    ensures { result ≡ run_of run }
{
    let answer = run.answer;
    CeilingRun {
        number: answer_number(answer),
        limit: limit_of(answer),
        rounds: run.rounds,
        bound: run.bound,
        none_lawful: none_lawful_of(answer),
    }
}

// ---- the calls

#[unsafe(no_mangle)]
pub extern "C" fn ceiling_engine_version() -> u64
    ensures { result ≡ version_number }
{
    encoding::version()
}

// One round, or a void line: its lines from the output's first byte.
#[unsafe(no_mangle)]
pub extern "C" fn ceiling_round(case: &CaseArray, table: &mut [i64], out: &mut [u8]) -> CeilingRound
    ensures { (result ≡ round_of
        (round_call (rules_of (case_in case.now)) engine_next (case_in case.now) table.old out.old).answer)
        × (table.new
        ≡ (round_call (rules_of (case_in case.now)) engine_next (case_in case.now) table.old out.old).table)
        × (out.new
        ≡ (round_call (rules_of (case_in case.now)) engine_next (case_in case.now) table.old out.old).out) }
{
    round_of(engine::round(encoding::case_of(case), table, out))
}

// Rounds one after another, at most `limit`; a void line ends them, also at the limit.
#[unsafe(no_mangle)]
pub extern "C" fn ceiling_run(
    case: &CaseArray,
    table: &mut [i64],
    out: &mut [u8],
    limit: u64,
) -> CeilingRun
    ensures { (result ≡ run_of
        (run_call (rules_of (case_in case.now)) engine_next (case_in case.now) limit table.old out.old).run)
        × (table.new
        ≡ (run_call (rules_of (case_in case.now)) engine_next (case_in case.now) limit table.old out.old).table)
        × (out.new
        ≡ (run_call (rules_of (case_in case.now)) engine_next (case_in case.now) limit table.old out.old).out) }
{
    run_of(engine::run(encoding::case_of(case), table, out, limit))
}

// Pair rounds only, one after another, at most `limit`.
#[unsafe(no_mangle)]
pub extern "C" fn ceiling_run_pairs(
    case: &CaseArray,
    table: &mut [i64],
    out: &mut [u8],
    limit: u64,
) -> CeilingRun
    ensures { (result ≡ run_of
        (run_call (rules_of (case_in case.now)) pairs_next (case_in case.now) limit table.old out.old).run)
        × (table.new
        ≡ (run_call (rules_of (case_in case.now)) pairs_next (case_in case.now) limit table.old out.old).table)
        × (out.new
        ≡ (run_call (rules_of (case_in case.now)) pairs_next (case_in case.now) limit table.old out.old).out) }
{
    run_of(engine::run_pairs(encoding::case_of(case), table, out, limit))
}
