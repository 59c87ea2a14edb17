// The engine (document 01, "The engine's round"; document 02, changes 1 and 2): one round or a void line, and the run that makes rounds one after
// another, or pair rounds only.
#![tactic(auto)]

mod choosing;
mod guess;
mod trim;

ghost use Rattle.std.specs.Prelude.{◌≡◌, Bool, false, List, ◌*◌, ◌≤◌, ◌<◌, T, ℤ, length, Some, None};
ghost use Rattle.definitions.specs.Rules.{rules_of, variable_places, edge_places};
ghost use Rattle.definitions.specs.Case.{scope_count};
ghost use Rattle.definitions.specs.Valid.{working_weight};
ghost use Rattle.definitions.specs.Moves.{press_amount};
ghost use Rattle.definitions.specs.PairRounds.{lowest_pair};
ghost use Rattle.definitions.specs.Engine.{chosen, least_gap, round_bytes, engine_next, pairs_next};
ghost use Rattle.calls.specs.EngineCalls.{round_call, run_call};
ghost use Rattle.theory.proofs.Validity.{Handed};
ghost use Rattle.tables.specs.Scopes.{BestOf};
ghost use Rattle.engine.specs.Search.{Prepared, AllRaised, FoundIs};
ghost use Rattle.round_lines.specs.Press.{write_all_call};
ghost use Rattle.engine.specs.Rounds.{Found, Pressed, PressMade, round_written, MadeRound, LimitIs, RunIs, stopped_run};

use arcs::ROW_PLACES;
use definitions::{Case, Refusal, Round, Run, RunAnswer, SCOPE_PLACES, VARIABLE_PLACES};

// ---- the amount

// The least gap, if the kept scopes or the variable's own scope set one.
fn least_gap(case: Case, table: &[i64], best: &[i64], raised: &[u8], variable: usize) -> Option<i64>
    requires { Found case table.now best.now raised.now variable }
    ensures { result ≡ least_gap case table.now variable }
{
    let gap = gaps::least_gap(case, table, best, raised, variable);
    match gap {
        Ok(amount) => {
            if amount == gaps::NO_GAP {
                return None;
            }
            Some(amount)
        }
        Err(_) => None,
    }
}

// ---- the round

// Writes the marks of a table, for the searches, and answers the lowest pair whose round comes before a press.
fn prepare(
    case: Case,
    table: &[i64],
    best: &[i64],
    acts: &mut [u8],
    rows: &mut [u8],
) -> Option<usize>
    requires handed { Handed (rules_of case) (working_weight (rules_of case)) case table.now × BestOf case table.now best.now }
    requires n_in_bounds { (case.n ≤ length acts.old) × (16 * case.m ≤ length rows.old) }
    ensures { (result ≡ lowest_pair (rules_of case) case table.now)
        × Prepared case table.now acts.new rows.new }
{
    // The table was checked, and the lengths fit: nothing is refused.
    let _ = arcs::active_marks(case, table, best, acts, rows);
    pair_choice::lowest_pair(case, table, best, acts, rows)
}

fn press(
    case: Case,
    table: &mut [i64],
    best: &mut [i64],
    raised: &[u8],
    variable: usize,
    amount: i64,
) -> Result<(), Refusal>
    requires handed { Handed (rules_of case) (working_weight (rules_of case)) case table.old }
    requires best_of { BestOf case table.old best.old }
    requires case_in_bounds { (scope_count case ≤ length raised.now) × (variable < case.n) × T (press_amount (rules_of case) amount) }
    ensures { Pressed case variable raised.now amount table.old table.new best.new result }
{
    let values = changes::best_values(case, table, best, variable);
    changes::lower_and_raise(case, table, best, raised, variable, values, amount)
}

// The lines of the round, or why there are none.
fn write_lines(
    case: Case,
    out: &mut [u8],
    raised: &[u8],
    variable: usize,
    amount: i64,
    bound: i64,
) -> Result<Round, Refusal>
    ensures value { result ≡ round_written (write_all_call (rules_of case) case out.old raised.now variable amount bound).answer bound }
    ensures out_after { out.new ≡ (write_all_call (rules_of case) case out.old raised.now variable amount bound).out }
{
    let bytes = round_lines::write_all(case, out, raised, variable, amount, bound)?;
    Ok(Round::Made { bytes, bound })
}

// The lines of a press that was made, with the bound after it.
fn write_pressed(
    case: Case,
    out: &mut [u8],
    best: &[i64],
    raised: &[u8],
    variable: usize,
    amount: i64,
) -> Result<Round, Refusal>
    requires { (scope_count case ≤ length raised.now) × (round_bytes (rules_of case) case ≤ length out.old) }
    ensures { (w after : List ℤ) → PressMade case variable raised.now amount w after best.now
        → MadeRound false case w out.old after out.new result }
{
    let bound = tables::sum_of_best(case, best)?;
    write_lines(case, out, raised, variable, amount, bound)
}

// The press of the chosen variable by its least gap, and its lines.
fn press_round(
    case: Case,
    table: &mut [i64],
    out: &mut [u8],
    best: &mut [i64],
    raised: &[u8],
    variable: usize,
    amount: i64,
) -> Result<Round, Refusal>
    requires found { Found case table.old best.old raised.now variable × (least_gap case table.old variable ≡ Some amount) }
    requires case_in_bounds { round_bytes (rules_of case) case ≤ length out.old }
    ensures { MadeRound false case table.old out.old table.new out.new result
        × BestOf case table.new best.new }
{
    press(case, table, best, raised, variable, amount)?;
    write_pressed(case, out, best, raised, variable, amount)
}

// The void line of the chosen variable, where nothing sets a gap.
fn void_line(case: Case, out: &mut [u8], raised: &[u8], variable: usize) -> Result<Round, Refusal>
    requires { round_bytes (rules_of case) case ≤ length out.old }
    ensures { (w best : List ℤ) → Found case w best raised.now variable → least_gap case w variable ≡ None
        → MadeRound false case w out.old w out.new result }
{
    let bytes = round_lines::write_void(case, out, raised, variable)?;
    Ok(Round::Void { bytes })
}

fn press_or_void(
    case: Case,
    table: &mut [i64],
    out: &mut [u8],
    best: &mut [i64],
    raised: &[u8],
    variable: usize,
) -> Result<Round, Refusal>
    requires { Found case table.old best.old raised.now variable × (round_bytes (rules_of case) case ≤ length out.old) }
    ensures { MadeRound false case table.old out.old table.new out.new result
        × BestOf case table.new best.new }
{
    let least = least_gap(case, table, best, raised, variable);
    match least {
        None => void_line(case, out, raised, variable),
        Some(amount) => press_round(case, table, out, best, raised, variable, amount),
    }
}

// The variable to press, and the scopes to raise.
fn search(case: Case, acts: &[u8], rows: &[u8], raised: &mut [u8]) -> Option<usize>
    requires { (scope_count case ≤ length raised.old) × (case.n ≤ length acts.now) × (case.n ≤ variable_places) × (case.d ≤ 8)
        × (case.m ≤ edge_places) }
    ensures { (w : List ℤ) → Prepared case w acts.now rows.now → AllRaised case raised.old
        → FoundIs case w raised.new result }
{
    let found = choosing::choose(case, acts, rows, raised);
    match found {
        None => None,
        Some(i) => {
            trim::trim(case, acts, rows, raised, i);
            Some(i)
        }
    }
}

// A press and its lines, or a void line, where no pair comes first.
fn press_next(
    case: Case,
    table: &mut [i64],
    out: &mut [u8],
    best: &mut [i64],
    acts: &[u8],
    rows: &[u8],
) -> Result<Round, Refusal>
    requires handed { Handed (rules_of case) (working_weight (rules_of case)) case table.old × BestOf case table.old best.old }
    requires case_in_bounds { round_bytes (rules_of case) case ≤ length out.old }
    requires prepared { Prepared case table.old acts.now rows.now × (case.n ≤ length acts.now) }
    requires table_value { lowest_pair (rules_of case) case table.old ≡ None }
    ensures { MadeRound false case table.old out.old table.new out.new result
        × BestOf case table.new best.new }
{
    let mut raised = [1u8; SCOPE_PLACES];
    let found = search(case, acts, rows, &mut raised);
    match found {
        None => Ok(Round::Settled),
        Some(i) => press_or_void(case, table, out, best, &raised, i),
    }
}

// Each scope's greatest weight.
fn greatest_of(case: Case, table: &[i64], best: &mut [i64])
    requires { Handed (rules_of case) (working_weight (rules_of case)) case table.now × (scope_count case ≤ length best.old) }
    ensures { BestOf case table.now best.new }
{
    // The table was checked: nothing is refused.
    let _ = tables::greatest_weights(case, table, best);
}

// The round of the lowest pair.
fn pair_round(
    case: Case,
    table: &mut [i64],
    out: &mut [u8],
    best: &mut [i64],
    edge: usize,
) -> Result<Round, Refusal>
    requires handed { Handed (rules_of case) (working_weight (rules_of case)) case table.old × BestOf case table.old best.old }
    requires case_in_bounds { round_bytes (rules_of case) case ≤ length out.old }
    requires table_value { lowest_pair (rules_of case) case table.old ≡ Some edge }
    ensures { ((pairs : Bool) → MadeRound pairs case table.old out.old table.new out.new result)
        × BestOf case table.new best.new }
{
    let made = pair_rounds::make_round(case, table, out, edge);
    greatest_of(case, table, best);
    made
}

// One round on a case and a table that were checked before; pair rounds only, if `pairs`. `best` holds each scope's greatest weight, before and
// after.
fn round_checked(
    case: Case,
    table: &mut [i64],
    out: &mut [u8],
    best: &mut [i64],
    pairs: bool,
) -> Result<Round, Refusal>
    requires handed { Handed (rules_of case) (working_weight (rules_of case)) case table.old × BestOf case table.old best.old }
    requires case_in_bounds { round_bytes (rules_of case) case ≤ length out.old }
    ensures { MadeRound pairs case table.old out.old table.new out.new result
        × BestOf case table.new best.new }
{
    let mut acts = [0u8; VARIABLE_PLACES];
    let mut rows = [0u8; ROW_PLACES];
    let found = prepare(case, table, best, &mut acts, &mut rows);
    match found {
        Some(edge) => pair_round(case, table, out, best, edge),
        None => {
            if pairs {
                return Ok(Round::Settled);
            }
            press_next(case, table, out, best, &acts, &rows)
        }
    }
}

fn first_round(case: Case, table: &mut [i64], out: &mut [u8]) -> Result<Round, Refusal>
    requires handed { Handed (rules_of case) (working_weight (rules_of case)) case table.old }
    requires case_in_bounds { round_bytes (rules_of case) case ≤ length out.old }
    ensures { MadeRound false case table.old out.old table.new out.new result }
{
    let mut best = [0i64; SCOPE_PLACES];
    greatest_of(case, table, &mut best);
    round_checked(case, table, out, &mut best, false)
}

// ---- the run

// What a run answers that may make no more rounds; a void line of the chosen variable is written.
fn limit_press(
    case: Case,
    table: &[i64],
    out: &mut [u8],
    best: &[i64],
    raised: &[u8],
    variable: usize,
) -> Result<RunAnswer, Refusal>
    requires { Found case table.now best.now raised.now variable × (round_bytes (rules_of case) case ≤ length out.old) }
    ensures { LimitIs false case table.now out.old out.new result }
{
    let least = least_gap(case, table, best, raised, variable);
    match least {
        Some(_) => Ok(RunAnswer::Limit),
        None => {
            // There is room for the lines: nothing is refused.
            let _ = void_line(case, out, raised, variable);
            Ok(RunAnswer::Void)
        }
    }
}

fn limit_next(
    case: Case,
    table: &[i64],
    out: &mut [u8],
    best: &[i64],
    acts: &[u8],
    rows: &[u8],
) -> Result<RunAnswer, Refusal>
    requires handed { Handed (rules_of case) (working_weight (rules_of case)) case table.now × BestOf case table.now best.now }
    requires case_in_bounds { round_bytes (rules_of case) case ≤ length out.old }
    requires prepared { Prepared case table.now acts.now rows.now × (case.n ≤ length acts.now) }
    requires table_value { lowest_pair (rules_of case) case table.now ≡ None }
    ensures { LimitIs false case table.now out.old out.new result }
{
    let mut raised = [1u8; SCOPE_PLACES];
    let found = search(case, acts, rows, &mut raised);
    match found {
        None => Ok(RunAnswer::Settled),
        Some(i) => limit_press(case, table, out, best, &raised, i),
    }
}

fn at_limit(
    case: Case,
    table: &[i64],
    out: &mut [u8],
    best: &[i64],
    pairs: bool,
) -> Result<RunAnswer, Refusal>
    requires handed { Handed (rules_of case) (working_weight (rules_of case)) case table.now × BestOf case table.now best.now }
    requires case_in_bounds { round_bytes (rules_of case) case ≤ length out.old }
    ensures { LimitIs pairs case table.now out.old out.new result }
{
    let mut acts = [0u8; VARIABLE_PLACES];
    let mut rows = [0u8; ROW_PLACES];
    let found = prepare(case, table, best, &mut acts, &mut rows);
    match found {
        Some(_) => Ok(RunAnswer::Limit),
        None => {
            if pairs {
                return Ok(RunAnswer::Settled);
            }
            limit_next(case, table, out, best, &acts, &rows)
        }
    }
}

fn stop_run(
    case: Case,
    table: &[i64],
    best: &[i64],
    answer: Result<RunAnswer, Refusal>,
    rounds: u64,
) -> Run
    requires { Handed (rules_of case) (working_weight (rules_of case)) case table.now × BestOf case table.now best.now }
    ensures { result ≡ stopped_run case table.now answer rounds }
{
    let sum = tables::sum_of_best(case, best);
    match sum {
        Err(refusal) => Run {
            answer: Err(refusal),
            rounds,
            bound: 0,
        },
        Ok(bound) => Run {
            answer,
            rounds,
            bound,
        },
    }
}

fn run_checked(
    case: Case,
    table: &mut [i64],
    out: &mut [u8],
    best: &mut [i64],
    limit: u64,
    pairs: bool,
) -> Run
    requires handed { Handed (rules_of case) (working_weight (rules_of case)) case table.old × BestOf case table.old best.old }
    requires case_in_bounds { round_bytes (rules_of case) case ≤ length out.old }
    ensures { RunIs pairs case limit table.old out.old table.new out.new result }
{
    for done in 0..limit {
        let made = round_checked(case, table, out, best, pairs);
        match made {
            Err(refusal) => return stop_run(case, table, best, Err(refusal), done),
            Ok(round) => match round {
                Round::Settled => return stop_run(case, table, best, Ok(RunAnswer::Settled), done),
                Round::Void { bytes: _ } => {
                    return stop_run(case, table, best, Ok(RunAnswer::Void), done);
                }
                Round::Made { bytes: _, bound: _ } => {}
            },
        }
    }
    let answer = at_limit(case, table, out, best, pairs);
    stop_run(case, table, best, answer, limit)
}

fn run_from(case: Case, table: &mut [i64], out: &mut [u8], limit: u64, pairs: bool) -> Run
    requires handed { Handed (rules_of case) (working_weight (rules_of case)) case table.old }
    requires case_in_bounds { round_bytes (rules_of case) case ≤ length out.old }
    ensures { RunIs pairs case limit table.old out.old table.new out.new result }
{
    let mut best = [0i64; SCOPE_PLACES];
    greatest_of(case, table, &mut best);
    run_checked(case, table, out, &mut best, limit, pairs)
}

// A run, after what is asked before its first round.
fn run_asked(case: Case, table: &mut [i64], out: &mut [u8], limit: u64, pairs: bool) -> Run
    ensures { RunIs pairs case limit table.old out.old table.new out.new result }
{
    let checked = round_lines::check_round(case, table, out.len(), false);
    match checked {
        Err(refusal) => Run {
            answer: Err(refusal),
            rounds: 0,
            bound: 0,
        },
        Ok(()) => run_from(case, table, out, limit, pairs),
    }
}

// ---- the calls

// One round, or a void line: its lines from the output's first byte. Settled or refused, table and output keep what they held; with a void line
// the table does.
pub fn round(case: Case, table: &mut [i64], out: &mut [u8]) -> Result<Round, Refusal>
    ensures { (result ≡ (round_call (rules_of case) engine_next case table.old out.old).answer)
        × (table.new ≡ (round_call (rules_of case) engine_next case table.old out.old).table)
        × (out.new ≡ (round_call (rules_of case) engine_next case table.old out.old).out) }
{
    round_lines::check_round(case, table, out.len(), false)?;
    first_round(case, table, out)
}

// Rounds one after another, at most `limit`; a void line ends them, and is written even at the limit.
pub fn run(case: Case, table: &mut [i64], out: &mut [u8], limit: u64) -> Run
    ensures { (result ≡ (run_call (rules_of case) engine_next case limit table.old out.old).run)
        × (table.new ≡ (run_call (rules_of case) engine_next case limit table.old out.old).table)
        × (out.new ≡ (run_call (rules_of case) engine_next case limit table.old out.old).out) }
{
    run_asked(case, table, out, limit, false)
}

// Pair rounds only, one after another, at most `limit`.
pub fn run_pairs(case: Case, table: &mut [i64], out: &mut [u8], limit: u64) -> Run
    ensures { (result ≡ (run_call (rules_of case) pairs_next case limit table.old out.old).run)
        × (table.new ≡ (run_call (rules_of case) pairs_next case limit table.old out.old).table)
        × (out.new ≡ (run_call (rules_of case) pairs_next case limit table.old out.old).out) }
{
    run_asked(case, table, out, limit, true)
}
