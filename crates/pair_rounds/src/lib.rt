// The round of one pair (document 02, changes 1 and 2), made on a lent table, with its lines in a lent output.
#![tactic(auto)]

ghost use Rattle.std.specs.Prelude.{◌≡◌, false, not, List, [], ◌∷◌, ◌+◌, ◌*◌, ◌^◌, ◌≤◌, ◌<◌, T, ℤ, pos, length};
ghost use Rattle.definitions.specs.Rules.{rules_of};
ghost use Rattle.definitions.specs.Case.{weight};
ghost use Rattle.definitions.specs.Valid.{working_weight};
ghost use Rattle.definitions.specs.Moves.{shift, end_variable};
ghost use Rattle.definitions.specs.Lines.{line_too_wide};
ghost use Rattle.definitions.specs.RoundLines.{bound_line};
ghost use Rattle.definitions.specs.PairRounds.{whole_shift, end_shifts, pair_round};
ghost use Rattle.definitions.specs.Engine.{round_bytes};
ghost use Rattle.theory.proofs.Validity.{Handed};
ghost use Rattle.theory.proofs.Replays.{AllowedShift};
ghost use Rattle.pair_theory.specs.Closed.{pair_leaves};
ghost use Rattle.tables.specs.Scopes.{BestOf};
ghost use Rattle.round_lines.specs.Press.{Put};
ghost use Rattle.pair_rounds.specs.PairCall.{pair_call};
ghost use Rattle.pair_rounds.specs.Shifts.{line_bytes, line_text_of, shift_line, left_out, moves_line_count, Allows, Ready, Shifted, Held};
ghost use Rattle.pair_rounds.specs.Shifts.{Bounded, MadePair};

use definitions::{Case, Line, Refusal, Round, SCOPE_PLACES};

// ---- lines

fn whole(x: usize) -> i64
    requires { x < 10 ^ 4 }
    ensures { result ≡ pos x }
{
    x as i64
}

fn shift_line(edge: usize, end: usize, value: usize, amount: i64) -> Line
    requires { (edge < 10 ^ 4) × (end < 10 ^ 4) × (value < 10 ^ 4) }
    ensures { result ≡ shift_line edge end value amount }
{
    Line {
        kind: 1,
        a: whole(edge),
        b: whole(end),
        c: whole(value),
        amount,
    }
}

fn bound_line(bound: i64) -> Line
    ensures { result ≡ bound_line bound }
{
    Line {
        kind: 4,
        a: 0,
        b: 0,
        c: 0,
        amount: bound,
    }
}

// Puts the line at byte `at`, and answers where it ends.
fn put_line(case: Case, out: &mut [u8], at: usize, line: Line) -> usize
    requires { (at + line_bytes case ≤ length out.old) × (line_too_wide (rules_of case).amount_width line ≡ false) }
    ensures { (result ≡ at + line_bytes case) × Put at (line_text_of case line) (at + line_bytes case) out.old out.new }
{
    let rulebook = case.rulebook;
    let put = log_writer::put_line_in(out, at, line, rules::amount_width(rulebook));
    put.at
}

// ---- shifts

fn weight_at(case: Case, table: &[i64], edge: usize, end: usize, value: usize) -> i64
    requires { Handed (rules_of case) (working_weight (rules_of case)) case table.now × (edge < case.m) × (value < case.d) }
    ensures { result ≡ weight case table.now (end_variable case edge end) value 0 }
{
    let variable = changes::end_variable(case, edge, end);
    table[variable * case.d + value]
}

// A barred value and a weight of 0 are not shifted.
fn left_out(weight: i64) -> bool
    ensures { result ≡ left_out weight }
{
    rules::is_barred(weight) || weight == 0
}

// The shift, which is allowed, and its line.
fn shift_by(
    case: Case,
    table: &mut [i64],
    best: &mut [i64],
    out: &mut [u8],
    at: usize,
    edge: usize,
    end: usize,
    value: usize,
    amount: i64,
) -> usize
    requires ready { Ready case table.old best.old edge × AllowedShift (rules_of case) case table.old edge end value amount }
    requires case_in_bounds { at + line_bytes case ≤ length out.old }
    ensures { Shifted case (shift edge end value amount ∷ []) table.old table.new best.new
        at result out.old out.new }
{
    // The shift is allowed: nothing is refused.
    let _ = changes::transfer(case, table, best, edge, end, value, amount);
    put_line(case, out, at, shift_line(edge, end, value, amount))
}

// The whole weight of a value is shifted, unless it is left out.
fn shift_value(
    case: Case,
    table: &mut [i64],
    best: &mut [i64],
    out: &mut [u8],
    at: usize,
    edge: usize,
    end: usize,
    value: usize,
) -> usize
    requires ready { Ready case table.old best.old edge × (value < case.d) }
    requires allows { Allows case table.old (whole_shift case table.old edge end value) }
    requires value_in_bounds { at + line_bytes case * moves_line_count (whole_shift case table.old edge end value) ≤ length out.old }
    ensures { Shifted case (whole_shift case table.old edge end value) table.old table.new best.new
        at result out.old out.new }
{
    let weight = weight_at(case, table, edge, end, value);
    if left_out(weight) {
        return at;
    }
    shift_by(case, table, best, out, at, edge, end, value, 0 - weight)
}

// The values of one end, upwards.
fn shift_end(
    case: Case,
    table: &mut [i64],
    best: &mut [i64],
    out: &mut [u8],
    from: usize,
    edge: usize,
    end: usize,
) -> usize
    requires ready { Ready case table.old best.old edge }
    requires allows { Allows case table.old (end_shifts case table.old edge end) }
    requires end_in_bounds { from + line_bytes case * moves_line_count (end_shifts case table.old edge end) ≤ length out.old }
    ensures { Shifted case (end_shifts case table.old edge end) table.old table.new best.new
        from result out.old out.new }
{
    let mut at = from;
    for value in 0..case.d {
        at = shift_value(case, table, best, out, at, edge, end, value);
    }
    at
}

// End 0 first.
fn shift_both(case: Case, table: &mut [i64], best: &mut [i64], out: &mut [u8], edge: usize) -> usize
    requires ready { Ready case table.old best.old edge }
    requires allows { Allows case table.old (pair_round case table.old edge) }
    requires edge_in_bounds { line_bytes case * moves_line_count (pair_round case table.old edge) ≤ length out.old }
    ensures { Shifted case (pair_round case table.old edge) table.old table.new best.new
        0 result out.old out.new }
{
    let middle = shift_end(case, table, best, out, 0, edge, 0);
    shift_end(case, table, best, out, middle, edge, 1)
}

// ---- the round

// The bound line, and what a round answers that was made.
fn put_bound(case: Case, out: &mut [u8], best: &[i64], at: usize) -> Result<Round, Refusal>
    requires case_in_bounds { at + line_bytes case ≤ length out.old }
    requires held { Held case best.now }
    ensures { (v : List ℤ) → Handed (rules_of case) (working_weight (rules_of case)) case v → BestOf case v best.now
        → Bounded case v at out.old out.new result }
{
    let bound = tables::sum_of_best(case, best)?;
    let bytes = put_line(case, out, at, bound_line(bound));
    Ok(Round::Made { bytes, bound })
}

// The round of a pair that does not leave the range.
fn shift_pair(
    case: Case,
    table: &mut [i64],
    out: &mut [u8],
    best: &mut [i64],
    edge: usize,
) -> Result<Round, Refusal>
    requires ready { Ready case table.old best.old edge }
    requires t { T (not (pair_leaves (rules_of case) case table.old edge)) × (round_bytes (rules_of case) case ≤ length out.old) }
    ensures { MadePair case table.old out.old edge table.new out.new result }
{
    let at = shift_both(case, table, best, out, edge);
    put_bound(case, out, best, at)
}

fn pair_round(case: Case, table: &mut [i64], out: &mut [u8], edge: usize) -> Result<Round, Refusal>
    requires handed { Handed (rules_of case) (working_weight (rules_of case)) case table.old × (edge < case.m) }
    requires case_in_bounds { round_bytes (rules_of case) case ≤ length out.old }
    ensures { MadePair case table.old out.old edge table.new out.new result }
{
    if pair_choice::leaves_range(case, table, edge) {
        return Err(Refusal::LeavesRange);
    }
    let mut best = [0i64; SCOPE_PLACES];
    // The table was checked: nothing is refused.
    let _ = tables::greatest_weights(case, table, &mut best);
    shift_pair(case, table, out, &mut best, edge)
}

// ---- the call

// The round of one pair: its lines from the output's first byte. Asks 3 to 8 and 15, 4 of the output and 5 of the edge too, and 11; refused, table
// and output keep what they held. Whether the pair gains is not asked.
pub fn make_round(
    case: Case,
    table: &mut [i64],
    out: &mut [u8],
    edge: usize,
) -> Result<Round, Refusal>
    ensures { (result ≡ (pair_call (rules_of case) case table.old out.old edge).answer)
        × (table.new ≡ (pair_call (rules_of case) case table.old out.old edge).table)
        × (out.new ≡ (pair_call (rules_of case) case table.old out.old edge).out) }
{
    round_lines::check_round(case, table, out.len(), !(edge < case.m))?;
    pair_round(case, table, out, edge)
}
