// Weights changed on a table that was checked before, with a number for each scope, its greatest weight, kept in step. Barred tuples stay as they
// are. Inner functions, for other crates: each asks only what is said at it, and none asks 6 to 10. Document 01's moves are `moves::shift` and
// `moves::press`.
#![tactic(auto)]

ghost use Rattle.std.specs.Prelude.{◌≡◌, not, ◌||◌, ℕ, ◌+◌, ◌*◌, ◌≤◌, ◌<◌, T, ltb, eqb, length, set, pos, if◌then◌else◌, Ok, Err};
ghost use Rattle.std.specs.Int.{w64};
ghost use Rattle.std.proofs.Common.{SFits};
ghost use Rattle.integers.specs.Words.{all, eq_z, within_z};
ghost use Rattle.definitions.specs.Rules.{rules_in, rules_of};
ghost use Rattle.definitions.specs.declared.Refusal.TheVariants.{LeavesRange};
ghost use Rattle.definitions.specs.Moves.{shift_amount, press_amount, plus, end_variable};
ghost use Rattle.calls.specs.Calls.{shift_out};
ghost use Rattle.definitions.specs.Case.{scope_count, place, lent_length, greatest};
ghost use Rattle.tables.specs.Scopes.{Limited, size_of, scope_part, best_at};
ghost use Rattle.marks.specs.Marks.{mark};
ghost use Rattle.changes.specs.Spaced.{amount_within, weight_with, stays_with};
ghost use Rattle.changes.specs.Spaced.{Inside, SumsFit, spaced_stay, spaced_add, transfer_stays, transferred};
ghost use Rattle.changes.specs.Scopes.{raised_by, lowered_by, Amounts, AmountsFit, PartFits, part_stays, has_room, part_after};
ghost use Rattle.changes.specs.Scopes.{InScope, scope_by, values_in, rest_of, is_touched, scope_gets, scope_lets, lowering_lets};
ghost use Rattle.changes.specs.Kept.{transfer_change, lowering_change, table_after, stays_working, KeptMade, KeptBy, Gives};
ghost use Rattle.changes.specs.Kept.{values_with, lowering_out, best_values, transfer_call, lower_and_raise_call};

use definitions::{Case, EDGE_PLACES, Refusal, Rulebook};

fn is_within(z: i64, low: i64, high: i64) -> bool
    ensures { result ≡ within_z low high z }
{
    low <= z && z <= high
}

// The weight keeps its range with `by` added; nothing is added here, so that any weight can be asked.
fn stays_with(rulebook: Rulebook, weight: i64, by: i64) -> bool
    requires { T (amount_within (rules_in rulebook) by) }
    ensures { result ≡ stays_with (rules_in rulebook) weight by }
{
    let low = rules::least_working(rulebook) - by;
    let high = rules::most_working(rulebook) - by;
    if is_within(weight, low, high) {
        return true;
    }
    rules::is_barred(weight)
}

// The weight with `by` added; a barred tuple's stays.
fn weight_with(weight: i64, by: i64) -> i64
    requires { SFits w64 (weight_with weight by) }
    ensures { result ≡ weight_with weight by }
{
    if rules::is_barred(weight) {
        return weight;
    }
    weight + by
}

// ---- weights that stand `step` apart

// All keep their range with `by` added.
fn spaced_stay(
    rulebook: Rulebook,
    table: &[i64],
    start: usize,
    step: usize,
    count: usize,
    by: i64,
) -> bool
    requires inside { Inside table.now start step count }
    requires t { T (amount_within (rules_in rulebook) by) }
    ensures { result ≡ spaced_stay (rules_in rulebook) table.now start step count by }
{
    (0..count).all(|j| stays_with(rulebook, table[start + j * step], by))
}

fn spaced_add(table: &mut [i64], start: usize, step: usize, count: usize, by: i64)
    requires inside { Inside table.old start step count }
    requires sums_fit { SumsFit table.old start step count by × (0 < step) }
    ensures { table.new ≡ spaced_add table.old start step count by }
{
    for j in 0..count {
        let p = start + j * step;
        table[p] = weight_with(table[p], by);
    }
}

// ---- an amount transferred

// Adds `amount` to the weight at `own` and subtracts it from the others, unless one would leave its range.
fn transfer_by(
    rulebook: Rulebook,
    table: &mut [i64],
    own: usize,
    start: usize,
    step: usize,
    count: usize,
    amount: i64,
) -> Result<(), Refusal>
    requires inside { Inside table.old own 1 1 }
    requires inside_2 { Inside table.old start step count }
    requires t { T (amount_within (rules_in rulebook) amount) × (0 < step) }
    requires by_index { (j : ℕ) → j < count → start + j * step ≡ own → ⊥ }
    ensures value { result ≡ (if transfer_stays (rules_in rulebook) table.old own start step count amount
        then Ok tt else Err LeavesRange) }
    ensures table_after { table.new ≡ (if transfer_stays (rules_in rulebook) table.old own start step count amount
        then transferred table.old own start step count amount else table.old) }
{
    let back = 0 - amount;
    if !spaced_stay(rulebook, table, own, 1, 1, amount) {
        return Err(Refusal::LeavesRange);
    }
    if !spaced_stay(rulebook, table, start, step, count, back) {
        return Err(Refusal::LeavesRange);
    }
    spaced_add(table, own, 1, 1, amount);
    spaced_add(table, start, step, count, back);
    Ok(())
}

// The value's d tuples are one row at end 0, and one column at end 1.
fn transfer_checked(
    case: Case,
    table: &mut [i64],
    edge: usize,
    end: usize,
    value: usize,
    amount: i64,
) -> Result<(), Refusal>
    requires limited { Limited case × (length table.old ≡ lent_length (rules_of case) case) }
    requires edge_lt_m { (edge < case.m) × (end < 2) × (value < case.d) × (end_variable case edge end < case.n) }
    requires t { T (amount_within (rules_of case) amount) }
    ensures value { result ≡ (if stays_working (rules_of case) case table.old (transfer_change case edge end value amount)
        then Ok tt else Err LeavesRange) }
    ensures table_after { table.new ≡ (if stays_working (rules_of case) case table.old (transfer_change case edge end value amount)
        then table_after case table.old (transfer_change case edge end value amount) else table.old) }
{
    let rulebook = case.rulebook;
    let d = case.d;
    let first = case.n * d + edge * (d * d);
    let own = end_variable(case, edge, end) * d + value;
    if end == 0 {
        transfer_by(rulebook, table, own, first + value * d, 1, d, amount)
    } else {
        transfer_by(rulebook, table, own, first + value, d, d, amount)
    }
}

fn is_shift_amount(rulebook: Rulebook, amount: i64) -> bool
    ensures { result ≡ shift_amount (rules_in rulebook) amount }
{
    if !is_within(
        amount,
        rules::least_moving(rulebook),
        rules::most_moving(rulebook),
    ) {
        return false;
    }
    amount != 0
}

// ---- values by their weight

fn same_weight(a: i64, b: i64) -> bool
    ensures { result ≡ eq_z a b }
{
    a == b
}

// The values below `count` whose weight is `weight`; that of value j stands at table[from + j].
fn values_with(table: &[i64], from: usize, count: usize, weight: i64) -> u8
    requires { from + count ≤ length table.now }
    ensures { result ≡ values_with table.now from count weight }
{
    let mut set = 0;
    for j in (0..count).rev() {
        set = marks::push(set, same_weight(table[from + j], weight));
    }
    set
}

// ---- a scope's weights

// What a weight of a raised scope gets: `rest`, unless it is `best`.
fn added(weight: i64, best: i64, rest: i64) -> i64
    ensures { result ≡ (if eq_z weight best then pos 0 else rest) }
{
    if weight == best {
        return 0;
    }
    rest
}

fn is_lowered(values: u8, value: usize) -> bool
    ensures { result ≡ mark values value }
{
    if value >= 8 {
        return false;
    }
    marks::has(values, value as u8)
}

// The same, less the amount where the value is lowered.
fn own_added(weight: i64, best: i64, rest: i64, values: u8, value: usize, amount: i64) -> i64
    requires { SFits w64 (lowered_by values amount best rest value weight) }
    ensures { result ≡ lowered_by values amount best rest value weight }
{
    let by = added(weight, best, rest);
    if is_lowered(values, value) {
        return by - amount;
    }
    by
}

fn all_within(part: &[i64], low: i64, high: i64) -> bool
    ensures { result ≡ all (within_z low high) part.now }
{
    part.iter().all(|weight| is_within(*weight, low, high))
}

// The weights are in their range with and without `rest`: seldom false, and quicker to ask than which of them get it.
fn has_room(rulebook: Rulebook, part: &[i64], rest: i64) -> bool
    requires { T (amount_within (rules_in rulebook) rest) }
    ensures { result ≡ has_room (rules_in rulebook) rest part.now }
{
    if 0 <= rest {
        let low = rules::least_working(rulebook);
        let high = rules::most_working(rulebook) - rest;
        return all_within(part, low, high);
    }
    false
}

fn raised_stays(rulebook: Rulebook, part: &[i64], best: i64, rest: i64) -> bool
    requires { Amounts (rules_in rulebook) (raised_by best rest) }
    ensures { result ≡ part_stays (rules_in rulebook) (raised_by best rest) part.now }
{
    for &weight in part {
        if !stays_with(rulebook, weight, added(weight, best, rest)) {
            return false;
        }
    }
    true
}

fn own_stays(
    rulebook: Rulebook,
    part: &[i64],
    best: i64,
    rest: i64,
    values: u8,
    amount: i64,
) -> bool
    requires { Amounts (rules_in rulebook) (lowered_by values amount best rest) }
    ensures { result ≡ part_stays (rules_in rulebook) (lowered_by values amount best rest) part.now }
{
    for (i, &weight) in part.iter().enumerate() {
        let by = own_added(weight, best, rest, values, i, amount);
        if !stays_with(rulebook, weight, by) {
            return false;
        }
    }
    true
}

fn part_stays(
    rulebook: Rulebook,
    part: &[i64],
    best: i64,
    rest: i64,
    values: u8,
    amount: i64,
) -> bool
    requires { Amounts (rules_in rulebook) (lowered_by values amount best rest) }
    ensures { result ≡ part_stays (rules_in rulebook) (lowered_by values amount best rest) part.now }
{
    if values != 0 {
        return own_stays(rulebook, part, best, rest, values, amount);
    }
    if has_room(rulebook, part, rest) {
        return true;
    }
    raised_stays(rulebook, part, best, rest)
}

fn raised_weight(weight: i64, best: i64, rest: i64) -> i64
    requires { SFits w64 (weight_with weight (if eq_z weight best then pos 0 else rest)) }
    ensures { result ≡ weight_with weight (if eq_z weight best then pos 0 else rest) }
{
    weight_with(weight, added(weight, best, rest))
}

fn raise_part(part: &mut [i64], best: i64, rest: i64)
    requires { PartFits (raised_by best rest) part.old }
    ensures { part.new ≡ part_after (raised_by best rest) part.old }
{
    for weight in part.iter_mut() {
        *weight = raised_weight(*weight, best, rest);
    }
}

fn own_weight(weight: i64, best: i64, rest: i64, values: u8, value: usize, amount: i64) -> i64
    requires sfits { SFits w64 (lowered_by values amount best rest value weight) }
    requires sfits_2 { SFits w64 (weight_with weight (lowered_by values amount best rest value weight)) }
    ensures { result ≡ weight_with weight (lowered_by values amount best rest value weight) }
{
    weight_with(weight, own_added(weight, best, rest, values, value, amount))
}

fn lower_part(part: &mut [i64], best: i64, rest: i64, values: u8, amount: i64)
    requires amounts_fit { AmountsFit (lowered_by values amount best rest) }
    requires part_fits { PartFits (lowered_by values amount best rest) part.old }
    ensures { part.new ≡ part_after (lowered_by values amount best rest) part.old }
{
    for (value, weight) in part.iter_mut().enumerate() {
        *weight = own_weight(*weight, best, rest, values, value, amount);
    }
}

fn change_part(part: &mut [i64], best: i64, rest: i64, values: u8, amount: i64)
    requires amounts_fit { AmountsFit (lowered_by values amount best rest) }
    requires part_fits { PartFits (lowered_by values amount best rest) part.old }
    ensures { part.new ≡ part_after (lowered_by values amount best rest) part.old }
{
    if values == 0 {
        raise_part(part, best, rest);
    } else {
        lower_part(part, best, rest, values, amount);
    }
}

fn first_place(case: Case, x: usize) -> usize
    requires limited { Limited case }
    requires x_bound { x < case.n + case.m }
    ensures { result ≡ place case x 0 0 }
{
    if x < case.n {
        return x * case.d;
    }
    case.n * case.d + (x - case.n) * (case.d * case.d)
}

fn size_of(case: Case, x: usize) -> usize
    requires { Limited case }
    ensures { result ≡ size_of case x }
{
    if x < case.n {
        return case.d;
    }
    case.d * case.d
}

// The scope's weights keep their range with what each gets.
fn scope_stays(
    case: Case,
    table: &[i64],
    x: usize,
    best: i64,
    rest: i64,
    values: u8,
    amount: i64,
) -> bool
    requires in_scope { InScope case table.now x }
    requires amounts { Amounts (rules_of case) (lowered_by values amount best rest) }
    ensures { result ≡ part_stays (rules_of case) (lowered_by values amount best rest) (scope_part case table.now x) }
{
    let first = first_place(case, x);
    let end = first + size_of(case, x);
    let rulebook = case.rulebook;
    part_stays(rulebook, &table[first..end], best, rest, values, amount)
}

fn change_scope(
    case: Case,
    table: &mut [i64],
    x: usize,
    best: i64,
    rest: i64,
    values: u8,
    amount: i64,
)
    requires in_scope { InScope case table.old x }
    requires amounts { Amounts (rules_of case) (lowered_by values amount best rest) }
    requires t { T (part_stays (rules_of case) (lowered_by values amount best rest) (scope_part case table.old x)) }
    ensures { table.new ≡ plus case (scope_by case table.old x (lowered_by values amount best rest)) table.old }
{
    let first = first_place(case, x);
    let end = first + size_of(case, x);
    change_part(&mut table[first..end], best, rest, values, amount);
}

// Writes the scope's greatest weight to its place in `best`.
fn keep_greatest(case: Case, table: &[i64], best: &mut [i64], x: usize)
    requires in_scope { InScope case table.now x }
    requires x_in_bounds { x < length best.old }
    ensures { best.new ≡ set best.old x (greatest case table.now x) }
{
    let first = first_place(case, x);
    let end = first + size_of(case, x);
    let weight = tables::greatest(&table[first..end]);
    best[x] = weight;
}

// ---- a variable's values lowered and the weights of raised scopes raised, scope by scope

fn values_in(x: usize, variable: usize, values: u8) -> u8
    ensures { result ≡ values_in variable values x }
{
    if x == variable {
        return values;
    }
    0
}

fn rest_of(mark: u8, amount: i64) -> i64
    ensures { result ≡ rest_of mark amount }
{
    if mark == 0 {
        return 0;
    }
    amount
}

fn is_touched(x: usize, variable: usize, mark: u8) -> bool
    ensures { result ≡ is_touched variable x mark }
{
    if x == variable {
        return true;
    }
    mark != 0
}

fn scope_lets(
    case: Case,
    table: &[i64],
    x: usize,
    best: i64,
    mark: u8,
    variable: usize,
    values: u8,
    amount: i64,
) -> bool
    requires in_scope { InScope case table.now x }
    requires t { T (press_amount (rules_of case) amount) }
    ensures { result ≡ scope_lets (rules_of case) case table.now variable values amount x mark best }
{
    if !is_touched(x, variable, mark) {
        return true;
    }
    let lowered = values_in(x, variable, values);
    scope_stays(case, table, x, best, rest_of(mark, amount), lowered, amount)
}

fn lowering_stays(
    case: Case,
    table: &[i64],
    best: &[i64],
    raised: &[u8],
    variable: usize,
    values: u8,
    amount: i64,
) -> bool
    requires limited { Limited case × (length table.now ≡ lent_length (rules_of case) case) }
    requires case_in_bounds { (scope_count case ≤ length best.now) × (scope_count case ≤ length raised.now) }
    requires t { T (press_amount (rules_of case) amount) }
    ensures { result ≡ lowering_lets (rules_of case) case table.now best.now raised.now variable values amount }
{
    let scopes = case.n + case.m;
    (0..scopes).all(|x| {
        scope_lets(case, table, x, best[x], raised[x], variable, values, amount)
    })
}

fn lower_scope(
    case: Case,
    table: &mut [i64],
    best: &mut [i64],
    x: usize,
    held: i64,
    mark: u8,
    variable: usize,
    values: u8,
    amount: i64,
)
    requires in_scope { InScope case table.old x × (x < length best.old) }
    requires t { T (scope_lets (rules_of case) case table.old variable values amount x mark held) }
    requires t_2 { T (press_amount (rules_of case) amount) }
    ensures table_after { table.new
        ≡ plus case (scope_by case table.old x (scope_gets variable values amount x mark held)) table.old }
    ensures best_after { best.new ≡ set best.old x
        (if is_touched variable x mark then greatest case table.new x else best_at best.old x) }
{
    if is_touched(x, variable, mark) {
        let lowered = values_in(x, variable, values);
        change_scope(case, table, x, held, rest_of(mark, amount), lowered, amount);
        keep_greatest(case, table, best, x);
    }
}

fn lower_scopes(
    case: Case,
    table: &mut [i64],
    best: &mut [i64],
    raised: &[u8],
    variable: usize,
    values: u8,
    amount: i64,
)
    requires limited { Limited case × (length table.old ≡ lent_length (rules_of case) case) }
    requires case_in_bounds { (scope_count case ≤ length best.old) × (scope_count case ≤ length raised.now) }
    requires variable_lt_n { (variable < case.n) × T (press_amount (rules_of case) amount) }
    requires t { T (lowering_lets (rules_of case) case table.old best.old raised.now variable values amount) }
    ensures { KeptMade case table.old best.old
        (lowering_change case table.old best.old raised.now variable (mark values) amount)
        table.new best.new }
{
    let scopes = case.n + case.m;
    for x in 0..scopes {
        let held = best[x];
        lower_scope(
            case, table, best, x, held, raised[x], variable, values, amount,
        );
    }
}

// ---- the calls on what was checked

fn lengths_wrong(case: Case, table: usize, best: usize) -> bool
    requires { Limited case }
    ensures { result ≡ (not (eqb table (lent_length (rules_of case) case)) || ltb best (scope_count case)) }
{
    if !tables::is_sized(case, table) {
        return true;
    }
    best < case.n + case.m
}

// The transfer, with the greatest weights of the two scopes that it touches.
fn transfer_kept(
    case: Case,
    table: &mut [i64],
    best: &mut [i64],
    edge: usize,
    end: usize,
    value: usize,
    amount: i64,
) -> Result<(), Refusal>
    requires limited { Limited case × (length table.old ≡ lent_length (rules_of case) case) × (scope_count case ≤ length best.old) }
    requires edge_lt_m { (edge < case.m) × (end < 2) × (value < case.d) × (end_variable case edge end < case.n) }
    requires t { T (amount_within (rules_of case) amount) }
    ensures { KeptBy (rules_of case) case table.old best.old (transfer_change case edge end value amount)
        result table.new best.new }
{
    transfer_checked(case, table, edge, end, value, amount)?;
    keep_greatest(case, table, best, end_variable(case, edge, end));
    keep_greatest(case, table, best, case.n + edge);
    Ok(())
}

fn lowering_kept(
    case: Case,
    table: &mut [i64],
    best: &mut [i64],
    raised: &[u8],
    variable: usize,
    values: u8,
    amount: i64,
) -> Result<(), Refusal>
    requires limited { Limited case × (length table.old ≡ lent_length (rules_of case) case) }
    requires case_in_bounds { (scope_count case ≤ length best.old) × (scope_count case ≤ length raised.now) }
    requires variable_lt_n { (variable < case.n) × T (press_amount (rules_of case) amount) }
    ensures { KeptBy (rules_of case) case table.old best.old
        (lowering_change case table.old best.old raised.now variable (mark values) amount)
        result table.new best.new }
{
    if !lowering_stays(case, table, best, raised, variable, values, amount) {
        return Err(Refusal::LeavesRange);
    }
    lower_scopes(case, table, best, raised, variable, values, amount);
    Ok(())
}

// ---- the calls

// The variable at that end of the edge; 0 where the case has no place for the edge.
pub fn end_variable(case: Case, edge: usize, end: usize) -> usize
    ensures { result ≡ end_variable case edge end }
{
    if EDGE_PLACES <= edge {
        return 0;
    }
    if end == 0 {
        return usize::from(case.lower[edge]);
    }
    usize::from(case.upper[edge])
}

// The edge, the end, the value or the amount is outside its range.
pub fn transfer_out(case: Case, edge: usize, end: usize, value: usize, amount: i64) -> bool
    ensures { result ≡ shift_out (rules_of case) case edge end value amount }
{
    if case.m <= edge {
        return true;
    }
    if 2 <= end {
        return true;
    }
    if case.d <= value {
        return true;
    }
    let rulebook = case.rulebook;
    !is_shift_amount(rulebook, amount)
}

// The variable or the amount is outside its range.
pub fn lowering_out(case: Case, variable: usize, amount: i64) -> bool
    ensures { result ≡ lowering_out (rules_of case) case variable amount }
{
    if case.n <= variable {
        return true;
    }
    let rulebook = case.rulebook;
    !is_within(amount, 1, rules::most_moving(rulebook))
}

// The values of `variable` whose weight is best[variable]; none where 3, 4 or 5 applies.
pub fn best_values(case: Case, table: &[i64], best: &[i64], variable: usize) -> u8
    ensures { result ≡ best_values (rules_of case) case table.now best.now variable }
{
    if !tables::within_limits(case) {
        return 0;
    }
    if lengths_wrong(case, table.len(), best.len()) {
        return 0;
    }
    if case.n <= variable {
        return 0;
    }
    values_with(table, variable * case.d, case.d, best[variable])
}

// Adds `amount` to the weight of a value of the variable at that end of the edge and subtracts it from the edge's d tuples that use the value
// there. best[x] becomes the greatest weight of each of the two scopes x. Asks 3, 4, 5 of the arguments and of that end, and 11 of the weights
// touched.
pub fn transfer(
    case: Case,
    table: &mut [i64],
    best: &mut [i64],
    edge: usize,
    end: usize,
    value: usize,
    amount: i64,
) -> Result<(), Refusal>
    ensures { Gives (transfer_call (rules_of case) case table.old best.old edge end value amount)
        result table.new best.new }
{
    if !tables::within_limits(case) {
        return Err(Refusal::OutsideLimits);
    }
    if lengths_wrong(case, table.len(), best.len()) {
        return Err(Refusal::WrongLength);
    }
    if transfer_out(case, edge, end, value, amount) {
        return Err(Refusal::OutOfRange);
    }
    if case.n <= end_variable(case, edge, end) {
        return Err(Refusal::OutOfRange);
    }
    transfer_kept(case, table, best, edge, end, value, amount)
}

// Subtracts `amount` from the weights of those values of `variable` that are in the set `values`, and adds it, in each scope x whose byte in
// `raised` is not 0, to the weights that are not best[x]. best[x] becomes the greatest weight of each scope x touched: the variable's own and the
// raised ones. Asks 3, 4, 5 of the arguments, and 11 of the scopes touched; whether the values are refuted is not asked.
pub fn lower_and_raise(
    case: Case,
    table: &mut [i64],
    best: &mut [i64],
    raised: &[u8],
    variable: usize,
    values: u8,
    amount: i64,
) -> Result<(), Refusal>
    ensures { Gives
        (lower_and_raise_call (rules_of case) case table.old best.old raised.now variable values amount)
        result table.new best.new }
{
    if !tables::within_limits(case) {
        return Err(Refusal::OutsideLimits);
    }
    if lengths_wrong(case, table.len(), best.len()) {
        return Err(Refusal::WrongLength);
    }
    if raised.len() < case.n + case.m {
        return Err(Refusal::WrongLength);
    }
    if lowering_out(case, variable, amount) {
        return Err(Refusal::OutOfRange);
    }
    lowering_kept(case, table, best, raised, variable, values, amount)
}
