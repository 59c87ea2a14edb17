// Arc consistency over bytes and marks: the search for partners, the closure of given sets, values tried one by one, and the marks of a
// table. Inner functions, for other crates: each asks only what is said at it. Document 01's refutation is `consistency::refuted`.
#![tactic(auto)]

ghost use Rattle.std.specs.Prelude.{◌≡◌, not, ◌&&◌, ◌||◌, ℕ, ◌+◌, ◌*◌, ◌≤◌, ◌<◌, T, ltb, eqb, length, get_or, set, replicate, if◌then◌else◌, Ok, is_none};
ghost use Rattle.integers.specs.Words.{below, any, eq_z};
ghost use Rattle.definitions.specs.Rules.{rules_of};
ghost use Rattle.definitions.specs.Case.{scope_count};
ghost use Rattle.definitions.specs.Answers.{outcome_of};
ghost use Rattle.definitions.specs.Valid.{some_edge, end_outside};
ghost use Rattle.definitions.specs.Lines.{overwritten};
ghost use Rattle.tables.specs.Scopes.{Limited};
ghost use Rattle.marks.specs.Marks.{mark, without};
ghost use Rattle.arcs.specs.Partners.{lowest_in_both, byte_of_partner, lowest_partners, supported_values};
ghost use Rattle.arcs.specs.Closure.{network_of_bytes, sets_of, end_missing, is_malformed, closure_answer, closure_sets};
ghost use Rattle.arcs.specs.Tried.{has_family, none_has, tried_answer};
ghost use Rattle.arcs.specs.declared.Tried.{Tried};
ghost use Rattle.arcs.specs.Sweeps.{WellFormed, Filled, Swept, SettledSets, change_of, both_of, kept_of};
ghost use Rattle.arcs.specs.Active.{best_marks, set_where, row_where, has_weight, Sized, AddedBelow};
ghost use Rattle.arcs.specs.Active.{Crossed, marked_sets, marked_rows, Written, length_refusal, marks_call, MarksAre};
ghost use Rattle.arcs.specs.Best.{allowed_best, partners_best, best_rows, is_unsupported};
ghost use Rattle.arcs.specs.Best.{are_unsupported, best_refusal, values_unsupported_answer, best_unsupported_answer};

use definitions::{Case, EDGE_PLACES, Refusal, VARIABLE_PLACES};

// What is left of the given sets: a supported family, or none.
#[derive(Clone, Copy)]
pub enum Closed {
    Family,
    Empty,
    Malformed,
}

// What is left where each of some values is fixed alone: no family for any of them, or a family for one.
#[derive(Clone, Copy)]
pub enum Tried {
    Unsupported,
    Supported,
    Malformed,
}

// Places in arrays: two arcs for each edge, eight rows for each arc.
pub const ROW_PLACES: usize = 16 * EDGE_PLACES;

// A value without partners, in a byte.
pub const NO_PARTNER: u8 = 255;

// ---- the search for partners

// The set without value k, where no partner was found.
fn kept_with(set: u8, k: u8, found: Option<u8>) -> u8
    ensures { result ≡ (if is_none found then without set k else set) }
{
    match found {
        Some(_) => set,
        None => marks::strike(set, k),
    }
}

// The values of `set` that have a partner in `other`. The partners of value k stand at rows[at + k].
fn supported(rows: &[u8], at: usize, set: u8, other: u8) -> u8
    requires { at + 8 ≤ length rows.now }
    ensures { result ≡ supported_values rows.now at set other }
{
    let mut kept = set;
    for k in 0..8 {
        kept = kept_with(kept, k as u8, lowest_partner(rows[at + k], other));
    }
    kept
}

fn partner_byte(found: Option<u8>) -> u8
    ensures { result ≡ byte_of_partner found }
{
    match found {
        Some(l) => l,
        None => NO_PARTNER,
    }
}

// ---- the closure

// What was done to the sets: nothing, a value was struck, a set is empty.
#[derive(Clone, Copy)]
enum Change {
    Still,
    Struck,
    Emptied,
}

// Two sets as one number.
fn pair(own: u8, other: u8) -> u16
    ensures { result ≡ own + 256 * other }
{
    own as u16 + 256 * (other as u16)
}

// What was done to the two sets of an edge, by what is left of each.
fn edge_change(own: u8, kept: u8, other: u8, left: u8) -> Change
    ensures { result ≡ both_of (change_of own kept) (change_of other left) }
{
    if kept == 0 {
        return Change::Emptied;
    }
    if left == 0 {
        return Change::Emptied;
    }
    if pair(kept, left) == pair(own, other) {
        return Change::Still;
    }
    Change::Struck
}

fn both(first: Change, second: Change) -> Change
    ensures { result ≡ both_of first second }
{
    match first {
        Change::Emptied => Change::Emptied,
        Change::Still => second,
        Change::Struck => match second {
            Change::Emptied => Change::Emptied,
            Change::Still => Change::Struck,
            Change::Struck => Change::Struck,
        },
    }
}

// Strikes the values of variable i that have no partner in variable j's set. The partners of an arc's values stand from rows[8 * arc] on.
fn revise(rows: &[u8], arc: usize, sets: &mut [u8], i: usize, j: usize) -> u8
    requires { (8 * arc + 8 ≤ length rows.now) × (i < length sets.old) × (j < length sets.old) }
    ensures { (sets.new ≡ set sets.old i result) × (result ≡ kept_of rows.now (8 * arc) i j sets.old) }
{
    let kept = supported(rows, 8 * arc, sets[i], sets[j]);
    sets[i] = kept;
    kept
}

// Both ends of edge e, if it is raised.
fn revise_edge(
    lower: &[u8],
    upper: &[u8],
    rows: &[u8],
    raised: &[u8],
    e: usize,
    sets: &mut [u8],
) -> Change
    requires well_formed { WellFormed (length sets.old) lower.now upper.now rows.now raised.now }
    requires e_in_bounds { e < length raised.now }
    ensures { Swept (network_of_bytes (length sets.old) lower.now upper.now rows.now raised.now)
        (λ f up. f ≡ e) sets.old sets.new result }
{
    if raised[e] == 0 {
        return Change::Still;
    }
    let i = lower[e] as usize;
    let j = upper[e] as usize;
    let own = sets[i];
    let kept = revise(rows, 2 * e, sets, i, j);
    let other = sets[j];
    let left = revise(rows, 2 * e + 1, sets, j, i);
    edge_change(own, kept, other, left)
}

// All edges once, or up to the first set that is empty.
fn sweep(lower: &[u8], upper: &[u8], rows: &[u8], raised: &[u8], sets: &mut [u8]) -> Change
    requires { WellFormed (length sets.old) lower.now upper.now rows.now raised.now }
    ensures { Swept (network_of_bytes (length sets.old) lower.now upper.now rows.now raised.now)
        (λ f up. f < length raised.now) sets.old sets.new result }
{
    let mut change = Change::Still;
    for e in 0..raised.len() {
        let next = revise_edge(lower, upper, rows, raised, e, sets);
        if let Change::Emptied = next {
            return Change::Emptied;
        }
        change = both(change, next);
    }
    change
}

// Sweeps until nothing changes or a set is empty. Whether a family is left.
fn settle(lower: &[u8], upper: &[u8], rows: &[u8], raised: &[u8], sets: &mut [u8]) -> bool
    requires well_formed { WellFormed (length sets.old) lower.now upper.now rows.now raised.now }
    requires filled { Filled sets.old }
    ensures { SettledSets (network_of_bytes (length sets.old) lower.now upper.now rows.now
        raised.now)
        (sets_of sets.old) sets.new result }
{
    // Not a for: it runs until nothing changes.
    loop {
        let change = sweep(lower, upper, rows, raised, sets);
        match change {
            Change::Still => return true,
            Change::Emptied => return false,
            Change::Struck => {}
        }
    }
}

fn has_empty(sets: &[u8]) -> bool
    ensures { result ≡ any (λ s. eqb s 0) sets.now }
{
    sets.contains(&0)
}

fn narrow(lower: &[u8], upper: &[u8], rows: &[u8], raised: &[u8], sets: &mut [u8]) -> bool
    requires { WellFormed (length sets.old) lower.now upper.now rows.now raised.now }
    ensures { SettledSets (network_of_bytes (length sets.old) lower.now upper.now rows.now
        raised.now)
        (sets_of sets.old) sets.new result }
{
    if has_empty(sets) {
        return false;
    }
    settle(lower, upper, rows, raised, sets)
}

fn end_outside(i: u8, j: u8, n: usize) -> bool
    ensures { result ≡ not (ltb i n && ltb j n) }
{
    n <= usize::from(i) || n <= usize::from(j)
}

fn some_end_outside(lower: &[u8], upper: &[u8], edges: usize, n: usize) -> bool
    requires { (edges ≤ length lower.now) × (edges ≤ length upper.now) }
    ensures { result ≡ any (end_missing n lower.now upper.now) (below edges) }
{
    for e in 0..edges {
        if end_outside(lower[e], upper[e], n) {
            return true;
        }
    }
    false
}

fn is_malformed(lower: &[u8], upper: &[u8], rows: &[u8], raised: &[u8], n: usize) -> bool
    ensures { result ≡ is_malformed n lower.now upper.now rows.now raised.now }
{
    let edges = raised.len();
    if lower.len() < edges {
        return true;
    }
    if upper.len() < edges {
        return true;
    }
    if rows.len() / 16 < edges {
        return true;
    }
    some_end_outside(lower, upper, edges, n)
}

// ---- values tried one by one

// Whether value k of `variable`, fixed alone, leaves a family. The sets are narrowed in `work`.
fn has_family(
    lower: &[u8],
    upper: &[u8],
    rows: &[u8],
    raised: &[u8],
    sets: &[u8],
    variable: usize,
    k: u8,
    work: &mut [u8],
) -> bool
    requires well_formed { WellFormed (length sets.now) lower.now upper.now rows.now raised.now }
    requires filled { Filled sets.now × (variable < length sets.now) × (length work.old ≡ length sets.now) }
    requires t { T (mark (get_or sets.now variable 0) k) }
    ensures { result ≡ has_family (network_of_bytes (length sets.now) lower.now upper.now rows.now
        raised.now) sets.now variable k }
{
    work.copy_from_slice(sets);
    work[variable] = marks::only(k);
    settle(lower, upper, rows, raised, work)
}

// Whether none of `values` has a family, each tried alone.
fn none_alone(
    lower: &[u8],
    upper: &[u8],
    rows: &[u8],
    raised: &[u8],
    sets: &[u8],
    variable: usize,
    values: u8,
    work: &mut [u8],
) -> bool
    requires well_formed { WellFormed (length sets.now) lower.now upper.now rows.now raised.now }
    requires filled { Filled sets.now × (variable < length sets.now) × (length work.old ≡ length sets.now) }
    ensures { result ≡ none_has (has_family (network_of_bytes (length sets.now) lower.now upper.now rows.now
        raised.now) sets.now variable) values }
{
    let mut untried = marks::common(values, sets[variable]);
    // Not a for: it runs over the values that a byte of marks holds.
    while untried != 0 {
        let k = marks::lowest(untried);
        if has_family(lower, upper, rows, raised, sets, variable, k, work) {
            return false;
        }
        untried = marks::strike(untried, k);
    }
    true
}

// Whether none of `values` has a family. Where there are several to try, what no family has is struck first, in `near`.
fn none_has(
    lower: &[u8],
    upper: &[u8],
    rows: &[u8],
    raised: &[u8],
    sets: &[u8],
    variable: usize,
    values: u8,
    near: &mut [u8],
    work: &mut [u8],
) -> bool
    requires well_formed { WellFormed (length sets.now) lower.now upper.now rows.now raised.now }
    requires filled { Filled sets.now × (variable < length sets.now) × (length near.old ≡ length sets.now) × (length work.old ≡ length sets.now) }
    ensures { result ≡ none_has (has_family (network_of_bytes (length sets.now) lower.now upper.now rows.now
        raised.now) sets.now variable) values }
{
    let left = marks::common(sets[variable], values);
    if left == 0 {
        return true;
    }
    if marks::is_single(left) {
        return none_alone(lower, upper, rows, raised, sets, variable, values, work);
    }
    near.copy_from_slice(sets);
    near[variable] = left;
    if settle(lower, upper, rows, raised, near) {
        return none_alone(lower, upper, rows, raised, near, variable, values, work);
    }
    true
}

fn tried_of(unsupported: bool) -> Tried
    ensures { result ≡ (if unsupported then Tried.Unsupported else Tried.Supported) }
{
    if unsupported {
        return Tried::Unsupported;
    }
    Tried::Supported
}

// ---- what is prepared once for a table

// The values below d whose weight is `best`. The weight of value j stands at table[from + j].
fn best_values(table: &[i64], from: usize, d: usize, best: i64) -> u8
    requires { (d ≤ 8) × (from + d ≤ length table.now) }
    ensures { result ≡ best_marks table.now from d best }
{
    let mut set: u8 = 0;
    for j in (0..d).rev() {
        set = marks::push(set, table[from + j] == best);
    }
    set
}

// The values of variable j whose weight is `best`.
fn set_with(case: Case, table: &[i64], j: usize, best: i64) -> u8
    requires sized { Sized case table.now }
    requires j_lt_n { j < case.n }
    ensures { result ≡ set_where case (has_weight case table.now best) j }
{
    let d = case.d;
    best_values(table, j * d, d, best)
}

// Adds value k to byte 8 + l for each value l of `row`.
fn add_below(bytes: &mut [u8; 16], row: u8, k: u8)
    requires { length bytes.old ≡ 16 }
    ensures { AddedBelow row k bytes.old bytes.new }
{
    let mut left = row;
    // Not a for: it runs over the values that a byte of marks holds.
    while left != 0 {
        let l = marks::lowest(left);
        let at = 8 + l as usize;
        bytes[at] = marks::add(bytes[at], k);
        left = marks::strike(left, l);
    }
}

// The sixteen bytes of the d · d weights from table[first] on: the partners whose weight is `best`.
fn edge_bytes(table: &[i64], first: usize, d: usize, best: i64) -> [u8; 16]
    requires { (d ≤ 8) × (first + d * d ≤ length table.now) }
    ensures { Crossed (λ k. best_marks table.now (first + k * d) d best) d result }
{
    let mut bytes = [0u8; 16];
    for k in 0..d {
        let row = best_values(table, first + k * d, d, best);
        bytes[k] = row;
        add_below(&mut bytes, row, k as u8);
    }
    bytes
}

fn put_bytes(bytes: &[u8; 16], rows: &mut [u8], at: usize)
    requires { at + 16 ≤ length rows.old }
    ensures { Written (λ p. get_or bytes.now p 0) at 16 rows.old rows.new }
{
    rows[at..at + 16].copy_from_slice(bytes);
}

fn write_sets(case: Case, table: &[i64], best: &[i64], sets: &mut [u8])
    requires sized { Sized case table.now }
    requires case_in_bounds { (scope_count case ≤ length best.now) × (case.n ≤ length sets.old) }
    ensures { sets.new ≡ overwritten (marked_sets case table.now best.now) sets.old }
{
    let n = case.n;
    for j in 0..n {
        sets[j] = set_with(case, table, j, best[j]);
    }
}

fn write_edge(case: Case, table: &[i64], e: usize, best: i64, rows: &mut [u8])
    requires sized { Sized case table.now }
    requires e_lt_m { (e < case.m) × (16 * e + 16 ≤ length rows.old) }
    ensures { Written (row_where case (has_weight case table.now best) e) (16 * e) 16 rows.old rows.new }
{
    let d = case.d;
    let first = case.n * d + e * (d * d);
    let bytes = edge_bytes(table, first, d, best);
    put_bytes(&bytes, rows, 16 * e);
}

fn write_rows(case: Case, table: &[i64], best: &[i64], rows: &mut [u8])
    requires sized { Sized case table.now }
    requires case_in_bounds { (scope_count case ≤ length best.now) × (16 * case.m ≤ length rows.old) }
    ensures { rows.new ≡ overwritten (marked_rows case table.now best.now) rows.old }
{
    let n = case.n;
    let m = case.m;
    for e in 0..m {
        write_edge(case, table, e, best[n + e], rows);
    }
}

fn too_few(case: Case, length: usize) -> bool
    ensures { result ≡ ltb length (scope_count case) }
{
    length < case.n || length - case.n < case.m
}

fn bytes_too_few(case: Case, sets: usize, rows: usize) -> bool
    ensures { result ≡ (ltb sets case.n || ltb rows (16 * case.m)) }
{
    sets < case.n || rows / 16 < case.m
}

// ---- values without a family, a number given for each scope

fn allowed_set(case: Case, table: &[i64], best: &[i64], raised: &[u8], j: usize) -> u8
    requires sized { Sized case table.now }
    requires case_in_bounds { (scope_count case ≤ length best.now) × (scope_count case ≤ length raised.now) × (j < case.n) }
    ensures { result ≡ allowed_best case table.now best.now raised.now j }
{
    if raised[j] == 0 {
        return marks::full(case.d as u8);
    }
    set_with(case, table, j, best[j])
}

fn prepare_sets(case: Case, table: &[i64], best: &[i64], raised: &[u8], sets: &mut [u8])
    requires sized { Sized case table.now }
    requires case_in_bounds { (scope_count case ≤ length best.now) × (scope_count case ≤ length raised.now) × (case.n ≤ length sets.old) }
    ensures { Written (allowed_best case table.now best.now raised.now) 0 case.n sets.old
        sets.new }
{
    let n = case.n;
    for j in 0..n {
        sets[j] = allowed_set(case, table, best, raised, j);
    }
}

// The bytes of an edge that is not raised stay 0.
fn prepare_edge(case: Case, table: &[i64], best: &[i64], raised: &[u8], e: usize, rows: &mut [u8])
    requires sized { Sized case table.now }
    requires case_in_bounds { (scope_count case ≤ length best.now) × (scope_count case ≤ length raised.now) × (e < case.m) × (16 * e + 16 ≤ length rows.old) }
    requires by_index { (p : ℕ) → p < 16 → get_or rows.old (16 * e + p) 0 ≡ 0 }
    ensures { Written (partners_best case table.now best.now raised.now e) (16 * e) 16 rows.old
        rows.new }
{
    let x = case.n + e;
    if raised[x] != 0 {
        write_edge(case, table, e, best[x], rows);
    }
}

fn prepare_rows(case: Case, table: &[i64], best: &[i64], raised: &[u8], rows: &mut [u8])
    requires sized { Sized case table.now }
    requires case_in_bounds { (scope_count case ≤ length best.now) × (scope_count case ≤ length raised.now) × (16 * case.m ≤ length rows.old) }
    requires by_index { (q : ℕ) → get_or rows.old q 0 ≡ 0 }
    ensures { Written (λ q. get_or (best_rows case table.now best.now raised.now) q 0) 0 (16 * case.m)
        rows.old rows.new }
{
    let m = case.m;
    for e in 0..m {
        prepare_edge(case, table, best, raised, e, rows);
    }
}

fn is_unsupported(tried: Tried) -> bool
    ensures { result ≡ is_unsupported tried }
{
    match tried {
        Tried::Unsupported => true,
        Tried::Supported => false,
        Tried::Malformed => false,
    }
}

fn are_unsupported(
    case: Case,
    table: &[i64],
    best: &[i64],
    raised: &[u8],
    variable: usize,
    values: u8,
) -> bool
    requires sized { Sized case table.now }
    requires case_in_bounds { (scope_count case ≤ length best.now) × (scope_count case ≤ length raised.now) }
    ensures { result ≡ are_unsupported case table.now best.now raised.now variable values }
{
    let n = case.n;
    let s = n + case.m;
    let long = 16 * case.m;
    let lower = case.lower;
    let upper = case.upper;
    let mut sets = [0u8; VARIABLE_PLACES];
    let mut rows = [0u8; ROW_PLACES];
    prepare_sets(case, table, best, raised, &mut sets);
    prepare_rows(case, table, best, raised, &mut rows);
    is_unsupported(none_supported(
        &lower,
        &upper,
        &rows[..long],
        &raised[n..s],
        &sets[..n],
        variable,
        values,
    ))
}

// Numbers 3 and 4, other lengths being wrong or not.
fn check_lengths(case: Case, table: &[i64], wrong: bool) -> Result<(), Refusal>
    ensures { result ≡ outcome_of (length_refusal (rules_of case) case table.now wrong) }
{
    if !tables::within_limits(case) {
        return Err(Refusal::OutsideLimits);
    }
    if !tables::is_sized(case, table.len()) {
        return Err(Refusal::WrongLength);
    }
    if wrong {
        return Err(Refusal::WrongLength);
    }
    Ok(())
}

fn edge_outside(case: Case) -> bool
    requires { Limited case }
    ensures { result ≡ some_edge case (end_outside case) }
{
    let lower = case.lower;
    let upper = case.upper;
    some_end_outside(&lower, &upper, case.m, case.n)
}

// Number 5 of the variable and the edges' ends.
fn argument_outside(case: Case, variable: usize) -> bool
    requires { Limited case }
    ensures { result ≡ (not (ltb variable case.n) || some_edge case (end_outside case)) }
{
    case.n <= variable || edge_outside(case)
}

// Numbers 3, 4, and 5 of the variable and the edges' ends. The weights and `best` are not looked at.
fn check_arguments(
    case: Case,
    table: &[i64],
    best: &[i64],
    raised: &[u8],
    variable: usize,
) -> Result<(), Refusal>
    ensures { result ≡ outcome_of (best_refusal (rules_of case) case table.now best.now raised.now variable) }
{
    let wrong = too_few(case, best.len()) || too_few(case, raised.len());
    check_lengths(case, table, wrong)?;
    if argument_outside(case, variable) {
        return Err(Refusal::OutOfRange);
    }
    Ok(())
}

// ---- the calls

// The search for a partner, which the closure runs: `row` holds a value's partners, `other` is the other end's set. The lowest that it has,
// or that there is none.
pub fn lowest_partner(row: u8, other: u8) -> Option<u8>
    ensures { result ≡ lowest_in_both row other }
{
    let partners = marks::common(row, other);
    if partners == 0 {
        return None;
    }
    Some(marks::lowest(partners))
}

// The lowest partner of each value: for each value k of `set` the lowest value of `other` in rows[k] is written to partners[k], NO_PARTNER where
// there is none. What `set` has no mark for, and what rows does not reach, stays.
pub fn lowest_partners(rows: &[u8], set: u8, other: u8, partners: &mut [u8])
    ensures { partners.new ≡ lowest_partners rows.now set other partners.old }
{
    let mut left = set;
    // Not a for: both loops run over the values that a byte of marks holds.
    'values: while left != 0 {
        let k = marks::lowest(left);
        let at = k as usize;
        if rows.len() <= at {
            break 'values;
        }
        if partners.len() <= at {
            break 'values;
        }
        left = marks::strike(left, k);
        let mut rest = rows[at];
        // Not a for: it runs over the partners that are left, and answers one.
        let found = 'partners: loop {
            if rest == 0 {
                break 'partners None;
            }
            let l = marks::lowest(rest);
            if marks::has(other, l) {
                break 'partners Some(l);
            }
            rest = marks::strike(rest, l);
        };
        partners[at] = partner_byte(found);
    }
}

// Takes `sets` to the largest supported family inside them. There are raised.len() edges; edge e joins lower[e] and upper[e]. The 16 bytes
// from rows[16 * e] on are the partners of each value of the lower end, then of the upper end; an edge whose byte is 0 allows everything.
// Where there are too few bytes or an end is no variable, the answer is Malformed and the sets stay.
pub fn closure(lower: &[u8], upper: &[u8], rows: &[u8], raised: &[u8], sets: &mut [u8]) -> Closed
    ensures value { result ≡ closure_answer lower.now upper.now rows.now raised.now sets.old }
    ensures sets_after { sets.new ≡ closure_sets lower.now upper.now rows.now raised.now sets.old }
{
    if is_malformed(lower, upper, rows, raised, sets.len()) {
        return Closed::Malformed;
    }
    if narrow(lower, upper, rows, raised, sets) {
        return Closed::Family;
    }
    sets.fill(0);
    Closed::Empty
}

// Whether each of `values` (marks), fixed alone in the set of `variable`, leaves no supported family inside `sets`. The other bytes are as
// `closure` takes them; Malformed also where there are more sets than VARIABLE_PLACES or `variable` has none.
pub fn none_supported(
    lower: &[u8],
    upper: &[u8],
    rows: &[u8],
    raised: &[u8],
    sets: &[u8],
    variable: usize,
    values: u8,
) -> Tried
    ensures { result ≡ tried_answer lower.now upper.now rows.now raised.now sets.now variable values }
{
    let n = sets.len();
    if VARIABLE_PLACES < n {
        return Tried::Malformed;
    }
    if n <= variable {
        return Tried::Malformed;
    }
    if is_malformed(lower, upper, rows, raised, n) {
        return Tried::Malformed;
    }
    if has_empty(sets) {
        return Tried::Unsupported;
    }
    let mut near = [0u8; VARIABLE_PLACES];
    let mut work = [0u8; VARIABLE_PLACES];
    tried_of(none_has(
        lower,
        upper,
        rows,
        raised,
        sets,
        variable,
        values,
        &mut near[..n],
        &mut work[..n],
    ))
}

// Writes to the first n bytes of `sets` the values of each variable x whose weight is best[x], and to the first 16 · m bytes of `rows` the
// partners on each edge whose weight is that of its scope, as `closure` takes them: the active ones, where `best` holds the greatest weights.
// Asks 3 and 4.
pub fn active_marks(
    case: Case,
    table: &[i64],
    best: &[i64],
    sets: &mut [u8],
    rows: &mut [u8],
) -> Result<(), Refusal>
    ensures { MarksAre (marks_call (rules_of case) case table.now best.now sets.old rows.old) result
        sets.new rows.new }
{
    let wrong = too_few(case, best.len()) || bytes_too_few(case, sets.len(), rows.len());
    check_lengths(case, table, wrong)?;
    write_sets(case, table, best, sets);
    write_rows(case, table, best, rows);
    Ok(())
}

// Whether no value of `values` (marks), fixed alone for `variable`, has a supported family where in the scopes x whose byte in `raised` is not
// 0 the tuples whose weight is not best[x] are forbidden. Asks 3, 4, and 5 of the variable and the edges' ends.
pub fn values_unsupported(
    case: Case,
    table: &[i64],
    best: &[i64],
    raised: &[u8],
    variable: usize,
    values: u8,
) -> Result<bool, Refusal>
    ensures { result ≡ values_unsupported_answer (rules_of case) case table.now best.now raised.now variable values }
{
    check_arguments(case, table, best, raised, variable)?;
    Ok(are_unsupported(case, table, best, raised, variable, values))
}

// The same of the values whose weight is best[variable].
pub fn best_unsupported(
    case: Case,
    table: &[i64],
    best: &[i64],
    raised: &[u8],
    variable: usize,
) -> Result<bool, Refusal>
    ensures { result ≡ best_unsupported_answer (rules_of case) case table.now best.now raised.now variable }
{
    check_arguments(case, table, best, raised, variable)?;
    let values = set_with(case, table, variable, best[variable]);
    Ok(are_unsupported(case, table, best, raised, variable, values))
}
