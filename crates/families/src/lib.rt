// Why a value was kept (document 02, change 3), asked of everything that is handed over: numbers 3 to 8 and 15, and last 5 where there is no such
// value.
#![tactic(auto)]

ghost use Rattle.std.specs.Prelude.{◌≡◌, not, ◌||◌, ℕ, ◌+◌, ◌*◌, ◌≤◌, ◌<◌, pos, ltb, length, get_or, take, replicate, Ok, Some, None, MatchOption};
ghost use Rattle.definitions.specs.Rules.{rules_of};
ghost use Rattle.definitions.specs.Refusals.{first_refusal};
ghost use Rattle.definitions.specs.Answers.{outcome_of};
ghost use Rattle.definitions.specs.Valid.{working_weight, handed_over};
ghost use Rattle.definitions.specs.Lines.{overwritten};
ghost use Rattle.definitions.specs.Families.{supported_value, outside};
ghost use Rattle.calls.specs.Calls.{supported_value_call, family_found, FamilyIs};
ghost use Rattle.tables.specs.Scopes.{Limited};
ghost use Rattle.arcs.specs.Active.{Written};
ghost use Rattle.families.specs.Closing.{is_family, left_answer, left_sets, lowest_left, partner_in, edge_bytes, all_bytes, Joined, Checked};

use arcs::{Closed, NO_PARTNER, ROW_PLACES};
use definitions::{Case, EDGE_PLACES, Refusal, SCOPE_PLACES, VARIABLE_PLACES};

// The sets that a closure left, and whether they are a family.
#[derive(Clone, Copy)]
struct Closing {
    closed: Closed,
    sets: [u8; VARIABLE_PLACES],
}

// The lowest value with which a family is left, and that family.
#[derive(Clone, Copy)]
struct Found {
    value: u8,
    sets: [u8; VARIABLE_PLACES],
}

// ---- the value

fn is_family(closed: Closed) -> bool
    ensures { result ≡ is_family closed }
{
    match closed {
        Closed::Family => true,
        Closed::Empty => false,
        Closed::Malformed => false,
    }
}

// What is left with value k alone for `variable`.
fn try_value(
    case: Case,
    rows: &[u8],
    sets: [u8; VARIABLE_PLACES],
    variable: usize,
    k: u8,
) -> Closing
    requires limited { Limited case }
    requires variable_lt_n { variable < case.n }
    ensures { (result.closed ≡ left_answer case rows.now sets variable k)
        × (take case.n result.sets ≡ left_sets case rows.now sets variable k) }
{
    let n = case.n;
    let m = case.m;
    let lower = case.lower;
    let upper = case.upper;
    let raised = [1u8; EDGE_PLACES];
    let mut work = sets;
    work[variable] = marks::only(k);
    let closed = arcs::closure(&lower, &upper, rows, &raised[..m], &mut work[..n]);
    Closing { closed, sets: work }
}

// The values of the variable's set are tried from the lowest on.
fn lowest_supported(
    case: Case,
    rows: &[u8],
    sets: [u8; VARIABLE_PLACES],
    variable: usize,
) -> Option<Found>
    requires limited { Limited case }
    requires variable_lt_n { (variable < case.n) × (get_or sets variable 0 < 256) }
    ensures { MatchOption result (lowest_left case rows.now sets variable ≡ None) (λ f. (lowest_left case rows.now sets variable ≡ Some f.value)
        × (take case.n f.sets ≡ left_sets case rows.now sets variable f.value)) }
{
    let mut untried = sets[variable];
    // Not a for: it runs over the values that a byte of marks holds.
    while untried != 0 {
        let k = marks::lowest(untried);
        let closing = try_value(case, rows, sets, variable, k);
        let closed = closing.closed;
        let left = closing.sets;
        if is_family(closed) {
            return Some(Found {
                value: k,
                sets: left,
            });
        }
        untried = marks::strike(untried, k);
    }
    None
}

// ---- the bytes

fn write_family(case: Case, sets: &[u8; VARIABLE_PLACES], family: &mut [u8])
    requires limited { Limited case }
    requires n_in_bounds { case.n ≤ length family.old }
    ensures { family.new ≡ overwritten (take case.n sets.now) family.old }
{
    let n = case.n;
    family[..n].copy_from_slice(&sets[..n]);
}

// The partners of the d values at one end of an edge, whose rows stand from rows[row] on.
fn write_end(
    rows: &[u8],
    row: usize,
    own: u8,
    other: u8,
    d: usize,
    partners: &mut [u8],
    from: usize,
)
    requires { (d ≤ 8) × (row + 8 ≤ length rows.now) × (from + d ≤ length partners.old) }
    ensures { Written (partner_in rows.now row own other) from d partners.old partners.new }
{
    let to = from + d;
    partners[from..to].fill(NO_PARTNER);
    arcs::lowest_partners(&rows[row..], own, other, &mut partners[from..to]);
}

fn write_edge(case: Case, rows: &[u8], sets: &[u8], e: usize, partners: &mut [u8])
    requires limited { Limited case }
    requires joined { Joined case (length sets.now) }
    requires e_lt_m { (e < case.m) × (16 * case.m ≤ length rows.now) × (case.m * (2 * case.d) ≤ length partners.old) }
    ensures { Written (λ p. get_or (edge_bytes case rows.now sets.now e) p 0) (e * (2 * case.d)) (2 * case.d) partners.old
        partners.new }
{
    let d = case.d;
    let own = sets[case.lower[e] as usize];
    let other = sets[case.upper[e] as usize];
    let from = e * (2 * d);
    write_end(rows, 16 * e, own, other, d, partners, from);
    write_end(rows, 16 * e + 8, other, own, d, partners, from + d);
}

fn write_partners(case: Case, rows: &[u8], sets: &[u8], partners: &mut [u8])
    requires limited { Limited case }
    requires joined { Joined case (length sets.now) }
    requires m_in_bounds { (16 * case.m ≤ length rows.now) × (case.m * (2 * case.d) ≤ length partners.old) }
    ensures { partners.new ≡ overwritten (all_bytes case rows.now sets.now) partners.old }
{
    for e in 0..case.m {
        write_edge(case, rows, sets, e, partners);
    }
}

// ---- what is asked

fn too_short(case: Case, family: usize, partners: usize) -> bool
    requires { Limited case }
    ensures { result ≡ (ltb family case.n || ltb partners (case.m * (2 * case.d))) }
{
    family < case.n || partners < case.m * (2 * case.d)
}

fn check_call(
    case: Case,
    table: &[i64],
    variable: usize,
    family: usize,
    partners: usize,
) -> Result<(), Refusal>
    ensures { result ≡ outcome_of (first_refusal (handed_over (rules_of case) (working_weight (rules_of case)) case table.now
        (ltb family case.n || ltb partners (case.m * (2 * case.d))) (not (ltb variable case.n)))) }
{
    if !tables::within_limits(case) {
        return Err(Refusal::OutsideLimits);
    }
    let short = too_short(case, family, partners);
    tables::check_working(case, table, short, !(variable < case.n))
}

// ---- the call

// The value of a case and a table that were checked.
fn show_value(
    case: Case,
    table: &[i64],
    variable: usize,
    family: &mut [u8],
    partners: &mut [u8],
) -> Result<i64, Refusal>
    requires { Checked case table.now variable family.old partners.old }
    ensures { FamilyIs (family_found case table.now variable family.old partners.old None
        (supported_value case table.now variable)) result family.new partners.new }
{
    let mut best = [0i64; SCOPE_PLACES];
    let mut sets = [0u8; VARIABLE_PLACES];
    let mut rows = [0u8; ROW_PLACES];
    // The table was checked: nothing is refused.
    let _ = tables::greatest_weights(case, table, &mut best);
    let _ = arcs::active_marks(case, table, &best, &mut sets, &mut rows);
    let Some(found) = lowest_supported(case, &rows, sets, variable) else {
        return Err(Refusal::OutOfRange);
    };
    write_family(case, &found.sets, family);
    write_partners(case, &rows, &found.sets, partners);
    Ok(i64::from(found.value))
}

// The lowest active value of a variable that is not refuted with all other scopes raised. Its largest family is written to `family`, a byte for
// each variable, bit k for value k; the lowest partner of each of its values to `partners`, a byte for each edge, end and value, 255 outside
// the family.
pub fn supported_value(
    case: Case,
    table: &[i64],
    variable: usize,
    family: &mut [u8],
    partners: &mut [u8],
) -> Result<i64, Refusal>
    ensures { FamilyIs (supported_value_call (rules_of case) case table.now variable family.old partners.old) result
        family.new partners.new }
{
    check_call(case, table, variable, family.len(), partners.len())?;
    show_value(case, table, variable, family, partners)
}
