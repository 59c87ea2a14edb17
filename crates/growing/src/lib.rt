// A link joins (document 02, change 5): what a join that is complete makes of a case and of both its tables. Inner functions, for other crates.
#![tactic(auto)]

mod ends;
mod parts;

ghost use Rattle.std.specs.Prelude.{◌≡◌, List, ℕ, ◌+◌, ◌≤◌, ◌<◌, length};
ghost use Rattle.definitions.specs.Rules.{rules_of};
ghost use Rattle.definitions.specs.Case.{lent_length};
ghost use Rattle.tables.specs.Scopes.{Limited};
ghost use Rattle.growing.specs.Growing.{joined, has_room, grow_call};

use definitions::{Case, EDGE_PLACES};

// A place for the lower end of each edge of a join.
pub type Ends = [u8; EDGE_PLACES];

// Puts the weights that wait in the starting table in their places, in both tables. The new edges' stay where they wait. The new variable's go
// before the edges', which move up over the places where they waited: so they go to the working table first, and back from there.
fn grow_tables(case: Case, starting: &mut [i64], table: &mut [i64], edges: usize)
    requires limited { Limited case }
    requires n_bound { (case.n < (rules_of case).variables) × (case.m + edges ≤ (rules_of case).edges) }
    requires starting_len { (length starting.old ≡ lent_length (rules_of case) case) × (length table.old ≡ lent_length (rules_of case) case) }
    ensures { (lower : List ℕ)
        → (starting.new ≡ (joined case starting.old table.old edges lower).starting)
        × (table.new ≡ (joined case starting.old table.old edges lower).weights) }
{
    let wide = case.d;
    let square = wide * wide;
    let first = case.n * wide;
    let count = case.m * square;
    parts::put_in(starting, table, first + count, first, wide, count);
    parts::put_in(table, starting, first, first, wide, count);
    let rest = first + count + wide;
    tables::zero_from(starting, rest + edges * square);
    parts::copy_part(starting, table, rest, rest, table.len() - rest);
}

fn grow_checked(
    case: Case,
    starting: &mut [i64],
    table: &mut [i64],
    edges: usize,
    lower: &Ends,
) -> Case
    requires limited { Limited case }
    requires n_bound { (case.n < (rules_of case).variables) × (case.m + edges ≤ (rules_of case).edges) }
    requires starting_len { (length starting.old ≡ lent_length (rules_of case) case) × (length table.old ≡ lent_length (rules_of case) case) }
    ensures { (result ≡ (joined case starting.old table.old edges lower.now).case)
        × (starting.new ≡ (joined case starting.old table.old edges lower.now).starting)
        × (table.new ≡ (joined case starting.old table.old edges lower.now).weights) }
{
    grow_tables(case, starting, table, edges);
    ends::grown_case(case, edges, lower)
}

// One variable more and so many edges are within the limits, and tables of these lengths can be lent.
fn has_room(case: Case, edges: usize, starting: usize, table: usize) -> bool
    ensures { result ≡ has_room case edges starting table }
{
    if !tables::is_sized(case, starting) {
        return false;
    }
    if !tables::is_sized(case, table) {
        return false;
    }
    let rulebook = case.rulebook;
    if rules::variables(rulebook) <= case.n {
        return false;
    }
    edges <= rules::edges(rulebook) - case.m
}

// The case and both tables after a join's last line; without room for it nothing changes.
pub fn grow(case: Case, starting: &mut [i64], table: &mut [i64], edges: usize, lower: &Ends) -> Case
    ensures { (result ≡ (grow_call case starting.old table.old edges lower.now).case)
        × (starting.new ≡ (grow_call case starting.old table.old edges lower.now).starting)
        × (table.new ≡ (grow_call case starting.old table.old edges lower.now).weights) }
{
    if has_room(case, edges, starting.len(), table.len()) {
        return grow_checked(case, starting, table, edges, lower);
    }
    case
}
