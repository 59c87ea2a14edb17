// The weights of the scopes that stay, in place.
ghost use Rattle.std.specs.Prelude.{◌≡◌, ◌+◌, ◌≤◌, ◌<◌, length, take, drop};
ghost use Rattle.std.proofs.Math.Seq.{paste};
ghost use Rattle.definitions.specs.Rules.{rules_of};
ghost use Rattle.definitions.specs.Case.{scope_count, lent_length};
ghost use Rattle.logs.specs.Leave.{table_without};
ghost use Rattle.theory.proofs.Shape.{Shape};
ghost use Rattle.tables.specs.Scopes.{Limited, size_of};
ghost use Rattle.leaving.specs.Scopes.{stays as stays_in, kept_to, KeptPart};

use crate::ends;
use definitions::Case;

fn stays(case: Case, variable: usize, x: usize) -> bool
    requires limited { Limited case }
    requires x_bound { x < scope_count case }
    ensures { result ≡ stays_in case variable x }
{
    if x < case.n {
        return x != variable;
    }
    !ends::has_end(case, variable, x - case.n)
}

fn size_of(case: Case, x: usize) -> usize
    requires { Limited case }
    ensures { result ≡ size_of case x }
{
    if x < case.n {
        return case.d;
    }
    case.d * case.d
}

fn move_down(table: &mut [i64], from: usize, to: usize, count: usize)
    requires { (to ≤ from) × (from + count ≤ length table.old) }
    ensures { table.new ≡ paste table.old to (drop from table.old) count }
{
    table.copy_within(from..from + count, to);
}

// Moves a part down if it stays; the place after it.
fn keep_part(table: &mut [i64], from: usize, to: usize, size: usize, stay: bool) -> usize
    requires { (to ≤ from) × (from + size ≤ length table.old) }
    ensures { KeptPart table.old table.new from to size stay result }
{
    if stay {
        move_down(table, from, to, size);
        return to + size;
    }
    to
}

// Moves the parts of the scopes that stay together; the place after them.
fn keep_parts(case: Case, table: &mut [i64], variable: usize) -> usize
    requires limited { Limited case }
    requires table_len { length table.old ≡ lent_length (rules_of case) case }
    ensures { (length table.new ≡ length table.old) × (result ≤ length table.old)
        × (take result table.new ≡ kept_to case variable table.old (scope_count case)) }
{
    let scopes = case.n + case.m;
    let mut from = 0;
    let mut to = 0;
    for x in 0..scopes {
        let size = size_of(case, x);
        let stay = stays(case, variable, x);
        to = keep_part(table, from, to, size, stay);
        from += size;
    }
    to
}

pub(crate) fn remove_scopes(case: Case, table: &mut [i64], variable: usize)
    requires limited { Limited case }
    requires table_len { length table.old ≡ lent_length (rules_of case) case }
    requires shape { Shape case × (variable < case.n) × (1 < case.n) }
    ensures { table.new ≡ table_without case variable table.old }
{
    let kept = keep_parts(case, table, variable);
    tables::zero_from(table, kept);
}

pub(crate) fn copy(from: &[i64], to: &mut [i64])
    requires { length from.now ≡ length to.old }
    ensures { to.new ≡ from.now }
{
    to.copy_from_slice(from);
}
