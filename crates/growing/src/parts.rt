// Parts of tables, moved and copied from the top.
ghost use Rattle.std.specs.Prelude.{◌+◌, ◌≤◌, pos, length, get_or};
ghost use Rattle.growing.specs.Parts.{Written, PutIn};

fn move_up(table: &mut [i64], from: usize, to: usize, count: usize)
    requires { (from ≤ to) × (to + count ≤ length table.old) }
    ensures { Written (pos 0) table.old table.new to 0 count
        (λ i. get_or table.old (from + i) (pos 0)) }
{
    table.copy_within(from..from + count, to);
}

pub(crate) fn copy_part(source: &[i64], table: &mut [i64], from: usize, to: usize, count: usize)
    requires { (from + count ≤ length source.now) × (to + count ≤ length table.old) }
    ensures { Written (pos 0) table.old table.new to 0 count
        (λ i. get_or source.now (from + i) (pos 0)) }
{
    table[to..to + count].copy_from_slice(&source[from..from + count]);
}

// Moves `count` weights from place `first` on up, and puts `wide` weights of the source, from place `from` on, in there.
pub(crate) fn put_in(
    source: &[i64],
    table: &mut [i64],
    from: usize,
    first: usize,
    wide: usize,
    count: usize,
)
    requires { (from + wide ≤ length source.now) × (first + wide + count ≤ length table.old) }
    ensures { PutIn table.old table.new first wide count (λ i. get_or source.now (from + i) (pos 0)) }
{
    move_up(table, first, first + wide, count);
    copy_part(source, table, from, first, wide);
}
