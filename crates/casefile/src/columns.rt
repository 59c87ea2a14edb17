// What is asked of a column.
ghost use Rattle.std.specs.Prelude.{◌≡◌, false, ◌&&◌, ◌<◌, pos, nat_abs};
ghost use Rattle.std.specs.Int.Signed.{lt_z, le_z};
ghost use Rattle.integers.specs.Words.{within_z};
ghost use Rattle.definitions.specs.Lines.{zero_unless};
ghost use Rattle.definitions.specs.CaseFiles.{names as names_place};
ghost use Rattle.casefile.specs.Reads.{is_of_kind};

use definitions::Line;

pub(crate) fn is_between(z: i64, low: i64, high: i64) -> bool
    ensures { result ≡ within_z low high z }
{
    low <= z && z <= high
}

fn zero_unless(used: bool, z: i64) -> bool
    ensures { result ≡ zero_unless used z }
{
    if used { true } else { z == 0 }
}

// The line is of this kind, and a third place and an amount that the kind does not use are 0.
pub(crate) fn is_of_kind(line: Line, kind: i64, third: bool, amount: bool) -> bool
    ensures { result ≡ is_of_kind kind third amount line }
{
    (line.kind == kind) & zero_unless(third, line.c) & zero_unless(amount, line.amount)
}

pub(crate) fn count_of(z: i64) -> usize
    requires { lt_z z (pos 0) ≡ false }
    ensures { result ≡ nat_abs z }
{
    z as usize
}

// The column names this place.
pub(crate) fn names(z: i64, place: usize) -> bool
    requires { place < 65536 }
    ensures { result ≡ names_place place z }
{
    z == place as i64
}

pub(crate) fn is_below(z: i64, n: usize) -> bool
    requires { n < 65536 }
    ensures { result ≡ (le_z (pos 0) z && lt_z z (pos n)) }
{
    0 <= z && z < n as i64
}
