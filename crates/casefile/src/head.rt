// The head: the sizes that it says.
ghost use Rattle.std.specs.Prelude.{◌≡◌, ◌+◌, ◌*◌, ◌≤◌, ◌<◌, pos, Some, None};
ghost use Rattle.integers.specs.Words.{within_z};
ghost use Rattle.definitions.specs.Rules.{rules_in, edge_places, full_length};
ghost use Rattle.definitions.specs.Refusals.{first_refusal};
ghost use Rattle.definitions.specs.CaseFiles.{head_tests};
ghost use Rattle.casefile.specs.Reads.{limits_z, Few, head_answer};

use crate::columns;
use definitions::{CaseSize, Line, Refusal, Rulebook};

fn in_limit(z: i64, low: i64, most: usize) -> bool
    requires { most < 65536 }
    ensures { result ≡ within_z low (pos most) z }
{
    columns::is_between(z, low, most as i64)
}

fn head_limited(rulebook: Rulebook, line: Line) -> bool
    ensures { result ≡ limits_z rulebook line.a line.b line.c }
{
    in_limit(line.a, 1, rules::variables(rulebook))
        & in_limit(line.b, 1, rules::values(rulebook))
        & in_limit(line.c, 0, rules::edges(rulebook))
}

// The places of n variables and m edges with d values.
pub(crate) fn places(n: usize, d: usize, m: usize) -> usize
    requires { (n ≤ 256) × (d ≤ 8) × (m ≤ edge_places) }
    ensures { result ≡ n * d + m * (d * d) }
{
    n * d + m * (d * d)
}

fn full_length(rulebook: Rulebook, d: usize) -> usize
    requires { d ≤ 8 }
    ensures { result ≡ full_length (rules_in rulebook) d }
{
    places(rules::variables(rulebook), d, rules::edges(rulebook))
}

fn head_size(rulebook: Rulebook, line: Line) -> Result<CaseSize, Refusal>
    requires { Few 256 line.a × Few 8 line.b × Few edge_places line.c }
    ensures { result ≡ head_answer rulebook None line }
{
    let n = columns::count_of(line.a);
    let d = columns::count_of(line.b);
    let m = columns::count_of(line.c);
    let table = full_length(rulebook, d);
    Ok(CaseSize { n, d, m, table })
}

pub(crate) fn head_answer(rulebook: Rulebook, line: Line) -> Result<CaseSize, Refusal>
    ensures { result ≡ head_answer rulebook (first_refusal (head_tests (rules_in rulebook) (Some line))) line }
{
    if !columns::is_of_kind(line, 10, true, false) {
        return Err(Refusal::NotDue);
    }
    if !head_limited(rulebook, line) {
        return Err(Refusal::OutsideLimits);
    }
    head_size(rulebook, line)
}
