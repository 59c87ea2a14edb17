// The grown case.
ghost use Rattle.std.specs.Prelude.{◌≡◌, ◌++◌, map, ◌+◌, ◌≤◌, ◌<◌, length, get_or, take};
ghost use Rattle.integers.specs.Words.{below};
ghost use Rattle.definitions.specs.Rules.{rules_of, edge_places};
ghost use Rattle.logs.specs.Leave.{in_places};
ghost use Rattle.logs.specs.Waiting.{grown_with};
ghost use Rattle.tables.specs.Scopes.{Limited};
ghost use Rattle.growing.specs.Parts.{Written};

use definitions::{Case, EDGE_PLACES};

fn put_ends(ends: &[u8], all: &mut [u8], to: usize, count: usize)
    requires { (count ≤ length ends.now) × (to + count ≤ length all.old) }
    ensures { Written 0 all.old all.new to 0 count (λ i. get_or ends.now i 0) }
{
    all[to..to + count].copy_from_slice(&ends[..count]);
}

// The ends of the edges before, and behind them those of the new ones.
fn grown_ends<'a>(
    old: &'a [u8; EDGE_PLACES],
    m: usize,
    new: &'a [u8; EDGE_PLACES],
    edges: usize,
) -> [u8; EDGE_PLACES]
    requires { m + edges ≤ edge_places }
    ensures { (result ≡ in_places (map (λ e. get_or old.now e 0) (below m) ++ take edges new.now))
        × (length new.now ≡ edge_places) }
{
    let mut all = [0u8; EDGE_PLACES];
    put_ends(old, &mut all, 0, m);
    put_ends(new, &mut all, m, edges);
    all
}

pub(crate) fn grown_case(case: Case, edges: usize, lower: &[u8; EDGE_PLACES]) -> Case
    requires limited { Limited case }
    requires n_bound { (case.n < (rules_of case).variables) × (case.m + edges ≤ (rules_of case).edges) }
    ensures { result ≡ grown_with case edges (take edges lower.now) }
{
    let m = case.m;
    let old_lower = case.lower;
    let old_upper = case.upper;
    let new_upper = [case.n as u8; EDGE_PLACES];
    let rulebook = case.rulebook;
    Case {
        n: case.n + 1,
        d: case.d,
        m: m + edges,
        lower: grown_ends(&old_lower, m, lower, edges),
        upper: grown_ends(&old_upper, m, &new_upper, edges),
        carry: case.carry,
        rulebook,
    }
}
