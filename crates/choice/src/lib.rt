// The lowest variable whose values have no supported family, over value sets as bytes: the one that the engine presses.
#![tactic(auto)]

ghost use Rattle.std.specs.Prelude.{◌≡◌, get_or};
ghost use Rattle.arcs.specs.Closure.{closure_sets};
ghost use Rattle.choice.specs.Choice.{says_unsupported, lowest_unsupported};

use arcs::Tried;

// 0 from the slice's end on.
fn byte_at(bytes: &[u8], i: usize) -> u8
    ensures { result ≡ get_or bytes.now i 0 }
{
    bytes.get(i).copied().unwrap_or(0)
}

fn lowest_in(
    lower: &[u8],
    upper: &[u8],
    acts: &[u8],
    rows: &[u8],
    edges: &[u8],
    sets: &[u8],
) -> Option<usize>
    ensures { result ≡ lowest_unsupported lower.now upper.now acts.now rows.now edges.now
        sets.now }
{
    for i in 0..sets.len() {
        let tried = arcs::none_supported(lower, upper, rows, edges, sets, i, byte_at(acts, i));
        if is_unsupported(tried) {
            return Some(i);
        }
    }
    None
}

// ---- the calls

pub fn is_unsupported(tried: Tried) -> bool
    ensures { result ≡ says_unsupported tried }
{
    match tried {
        Tried::Unsupported => true,
        Tried::Supported => false,
        Tried::Malformed => false,
    }
}

// The lowest variable whose values `acts`, each fixed alone, leave no supported family inside the sets. The sets are narrowed once, before a
// value is fixed.
pub fn lowest_unsupported(
    lower: &[u8],
    upper: &[u8],
    acts: &[u8],
    rows: &[u8],
    edges: &[u8],
    sets: &mut [u8],
) -> Option<usize>
    ensures value { result ≡ lowest_unsupported lower.now upper.now acts.now rows.now edges.now
        sets.old }
    ensures sets_after { sets.new ≡ closure_sets lower.now upper.now rows.now edges.now sets.old }
{
    arcs::closure(lower, upper, rows, edges, sets);
    lowest_in(lower, upper, acts, rows, edges, sets)
}
