// The lines of a case after its head: how many, what is due at each, and where its weight lies (document 01, "Lines").
#![tactic(auto)]

ghost use Rattle.std.specs.Prelude.{◌≡◌, ◌+◌, ltb};
ghost use Rattle.case_lines.specs.Dues.{is_plain, first_due, next_variable, next_tuple, next_due, has_value, has_tuple, value_place, tuple_place, weight_place};
ghost use Rattle.case_lines.specs.Dues.{count_due};

use definitions::{EDGE_PLACES, Rulebook};

// How many variables, values and edges a case has, and the rules it is under.
#[derive(Clone, Copy)]
pub struct Sizes {
    pub n: usize,
    pub d: usize,
    pub m: usize,
    pub rulebook: Rulebook,
}

// What is due at a line after the head.
#[derive(Clone, Copy)]
pub enum Awaited {
    VariableWeight { variable: usize, value: usize },
    EdgeEnds(usize),
    EdgeWeight { edge: usize, k: usize, l: usize },
}

// No number is above what the places of any rules hold.
fn is_plain(sizes: Sizes) -> bool
    ensures { result ≡ is_plain sizes }
{
    (sizes.n <= 256) & (sizes.d <= 8) & (sizes.m <= EDGE_PLACES)
}

// ---- what is due

// What is due at the first line after the head.
pub fn first_due(sizes: Sizes) -> Awaited
    ensures { result ≡ first_due sizes }
{
    if 0 < sizes.n {
        return Awaited::VariableWeight {
            variable: 0,
            value: 0,
        };
    }
    Awaited::EdgeEnds(0)
}

// One more is below `most` too.
fn has_next(k: usize, most: usize) -> bool
    ensures { result ≡ ltb (k + 1) most }
{
    if most <= k {
        return false;
    }
    k + 1 < most
}

fn after_variable(sizes: Sizes, i: usize, k: usize) -> Awaited
    ensures { result ≡ next_variable sizes i k }
{
    if has_next(k, sizes.d) {
        return Awaited::VariableWeight {
            variable: i,
            value: k + 1,
        };
    }
    if has_next(i, sizes.n) {
        return Awaited::VariableWeight {
            variable: i + 1,
            value: 0,
        };
    }
    Awaited::EdgeEnds(0)
}

fn after_tuple(sizes: Sizes, e: usize, k: usize, l: usize) -> Awaited
    ensures { result ≡ next_tuple sizes e k l }
{
    if has_next(l, sizes.d) {
        return Awaited::EdgeWeight {
            edge: e,
            k,
            l: l + 1,
        };
    }
    if has_next(k, sizes.d) {
        return Awaited::EdgeWeight {
            edge: e,
            k: k + 1,
            l: 0,
        };
    }
    if has_next(e, sizes.m) {
        return Awaited::EdgeEnds(e + 1);
    }
    Awaited::EdgeEnds(0)
}

// What is due at the line after the one at which `due` is.
pub fn next_due(sizes: Sizes, due: Awaited) -> Awaited
    ensures { result ≡ next_due sizes due }
{
    match due {
        Awaited::VariableWeight { variable, value } => after_variable(sizes, variable, value),
        Awaited::EdgeEnds(edge) => Awaited::EdgeWeight { edge, k: 0, l: 0 },
        Awaited::EdgeWeight { edge, k, l } => after_tuple(sizes, edge, k, l),
    }
}

// ---- places

fn has_value(sizes: Sizes, i: usize, k: usize) -> bool
    ensures { result ≡ has_value sizes i k }
{
    is_plain(sizes) & (i < sizes.n) & (k < sizes.d)
}

fn has_tuple(sizes: Sizes, e: usize, k: usize, l: usize) -> bool
    ensures { result ≡ has_tuple sizes e k l }
{
    is_plain(sizes) & (e < sizes.m) & (k < sizes.d) & (l < sizes.d)
}

fn value_place(sizes: Sizes, i: usize, k: usize) -> usize
    ensures { result ≡ value_place sizes i k }
{
    if has_value(sizes, i, k) {
        i * sizes.d + k
    } else {
        0
    }
}

fn tuple_place(sizes: Sizes, e: usize, k: usize, l: usize) -> usize
    ensures { result ≡ tuple_place sizes e k l }
{
    if has_tuple(sizes, e, k, l) {
        let d = sizes.d;
        sizes.n * d + (e * (d * d) + (k * d + l))
    } else {
        0
    }
}

// The place in the table of the weight that is due; 0 where none is.
pub fn place_of(sizes: Sizes, due: Awaited) -> usize
    ensures { result ≡ weight_place sizes due }
{
    match due {
        Awaited::VariableWeight { variable, value } => value_place(sizes, variable, value),
        Awaited::EdgeEnds(_) => 0,
        Awaited::EdgeWeight { edge, k, l } => tuple_place(sizes, edge, k, l),
    }
}

// How many lines follow the head; 0 where a number is above every limit.
pub fn lines_due(sizes: Sizes) -> usize
    ensures { result ≡ count_due sizes }
{
    if is_plain(sizes) {
        let d = sizes.d;
        sizes.n * d + sizes.m * (1 + d * d)
    } else {
        0
    }
}
