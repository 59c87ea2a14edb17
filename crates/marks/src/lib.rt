// Sets of at most eight values, as marks in a byte: value k is in the set where bit k is set.
#![tactic(auto)]

ghost use Rattle.std.specs.Prelude.{◌≡◌};
ghost use Rattle.marks.specs.Marks.{mark, lowest_of, is_single, without, added, pushed, only_of, full_of, in_both};

pub fn has(set: u8, value: u8) -> bool
    ensures { result ≡ mark set value }
{
    if value >= 8 {
        return false;
    }
    (set >> value) % 2 == 1
}

// The lowest value of the set, 8 if it has none.
pub fn lowest(set: u8) -> u8
    ensures { result ≡ lowest_of set }
{
    u8::trailing_zeros(set) as u8
}

pub fn is_single(set: u8) -> bool
    ensures { result ≡ is_single set }
{
    u8::count_ones(set) == 1
}

// The set without a value.
pub fn strike(set: u8, value: u8) -> u8
    ensures { result ≡ without set value }
{
    if value >= 8 {
        return set;
    }
    set & !(1u8 << value)
}

// The set with a value.
pub fn add(set: u8, value: u8) -> u8
    ensures { result ≡ added set value }
{
    if value >= 8 {
        return set;
    }
    set | (1u8 << value)
}

// Every value one higher, and value 0 if `low`.
pub fn push(set: u8, low: bool) -> u8
    ensures { result ≡ pushed set low }
{
    if low {
        return (set << 1) | 1;
    }
    set << 1
}

// The set of one value; the empty set for a value from 8 on.
pub fn only(value: u8) -> u8
    ensures { result ≡ only_of value }
{
    if value >= 8 {
        return 0;
    }
    1u8 << value
}

// The set of the values below d, all eight from 8 on.
pub fn full(d: u8) -> u8
    ensures { result ≡ full_of d }
{
    if d >= 8 {
        return 255;
    }
    (1u8 << d) - 1
}

pub fn common(a: u8, b: u8) -> u8
    ensures { result ≡ in_both a b }
{
    a & b
}
