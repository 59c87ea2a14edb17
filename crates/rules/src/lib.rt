// The numbers of each rulebook, once: what code asks of them. Proofs use the definitions' names (definitions, specs/Rules).
#![tactic(auto)]

ghost use Rattle.std.specs.Prelude.{◌≡◌, pos};
ghost use Rattle.integers.specs.Words.{minus};
ghost use Rattle.definitions.specs.Rules.{rules_in};
ghost use Rattle.definitions.specs.Case.{barred_weight, is_barred};
ghost use Rattle.definitions.specs.Lines.{line_length};

use definitions::Rulebook;

// ---- the limits of a case

pub fn variables(rulebook: Rulebook) -> usize
    ensures { result ≡ (rules_in rulebook).variables }
{
    match rulebook {
        Rulebook::Desk => 48,
    }
}

pub fn values(rulebook: Rulebook) -> usize
    ensures { result ≡ (rules_in rulebook).values }
{
    match rulebook {
        Rulebook::Desk => 8,
    }
}

pub fn edges(rulebook: Rulebook) -> usize
    ensures { result ≡ (rules_in rulebook).edges }
{
    match rulebook {
        Rulebook::Desk => 96,
    }
}

// ---- ranges

pub fn least_starting(rulebook: Rulebook) -> i64
    ensures { result ≡ minus (rules_in rulebook).starting }
{
    match rulebook {
        Rulebook::Desk => -1_000_000,
    }
}

pub fn most_starting(rulebook: Rulebook) -> i64
    ensures { result ≡ pos (rules_in rulebook).starting }
{
    match rulebook {
        Rulebook::Desk => 1_000_000,
    }
}

pub fn least_working(rulebook: Rulebook) -> i64
    ensures { result ≡ minus (rules_in rulebook).working }
{
    match rulebook {
        Rulebook::Desk => -500_000_000,
    }
}

pub fn most_working(rulebook: Rulebook) -> i64
    ensures { result ≡ pos (rules_in rulebook).working }
{
    match rulebook {
        Rulebook::Desk => 500_000_000,
    }
}

pub fn least_moving(rulebook: Rulebook) -> i64
    ensures { result ≡ minus (rules_in rulebook).moving }
{
    match rulebook {
        Rulebook::Desk => -1_000_000_000,
    }
}

pub fn most_moving(rulebook: Rulebook) -> i64
    ensures { result ≡ pos (rules_in rulebook).moving }
{
    match rulebook {
        Rulebook::Desk => 1_000_000_000,
    }
}

pub fn least_carried(rulebook: Rulebook) -> i64
    ensures { result ≡ minus (rules_in rulebook).carried }
{
    match rulebook {
        Rulebook::Desk => -20_000_000_000,
    }
}

pub fn most_carried(rulebook: Rulebook) -> i64
    ensures { result ≡ pos (rules_in rulebook).carried }
{
    match rulebook {
        Rulebook::Desk => 20_000_000_000,
    }
}

pub fn most_rounds(rulebook: Rulebook) -> u64
    ensures { result ≡ (rules_in rulebook).rounds }
{
    match rulebook {
        Rulebook::Desk => 999_999_999_999_999_999,
    }
}

// ---- barred tuples, under all rules

// What a barred tuple holds in a table.
pub fn barred() -> i64
    ensures { result ≡ barred_weight }
{
    -2_000_000_000
}

pub fn is_barred(weight: i64) -> bool
    ensures { result ≡ is_barred weight }
{
    weight == -2_000_000_000
}

// ---- lines

// The width of the amount column.
pub fn amount_width(rulebook: Rulebook) -> usize
    ensures { result ≡ (rules_in rulebook).amount_width }
{
    match rulebook {
        Rulebook::Desk => 12,
    }
}

pub fn line_length(rulebook: Rulebook) -> usize
    ensures { result ≡ line_length (rules_in rulebook).amount_width }
{
    match rulebook {
        Rulebook::Desk => 27,
    }
}
