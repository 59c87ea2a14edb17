// Whether the pairs form no loop (document 02, change 4), asked of a case alone: numbers 3, 5, 6 and 7.
#![tactic(auto)]

ghost use Rattle.std.specs.Prelude.{◌≡◌, map, ◌≤◌, length};
ghost use Rattle.integers.specs.Words.{below};
ghost use Rattle.definitions.specs.Rules.{rules_of};
ghost use Rattle.definitions.specs.Graph.{renamed as label_renamed, is_acyclic};
ghost use Rattle.calls.specs.Calls.{is_acyclic_answer};
ghost use Rattle.theory.proofs.Shape.{Shape};
ghost use Rattle.tables.specs.Scopes.{Limited};

use definitions::{Case, Refusal, VARIABLE_PLACES};

// Each variable has a label, at first its own number.
fn label_apart(labels: &mut [u8])
    requires { length labels.old ≤ 256 }
    ensures { labels.new ≡ below (length labels.old) }
{
    for (i, label) in labels.iter_mut().enumerate() {
        *label = i as u8;
    }
}

fn renamed(label: u8, from: u8, to: u8) -> u8
    ensures { result ≡ label_renamed from to label }
{
    if label == from { to } else { label }
}

// All with the label `from` get the label `to`.
fn relabel(labels: &mut [u8], from: u8, to: u8)
    ensures { labels.new ≡ map (label_renamed from to) labels.old }
{
    for label in labels.iter_mut() {
        *label = renamed(*label, from, to);
    }
}

// The edges in turn: each joins two labels, and one whose ends have the same label closes a loop.
fn join_edges(case: Case, labels: &mut [u8]) -> bool
    requires shape { Shape case }
    requires limited { Limited case }
    requires labels_len { length labels.old ≡ case.n }
    ensures { result ≡ is_acyclic case }
{
    label_apart(labels);
    for e in 0..case.m {
        let to = labels[case.lower[e] as usize];
        let from = labels[case.upper[e] as usize];
        if to == from {
            return false;
        }
        relabel(labels, from, to);
    }
    true
}

// True if the edges form no cycle.
pub fn is_acyclic(case: Case) -> Result<bool, Refusal>
    ensures { result ≡ is_acyclic_answer (rules_of case) case }
{
    tables::check_edges(case, false)?;
    let n = case.n;
    let mut labels = [0u8; VARIABLE_PLACES];
    Ok(join_edges(case, &mut labels[..n]))
}
