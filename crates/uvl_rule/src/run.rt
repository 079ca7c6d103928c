//! Runs of nodes on a rule's spine: one node, or a chain of `&` or of `|`.
ghost use Rattle.std.specs.Prelude.{◌≡◌, ◌↔◌, ◌<◌, Some, length, option_copied, drop, IsTrue};
ghost use Rattle.std.specs.List.{All};
ghost use Rattle.uvl_rule.specs.Run.{IsRun, connective_of, regroups, right_operand};
ghost use Rattle.uvl_rule.specs.Spine.{rules_at};

use crate::connective::Connective;
use uvl_model::Rule;

/// The operator of a node, where it has two operands.
pub(crate) fn connective_of(node: &Rule) -> Option<Connective>
    ensures { result ≡ connective_of node.now }
{
    match node {
        Rule::Feature(_) | Rule::Not(_) | Rule::Compare(_, _, _) => None,
        Rule::And(_, _) => Some(Connective::And),
        Rule::Or(_, _) => Some(Connective::Or),
        Rule::Implies(_, _) => Some(Connective::Implies),
        Rule::Iff(_, _) => Some(Connective::Iff),
    }
}

/// The right operand of a node, where it has two.
pub(crate) fn right_of(node: &Rule) -> Option<&Rule>
    ensures { option_copied result ≡ right_operand node.now }
{
    match node {
        Rule::Feature(_) | Rule::Not(_) | Rule::Compare(_, _, _) => None,
        Rule::And(_, right) => Some(right.get()),
        Rule::Or(_, right) => Some(right.get()),
        Rule::Implies(_, right) => Some(right.get()),
        Rule::Iff(_, right) => Some(right.get()),
    }
}

/// Where the run begins in which the nodes of a spine end.
pub(crate) fn run_start(nodes: &[&Rule]) -> usize
    requires { 0 < length nodes.now }
    ensures within { result < length nodes.now }
    ensures run { IsRun (rules_at (drop result nodes.now)) }
{
    let last = nodes.len() - 1;
    match connective_of(nodes[last]) {
        Some(connective) if regroups(connective) => chain_start(nodes, last, connective),
        _ => last,
    }
}

/// Whether a chain of the connective may be grouped and ordered in any way.
fn regroups(connective: Connective) -> bool
    ensures { result ≡ regroups connective }
{
    matches!(connective, Connective::And | Connective::Or)
}

/// Where the chain of a connective begins that ends with the node at `last`.
fn chain_start(nodes: &[&Rule], last: usize, connective: Connective) -> usize
    requires within { last < length nodes.now }
    requires chain { All (λ node. connective_of node ≡ Some connective) (rules_at (drop last nodes.now)) }
    ensures within { result < length nodes.now }
    ensures chain { All (λ node. connective_of node ≡ Some connective) (rules_at (drop result nodes.now)) }
{
    let mut start = last;
    while start > 0 && joins_by(nodes[start - 1], connective) {
        start -= 1;
    }
    start
}

/// Whether a node has this operator.
fn joins_by(node: &Rule, connective: Connective) -> bool
    ensures { IsTrue result ↔ (connective_of node.now ≡ Some connective) }
{
    match connective_of(node) {
        Some(own) => own == connective,
        None => false,
    }
}
