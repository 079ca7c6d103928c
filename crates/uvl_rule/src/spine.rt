//! The way down the left operands of a rule.
ghost use Rattle.std.specs.Prelude.{◌≡◌, ◌<◌, None, option_copied, IfOk, IfSome};
ghost use Rattle.uvl_model.specs.Rules.{nodes_of};
ghost use Rattle.uvl_rule.specs.Spine.{IsSpine, left_operand, rules_at};

use std::alloc::{AllocError, Global};
use uvl_model::Rule;

/// The nodes from a rule down its left operands, and the part without operands in which they end. Rules are as deep to
/// the left as they are long, so this is a loop.
pub(crate) fn spine_of<'a>(
    alloc: Global,
    rule: &'a Rule,
) -> Result<(Vec<&'a Rule>, &'a Rule), AllocError>
    ensures spine { IfOk result (λ way. IsSpine (rules_at way.0.items) way.1.now rule.now) }
    ensures end { IfOk result (λ way. left_operand way.1.now ≡ None) }
{
    let mut nodes = Vec::new(alloc);
    let mut part = rule;
    while let Some(left) = left_of(part) {
        nodes.push(part)?;
        part = left;
    }
    Ok((nodes, part))
}

/// The operand of a node that is its left or its only one.
fn left_of(node: &Rule) -> Option<&Rule>
    ensures left { option_copied result ≡ left_operand node.now }
    ensures smaller { IfSome result (λ left. nodes_of left.now < nodes_of node.now) }
{
    match node {
        Rule::Feature(_) | Rule::Compare(_, _, _) => None,
        Rule::Not(operand) => Some(operand.get()),
        Rule::And(left, _) => Some(left.get()),
        Rule::Or(left, _) => Some(left.get()),
        Rule::Implies(left, _) => Some(left.get()),
        Rule::Iff(left, _) => Some(left.get()),
    }
}
