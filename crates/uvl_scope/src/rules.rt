//! What stands in a rule. A chain of operators is as deep as it is long, since it groups to the left: so
//! each walk goes down the left operands in a loop, and calls itself for right operands alone.
ghost use Rattle.std.specs.Prelude.{◌≡◌, ◌+◌, ◌<◌, IfSome, IfNone};
ghost use Rattle.uvl_ast.specs.Nodes.{nodes_of};
ghost use Rattle.uvl_scope.specs.Rules.{has_numbers, joins_truths, place_of};

use uvl_ast::{BinOp, Expr};
use uvl_base::Place;

/// Where the outermost node of a rule stands.
pub(crate) fn place_of(rule: &Expr) -> Place
    ensures { result ≡ place_of rule.now }
{
    match rule {
        Expr::Name(reference) => reference.place,
        Expr::Number(_, place)
        | Expr::Sum(_, place)
        | Expr::Not(_, place)
        | Expr::Binary(_, _, _, place) => *place,
    }
}

/// What is left of a number of nodes, once those of a rule are taken; nothing where the rule has more.
#[tactic(auto, using(crate::proofs::RuleNodes::nodes_number, crate::proofs::RuleNodes::nodes_name, crate::proofs::RuleNodes::nodes_sum, crate::proofs::RuleNodes::nodes_not, crate::proofs::RuleNodes::nodes_binary))]
pub(crate) fn nodes_left(rule: &Expr, limit: usize) -> Option<usize>
    ensures enough { IfSome result (λ rest. rest + nodes_of rule.now ≡ limit) }
    ensures more { IfNone result (limit < nodes_of rule.now) }
{
    let mut current = rule;
    let mut left = limit;
    loop {
        left = left.checked_sub(1)?;
        match current {
            Expr::Number(_, _) | Expr::Name(_) | Expr::Sum(_, _) => return Some(left),
            Expr::Not(operand, _) => current = operand.get(),
            Expr::Binary(_, first, second, _) => {
                left = nodes_left(second.get(), left)?;
                current = first.get();
            }
        }
    }
}

/// Whether a literal, a sum, arithmetic or a comparison stands in a rule.
pub(crate) fn has_numbers(rule: &Expr) -> bool
    ensures { result ≡ has_numbers rule.now }
{
    let mut current = rule;
    loop {
        match current {
            Expr::Number(_, _) | Expr::Sum(_, _) => return true,
            Expr::Name(_) => return false,
            Expr::Not(operand, _) => current = operand.get(),
            Expr::Binary(operator, first, second, _) => {
                if !joins_truths(*operator) || has_numbers(second.get()) {
                    return true;
                }
                current = first.get();
            }
        }
    }
}

/// Whether an operator joins truths.
pub(crate) fn joins_truths(operator: BinOp) -> bool
    ensures { result ≡ joins_truths operator }
{
    matches!(
        operator,
        BinOp::And | BinOp::Or | BinOp::Implies | BinOp::Iff
    )
}
