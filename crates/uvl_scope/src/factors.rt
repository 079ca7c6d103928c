//! The products in a rule: which of them are linear.
ghost use Rattle.std.specs.Prelude.{◌≡◌};
ghost use Rattle.uvl_scope.specs.NumberFaults.{factor_of, fault_of_operator, fault_of_product, is_not_linear, is_small, is_times, makes_number};

use crate::fault::Finding;
use uvl_ast::{BinOp, Expr};
use uvl_base::{FaultKind, Fixed, Place};

/// A literal factor is below so many millionths in size.
const FACTOR_LIMIT: i64 = 1_000_000_000_000;

/// An operand as a product sees it.
#[derive(Drop)]
pub(crate) struct Factor {
    /// A product is in it.
    pub(crate) product: bool,
    /// What it is, where it is a literal.
    pub(crate) literal: Option<Fixed>,
}

/// What is wrong at an operator alone, where a truth is needed or else a number: it makes the other sort,
/// or it is a product with a fault.
pub(crate) fn fault_of_operator(
    operator: BinOp,
    left: &Expr,
    right: &Expr,
    place: Place,
    boolean: bool,
) -> Option<Finding>
    ensures { result ≡ fault_of_operator operator (factor_of left.now) (factor_of right.now) place boolean }
{
    if boolean == makes_number(operator) {
        return Some(Finding {
            place,
            kind: FaultKind::WrongSort,
        });
    }
    if is_times(operator) {
        fault_of_product(&factor_of(left), &factor_of(right), place)
    } else {
        None
    }
}

/// What is wrong with a product: it isn't linear, or no side is a literal that is small enough.
fn fault_of_product(left: &Factor, right: &Factor, place: Place) -> Option<Finding>
    ensures { result ≡ fault_of_product left.now right.now place }
{
    if is_not_linear(left, right) {
        return Some(Finding {
            place,
            kind: FaultKind::NotLinear,
        });
    }
    if is_small(left) || is_small(right) {
        return None;
    }
    Some(Finding {
        place,
        kind: FaultKind::FactorTooLarge,
    })
}

/// Whether a side of a product has a product in it, or neither side is a literal.
fn is_not_linear(left: &Factor, right: &Factor) -> bool
    ensures { result ≡ is_not_linear left.now right.now }
{
    left.product || right.product || (left.literal.is_none() && right.literal.is_none())
}

/// Whether an operand is a literal below 1,000,000 in size.
fn is_small(factor: &Factor) -> bool
    ensures { result ≡ is_small factor.now.literal }
{
    match factor.literal {
        Some(number) => {
            let millionths = number.millionths();
            -FACTOR_LIMIT < millionths && millionths < FACTOR_LIMIT
        }
        None => false,
    }
}

/// Whether an operator makes a number.
fn makes_number(operator: BinOp) -> bool
    ensures { result ≡ makes_number operator }
{
    matches!(operator, BinOp::Plus | BinOp::Minus | BinOp::Times)
}

/// Whether an operator makes a product.
fn is_times(operator: BinOp) -> bool
    ensures { result ≡ is_times operator }
{
    matches!(operator, BinOp::Times)
}

/// An operand as a product sees it.
fn factor_of(operand: &Expr) -> Factor
    ensures { result ≡ factor_of operand.now }
{
    Factor {
        product: has_product(operand),
        literal: literal_of(operand),
    }
}

/// The number that an operand is, where it is a literal.
#[tactic(auto, using(crate::proofs::FactorNodes::literal_number, crate::proofs::FactorNodes::literal_name, crate::proofs::FactorNodes::literal_sum, crate::proofs::FactorNodes::literal_not, crate::proofs::FactorNodes::literal_binary))]
fn literal_of(operand: &Expr) -> Option<Fixed>
    ensures { result ≡ (factor_of operand.now).literal }
{
    match operand {
        Expr::Number(number, _) => Some(*number),
        Expr::Name(_) | Expr::Sum(_, _) | Expr::Not(_, _) | Expr::Binary(_, _, _, _) => None,
    }
}

/// Whether a product is in an operand. Below a product nothing is looked at: so what is looked at for all
/// products of a rule is no more than the rule.
#[tactic(auto, using(crate::proofs::FactorNodes::product_number, crate::proofs::FactorNodes::product_name, crate::proofs::FactorNodes::product_sum, crate::proofs::FactorNodes::product_not, crate::proofs::FactorNodes::product_binary))]
fn has_product(operand: &Expr) -> bool
    ensures { result ≡ (factor_of operand.now).product }
{
    let mut current = operand;
    loop {
        match current {
            Expr::Number(_, _) | Expr::Name(_) | Expr::Sum(_, _) => return false,
            Expr::Not(inner, _) => current = inner.get(),
            Expr::Binary(operator, first, second, _) => {
                if is_times(*operator) || has_product(second.get()) {
                    return true;
                }
                current = first.get();
            }
        }
    }
}
