//! The rules of a file, over the numbers of a model's features.
ghost use Rattle.std.specs.Prelude.{◌≡◌, ◌+◌, ◌≤◌, length, Some, IfOk};
ghost use Rattle.uvl_base.specs.Limits.{most_features};
ghost use Rattle.uvl_placing.specs.Names.{dotted};
ghost use Rattle.uvl_resolve.specs.steps.Rules.{compared, comparison_by, feature_called, joined_by, made_of, number_of, within, IsMade, IsSingle};

use crate::number::number_of;
use sqlite_items::Boxed;
use std::alloc::Global;
use uvl_ast::{BinOp, Expr, Ref};
use uvl_base::OutOfMemory;
use uvl_model::{Cmp, FeatureNo, Rule};
use uvl_scope::{NameIndex, push_dotted};

/// An operator with its right operand, whose left operand is still to be made.
#[derive(Drop)]
pub(crate) struct Pending {
    pub(crate) operator: BinOp,
    pub(crate) right: Rule,
}

/// The rule that an expression is, where the features with these names are numbered from `offset` on. A
/// chain of operators is as deep as it is long, since it groups to the left: so left operands are gone
/// down in a loop, and the depth of the calls is that of right operands in each other.
#[cycle(rules)]
pub(crate) fn rule_of(
    alloc: Global,
    rule: &Expr,
    names: &NameIndex,
    offset: usize,
) -> Result<Rule, OutOfMemory>
    requires few { offset + length names.now ≤ most_features }
    requires made { IsMade (made_of names.now offset rule.now) }
    ensures { IfOk result (λ made. made_of names.now offset rule.now ≡ Some made) }
{
    let mut pending = Vec::new(alloc);
    let mut current = rule;
    while let Expr::Binary(operator, left, right, _) = current {
        if let Some(how) = comparison_by(*operator) {
            let made = compared(alloc, how, left.get(), right.get(), names, offset)?;
            return all_joined(alloc, made, pending);
        }
        let right = rule_of(alloc, right.get(), names, offset)?;
        pending.push(Pending {
            operator: *operator,
            right,
        })?;
        current = left.get();
    }
    let made = operand_of(alloc, current, names, offset)?;
    all_joined(alloc, made, pending)
}

/// The rule that an expression without an operator of two operands is.
#[cycle(rules)]
fn operand_of(
    alloc: Global,
    operand: &Expr,
    names: &NameIndex,
    offset: usize,
) -> Result<Rule, OutOfMemory>
    requires few { offset + length names.now ≤ most_features }
    requires made { IsMade (made_of names.now offset operand.now) }
    requires single { IsSingle operand.now }
    ensures { IfOk result (λ made. made_of names.now offset operand.now ≡ Some made) }
{
    match operand {
        Expr::Name(reference) => feature_of(alloc, reference, names, offset),
        Expr::Not(inner, _) => {
            let inner = rule_of(alloc, inner.get(), names, offset)?;
            Ok(Rule::Not(Boxed::new(alloc, inner)?))
        }
        Expr::Binary(_, _, _, _) => unreachable!(),
        Expr::Number(_, _) | Expr::Sum(_, _) => unreachable!(),
    }
}

/// How an operator compares numbers, where it does.
fn comparison_by(operator: BinOp) -> Option<Cmp>
    ensures { result ≡ comparison_by operator }
{
    match operator {
        BinOp::Equal => Some(Cmp::Equal),
        BinOp::Differs => Some(Cmp::Differs),
        BinOp::Less => Some(Cmp::Less),
        BinOp::AtMost => Some(Cmp::AtMost),
        BinOp::Greater => Some(Cmp::Greater),
        BinOp::AtLeast => Some(Cmp::AtLeast),
        _ => None,
    }
}

/// The comparison of the numbers that two expressions are.
fn compared(
    alloc: Global,
    how: Cmp,
    left: &Expr,
    right: &Expr,
    names: &NameIndex,
    offset: usize,
) -> Result<Rule, OutOfMemory>
    requires few { offset + length names.now ≤ most_features }
    requires left { IsMade (number_of names.now offset left.now) }
    requires right { IsMade (number_of names.now offset right.now) }
    ensures { IfOk result (λ made. compared how (number_of names.now offset left.now)
        (number_of names.now offset right.now) ≡ Some made) }
{
    let left = number_of(alloc, left, names, offset)?;
    let right = number_of(alloc, right, names, offset)?;
    let left = Boxed::new(alloc, left)?;
    Ok(Rule::Compare(how, left, Boxed::new(alloc, right)?))
}

/// The rule that a feature is selected.
fn feature_of(
    alloc: Global,
    reference: &Ref,
    names: &NameIndex,
    offset: usize,
) -> Result<Rule, OutOfMemory>
    requires few { offset + length names.now ≤ most_features }
    requires known { IsMade (feature_called names.now offset (dotted reference.now.parts)) }
    ensures { IfOk result (λ made. feature_called names.now offset (dotted reference.now.parts) ≡ Some made) }
{
    let mut name = String::new(alloc);
    push_dotted(&mut name, reference.parts.as_slice())?;
    match names.find(name.as_str()) {
        Some(number) => Ok(Rule::Feature(FeatureNo((offset + number) as u32))),
        None => unreachable!(),
    }
}

/// A left operand within operators whose right operands are made, the outermost first.
fn all_joined(alloc: Global, inner: Rule, pending: Vec<Pending>) -> Result<Rule, OutOfMemory>
    requires { IsMade (within pending.items (Some inner)) }
    ensures { IfOk result (λ made. within pending.items (Some inner) ≡ Some made) }
{
    let mut pending = pending;
    let mut made = inner;
    while let Some(outer) = pending.pop() {
        made = joined(alloc, outer.operator, made, outer.right)?;
    }
    Ok(made)
}

/// The rule that an operator makes of two.
fn joined(alloc: Global, operator: BinOp, left: Rule, right: Rule) -> Result<Rule, OutOfMemory>
    requires { IsMade (joined_by operator left right) }
    ensures { IfOk result (λ made. joined_by operator left right ≡ Some made) }
{
    let left = Boxed::new(alloc, left)?;
    let right = Boxed::new(alloc, right)?;
    match operator {
        BinOp::And => Ok(Rule::And(left, right)),
        BinOp::Or => Ok(Rule::Or(left, right)),
        BinOp::Implies => Ok(Rule::Implies(left, right)),
        BinOp::Iff => Ok(Rule::Iff(left, right)),
        _ => unreachable!(),
    }
}
