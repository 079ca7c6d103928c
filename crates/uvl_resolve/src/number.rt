//! The numbers that rules compare, over the numbers of a model's features.
ghost use Rattle.std.specs.Prelude.{◌≡◌, ◌+◌, ◌≤◌, length, Some, IfOk};
ghost use Rattle.uvl_base.specs.Limits.{most_features};
ghost use Rattle.uvl_resolve.specs.steps.Rules.{attribute_called, number_of, reckoned_by, sum_of, within_numbers, IsMade, IsSingle};

use sqlite_items::Boxed;
use std::alloc::Global;
use uvl_ast::{BinOp, Expr, Ref};
use uvl_base::{Name, OutOfMemory};
use uvl_model::{FeatureNo, Number};
use uvl_scope::{NameIndex, push_dotted};

/// An operator with its right operand, whose left operand is still to be made.
#[derive(Drop)]
pub(crate) struct PendingNumber {
    pub(crate) operator: BinOp,
    pub(crate) right: Number,
}

/// The number that an expression is, where the features with these names are numbered from `offset` on.
/// Left operands are gone down in a loop, as those of rules are.
#[cycle(numbers)]
pub(crate) fn number_of(
    alloc: Global,
    number: &Expr,
    names: &NameIndex,
    offset: usize,
) -> Result<Number, OutOfMemory>
    requires few { offset + length names.now ≤ most_features }
    requires made { IsMade (number_of names.now offset number.now) }
    ensures { IfOk result (λ made. number_of names.now offset number.now ≡ Some made) }
{
    let mut pending = Vec::new(alloc);
    let mut current = number;
    while let Expr::Binary(operator, left, right, _) = current {
        let right = number_of(alloc, right.get(), names, offset)?;
        pending.push(PendingNumber {
            operator: *operator,
            right,
        })?;
        current = left.get();
    }
    let made = amount_of(alloc, current, names, offset)?;
    all_reckoned(alloc, made, pending)
}

/// The number that an expression without an operator of two operands is.
fn amount_of(
    alloc: Global,
    operand: &Expr,
    names: &NameIndex,
    offset: usize,
) -> Result<Number, OutOfMemory>
    requires few { offset + length names.now ≤ most_features }
    requires made { IsMade (number_of names.now offset operand.now) }
    requires single { IsSingle operand.now }
    ensures { IfOk result (λ made. number_of names.now offset operand.now ≡ Some made) }
{
    match operand {
        Expr::Number(value, _) => Ok(Number::Literal(*value)),
        Expr::Name(reference) => attribute_of(alloc, reference, names, offset),
        Expr::Sum(key, _) => sum_of(key, names, offset),
        Expr::Not(_, _) => unreachable!(),
        Expr::Binary(_, _, _, _) => unreachable!(),
    }
}

/// The sum over the features from the first, which is the root of the file, downwards.
fn sum_of(key: &Name, names: &NameIndex, offset: usize) -> Result<Number, OutOfMemory>
    requires few { offset + length names.now ≤ most_features }
    requires known { IsMade (sum_of names.now offset key.now) }
    ensures { IfOk result (λ made. sum_of names.now offset key.now ≡ Some made) }
{
    let key = copy_of(key)?;
    let top = FeatureNo(offset as u32);
    Ok(Number::Sum { top, key })
}

/// The same name again.
fn copy_of(name: &Name) -> Result<Name, OutOfMemory>
    ensures { IfOk result (λ copy. copy ≡ name.now) }
{
    let copy = name.clone()?;
    Ok(copy)
}

/// The attribute of a feature that a reference names.
fn attribute_of(
    alloc: Global,
    reference: &Ref,
    names: &NameIndex,
    offset: usize,
) -> Result<Number, OutOfMemory>
    requires few { offset + length names.now ≤ most_features }
    requires known { IsMade (attribute_called names.now offset reference.now.parts) }
    ensures { IfOk result (λ made. attribute_called names.now offset reference.now.parts ≡ Some made) }
{
    let Some((key, front)) = reference.parts.as_slice().split_last() else {
        unreachable!()
    };
    let mut name = String::new(alloc);
    push_dotted(&mut name, front)?;
    match names.find(name.as_str()) {
        Some(number) => {
            let key = copy_of(key)?;
            Ok(Number::Attr(FeatureNo((offset + number) as u32), key))
        }
        None => unreachable!(),
    }
}

/// A left operand within operators whose right operands are made, the outermost first.
fn all_reckoned(
    alloc: Global,
    inner: Number,
    pending: Vec<PendingNumber>,
) -> Result<Number, OutOfMemory>
    requires { IsMade (within_numbers pending.items (Some inner)) }
    ensures { IfOk result (λ made. within_numbers pending.items (Some inner) ≡ Some made) }
{
    let mut pending = pending;
    let mut made = inner;
    while let Some(outer) = pending.pop() {
        made = reckoned(alloc, outer.operator, made, outer.right)?;
    }
    Ok(made)
}

/// The number that an operator makes of two.
fn reckoned(
    alloc: Global,
    operator: BinOp,
    left: Number,
    right: Number,
) -> Result<Number, OutOfMemory>
    requires { IsMade (reckoned_by operator left right) }
    ensures { IfOk result (λ made. reckoned_by operator left right ≡ Some made) }
{
    let left = Boxed::new(alloc, left)?;
    let right = Boxed::new(alloc, right)?;
    match operator {
        BinOp::Plus => Ok(Number::Plus(left, right)),
        BinOp::Minus => Ok(Number::Minus(left, right)),
        BinOp::Times => Ok(Number::Times(left, right)),
        _ => unreachable!(),
    }
}
