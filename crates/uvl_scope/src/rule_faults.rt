//! What is wrong inside a rule. A chain of operators is as deep as it is long, since it groups to the left:
//! so the walk goes down the left operands in a loop, from the end of the text to its front, and calls
//! itself for right operands alone.
ghost use Rattle.std.specs.Prelude.{◌≡◌, true, ◌<◌, IfOk};
ghost use Rattle.std.specs.Option.{option_or};
ghost use Rattle.uvl_ast.specs.declared.expression.Expr.{out-Expr, size-Expr};
ghost use Rattle.uvl_base.specs.declared.fault.FaultKind.TheVariants.{WrongSort};
ghost use Rattle.uvl_scope.specs.Firsts.{when};
ghost use Rattle.uvl_scope.specs.LineFaults.{finding};
ghost use Rattle.uvl_scope.specs.NumberFaults.{fault_within};
ghost use Rattle.uvl_scope.specs.steps.Operands.{is_operation};

use crate::attributes::AttributeLists;
use crate::factors::fault_of_operator;
use crate::fault::Finding;
use crate::names::NameIndex;
use crate::references::fault_of_reference;
use crate::rules::joins_truths;
use uvl_ast::Expr;
use uvl_base::{FaultKind, OutOfMemory, Place};

/// What is wrong first in an expression, in the order of the text, where a truth is needed or else a
/// number. The text is for names that dots join.
#[cycle(faults)]
pub(crate) fn first_fault(
    names: &NameIndex,
    attributes: &AttributeLists<'_>,
    text: &mut String,
    rule: &Expr,
    boolean: bool,
) -> Result<Option<Finding>, OutOfMemory>
    ensures { IfOk result (λ found. found ≡ fault_within names.now attributes.now rule.now boolean) }
{
    let mut current = rule;
    let mut is_boolean = boolean;
    let mut found = None;
    loop {
        match current {
            Expr::Number(_, place) | Expr::Sum(_, place) => {
                return Ok(fault_of_amount(*place, is_boolean).or(found));
            }
            Expr::Name(reference) => {
                let here = fault_of_reference(names, attributes, text, reference, is_boolean)?;
                return Ok(here.or(found));
            }
            Expr::Not(operand, place) => {
                if !is_boolean {
                    return Ok(Some(wrong_sort(*place)));
                }
                current = operand.get();
            }
            Expr::Binary(_, _, _, _) => {
                let (left, joins, behind) = left_of(
                    names, attributes, text, current, is_boolean, found,
                )?;
                found = behind;
                is_boolean = joins;
                current = left;
            }
        }
    }
}

/// The left operand of an operation, whether a truth is needed there, and what is wrong first behind it:
/// at the operator, in the right operand, or what was found so far.
#[cycle(faults)]
fn left_of<'a>(
    names: &NameIndex,
    attributes: &AttributeLists<'_>,
    text: &mut String,
    operation: &'a Expr,
    boolean: bool,
    found: Option<Finding>,
) -> Result<(&'a Expr, bool, Option<Finding>), OutOfMemory>
    requires { is_operation (out-Expr operation.now) ≡ true }
    ensures behind { IfOk result
        (λ left. option_or (fault_within names.now attributes.now left.0.now left.1) left.2
        ≡ option_or (fault_within names.now attributes.now operation.now boolean) found) }
    ensures smaller { IfOk result (λ left. size-Expr left.0.now < size-Expr operation.now) }
{
    match operation {
        Expr::Binary(operator, first, second, place) => {
            let joins = joins_truths(*operator);
            let here = fault_of_operator(*operator, first.get(), second.get(), *place, boolean);
            let behind = or_inside(names, attributes, text, here, second.get(), joins)?;
            Ok((first.get(), joins, behind.or(found)))
        }
        Expr::Number(_, _) | Expr::Name(_) | Expr::Sum(_, _) | Expr::Not(_, _) => {
            Ok((operation, boolean, found))
        }
    }
}

/// What was found, or else what is wrong first in an expression.
#[cycle(faults)]
fn or_inside(
    names: &NameIndex,
    attributes: &AttributeLists<'_>,
    text: &mut String,
    found: Option<Finding>,
    rule: &Expr,
    boolean: bool,
) -> Result<Option<Finding>, OutOfMemory>
    ensures { IfOk result (λ first. first
        ≡ option_or found (fault_within names.now attributes.now rule.now boolean)) }
{
    match found {
        Some(finding) => Ok(Some(finding)),
        None => first_fault(names, attributes, text, rule, boolean),
    }
}

/// What is wrong with a literal or a sum: a truth is needed.
fn fault_of_amount(place: Place, boolean: bool) -> Option<Finding>
    ensures { result ≡ when boolean (finding WrongSort place) }
{
    if boolean {
        Some(wrong_sort(place))
    } else {
        None
    }
}

/// The other sort is needed at a place.
fn wrong_sort(place: Place) -> Finding
    ensures { result ≡ finding WrongSort place }
{
    Finding {
        place,
        kind: FaultKind::WrongSort,
    }
}
