//! The diagram of a comparison of two numbers.
ghost use Rattle.std.specs.Prelude.{◌≡◌, ◌++◌, [], ◌∷◌, length, IfOk, IfErr, OnOk, OnErr};
ghost use Rattle.dd_store.specs.Changes.{Keeps};
ghost use Rattle.dd_store.specs.Exhausted.{value_at};
ghost use Rattle.dd_store.specs.Handles.{GainsHandle, KeepsHandles};
ghost use Rattle.uvl_functions.specs.Cause.{IsShortFor};
ghost use Rattle.uvl_functions.specs.RuleParts.{group_of};
ghost use Rattle.uvl_functions.specs.Variables.{HasVariables};
ghost use Rattle.uvl_functions.specs.Functions.{comparison_function};
ghost use Rattle.uvl_rule.specs.Comparisons.{difference_function, term_of, weighed, AreSides};

use crate::connective::negate;
use dd_apply::Kernel;
use dd_store::{Handle, Refusal, Var};
use std::alloc::{AllocError, Global};
use uvl_functions::VarMap;
use uvl_linear::{LinearForm, difference};
use uvl_model::{Cmp, Model, Number};
use uvl_sums::{Cmp3, Linear, compile_sum};

/// A handle whose value says whether two numbers compare so for the features whose variables are true. A comparison the
/// other way round is that of the other side, and `!=` is the opposite of `==`.
pub fn compile_comparison(
    kernel: &mut Kernel,
    alloc: Global,
    model: &Model,
    map: &VarMap,
    how: Cmp,
    left: &Number,
    right: &Number,
) -> Result<Handle, Refusal>
    requires variables { HasVariables kernel.old model.now map.now }
    requires sides { AreSides model.now left.now right.now }
    ensures value { IfOk result (λ h. value_at kernel.new h
        ≡ comparison_function map.now model.now.features how left.now right.now) }
    ensures gained { IfOk result (GainsHandle kernel.old kernel.new) }
    ensures refused { OnErr result (KeepsHandles kernel.old kernel.new) }
    ensures keeps { Keeps kernel.old kernel.new }
    ensures cause { IfErr result (IsShortFor kernel.old
        (group_of (comparison_function map.now model.now.features how left.now right.now) [] [] ∷ [])) }
{
    match how {
        Cmp::Equal => compare(kernel, alloc, model, map, Cmp3::Equal, left, right),
        Cmp::Differs => {
            let equal = compare(kernel, alloc, model, map, Cmp3::Equal, left, right)?;
            negate(kernel, alloc, equal)
        }
        Cmp::Less => compare(kernel, alloc, model, map, Cmp3::Less, left, right),
        Cmp::AtMost => compare(kernel, alloc, model, map, Cmp3::AtMost, left, right),
        Cmp::Greater => compare(kernel, alloc, model, map, Cmp3::Less, right, left),
        Cmp::AtLeast => compare(kernel, alloc, model, map, Cmp3::AtMost, right, left),
    }
}

/// A handle whose value says whether the first number without the second one compares so with 0.
fn compare(
    kernel: &mut Kernel,
    alloc: Global,
    model: &Model,
    map: &VarMap,
    how: Cmp3,
    first: &Number,
    second: &Number,
) -> Result<Handle, Refusal>
    requires variables { HasVariables kernel.old model.now map.now }
    requires sides { AreSides model.now first.now second.now }
    ensures value { IfOk result (λ h. value_at kernel.new h
        ≡ difference_function map.now model.now.features how first.now second.now) }
    ensures gained { IfOk result (GainsHandle kernel.old kernel.new) }
    ensures refused { OnErr result (KeepsHandles kernel.old kernel.new) }
    ensures keeps { Keeps kernel.old kernel.new }
    ensures cause { IfErr result (IsShortFor kernel.old
        (group_of (difference_function map.now model.now.features how first.now second.now) [] [] ∷ [])) }
{
    // The table is sound also where nothing is done.
    let _order = kernel.order();
    let form = difference(alloc, model, first, second)?;
    let sum = sum_over(alloc, map, &form)?;
    compile_sum(kernel, alloc, &sum, how)
}

/// The sum over the variables of the features, each with its weight, without those whose weight is 0.
fn sum_over(alloc: Global, map: &VarMap, form: &LinearForm) -> Result<Linear, AllocError>
    requires { length map.now ≡ length form.now.weights.items }
    ensures terms { IfOk result (λ sum. sum.terms.items ≡ weighed map.now form.now.weights.items) }
    ensures constant { IfOk result (λ sum. sum.constant ≡ form.now.constant) }
{
    let vars = map.vars();
    let mut terms = Vec::new(alloc);
    for (index, weight) in form.weights.iter().enumerate() {
        add_term(&mut terms, vars[index], *weight)?;
    }
    Ok(Linear {
        terms,
        constant: form.constant,
    })
}

/// Puts the term of a variable last, unless its weight is 0.
fn add_term(terms: &mut Vec<(Var, i128)>, var: Var, weight: i128) -> Result<(), AllocError>
    ensures { OnOk result (terms.new.items ≡ terms.old.items ++ term_of var weight) }
{
    if weight != 0 {
        terms.push((var, weight))?;
    }
    Ok(())
}
