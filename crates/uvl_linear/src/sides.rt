//! The difference of two numbers of a rule.
ghost use Rattle.std.specs.Prelude.{◌≡◌, ◌≤◌, ◌+◌, ◌-ℤ◌, Bool, List, length, IfOk};
ghost use Rattle.uvl_linear.specs.Forms.{form_value, largest_form, size_of_form};
ghost use Rattle.uvl_model.specs.Amounts.{amount_of, most_terms};
ghost use Rattle.uvl_model.specs.Rules.{IsNumber, terms_of};

use crate::form::LinearForm;
use crate::value::add_value;
use std::alloc::{AllocError, Global};
use uvl_model::{Model, Number};

/// The form of the first number without the second one, in units of 10^-12. Each feature has one weight, however often it
/// stands in the numbers.
pub fn difference(
    alloc: Global,
    model: &Model,
    first: &Number,
    second: &Number,
) -> Result<LinearForm, AllocError>
    requires first { IsNumber model.now first.now }
    requires second { IsNumber model.now second.now }
    requires few { terms_of model.now first.now + terms_of model.now second.now ≤ most_terms }
    ensures value { IfOk result (λ form. (marks : List Bool) → form_value marks form
        ≡ (amount_of model.now.features marks first.now).value
        -ℤ (amount_of model.now.features marks second.now).value) }
    ensures size { IfOk result (λ form. size_of_form form ≤ largest_form) }
    ensures count { IfOk result (λ form. length form.weights.items ≡ length model.now.features) }
{
    let mut form = LinearForm::zero(alloc, model.features().len())?;
    add_value(&mut form, model, first, 1);
    add_value(&mut form, model, second, -1);
    Ok(form)
}
