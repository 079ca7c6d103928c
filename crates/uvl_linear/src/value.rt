//! A number of a rule with its products, added or subtracted.
ghost use Rattle.std.specs.Prelude.{◌≡◌, ◌≤◌, ◌<◌, ◌+◌, ◌*ℤ◌, ◌^◌, length, unsigned_abs, IfSome, IfNone, IsFalse};
ghost use Rattle.uvl_linear.specs.Forms.{Adds, HasRoom, is_small_literal};
ghost use Rattle.uvl_model.specs.declared.rule.Number.TheVariants as variant;
ghost use Rattle.uvl_model.specs.Amounts.{amount_of};
ghost use Rattle.uvl_model.specs.Rules.{IsNumber, is_small, terms_of};

use crate::form::LinearForm;
use crate::plain::add_plain;
use uvl_base::Fixed;
use uvl_model::{Model, Number};

/// Adds what a number is in units of 10^-12, or its opposite, by a sign that is 1 or -1.
#[cycle(value)]
pub(crate) fn add_value(form: &mut LinearForm, model: &Model, number: &Number, sign: i128)
    requires number { IsNumber model.now number.now }
    requires sign { unsigned_abs sign ≤ 1 }
    requires count { length form.old.weights.items ≡ length model.now.features }
    requires room { HasRoom form.old (terms_of model.now number.now) }
    ensures { Adds form.old form.new (terms_of model.now number.now)
        (λ marks. sign *ℤ (amount_of model.now.features marks number.now).value) }
{
    let mut part = number;
    loop {
        match part {
            Number::Literal(_) | Number::Attr(_, _) | Number::Sum { top: _, key: _ } => {
                add_plain(form, model, part, sign * 1_000_000);
                return;
            }
            Number::Plus(left, right) => {
                add_value(form, model, right.get(), sign);
                part = left.get();
            }
            Number::Minus(left, right) => {
                add_value(form, model, right.get(), -sign);
                part = left.get();
            }
            Number::Times(left, right) => {
                add_product(form, model, left.get(), right.get(), sign);
                return;
            }
        }
    }
}

/// Adds a product, or its opposite. One of the factors is a literal below 1,000,000 in size.
fn add_product(form: &mut LinearForm, model: &Model, left: &Number, right: &Number, sign: i128)
    requires left { IsNumber model.now left.now }
    requires right { IsNumber model.now right.now }
    requires linear { IsNumber model.now (variant.Times left.now right.now) }
    requires sign { unsigned_abs sign ≤ 1 }
    requires count { length form.old.weights.items ≡ length model.now.features }
    requires room { HasRoom form.old (terms_of model.now left.now + terms_of model.now right.now) }
    ensures { Adds form.old form.new (terms_of model.now left.now + terms_of model.now right.now)
        (λ marks. sign *ℤ ((amount_of model.now.features marks left.now).plain
        *ℤ (amount_of model.now.features marks right.now).plain)) }
{
    if let Some(factor) = small_literal(left) {
        add_plain(form, model, right, sign * factor.millionths() as i128);
    } else if let Some(factor) = small_literal(right) {
        add_plain(form, model, left, sign * factor.millionths() as i128);
    }
}

/// The literal that a number is, where it is one below 1,000,000 in size.
fn small_literal(number: &Number) -> Option<Fixed>
    ensures literal { IfSome result (λ factor. number.now ≡ variant.Literal factor) }
    ensures small { IfSome result (λ factor. unsigned_abs factor ≤ 10 ^ 12) }
    ensures none { IfNone result (IsFalse (is_small_literal number.now)) }
{
    match number {
        Number::Literal(factor) if is_small(*factor) => Some(*factor),
        _ => None,
    }
}

/// Whether a literal is below 1,000,000 in size.
fn is_small(literal: Fixed) -> bool
    ensures { result ≡ is_small literal }
{
    let millionths = literal.millionths();
    -1_000_000_000_000 < millionths && millionths < 1_000_000_000_000
}
