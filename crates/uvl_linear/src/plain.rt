//! A number of a rule, so many times: a loop down left operands, and calls for right ones.
ghost use Rattle.std.specs.Prelude.{◌≡◌, ◌≤◌, ◌<◌, ◌+◌, ◌*ℤ◌, ◌^◌, length, unsigned_abs};
ghost use Rattle.uvl_base.specs.Limits.{most_features};
ghost use Rattle.uvl_linear.specs.Forms.{Adds, HasRoom};
ghost use Rattle.uvl_model.specs.Amounts.{amount_of, counted, marked_total, number_at, number_of_row, rows_below};
ghost use Rattle.uvl_model.specs.Check.{is_marked};
ghost use Rattle.uvl_model.specs.Heads.{heads_below_rows};
ghost use Rattle.uvl_model.specs.Names.{feature_names, name_of};
ghost use Rattle.uvl_model.specs.Rules.{IsNumber, IsThere, terms_of};

use crate::form::LinearForm;
use uvl_base::{Fixed, Name};
use uvl_model::{FeatureNo, FeatureRow, Model, Number};

/// Adds so many times what a number is in millionths. A product counts as nothing, as no number with a product in it is
/// a factor.
#[cycle(plain)]
pub(crate) fn add_plain(form: &mut LinearForm, model: &Model, number: &Number, factor: i128)
    requires number { IsNumber model.now number.now }
    requires factor { unsigned_abs factor ≤ 10 ^ 12 }
    requires count { length form.old.weights.items ≡ length model.now.features }
    requires room { HasRoom form.old (terms_of model.now number.now) }
    ensures { Adds form.old form.new (terms_of model.now number.now)
        (λ marks. factor *ℤ (amount_of model.now.features marks number.now).plain) }
{
    let mut part = number;
    loop {
        match part {
            Number::Literal(literal) => {
                add_literal(form, *literal, factor);
                return;
            }
            Number::Attr(feature, key) => {
                add_attribute(form, model, *feature, key, factor);
                return;
            }
            Number::Sum { top, key } => {
                add_rows(form, model.below(*top), *top, key, factor);
                return;
            }
            Number::Plus(left, right) => {
                add_plain(form, model, right.get(), factor);
                part = left.get();
            }
            Number::Minus(left, right) => {
                add_plain(form, model, right.get(), -factor);
                part = left.get();
            }
            Number::Times(_, _) => return,
        }
    }
}

/// Adds so many times a literal.
fn add_literal(form: &mut LinearForm, literal: Fixed, factor: i128)
    requires factor { unsigned_abs factor ≤ 10 ^ 12 }
    requires room { HasRoom form.old 1 }
    ensures { Adds form.old form.new 1 (λ marks. factor *ℤ literal) }
{
    form.add_constant(factor * literal.millionths() as i128);
}

/// Adds so many times the number that a feature has under a key where it is selected.
fn add_attribute(form: &mut LinearForm, model: &Model, feature: FeatureNo, key: &Name, factor: i128)
    requires there { IsThere model.now feature }
    requires factor { unsigned_abs factor ≤ 10 ^ 12 }
    requires count { length form.old.weights.items ≡ length model.now.features }
    requires room { HasRoom form.old 1 }
    ensures { Adds form.old form.new 1
        (λ marks. factor *ℤ counted (is_marked marks feature) (number_at model.now.features feature key.now)) }
{
    let row = &model.features()[feature.0 as usize];
    add_row(form, row, feature, key, factor);
}

/// Adds so many times the numbers that the selected ones of some features have under a key, of which the first has this
/// number.
fn add_rows(form: &mut LinearForm, rows: &[FeatureRow], first: FeatureNo, key: &Name, factor: i128)
    requires factor { unsigned_abs factor ≤ 10 ^ 12 }
    requires within { first.0 + length rows.now ≤ length form.old.weights.items }
    requires few { first.0 + length rows.now ≤ most_features }
    requires room { HasRoom form.old (length rows.now) }
    ensures { Adds form.old form.new (length rows.now)
        (λ marks. factor *ℤ marked_total key.now marks first.0 rows.now) }
{
    for (index, row) in rows.iter().enumerate() {
        let feature = FeatureNo(first.0 + index as u32);
        add_row(form, row, feature, key, factor);
    }
}

/// Adds so many times the number that the feature of a row has under a key where it is selected.
fn add_row(form: &mut LinearForm, row: &FeatureRow, feature: FeatureNo, key: &Name, factor: i128)
    requires factor { unsigned_abs factor ≤ 10 ^ 12 }
    requires there { feature.0 < length form.old.weights.items }
    requires room { HasRoom form.old 1 }
    ensures { Adds form.old form.new 1
        (λ marks. factor *ℤ counted (is_marked marks feature) (number_of_row key.now row.now)) }
{
    match row.number(key) {
        Some(number) => form.add_weight(feature, factor * number.millionths() as i128),
        None => {}
    }
}
