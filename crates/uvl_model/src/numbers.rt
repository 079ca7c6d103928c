//! What numbers of rules are under a mark for each feature: a loop down left operands, and calls for right ones. Numbers
//! are exact: in millionths, and with a product in units of 10^-12, which fit 128 bits by the limits on rules.
ghost use Rattle.std.specs.Prelude.{◌≡◌, ◌≤◌, ◌+◌, ◌*◌, ◌^◌, ◌*ℤ◌, length};
ghost use Rattle.uvl_base.specs.Limits.{most_features};
ghost use Rattle.uvl_model.specs.Amounts.{IsMadeOf, IsWithin, added, amount_of, counted, marked_total, most_terms, multiplied, number_at, number_of_row, rows_below, simple_amount, subtracted};
ghost use Rattle.uvl_model.specs.Check.{is_marked};
ghost use Rattle.uvl_model.specs.Heads.{heads_below_rows};
ghost use Rattle.uvl_model.specs.Names.{feature_names, name_of};
ghost use Rattle.uvl_model.specs.Rules.{IsNumber, IsThere, terms_of};

use crate::check::is_chosen;
use crate::{FeatureNo, FeatureRow, Model, Number};
use uvl_base::{Fixed, Name};

/// What a number is.
#[derive(Clone, Copy)]
pub(crate) struct Amount {
    /// In millionths: asked where the number has no product.
    pub(crate) plain: i128,
    /// In units of 10^-12.
    pub(crate) value: i128,
}

impl Amount {
    const NOTHING: Amount = Amount { plain: 0, value: 0 };

    /// A number without a product.
    fn simple(millionths: i128) -> Amount
        requires { IsWithin (most_terms * 10 ^ 18) millionths }
        ensures { result ≡ simple_amount millionths }
    {
        Amount {
            plain: millionths,
            value: millionths * 1_000_000,
        }
    }

    fn plus(self, other: Amount) -> Amount
        requires { IsMadeOf most_terms (added self other) }
        ensures { result ≡ added self other }
    {
        Amount {
            plain: self.plain + other.plain,
            value: self.value + other.value,
        }
    }

    fn minus(self, other: Amount) -> Amount
        requires { IsMadeOf most_terms (subtracted self other) }
        ensures { result ≡ subtracted self other }
    {
        Amount {
            plain: self.plain - other.plain,
            value: self.value - other.value,
        }
    }

    fn times(self, other: Amount) -> Amount
        requires { IsWithin (most_terms * 10 ^ 30) (self.plain *ℤ other.plain) }
        ensures { result ≡ multiplied self other }
    {
        Amount {
            plain: 0,
            value: self.plain * other.plain,
        }
    }
}

/// What a number is. Numbers are as deep to the left as they are long, so what stands to the right is
/// added up on the way down, and only right operands and those of products are calls.
#[cycle(numbers)]
pub(crate) fn amount_of(model: &Model, number: &Number, chosen: &[bool]) -> Amount
    requires number { IsNumber model.now number.now }
    requires few { terms_of model.now number.now ≤ most_terms }
    ensures amount { result ≡ amount_of model.now.features chosen.now number.now }
    ensures made_of { IsMadeOf (terms_of model.now number.now) result }
{
    let mut part = number;
    let mut rest = Amount::NOTHING;
    loop {
        match part {
            Number::Literal(literal) => return rest.plus(literal_amount(*literal)),
            Number::Attr(f, key) => {
                let attribute = Amount::simple(attribute_of(model, *f, key, chosen));
                return rest.plus(attribute);
            }
            Number::Sum { top, key } => {
                let total = Amount::simple(total_of(model, *top, key, chosen));
                return rest.plus(total);
            }
            Number::Plus(left, right) => {
                rest = rest.plus(amount_of(model, right.get(), chosen));
                part = left.get();
            }
            Number::Minus(left, right) => {
                rest = rest.minus(amount_of(model, right.get(), chosen));
                part = left.get();
            }
            Number::Times(left, right) => {
                let left = amount_of(model, left.get(), chosen);
                let right = amount_of(model, right.get(), chosen);
                return rest.plus(left.times(right));
            }
        }
    }
}

/// What a literal is.
fn literal_amount(literal: Fixed) -> Amount
    ensures amount { result ≡ simple_amount literal }
    ensures within { IsWithin (10 ^ 18) literal }
{
    Amount::simple(literal.millionths() as i128)
}

/// The number that a feature has under a key where it is chosen, and else 0.
fn attribute_of(model: &Model, f: FeatureNo, key: &Name, chosen: &[bool]) -> i128
    ensures number { result ≡ counted (is_marked chosen.now f) (number_at model.now.features f key.now) }
    ensures within { IsWithin (10 ^ 18) result }
{
    if !is_chosen(f, chosen) {
        return 0;
    }
    match model.features().get(f.0 as usize) {
        Some(row) => number_of(row, key),
        None => 0,
    }
}

/// The total of the numbers that the chosen ones of a feature and of those below it have under a key.
fn total_of(model: &Model, top: FeatureNo, key: &Name, chosen: &[bool]) -> i128
    requires { IsThere model.now top }
    ensures total { result ≡ marked_total key.now chosen.now top.0 (rows_below model.now.features top) }
    ensures within { IsWithin (length (heads_below_rows model.now (name_of (feature_names model.now) top)) * 10 ^ 18) result }
{
    total_from(model.below(top), top, key, chosen)
}

/// The same of the features of rows, of which the first has this number.
fn total_from(rows: &[FeatureRow], first: FeatureNo, key: &Name, chosen: &[bool]) -> i128
    requires { first.0 + length rows.now ≤ most_features }
    ensures total { result ≡ marked_total key.now chosen.now first.0 rows.now }
    ensures within { IsWithin (length rows.now * 10 ^ 18) result }
{
    let mut total = 0;
    for (index, row) in rows.iter().enumerate() {
        let f = FeatureNo(first.0 + index as u32);
        total += counted_number(row, f, key, chosen);
    }
    total
}

/// The number that the feature of a row has under a key where it is chosen, and else 0.
fn counted_number(row: &FeatureRow, f: FeatureNo, key: &Name, chosen: &[bool]) -> i128
    ensures number { result ≡ counted (is_marked chosen.now f) (number_of_row key.now row.now) }
    ensures within { IsWithin (10 ^ 18) result }
{
    if is_chosen(f, chosen) {
        number_of(row, key)
    } else {
        0
    }
}

/// The number that the feature of a row has under a key, and 0 where it has none.
fn number_of(row: &FeatureRow, key: &Name) -> i128
    ensures number { result ≡ number_of_row key.now row.now }
    ensures within { IsWithin (10 ^ 18) result }
{
    match row.number(key) {
        Some(number) => number.millionths() as i128,
        None => 0,
    }
}
