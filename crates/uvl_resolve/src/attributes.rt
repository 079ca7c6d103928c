//! Copies of attributes, for the rows of a model.
ghost use Rattle.std.specs.Prelude.{◌≡◌, IfOk};

use sqlite_items::Items;
use std::alloc::Global;
use uvl_ast::{AttrValue, Attribute};
use uvl_base::OutOfMemory;

/// The same attributes again.
#[cycle(copy)]
pub(crate) fn copy_of(
    alloc: Global,
    attributes: &[Attribute],
) -> Result<Items<Attribute>, OutOfMemory>
    ensures { IfOk result (λ copy. copy ≡ attributes.now) }
{
    let mut copy = Items::from_vec(Vec::with_capacity(alloc, attributes.len())?);
    for attribute in attributes {
        let key = attribute.key.clone()?;
        let value = copy_of_value(alloc, &attribute.value)?;
        let place = attribute.place;
        copy.push(Attribute { key, value, place })?;
    }
    Ok(copy)
}

/// The same value again.
#[cycle(copy)]
fn copy_of_value(alloc: Global, value: &AttrValue) -> Result<AttrValue, OutOfMemory>
    ensures { IfOk result (λ copy. copy ≡ value.now) }
{
    match value {
        AttrValue::Yes => Ok(AttrValue::Yes),
        AttrValue::No => Ok(AttrValue::No),
        AttrValue::Number(number) => Ok(AttrValue::Number(*number)),
        AttrValue::Words(text) => Ok(AttrValue::Words(text.clone()?)),
        AttrValue::List(attributes) => {
            Ok(AttrValue::List(copy_of(alloc, attributes.as_slice())?))
        }
        AttrValue::Vector(values) => {
            Ok(AttrValue::Vector(copy_of_values(alloc, values.as_slice())?))
        }
    }
}

/// The same values again.
#[cycle(copy)]
fn copy_of_values(alloc: Global, values: &[AttrValue]) -> Result<Items<AttrValue>, OutOfMemory>
    ensures { IfOk result (λ copy. copy ≡ values.now) }
{
    let mut copy = Items::from_vec(Vec::with_capacity(alloc, values.len())?);
    for value in values {
        copy.push(copy_of_value(alloc, value)?)?;
    }
    Ok(copy)
}
