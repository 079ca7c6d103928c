//! Keys of attributes that stand twice.
ghost use Rattle.std.specs.Prelude.{◌≡◌, ◌∷◌, [], ◌++◌, true, chars, map, not, IfOk};
ghost use Rattle.uvl_scope.specs.Firsts.{first_of};
ghost use Rattle.uvl_scope.specs.Keys.{repeated_in, repeated_key};
ghost use Rattle.uvl_scope.specs.steps.Keys.{IsKept, keys_of};
ghost use Rattle.uvl_semantics.specs.Product.{has};

use crate::names::{NameIndex, is_same};
use std::alloc::Global;
use uvl_ast::{AttrValue, Attribute};
use uvl_base::{OutOfMemory, Place};

/// The most attributes of a list without an index of its keys: each is compared with those in front of it.
const MOST_COMPARED: usize = 8;

/// Where a key stands for the second time in attributes or in a list of their values: the first such
/// place in the text.
#[cycle(keys)]
pub(crate) fn repeated_key(
    alloc: Global,
    attributes: &[Attribute],
) -> Result<Option<Place>, OutOfMemory>
    ensures { IfOk result (λ place. place ≡ repeated_key attributes.now) }
{
    let mut index = index_for(alloc, attributes);
    for (number, attribute) in attributes.iter().enumerate() {
        if !is_new(&mut index, &attributes[..number], attribute.key.text())? {
            return Ok(Some(attribute.place));
        }
        if let Some(place) = repeated_in(alloc, &attribute.value)? {
            return Ok(Some(place));
        }
    }
    Ok(None)
}

/// The same in a value.
#[cycle(keys)]
fn repeated_in(alloc: Global, value: &AttrValue) -> Result<Option<Place>, OutOfMemory>
    ensures { IfOk result (λ place. place ≡ repeated_in value.now) }
{
    match value {
        AttrValue::List(attributes) => repeated_key(alloc, attributes.as_slice()),
        AttrValue::Vector(values) => repeated_among(alloc, values.as_slice()),
        AttrValue::Yes | AttrValue::No | AttrValue::Number(_) | AttrValue::Words(_) => Ok(None),
    }
}

/// The same in the first of the values in which a key stands twice.
#[cycle(keys)]
fn repeated_among(alloc: Global, values: &[AttrValue]) -> Result<Option<Place>, OutOfMemory>
    ensures { IfOk result (λ place. place ≡ first_of (map repeated_in values.now)) }
{
    for value in values {
        if let Some(place) = repeated_in(alloc, value)? {
            return Ok(Some(place));
        }
    }
    Ok(None)
}

/// An index for the keys of attributes, where they are many.
fn index_for(alloc: Global, attributes: &[Attribute]) -> Option<NameIndex>
    ensures { IsKept result [] }
{
    if attributes.len() > MOST_COMPARED {
        Some(NameIndex::new(alloc))
    } else {
        None
    }
}

/// Whether a key is none of those of the attributes in front of it. A new key is put into the index.
fn is_new(
    index: &mut Option<NameIndex>,
    front: &[Attribute],
    key: &str,
) -> Result<bool, OutOfMemory>
    requires { IsKept index.old (keys_of front.now) }
    ensures known { IfOk result (λ new. new ≡ not (has (keys_of front.now) (chars key.now))) }
    ensures kept { IfOk result (λ new. new ≡ true → IsKept index.new (keys_of front.now ++ chars key.now ∷ [])) }
{
    match index {
        Some(keys) => keys.add(key),
        None => Ok(!has_key(front, key)),
    }
}

/// Whether a key is one of those of the attributes.
fn has_key(attributes: &[Attribute], key: &str) -> bool
    ensures { result ≡ has (keys_of attributes.now) (chars key.now) }
{
    for attribute in attributes {
        if is_same(key, attribute.key.text()) {
            return true;
        }
    }
    false
}
