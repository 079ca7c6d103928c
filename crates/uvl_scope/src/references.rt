//! References in rules. In a Boolean position a reference is a feature, and in a number position the
//! last name is the attribute, and those in front are the feature.
ghost use Rattle.std.specs.Prelude.{◌≡◌, chars, IfOk, option_copied, if◌then◌else◌};
ghost use Rattle.std.specs.Option.{option_map};
ghost use Rattle.uvl_placing.specs.Names.{dotted};
ghost use Rattle.uvl_scope.specs.Firsts.{beside};
ghost use Rattle.uvl_scope.specs.NumberFaults.{fault_of_attribute, fault_of_number, fault_of_single, fault_of_truth, fault_of_value};
ghost use Rattle.uvl_semantics.specs.Attributes.{value_of_key};
ghost use Rattle.uvl_semantics.specs.Product.{has};

use crate::attributes::AttributeLists;
use crate::fault::Finding;
use crate::names::{NameIndex, is_same};
use crate::spelling::push_dotted;
use uvl_ast::{AttrValue, Attribute, Ref};
use uvl_base::{FaultKind, Name, OutOfMemory, Place};

/// What is wrong with a reference, where a truth is needed or else a number. The text is for names that
/// dots join.
pub(crate) fn fault_of_reference(
    names: &NameIndex,
    attributes: &AttributeLists<'_>,
    text: &mut String,
    reference: &Ref,
    boolean: bool,
) -> Result<Option<Finding>, OutOfMemory>
    ensures { IfOk result (λ found. found ≡ (if boolean
        then fault_of_truth names.now (dotted reference.now.parts) reference.now.place
        else fault_of_number names.now attributes.now reference.now.parts reference.now.place)) }
{
    if boolean {
        fault_of_truth(names, text, reference)
    } else {
        fault_of_number(names, attributes, text, reference)
    }
}

/// The same where a truth is needed.
fn fault_of_truth(
    names: &NameIndex,
    text: &mut String,
    reference: &Ref,
) -> Result<Option<Finding>, OutOfMemory>
    ensures { IfOk result
        (λ found. found ≡ fault_of_truth names.now (dotted reference.now.parts) reference.now.place) }
{
    if is_known(names, text, reference)? {
        return Ok(None);
    }
    Ok(Some(Finding {
        place: reference.place,
        kind: FaultKind::UnknownFeature,
    }))
}

/// Whether a reference names one of the names.
fn is_known(names: &NameIndex, text: &mut String, reference: &Ref) -> Result<bool, OutOfMemory>
    ensures { IfOk result (λ known. known ≡ has names.now (dotted reference.now.parts)) }
{
    if let [name] = reference.parts.as_slice() {
        return Ok(names.has(name.text()));
    }
    text.clear();
    push_dotted(text, reference.parts.as_slice())?;
    Ok(names.has(text.as_str()))
}

/// What is wrong with a reference where a number is needed.
#[tactic(auto, using(crate::proofs::NumberParts::number_nothing, crate::proofs::NumberParts::number_single, crate::proofs::NumberParts::number_more))]
fn fault_of_number(
    names: &NameIndex,
    attributes: &AttributeLists<'_>,
    text: &mut String,
    reference: &Ref,
) -> Result<Option<Finding>, OutOfMemory>
    ensures { IfOk result (λ found. found
        ≡ fault_of_number names.now attributes.now reference.now.parts reference.now.place) }
{
    let place = reference.place;
    let Some((key, front)) = reference.parts.as_slice().split_last() else {
        return Ok(Some(Finding {
            place,
            kind: FaultKind::UnknownFeature,
        }));
    };
    if front.is_empty() {
        return Ok(Some(fault_of_single(names, key, place)));
    }
    let own = attributes_beside(names, attributes, text, front)?;
    Ok(fault_of_attribute(own, key, place))
}

/// What is wrong with a reference of one name where a number is needed: it is a feature, or nothing.
fn fault_of_single(names: &NameIndex, name: &Name, place: Place) -> Finding
    ensures { result ≡ fault_of_single names.now name.now place }
{
    let kind = if names.has(name.text()) {
        FaultKind::WrongSort
    } else {
        FaultKind::UnknownFeature
    };
    Finding { place, kind }
}

/// The attributes of the feature that is called so.
fn attributes_beside<'a>(
    names: &NameIndex,
    attributes: &AttributeLists<'a>,
    text: &mut String,
    parts: &[Name],
) -> Result<Option<&'a [Attribute]>, OutOfMemory>
    ensures { IfOk result (λ own. option_map (λ list. list.now) own
        ≡ beside (dotted parts.now) names.now attributes.now) }
{
    text.clear();
    push_dotted(text, parts)?;
    Ok(attributes_called(names, attributes, text.as_str()))
}

/// The attributes of the feature with this name.
fn attributes_called<'a>(
    names: &NameIndex,
    attributes: &AttributeLists<'a>,
    name: &str,
) -> Option<&'a [Attribute]>
    ensures { option_map (λ list. list.now) result ≡ beside (chars name.now) names.now attributes.now }
{
    let number = names.find(name)?;
    attributes.get(number)
}

/// What is wrong with an attribute of a feature, where a number is needed.
fn fault_of_attribute(own: Option<&[Attribute]>, key: &Name, place: Place) -> Option<Finding>
    ensures { result ≡ fault_of_attribute (option_map (λ list. list.now) own.entry) key.now place }
{
    match own {
        Some(attributes) => fault_of_value(value_of_key(attributes, key), place),
        None => Some(Finding {
            place,
            kind: FaultKind::UnknownFeature,
        }),
    }
}

/// What is wrong with the value of an attribute, where a number is needed.
fn fault_of_value(value: Option<&AttrValue>, place: Place) -> Option<Finding>
    ensures { result ≡ fault_of_value (option_copied value.entry) place }
{
    match value {
        Some(AttrValue::Number(_)) => None,
        Some(_) => Some(Finding {
            place,
            kind: FaultKind::WrongSort,
        }),
        None => Some(Finding {
            place,
            kind: FaultKind::UnknownAttribute,
        }),
    }
}

/// The value of the first of the attributes with a key.
fn value_of_key<'a>(attributes: &'a [Attribute], key: &Name) -> Option<&'a AttrValue>
    ensures { option_copied result ≡ value_of_key key.now attributes.now }
{
    for attribute in attributes {
        if is_same(attribute.key.text(), key.text()) {
            return Some(&attribute.value);
        }
    }
    None
}
