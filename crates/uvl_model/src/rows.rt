//! The rows of a flat model.
ghost use Rattle.std.specs.Prelude.{◌≡◌, chars};
ghost use Rattle.std.specs.Str.{bytes_eq};
ghost use Rattle.uvl_semantics.specs.Attributes.{number_of_key, number_of_value};

use sqlite_items::Items;
use uvl_ast::{AttrValue, Attribute};
use uvl_base::{Fixed, Name};

/// The number of a feature in its model, from 0 in document order: a feature before its groups,
/// groups and members as they are written.
#[derive(Clone, Copy, Debug, PartialEq, Eq, PartialOrd, Ord, Hash)]
pub struct FeatureNo(pub u32);

/// A feature of a flat model.
#[derive(Debug, Drop)]
pub struct FeatureRow {
    /// The full name.
    pub name: Name,
    /// The feature that it is a child of. The root has none.
    pub parent: Option<FeatureNo>,
    /// The attributes, as they are written.
    pub attributes: Items<Attribute>,
}

impl FeatureRow {
    /// The number that the feature has under a key: none where the key isn't there or its value is no
    /// number.
    pub fn number(&self, key: &Name) -> Option<Fixed>
        ensures { result ≡ number_of_key key.now self.now.attributes }
    {
        for attribute in self.attributes.as_slice() {
            if is_same(attribute.key.text(), key.text()) {
                return number_of_value(&attribute.value);
            }
        }
        None
    }
}

/// The number that a value is.
fn number_of_value(value: &AttrValue) -> Option<Fixed>
    ensures { result ≡ number_of_value (Some value.now) }
{
    match value {
        AttrValue::Number(number) => Some(*number),
        AttrValue::Yes
        | AttrValue::No
        | AttrValue::Words(_)
        | AttrValue::List(_)
        | AttrValue::Vector(_) => None,
    }
}

/// Whether two texts are the same.
fn is_same(first: &str, second: &str) -> bool
    ensures { result ≡ bytes_eq (chars first.now) (chars second.now) }
{
    first == second
}

/// A group of a flat model. Where its parent is selected, from `lo` to `hi` of its members are.
#[derive(Debug, Drop)]
pub struct GroupRow {
    pub parent: FeatureNo,
    pub lo: u32,
    pub hi: u32,
    /// The members, in document order.
    pub members: Items<FeatureNo>,
}
