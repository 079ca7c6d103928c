//! The tree of features, with their attributes and groups.
use crate::{Expr, Ref};
use sqlite_items::Items;
use uvl_base::{Fixed, Name, Place, Text};

/// A line of the features section with what belongs to it: it declares a feature, or places an
/// imported tree where its reference has two names or more.
#[cycle(features)]
#[derive(Debug, Drop)]
pub struct Feature {
    pub name: Ref,
    /// The attributes in braces, in their order.
    pub attributes: Items<Attribute>,
    /// The constraints in braces, in their order.
    pub rules: Items<Expr>,
    pub groups: Items<Group>,
}

/// A group of features below a feature.
#[cycle(features)]
#[derive(Debug, Drop)]
pub struct Group {
    pub kind: GroupKind,
    pub members: Items<Feature>,
    /// Where its first token stands.
    pub place: Place,
}

/// How many members of a group a product has, in the words of UVL.
#[derive(Clone, Copy, Debug, PartialEq, Eq)]
pub enum GroupKind {
    /// All of them.
    Mandatory,
    /// Any number.
    Optional,
    /// One.
    Alternative,
    /// One or more.
    Or,
    /// From `lo` to `hi`, as they are written; without `hi`, which is written `*`, any number from
    /// `lo` on.
    Range { lo: u64, hi: Option<u64> },
}

/// An attribute of a feature.
#[cycle(values)]
#[derive(Debug, Drop)]
pub struct Attribute {
    pub key: Name,
    /// What is written behind the key; without it, yes.
    pub value: AttrValue,
    /// Where the key stands.
    pub place: Place,
}

/// The value of an attribute.
#[cycle(values)]
#[derive(Debug, Drop)]
pub enum AttrValue {
    /// `true`
    Yes,
    /// `false`
    No,
    Number(Fixed),
    /// A text in single quotes.
    Words(Text),
    /// Attributes in braces.
    List(Items<Attribute>),
    /// Values in brackets.
    Vector(Items<AttrValue>),
}
