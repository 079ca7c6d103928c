//! The attributes of features, beside the features' names.
ghost use Rattle.std.specs.Prelude.{◌≡◌, ◌∷◌, ◌++◌, [], slice_get, OnOk};
ghost use Rattle.std.specs.Option.{option_map};

use sqlite_items::Items;
use std::alloc::Global;
use std::marker::Model;
use uvl_ast::Attribute;
use uvl_base::OutOfMemory;

/// What stands in the braces of features, by the features' numbers. Contracts see a list of attributes
/// for each feature.
#[derive(Debug, Drop)]
pub struct AttributeLists<'a> {
    lists: Items<&'a [Attribute]>,
}

impl<'a> Model for AttributeLists<'a> {
    ghost use Rattle.std.specs.Prelude.{List, map};
    ghost use Rattle.std.specs.Coded.{codes};
    ghost use Rattle.uvl_ast.specs.contracts.feature.Attribute as attribute;
    ghost use Rattle.uvl_ast.specs.declared.feature.Attribute.{Attribute};

    ghost Value = { List (List Attribute) };

    ghost coded = { Prim.hlevel (codes, attribute.the_row.coded) };

    ghost view = { λ a. map (λ list. list.now) a.lists };
}

impl<'a> AttributeLists<'a> {
    /// The attributes of no features.
    pub(crate) fn new(alloc: Global) -> AttributeLists<'a>
        ensures { result ≡ [] }
    {
        AttributeLists {
            lists: Items::new(alloc),
        }
    }

    /// Adds those of a feature behind the others.
    pub(crate) fn push(&mut self, attributes: &'a [Attribute]) -> Result<(), OutOfMemory>
        ensures { OnOk result (self.new ≡ self.old ++ attributes.now ∷ []) }
    {
        self.lists.push(attributes)
    }

    /// Adds those of other features behind the others.
    pub(crate) fn append(&mut self, others: &AttributeLists<'a>) -> Result<(), OutOfMemory>
        ensures { OnOk result (self.new ≡ self.old ++ others.now) }
    {
        for attributes in others.lists.as_slice() {
            self.push(*attributes)?;
        }
        Ok(())
    }

    /// Those of the feature with this number.
    pub fn get(&self, number: usize) -> Option<&'a [Attribute]>
        ensures { option_map (λ list. list.now) result ≡ slice_get self.now number }
    {
        self.lists.get(number).copied()
    }
}
