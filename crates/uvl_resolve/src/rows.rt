//! The rows of a model while they grow.
ghost use Rattle.std.specs.Prelude.{◌≡◌, ◌<◌, [], ◌∷◌, ◌++◌, chars, length, IfOk, OnOk};
ghost use Rattle.uvl_base.specs.Limits.{most_features};
ghost use Rattle.uvl_model.specs.Spelling.{numbered};
ghost use Rattle.uvl_resolve.specs.Under.{MayStandInName};

use crate::attributes::copy_of;
use crate::name::name_behind;
use sqlite_items::Items;
use std::alloc::Global;
use uvl_ast::Attribute;
use uvl_base::{Name, OutOfMemory};
use uvl_model::{FeatureNo, FeatureRow, GroupRow};

/// The rows so far, in the order of the document.
#[derive(Drop)]
pub(crate) struct RowBuilder {
    pub(crate) alloc: Global,
    pub(crate) features: Items<FeatureRow>,
    pub(crate) groups: Items<GroupRow>,
}

impl RowBuilder {
    /// No rows.
    pub(crate) fn new(alloc: Global) -> RowBuilder
        ensures features { result.features ≡ [] }
        ensures groups { result.groups ≡ [] }
    {
        RowBuilder {
            alloc,
            features: Items::new(alloc),
            groups: Items::new(alloc),
        }
    }

    /// Adds a feature below its parent, with a text in front of its name.
    pub(crate) fn add_row(
        &mut self,
        text: &str,
        name: &Name,
        attributes: &[Attribute],
        parent: Option<FeatureNo>,
    ) -> Result<FeatureNo, OutOfMemory>
        requires room { length self.old.features < most_features }
        requires name { MayStandInName (chars text.now) }
        ensures number { IfOk result (λ number. number ≡ numbered (length self.old.features)) }
        ensures features { OnOk result (self.new.features ≡ self.old.features
            ++ record { name = chars text.now ++ name.now; parent = parent; attributes = attributes.now } ∷ []) }
        ensures groups { OnOk result (self.new.groups ≡ self.old.groups) }
    {
        let number = self.features.len();
        let name = name_behind(self.alloc, text, name)?;
        let attributes = copy_of(self.alloc, attributes)?;
        self.features.push(FeatureRow {
            name,
            parent,
            attributes,
        })?;
        Ok(FeatureNo(number as u32))
    }
}
