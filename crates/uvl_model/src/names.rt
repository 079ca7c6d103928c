//! The names of a model's features, by number, with a look-up by name.
ghost use Rattle.std.specs.Prelude.{◌≡◌, ◌<◌, ◌^◌, ◌↔◌, ℕ, [], ◌∷◌, ◌++◌, length, slice_get, chars, Contains, IsSome, IfSome, IfOk, OnErr, IsFalse, Some, if◌then◌else◌};
ghost use Rattle.uvl_model.specs.Sound.{AreDistinct};
ghost use Rattle.uvl_model.specs.Spelling.{numbered};

use crate::FeatureNo;
use indexmap::IndexSet;
use std::alloc::Global;
use std::marker::Model;
use uvl_base::OutOfMemory;

/// Distinct names, numbered from 0 in the order of their adding. Contracts see the list of the
/// names, each as its characters.
#[derive(Debug, Drop)]
pub struct NameIndex {
    names: IndexSet<String>,
}

impl Model for NameIndex {
    ghost use Rattle.std.specs.Prelude.{List, ℕ, ◌≤◌, ◌^◌, length, map, chars, string_bytes};
    ghost use Rattle.uvl_model.specs.Sound.{AreDistinct};

    ghost Value = { List (List ℕ) };

    ghost view = { λ i. map (λ name. chars (string_bytes name)) i.names.keys };

    ghost invariant = { λ i. AreDistinct (map (λ name. chars (string_bytes name)) i.names.keys)
        × (length i.names.keys ≤ 2 ^ 32) };
}

impl NameIndex {
    /// No names. It takes no memory before the first is added.
    pub fn new(alloc: Global) -> NameIndex
        ensures { result ≡ [] }
    {
        NameIndex {
            names: IndexSet::new(alloc),
        }
    }

    /// Adds a name behind the others, unless it is there already. The answer says whether it was
    /// new.
    pub fn add(&mut self, name: &str) -> Result<bool, OutOfMemory>
        requires { length self.old < 2 ^ 32 }
        ensures added { IfOk result
            (λ new. self.new ≡ (if new then self.old ++ chars name.now ∷ [] else self.old)) }
        ensures known { IfOk result (λ new. IsFalse new ↔ Contains self.old (chars name.now)) }
        ensures err { OnErr result (self.new ≡ self.old) }
        ensures distinct { AreDistinct self.new }
    {
        if self.names.contains(name) {
            return Ok(false);
        }
        let name = String::from_str(*self.names.allocator(), name)?;
        self.names.insert(name)?;
        Ok(true)
    }

    /// The number of the name with these characters.
    pub fn find(&self, name: &str) -> Option<FeatureNo>
        ensures exact { (n : ℕ) → (result ≡ Some (numbered n))
            ↔ (slice_get self.now n ≡ Some (chars name.now)) }
        ensures known { IsSome result ↔ Contains self.now (chars name.now) }
        ensures within { IfSome result (λ f. f.0 < length self.now) }
    {
        let number = self.names.get_index_of(name)?;
        Some(FeatureNo(number as u32))
    }
}
