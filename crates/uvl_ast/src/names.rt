//! References: names joined by dots.
ghost use Rattle.std.specs.Prelude.{◌≡◌, [], ◌∷◌, ◌++◌, OnOk, OnErr};

use smallvec::SmallVec;
use std::alloc::{AllocError, Global};
use std::marker::Model;
use uvl_base::{Name, Place};

/// The names of a reference, in their order. Up to four of them take no memory beside their own.
/// Contracts see the list of names.
#[derive(Debug, Drop)]
pub struct Names {
    names: SmallVec<Name, 4>,
}

impl Model for Names {
    ghost use Rattle.std.specs.Prelude.{List, ℕ};

    ghost Value = { List (List ℕ) };

    ghost view = { λ n. n.names.items };
}

impl Names {
    /// No names.
    pub fn new(alloc: Global) -> Names
        ensures { result ≡ [] }
    {
        Names {
            names: SmallVec::new(alloc),
        }
    }

    /// These names, in the memory that they have.
    pub fn from_vec(names: Vec<Name>) -> Names
        ensures { result ≡ names.items }
    {
        Names {
            names: SmallVec::from_vec(names),
        }
    }

    /// Puts a name behind the others.
    pub fn push(&mut self, name: Name) -> Result<(), AllocError>
        ensures pushed { OnOk result (self.new ≡ self.old ++ name ∷ []) }
        ensures refused { OnErr result (self.new ≡ self.old) }
    {
        self.names.push(name)?;
        Ok(())
    }

    /// The names, lent.
    pub fn as_slice(&self) -> &[Name]
        ensures { result.now ≡ self.now }
    {
        self.names.as_slice()
    }
}

/// A reference: names joined by dots, as a feature, an import or an attribute is named.
#[derive(Debug, Drop)]
pub struct Ref {
    pub parts: Names,
    /// Where its first name stands.
    pub place: Place,
}
