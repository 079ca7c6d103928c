//! The open indentations.
ghost use Rattle.std.specs.Prelude.{◌≡◌, ◌∷◌, [], OnOk, drop};
ghost use Rattle.uvl_lexer.specs.Indentations as spec;

use std::alloc::{AllocError, Global};
use std::marker::Model;

/// The open indentations but 0, which is always open. Contracts see them as a list, the innermost
/// first.
#[derive(Debug, Drop)]
pub(crate) struct Indentations {
    indentations: Vec<u32>,
}

impl Model for Indentations {
    ghost use Rattle.std.specs.Prelude.{List, ℕ, reverse};

    ghost Value = { List ℕ };

    ghost view = { λ l. reverse l.indentations.items };
}

impl Indentations {
    pub(crate) fn new(alloc: Global) -> Indentations
        ensures { result ≡ [] }
    {
        Indentations {
            indentations: Vec::new(alloc),
        }
    }

    /// The innermost open indentation, which is 0 where no other is open.
    pub(crate) fn innermost(&self) -> u32
        ensures { result ≡ spec.innermost self.now }
    {
        match self.indentations.as_slice().split_last() {
            Some((innermost, _)) => *innermost,
            None => 0,
        }
    }

    pub(crate) fn open(&mut self, indentation: u32) -> Result<(), AllocError>
        ensures { OnOk result (self.new ≡ indentation ∷ self.old) }
    {
        self.indentations.push(indentation)?;
        Ok(())
    }

    /// Closes the innermost, if there is one.
    pub(crate) fn close(&mut self)
        ensures { self.new ≡ drop 1 self.old }
    {
        let _ = self.indentations.pop();
    }
}
