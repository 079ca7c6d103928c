//! A sink that keeps what was written in memory and never fails.
ghost use Rattle.std.specs.Prelude.{◌≡◌, ℕ, List, [], ◌++◌, Some, Err, IsOk, OnErr, IfErr};
ghost use Rattle.uvl_outside.specs.Faults.{Counts};
ghost use Rattle.uvl_outside.specs.Sink.{Puts, put_failed};

use crate::sink::{PutFault, Sink};
use std::alloc::Global;
use std::marker::Model;

/// A sink that keeps what was written in memory and never fails. A contract sees those bytes.
#[derive(Debug, Drop)]
pub struct SureSink {
    bytes: Vec<u8>,
}

impl Model for SureSink {
    ghost Value = { List ℕ };

    ghost view = { λ sink. sink.bytes.items };
}

impl SureSink {
    /// A sink to which nothing was written.
    pub fn new(alloc: Global) -> SureSink
        ensures empty { result ≡ [] }
    {
        SureSink {
            bytes: Vec::new(alloc),
        }
    }

    /// What was written.
    pub fn bytes(&self) -> &[u8]
        ensures written { result.now ≡ self.now }
    {
        self.bytes.as_slice()
    }
}

impl Sink for SureSink {
    ghost written = { λ sink. Some sink };

    ghost faults = { λ _. 0 };

    fn put(&mut self, _alloc: Global, piece: &[u8]) -> Result<(), PutFault>
        ensures appends { Puts (Some self.old) (Some self.new) piece.now result }
        ensures counted { Counts 0 0 (put_failed result) }
        ensures unchanged { OnErr result (self.new ≡ self.old) }
    {
        self.bytes.extend_from_slice(piece)?;
        Ok(())
    }
}
