//! Files in memory that never fail.
ghost use Rattle.std.specs.Prelude.{◌≡◌, ◌≢◌, ℕ, List, Some, None, OnOk, OnErr};
ghost use Rattle.uvl_outside.specs.SureFiles.{contents};

use crate::files::{FetchFault, Fetched, Files, OutOfMemory};
use std::alloc::Global;
use std::collections::BTreeMap;

/// Files in memory that never fail. Contracts see the bytes at each path, as `contents`.
#[derive(Debug, Drop)]
pub struct SureFiles {
    files: BTreeMap<String, Vec<u8>>,
}

impl SureFiles {
    /// A store with no file.
    pub fn new(alloc: Global) -> SureFiles
        ensures empty { (path : List ℕ) → contents result path ≡ None }
    {
        SureFiles {
            files: BTreeMap::new(alloc),
        }
    }

    /// Gives the path these bytes, also where there is a file at the path.
    #[tactic(auto, using(std::proofs::lemmas::Map::Text::text_keys))]
    pub fn add(&mut self, alloc: Global, path: &str, bytes: &[u8]) -> Result<(), OutOfMemory>
        ensures there { OnOk result (contents self.new path.now ≡ Some bytes.now) }
        ensures others { (other : List ℕ) → other ≢ path.now
            → contents self.new other ≡ contents self.old other }
        ensures unchanged { OnErr result (contents self.new ≡ contents self.old) }
    {
        let path = String::from_str(alloc, path)?;
        let bytes = Vec::from_slice(alloc, bytes)?;
        self.files.insert(path, bytes)?;
        Ok(())
    }
}

impl Files for SureFiles {
    ghost told = { λ store. Some (contents store) };

    ghost faults = { λ _. 0 };

    fn fetch(
        &mut self,
        _alloc: Global,
        path: &str,
        limit: usize,
        into: &mut Vec<u8>,
    ) -> Result<Fetched, FetchFault> {
        let Some(bytes) = self.files.get(path) else {
            return Ok(Fetched::Absent);
        };
        if bytes.len() > limit {
            return Ok(Fetched::TooLong);
        }
        into.extend_from_slice(bytes)?;
        Ok(Fetched::Whole)
    }
}
