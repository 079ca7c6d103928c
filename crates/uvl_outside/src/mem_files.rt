//! Files in memory, with planned faults.
ghost use Rattle.std.specs.Prelude.{◌≡◌, ◌≢◌, ℕ, List, [], Some, None, IfOk, OnOk, OnErr};
ghost use Rattle.uvl_outside.specs.Faults.{Counts};
ghost use Rattle.uvl_outside.specs.Files.{Fetches, fetch_failed};
ghost use Rattle.uvl_outside.specs.MemFiles.{contents, plan};
ghost use Rattle.uvl_outside.specs.Plan.{fresh_plan, fails_next, after_call};

use crate::fault_plan::FaultPlan;
use crate::files::{FetchFault, Fetched, Files, OutOfMemory};
use crate::sure_files::SureFiles;
use std::alloc::Global;

/// Files in memory, with planned faults. Contracts see the bytes at each path, as `contents`, and
/// which calls are to fail, as `plan`.
#[derive(Debug, Drop)]
pub struct MemFiles {
    files: SureFiles,
    plan: FaultPlan,
}

impl MemFiles {
    /// A store with no file, whose calls with these numbers, from 1, fail.
    pub fn new(alloc: Global, fail: &[u64]) -> Result<MemFiles, OutOfMemory>
        ensures empty { IfOk result (λ store. (path : List ℕ) → contents store path ≡ None) }
        ensures planned { IfOk result (λ store. plan store ≡ fresh_plan fail.now) }
    {
        Ok(MemFiles {
            files: SureFiles::new(alloc),
            plan: FaultPlan::new(alloc, fail)?,
        })
    }

    /// Gives the path these bytes, also where there is a file at the path.
    pub fn add(&mut self, alloc: Global, path: &str, bytes: &[u8]) -> Result<(), OutOfMemory>
        ensures there { OnOk result (contents self.new path.now ≡ Some bytes.now) }
        ensures others { (other : List ℕ) → other ≢ path.now
            → contents self.new other ≡ contents self.old other }
        ensures unchanged { OnErr result (contents self.new ≡ contents self.old) }
        ensures planned { plan self.new ≡ plan self.old }
    {
        self.files.add(alloc, path, bytes)
    }
}

impl Files for MemFiles {
    ghost told = { λ store. Some (contents store) };

    ghost faults = { λ store. (plan store).faults };

    fn fetch(
        &mut self,
        alloc: Global,
        path: &str,
        limit: usize,
        into: &mut Vec<u8>,
    ) -> Result<Fetched, FetchFault>
        requires { into.old.items ≡ [] }
        ensures fetched { Fetches (Some (contents self.old)) path.now limit into.new.items result }
        ensures same { Some (contents self.new) ≡ Some (contents self.old) }
        ensures counted { Counts (plan self.old).faults (plan self.new).faults (fetch_failed result) }
        ensures planned { fetch_failed result ≡ fails_next (plan self.old) }
        ensures after { plan self.new ≡ after_call (plan self.old) }
    {
        if self.plan.fails() {
            return Err(FetchFault::Failed);
        }
        self.files.fetch(alloc, path, limit, into)
    }
}
