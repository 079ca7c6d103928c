//! The top call over files, a script and a sink in memory.
ghost use Rattle.std.specs.Prelude.{◌≡◌, ◌++◌, List, ℕ, map};
ghost use Rattle.uvl_outside.specs.SureFiles.{contents};
ghost use Rattle.uvl_run.specs.InMemory.{IsRun};

use crate::{Status, run};
use std::alloc::Global;
use uvl_outside::{SureFiles, SureSink, SureSource};

/// The top call over objects that tell everything and never fail: what is written is the run of the
/// files and the script, and so is the status. Where memory is wanting a front of a run is written.
pub fn run_in_memory(
    alloc: Global,
    words: &[&str],
    files: &mut SureFiles,
    script: &mut SureSource,
    out: &mut SureSink,
) -> Status
    ensures run { (said : List ℕ) × (out.new ≡ out.old ++ said)
        × IsRun (map (λ word. word.now) words.now) (contents files.old) script.old said result }
    ensures same_files { contents files.new ≡ contents files.old }
{
    run(alloc, words, files, script, out)
}
