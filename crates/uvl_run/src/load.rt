//! The loading of the main model: the set of files of its main file, and the model that this set says.
ghost use Rattle.std.specs.Prelude.{IfOk, IfErr, ◌≡◌};
ghost use Rattle.uvl_imports.specs.Loading.{load_failed};
ghost use Rattle.uvl_model.specs.Comparisons.{HaveNoComparison};
ghost use Rattle.uvl_outside.specs.Faults.{Counts};
ghost use Rattle.uvl_run.specs.steps.Loads.{IsLoaded, IsCauseOf, IsFaultOf, IsNotBuiltIn};

use std::alloc::Global;
use uvl_base::{FaultKind, ModelFault, Place, Text};
use uvl_imports::{LoadFault, load};
use uvl_model::Model;
use uvl_outside::Files;
use uvl_resolve::{ResolveFault, resolve};

/// The model whose main file is at `path`.
pub(crate) fn load_model<F: Files>(
    alloc: Global,
    files: &mut F,
    path: &str,
) -> Result<Model, LoadFault>
    ensures model { IfOk result (IsLoaded (F.told files.old) path.now) }
    ensures boolean { IfOk result HaveNoComparison }
    ensures fault { IfErr result (IsCauseOf (F.told files.old) path.now) }
    ensures same { F.told files.new ≡ F.told files.old }
    ensures counted { Counts (F.faults files.old) (F.faults files.new) (load_failed result) }
{
    let set = load(alloc, files, path)?;
    match resolve(alloc, &set) {
        Ok(model) => Ok(model),
        Err(fault) => Err(fault_of(alloc, path, fault)),
    }
}

/// Why there is no model of the main file at `path`, where its files loaded. What isn't built yet is a fault
/// of the main file as a whole.
fn fault_of(alloc: Global, path: &str, fault: ResolveFault) -> LoadFault
    ensures { IsFaultOf path.now fault result }
{
    match fault {
        ResolveFault::Model(fault) => LoadFault::Model(fault),
        ResolveFault::NotBuilt => not_built(alloc, path),
        ResolveFault::OutOfMemory => LoadFault::OutOfMemory,
    }
}

/// The fault of a main file some rule of whose set speaks of numbers.
fn not_built(alloc: Global, path: &str) -> LoadFault
    ensures { IsNotBuiltIn path.now result }
{
    let Ok(file) = Text::new(alloc, path) else {
        return LoadFault::OutOfMemory;
    };
    LoadFault::Model(ModelFault {
        file,
        place: Place { line: 1, column: 1 },
        kind: FaultKind::NotBuilt,
    })
}
