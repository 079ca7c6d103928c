//! What is wrong first in a set of files, or else what is in scope in each of them.
ghost use Rattle.std.specs.Prelude.{◌≡◌, IfOk, IfErr, IfNone};
ghost use Rattle.uvl_imports.specs.declared.file_set.Loaded.{Loaded};
ghost use Rattle.uvl_scope.specs.Faults.{HasNoFault, IsCauseOf, fault_in_file, scope_of, scopes_of};
ghost use Rattle.uvl_scope.specs.Trees.{AreScopesOf};
ghost use Rattle.uvl_scope.specs.steps.Files.{IsCauseIn, IsFaultOf};
ghost use Rattle.uvl_scope.specs.steps.Walk.{IsFound};

use crate::fault::{FileFault, ScopeFault};
use crate::imports::Imports;
use crate::scope::{Scope, Scopes};
use crate::tally::Tally;
use sqlite_items::Items;
use std::alloc::Global;
use uvl_base::{FaultKind, ModelFault, Place};
use uvl_imports::{FileSet, Loaded};

/// What is in scope in the files of a set, unless something is wrong with one of them. The fault is the
/// first: that of the first file that has one.
pub fn check<'a>(alloc: Global, files: &'a FileSet) -> Result<Scopes<'a>, ScopeFault>
    ensures fine { IfOk result (λ scopes. HasNoFault files.now.files) }
    ensures scopes { IfOk result (λ scopes. scopes.scopes ≡ scopes_of files.now.files) }
    ensures trees { IfOk result (λ scopes. AreScopesOf files.now.files scopes.scopes) }
    ensures cause { IfErr result (IsCauseOf files.now.files) }
{
    let scopes = scopes_of(alloc, files.files.as_slice())?;
    Ok(Scopes { scopes })
}

/// The scopes of files, unless something is wrong with one of them.
fn scopes_of<'a>(alloc: Global, files: &'a [Loaded]) -> Result<Items<Scope<'a>>, ScopeFault>
    ensures fine { IfOk result (λ scopes. HasNoFault files.now) }
    ensures scopes { IfOk result (λ scopes. scopes ≡ scopes_of files.now) }
    ensures cause { IfErr result (IsCauseOf files.now) }
{
    let mut scopes = Items::new(alloc);
    for loaded in files {
        let scope = scope_of(alloc, scopes.as_slice(), loaded)?;
        scopes.push(scope)?;
    }
    Ok(scopes)
}

/// The scope of a file behind those with these scopes, unless something is wrong with it.
fn scope_of<'a>(
    alloc: Global,
    scopes: &[Scope<'a>],
    loaded: &'a Loaded,
) -> Result<Scope<'a>, ScopeFault>
    ensures fine { IfOk result (λ scope. fault_in_file scopes.now loaded.now ≡ None) }
    ensures scope { IfOk result (λ scope. scope ≡ scope_of scopes.now loaded.now) }
    ensures cause { IfErr result (IsCauseIn loaded.now (fault_in_file scopes.now loaded.now)) }
{
    match checked(alloc, scopes, loaded) {
        Ok(scope) => Ok(scope),
        Err(fault) => Err(fault_of(loaded, fault)),
    }
}

/// The fault of a file, with the path of the file.
fn fault_of(loaded: &Loaded, fault: FileFault) -> ScopeFault
    ensures { IsFaultOf loaded.now fault result }
{
    match fault {
        FileFault::At { place, kind } => fault_at(loaded, place, kind),
        FileFault::OutOfMemory => ScopeFault::OutOfMemory,
    }
}

/// A fault at a place of a file, with the path of the file.
fn fault_at(loaded: &Loaded, place: Place, kind: FaultKind) -> ScopeFault
    ensures { IsFaultOf loaded.now (FileFault.At place kind) result }
{
    match loaded.path.clone() {
        Ok(file) => ScopeFault::Model(ModelFault { file, place, kind }),
        Err(_) => ScopeFault::OutOfMemory,
    }
}

/// The scope of a file behind those with these scopes, unless something is wrong at a place of it.
fn checked<'a>(
    alloc: Global,
    scopes: &[Scope<'a>],
    loaded: &'a Loaded,
) -> Result<Scope<'a>, FileFault>
    ensures found { IsFound (fault_in_file scopes.now loaded.now) result }
    ensures scope { IfOk result (λ scope. scope ≡ scope_of scopes.now loaded.now) }
{
    let file = &loaded.file;
    let Some(root) = &file.root else {
        return Err(FileFault::At {
            place: file.finish,
            kind: FaultKind::MissingFeatures,
        });
    };
    let imports = Imports::of(alloc, file.imports.as_slice(), loaded.targets.as_slice())?;
    let mut tally = Tally::new(alloc);
    tally.add_feature(scopes, &imports, root, 1)?;
    tally.add_all_rules(root, file.rules.as_slice())?;
    Ok(tally.into_scope())
}
