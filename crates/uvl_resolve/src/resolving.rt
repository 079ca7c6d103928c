//! From a set of files to the model that it says.
ghost use Rattle.std.specs.Prelude.{◌≡◌, ◌≤◌, false, map, length, IfOk, IfErr};
ghost use Rattle.uvl_base.specs.Limits.{most_features};
ghost use Rattle.uvl_imports.specs.Sets.{IsWhole};
ghost use Rattle.uvl_imports.specs.Texts.{AreDistinct};
ghost use Rattle.uvl_model.specs.Comparisons.{HaveNoComparison};
ghost use Rattle.uvl_resolve.specs.Faults.{IsCauseOf, IsFirstFault};
ghost use Rattle.uvl_resolve.specs.Flat.{Flat};
ghost use Rattle.uvl_scope.specs.Faults.{HasNoFault, IsAccepted, have_numbers, scopes_of};
ghost use Rattle.uvl_scope.specs.Trees.{AreScopesOf};

use crate::fault::ResolveFault;
use crate::features::rows_of;
use crate::qualifiers::qualifiers_of;
use crate::rules::RuleBuilder;
use std::alloc::Global;
use uvl_base::OutOfMemory;
use uvl_imports::{FileSet, Loaded};
use uvl_model::{FeatureRow, Model, NameIndex, rows_give_names};
use uvl_scope::{Scope, check, have_numbers};

/// The model that a set of files says: the placed tree of its main file, as rows in document order, with
/// the constraints of that file. Nothing is wrong with the set then, and no rule speaks of numbers.
pub fn resolve(alloc: Global, files: &FileSet) -> Result<Model, ResolveFault>
    requires { IsWhole files.now.files }
    ensures accepted { IfOk result (λ _. IsAccepted files.now.files) }
    ensures flat { IfOk result (Flat files.now.files) }
    ensures boolean { IfOk result HaveNoComparison }
    ensures cause { IfErr result (IsCauseOf files.now.files) }
{
    let model = resolve_with_numbers(alloc, files)?;
    if have_numbers(files.files.as_slice()) {
        return Err(ResolveFault::NotBuilt);
    }
    Ok(model)
}

/// The same, with rules that speak of numbers among them: comparisons of attributes, of sums over the
/// features of a file and of what arithmetic makes of these, in millionths.
pub fn resolve_with_numbers(alloc: Global, files: &FileSet) -> Result<Model, ResolveFault>
    requires { IsWhole files.now.files }
    ensures fine { IfOk result (λ _. HasNoFault files.now.files) }
    ensures flat { IfOk result (Flat files.now.files) }
    ensures boolean { IfOk result (λ model. have_numbers files.now.files ≡ false → HaveNoComparison model) }
    ensures cause { IfErr result (IsFirstFault files.now.files) }
{
    let scopes = check(alloc, files)?;
    let model = model_of(alloc, files.files.as_slice(), scopes.scopes.as_slice())?;
    Ok(model)
}

/// The model of files with which nothing is wrong, whose scopes these are.
fn model_of(alloc: Global, files: &[Loaded], scopes: &[Scope<'_>]) -> Result<Model, OutOfMemory>
    requires whole { IsWhole files.now }
    requires no_fault { HasNoFault files.now }
    requires scopes { scopes.now ≡ scopes_of files.now }
    requires trees { AreScopesOf files.now scopes.now }
    ensures flat { IfOk result (Flat files.now) }
    ensures boolean { IfOk result (λ model. have_numbers files.now ≡ false → HaveNoComparison model) }
{
    // Laws, which are facts for the proof.
    rows_give_names();
    let qualifiers = qualifiers_of(alloc, files)?;
    let rows = rows_of(alloc, files, &qualifiers)?;
    let mut rules = RuleBuilder::new(alloc);
    let last = files.len() - 1;
    rules.add_file(files, scopes, &qualifiers, last, 0)?;
    let names = names_of(alloc, rows.features.as_slice())?;
    Ok(Model::new(names, rows.features, rows.groups, rules.rules))
}

/// The names of rows.
fn names_of(alloc: Global, features: &[FeatureRow]) -> Result<NameIndex, OutOfMemory>
    requires few { length features.now ≤ most_features }
    requires distinct { AreDistinct (map (λ row. row.name) features.now) }
    ensures { IfOk result (λ names. names ≡ map (λ row. row.name) features.now) }
{
    let mut names = NameIndex::new(alloc);
    for row in features {
        names.add(row.name.text())?;
    }
    Ok(names)
}
