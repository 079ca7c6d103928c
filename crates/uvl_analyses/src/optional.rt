//! Members of groups that seem optional and come with their parent in every product.
ghost use Rattle.std.specs.Prelude.{◌≡◌, ◌<◌, ◌||◌, ◌&&◌, [], not, ℕ, true, false, filter, length, map, get_or, IfOk, OnOk, IfErr, IsErrAnd};
ghost use Rattle.std.specs.List.{All, Contains};
ghost use Rattle.dd_quant.specs.Offers.{AreOffers};
ghost use Rattle.dd_store.specs.Exhausted.{value_at};
ghost use Rattle.uvl_analyses.specs.Compiled.{IsCompiled};
ghost use Rattle.uvl_analyses.specs.Listed.{is_named, stays};
ghost use Rattle.uvl_analyses.specs.Members.{AreThere, all_features, false_optional_of, is_dead_in, is_false_optional, is_kept_in, name_in};
ghost use Rattle.uvl_model.specs.Products.{Products};
ghost use Rattle.uvl_model.specs.Spelling.{numbered};
ghost use Rattle.uvl_semantics.specs.Family.{is_void};

use crate::listed::{is_offered, marked};
use crate::products::void;
use crate::refusal::AnalysisRefusal;
use dd_apply::Kernel;
use dd_quant::{Literal, Marks, Offer, offers, offers_with};
use dd_store::{OutOfMemory, Var};
use std::alloc::Global;
use uvl_compile::Compiled;
use uvl_model::{FeatureNo, GroupRow, products_are_sets};

/// The false-optional features, in document order: members of a group that lets its parent leave one out, which aren't
/// dead and which every product that has their parent has. It makes no node, and walks the diagram once for each such
/// group.
pub fn false_optional(
    kernel: &Kernel,
    alloc: Global,
    it: &Compiled,
) -> Result<Vec<FeatureNo>, AnalysisRefusal>
    requires { IsCompiled it.now.model kernel.now it.now.map it.now.products }
    ensures features { IfOk result (λ features.
        features.items ≡ filter (is_false_optional it.now.model) (all_features it.now.model)) }
    ensures names { IfOk result (λ features.
        map (name_in it.now.model) features.items ≡ false_optional_of it.now.model) }
    ensures there { IfOk result (λ features. AreThere it.now.model features.items) }
    ensures void { is_void (Products it.now.model) ≡ true →
        IsErrAnd result (λ refusal. refusal ≡ AnalysisRefusal.VoidModel) }
    ensures only_void { IfErr result (λ refusal.
        refusal ≡ AnalysisRefusal.VoidModel → is_void (Products it.now.model) ≡ true) }
{
    if void(kernel, it) {
        return Err(AnalysisRefusal::VoidModel);
    }
    Ok(kept_members(kernel, alloc, it)?)
}

/// The false-optional features, whether or not there is a product.
fn kept_members(
    kernel: &Kernel,
    alloc: Global,
    it: &Compiled,
) -> Result<Vec<FeatureNo>, OutOfMemory>
    requires { IsCompiled it.now.model kernel.now it.now.map it.now.products }
    ensures { IfOk result (λ features.
        features.items ≡ filter (is_false_optional it.now.model) (all_features it.now.model)) }
{
    // Laws, and that the model is sound: they are facts for the proof.
    products_are_sets();
    let features = it.model.features().len();
    let open = offers(kernel, alloc, &it.products)?;
    let mut marks = Marks::new(alloc);
    let mut kept = vec![in alloc; false; features]?;
    for group in it.model.groups() {
        mark_group(kernel, alloc, it, &open, group, &mut marks, &mut kept)?;
    }
    marked(alloc, &kept)
}

/// Marks the members of a group that come with their parent and aren't dead, where the group lets its parent leave one
/// out.
fn mark_group(
    kernel: &Kernel,
    alloc: Global,
    it: &Compiled,
    open: &[Offer],
    group: &GroupRow,
    marks: &mut Marks,
    kept: &mut [bool],
) -> Result<(), OutOfMemory>
    requires compiled { IsCompiled it.now.model kernel.now it.now.map it.now.products }
    requires there { Contains it.now.model.groups group.now }
    requires offered { AreOffers kernel.now.order (value_at kernel.now it.now.products) [] open.now }
    requires each { length kept.old ≡ length it.now.model.features }
    ensures { OnOk result ((n : ℕ) → n < length it.now.model.features →
        get_or kept.new n false ≡ (get_or kept.old n false
        || (not (is_dead_in it.now.model (numbered n)) && is_kept_in it.now.model group.now (numbered n)))) }
{
    // Laws, and that the model is sound: they are facts for the proof.
    products_are_sets();
    it.model.features();
    let members = group.members.as_slice();
    if group.lo as usize >= members.len() {
        return Ok(());
    }
    let parent = Literal {
        var: it.map.of(group.parent),
        value: true,
    };
    let given = offers_with(kernel, alloc, marks, &it.products, &[parent])?;
    mark_members(it.map.vars(), open, &given, members, kept);
    Ok(())
}

/// Marks the members that may be there and, as far as what is given says, not absent.
fn mark_members(
    vars: &[Var],
    open: &[Offer],
    given: &[Offer],
    members: &[FeatureNo],
    kept: &mut [bool],
)
    requires there { All (λ f. f.0 < length vars.now) members.now }
    requires each { length kept.old ≡ length vars.now }
    requires may { All (λ v. v.0 < length open.now) vars.now }
    requires given { All (λ v. v.0 < length given.now) vars.now }
    ensures { (n : ℕ) → n < length vars.now → get_or kept.new n false
        ≡ (get_or kept.old n false
        || (is_named members.now (numbered n) && stays vars.now open.now given.now (numbered n))) }
{
    for member in members {
        let var = vars[member.0 as usize];
        if is_offered(open, var, true) && !is_offered(given, var, false) {
            kept[member.0 as usize] = true;
        }
    }
}
