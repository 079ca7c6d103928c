//! Features that no product has, and features that every product has.
ghost use Rattle.std.specs.Prelude.{◌≡◌, true, filter, map, IfOk, IfErr, IsErrAnd};
ghost use Rattle.uvl_analyses.specs.Analyses.{core_of, dead_of};
ghost use Rattle.uvl_analyses.specs.Compiled.{IsCompiled};
ghost use Rattle.uvl_analyses.specs.Members.{AreThere, all_features, is_core_in, is_dead_in, is_never, name_in};
ghost use Rattle.uvl_model.specs.Products.{Products};
ghost use Rattle.uvl_semantics.specs.Family.{is_void};

use crate::listed::without_value;
use crate::products::void;
use crate::refusal::AnalysisRefusal;
use dd_apply::Kernel;
use dd_quant::offers;
use dd_store::OutOfMemory;
use std::alloc::Global;
use uvl_compile::Compiled;
use uvl_model::{FeatureNo, products_are_sets};

/// The features that no product has, in document order (Benavides, Segura and Ruiz-Cortés 2010). It makes no node.
pub fn dead(
    kernel: &Kernel,
    alloc: Global,
    it: &Compiled,
) -> Result<Vec<FeatureNo>, AnalysisRefusal>
    requires { IsCompiled it.now.model kernel.now it.now.map it.now.products }
    ensures features { IfOk result (λ features.
        features.items ≡ filter (is_dead_in it.now.model) (all_features it.now.model)) }
    ensures names { IfOk result (λ features.
        map (name_in it.now.model) features.items ≡ dead_of (Products it.now.model)) }
    ensures there { IfOk result (λ features. AreThere it.now.model features.items) }
    ensures void { is_void (Products it.now.model) ≡ true →
        IsErrAnd result (λ refusal. refusal ≡ AnalysisRefusal.VoidModel) }
    ensures only_void { IfErr result (λ refusal.
        refusal ≡ AnalysisRefusal.VoidModel → is_void (Products it.now.model) ≡ true) }
{
    if void(kernel, it) {
        return Err(AnalysisRefusal::VoidModel);
    }
    Ok(impossible(kernel, alloc, it, true)?)
}

/// The features that every product has, in document order (Benavides, Segura and Ruiz-Cortés 2010). It makes no node.
pub fn core(
    kernel: &Kernel,
    alloc: Global,
    it: &Compiled,
) -> Result<Vec<FeatureNo>, AnalysisRefusal>
    requires { IsCompiled it.now.model kernel.now it.now.map it.now.products }
    ensures features { IfOk result (λ features.
        features.items ≡ filter (is_core_in it.now.model) (all_features it.now.model)) }
    ensures names { IfOk result (λ features.
        map (name_in it.now.model) features.items ≡ core_of (Products it.now.model)) }
    ensures there { IfOk result (λ features. AreThere it.now.model features.items) }
    ensures void { is_void (Products it.now.model) ≡ true →
        IsErrAnd result (λ refusal. refusal ≡ AnalysisRefusal.VoidModel) }
    ensures only_void { IfErr result (λ refusal.
        refusal ≡ AnalysisRefusal.VoidModel → is_void (Products it.now.model) ≡ true) }
{
    if void(kernel, it) {
        return Err(AnalysisRefusal::VoidModel);
    }
    Ok(impossible(kernel, alloc, it, false)?)
}

/// The features that are never there (`value` yes), or never absent (no).
fn impossible(
    kernel: &Kernel,
    alloc: Global,
    it: &Compiled,
    value: bool,
) -> Result<Vec<FeatureNo>, OutOfMemory>
    requires { IsCompiled it.now.model kernel.now it.now.map it.now.products }
    ensures { IfOk result (λ features.
        features.items ≡ filter (is_never it.now.model value) (all_features it.now.model)) }
{
    // Laws, and that the model is sound: they are facts for the proof.
    products_are_sets();
    it.model.features();
    let open = offers(kernel, alloc, &it.products)?;
    without_value(alloc, it.map.vars(), &open, value)
}
