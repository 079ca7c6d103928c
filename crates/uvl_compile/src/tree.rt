//! The diagram of a model's tree.
ghost use Rattle.std.specs.Prelude.{◌≡◌, ℕ, Bool, [], ◌∷◌, ◌++◌, IfOk, IfErr, OnErr};
ghost use Rattle.std.specs.List.{Contains};
ghost use Rattle.dd_store.specs.Changes.{Keeps};
ghost use Rattle.dd_store.specs.Exhausted.{value_at};
ghost use Rattle.dd_store.specs.Handles.{KeepsHandles, GainsHandle, LosesHandle};
ghost use Rattle.dd_store.specs.Table.{value_of, IsLive};
ghost use Rattle.uvl_functions.specs.Cause.{IsShortFor};
ghost use Rattle.uvl_functions.specs.Functions.{products_of, without_rules, group_function};
ghost use Rattle.uvl_functions.specs.Groups.{tree_groups, row_parts};
ghost use Rattle.uvl_functions.specs.Trade.{Replaces};
ghost use Rattle.uvl_functions.specs.Variables.{HasVariables};
ghost use Rattle.uvl_compile.specs.Conditions.{both};

use crate::meet::meet;
use crate::row::group_row;
use dd_apply::Kernel;
use dd_store::{Handle, Refusal};
use std::alloc::Global;
use uvl_functions::{VarMap, literal, models_give_products};
use uvl_model::{FeatureNo, GroupRow, Model};

/// A handle whose value for an assignment is whether the features with a true variable are a product of the model's
/// tree alone.
pub fn compile_tree(
    kernel: &mut Kernel,
    alloc: Global,
    model: &Model,
    map: &VarMap,
) -> Result<Handle, Refusal>
    requires { HasVariables kernel.old model.now map.now }
    ensures value { IfOk result (λ h. (a : ℕ → Bool) →
        value_of kernel.new h a ≡ products_of map.now (without_rules model.now) a) }
    ensures gained { IfOk result (GainsHandle kernel.old kernel.new) }
    ensures refused { OnErr result (KeepsHandles kernel.old kernel.new) }
    ensures keeps { Keeps kernel.old kernel.new }
    ensures cause { IfErr result (IsShortFor kernel.old (tree_groups map.now model.now)) }
{
    // The table and the model are sound also where nothing is done, and the law tells the tree's products.
    models_give_products();
    kernel.order();
    model.features();
    let groups = model.groups();
    let mut tree = literal(kernel, alloc, map.of(FeatureNo(0)))?;
    let mut left = groups.len();
    while left > 0 {
        left -= 1;
        tree = with_group(kernel, alloc, model, map, &groups[left], tree)?;
    }
    Ok(tree)
}

/// A handle whose value is true where that of another one is and a group holds, in its place.
fn with_group(
    kernel: &mut Kernel,
    alloc: Global,
    model: &Model,
    map: &VarMap,
    row: &GroupRow,
    held: Handle,
) -> Result<Handle, Refusal>
    requires variables { HasVariables kernel.old model.now map.now }
    requires row { Contains model.now.groups row.now }
    requires live { IsLive kernel.old held }
    ensures value { IfOk result (λ h.
        value_at kernel.new h ≡ both (value_at kernel.old held) (group_function map.now row.now)) }
    ensures replaced { IfOk result (Replaces kernel.old kernel.new held) }
    ensures lost { OnErr result (LosesHandle kernel.old kernel.new held) }
    ensures keeps { Keeps kernel.old kernel.new }
    ensures cause { IfErr result (IsShortFor kernel.old
        ((row_parts map.now row.now ++ both (value_at kernel.old held) (group_function map.now row.now) ∷ []) ∷ [])) }
{
    match group_row(kernel, alloc, model, map, row) {
        Ok(made) => meet(kernel, alloc, held, made),
        Err(refusal) => {
            kernel.release(held);
            Err(refusal)
        }
    }
}
