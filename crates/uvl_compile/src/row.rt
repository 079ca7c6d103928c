//! The diagram of one group.
ghost use Rattle.std.specs.Prelude.{◌≡◌, ◌<◌, [], ◌∷◌, length, IfOk, IfErr, OnErr};
ghost use Rattle.std.specs.List.{All, Contains};
ghost use Rattle.dd_store.specs.Changes.{Keeps};
ghost use Rattle.dd_store.specs.Exhausted.{value_at};
ghost use Rattle.dd_store.specs.Handles.{GainsHandle, KeepsHandles};
ghost use Rattle.dd_store.specs.Table.{IsLive, IsVariable};
ghost use Rattle.dd_apply.specs.Held.{HasBoth, LosesBoth, Trades};
ghost use Rattle.dd_apply.specs.Split.{fork};
ghost use Rattle.dd_count.specs.Members.{AreMembers};
ghost use Rattle.uvl_functions.specs.Cause.{IsShortFor};
ghost use Rattle.uvl_functions.specs.Functions.{group_function};
ghost use Rattle.uvl_functions.specs.Groups.{row_parts};
ghost use Rattle.uvl_functions.specs.Variables.{HasVariables};
ghost use Rattle.uvl_compile.specs.Members.{variables_of, choice_by_parent, made_parts};

use dd_apply::Kernel;
use dd_count::count;
use dd_store::{Handle, OutOfMemory, Refusal, Var};
use std::alloc::Global;
use uvl_functions::{VarMap, literal};
use uvl_model::{FeatureNo, GroupRow, Model};

/// A handle whose value is whether a group of the model holds.
pub(crate) fn group_row(
    kernel: &mut Kernel,
    alloc: Global,
    model: &Model,
    map: &VarMap,
    row: &GroupRow,
) -> Result<Handle, Refusal>
    requires variables { HasVariables kernel.old model.now map.now }
    requires row { Contains model.now.groups row.now }
    ensures value { IfOk result (λ h. value_at kernel.new h ≡ group_function map.now row.now) }
    ensures gained { IfOk result (GainsHandle kernel.old kernel.new) }
    ensures refused { OnErr result (KeepsHandles kernel.old kernel.new) }
    ensures keeps { Keeps kernel.old kernel.new }
    ensures cause { IfErr result (IsShortFor kernel.old (row_parts map.now row.now ∷ [])) }
{
    // The table and the model are sound also where nothing is done.
    kernel.order();
    model.groups();
    let members = variables(alloc, map, row.members.as_slice())?;
    let parent = map.of(row.parent);
    counted_row(kernel, alloc, parent, &members, row.lo, row.hi)
}

/// The variables of features.
fn variables(alloc: Global, map: &VarMap, features: &[FeatureNo]) -> Result<Vec<Var>, OutOfMemory>
    requires { All (λ f. f.0 < length map.now) features.now }
    ensures { IfOk result (λ vars. vars.items ≡ variables_of map.now features.now) }
{
    let mut vars = Vec::with_capacity(alloc, features.len())?;
    for feature in features {
        vars.push(map.of(*feature))?;
    }
    Ok(vars)
}

/// A handle whose value is whether from `low` to `high` of the members are true where the parent is, and else none.
fn counted_row(
    kernel: &mut Kernel,
    alloc: Global,
    parent: Var,
    members: &[Var],
    low: u32,
    high: u32,
) -> Result<Handle, Refusal>
    requires parent { IsVariable kernel.old parent.0 }
    requires members { AreMembers kernel.old members.now }
    ensures value { IfOk result (λ h. value_at kernel.new h ≡ choice_by_parent parent members.now low high) }
    ensures gained { IfOk result (GainsHandle kernel.old kernel.new) }
    ensures refused { OnErr result (KeepsHandles kernel.old kernel.new) }
    ensures keeps { Keeps kernel.old kernel.new }
    ensures cause { IfErr result (IsShortFor kernel.old (made_parts parent members.now low high ∷ [])) }
{
    // The table is sound also where nothing is done.
    kernel.order();
    let with = count(kernel, alloc, members, low, high)?;
    match count(kernel, alloc, members, 0, 0) {
        Ok(without) => choose(kernel, alloc, parent, with, without),
        Err(refusal) => {
            kernel.release(with);
            Err(refusal)
        }
    }
}

/// A handle whose value is that of `with` where the parent is true, and else that of `without`, in place of both.
fn choose(
    kernel: &mut Kernel,
    alloc: Global,
    parent: Var,
    with: Handle,
    without: Handle,
) -> Result<Handle, Refusal>
    requires parent { IsVariable kernel.old parent.0 }
    requires both { HasBoth kernel.old with without }
    ensures value { IfOk result (λ h.
        value_at kernel.new h ≡ fork parent.0 (value_at kernel.old without) (value_at kernel.old with)) }
    ensures traded { IfOk result (Trades kernel.old kernel.new with without) }
    ensures lost { OnErr result (LosesBoth kernel.old kernel.new with without) }
    ensures keeps { Keeps kernel.old kernel.new }
    ensures cause { IfErr result (IsShortFor kernel.old
        ((fork parent.0 (value_at kernel.old without) (value_at kernel.old with) ∷ []) ∷ [])) }
{
    let made = by_parent(kernel, alloc, parent, &with, &without);
    kernel.release(with);
    kernel.release(without);
    made
}

/// The same beside both.
fn by_parent(
    kernel: &mut Kernel,
    alloc: Global,
    parent: Var,
    with: &Handle,
    without: &Handle,
) -> Result<Handle, Refusal>
    requires parent { IsVariable kernel.old parent.0 }
    requires with_live { IsLive kernel.old with.now }
    requires without_live { IsLive kernel.old without.now }
    ensures value { IfOk result (λ h.
        value_at kernel.new h ≡ fork parent.0 (value_at kernel.old without.now) (value_at kernel.old with.now)) }
    ensures gained { IfOk result (GainsHandle kernel.old kernel.new) }
    ensures refused { OnErr result (KeepsHandles kernel.old kernel.new) }
    ensures keeps { Keeps kernel.old kernel.new }
    ensures cause { IfErr result (IsShortFor kernel.old
        ((fork parent.0 (value_at kernel.old without.now) (value_at kernel.old with.now) ∷ []) ∷ [])) }
{
    let chosen = literal(kernel, alloc, parent)?;
    let made = kernel.ite(alloc, &chosen, with, without);
    kernel.release(chosen);
    made
}
