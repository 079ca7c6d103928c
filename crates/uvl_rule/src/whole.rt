//! A rule of a model, first by the quick way.
ghost use Rattle.std.specs.Prelude.{◌≡◌, ℕ, Bool, List, IfOk, IfErr, OnErr};
ghost use Rattle.dd_store.specs.Changes.{Keeps};
ghost use Rattle.dd_store.specs.Handles.{GainsHandle, KeepsHandles};
ghost use Rattle.dd_store.specs.Table.{value_of};
ghost use Rattle.uvl_functions.specs.Cause.{IsShortFor};
ghost use Rattle.uvl_functions.specs.Functions.{rule_function};
ghost use Rattle.uvl_functions.specs.Groups.{rule_groups};
ghost use Rattle.uvl_functions.specs.Variables.{HasVariables, marks_under};
ghost use Rattle.uvl_model.specs.Constraints.{constraint_of};
ghost use Rattle.uvl_model.specs.Heads.{heads_of_rows};
ghost use Rattle.uvl_model.specs.Marks.{StandFor};
ghost use Rattle.uvl_model.specs.Names.{feature_names};
ghost use Rattle.uvl_model.specs.Rules.{IsRule};
ghost use Rattle.uvl_semantics.specs.Holding.{holds_by};

use crate::listed::listed_rule;
use crate::quick::quick_rule;
use dd_apply::Kernel;
use dd_store::{Handle, Refusal};
use std::alloc::Global;
use uvl_functions::VarMap;
use uvl_model::{Model, Rule};

/// A handle whose value says whether a rule holds for the features whose variables are true. The rule needn't be one of
/// the model's, only one that the model may have.
///
/// It goes the quick way first, which makes larger functions on the way in some rules, and smaller ones in most. Where
/// that is over the budget, it collects and goes by the rule as it is written: of this way alone the cause of a refusal
/// speaks.
pub fn compile_rule(
    kernel: &mut Kernel,
    alloc: Global,
    model: &Model,
    map: &VarMap,
    rule: &Rule,
) -> Result<Handle, Refusal>
    requires variables { HasVariables kernel.old model.now map.now }
    requires rule { IsRule model.now rule.now }
    ensures value { IfOk result (λ h. (a : ℕ → Bool) →
        value_of kernel.new h a ≡ rule_function map.now model.now.features rule.now a) }
    ensures meaning { IfOk result (λ h. (a : ℕ → Bool) (set : List (List ℕ)) →
        StandFor (feature_names model.now) (marks_under map.now a) set →
        value_of kernel.new h a
        ≡ holds_by (heads_of_rows model.now) (constraint_of (feature_names model.now) rule.now) set) }
    ensures gained { IfOk result (GainsHandle kernel.old kernel.new) }
    ensures refused { OnErr result (KeepsHandles kernel.old kernel.new) }
    ensures keeps { Keeps kernel.old kernel.new }
    ensures cause { IfErr result (IsShortFor kernel.old (rule_groups map.now model.now.features rule.now)) }
{
    // The model is sound: a fact for the proof.
    model.features();
    match quick_rule(kernel, alloc, model, map, rule) {
        Err(Refusal::OverBudget { nodes: _, roots: _ }) => {
            kernel.collect();
            listed_rule(kernel, alloc, model, map, rule)
        }
        answer => answer,
    }
}
