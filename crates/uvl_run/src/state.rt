//! The state of a run, from which the lines of its script are answered.
ghost use Rattle.std.specs.Prelude.{◌≡◌, ◌≤◌, ◌<◌, ◌↔◌, ℕ, [], length, slice_get, is_some, IfOk, IfErr, IfSome, IsTrue, Some};
ghost use Rattle.std.specs.List.{All, list_all};
ghost use Rattle.dd_store.specs.Follow.{assignment_of};
ghost use Rattle.dd_store.specs.Order.{IsDistinct};
ghost use Rattle.dd_store.specs.Table.{handles_on};
ghost use Rattle.uvl_analyses.specs.Analyses.{dead_of, core_of};
ghost use Rattle.uvl_analyses.specs.Members.{false_optional_of};
ghost use Rattle.uvl_functions.specs.Variables.{marks_under};
ghost use Rattle.uvl_model.specs.Marks.{StandFor};
ghost use Rattle.uvl_model.specs.Products.{Products};
ghost use Rattle.uvl_model.specs.Spelling.{numbered};
ghost use Rattle.uvl_semantics.specs.Family.{is_void};
ghost use Rattle.uvl_semantics.specs.Product.{has};
ghost use Rattle.uvl_words.specs.Budgets.{least_budget, most_budget};
ghost use Rattle.uvl_run.specs.Products.{product_answer};
ghost use Rattle.uvl_run.specs.Replies.{Reply, Fetches};
ghost use Rattle.uvl_run.specs.State.{start_of};
ghost use Rattle.uvl_run.specs.steps.Compiled.{IsCompiled, IsCauseFor};
ghost use Rattle.uvl_run.specs.steps.Found.{Finds};

use crate::products::{answer_core, answer_dead, answer_false_optional, answer_valid, answer_void};
use dd_apply::Kernel;
use dd_store::{Refusal, Var};
use std::alloc::Global;
use uvl_analyses::{AnalysisRefusal, core, dead, false_optional, void};
use uvl_base::Name;
use uvl_compile::{Compiled, Names, PlaceRefusal, compile, enough_is_enough};
use uvl_lines::{AnswerFault, Answerer};
use uvl_model::{FeatureNo, FeatureRow, Model, marks_give_products, rows_give_names};
use uvl_outside::Files;
use uvl_script::Command;

/// The one table of diagrams, and the main model with its diagram in it. Contracts see the main
/// model and the budget of the table.
#[derive(Drop)]
pub(crate) struct State {
    kernel: Kernel,
    main: Compiled,
    /// Room for a mark per variable, kept from line to line.
    assignment: Vec<bool>,
}

impl std::marker::Model for State {
    ghost use Rattle.std.specs.Prelude.{◌≡◌, length, vec_len};
    ghost use Rattle.uvl_run.specs.State.{State, start_of};
    ghost use Rattle.uvl_run.specs.steps.Compiled.{IsCompiled};

    ghost Value = { State };

    ghost use Rattle.std.specs.Coded.{codes};
    ghost use Rattle.uvl_ast.specs.contracts.feature.Attribute as attribute;
    ghost use Rattle.uvl_model.specs.contracts.rule.Rule as rule;

    ghost coded = { Prim.hlevel (codes, attribute.the_row.coded, rule.the_row.coded) };

    ghost view = { λ s. start_of s.main.model s.kernel.budget };

    ghost invariant = { λ s. IsCompiled s.main.model s.kernel s.main.map s.main.products
        × (vec_len s.assignment ≡ length s.kernel.order) };
}

impl State {
    /// The state in front of the first line: the model is compiled in a table that may hold so many nodes.
    pub(crate) fn new(alloc: Global, model: Model, budget: u32) -> Result<State, Refusal>
        requires least { least_budget ≤ budget }
        requires most { budget ≤ most_budget }
        ensures start { IfOk result (λ state. state ≡ start_of model budget) }
        ensures cause { IfErr result (IsCauseFor model budget) }
    {
        let mut kernel = Kernel::new(alloc, budget)?;
        let main = compiled(alloc, &mut kernel, model)?;
        let assignment = vec![in alloc; false; kernel.variables() as usize]?;
        Ok(State {
            kernel,
            main,
            assignment,
        })
    }

    /// Whether the named features are a product; there is no answer where a name is that of none.
    pub(crate) fn is_product(&mut self, names: &[Name]) -> Option<bool>
        ensures answer { result ≡ product_answer (Products self.old.main) names.now }
        ensures same { self.new ≡ self.old }
    {
        // A law, and that the model is sound: they are facts for the proof.
        marks_give_products();
        self.main.model.features();
        let vars = self.main.map.vars();
        if !mark(&self.main.model, vars, &mut self.assignment, names) {
            return None;
        }
        Some(self.kernel.value(&self.main.products, &self.assignment))
    }

    /// Whether there is no product.
    pub(crate) fn is_void(&self) -> bool
        ensures { result ≡ is_void (Products self.now.main) }
    {
        void(&self.kernel, &self.main)
    }

    /// The rows of the features of the main model.
    pub(crate) fn features(&self) -> &[FeatureRow]
        ensures { result.now ≡ self.now.main.features }
    {
        self.main.model.features()
    }

    /// The features that no product has.
    pub(crate) fn dead(&self, alloc: Global) -> Result<Vec<FeatureNo>, AnalysisRefusal>
        ensures { Finds self.now.main (dead_of (Products self.now.main)) result }
    {
        dead(&self.kernel, alloc, &self.main)
    }

    /// The features that every product has.
    pub(crate) fn core(&self, alloc: Global) -> Result<Vec<FeatureNo>, AnalysisRefusal>
        ensures { Finds self.now.main (core_of (Products self.now.main)) result }
    {
        core(&self.kernel, alloc, &self.main)
    }

    /// The features that seem optional, and come with their parent in every product.
    pub(crate) fn false_optional(&self, alloc: Global) -> Result<Vec<FeatureNo>, AnalysisRefusal>
        ensures { Finds self.now.main (false_optional_of self.now.main) result }
    {
        false_optional(&self.kernel, alloc, &self.main)
    }
}

/// The model with its diagram, in a table without variables.
fn compiled(alloc: Global, kernel: &mut Kernel, model: Model) -> Result<Compiled, Refusal>
    requires empty { kernel.old.order ≡ [] }
    requires none_live { (n : ℕ) → handles_on kernel.old n ≡ 0 }
    ensures model { IfOk result (λ compiled. compiled.model ≡ model) }
    ensures budget { kernel.new.budget ≡ kernel.old.budget }
    ensures diagram { IfOk result
        (λ compiled. IsCompiled compiled.model kernel.new compiled.map compiled.products) }
    ensures cause { IfErr result (IsCauseFor model kernel.old.budget) }
{
    // Laws, and that the model is sound: they are facts for the proof.
    rows_give_names();
    enough_is_enough();
    model.features();
    let mut names = Names::new(alloc);
    let map = match names.place(kernel, alloc, &model) {
        Ok(map) => map,
        Err(PlaceRefusal::OutOfMemory) => return Err(Refusal::OutOfMemory),
        Err(PlaceRefusal::TooManyVariables { .. }) => unreachable!(),
    };
    let products = compile(kernel, alloc, &model, &map)?;
    Ok(Compiled {
        model,
        map,
        products,
    })
}

/// Marks the variables of the named features alone. The answer says whether each name is that of a feature.
fn mark(model: &Model, vars: &[Var], assignment: &mut [bool], names: &[Name]) -> bool
    requires count { length vars.now ≡ length model.now.features }
    requires there { All (λ v. v.0 < length assignment.old) vars.now }
    requires distinct { IsDistinct vars.now }
    ensures known { result ≡ list_all (has (Products model.now).names) names.now }
    ensures marked { IsTrue result → StandFor (Products model.now).names
        (marks_under vars.now (assignment_of assignment.new)) names.now }
{
    assignment.fill(false);
    for name in names {
        let Some(feature) = find(model, name) else {
            return false;
        };
        let variable = vars[feature.0 as usize];
        assignment[variable.0 as usize] = true;
    }
    true
}

/// The feature with this name.
fn find(model: &Model, name: &Name) -> Option<FeatureNo>
    ensures known { is_some result ≡ has (Products model.now).names name.now }
    ensures placed { (n : ℕ) → (result ≡ Some (numbered n)) ↔ (slice_get (Products model.now).names n ≡ Some name.now) }
    ensures within { IfSome result (λ feature. feature.0 < length model.now.features) }
{
    model.find(name.text())
}

/// One arm for each command.
impl Answerer for State {
    ghost replies = { λ told. Reply };

    ghost fetches = { Fetches };

    fn answer<F: Files>(
        &mut self,
        alloc: Global,
        _files: &mut F,
        command: &Command,
        into: &mut Vec<u8>,
    ) -> Result<(), AnswerFault> {
        match command {
            Command::Valid(names) => answer_valid(self, names.as_slice(), into)?,
            Command::Void => answer_void(self, into)?,
            Command::Dead => answer_dead(self, alloc, into)?,
            Command::Core => answer_core(self, alloc, into)?,
            Command::FalseOpt => answer_false_optional(self, alloc, into)?,
        }
        Ok(())
    }
}
