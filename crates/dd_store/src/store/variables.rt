//! The variables and their order.
ghost use Rattle.std.specs.Prelude.{◌≡◌, ℕ, ◌<◌, [], ◌∷◌, ◌++◌, Bool, length, IfOk, OnErr, OnOk, ◌↔◌};

use crate::refusal::AddRefusal;
use crate::room::push_within_capacity;
use crate::row::Var;
use crate::store::Store;
use std::alloc::Global;

/// How many variables a table may have.
pub const MAX_VARIABLES: u32 = 4096;

impl Store {
    ghost use Rattle.dd_store.specs.Limits.{most_variables};
    ghost use Rattle.dd_store.specs.Table.{IsSound, IsVariable, level_of, value_of};
    ghost use Rattle.dd_store.specs.Changes.{KeepsRowsAndBudget};
    ghost use Rattle.dd_store.specs.Handles.{KeepsHandles};

    /// Adds a variable, which stands last in the order. Its number is the number of variables before it.
    pub fn add_variable(&mut self, alloc: Global) -> Result<Var, AddRefusal>
        ensures number { IfOk result (λ v. v.0 ≡ length self.old.order) }
        ensures last { IfOk result (λ v. self.new.order ≡ self.old.order ++ v ∷ []) }
        ensures level { IfOk result (λ v. level_of self.new v.0 ≡ length self.old.order) }
        ensures too_many { (result ≡ Err AddRefusal.TooManyVariables) ↔ (length self.old.order ≡ most_variables) }
        ensures refused { OnErr result (self.new.order ≡ self.old.order) }
        ensures levels { (v : ℕ) → IsVariable self.old v → level_of self.new v ≡ level_of self.old v }
        ensures handles { KeepsHandles self.old self.new }
        ensures nodes { KeepsRowsAndBudget self.old self.new }
        ensures values { (n : ℕ) (a : ℕ → Bool) → value_of self.new n a ≡ value_of self.old n a }
        ensures sound { IsSound self.new }
    {
        let _whole = &self.slots;
        let count = self.order.len() as u32;
        if count == MAX_VARIABLES {
            return Err(AddRefusal::TooManyVariables);
        }
        let var = Var(count);
        self.order.reserve(1)?;
        self.levels.reserve(1)?;
        self.slots.add_variable(alloc)?;
        push_within_capacity(&mut self.order, var);
        push_within_capacity(&mut self.levels, count);
        Ok(var)
    }

    /// The level of a variable: how many variables of the order stand above it.
    pub fn level(&self, var: Var) -> u32
        requires { IsVariable self.now var.0 }
        ensures { result ≡ level_of self.now var.0 }
    {
        self.levels[var.0 as usize]
    }

    /// How many variables there are.
    pub fn variables(&self) -> u32
        ensures count { result ≡ length self.now.order }
        ensures sound { IsSound self.now }
    {
        self.order.len() as u32
    }

    /// The variables, from the top down.
    pub fn order(&self) -> &[Var]
        ensures order { result.now ≡ self.now.order }
        ensures sound { IsSound self.now }
    {
        &self.order
    }
}
