//! The names of the variables of a table.
ghost use Rattle.std.specs.Prelude.{◌≡◌, ◌↔◌, ◌<◌, ◌≤◌, ℕ, [], ◌∷◌, ◌++◌, Some, Err, map, length, not, count_by};
ghost use Rattle.std.specs.Prelude.{slice_get, option_copied};
ghost use Rattle.std.specs.Prelude.{IfOk, IfErr, OnOk, OnErr, IsFalse, vec_len, vec_capacity};
ghost use Rattle.std.specs.String.{string_eq};
ghost use Rattle.indexmap.specs.IndexSet.{insert_key, spare};
ghost use Rattle.dd_store.specs.Limits.{most_variables};
ghost use Rattle.uvl_functions.specs.Placing.{with_name, with_names, AreNamed, AddsVariables, IsPlacedSoFar};
ghost use Rattle.uvl_functions.specs.Variables.{HasVariables};
ghost use Rattle.uvl_model.specs.Names.{feature_names};
ghost use Rattle.uvl_model.specs.Sound.{AreDistinct};
ghost use Rattle.uvl_semantics.specs.Product.{has};

use crate::variables::VarMap;
use dd_apply::Kernel;
use dd_store::{AddRefusal, MAX_VARIABLES, OutOfMemory, Var};
use indexmap::IndexSet;
use std::alloc::{AllocError, AllocFailed, Global};
use std::marker::Model;
use uvl_base::Name;
use uvl_model::{FeatureRow, Model as FeatureModel, rows_give_names};

/// Why the names of a model aren't placed.
#[derive(Clone, Copy, Debug, PartialEq, Eq)]
pub enum PlaceRefusal {
    /// There would be `needed` variables, more than a table may have. Nothing is added.
    TooManyVariables { needed: u32 },
    /// Memory is wanting. The first of the new names are there, each with its variable.
    OutOfMemory,
}

impl From<AllocError> for PlaceRefusal {
    ghost use Rattle.std.specs.Prelude.{◌≡◌};
    ghost use Rattle.uvl_functions.specs.declared.naming.PlaceRefusal.TheVariants.{OutOfMemory as out_of_memory};

    ghost from_gives = { λ _ refusal. refusal ≡ out_of_memory };

    fn from(_error: AllocError) -> PlaceRefusal {
        PlaceRefusal::OutOfMemory
    }
}

impl<T: Drop> From<AllocFailed<T>> for PlaceRefusal {
    ghost use Rattle.std.specs.Prelude.{◌≡◌};
    ghost use Rattle.uvl_functions.specs.declared.naming.PlaceRefusal.TheVariants.{OutOfMemory as out_of_memory};

    ghost from_gives = { λ _ refusal. refusal ≡ out_of_memory };

    fn from(_error: AllocFailed<T>) -> PlaceRefusal {
        PlaceRefusal::OutOfMemory
    }
}

/// The names of all variables, which differ. Contracts see the list of the names, each as its characters: the name of
/// variable k is the one at place k.
#[derive(Debug, Drop)]
pub struct Names {
    list: Vec<Name>,
    /// The same texts, for the look-up.
    texts: IndexSet<String>,
}

impl Model for Names {
    ghost use Rattle.std.specs.Prelude.{List, ℕ, ◌≡◌, map, chars, string_bytes};
    ghost use Rattle.uvl_model.specs.Sound.{AreDistinct};

    ghost Value = { List (List ℕ) };

    ghost view = { λ names. names.list.items };

    ghost invariant = { λ names. AreDistinct names.list.items
        × (map (λ text. chars (string_bytes text)) names.texts.keys ≡ names.list.items) };
}

impl Names {
    /// No names. It takes no memory.
    pub fn new(alloc: Global) -> Names
        ensures { result ≡ [] }
    {
        Names {
            list: Vec::new(alloc),
            texts: IndexSet::new(alloc),
        }
    }

    /// The name of a variable; none where there is no such variable.
    pub fn name(&self, var: Var) -> Option<&Name>
        ensures { option_copied result ≡ slice_get self.now var.0 }
    {
        self.list.get(var.0 as usize)
    }

    /// Gives each feature of a model the variable of its name. A name that is there keeps its variable. Those that are
    /// new are added in document order, each with a variable that stands last.
    pub fn place(
        &mut self,
        kernel: &mut Kernel,
        alloc: Global,
        model: &FeatureModel,
    ) -> Result<VarMap, PlaceRefusal>
        requires as_many { length self.old ≡ length kernel.old.order }

        // The names, and the variables of the features.
        ensures names { OnOk result (self.new ≡ with_names self.old (feature_names model.now)) }
        ensures named { IfOk result (λ map. AreNamed self.new map (feature_names model.now)) }
        ensures variables { IfOk result (HasVariables kernel.new model.now) }

        // There are as many names as variables, whatever is answered, and the table has no other change.
        ensures as_many { length self.new ≡ length kernel.new.order }
        ensures adds { AddsVariables kernel.old kernel.new }

        // Too many exactly where more would be needed than there may be: those there and the new ones.
        ensures too_many { (needed : ℕ) → (result ≡ Err (PlaceRefusal.TooManyVariables needed)) ↔
            ((needed ≡ length (with_names self.old (feature_names model.now))) × (most_variables < needed)) }
        ensures refused { IfErr result
            (IsPlacedSoFar self.old self.new (feature_names model.now) kernel.old kernel.new) }
    {
        // The names of a model differ: a fact for the proof.
        rows_give_names();
        kernel.variables();
        let features = model.features();
        let needed = self.needed(features);
        if needed > MAX_VARIABLES as usize {
            return Err(PlaceRefusal::TooManyVariables {
                needed: needed as u32,
            });
        }
        let mut vars = Vec::new(alloc);
        for row in features {
            let var = self.place_name(kernel, alloc, &row.name)?;
            vars.push(var)?;
        }
        Ok(VarMap::new(vars))
    }
}

impl Names {
    /// How many names there are with those of the features that are new.
    fn needed(&self, features: &[FeatureRow]) -> usize
        requires { AreDistinct (map (λ row. row.name) features.now) }
        ensures { result ≡ length (with_names self.now (map (λ row. row.name) features.now)) }
    {
        self.list.len() + self.count_new(features)
    }

    /// How many of the features have a name that is new.
    fn count_new(&self, features: &[FeatureRow]) -> usize
        ensures { result ≡ count_by (λ row. not (has self.now row.name)) features.now }
    {
        features.iter().filter(|row| !self.has(&row.name)).count()
    }

    /// Whether a name is there.
    fn has(&self, name: &Name) -> bool
        ensures { result ≡ has self.now name.now }
    {
        self.texts.contains(name.text())
    }

    /// The variable of a name, which is added where it is new.
    fn place_name(
        &mut self,
        kernel: &mut Kernel,
        alloc: Global,
        name: &Name,
    ) -> Result<Var, OutOfMemory>
        requires as_many { length self.old ≡ length kernel.old.order }
        requires room { length (with_name self.old name.now) ≤ most_variables }
        ensures names { OnOk result (self.new ≡ with_name self.old name.now) }
        ensures named { IfOk result (λ v. slice_get self.new v.0 ≡ Some name.now) }
        ensures refused { OnErr result (self.new ≡ self.old) }
        ensures as_many { length self.new ≡ length kernel.new.order }
        ensures adds { AddsVariables kernel.old kernel.new }
    {
        kernel.variables();
        match self.texts.get_index_of(name.text()) {
            Some(place) => Ok(Var(place as u32)),
            None => self.add(kernel, alloc, name),
        }
    }

    /// Adds a name that is new, with a variable that stands last.
    fn add(&mut self, kernel: &mut Kernel, alloc: Global, name: &Name) -> Result<Var, OutOfMemory>
        requires as_many { length self.old ≡ length kernel.old.order }
        requires room { length self.old < most_variables }
        requires absent { IsFalse (has self.old name.now) }
        ensures names { OnOk result (self.new ≡ self.old ++ name.now ∷ []) }
        ensures named { IfOk result (λ v. slice_get self.new v.0 ≡ Some name.now) }
        ensures refused { OnErr result (self.new ≡ self.old) }
        ensures as_many { length self.new ≡ length kernel.new.order }
        ensures adds { AddsVariables kernel.old kernel.new }
    {
        // All that takes memory comes before the first change.
        kernel.variables();
        let text = String::from_str(alloc, name.text())?;
        let name = name.clone()?;
        self.list.reserve(1)?;
        self.texts.reserve(1)?;
        let var = match kernel.add_variable(alloc) {
            Ok(var) => var,
            Err(AddRefusal::TooManyVariables) => unreachable!(),
            Err(AddRefusal::OutOfMemory) => return Err(AllocError),
        };
        push_within_capacity(&mut self.list, name);
        insert_within_capacity(&mut self.texts, text);
        Ok(var)
    }
}

/// Puts a name last in a vector that has room for it.
fn push_within_capacity(list: &mut Vec<Name>, name: Name)
    requires { vec_len list.old < vec_capacity list.old }
    ensures { list.new.items ≡ list.old.items ++ name ∷ [] }
{
    let _room = list.push(name);
}

/// Puts a text last in a set that has room for it and doesn't have it.
fn insert_within_capacity(texts: &mut IndexSet<String>, text: String)
    requires room { 0 < spare texts.old }
    ensures { texts.new.keys ≡ insert_key string_eq texts.old.keys text }
{
    let _room = texts.insert(text);
}
