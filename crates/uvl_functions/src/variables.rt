//! The variables of a model's features.
ghost use Rattle.std.specs.Prelude.{◌≡◌, ◌<◌, length, slice_get, Some, vec_len};

use dd_store::Var;
use std::marker::Model;
use uvl_model::FeatureNo;

/// The variable of each feature of a model, by the feature's number. Contracts see the list of the variables. That they
/// are there and differ is a condition of each call that takes one.
#[derive(Debug, Drop)]
pub struct VarMap {
    vars: Vec<Var>,
}

impl Model for VarMap {
    ghost use Rattle.std.specs.Prelude.{List};
    ghost use Rattle.dd_store.specs.declared.row.Var.{Var};

    ghost Value = { List Var };

    ghost view = { λ map. map.vars.items };
}

impl VarMap {
    /// The map with these variables.
    pub fn new(vars: Vec<Var>) -> VarMap
        ensures { result ≡ vars.items }
    {
        VarMap { vars }
    }

    /// The variables, by the numbers of the features.
    pub fn vars(&self) -> &[Var]
        ensures { result.now ≡ self.now }
    {
        &self.vars
    }

    /// The variables, given back.
    pub fn into_vars(self) -> Vec<Var>
        ensures { result.items ≡ self }
    {
        self.vars
    }

    /// The variable of a feature.
    pub fn of(&self, feature: FeatureNo) -> Var
        requires { feature.0 < length self.now }
        ensures { slice_get self.now feature.0 ≡ Some result }
    {
        self.vars[feature.0 as usize]
    }
}
