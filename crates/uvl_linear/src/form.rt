//! A linear form, to which terms are added.
ghost use Rattle.std.specs.Prelude.{◌≡◌, ◌<◌, ◌≤◌, ◌^◌, Bool, List, length, unsigned_abs, IfOk};
ghost use Rattle.uvl_linear.specs.Forms.{Adds, HasRoom, form_value, largest_term, size_of_form};
ghost use Rattle.uvl_model.specs.Amounts.{counted};
ghost use Rattle.uvl_model.specs.Check.{is_marked};

use std::alloc::{AllocError, Global};
use uvl_model::FeatureNo;

/// A weight for each feature of a model, which counts where the feature is selected, and a constant. All numbers of a
/// form are in one unit.
#[derive(Debug, Drop)]
pub struct LinearForm {
    /// The weights, by the numbers of the features.
    pub weights: Vec<i128>,
    pub constant: i128,
}

impl LinearForm {
    ghost use Rattle.std.specs.Prelude.{pos};

    /// The form over so many features that is always 0.
    pub(crate) fn zero(alloc: Global, features: usize) -> Result<LinearForm, AllocError>
        ensures value { IfOk result (λ form. (marks : List Bool) → form_value marks form ≡ pos 0) }
        ensures size { IfOk result (λ form. size_of_form form ≡ 0) }
        ensures count { IfOk result (λ form. length form.weights.items ≡ features) }
    {
        let weights = vec![in alloc; 0; features]?;
        Ok(LinearForm {
            weights,
            constant: 0,
        })
    }

    /// Adds a number.
    pub(crate) fn add_constant(&mut self, number: i128)
        requires small { unsigned_abs number ≤ largest_term }
        requires room { HasRoom self.old 1 }
        ensures { Adds self.old self.new 1 (λ marks. number) }
    {
        self.constant += number;
    }

    /// Adds to the weight of a feature.
    pub(crate) fn add_weight(&mut self, feature: FeatureNo, number: i128)
        requires there { feature.0 < length self.old.weights.items }
        requires small { unsigned_abs number ≤ largest_term }
        requires room { HasRoom self.old 1 }
        ensures { Adds self.old self.new 1 (λ marks. counted (is_marked marks feature) number) }
    {
        self.weights[feature.0 as usize] += number;
    }
}
