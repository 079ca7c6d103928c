//! Laws of the definitions. The functions do nothing: what they ensure is the law.
ghost use Rattle.uvl_functions.specs.Laws.{ModelsGiveProducts, TreesGiveProducts, EnoughIsEnough};

use dd_store::short_budgets;
use uvl_model::rows_tell_products;

/// The features with a true variable are a product exactly where the root is chosen and each group and each rule holds.
pub fn models_give_products()
    ensures models { ModelsGiveProducts }
    ensures trees { TreesGiveProducts }
{
    rows_tell_products();
}

/// A budget of `enough` or more is too small for no model, beside the functions that are held at most.
pub fn enough_is_enough()
    ensures { EnoughIsEnough }
{
    short_budgets();
}
