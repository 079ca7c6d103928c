//! Laws of the definitions. The functions do nothing: what they ensure is the law.
ghost use Rattle.uvl_resolve.specs.Laws.{FlatKeepsProducts};

use uvl_model::rows_give_products;

/// The products of the model that a set of files says are those of the main file's placed tree with its
/// constraints.
pub fn flat_keeps_products()
    ensures { FlatKeepsProducts }
{
    rows_give_products();
}
