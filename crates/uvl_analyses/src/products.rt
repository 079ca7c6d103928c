//! Whether there is a product.
ghost use Rattle.std.specs.Prelude.{◌≡◌};
ghost use Rattle.uvl_analyses.specs.Compiled.{IsCompiled};
ghost use Rattle.uvl_model.specs.Products.{Products};
ghost use Rattle.uvl_semantics.specs.Family.{is_void};

use dd_apply::Kernel;
use uvl_compile::Compiled;
use uvl_model::products_are_sets;

/// Whether the model has no product (Benavides, Segura and Ruiz-Cortés 2010). It looks at one node.
pub fn void(kernel: &Kernel, it: &Compiled) -> bool
    requires { IsCompiled it.now.model kernel.now it.now.map it.now.products }
    ensures { result ≡ is_void (Products it.now.model) }
{
    // A law, which is a fact for the proof.
    products_are_sets();
    match kernel.constant_of(&it.products) {
        Some(value) => !value,
        None => false,
    }
}
