//! A model with its diagram.
use dd_store::Handle;
use uvl_functions::VarMap;
use uvl_model::Model;

/// A model, the variables of its features, and the diagram of its products. That the handle has the value that
/// `compile` gives for the model and the map is a condition of each call that takes one.
#[derive(Debug, Drop)]
pub struct Compiled {
    pub model: Model,
    pub map: VarMap,
    pub products: Handle,
}
