//! The products of a model: its diagram, and the answers of the diagram and of the model's rows.
ghost use Rattle.std.specs.Prelude.{IfSome};
ghost use Rattle.dd_store.specs.Table.{IsLive};
ghost use Rattle.uvl_model.specs.Comparisons.{HaveNoComparison};

use dd_apply::Kernel;
use dd_store::Handle;
use std::alloc::Global;
use uvl_compile::{Names, compile};
use uvl_imports::load;
use uvl_model::Model;
use uvl_outside::SureFiles;
use uvl_resolve::resolve;

/// How many nodes a table may hold: as many as the program gives it where its words don't say.
const BUDGET: u32 = 1_048_576;

/// What is done with a model.
#[derive(Clone, Copy, Debug, PartialEq, Eq)]
pub(crate) enum Answering {
    /// Its diagram is made, and the diagrams are counted.
    Compile,
    /// The diagram is asked whether all features but one are a product, each feature being left out in
    /// turn, and the products are counted.
    Value,
    /// The same is asked of the model's rows.
    Rows,
}

impl Answering {
    pub(crate) fn named(word: &str) -> Option<Answering> {
        match word {
            "compile" => Some(Answering::Compile),
            "value" => Some(Answering::Value),
            "rows" => Some(Answering::Rows),
            _ => None,
        }
    }
}

/// How many diagrams or products there were in all rounds, where the text is a model and there is memory.
pub(crate) fn count_products(
    alloc: Global,
    text: &str,
    answering: Answering,
    rounds: u32,
) -> Option<u64> {
    let model = model_in(alloc, text)?;
    match answering {
        Answering::Compile => Some(count_diagrams(alloc, &model, rounds)),
        Answering::Value => {
            let diagram = Diagram::new(alloc, &model)?;
            count_sets(alloc, &model, Some(&diagram), rounds)
        }
        Answering::Rows => count_sets(alloc, &model, None, rounds),
    }
}

/// The model that a text says, as a file without imports.
fn model_in(alloc: Global, text: &str) -> Option<Model>
    ensures { IfSome result HaveNoComparison }
{
    let mut files = SureFiles::new(alloc);
    files.add(alloc, "m.uvl", text.as_bytes()).ok()?;
    let Ok(set) = load(alloc, &mut files, "m.uvl") else {
        return None;
    };
    match resolve(alloc, &set) {
        Ok(model) => Some(model),
        Err(_) => None,
    }
}

/// The diagram of a model's products, in a table of its own.
#[derive(Drop)]
struct Diagram {
    kernel: Kernel,
    handle: Handle,
    ghost live: { IsLive kernel handle },
}

impl Diagram {
    /// Makes the diagram, where there is memory and the budget is enough.
    fn new(alloc: Global, model: &Model) -> Option<Diagram>
        requires { HaveNoComparison model.now }
    {
        let mut kernel = Kernel::new(alloc, BUDGET).ok()?;
        let mut names = Names::new(alloc);
        let map = names.place(&mut kernel, alloc, model).ok()?;
        let handle = compile(&mut kernel, alloc, model, &map).ok()?;
        Some(Diagram { kernel, handle })
    }

    /// Whether the features with a true variable are a product.
    fn has(&self, assignment: &[bool]) -> bool {
        let variables = self.kernel.variables();
        assignment.len() == variables as usize && self.kernel.value(&self.handle, assignment)
    }
}

fn count_diagrams(alloc: Global, model: &Model, rounds: u32) -> u64
    requires { HaveNoComparison model.now }
{
    let mut count = 0u64;
    for _round in 0..rounds {
        if Diagram::new(alloc, model).is_some() {
            count = count.saturating_add(1);
        }
    }
    count
}

/// How many of the sets are products by the diagram, or by the rows where there is none. The variables of a
/// table of its own have the numbers of the features.
fn count_sets(alloc: Global, model: &Model, diagram: Option<&Diagram>, rounds: u32) -> Option<u64>
    requires { HaveNoComparison model.now }
{
    let size = model.features().len();
    let mut chosen = vec![in alloc; true; size].ok()?;
    let mut count = 0u64;
    for round in 0..rounds {
        let left_out = round as usize % size;
        chosen[left_out] = false;
        let is_product = match diagram {
            Some(diagram) => diagram.has(&chosen),
            None => model.is_product(&chosen),
        };
        if is_product {
            count = count.saturating_add(1);
        }
        chosen[left_out] = true;
    }
    Some(count)
}
