//! What a value leaves open.
ghost use Rattle.std.specs.Prelude.{[], IfOk};
ghost use Rattle.dd_store.specs.Exhausted.{value_at};
ghost use Rattle.dd_store.specs.Table.{IsLive};
ghost use Rattle.dd_quant.specs.Offers.{AreOffers};
ghost use Rattle.dd_quant.specs.Possible.{AreLiterals};

use crate::given::given_values;
use crate::literal::Literal;
use crate::marks::Marks;
use crate::offer::Offer;
use crate::walk::note_all;
use dd_apply::Kernel;
use dd_store::{Handle, OutOfMemory};
use std::alloc::Global;

/// Neither value.
const NO_OFFER: Offer = Offer {
    no: false,
    yes: false,
};

/// For each variable, by its number, for which of its values some assignment makes the value true. It makes no node.
pub fn offers(kernel: &Kernel, alloc: Global, f: &Handle) -> Result<Vec<Offer>, OutOfMemory>
    requires { IsLive kernel.now f.now }
    ensures { IfOk result (λ offers. AreOffers kernel.now.order (value_at kernel.now f.now) [] offers.items) }
{
    let mut marks = Marks::new(alloc);
    offers_with(kernel, alloc, &mut marks, f, &[])
}

/// The same among the assignments that agree with all the literals, by a walk that uses marks again.
pub fn offers_with(
    kernel: &Kernel,
    alloc: Global,
    marks: &mut Marks,
    f: &Handle,
    given: &[Literal],
) -> Result<Vec<Offer>, OutOfMemory>
    requires live { IsLive kernel.now f.now }
    requires literals { AreLiterals kernel.now given.now }
    ensures { IfOk result (λ offers. AreOffers kernel.now.order (value_at kernel.now f.now) given.now offers.items) }
{
    let _order = kernel.order();
    let variables = kernel.variables();
    let mut offers = Vec::new(alloc);
    offers.resize(variables as usize, NO_OFFER)?;
    match given_values(alloc, variables, given)? {
        None => Ok(offers),
        Some(values) => {
            note_all(kernel, alloc, marks, &values, f, &mut offers)?;
            Ok(offers)
        }
    }
}
