//! Laws of the definitions. The functions do nothing: what they ensure is the law.
ghost use Rattle.uvl_scope.specs.Law.{EachSetHasOneAnswer};

/// A set of files has one first fault, or speaks of numbers, which aren't built yet, or is accepted, and
/// never two of these.
pub fn each_set_has_one_answer()
    ensures { EachSetHasOneAnswer }
{}
