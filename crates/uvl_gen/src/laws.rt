//! Laws of the definitions. The function does nothing: what it ensures is the law.
ghost use Rattle.uvl_gen.specs.Laws.{ChildrenAreOfTheirParent, FeaturesStandAboveTheirChildren};

/// In a generated model each feature stands among the children of its parent, and nowhere else, and
/// the lines of these stand below it.
pub fn features_have_their_parents()
    ensures children { ChildrenAreOfTheirParent }
    ensures lines { FeaturesStandAboveTheirChildren }
{}
