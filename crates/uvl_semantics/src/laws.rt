//! Laws of the definitions. The functions do nothing: what they ensure is the law.
ghost use Rattle.uvl_semantics.specs.Laws.{ProductsOfTreesAreSets, SublistsTellSets, VoidFamiliesHaveNoSet, MarksTellVoidFamilies};

/// Lists of names that have the same members are products of a tree alike, and each name is a
/// feature's.
pub fn products_are_sets()
    ensures { ProductsOfTreesAreSets }
{}

/// A set that passes a test is in a family exactly where there is one among the sublists of the
/// family's names.
pub fn sublists_tell_sets()
    ensures { SublistsTellSets }
{}

/// A family is void exactly where no list of names whatever is in it, and it is so already where no
/// marks of its names give a set of it.
pub fn void_families_have_no_set()
    ensures exact { VoidFamiliesHaveNoSet }
    ensures marks { MarksTellVoidFamilies }
{}
