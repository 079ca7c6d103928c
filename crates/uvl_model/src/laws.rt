//! Laws of the definitions. The functions do nothing: what they ensure is the law.
ghost use Rattle.uvl_model.specs.Laws.{RowsGiveProducts, RowsGiveNames, RowsCheckProducts, RowsTellProducts, RunsAreBelow, MarksGiveProducts, ProductsAreSets, SmallRulesMayBe};

/// The products of a model's rows are those of each tree that the rows spell, with what their rules
/// say.
pub fn rows_give_products()
    ensures { RowsGiveProducts }
{}

/// The names of a model's features are those of each tree that its rows spell.
pub fn rows_give_names()
    ensures { RowsGiveNames }
{}

/// The check of the rows of a model, group by group and rule by rule, tells its products, rules with
/// numbers among them.
pub fn rows_tell_products()
    ensures { RowsTellProducts }
{}

/// The features from one of a model's downwards stand in one run of its rows.
pub fn runs_are_below()
    ensures { RunsAreBelow }
{}

/// The check of the rows of a model without comparisons tells its products.
pub fn rows_check_products()
    ensures { RowsCheckProducts }
{}

/// Lists of names that have the same members are products alike, and each name is a feature's.
pub fn products_are_sets()
    ensures { ProductsAreSets }
{}

/// Marks that stand for a set are a product where the set is one.
pub fn marks_give_products()
    ensures { MarksGiveProducts }
{}

/// A rule without comparisons that is within the limits on rules may be in a model that has its
/// features.
pub fn small_rules_may_be()
    ensures { SmallRulesMayBe }
{}
