//! Laws of the definitions. The functions do nothing: what they ensure is the law.
ghost use Rattle.dd_store.specs.Exhausted.{RefusalsCompose, RefusalsLoosen, RefusalsStay};
ghost use Rattle.dd_store.specs.Law.{ChangesCompose, ValuesTellLevels};
ghost use Rattle.dd_store.specs.Short.{ShortIsBounded, ShortStays};
ghost use Rattle.dd_store.specs.SizeLaws.{CofactorsAddNothing, LastVariableAddsNothing, MoreIsNotSmaller};
ghost use Rattle.dd_store.specs.SizeLaws.{CofactorsAddNothingAtLevels, LastVariableAddsNothingAtLevels};
ghost use Rattle.dd_store.specs.SizeLaws.{CofactorsCompose, FixedFollows, FixedIsCofactor, IsOwnCofactor};
ghost use Rattle.dd_store.specs.SizeLaws.{LevelsAreBounded, MoreIsNotSmallerAtLevels, SizeIsBounded};
ghost use Rattle.dd_store.specs.SizeLaws.{ReachedIsLevelSize, ReachedIsSize};

/// A node stands on a level or below it exactly where its value depends on no variable above that level.
pub fn values_tell_levels()
    ensures { ValuesTellLevels }
{}

/// What a call leaves as it is composes over several calls.
pub fn changes_compose()
    ensures { ChangesCompose }
{}

/// More functions never need fewer nodes, nor fewer at a level.
pub fn more_is_not_smaller()
    ensures size { MoreIsNotSmaller }
    ensures levels { MoreIsNotSmallerAtLevels }
{}

/// In reduced rows as many nodes are reached as the values need, also at each level.
pub fn reached_is_size()
    ensures size { ReachedIsSize }
    ensures levels { ReachedIsLevelSize }
{}

/// m functions of n variables need at most m * 2^n nodes, and at most m * 2^i at level i.
pub fn size_is_bounded()
    ensures size { SizeIsBounded }
    ensures levels { LevelsAreBounded }
{}

/// What a function of a list gives by fixing the first variables counts with it, also at each level.
pub fn cofactors_add_nothing()
    ensures size { CofactorsAddNothing }
    ensures levels { CofactorsAddNothingAtLevels }
{}

/// A last variable on which nothing depends adds nothing, at no level.
pub fn last_variable_adds_nothing()
    ensures size { LastVariableAddsNothing }
    ensures levels { LastVariableAddsNothingAtLevels }
{}

/// A budget that is too small stays so for more functions, and is so only below a bound.
pub fn short_budgets()
    ensures stays { ShortStays }
    ensures bounded { ShortIsBounded }
{}

/// What a function gives by fixing the first variables: itself, what such a function gives in turn, and what it gives
/// by fixing a variable where it depends on none above. Of a node that is the value of an end.
pub fn cofactors_compose()
    ensures own { IsOwnCofactor }
    ensures again { CofactorsCompose }
    ensures fixed { FixedIsCofactor }
    ensures follows { FixedFollows }
{}

/// Why an inner call is refused is why the outer call is, also behind a change of handles alone, and where more partial
/// results might have been held.
pub fn refusals_compose()
    ensures compose { RefusalsCompose }
    ensures stay { RefusalsStay }
    ensures loosen { RefusalsLoosen }
{}
