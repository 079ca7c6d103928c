//! Laws of the definitions. The functions do nothing: what they ensure is the law.
ghost use Rattle.uvl_decisions.specs.Laws.{ForcedIsInEachSet, OfferedIsInSomeSet, ForcedIsNotOfferedOtherwise};
ghost use Rattle.uvl_decisions.specs.Laws.{NeverBothAreForced, ExplanationsForce, NoneIsForWhatIsNotForced, ExplanationsAreLeast};
ghost use Rattle.uvl_decisions.specs.Laws.{SessionsKeepASet};

use uvl_semantics::{sublists_tell_sets, void_families_have_no_set};

/// A value is forced exactly where each set that agrees with the decisions has it, and offered exactly
/// where one has it.
pub fn decisions_tell_sets()
    ensures forced { ForcedIsInEachSet }
    ensures offered { OfferedIsInSomeSet }
    ensures opposite { ForcedIsNotOfferedOtherwise }
{
    sublists_tell_sets();
}

/// Where some set agrees with decisions, they never force both values of a feature.
pub fn one_value_stays()
    ensures { NeverBothAreForced }
{
    sublists_tell_sets();
    void_families_have_no_set();
}

/// An explanation is there exactly where the value is forced; it forces the value, and without any one
/// of its members it doesn't.
pub fn an_explanation_is_least()
    ensures forces { ExplanationsForce }
    ensures there { NoneIsForWhatIsNotForced }
    ensures least { ExplanationsAreLeast }
{
    decisions_tell_sets();
}

/// Some set of the family agrees with the decisions of each session, from its opening on.
pub fn sessions_keep_a_set()
    ensures { SessionsKeepASet }
{
    void_families_have_no_set();
    decisions_tell_sets();
    an_explanation_is_least();
}
