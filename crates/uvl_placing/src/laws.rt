//! Laws of the definitions. The functions do nothing: what they ensure is the law.
ghost use Rattle.uvl_placing.specs.Laws.{FilesAreReadInFront, FilesAreReadAmongAll};
ghost use Rattle.uvl_placing.specs.Row.{OneFileIsPlacedTwice, ItsRulesHoldTwice};

/// The tree of a file of a set and its constraints are read with those of the files in front of it; and
/// it makes no difference where those of all files are known.
pub fn files_are_read_in_order()
    ensures in_front { FilesAreReadInFront }
    ensures among_all { FilesAreReadAmongAll }
{}

/// Where a file is placed under two qualifiers, its features and its rules are there twice.
pub fn one_file_is_placed_twice()
    ensures features { OneFileIsPlacedTwice }
    ensures rules { ItsRulesHoldTwice }
{}
