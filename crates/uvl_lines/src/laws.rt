//! Laws of the definitions. The functions do nothing: what they ensure is the law.
ghost use Rattle.uvl_lines.specs.Laws.{EachScriptHasACut, CutsAreEqual};

/// The ended lines of any bytes and the line that they leave open are a cut of them, and their only
/// one: joined again they are the bytes, and none of them holds an LF.
pub fn every_script_has_one_cut()
    ensures cut { EachScriptHasACut }
    ensures alone { CutsAreEqual }
{}
