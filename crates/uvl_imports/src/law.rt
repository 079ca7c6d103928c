//! Laws of the definitions. The functions do nothing: what they ensure is the law.
ghost use Rattle.uvl_imports.specs.Law.{AllBytesAreReadOnce, AllFilesLoadOrHaveAFault, EachSetIsSaid};
ghost use Rattle.uvl_imports.specs.ImportSets.{EachLoadedSetIsAnImportSet};

use uvl_lexer::{every_text_is_read_once, tokens_are_a_list};
use uvl_parser::every_token_list_is_parsed_once;

/// Bytes are the text of one file, or there is one thing wrong with them, and never both.
pub fn all_bytes_are_read_once()
    ensures { AllBytesAreReadOnce }
{
    every_text_is_read_once();
    tokens_are_a_list();
    every_token_list_is_parsed_once();
}

/// A main file loads as one set of files, or has one first fault, and never both.
pub fn all_files_load_or_have_a_fault()
    ensures { AllFilesLoadOrHaveAFault }
{
    all_bytes_are_read_once();
}

/// In a set that is loaded each file is what the bytes at its path say, and the last is the main file.
pub fn loaded_files_are_said()
    ensures { EachSetIsSaid }
{}

/// Where files stand at texts alone, a set that is loaded is one that the main file imports: it has
/// each file that a line names and no other, in the order in which these come first.
pub fn loaded_sets_are_import_sets()
    ensures { EachLoadedSetIsAnImportSet }
{
    tokens_are_a_list();
}
