//! Laws of the definitions. The functions do nothing: what they ensure is the law.
ghost use Rattle.uvl_run.specs.Laws.{EachMainFileIsLoadedOnce, NineFeaturesAreNeverTooMany};

use uvl_imports::all_files_load_or_have_a_fault;
use uvl_resolve::flat_keeps_products;
use uvl_scope::each_set_has_one_answer;

/// Whatever is at the paths of files, a main file is that of one set in which nothing is wrong, or has one
/// fault, and never both. It follows from the laws of the layers.
pub fn every_main_file_is_loaded_once()
    ensures { EachMainFileIsLoadedOnce }
{
    all_files_load_or_have_a_fault();
    each_set_has_one_answer();
}

/// The budget where none is given is enough for every model of up to nine features.
pub fn nine_features_are_never_too_many()
    ensures { NineFeaturesAreNeverTooMany }
{
    flat_keeps_products();
}
