//! The rows of the features and the groups of a set of files.
ghost use Rattle.std.specs.Prelude.{◌≡◌, ◌≤◌, length, Some, None, IfOk};
ghost use Rattle.uvl_base.specs.Limits.{most_features};
ghost use Rattle.uvl_model.specs.Spelling.{size_of, feature_rows, group_rows};
ghost use Rattle.uvl_placing.specs.Files.{main_tree};
ghost use Rattle.uvl_resolve.specs.steps.Walk.{qualifiers_of};
ghost use Rattle.uvl_semantics.specs.Tree.{Tree};

use crate::rows::RowBuilder;
use std::alloc::Global;
use uvl_base::OutOfMemory;
use uvl_imports::Loaded;
use uvl_placing::files_are_read_in_order;
use uvl_scope::NameIndex;

/// The rows of the placed tree of the main file, which is the last. The qualifiers of the import lines of
/// each file are given.
pub(crate) fn rows_of(
    alloc: Global,
    files: &[Loaded],
    qualifiers: &[NameIndex],
) -> Result<RowBuilder, OutOfMemory>
    ghost tree: { Tree }
    requires known { qualifiers.now ≡ qualifiers_of files.now }
    requires placed { main_tree files.now ≡ Some tree }
    requires few { size_of tree ≤ most_features }
    ensures features { IfOk result (λ rows. rows.features ≡ feature_rows None 0 tree) }
    ensures groups { IfOk result (λ rows. rows.groups ≡ group_rows 0 tree) }
{
    // A law, which is a fact for the proof.
    files_are_read_in_order();
    let mut rows = RowBuilder::new(alloc);
    match files.split_last() {
        Some((loaded, front)) => {
            rows.add_file(front, loaded, qualifiers, "", None)?;
            Ok(rows)
        }
        None => unreachable!(),
    }
}
