//! A set of files that are loaded.
use sqlite_items::Items;
use uvl_ast::File;
use uvl_base::Text;

/// A file that is loaded.
#[derive(Debug, Drop)]
pub struct Loaded {
    /// Where it is.
    pub path: Text,
    /// What it says.
    pub file: File,
    /// For each of its import lines, the position in the set of the file that the line names.
    pub targets: Items<u32>,
}

/// A main file and the files that it imports, by others perhaps, in the order in which their loading
/// ended: each behind the files that it imports, and the main file last.
#[derive(Debug, Drop)]
pub struct FileSet {
    pub files: Items<Loaded>,
}
