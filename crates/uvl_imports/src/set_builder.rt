//! A set of files while it grows.
ghost use Rattle.std.specs.Prelude.{◌≡◌, ◌≤◌, ◌<◌, ◌+◌, ◌++◌, ◌∷◌, [], ℕ, List, false, All, length, map, IfOk, OnOk, string_bytes, nat_lt, not, is_some};
ghost use Rattle.uvl_imports.specs.Limits.{most_files};
ghost use Rattle.uvl_imports.specs.Paths.{qualifier_of};
ghost use Rattle.uvl_imports.specs.Sets.{IsWhole, IsWritten};
ghost use Rattle.uvl_imports.specs.Texts.{has, place_of, AreDistinct};
ghost use Rattle.uvl_imports.specs.Walking.{begun, bytes_left, loaded_file, nothing, paths_of};
ghost use Rattle.uvl_imports.specs.steps.Growing.{IsSound, met_of};

use crate::file_set::{FileSet, Loaded};
use crate::limits::{MOST_FILES, MOST_SET_BYTES};
use crate::text_index::TextIndex;
use crate::way::Way;
use sqlite_items::Items;
use std::alloc::Global;
use uvl_ast::File;
use uvl_base::{MOST_FILE_BYTES, OutOfMemory, Text};

/// The files whose loading has ended, with a look-up by path; the paths of those that are being
/// loaded, the main file first; and the bytes of all of them.
#[derive(Drop)]
pub(crate) struct SetBuilder {
    pub(crate) index: TextIndex,
    pub(crate) files: Items<Loaded>,
    pub(crate) way: Way,
    pub(crate) bytes: usize,
}

impl SetBuilder {
    /// No files.
    pub(crate) fn new(alloc: Global) -> SetBuilder
        ensures nothing { met_of result ≡ nothing }
        ensures sound { IsSound result }
    {
        SetBuilder {
            index: TextIndex::new(alloc),
            files: Items::new(alloc),
            way: Way::new(alloc),
            bytes: 0,
        }
    }

    /// How many bytes one more file may have.
    pub(crate) fn bytes_left(&self) -> usize
        requires { IsSound self.now }
        ensures { result ≡ bytes_left (met_of self.now) }
    {
        MOST_FILE_BYTES.min(MOST_SET_BYTES - self.bytes)
    }

    /// Whether there are as many files as a set may have.
    pub(crate) fn is_full(&self) -> bool
        requires { IsSound self.now }
        ensures { result ≡ not (nat_lt (length self.now.files + length self.now.way) most_files) }
    {
        self.files.len() + self.way.len() >= MOST_FILES
    }

    /// The position of the file at a path, if it is loaded.
    pub(crate) fn position_of(&self, path: &str) -> Option<usize>
        requires { IsSound self.now }
        ensures place { result ≡ place_of path.now (paths_of self.now.files) }
        ensures found { is_some result ≡ has (paths_of self.now.files) path.now }
    {
        self.index.find(path)
    }

    /// Begins the file at a path that was not met yet, with so many bytes.
    pub(crate) fn begin(&mut self, path: String, count: usize) -> Result<(), OutOfMemory>
        requires sound { IsSound self.old }
        requires room { length self.old.files + length self.old.way < most_files }
        requires light { count ≤ bytes_left (met_of self.old) }
        requires apart { has self.old.way (string_bytes path) ≡ false }
        requires new { has (paths_of self.old.files) (string_bytes path) ≡ false }
        ensures begun { OnOk result (met_of self.new ≡ begun (string_bytes path) count (met_of self.old)) }
        ensures sound { OnOk result (IsSound self.new) }
    {
        self.way.push(path)?;
        self.bytes += count;
        Ok(())
    }

    /// Ends the file that was begun last: its import lines are read, and these are their targets.
    pub(crate) fn end(
        &mut self,
        path: String,
        file: File,
        targets: Items<u32>,
    ) -> Result<usize, OutOfMemory>
        requires sound { IsSound self.old }
        requires inner { (outer : List (List ℕ)) × (self.old.way ≡ outer ++ string_bytes path ∷ []) }
        requires written { IsWritten file }
        requires targets { length targets ≡ length file.imports }
        requires in_front { All (λ target. target < length self.old.files) targets }
        requires qualifiers { AreDistinct (map qualifier_of file.imports) }
        ensures position { IfOk result (λ position. position ≡ length self.old.files) }
        ensures files { OnOk result
            (self.new.files ≡ self.old.files ++ loaded_file (string_bytes path) file targets ∷ []) }
        ensures way { OnOk result (self.old.way ≡ self.new.way ++ string_bytes path ∷ []) }
        ensures bytes { self.new.bytes ≡ self.old.bytes }
        ensures sound { OnOk result (IsSound self.new) }
    {
        let position = self.files.len();
        let key = path.clone()?;
        self.index.add(key)?;
        self.way.pop();
        let path = Text::from(path);
        self.files.push(Loaded {
            path,
            file,
            targets,
        })?;
        Ok(position)
    }

    /// The set of the files that are loaded.
    pub(crate) fn finish(self) -> FileSet
        requires sound { IsSound self }
        requires some { 1 ≤ length self.files }
        ensures files { result.files ≡ self.files }
        ensures whole { IsWhole result.files }
    {
        FileSet { files: self.files }
    }
}
