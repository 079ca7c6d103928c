//! The loading of a set of files.
ghost use Rattle.std.specs.Prelude.{◌≡◌, ◌≤◌, ◌<◌, ◌+◌, ◌++◌, ◌∷◌, [], ℕ, false, List, All, length, map, IfOk, IfErr, OnOk, IfSome, string_bytes};
ghost use Rattle.uvl_outside.specs.Faults.{Counts};
ghost use Rattle.uvl_imports.specs.Limits.{most_files};
ghost use Rattle.uvl_imports.specs.Loading.{LoadsAs, IsCauseOf, load_failed};
ghost use Rattle.uvl_imports.specs.Paths.{qualifier_of};
ghost use Rattle.uvl_imports.specs.Reading.{Reading, ReadsEach};
ghost use Rattle.uvl_imports.specs.Sets.{IsWhole, IsWritten};
ghost use Rattle.uvl_imports.specs.Texts.{has, AreDistinct};
ghost use Rattle.uvl_imports.specs.Walking.{deeper, paths_of, read_file, read_line, read_lines};
ghost use Rattle.uvl_imports.specs.steps.Answers.{Answers, IsBegun, IsFaultOf, IsRefusal};
ghost use Rattle.uvl_imports.specs.steps.Growing.{IsSound, met_of};

use crate::fault::{LoadFault, ReadingFault};
use crate::file_set::FileSet;
use crate::import_line::{has_bad_name, target_of};
use crate::law::all_bytes_are_read_once;
use crate::limits::MOST_IMPORT_DEPTH;
use crate::reading::read_file;
use crate::set_builder::SetBuilder;
use crate::text_index::TextIndex;
use sqlite_items::Items;
use std::alloc::Global;
use uvl_ast::{File, Import};
use uvl_base::{FaultKind, ModelFault, Place, Text};
use uvl_outside::Files;

/// The main file with all that it imports.
pub fn load<F: Files>(alloc: Global, files: &mut F, main: &str) -> Result<FileSet, LoadFault>
    ensures loads { IfOk result (λ set. LoadsAs (F.told files.old) main.now set.files) }
    ensures whole { IfOk result (λ set. IsWhole set.files) }
    ensures fault { IfErr result (IsCauseOf (F.told files.old) main.now) }
    ensures same { F.told files.new ≡ F.told files.old }
    ensures counted { Counts (F.faults files.old) (F.faults files.new) (load_failed result) }
{
    // A law, which is a fact for the proof.
    all_bytes_are_read_once();
    let main = String::from_str(alloc, main)?;
    let mut set = SetBuilder::new(alloc);
    load_file(alloc, files, &mut set, main, MOST_IMPORT_DEPTH)?;
    Ok(set.finish())
}

/// Loads a file that was not met yet, below which imports may nest so deep, and answers its position.
#[cycle(loading)]
fn load_file<F: Files>(
    alloc: Global,
    files: &mut F,
    set: &mut SetBuilder,
    path: String,
    depth: usize,
) -> Result<usize, LoadFault>
    requires sound { IsSound set.old }
    requires room { length set.old.files + length set.old.way < most_files }
    requires apart { has set.old.way (string_bytes path) ≡ false }
    requires new { has (paths_of set.old.files) (string_bytes path) ≡ false }
    ensures answer { Answers (F.told files.old)
        (λ contents read. read_file contents read depth (string_bytes path) (met_of set.old)) (met_of set.new) result }
    ensures sound { OnOk result (IsSound set.new) }
    ensures grown { IfOk result (λ position. (length set.old.files ≤ position) × (position < length set.new.files)) }
    ensures way { OnOk result (set.new.way ≡ set.old.way) }
    ensures same { F.told files.new ≡ F.told files.old }
    ensures counted { Counts (F.faults files.old) (F.faults files.new) (load_failed result) }
{
    let file = begin_file(alloc, files, set, &path)?;
    let lines = file.imports.as_slice();
    let targets = load_lines(alloc, files, set, path.as_str(), lines, depth)?;
    Ok(set.end(path, file, targets)?)
}

/// Loads the files that lines of the file at `path` name, and answers their positions.
#[cycle(loading)]
fn load_lines<F: Files>(
    alloc: Global,
    files: &mut F,
    set: &mut SetBuilder,
    path: &str,
    lines: &[Import],
    depth: usize,
) -> Result<Items<u32>, LoadFault>
    requires { IsSound set.old }
    ensures answer { Answers (F.told files.old)
        (λ contents read. read_lines (deeper contents read depth) path.now [] lines.now [] (met_of set.old))
        (met_of set.new) result }
    ensures sound { OnOk result (IsSound set.new) }
    ensures each { IfOk result (λ targets. length targets ≡ length lines.now) }
    ensures in_front { IfOk result (All (λ target. target < length set.new.files)) }
    ensures qualifiers { OnOk result (AreDistinct (map qualifier_of lines.now)) }
    ensures grown { OnOk result (length set.old.files ≤ length set.new.files) }
    ensures way { OnOk result (set.new.way ≡ set.old.way) }
    ensures same { F.told files.new ≡ F.told files.old }
    ensures counted { Counts (F.faults files.old) (F.faults files.new) (load_failed result) }
{
    let mut qualifiers = TextIndex::new(alloc);
    let mut targets = Items::new(alloc);
    for line in lines {
        let target = load_line(alloc, files, set, path, &mut qualifiers, line, depth)?;
        targets.push(target as u32)?;
    }
    Ok(targets)
}

/// Loads the file that a line of the file at `path` names, unless it is loaded already, and answers its
/// position. The qualifiers of the lines in front of this one are handed in, and get that of this one.
#[cycle(loading)]
fn load_line<F: Files>(
    alloc: Global,
    files: &mut F,
    set: &mut SetBuilder,
    path: &str,
    qualifiers: &mut TextIndex,
    line: &Import,
    depth: usize,
) -> Result<usize, LoadFault>
    requires { IsSound set.old }
    ensures answer { Answers (F.told files.old)
        (λ contents read.
        read_line (deeper contents read depth) path.now qualifiers.old line.now (met_of set.old))
        (met_of set.new) result }
    ensures sound { OnOk result (IsSound set.new) }
    ensures qualifier { OnOk result (has qualifiers.old (qualifier_of line.now) ≡ false) }
    ensures qualifiers { OnOk result (qualifiers.new ≡ qualifiers.old ++ qualifier_of line.now ∷ []) }
    ensures grown { IfOk result
        (λ position. (length set.old.files ≤ length set.new.files) × (position < length set.new.files)) }
    ensures way { OnOk result (set.new.way ≡ set.old.way) }
    ensures same { F.told files.new ≡ F.told files.old }
    ensures counted { Counts (F.faults files.old) (F.faults files.new) (load_failed result) }
{
    if has_bad_name(alloc, qualifiers, line)? {
        return Err(refusal(alloc, path, line.place, FaultKind::BadImportName));
    }
    let target = target_of(alloc, path, line)?;
    if set.way.has(&target) {
        return Err(refusal(alloc, path, line.place, FaultKind::ImportCycle));
    }
    if depth == 0 {
        return Err(refusal(alloc, path, line.place, FaultKind::ImportDepth));
    }
    match set.position_of(&target) {
        Some(position) => Ok(position),
        None if set.is_full() => Err(refusal(alloc, path, line.place, FaultKind::TooManyFiles)),
        None => load_file(alloc, files, set, target, depth - 1),
    }
}

/// Reads the file at a path that was not met yet, and begins it.
fn begin_file<F: Files>(
    alloc: Global,
    files: &mut F,
    set: &mut SetBuilder,
    path: &String,
) -> Result<File, LoadFault>
    requires sound { IsSound set.old }
    requires room { length set.old.files + length set.old.way < most_files }
    requires apart { has set.old.way (string_bytes path.now) ≡ false }
    requires new { has (paths_of set.old.files) (string_bytes path.now) ≡ false }
    ensures files { OnOk result (set.new.files ≡ set.old.files) }
    ensures way { OnOk result (set.new.way ≡ set.old.way ++ string_bytes path.now ∷ []) }
    ensures sound { OnOk result (IsSound set.new) }
    ensures answer { IfSome (F.told files.old) (λ contents. (read : List ℕ → Reading) → ReadsEach read →
        IsBegun read (string_bytes path.now) (met_of set.old) (contents (string_bytes path.now)) (met_of set.new)
        result) }
    ensures written { IfOk result IsWritten }
    ensures same { F.told files.new ≡ F.told files.old }
    ensures counted { Counts (F.faults files.old) (F.faults files.new) (load_failed result) }
{
    match read_file(alloc, files, path.as_str(), set.bytes_left()) {
        Ok((file, count)) => {
            set.begin(path.clone()?, count)?;
            Ok(file)
        }
        Err(fault) => Err(fault_of(alloc, path.as_str(), fault)),
    }
}

/// What is answered for a fault of the file at a path.
fn fault_of(alloc: Global, path: &str, fault: ReadingFault) -> LoadFault
    ensures { IsFaultOf path.now fault result }
{
    match fault {
        ReadingFault::At { place, kind } => refusal(alloc, path, place, kind),
        ReadingFault::Host => LoadFault::ReadFault,
        ReadingFault::OutOfMemory => LoadFault::OutOfMemory,
    }
}

/// A fault of the file at a path.
fn refusal(alloc: Global, path: &str, place: Place, kind: FaultKind) -> LoadFault
    ensures { IsRefusal path.now place kind result }
{
    match Text::new(alloc, path) {
        Ok(file) => LoadFault::Model(ModelFault { file, place, kind }),
        Err(_) => LoadFault::OutOfMemory,
    }
}
