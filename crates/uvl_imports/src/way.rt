//! The paths of the files that are being loaded.
ghost use Rattle.std.specs.Prelude.{◌≡◌, ◌-◌, ◌∷◌, ◌++◌, [], length, take, OnOk, OnErr, string_bytes};
ghost use Rattle.std.specs.List.{list_any};
ghost use Rattle.std.specs.Str.{bytes_eq};
ghost use Rattle.uvl_imports.specs.Texts.{has};

use std::alloc::Global;
use std::marker::Model;
use uvl_base::OutOfMemory;

/// The paths of the files that are being loaded, the main file first. Contracts see the list of the
/// paths, each as its bytes. It is no longer than imports may nest.
#[derive(Debug, Drop)]
pub(crate) struct Way {
    paths: Vec<String>,
}

impl Model for Way {
    ghost use Rattle.std.specs.Prelude.{List, ℕ, map, string_bytes};

    ghost Value = { List (List ℕ) };

    ghost view = { λ w. map (λ path. string_bytes path) w.paths.items };
}

impl Way {
    /// No file is being loaded.
    pub(crate) fn new(alloc: Global) -> Way
        ensures { result ≡ [] }
    {
        Way {
            paths: Vec::new(alloc),
        }
    }

    /// How many files are being loaded.
    pub(crate) fn len(&self) -> usize
        ensures { result ≡ length self.now }
    {
        self.paths.len()
    }

    /// Whether the file at a path is being loaded.
    pub(crate) fn has(&self, path: &str) -> bool
        ensures { result ≡ has self.now path.now }
    {
        is_among(&self.paths, path)
    }

    /// The file at a path is begun.
    pub(crate) fn push(&mut self, path: String) -> Result<(), OutOfMemory>
        ensures pushed { OnOk result (self.new ≡ self.old ++ string_bytes path ∷ []) }
        ensures refused { OnErr result (self.new ≡ self.old) }
    {
        self.paths.push(path)?;
        Ok(())
    }

    /// The file that was begun last has ended.
    pub(crate) fn pop(&mut self)
        ensures { self.new ≡ take (length self.old - 1) self.old }
    {
        self.paths.pop();
    }
}

/// Whether the path is among the paths.
fn is_among(paths: &[String], path: &str) -> bool
    ensures { result ≡ list_any (λ other. bytes_eq path.now (string_bytes other)) paths.now }
{
    paths.iter().any(|other| path == other.as_str())
}
