//! The files of the host.
ghost use Rattle.std.specs.Prelude.{◌≡◌, None, [], Option};
ghost use Rattle.std.specs.IoError.{error_kind};
ghost use Rattle.uvl_outside.specs.steps.Absence.{is_absence};
ghost use Rattle.uvl_outside.specs.Files.{Fetches};

use crate::files::{FetchFault, Fetched, Files};
use crate::reading::read_whole;
use std::alloc::Global;
use std::{fs, io, rt};

/// The files of the host, of which nothing is told. There is no file at a path that leads through a
/// file, nor at one that no file can have. A folder, and a file that may not be read, are faults.
#[derive(Debug, Drop)]
pub struct HostFiles<R> {
    runtime: R,
    faults: u64,
}

impl<R: rt::Files> HostFiles<R> {
    /// The files that this runtime reaches.
    pub fn new(runtime: R) -> HostFiles<R>
        ensures counted { ⟦<HostFiles<R> as Files>⟧.faults result ≡ 0 }
    {
        HostFiles { runtime, faults: 0 }
    }
}

impl<R: rt::Files> Files for HostFiles<R> {
    ghost told = { λ _. None };

    ghost faults = { λ store. store.faults };

    fn fetch(
        &mut self,
        _alloc: Global,
        path: &str,
        limit: usize,
        into: &mut Vec<u8>,
    ) -> Result<Fetched, FetchFault> {
        let fetched = read_file(&self.runtime, path, limit, into);
        if let Err(FetchFault::Failed) = fetched {
            self.faults = self.faults.saturating_add(1);
        }
        fetched
    }
}

/// Reads the file at the path into an empty buffer.
fn read_file<R: rt::Files>(
    runtime: &R,
    path: &str,
    limit: usize,
    into: &mut Vec<u8>,
) -> Result<Fetched, FetchFault>
    requires { into.old.items ≡ [] }
    ensures fetched { Fetches None path.now limit into.new.items result }
{
    match fs::open(runtime, path) {
        Ok(mut file) => read_whole(&mut file, limit, into),
        Err(error) if is_absence(&error) => Ok(Fetched::Absent),
        Err(_) => Err(FetchFault::Failed),
    }
}

/// Whether a file couldn't be opened since there is none. So it is at a path that leads through a
/// file too, and at one with a NUL or that is too long.
fn is_absence(error: &io::Error) -> bool
    ensures { result ≡ is_absence (error_kind error.now) }
{
    matches!(
        error.kind(),
        io::ErrorKind::NotFound
            | io::ErrorKind::NotADirectory
            | io::ErrorKind::InvalidInput
            | io::ErrorKind::InvalidFilename
    )
}
