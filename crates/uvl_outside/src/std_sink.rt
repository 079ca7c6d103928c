//! A sink over a writer of the standard library, as standard output.
ghost use Rattle.std.specs.Prelude.{◌≡◌};

use crate::sink::{PutFault, Sink};
use crate::writing::write_whole;
use std::alloc::Global;
use std::io::Write;

/// A sink over a writer of the standard library, as standard output, which tells what the writer
/// tells. A piece has left the writer when `put` answers `Ok`.
#[derive(Debug, Drop)]
pub struct StdSink<W> {
    writer: W,
    faults: u64,
}

impl<W: Write> StdSink<W> {
    /// A sink that writes behind what the writer holds.
    pub fn new(writer: W) -> StdSink<W>
        ensures written { ⟦<StdSink<W> as Sink>⟧.written result ≡ W.contents writer }
        ensures counted { ⟦<StdSink<W> as Sink>⟧.faults result ≡ 0 }
    {
        StdSink { writer, faults: 0 }
    }
}

impl<W: Write> Sink for StdSink<W> {
    ghost written = { λ sink. W.contents sink.writer };

    ghost faults = { λ sink. sink.faults };

    fn put(&mut self, _alloc: Global, piece: &[u8]) -> Result<(), PutFault> {
        match write_whole(&mut self.writer, piece) {
            Ok(()) => Ok(()),
            Err(_) => {
                self.faults = self.faults.saturating_add(1);
                Err(PutFault::Failed)
            }
        }
    }
}
