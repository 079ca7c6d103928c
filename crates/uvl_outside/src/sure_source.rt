//! A source over bytes in memory that never fails.
ghost use Rattle.std.specs.Prelude.{◌≡◌, ◌<◌, ◌≤◌, ℕ, List, length, ◌++◌, take, drop, min, Some, Ok, IfOk, is_err, vec_len};
ghost use Rattle.uvl_outside.specs.Faults.{Counts};
ghost use Rattle.uvl_outside.specs.Source.{Takes, TakesFront};

use crate::files::OutOfMemory;
use crate::source::{Failed, Source};
use std::alloc::Global;
use std::marker::Model;

/// A source over bytes in memory that never fails. A contract sees the bytes that are left.
#[derive(Debug, Drop)]
pub struct SureSource {
    bytes: Vec<u8>,
    taken: usize,
}

impl Model for SureSource {
    ghost Value = { List ℕ };

    ghost view = { λ source. drop source.taken source.bytes.items };

    ghost invariant = { λ source. source.taken ≤ vec_len source.bytes };
}

/// Copies as many bytes as both have, but at most `most`, and answers how many.
fn copy_front(from: &[u8], into: &mut [u8], most: usize) -> usize
    ensures count { result ≡ min (min most (length into.old)) (length from.now) }
    ensures copied { into.new ≡ take result from.now ++ drop result into.old }
{
    let count = most.min(into.len()).min(from.len());
    into[..count].copy_from_slice(&from[..count]);
    count
}

impl SureSource {
    /// A source of a copy of these bytes.
    pub fn new(alloc: Global, bytes: &[u8]) -> Result<SureSource, OutOfMemory>
        ensures left { IfOk result (λ source. source ≡ bytes.now) }
    {
        Ok(SureSource {
            bytes: Vec::from_slice(alloc, bytes)?,
            taken: 0,
        })
    }

    /// The bytes that are left.
    fn rest(&self) -> &[u8]
        ensures left { result.now ≡ self.now }
    {
        &self.bytes[self.taken..]
    }

    /// Moves as many bytes as fit, but at most `most`.
    pub(crate) fn give(&mut self, into: &mut [u8], most: usize) -> usize
        requires room { 0 < length into.old }
        requires some { 0 < most }
        ensures count { result ≡ min (min most (length into.old)) (length self.old) }
        ensures moves { TakesFront (Some self.old) (Some self.new) into.new result }
    {
        let count = copy_front(self.rest(), into, most);
        self.taken += count;
        count
    }
}

impl Source for SureSource {
    ghost left = { λ source. Some source };

    ghost faults = { λ _. 0 };

    fn take(&mut self, into: &mut [u8]) -> Result<usize, Failed>
        requires { 0 < length into.old }
        ensures within { IfOk result (λ count. count ≤ length into.new) }
        ensures moves { Takes (Some self.old) (Some self.new) into.new result }
        ensures counted { Counts 0 0 (is_err result) }
        ensures size { result ≡ Ok (min (length into.old) (length self.old)) }
    {
        let room = into.len();
        Ok(self.give(into, room))
    }
}
