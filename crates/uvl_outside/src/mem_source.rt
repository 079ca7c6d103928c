//! A source over bytes in memory, with planned sizes and faults.
ghost use Rattle.std.specs.Prelude.{◌≡◌, ◌<◌, ◌≤◌, length, drop, min, Some, IfOk, is_ok, is_err, if◌then◌else◌, vec_len};
ghost use Rattle.uvl_outside.specs.Faults.{Counts};
ghost use Rattle.uvl_outside.specs.MemSource.{SourceState};
ghost use Rattle.uvl_outside.specs.Plan.{fresh_plan, fails_next, after_call, most_given};
ghost use Rattle.uvl_outside.specs.Source.{Takes};

use crate::fault_plan::FaultPlan;
use crate::files::OutOfMemory;
use crate::source::{Failed, Source};
use crate::sure_source::SureSource;
use std::alloc::Global;
use std::marker::Model;

/// A source over bytes in memory, with planned sizes and faults. A contract sees the bytes that are
/// left, the sizes of the next pieces and which calls are to fail.
#[derive(Debug, Drop)]
pub struct MemSource {
    source: SureSource,
    sizes: Vec<usize>,
    used: usize,
    plan: FaultPlan,
}

impl Model for MemSource {
    ghost Value = { SourceState };

    ghost view = { λ source. record {
      left = source.source;
      sizes = drop source.used source.sizes.items;
      plan = source.plan;
    } };

    ghost invariant = { λ source. source.used ≤ vec_len source.sizes };
}

impl MemSource {
    /// A source of a copy of these bytes. Each call gives at most the next size, where 0 counts as
    /// 1, and behind the sizes as many bytes as fit. The calls with the numbers of `fail`, from 1,
    /// fail, and use no size.
    pub fn new(
        alloc: Global,
        bytes: &[u8],
        sizes: &[usize],
        fail: &[u64],
    ) -> Result<MemSource, OutOfMemory>
        ensures left { IfOk result (λ source. source.left ≡ bytes.now) }
        ensures sizes { IfOk result (λ source. source.sizes ≡ sizes.now) }
        ensures planned { IfOk result (λ source. source.plan ≡ fresh_plan fail.now) }
    {
        Ok(MemSource {
            source: SureSource::new(alloc, bytes)?,
            sizes: Vec::from_slice(alloc, sizes)?,
            used: 0,
            plan: FaultPlan::new(alloc, fail)?,
        })
    }

    /// The most bytes that this call gives into a buffer of this length.
    fn next_size(&mut self, room: usize) -> usize
        ensures most { result ≡ most_given self.old.sizes room }
        ensures used { self.new ≡ record self.old { sizes = drop 1 self.old.sizes } }
    {
        match self.sizes.get(self.used) {
            Some(size) => {
                let most = (*size).max(1).min(room);
                self.used += 1;
                most
            }
            None => room,
        }
    }
}

impl Source for MemSource {
    ghost left = { λ source. Some source.left };

    ghost faults = { λ source. source.plan.faults };

    fn take(&mut self, into: &mut [u8]) -> Result<usize, Failed>
        requires { 0 < length into.old }
        ensures within { IfOk result (λ count. count ≤ length into.new) }
        ensures moves { Takes (Some self.old.left) (Some self.new.left) into.new result }
        ensures counted { Counts self.old.plan.faults self.new.plan.faults (is_err result) }
        ensures planned { is_err result ≡ fails_next self.old.plan }
        ensures after { self.new.plan ≡ after_call self.old.plan }
        ensures size { IfOk result (λ count.
            count ≡ min (most_given self.old.sizes (length into.old)) (length self.old.left)) }
        ensures used { self.new.sizes
            ≡ (if is_ok result then drop 1 self.old.sizes else self.old.sizes) }
    {
        if self.plan.fails() {
            return Err(Failed);
        }
        let most = self.next_size(into.len());
        Ok(self.source.give(into, most))
    }
}
