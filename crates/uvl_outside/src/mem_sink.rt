//! A sink that keeps what was written in memory, with planned faults.
ghost use Rattle.std.specs.Prelude.{◌≡◌, [], Some, IfOk, OnErr};
ghost use Rattle.uvl_outside.specs.Faults.{Counts};
ghost use Rattle.uvl_outside.specs.MemSink.{SinkState};
ghost use Rattle.uvl_outside.specs.Plan.{fresh_plan, fails_next, after_call};
ghost use Rattle.uvl_outside.specs.Sink.{Puts, put_failed};

use crate::fault_plan::FaultPlan;
use crate::files::OutOfMemory;
use crate::sink::{PutFault, Sink};
use crate::sure_sink::SureSink;
use std::alloc::Global;
use std::marker::Model;

/// A sink that keeps what was written in memory, with planned faults. A contract sees those bytes
/// and which calls are to fail. A call that fails writes nothing.
#[derive(Debug, Drop)]
pub struct MemSink {
    sink: SureSink,
    plan: FaultPlan,
}

impl Model for MemSink {
    ghost Value = { SinkState };

    ghost view = { λ sink. record { written = sink.sink; plan = sink.plan } };
}

impl MemSink {
    /// A sink to which nothing was written, whose calls with these numbers, from 1, fail.
    pub fn new(alloc: Global, fail: &[u64]) -> Result<MemSink, OutOfMemory>
        ensures empty { IfOk result (λ sink. sink.written ≡ []) }
        ensures planned { IfOk result (λ sink. sink.plan ≡ fresh_plan fail.now) }
    {
        Ok(MemSink {
            sink: SureSink::new(alloc),
            plan: FaultPlan::new(alloc, fail)?,
        })
    }

    /// What was written.
    pub fn bytes(&self) -> &[u8]
        ensures written { result.now ≡ self.now.written }
    {
        self.sink.bytes()
    }
}

impl Sink for MemSink {
    ghost written = { λ sink. Some sink.written };

    ghost faults = { λ sink. sink.plan.faults };

    fn put(&mut self, alloc: Global, piece: &[u8]) -> Result<(), PutFault>
        ensures appends { Puts (Some self.old.written) (Some self.new.written) piece.now result }
        ensures counted { Counts self.old.plan.faults self.new.plan.faults (put_failed result) }
        ensures planned { put_failed result ≡ fails_next self.old.plan }
        ensures after { self.new.plan ≡ after_call self.old.plan }
        ensures unchanged { OnErr result (self.new.written ≡ self.old.written) }
    {
        if self.plan.fails() {
            return Err(PutFault::Failed);
        }
        self.sink.put(alloc, piece)
    }
}
