//! Which calls of a stand-in are to fail.
ghost use Rattle.std.specs.Prelude.{◌≡◌, IfOk};
ghost use Rattle.uvl_outside.specs.Faults.{Counts};
ghost use Rattle.uvl_outside.specs.Plan.{Plan, fresh_plan, fails_next, after_call};

use crate::files::OutOfMemory;
use std::alloc::Global;
use std::marker::Model;

/// The numbers, from 1, of the calls that are to fail, with counts of the calls and of the faults,
/// which stop at the end of 64 bits.
#[derive(Debug, Drop)]
pub struct FaultPlan {
    fail: Vec<u64>,
    answered: u64,
    faults: u64,
}

impl Model for FaultPlan {
    ghost Value = { Plan };

    ghost view = { λ plan. record {
      fail = plan.fail.items;
      answered = plan.answered;
      faults = plan.faults;
    } };
}

impl FaultPlan {
    pub fn new(alloc: Global, fail: &[u64]) -> Result<FaultPlan, OutOfMemory>
        ensures fresh { IfOk result (λ plan. plan ≡ fresh_plan fail.now) }
    {
        Ok(FaultPlan {
            fail: Vec::from_slice(alloc, fail)?,
            answered: 0,
            faults: 0,
        })
    }

    /// Counts one more call, and answers whether it is to fail.
    pub fn fails(&mut self) -> bool
        ensures planned { result ≡ fails_next self.old }
        ensures after { self.new ≡ after_call self.old }
        ensures counted { Counts self.old.faults self.new.faults result }
    {
        self.answered = self.answered.saturating_add(1);
        let fails = self.fail.contains(&self.answered);
        if fails {
            self.faults = self.faults.saturating_add(1);
        }
        fails
    }
}
