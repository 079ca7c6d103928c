//! Handles: making them on constants and nodes, copying them, and giving them back.
ghost use Rattle.std.specs.Prelude.{◌≡◌, ℕ, ◌≤◌, ◌<◌, Bool, if◌then◌else◌, IfOk, OnErr};
ghost use Rattle.dd_store.specs.Follow.{IsThere};

use crate::handle::Handle;
use crate::refusal::OutOfMemory;
use crate::row::NodeNo;
use crate::store::Store;
use std::alloc::AllocError;

// These calls take no memory. The one refusal is a count of live handles that is full, which is answered as want of it.
impl Store {
    ghost use Rattle.dd_store.specs.Table.{IsSound, IsLive, row_of, handles_on, value_of};
    ghost use Rattle.dd_store.specs.Changes.{Grows};
    ghost use Rattle.dd_store.specs.Handles.{KeepsHandles, GainsHandle, LosesHandle, HoldsLess, count_on};

    /// A handle on a constant, which is no node: its value is `value` for every assignment.
    pub fn constant(&mut self, value: bool) -> Result<Handle, OutOfMemory>
        ensures value { IfOk result (λ h. (a : ℕ → Bool) → value_of self.new h a ≡ value) }
        ensures place { IfOk result (λ h. h ≡ (if value then 1 else 0)) }
        ensures gained { IfOk result (GainsHandle self.old self.new) }
        ensures refused { OnErr result (KeepsHandles self.old self.new) }
        ensures grows { Grows self.old self.new 0 }
    {
        self.hold(NodeNo(u32::from(value)))
    }

    /// One more handle on the same node.
    pub fn copy(&mut self, handle: &Handle) -> Result<Handle, OutOfMemory>
        requires { IsLive self.old handle.now }
        ensures place { IfOk result (λ h. h ≡ handle.now) }
        ensures value { IfOk result (λ h. (a : ℕ → Bool) → value_of self.new h a ≡ value_of self.old handle.now a) }
        ensures gained { IfOk result (GainsHandle self.old self.new) }
        ensures refused { OnErr result (KeepsHandles self.old self.new) }
        ensures grows { Grows self.old self.new 0 }
    {
        let _whole = &self.slots;
        self.hold(handle.node)
    }

    /// Gives a handle back. Its node stays in the table, now perhaps without a holder.
    pub fn release(&mut self, handle: Handle)
        requires { IsLive self.old handle }
        ensures lost { LosesHandle self.old self.new handle }
        ensures grows { Grows self.old self.new 0 }
    {
        self.counts[handle.node.0 as usize] -= 1;
        self.live -= 1;
    }

    /// Gives all handles back.
    pub fn release_all(&mut self, mut handles: Vec<Handle>)
        requires { (n : ℕ) → count_on handles.items n ≤ handles_on self.old n }
        ensures less { HoldsLess self.old self.new handles.items }
        ensures grows { Grows self.old self.new 0 }
    {
        let _whole = &self.slots;
        while let Some(handle) = handles.pop() {
            self.release(handle);
        }
    }

    /// A handle on this constant or node.
    pub fn hold(&mut self, node: NodeNo) -> Result<Handle, OutOfMemory>
        requires { IsThere (row_of self.old) node.0 }
        ensures place { IfOk result (λ h. h ≡ node.0) }
        ensures value { IfOk result (λ h. (a : ℕ → Bool) → value_of self.new h a ≡ value_of self.old node.0 a) }
        ensures gained { IfOk result (GainsHandle self.old self.new) }
        ensures refused { OnErr result (KeepsHandles self.old self.new) }
        ensures grows { Grows self.old self.new 0 }
    {
        if self.live == u32::MAX {
            return Err(AllocError);
        }
        self.counts[node.0 as usize] += 1;
        self.live += 1;
        Ok(Handle { node })
    }
}
