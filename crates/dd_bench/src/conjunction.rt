//! A conjunction of clauses that grows literal by literal.
ghost use Rattle.std.specs.Prelude.{ℕ, ◌+◌, ◌≤◌};
ghost use Rattle.dd_apply.specs.Held.{HasBoth};

use crate::literal::literal;
use crate::witness::has_collected;
use dd_apply::Kernel;
use dd_store::{Handle, Refusal};
use std::alloc::Global;

/// The diagrams of the clauses so far and of the clause that is read.
#[derive(Drop)]
pub(crate) struct Conjunction {
    kernel: Kernel,
    /// What the clauses so far say together.
    whole: Handle,
    /// What the literals of the clause that is read say, one of them.
    clause: Handle,
    /// Behind how many clauses the table had been collected.
    collections: u32,
    ghost live: { HasBoth kernel whole clause },
}

impl Conjunction {
    /// No clause, over this many variables. Behind them is one more, which no clause has.
    pub(crate) fn new(alloc: Global, variables: u32, budget: u32) -> Option<Conjunction> {
        let mut kernel = Kernel::new(alloc, budget.clamp(16, 16_777_216)).ok()?;
        for _variable in 0..variables.saturating_add(1) {
            kernel.add_variable(alloc).ok()?;
        }
        let whole = kernel.constant(true).ok()?;
        let clause = kernel.constant(false).ok()?;
        let _first = has_collected(&mut kernel, alloc);
        Some(Conjunction {
            kernel,
            whole,
            clause,
            collections: 0,
        })
    }

    /// The clause that is read with one more literal.
    pub(crate) fn with_literal(
        self,
        alloc: Global,
        variable: u32,
        value: bool,
    ) -> Result<Conjunction, Refusal> {
        let Conjunction {
            mut kernel,
            whole,
            clause,
            collections,
        } = self;
        let literal = literal(&mut kernel, alloc, variable, value)?;
        let longer = kernel.or(alloc, &clause, &literal)?;
        kernel.release(literal);
        kernel.release(clause);
        Ok(Conjunction {
            kernel,
            whole,
            clause: longer,
            collections,
        })
    }

    /// The conjunction with the clause that is read, and a new clause without a literal.
    pub(crate) fn with_clause(self, alloc: Global) -> Result<Conjunction, Refusal> {
        let Conjunction {
            mut kernel,
            whole,
            clause,
            collections,
        } = self;
        let more = kernel.and(alloc, &whole, &clause)?;
        kernel.release(whole);
        kernel.release(clause);
        let clause = kernel.constant(false)?;
        let collected = has_collected(&mut kernel, alloc);
        Ok(Conjunction {
            kernel,
            whole: more,
            clause,
            collections: collections.saturating_add(u32::from(collected)),
        })
    }

    /// How many nodes the conjunction has, and behind how many clauses the table had been collected.
    pub(crate) fn counts(self) -> (u32, u32) {
        let mut kernel = self.kernel;
        kernel.collect();
        (kernel.nodes(), self.collections)
    }
}
