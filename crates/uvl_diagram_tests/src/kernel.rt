//! The operations against plain lists of truth values: all functions of three variables, random sequences of calls, and
//! tables that are full in the middle of an operation.
ghost use Rattle.std.specs.Prelude.{ℕ, ◌+◌, ◌≤◌, IfOk, OnErr};
ghost use Rattle.dd_store.specs.Handles.{KeepsHandles, GainsHandle, one_on};
ghost use Rattle.dd_store.specs.Table.{IsLive, handles_on};

use crate::lists::{LISTS, VARIABLES, YES, function, list_of, literal, next};
use dd_apply::Kernel;
use dd_store::{AddRefusal, Handle, Refusal};
use std::alloc::Global;
use std::process::Abort;
use std::test::Fail;

/// What is asked of up to three handles.
#[derive(Clone, Copy, Debug, PartialEq, Eq)]
enum Asked {
    And,
    Or,
    Xor,
    Not,
    Ite,
}

const ALL: [Asked; 5] = [Asked::And, Asked::Or, Asked::Xor, Asked::Not, Asked::Ite];

impl Asked {
    /// What it makes of lists of truth values.
    fn of_lists(self, a: u64, b: u64, c: u64) -> u64 {
        match self {
            Asked::And => a & b,
            Asked::Or => a | b,
            Asked::Xor => a ^ b,
            Asked::Not => a ^ YES,
            Asked::Ite => (a & b) | ((a ^ YES) & c),
        }
    }
}

/// What it makes of handles.
fn ask(
    kernel: &mut Kernel,
    alloc: Global,
    asked: Asked,
    a: &Handle,
    b: &Handle,
    c: &Handle,
) -> Result<Handle, Refusal>
    requires a_live { IsLive kernel.old a.now }
    requires b_live { IsLive kernel.old b.now }
    requires c_live { IsLive kernel.old c.now }
    ensures gained { IfOk result (GainsHandle kernel.old kernel.new) }
    ensures refused { OnErr result (KeepsHandles kernel.old kernel.new) }
{
    match asked {
        Asked::And => kernel.and(alloc, a, b),
        Asked::Or => kernel.or(alloc, a, b),
        Asked::Xor => kernel.xor(alloc, a, b),
        Asked::Not => kernel.not(alloc, a),
        Asked::Ite => kernel.ite(alloc, a, b, c),
    }
}

/// Three handles of a kernel.
#[derive(Drop)]
struct Trio {
    kernel: Kernel,
    a: Handle,
    b: Handle,
    c: Handle,
    ghost live: { (n : ℕ) → one_on a n + one_on b n + one_on c n ≤ handles_on kernel n },
}

impl Trio {
    /// Three handles on no, of a table of so many variables.
    fn new(alloc: Global, variables: u32, budget: u32) -> Result<Trio, Fail> {
        let mut kernel = Kernel::new(alloc, budget.clamp(16, 65_536))?;
        for _ in 0..variables {
            kernel.add_variable(alloc)?;
        }
        let a = kernel.constant(false)?;
        let b = kernel.constant(false)?;
        let c = kernel.constant(false)?;
        Ok(Trio { kernel, a, b, c })
    }

    /// The handles in turn.
    fn turned(self) -> Trio {
        let Trio { kernel, a, b, c } = self;
        Trio {
            kernel,
            a: b,
            b: c,
            c: a,
        }
    }

    /// With what is asked in place of the third handle, or as before where that is refused.
    fn asking(self, alloc: Global, asked: Asked) -> (Trio, Option<Refusal>) {
        let Trio {
            mut kernel,
            a,
            b,
            c,
        } = self;
        match ask(&mut kernel, alloc, asked, &a, &b, &c) {
            Ok(made) => {
                kernel.release(c);
                let trio = Trio {
                    kernel,
                    a,
                    b,
                    c: made,
                };
                (trio, None)
            }
            Err(refusal) => (Trio { kernel, a, b, c }, Some(refusal)),
        }
    }

    /// With a variable in place of the third handle.
    fn naming(self, alloc: Global, variable: u32) -> Result<Trio, Refusal> {
        let Trio {
            mut kernel,
            a,
            b,
            c,
        } = self;
        let made = literal(&mut kernel, alloc, variable)?;
        kernel.release(c);
        Ok(Trio {
            kernel,
            a,
            b,
            c: made,
        })
    }

    /// With a function of the last variables, so many of them, in place of the third handle.
    fn making(self, alloc: Global, list: u64, variables: u32) -> Result<Trio, Refusal> {
        let Trio {
            mut kernel,
            a,
            b,
            c,
        } = self;
        let made = function(&mut kernel, alloc, list, variables)?;
        kernel.release(c);
        Ok(Trio {
            kernel,
            a,
            b,
            c: made,
        })
    }

    /// Without what nobody holds, or without a kept result.
    fn cleared(self, collect: bool) -> Trio {
        let Trio {
            mut kernel,
            a,
            b,
            c,
        } = self;
        if collect {
            kernel.collect();
        } else {
            kernel.clear_cache();
        }
        Trio { kernel, a, b, c }
    }

    /// The lists of truth values of the handles.
    fn lists(&self, rt: &impl Abort) -> (u64, u64, u64) {
        let a = list_of(rt, &self.kernel, &self.a, 64);
        let b = list_of(rt, &self.kernel, &self.b, 64);
        let c = list_of(rt, &self.kernel, &self.c, 64);
        (a, b, c)
    }

    /// Whether the first handle's value implies that of the second one.
    fn implied(self, alloc: Global) -> (Trio, Option<bool>) {
        let Trio {
            mut kernel,
            a,
            b,
            c,
        } = self;
        let answer = kernel.implies(alloc, &a, &b).ok();
        (Trio { kernel, a, b, c }, answer)
    }
}

/// Makes a function of the last three variables beside the one that the first handle has, and compares what each
/// operation makes of both with what it makes of their lists.
fn expect_all(rt: &impl Abort, alloc: Global, trio: Trio, f: u64, g: u64) -> Result<Trio, Fail> {
    let mut trio = trio.turned().turned().making(alloc, g, 3)?.turned();
    for asked in ALL {
        // The third function goes with the other two; the results are in its place before.
        let h = (f ^ (g << 1) ^ (g >> 3)) & 0xff;
        if asked == Asked::Ite {
            trio = trio.making(alloc, h, 3)?;
        }
        let (made, refusal) = trio.asking(alloc, asked);
        assert!(rt; refusal == None);
        trio = made;
        let list = list_of(rt, &trio.kernel, &trio.c, 8);
        assert!(rt;
            list == asked.of_lists(f, g, h) & 0xff,
            "{asked:?} {f} {g} {h}"
        );
    }
    let (made, answer) = trio.implied(alloc);
    assert!(rt; answer == Some(f & (g ^ 0xff) == 0));
    Ok(made)
}

#[test]
fn all_functions_of_three_variables_are_combined(rt: HostRuntime) -> Result<(), Fail> {
    let alloc = rt.alloc();
    let mut trio = Trio::new(alloc, VARIABLES, 4_096)?;
    for f in 0u64..256 {
        trio = trio.making(alloc, f, 3)?.turned().turned();
        for g in 0u64..256 {
            trio = expect_all(&rt, alloc, trio, f, g)?;
            // What is kept, and what is there already, is another thing at each pair.
            if (f ^ g) % 7 == 0 {
                trio = trio.cleared(g % 2 == 0);
            }
        }
    }
    Ok(())
}

/// What a number chooses, or nothing.
fn chosen(seed: u32) -> Option<Asked> {
    match (seed >> 8) & 15 {
        0..=1 => Some(Asked::And),
        2..=3 => Some(Asked::Or),
        4..=6 => Some(Asked::Xor),
        7 => Some(Asked::Not),
        8..=11 => Some(Asked::Ite),
        _ => None,
    }
}

/// One call of a sequence, then the handles in turn.
fn step(rt: &impl Abort, alloc: Global, trio: Trio, seed: u32) -> Result<Trio, Fail> {
    let (a, b, c) = trio.lists(rt);
    let (after, list) = match chosen(seed) {
        Some(asked) => {
            let (after, refusal) = trio.asking(alloc, asked);
            assert!(rt; refusal == None);
            (after, asked.of_lists(a, b, c))
        }
        None => {
            let variable = (seed >> 16) % VARIABLES;
            (trio.naming(alloc, variable)?, LISTS[variable as usize])
        }
    };
    assert!(rt; after.lists(rt) == (a, b, list));
    Ok(after.turned())
}

#[test]
fn random_sequences_of_calls_give_the_lists_of_truth_values(rt: HostRuntime) -> Result<(), Fail> {
    let alloc = rt.alloc();
    let mut trio = Trio::new(alloc, VARIABLES, 256)?;
    let mut seed = 1u32;
    for _ in 0u32..100_000 {
        seed = next(seed);
        trio = step(&rt, alloc, trio, seed)?;
        if seed % 64 == 0 {
            trio = trio.cleared(seed % 128 == 0);
        }
    }
    Ok(())
}

/// Three random functions of the last variables, so many of them.
fn filled(alloc: Global, trio: Trio, variables: u32, seed: u32) -> Result<Trio, Refusal> {
    let mut trio = trio;
    let mut seed = seed;
    for _ in 0u32..3 {
        let half = next(seed);
        seed = next(half);
        let list = (half as u64) << 32 | seed as u64;
        trio = trio.making(alloc, list, variables)?.turned();
    }
    Ok(trio)
}

/// Whether an operation is refused beside three random functions; the values of all handles are as they were then.
fn is_refused(
    rt: &impl Abort,
    alloc: Global,
    budget: u32,
    asked: Asked,
    seed: u32,
) -> Result<bool, Fail> {
    let variables = match budget {
        0..=25 => 4,
        26..=41 => 5,
        _ => 6,
    };
    let trio = Trio::new(alloc, VARIABLES, budget)?;
    let Ok(trio) = filled(alloc, trio, variables, seed) else {
        return Ok(false);
    };
    let (a, b, c) = trio.lists(rt);
    let (after, refusal) = trio.asking(alloc, asked);
    match refusal {
        None => {
            assert!(rt; after.lists(rt) == (a, b, asked.of_lists(a, b, c)));
            Ok(false)
        }
        Some(_) => {
            assert!(rt; after.lists(rt) == (a, b, c));
            assert!(rt; after.kernel.nodes() == budget);
            Ok(true)
        }
    }
}

#[test]
fn each_operation_is_refused_where_the_table_is_full(rt: HostRuntime) -> Result<(), Fail> {
    for asked in ALL {
        let mut count = 0u32;
        for budget in 16u32..65 {
            for number in 0u32..20 {
                let seed = budget.saturating_add(number.saturating_mul(1000));
                if is_refused(&rt, rt.alloc(), budget, asked, seed)? {
                    count = count.saturating_add(1);
                }
            }
        }
        assert!(rt; count > 100, "{asked:?} {count}");
    }
    Ok(())
}

/// The process of a test has the usual 8 MiB of stack, of which this takes less than one.
#[test]
fn operations_go_down_4096_levels(rt: HostRuntime) -> Result<(), Fail> {
    let alloc = rt.alloc();
    let mut trio = Trio::new(alloc, 4096, 65_536)?;
    trio = trio.naming(alloc, 4094)?.turned();
    for from_end in 0u32..4094 {
        // The conjunction so far is the second handle.
        trio = trio.naming(alloc, 4093 - from_end)?.turned();
        let (after, refusal) = trio.asking(alloc, Asked::And);
        assert!(rt; refusal == None);
        trio = after.turned();
    }
    // In turn it is the first one, over all variables but the last, which is the second.
    trio = trio.naming(alloc, 4095)?.turned().cleared(true);
    for asked in ALL {
        let (after, refusal) = trio.asking(alloc, asked);
        assert!(rt; refusal == None);
        trio = after;
    }
    let (mut after, answer) = trio.implied(alloc);
    assert!(rt; answer == Some(false));
    assert!(rt; after.kernel.add_variable(alloc) == Err(AddRefusal::TooManyVariables));
    Ok(())
}

#[test]
fn held_nodes_stay_until_all_are_released(rt: HostRuntime) -> Result<(), Fail> {
    let alloc = rt.alloc();
    let mut kernel = Kernel::new(alloc, 16)?;
    kernel.add_variable(alloc)?;
    let x = literal(&mut kernel, alloc, 0)?;
    let node = kernel.node_of(&x);
    let again = kernel.hold(node)?;
    kernel.release(x);
    assert!(rt; kernel.collect() == 0);
    let mut handles = Vec::new(alloc);
    handles.push(again)?;
    kernel.release_all(handles);
    assert!(rt; kernel.collect() == 1);
    assert!(rt; kernel.nodes() == 0);
    Ok(())
}
