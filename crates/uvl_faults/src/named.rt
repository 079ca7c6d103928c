//! The first token at which a fault with a name of its own is met.
ghost use Rattle.std.specs.Prelude.{ℕ, IfOk, MatchOption};
ghost use Rattle.uvl_faults.specs.Named.{NoneNamed, IsFirstNamed};

use std::alloc::{AllocError, Global};
use uvl_lexer::Token;
use uvl_profile::{Candidate, first_met};

/// The first token at which a named fault is met, or would be if it could stand there.
pub fn first_named(alloc: Global, tokens: &[Token]) -> Result<Option<Candidate>, AllocError>
    ensures { IfOk result (λ found. MatchOption found ((k : ℕ) → NoneNamed tokens.now k) (IsFirstNamed tokens.now)) }
{
    first_met(alloc, tokens)
}
