//! How deep brackets and `!` nest at a place in a line.
ghost use Rattle.std.specs.Prelude.{◌≡◌, ◌+◌, ◌<◌, ◌^◌, ◌==◌, length, reverse};
ghost use Rattle.uvl_profile.specs.steps.Depth.{depth_around};

use crate::kinds::{closes_bracket, ends_operand, opens_bracket};
use std::alloc::{AllocError, Global};
use uvl_lexer::{Symbol, TokenKind};

/// The brackets that stand open in a line, and the `!` that apply to what follows.
#[derive(Debug, Drop)]
pub(crate) struct Nesting {
    /// Of each open bracket, the outermost first, how many `!` apply to it that stand in the same
    /// brackets.
    pub(crate) around: Vec<usize>,
    /// How many apply to what follows that stand inside the innermost open bracket.
    pub(crate) inside: usize,
    /// The open brackets, and all `!` that apply.
    pub(crate) depth: usize,
    ghost counted: { depth ≡ inside + depth_around (reverse around.items) },
}

impl Nesting {
    ghost use Rattle.std.specs.Prelude.{[], ◌∷◌, OnOk};
    ghost use Rattle.uvl_profile.specs.steps.Scan.{scopes_kept, scopes_behind, outer_scopes};

    /// At the front of a line.
    pub(crate) fn new(alloc: Global) -> Nesting
        ensures { scopes_kept result ≡ 0 ∷ [] }
    {
        Nesting {
            around: Vec::new(alloc),
            inside: 0,
            depth: 0,
        }
    }

    /// Whether what follows stands outside brackets.
    pub(crate) fn is_outside(&self) -> bool
        ensures { result ≡ (length self.now.around.items == 0) }
    {
        self.around.as_slice().is_empty()
    }

    /// Goes on to the next line.
    pub(crate) fn end_line(&mut self)
        ensures { scopes_kept self.new ≡ 0 ∷ [] }
    {
        self.around.clear();
        self.inside = 0;
        self.depth = 0;
    }

    /// Takes a token of the line.
    pub(crate) fn take(&mut self, kind: &TokenKind) -> Result<(), AllocError>
        requires { self.old.depth + 1 < 2 ^ 64 }
        ensures { OnOk result (scopes_kept self.new ≡ scopes_behind (scopes_kept self.old) kind.now) }
    {
        if opens_bracket(kind) {
            self.open()?;
        } else if closes_bracket(kind) {
            self.close();
        } else if ends_operand(kind) {
            self.end_operand();
        } else if kind.is_symbol(Symbol::Bang) {
            self.inside += 1;
            self.depth += 1;
        }
        Ok(())
    }

    #[tactic(auto, using(crate::proofs::Fronts::reverse_last))]
    fn open(&mut self) -> Result<(), AllocError>
        requires { self.old.depth + 1 < 2 ^ 64 }
        ensures { OnOk result (scopes_kept self.new ≡ 0 ∷ scopes_kept self.old) }
    {
        self.around.push(self.inside)?;
        self.inside = 0;
        self.depth += 1;
        Ok(())
    }

    #[tactic(auto, using(crate::proofs::Fronts::reverse_last))]
    /// Closes the innermost bracket, if there is one; what applies inside it doesn't outside.
    fn close(&mut self)
        ensures { scopes_kept self.new ≡ outer_scopes (reverse self.old.around.items) }
    {
        match self.around.pop() {
            Some(around) => {
                self.depth -= self.inside + 1;
                self.inside = around;
            }
            None => {
                self.depth = 0;
                self.inside = 0;
            }
        }
    }

    fn end_operand(&mut self)
        ensures { scopes_kept self.new ≡ 0 ∷ reverse self.old.around.items }
    {
        self.depth -= self.inside;
        self.inside = 0;
    }
}
