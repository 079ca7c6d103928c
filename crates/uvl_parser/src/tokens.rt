//! The readers of one token, and tests of the first one.
ghost use Rattle.std.specs.Prelude.{◌≡◌, Ok, Err};
ghost use Rattle.uvl_grammar.specs.Tokens.{name_of};
ghost use Rattle.uvl_grammar.specs.steps.Tests.{Test, is_word, is_symbol, stays, begins};
ghost use Rattle.uvl_grammar.specs.steps.Reading.{one, accept};
ghost use Rattle.uvl_parser.specs.steps.Gives.{Gives};
ghost use Rattle.uvl_parser.specs.steps.LayoutTokens.{is_layout};

use crate::layout::Layout;
use crate::reading::Stop;
use uvl_base::{Name, Place};
use uvl_lexer::{Symbol, Token, TokenKind, Word};

/// What may be asked of a token: that it is this symbol, this reserved word or this layout token.
pub(crate) trait TokenTest: Copy {
    /// Which tokens pass.
    ghost test: { Self → Test };

    /// Whether a token passes.
    fn passes(self, kind: &TokenKind) -> bool
        ensures { result ≡ test self kind.now };
}

impl TokenTest for Symbol {
    ghost test = { is_symbol };

    fn passes(self, kind: &TokenKind) -> bool {
        kind.is_symbol(self)
    }
}

impl TokenTest for Word {
    ghost test = { is_word };

    fn passes(self, kind: &TokenKind) -> bool {
        kind.is_word(self)
    }
}

impl TokenTest for Layout {
    ghost test = { is_layout };

    fn passes(self, kind: &TokenKind) -> bool {
        match self {
            Layout::Newline => kind.is_newline(),
            Layout::Indent => kind.is_indent(),
            Layout::Dedent => kind.is_dedent(),
            Layout::Finish => kind.is_finish(),
        }
    }
}

/// That an indentation goes on: what any token but the one that closes it passes.
#[derive(Clone, Copy)]
pub(crate) struct Stays;

impl TokenTest for Stays {
    ghost test = { λ _. stays };

    fn passes(self, kind: &TokenKind) -> bool {
        !kind.is_dedent()
    }
}

/// Whether there is a first token that passes.
pub(crate) fn begins_with<W: TokenTest>(tokens: &[Token], wanted: W) -> bool
    ensures { result ≡ begins (W.test wanted) tokens.now }
{
    match tokens.split_first() {
        Some((token, _)) => wanted.passes(&token.kind),
        None => false,
    }
}

/// Reads a token that passes: its place, and what is behind it.
#[tactic(auto, unfolding(uvl_grammar::specs::steps::Reading::one))]
pub(crate) fn token<W: TokenTest>(tokens: &[Token], wanted: W) -> Result<(Place, &[Token]), Stop>
    ensures { Gives (λ r. (r.0, r.1.now)) result (one (W.test wanted) tokens.now) }
{
    let Some((token, rest)) = tokens.split_first() else {
        return Err(Stop::Stuck { left: 0 });
    };
    if wanted.passes(&token.kind) {
        Ok((token.place, rest))
    } else {
        Err(Stop::Stuck { left: tokens.len() })
    }
}

/// Reads a name.
#[tactic(auto, unfolding(uvl_grammar::specs::steps::Reading::accept))]
pub(crate) fn name(tokens: &[Token]) -> Result<(&Name, Place, &[Token]), Stop>
    ensures { Gives (λ r. ((r.0.now, r.1), r.2.now)) result (accept name_of tokens.now) }
{
    let Some((token, rest)) = tokens.split_first() else {
        return Err(Stop::Stuck { left: 0 });
    };
    match &token.kind {
        TokenKind::Name { name, .. } => Ok((name, token.place, rest)),
        _ => Err(Stop::Stuck { left: tokens.len() }),
    }
}
