//! The tokens of a text.
ghost use Rattle.std.specs.Prelude.{IfOk};
ghost use Rattle.uvl_lexer.specs.TokenList.{IsTokenList};

use std::alloc::Global;
use std::test::Fail;
use uvl_base::MOST_FILE_BYTES;
use uvl_lexer::{Token, lex};

/// In front of a rule in line 4.
pub const FRONT: (&str, usize) = ("features\n\tA\nconstraints\n\t", 1);

/// The tokens of a text.
pub fn tokens_of(alloc: Global, text: &str) -> Result<Vec<Token>, Fail>
    ensures { IfOk result (λ tokens. IsTokenList tokens.items) }
{
    if text.len() > MOST_FILE_BYTES {
        return Err(Fail::from("the text is too long"));
    }
    Ok(lex(alloc, text)?)
}
