//! What a spelling says.
ghost use Rattle.std.specs.Prelude.{◌≡◌, ◌&&◌, ◌≤◌, true, IfErr, IfOk, IsTrue, false, length, chars, encode_utf8_all, not};
ghost use Rattle.std.specs.List.{list_any};
ghost use Rattle.uvl_base.specs.Name.{is_name};
ghost use Rattle.uvl_base.specs.Number.{is_number, is_too_wide, is_point, millionths_of};
ghost use Rattle.uvl_base.specs.ReservedWords.{word_of};
ghost use Rattle.uvl_lexer.specs.Forms.{HasTokenForm};
ghost use Rattle.uvl_lexer.specs.declared.token.TokenKind.TheVariants as token;
ghost use Rattle.uvl_lexer.specs.Layout as spec;
ghost use Rattle.uvl_lexer.specs.steps.Spellings.{IsReadable};

use crate::characters::split_at_count;
use crate::fault::LexFault;
use crate::piece::Lexeme;
use crate::token::TokenKind;
use std::alloc::Global;
use uvl_base::{Fixed, Name, NameFault, NumberFault, Text, word_of};

/// Whether a number has more digits than the numbers of this project.
pub(crate) fn is_too_wide(spelling: &str) -> bool
    requires { IsTrue (is_number spelling.now) }
    ensures { result ≡ is_too_wide spelling.now }
{
    match Fixed::read(spelling) {
        Ok(_) => false,
        Err(NumberFault::Shape) => unreachable!(),
        Err(NumberFault::TooWide) => true,
    }
}

/// The token that a spelling of so many characters is.
pub(crate) fn token_of(
    alloc: Global,
    lexeme: Lexeme,
    spelling: &str,
    count: usize,
) -> Result<TokenKind, LexFault>
    requires count { count ≡ length (chars spelling.now) }
    requires spelled { HasTokenForm lexeme (chars spelling.now) }
    requires readable { IsReadable lexeme (chars spelling.now) }
    ensures token { IfOk result (λ token. token ≡ spec.token_of lexeme (chars spelling.now)) }
    ensures memory { IfErr result (λ fault. fault ≡ LexFault.OutOfMemory) }
{
    match lexeme {
        Lexeme::Identifier => word_or_name(alloc, spelling),
        Lexeme::Quoted => quoted_name(alloc, inner(spelling, count)),
        Lexeme::Number => Ok(number_of(spelling)),
        Lexeme::Text => text_of(alloc, inner(spelling, count)),
        Lexeme::Symbol(symbol) => Ok(TokenKind::Symbol(symbol)),
    }
}

/// What stands between the quotes.
fn inner(spelling: &str, count: usize) -> &str
    requires count { count ≡ length (chars spelling.now) }
    requires quotes { 2 ≤ count }
    ensures { chars result.now ≡ spec.inner (chars spelling.now) }
{
    let (_, behind) = split_at_count(spelling, 1);
    let (inner, _) = split_at_count(behind, count - 2);
    inner
}

/// An identifier is a name where it is no reserved word.
fn word_or_name(alloc: Global, spelling: &str) -> Result<TokenKind, LexFault>
    requires { IsTrue (is_name (chars spelling.now)) }
    ensures token { IfOk result (λ token. token ≡ spec.word_or_name (word_of spelling.now) (chars spelling.now)) }
    ensures memory { IfErr result (λ fault. fault ≡ LexFault.OutOfMemory) }
{
    match word_of(spelling) {
        Some(word) => Ok(TokenKind::Word(word)),
        None => name_of(alloc, spelling, false),
    }
}

fn quoted_name(alloc: Global, text: &str) -> Result<TokenKind, LexFault>
    requires { IsTrue (is_name (chars text.now)) }
    ensures token { IfOk result (λ made. made ≡ token.Name (chars text.now) true) }
    ensures memory { IfErr result (λ fault. fault ≡ LexFault.OutOfMemory) }
{
    name_of(alloc, text, true)
}

fn name_of(alloc: Global, text: &str, quoted: bool) -> Result<TokenKind, LexFault>
    requires { IsTrue (is_name (chars text.now)) }
    ensures token { IfOk result (λ made. made ≡ token.Name (chars text.now) quoted) }
    ensures memory { IfErr result (λ fault. fault ≡ LexFault.OutOfMemory) }
{
    match Name::new(alloc, text) {
        Ok(name) => Ok(TokenKind::Name { name, quoted }),
        Err(NameFault::BadName) => unreachable!(),
        Err(NameFault::OutOfMemory) => Err(LexFault::OutOfMemory),
    }
}

fn text_of(alloc: Global, text: &str) -> Result<TokenKind, LexFault>
    ensures token { IfOk result (λ made. made ≡ token.Text (chars text.now)) }
    ensures memory { IfErr result (λ fault. fault ≡ LexFault.OutOfMemory) }
{
    match Text::new(alloc, text) {
        Ok(text) => Ok(TokenKind::Text(text)),
        Err(_) => Err(LexFault::OutOfMemory),
    }
}

fn number_of(spelling: &str) -> TokenKind
    requires number { IsTrue (is_number spelling.now) }
    requires readable { is_too_wide spelling.now ≡ false }
    ensures { result ≡ token.Number (millionths_of spelling.now) (not (list_any is_point spelling.now)) }
{
    match Fixed::read(spelling) {
        Ok(value) => TokenKind::Number {
            value,
            whole: !has_point(spelling.as_bytes()),
        },
        Err(_) => unreachable!(),
    }
}

fn has_point(spelling: &[u8]) -> bool
    ensures { result ≡ list_any is_point spelling.now }
{
    spelling.iter().any(|byte| *byte == b'.')
}
