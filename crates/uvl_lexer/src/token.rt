//! The tokens of a UVL file.
use uvl_base::{Fixed, Name, Place, Text, Word};

/// A token: what it is, where it stands, and the bytes of the text that spell it.
#[derive(Debug, Drop)]
pub struct Token {
    pub kind: TokenKind,
    pub place: Place,
    /// The byte of the text at which the token begins.
    pub from: u32,
    /// The byte behind its last; a layout token has no bytes.
    pub to: u32,
}

/// What a token is.
#[derive(Debug, Drop)]
pub enum TokenKind {
    /// An identifier, or a name in double quotes.
    Name { name: Name, quoted: bool },
    /// A reserved word that is not quoted.
    Word(Word),
    /// A number without a sign; it is whole where it has no point.
    Number { value: Fixed, whole: bool },
    /// A text in single quotes, without them.
    Text(Text),
    Symbol(Symbol),
    /// A line is indented further than the line in front of it.
    Indent,
    /// A line closes an open indentation.
    Dedent,
    /// The end of a line with a token.
    Newline,
    /// The end of the text.
    Finish,
}

/// The symbols.
#[derive(Clone, Copy, Debug, PartialEq, Eq)]
pub enum Symbol {
    /// `(`
    LeftParen,
    /// `)`
    RightParen,
    /// `[`
    LeftBracket,
    /// `]`
    RightBracket,
    /// `{`
    LeftBrace,
    /// `}`
    RightBrace,
    /// `,`
    Comma,
    /// `.`
    Dot,
    /// `..`
    Dots,
    /// `!`
    Bang,
    /// `&`
    Amp,
    /// `|`
    Bar,
    /// `=>`
    Implies,
    /// `<=>`
    Iff,
    /// `==`
    Equal,
    /// `!=`
    Differs,
    /// `<`
    Less,
    /// `<=`
    AtMost,
    /// `>`
    Greater,
    /// `>=`
    AtLeast,
    /// `+`
    Plus,
    /// `-`
    Minus,
    /// `*`
    Star,
    /// `/`
    Slash,
}
