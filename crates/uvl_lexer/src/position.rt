//! Where the reading of a text stands.
ghost use Rattle.std.specs.Prelude.{◌≡◌, ◌+◌, ◌≤◌};
ghost use Rattle.uvl_base.specs.Limits.{most_file_bytes};
ghost use Rattle.uvl_lexer.specs.Positions as spec;
ghost use Rattle.uvl_lexer.specs.Positions.{IsSound};

use crate::piece::PieceKind;
use uvl_base::Place;

/// Where the reading of a text stands.
#[derive(Clone, Copy, Debug, PartialEq, Eq)]
pub(crate) struct Position {
    /// The byte of the text.
    pub(crate) byte: u32,
    /// The line, from 1.
    pub(crate) line: u32,
    /// The column in characters, from 1.
    pub(crate) column: u32,
    /// The column that an indentation up to here reaches, from 0.
    pub(crate) reach: u32,
}

impl Position {
    /// The front of a text.
    pub(crate) fn start() -> Position
        ensures front { result ≡ spec.start }
        ensures sound { IsSound result }
    {
        Position {
            byte: 0,
            line: 1,
            column: 1,
            reach: 0,
        }
    }

    /// The place, as it is told.
    pub(crate) fn place(self) -> Place
        ensures { result ≡ spec.place_of self }
    {
        Place {
            line: self.line,
            column: self.column,
        }
    }

    /// The position behind a piece of so many characters and bytes.
    pub(crate) fn behind(self, kind: PieceKind, count: u32, size: u32) -> Position
        requires sound { IsSound self }
        requires room { self.byte + size ≤ most_file_bytes }
        requires some { 1 ≤ count }
        requires characters { count ≤ size }
        ensures position { result ≡ spec.behind kind self count size }
        ensures sound { IsSound result }
    {
        let byte = self.byte + size;
        match kind {
            PieceKind::Break => Position {
                byte,
                line: self.line + 1,
                column: 1,
                reach: 0,
            },
            PieceKind::Tab => Position {
                byte,
                line: self.line,
                column: self.column + 1,
                reach: (self.reach / 8 + 1) * 8,
            },
            PieceKind::Space | PieceKind::Comment | PieceKind::Lexeme(_) => Position {
                byte,
                line: self.line,
                column: self.column + count,
                reach: self.reach + count,
            },
        }
    }

    /// The position behind a byte order mark.
    pub(crate) fn behind_mark(self) -> Position
        requires sound { IsSound self }
        requires room { self.byte + 3 ≤ most_file_bytes }
        ensures position { result ≡ spec.behind_mark self }
        ensures sound { IsSound result }
    {
        Position {
            byte: self.byte + 3,
            ..self
        }
    }
}
