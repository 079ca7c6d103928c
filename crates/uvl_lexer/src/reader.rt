//! The reader of a text: the tokens so far, and what the next ones depend on.
ghost use Rattle.std.specs.Prelude.{◌≡◌, ◌+◌, ◌≤◌, [], ◌∷◌, ◌&&◌, not, true, false, IfErr, IfSome, OnOk, Ok, None, IsTrue, length, chars};
ghost use Rattle.uvl_base.specs.Limits.{most_file_bytes};
ghost use Rattle.uvl_base.specs.Number.{is_number};
ghost use Rattle.uvl_lexer.specs.Cut.{Begins, cut, comment_onto, piece_onto};
ghost use Rattle.uvl_lexer.specs.Forms.{HasForm, HasTokenForm};
ghost use Rattle.uvl_lexer.specs.Indentations.{kept_by};
ghost use Rattle.uvl_lexer.specs.Layout as spec;
ghost use Rattle.uvl_lexer.specs.Layout.{is_break, ends_line_at};
ghost use Rattle.uvl_lexer.specs.Pieces.{piece_at};
ghost use Rattle.uvl_lexer.specs.Positions.{place_of, IsSound};
ghost use Rattle.uvl_lexer.specs.steps.Reading.{read_on, may_begin_at, layout_at, dedents_at, indentations_at, refusal_at, tokens_at, newline_behind, lexeme_onto, Puts, BeginsLine, Reads, StopsAs, StopsIn, Stands, Refuses, comment_piece, comment_piece_at};
ghost use Rattle.uvl_lexer.specs.steps.Spellings.{IsBlank};
ghost use Rattle.uvl_lexer.specs.steps.Turns.{newline_at};

use crate::brackets::{Brackets, Role, role_of};
use crate::characters::{CharacterClass, begins_with, count_while, split_at_count, split_first};
use crate::fault::LexFault;
use crate::indentations::Indentations;
use crate::piece::{Lexeme, PieceKind};
use crate::position::Position;
use crate::spelling::{is_too_wide, token_of};
use crate::token::{Symbol, Token, TokenKind};
use std::alloc::Global;
use uvl_base::FaultKind;

/// The reader of a text.
#[derive(Debug, Drop)]
pub(crate) struct Reader {
    /// The tokens so far.
    pub(crate) tokens: Vec<Token>,
    pub(crate) indentations: Indentations,
    pub(crate) brackets: Brackets,
    /// Whether the line has a token already.
    pub(crate) begun: bool,
    pub(crate) position: Position,
}

impl Reader {
    /// A reader at the front of a text, behind its byte order mark.
    pub(crate) fn new(alloc: Global, position: Position) -> Reader
        ensures tokens { result.tokens.items ≡ [] }
        ensures indentations { result.indentations ≡ [] }
        ensures brackets { result.brackets ≡ [] }
        ensures begun { result.begun ≡ false }
        ensures position { result.position ≡ position }
    {
        Reader {
            tokens: Vec::new(alloc),
            indentations: Indentations::new(alloc),
            brackets: Brackets::new(alloc),
            begun: false,
            position,
        }
    }

    /// Appends a token without bytes where the reader stands: a layout token, or the end of the text.
    fn put_unspelled(&mut self, kind: TokenKind) -> Result<(), LexFault>
        ensures tokens { OnOk result (Puts self.old self.new (spec.unspelled_at kind self.old.position ∷ [])) }
        ensures others { self.new ≡ record self.old { tokens = self.new.tokens } }
        ensures memory { IfErr result (λ fault. fault ≡ LexFault.OutOfMemory) }
    {
        let place = self.position.place();
        let byte = self.position.byte;
        self.put(Token {
            kind,
            place,
            from: byte,
            to: byte,
        })
    }

    fn put(&mut self, token: Token) -> Result<(), LexFault>
        ensures tokens { OnOk result (Puts self.old self.new (token ∷ [])) }
        ensures others { self.new ≡ record self.old { tokens = self.new.tokens } }
        ensures memory { IfErr result (λ fault. fault ≡ LexFault.OutOfMemory) }
    {
        match self.tokens.push(token) {
            Ok(()) => Ok(()),
            Err(_) => Err(LexFault::OutOfMemory),
        }
    }

    /// Closes the indentations above an indentation, with a Dedent for each.
    fn close_indentations(&mut self, indentation: u32) -> Result<(), LexFault>
        ensures tokens { OnOk result (Puts self.old self.new (dedents_at self.old indentation)) }
        ensures indentations { OnOk result (self.new.indentations ≡ kept_by indentation self.old.indentations) }
        ensures others { self.new ≡ record self.old { tokens = self.new.tokens; indentations = self.new.indentations } }
        ensures memory { IfErr result (λ fault. fault ≡ LexFault.OutOfMemory) }
    {
        while self.indentations.innermost() > indentation {
            self.put_unspelled(TokenKind::Dedent)?;
            self.indentations.close();
        }
        Ok(())
    }

    /// Puts the layout tokens in front of a token, where it is the first of its line.
    fn begin_line(&mut self) -> Result<(), LexFault>
        ensures aligned { OnOk result (may_begin_at self.old ≡ true) }
        ensures tokens { OnOk result (Puts self.old self.new (layout_at self.old)) }
        ensures indentations { OnOk result (self.new.indentations ≡ indentations_at self.old) }
        ensures begun { OnOk result (self.new.begun ≡ true) }
        ensures others { BeginsLine self.old self.new }
        ensures refused { IfErr result (Refuses self.old None) }
    {
        if self.begun {
            return Ok(());
        }
        self.begun = true;
        let indentation = self.position.reach;
        if self.indentations.innermost() < indentation {
            self.put_unspelled(TokenKind::Indent)?;
            self.indentations.open(indentation)?;
            return Ok(());
        }
        self.close_indentations(indentation)?;
        if self.indentations.innermost() != indentation {
            return Err(self.fault(FaultKind::BadIndent));
        }
        Ok(())
    }

    /// A fault where the reader stands.
    fn fault(&self, kind: FaultKind) -> LexFault
        ensures { result ≡ LexFault.At (place_of self.now.position) kind }
    {
        LexFault::At {
            place: self.position.place(),
            kind,
        }
    }

    /// Ends the line at a line break outside brackets.
    fn end_line(&mut self) -> Result<(), LexFault>
        ensures tokens { OnOk result (Puts self.old self.new (newline_at self.old.begun self.old.position)) }
        ensures begun { OnOk result (self.new.begun ≡ false) }
        ensures others { self.new ≡ record self.old { tokens = self.new.tokens; begun = self.new.begun } }
        ensures memory { IfErr result (λ fault. fault ≡ LexFault.OutOfMemory) }
    {
        if self.begun {
            self.put_unspelled(TokenKind::Newline)?;
            self.begun = false;
        }
        Ok(())
    }

    /// Ends the line where the piece is a line break outside brackets.
    fn end_line_at(&mut self, kind: PieceKind) -> Result<(), LexFault>
        ensures tokens { OnOk result (Puts self.old self.new (newline_behind self.old kind)) }
        ensures begun { OnOk result (self.new.begun ≡ (self.old.begun && not (ends_line_at kind self.old.brackets))) }
        ensures others { self.new ≡ record self.old { tokens = self.new.tokens; begun = self.new.begun } }
        ensures memory { IfErr result (λ fault. fault ≡ LexFault.OutOfMemory) }
    {
        if is_break(kind) && self.brackets.is_empty() {
            self.end_line()
        } else {
            Ok(())
        }
    }

    /// Why a token is refused where it stands.
    fn refusal_of(&self, lexeme: Lexeme, spelling: &str) -> Option<FaultKind>
        requires { HasTokenForm lexeme (chars spelling.now) }
        ensures { result ≡ spec.refusal_of lexeme (chars spelling.now) self.now.brackets }
    {
        match lexeme {
            Lexeme::Number => refusal_of_number(spelling),
            Lexeme::Symbol(symbol) => self.refusal_of_symbol(symbol),
            Lexeme::Identifier | Lexeme::Quoted | Lexeme::Text => None,
        }
    }

    fn refusal_of_symbol(&self, symbol: Symbol) -> Option<FaultKind>
        ensures { result ≡ spec.refusal_of_symbol symbol self.now.brackets }
    {
        let stands = match role_of(symbol) {
            Role::Closes(bracket) => self.brackets.is_innermost(bracket),
            Role::Opens(_) | Role::Neither => true,
        };
        if stands {
            None
        } else {
            Some(FaultKind::Unclosed)
        }
    }

    /// Opens or closes a bracket, where the token is one.
    fn turn_bracket(&mut self, lexeme: Lexeme) -> Result<(), LexFault>
        ensures brackets { OnOk result (self.new.brackets ≡ spec.brackets_behind_token lexeme self.old.brackets) }
        ensures others { self.new ≡ record self.old { brackets = self.new.brackets } }
        ensures memory { IfErr result (λ fault. fault ≡ LexFault.OutOfMemory) }
    {
        let Lexeme::Symbol(symbol) = lexeme else {
            return Ok(());
        };
        match role_of(symbol) {
            Role::Opens(bracket) => self.brackets.open(bracket)?,
            Role::Closes(_) => self.brackets.close(),
            Role::Neither => {}
        }
        Ok(())
    }

    /// Takes a token that ends at a position, of so many characters.
    fn take_token(
        &mut self,
        alloc: Global,
        lexeme: Lexeme,
        spelling: &str,
        count: usize,
        after: Position,
    ) -> Result<(), LexFault>
        requires count { count ≡ length (chars spelling.now) }
        requires spelled { HasTokenForm lexeme (chars spelling.now) }
        ensures stands { OnOk result (Stands self.old (refusal_at self.old lexeme (chars spelling.now))) }
        ensures tokens { OnOk result (Puts self.old self.new (tokens_at self.old lexeme (chars spelling.now) after)) }
        ensures indentations { OnOk result (self.new.indentations ≡ indentations_at self.old) }
        ensures brackets { OnOk result (self.new.brackets ≡ spec.brackets_behind_token lexeme self.old.brackets) }
        ensures begun { OnOk result (self.new.begun ≡ true) }
        ensures position { self.new.position ≡ self.old.position }
        ensures refused { IfErr result (Refuses self.old (refusal_at self.old lexeme (chars spelling.now))) }
    {
        self.begin_line()?;
        if let Some(kind) = self.refusal_of(lexeme, spelling) {
            return Err(self.fault(kind));
        }
        let kind = token_of(alloc, lexeme, spelling, count)?;
        self.put(Token {
            kind,
            place: self.position.place(),
            from: self.position.byte,
            to: after.byte,
        })?;
        self.turn_bracket(lexeme)
    }

    /// Takes a token.
    fn take_lexeme(
        &mut self,
        alloc: Global,
        lexeme: Lexeme,
        count: usize,
        spelling: &str,
    ) -> Result<(), LexFault>
        requires sound { IsSound self.old.position }
        requires room { self.old.position.byte + length spelling.now ≤ most_file_bytes }
        requires count { count ≡ length (chars spelling.now) }
        requires some { 1 ≤ count }
        requires spelled { HasTokenForm lexeme (chars spelling.now) }
        ensures read { OnOk result (Reads self.old self.new (lexeme_onto lexeme (chars spelling.now))) }
        ensures refused { IfErr result (StopsIn self.old (lexeme_onto lexeme (chars spelling.now))) }
        ensures sound { OnOk result (IsSound self.new.position) }
        ensures byte { OnOk result (self.new.position.byte ≡ self.old.position.byte + length spelling.now) }
    {
        let size = spelling.len() as u32;
        let after = self
            .position
            .behind(PieceKind::Lexeme(lexeme), count as u32, size);
        self.take_token(alloc, lexeme, spelling, count, after)?;
        self.position = after;
        Ok(())
    }

    /// Takes a space, a tab or a line break.
    fn take_blank(&mut self, kind: PieceKind, count: usize, spelling: &str) -> Result<(), LexFault>
        requires sound { IsSound self.old.position }
        requires room { self.old.position.byte + length spelling.now ≤ most_file_bytes }
        requires count { count ≡ length (chars spelling.now) }
        requires some { 1 ≤ count }
        requires blank { IsBlank kind }
        ensures read { OnOk result (Reads self.old self.new (λ rest. Begins kind (chars spelling.now) rest)) }
        ensures memory { IfErr result (λ fault. fault ≡ LexFault.OutOfMemory) }
        ensures sound { OnOk result (IsSound self.new.position) }
        ensures byte { OnOk result (self.new.position.byte ≡ self.old.position.byte + length spelling.now) }
    {
        let size = spelling.len() as u32;
        let after = self.position.behind(kind, count as u32, size);
        self.end_line_at(kind)?;
        self.position = after;
        Ok(())
    }

    /// Takes a comment: its characters count as spaces, and its line breaks stay line breaks.
    fn take_comment(&mut self, comment: &str) -> Result<(), LexFault>
        requires sound { IsSound self.old.position }
        requires room { self.old.position.byte + length comment.now ≤ most_file_bytes }
        ensures read { OnOk result (Reads self.old self.new (comment_onto (chars comment.now))) }
        ensures memory { IfErr result (λ fault. fault ≡ LexFault.OutOfMemory) }
        ensures sound { OnOk result (IsSound self.new.position) }
        ensures byte { OnOk result (self.new.position.byte ≡ self.old.position.byte + length comment.now) }
    {
        let mut rest = comment;
        while let Some(piece) = comment_piece_at(rest) {
            let (front, after) = split_at_count(rest, piece.1);
            self.take_blank(piece.0, piece.1, front)?;
            rest = after;
        }
        Ok(())
    }

    /// Takes a piece.
    pub(crate) fn take(
        &mut self,
        alloc: Global,
        kind: PieceKind,
        count: usize,
        spelling: &str,
    ) -> Result<(), LexFault>
        requires sound { IsSound self.old.position }
        requires room { self.old.position.byte + length spelling.now ≤ most_file_bytes }
        requires count { count ≡ length (chars spelling.now) }
        requires some { 1 ≤ count }
        requires spelled { HasForm kind (chars spelling.now) }
        ensures read { OnOk result (Reads self.old self.new (piece_onto kind (chars spelling.now))) }
        ensures refused { IfErr result (StopsIn self.old (piece_onto kind (chars spelling.now))) }
        ensures sound { OnOk result (IsSound self.new.position) }
        ensures byte { OnOk result (self.new.position.byte ≡ self.old.position.byte + length spelling.now) }
    {
        match kind {
            PieceKind::Lexeme(lexeme) => self.take_lexeme(alloc, lexeme, count, spelling),
            PieceKind::Comment => self.take_comment(spelling),
            PieceKind::Space => self.take_blank(PieceKind::Space, count, spelling),
            PieceKind::Tab => self.take_blank(PieceKind::Tab, count, spelling),
            PieceKind::Break => self.take_blank(PieceKind::Break, count, spelling),
        }
    }

    /// Ends the reading where no piece begins: at the end of the text, or in front of what can't be
    /// read.
    pub(crate) fn end(&mut self, rest: &str) -> Result<(), LexFault>
        requires { piece_at (chars rest.now) ≡ None }
        ensures read { OnOk result (read_on self.old (cut (chars rest.now)) ≡ Ok self.new.tokens.items) }
        ensures refused { IfErr result (StopsAs (read_on self.old (cut (chars rest.now)))) }
    {
        if let Some(parts) = split_first(rest) {
            return Err(self.fault(fault_at(parts.0, parts.1)));
        }
        if !self.brackets.is_empty() {
            return Err(self.fault(FaultKind::Unclosed));
        }
        self.end_line()?;
        self.close_indentations(0)?;
        self.put_unspelled(TokenKind::Finish)?;
        Ok(())
    }

    /// The tokens so far.
    pub(crate) fn into_tokens(self) -> Vec<Token>
        ensures { result.items ≡ self.tokens.items }
    {
        let Reader {
            tokens,
            indentations: _,
            brackets: _,
            begun: _,
            position: _,
        } = self;
        tokens
    }
}

/// What is wrong where no piece begins.
fn fault_at(first: char, rest: &str) -> FaultKind
    ensures { result ≡ spec.fault_at (first ∷ chars rest.now) }
{
    match first {
        '"' => {
            if begins_with(rest, '"') {
                FaultKind::BadCharacter
            } else {
                FaultKind::Unclosed
            }
        }
        '\'' | '/' => FaultKind::Unclosed,
        _ => FaultKind::BadCharacter,
    }
}

/// How the front of a comment is counted: as many spaces as there are characters in front of an LF
/// or a CR, or that one.
fn comment_piece_at(text: &str) -> Option<(PieceKind, usize)>
    ensures piece { result ≡ comment_piece_at (chars text.now) }
    ensures within { IfSome result (λ piece. (1 ≤ piece.1) × (piece.1 ≤ length (chars text.now))) }
    ensures blank { IfSome result (λ piece. IsBlank piece.0) }
{
    let Some(parts) = split_first(text) else {
        return None;
    };
    let spaces = count_while(text, CharacterClass::InLine);
    if spaces == 0 {
        Some(comment_piece(parts.0, parts.1))
    } else {
        Some((PieceKind::Space, spaces))
    }
}

/// How a character of a comment is counted: as a line break where a line ends there, else as a
/// space.
fn comment_piece(first: char, rest: &str) -> (PieceKind, usize)
    ensures piece { result ≡ comment_piece first (chars rest.now) }
    ensures within { (1 ≤ result.1) × (result.1 ≤ length (chars rest.now) + 1) }
    ensures blank { IsBlank result.0 }
{
    if first == '\n' {
        (PieceKind::Break, 1)
    } else if first == '\r' && begins_with(rest, '\n') {
        (PieceKind::Break, 2)
    } else {
        (PieceKind::Space, 1)
    }
}

fn is_break(kind: PieceKind) -> bool
    ensures { result ≡ is_break kind }
{
    matches!(kind, PieceKind::Break)
}

fn refusal_of_number(spelling: &str) -> Option<FaultKind>
    requires { IsTrue (is_number spelling.now) }
    ensures { result ≡ spec.refusal_of_number spelling.now }
{
    if is_too_wide(spelling) {
        Some(FaultKind::NumberTooWide)
    } else {
        None
    }
}
