//! The operators, by how strongly they bind.
ghost use Rattle.std.specs.Prelude.{◌≡◌};
ghost use Rattle.std.specs.Option.{option_map};
ghost use Rattle.std.specs.Result.{result_ok};
ghost use Rattle.uvl_lexer.specs.declared.token.TokenKind.TheVariants as token;
ghost use Rattle.uvl_grammar.specs.Expressions.{comparison_operator};
ghost use Rattle.uvl_grammar.specs.steps.Reading.{accept};
ghost use Rattle.uvl_parser.specs.steps.Operators.{precedences, operator_on, Splits};

use uvl_ast::BinOp;
use uvl_base::Place;
use uvl_lexer::{Symbol, Token, TokenKind};

/// The precedences of the operators that may follow one another, from the least binding one. Between
/// `And` and `Sum` stand `!` and the comparisons, which do not.
#[derive(Clone, Copy, Debug, PartialEq, Eq)]
pub(crate) enum Precedence {
    /// `<=>`
    Iff,
    /// `=>`
    Implies,
    /// `|`
    Or,
    /// `&`
    And,
    /// `+` and `-`
    Sum,
    /// `*`
    Product,
}

impl Precedence {
    ghost use Rattle.std.specs.Prelude.{◌≡◌, ◌↔◌, IsTrue};
    ghost use Rattle.uvl_parser.specs.steps.Operators.{tightest, IsBetween};

    /// The precedence of the same kind that binds most: `And` for truths, `Product` for numbers.
    pub(crate) fn tightest(self) -> Precedence
        ensures { result ≡ tightest self }
    {
        match self {
            Precedence::Sum | Precedence::Product => Precedence::Product,
            _ => Precedence::And,
        }
    }

    /// Whether operators of this precedence bind no less than those of `least`, and no more than those of
    /// `most`.
    fn is_between(self, least: Precedence, most: Precedence) -> bool
        ensures { IsTrue result ↔ IsBetween least most self }
    {
        least as u8 <= self as u8 && self as u8 <= most as u8
    }
}

/// The operator that a symbol is, and its precedence, if it is one that may follow another.
fn operator_of_symbol(symbol: Symbol) -> Option<(BinOp, Precedence)>
    ensures { result ≡ operator_on precedences (token.Symbol symbol) }
{
    match symbol {
        Symbol::Iff => Some((BinOp::Iff, Precedence::Iff)),
        Symbol::Implies => Some((BinOp::Implies, Precedence::Implies)),
        Symbol::Bar => Some((BinOp::Or, Precedence::Or)),
        Symbol::Amp => Some((BinOp::And, Precedence::And)),
        Symbol::Plus => Some((BinOp::Plus, Precedence::Sum)),
        Symbol::Minus => Some((BinOp::Minus, Precedence::Sum)),
        Symbol::Star => Some((BinOp::Times, Precedence::Product)),
        _ => None,
    }
}

/// The comparison that a symbol is, if it is one.
fn comparison_of_symbol(symbol: Symbol) -> Option<BinOp>
    ensures { result ≡ comparison_operator (token.Symbol symbol) }
{
    match symbol {
        Symbol::Equal => Some(BinOp::Equal),
        Symbol::Differs => Some(BinOp::Differs),
        Symbol::Less => Some(BinOp::Less),
        Symbol::AtMost => Some(BinOp::AtMost),
        Symbol::Greater => Some(BinOp::Greater),
        Symbol::AtLeast => Some(BinOp::AtLeast),
        _ => None,
    }
}

fn operator_of(kind: &TokenKind) -> Option<(BinOp, Precedence)>
    ensures { result ≡ operator_on precedences kind.now }
{
    match kind {
        TokenKind::Symbol(symbol) => operator_of_symbol(*symbol),
        _ => None,
    }
}

fn comparison_of(kind: &TokenKind) -> Option<BinOp>
    ensures { result ≡ comparison_operator kind.now }
{
    match kind {
        TokenKind::Symbol(symbol) => comparison_of_symbol(*symbol),
        _ => None,
    }
}

/// The operator of a precedence from `least` to `most` at the front, its precedence, where it stands, and what
/// is behind it.
pub(crate) fn split_operator(
    least: Precedence,
    most: Precedence,
    tokens: &[Token],
) -> Option<(BinOp, Precedence, Place, &[Token])>
    ensures { Splits least most tokens.now (option_map (λ o. (o.0, o.1, o.2, o.3.now)) result) }
{
    let (first, rest) = tokens.split_first()?;
    let (operator, precedence) = operator_of(&first.kind)?;
    if precedence.is_between(least, most) {
        Some((operator, precedence, first.place, rest))
    } else {
        None
    }
}

/// The comparison at the front, where it stands, and what is behind it.
#[tactic(auto, unfolding(uvl_grammar::specs::steps::Reading::accept))]
pub(crate) fn split_comparison(tokens: &[Token]) -> Option<(BinOp, Place, &[Token])>
    ensures { option_map (λ o. ((o.0, o.1), o.2.now)) result ≡ result_ok (accept comparison_operator tokens.now) }
{
    let (first, rest) = tokens.split_first()?;
    let operator = comparison_of(&first.kind)?;
    Some((operator, first.place, rest))
}
