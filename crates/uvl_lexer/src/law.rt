//! The laws of the lexer. The functions do nothing: what they ensure is the laws.
ghost use Rattle.uvl_lexer.specs.Law.{EachTextIsReadOnce};
ghost use Rattle.uvl_lexer.specs.PieceByPiece.{EachPieceIsTheLongest, EachTextIsCutOnce, TokensAreOfACut, StopsAreOfACut};
ghost use Rattle.uvl_lexer.specs.TokenList.{TokensAreAList};

/// Each text has tokens or stops, and never both, and it has one list of tokens, or stops at one
/// place and for one kind of fault.
pub fn every_text_is_read_once()
    ensures { EachTextIsReadOnce }
{}

/// Each text is cut into pieces in one way: each piece is the longest that begins at its place,
/// and behind the last none begins. The tokens of a text are those of a cut of the whole text, and
/// where a text stops, its cut says so.
pub fn every_text_is_cut_once()
    ensures longest { EachPieceIsTheLongest }
    ensures cut { EachTextIsCutOnce }
    ensures tokens { TokensAreOfACut }
    ensures stops { StopsAreOfACut }
{}

/// The tokens of a text end with the end of the text, which is in front of no other; its numbers
/// aren't negative, and those without a point are whole.
pub fn tokens_are_a_list()
    ensures { TokensAreAList }
{}
