//! The reserved words of UVL.
ghost use Rattle.std.specs.Prelude.{◌≡◌};
ghost use Rattle.uvl_base.specs.ReservedWords as spec;

/// A reserved word of UVL, which is a name only in double quotes.
#[derive(Clone, Copy, Debug, PartialEq, Eq)]
pub enum Word {
    Namespace,
    Include,
    Imports,
    As,
    Features,
    Constraints,
    Constraint,
    Mandatory,
    Optional,
    Alternative,
    Or,
    Cardinality,
    Sum,
    Avg,
    Len,
    Floor,
    Ceil,
    True,
    False,
    Boolean,
    String,
    Integer,
    Real,
}

/// Calls a macro with each reserved word and its spelling, of which it makes the arms of a `match`.
macro_rules! with_spellings {
    ($arms:ident) => {
        $arms! {
            Namespace "namespace",
            Include "include",
            Imports "imports",
            As "as",
            Features "features",
            Constraints "constraints",
            Constraint "constraint",
            Mandatory "mandatory",
            Optional "optional",
            Alternative "alternative",
            Or "or",
            Cardinality "cardinality",
            Sum "sum",
            Avg "avg",
            Len "len",
            Floor "floor",
            Ceil "ceil",
            True "true",
            False "false",
            Boolean "Boolean",
            String "String",
            Integer "Integer",
            Real "Real",
        }
    };
}

impl Word {
    ghost use Rattle.std.specs.Prelude.{◌≡◌, Some};
    ghost use Rattle.uvl_base.specs.ReservedWords.{characters_of_word, word_of};

    /// The word as it is spelled.
    pub fn text(self) -> &'static str
        ensures spelling { result.now ≡ characters_of_word self }
        ensures read { word_of result.now ≡ Some self }
    {
        macro_rules! spelling {
            ($($word:ident $spelling:literal,)*) => {
                match self {
                    $(Word::$word => $spelling,)*
                }
            };
        }
        with_spellings!(spelling)
    }
}

/// The reserved word that a text is, if it is one.
pub fn word_of(text: &str) -> Option<Word>
    ensures { result ≡ spec.word_of text.now }
{
    macro_rules! word {
        ($($word:ident $spelling:literal,)*) => {
            match text {
                $($spelling => Some(Word::$word),)*
                _ => None,
            }
        };
    }
    with_spellings!(word)
}

/// Whether `text` is a reserved word of UVL, which is a name only in double quotes.
pub fn is_reserved(text: &str) -> bool
    ensures { result ≡ spec.is_reserved text.now }
{
    word_of(text).is_some()
}
