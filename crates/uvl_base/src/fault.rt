//! The faults of a model: what is wrong with a file, and where.
ghost use Rattle.std.specs.Prelude.{◌≡◌};
ghost use Rattle.uvl_base.specs.Fault.{number_of, name_of};

use crate::{Place, Text};
use std::fmt;

/// What is wrong with a file. Each kind has a number and a name of its own, which this project
/// gives it and the program prints.
#[derive(Clone, Copy, Debug, PartialEq, Eq)]
pub enum FaultKind {
    /// E01: there is no such file.
    Absent,
    /// E02: a file, or all files together, pass the limit of bytes.
    TooLong,
    /// E03: the bytes of a file are not UTF-8.
    NotUtf8,
    /// E04: a character begins no token.
    BadCharacter,
    /// E05: a shallower line meets no open indentation.
    BadIndent,
    /// E06: a quote, a comment or a bracket is not closed.
    Unclosed,
    /// E07: a number has more than 12 digits before its point, or more than 6 behind it.
    NumberTooWide,
    /// E08: the tokens spell no file.
    Syntax,
    /// E09: a feature of the type String, Integer or Real.
    TypedFeature,
    /// E10: a feature with a cardinality of its own.
    FeatureCardinality,
    /// E11: the word `avg`.
    Average,
    /// E12: an operation that this profile of UVL leaves out.
    UnsupportedOperation,
    /// E13: two features of a file have one name.
    DuplicateFeature,
    /// E14: a key stands twice in one list of attributes.
    DuplicateAttribute,
    /// E15: a reference names no feature.
    UnknownFeature,
    /// E16: a feature has no such attribute.
    UnknownAttribute,
    /// E17: a rule has more than 8,192 nodes.
    ExpressionTooLarge,
    /// E18: a Boolean stands where a number is needed, or the other way round.
    WrongSort,
    /// E19: a group's lower bound is above its upper bound.
    BadRange,
    /// E20: a file imports itself, by others perhaps.
    ImportCycle,
    /// E21: imports nest more than 16 deep.
    ImportDepth,
    /// E22: an import is placed a second time.
    PlacedTwice,
    /// E23: a model has more than 2,048 features.
    TooManyFeatures,
    /// E24: features, brackets or `!` nest too deep.
    TooDeep,
    /// E25: a product of two factors neither of which is a number literal.
    NotLinear,
    /// E26: a model has more than 256 files.
    TooManyFiles,
    /// E27: a literal factor is 1,000,000 or more in size.
    FactorTooLarge,
    /// E28: a file has no features section.
    MissingFeatures,
    /// E29: an import's path or qualifier cannot be used.
    BadImportName,
    /// E30: a line that places an import has attributes, rules or groups.
    BodyOnPlacedImport,
    /// E31: a model has too many rules, or too many nodes in them.
    TooManyRules,
    /// E99: the file uses a part of UVL that is not built yet.
    NotBuilt,
}

impl FaultKind {
    /// The number of the kind, which is printed behind an `E`.
    pub fn number(self) -> u8
        ensures { result ≡ number_of self }
    {
        match self {
            FaultKind::Absent => 1,
            FaultKind::TooLong => 2,
            FaultKind::NotUtf8 => 3,
            FaultKind::BadCharacter => 4,
            FaultKind::BadIndent => 5,
            FaultKind::Unclosed => 6,
            FaultKind::NumberTooWide => 7,
            FaultKind::Syntax => 8,
            FaultKind::TypedFeature => 9,
            FaultKind::FeatureCardinality => 10,
            FaultKind::Average => 11,
            FaultKind::UnsupportedOperation => 12,
            FaultKind::DuplicateFeature => 13,
            FaultKind::DuplicateAttribute => 14,
            FaultKind::UnknownFeature => 15,
            FaultKind::UnknownAttribute => 16,
            FaultKind::ExpressionTooLarge => 17,
            FaultKind::WrongSort => 18,
            FaultKind::BadRange => 19,
            FaultKind::ImportCycle => 20,
            FaultKind::ImportDepth => 21,
            FaultKind::PlacedTwice => 22,
            FaultKind::TooManyFeatures => 23,
            FaultKind::TooDeep => 24,
            FaultKind::NotLinear => 25,
            FaultKind::TooManyFiles => 26,
            FaultKind::FactorTooLarge => 27,
            FaultKind::MissingFeatures => 28,
            FaultKind::BadImportName => 29,
            FaultKind::BodyOnPlacedImport => 30,
            FaultKind::TooManyRules => 31,
            FaultKind::NotBuilt => 99,
        }
    }

    /// The name of the kind, in one word.
    pub fn name(self) -> &'static str
        ensures { result.now ≡ name_of self }
    {
        match self {
            FaultKind::Absent => "Absent",
            FaultKind::TooLong => "TooLong",
            FaultKind::NotUtf8 => "NotUtf8",
            FaultKind::BadCharacter => "BadCharacter",
            FaultKind::BadIndent => "BadIndent",
            FaultKind::Unclosed => "Unclosed",
            FaultKind::NumberTooWide => "NumberTooWide",
            FaultKind::Syntax => "Syntax",
            FaultKind::TypedFeature => "TypedFeature",
            FaultKind::FeatureCardinality => "FeatureCardinality",
            FaultKind::Average => "Average",
            FaultKind::UnsupportedOperation => "UnsupportedOperation",
            FaultKind::DuplicateFeature => "DuplicateFeature",
            FaultKind::DuplicateAttribute => "DuplicateAttribute",
            FaultKind::UnknownFeature => "UnknownFeature",
            FaultKind::UnknownAttribute => "UnknownAttribute",
            FaultKind::ExpressionTooLarge => "ExpressionTooLarge",
            FaultKind::WrongSort => "WrongSort",
            FaultKind::BadRange => "BadRange",
            FaultKind::ImportCycle => "ImportCycle",
            FaultKind::ImportDepth => "ImportDepth",
            FaultKind::PlacedTwice => "PlacedTwice",
            FaultKind::TooManyFeatures => "TooManyFeatures",
            FaultKind::TooDeep => "TooDeep",
            FaultKind::NotLinear => "NotLinear",
            FaultKind::TooManyFiles => "TooManyFiles",
            FaultKind::FactorTooLarge => "FactorTooLarge",
            FaultKind::MissingFeatures => "MissingFeatures",
            FaultKind::BadImportName => "BadImportName",
            FaultKind::BodyOnPlacedImport => "BodyOnPlacedImport",
            FaultKind::TooManyRules => "TooManyRules",
            FaultKind::NotBuilt => "NotBuilt",
        }
    }
}

/// Prints as `E15 UnknownFeature`.
impl fmt::Display for FaultKind {
    ghost use Rattle.std.specs.Prelude.{Some};
    ghost use Rattle.uvl_base.specs.Fault.{kind_text};

    ghost output = { λ k. Some (kind_text k) };

    #[tactic(auto, unfolding(crate::specs::Fault::kind_text))]
    fn fmt<W: fmt::Write>(&self, f: &mut fmt::Formatter<W>) -> fmt::Result {
        let number = self.number();
        let tens = number / 10;
        let ones = number % 10;
        let name = self.name();
        write!(f, "E{tens}{ones} {name}")
    }
}

/// A fault of a model: the file that has it, the place in that file, and the kind.
#[derive(Debug, Drop)]
pub struct ModelFault {
    /// The path of the file.
    pub file: Text,
    pub place: Place,
    pub kind: FaultKind,
}

/// Prints as `m.uvl:4:2 E15 UnknownFeature`.
impl fmt::Display for ModelFault {
    ghost use Rattle.std.specs.Prelude.{Some};
    ghost use Rattle.uvl_base.specs.Fault.{fault_text};

    ghost output = { λ x. Some (fault_text x) };

    #[tactic(auto, unfolding(crate::specs::Fault::fault_text))]
    fn fmt<W: fmt::Write>(&self, f: &mut fmt::Formatter<W>) -> fmt::Result {
        let file = self.file.text();
        let line = self.place.line;
        let column = self.place.column;
        let kind = self.kind;
        write!(f, "{file}:{line}:{column} {kind}")
    }
}
