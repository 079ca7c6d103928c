//! Sections of a file, as the tokens in front of a place tell them.
ghost use Rattle.std.specs.Prelude.{◌≡◌, ◌+◌, ◌<◌, ◌^◌};
ghost use Rattle.uvl_profile.specs.Sections as spec;
ghost use Rattle.uvl_profile.specs.steps.Scan.{indentations_in};

use uvl_lexer::{TokenKind, Word};

/// A section that may have a body.
#[derive(Clone, Copy, Debug, PartialEq, Eq)]
pub enum Section {
    Include,
    Imports,
    Features,
    Constraints,
}

/// A part of a section.
#[derive(Clone, Copy, Debug, PartialEq, Eq)]
pub enum SectionPart {
    /// Outside all sections.
    Outside,
    /// In the line of the section's word.
    Heading(Section),
    /// Behind that line: the section goes on where an Indent stands there.
    Headed(Section),
    /// In its body, with so many indentations open in it.
    Body(Section, usize),
}

impl SectionPart {
    /// Whether it belongs to this section.
    pub(crate) fn belongs(self, section: Section) -> bool
        ensures { result ≡ spec.belongs section self }
    {
        match self {
            SectionPart::Outside | SectionPart::Headed(_) => false,
            SectionPart::Heading(other) | SectionPart::Body(other, _) => is_same(section, other),
        }
    }

    /// The part behind a token, which is the first in its line or not.
    pub(crate) fn behind(self, first: bool, kind: &TokenKind) -> SectionPart
        requires { indentations_in self + 1 < 2 ^ 64 }
        ensures { result ≡ spec.part_behind self first kind.now }
    {
        match self {
            SectionPart::Outside => behind_outside(first, kind),
            SectionPart::Heading(section) => {
                if kind.is_newline() {
                    SectionPart::Headed(section)
                } else {
                    SectionPart::Heading(section)
                }
            }
            SectionPart::Headed(section) => {
                if kind.is_indent() {
                    SectionPart::Body(section, 1)
                } else {
                    behind_outside(first, kind)
                }
            }
            SectionPart::Body(section, indentations) => behind_in_body(section, indentations, kind),
        }
    }
}

fn is_same(left: Section, right: Section) -> bool
    ensures { result ≡ spec.same_section left right }
{
    match (left, right) {
        (Section::Include, Section::Include) => true,
        (Section::Imports, Section::Imports) => true,
        (Section::Features, Section::Features) => true,
        (Section::Constraints, Section::Constraints) => true,
        _ => false,
    }
}

/// The section that a token names.
fn section_named(kind: &TokenKind) -> Option<Section>
    ensures { result ≡ spec.section_named kind.now }
{
    match kind {
        TokenKind::Word(word) => match *word {
            Word::Include => Some(Section::Include),
            Word::Imports => Some(Section::Imports),
            Word::Features => Some(Section::Features),
            Word::Constraints => Some(Section::Constraints),
            _ => None,
        },
        _ => None,
    }
}

/// Outside all sections, a section's word that is first in its line begins one.
fn behind_outside(first: bool, kind: &TokenKind) -> SectionPart
    ensures { result ≡ spec.behind_outside first kind.now }
{
    if !first {
        return SectionPart::Outside;
    }
    match section_named(kind) {
        Some(section) => SectionPart::Heading(section),
        None => SectionPart::Outside,
    }
}

/// A body is over behind the Dedent that closes its first indentation.
fn behind_in_body(section: Section, indentations: usize, kind: &TokenKind) -> SectionPart
    requires { indentations + 1 < 2 ^ 64 }
    ensures { result ≡ spec.behind_in_body section indentations kind.now }
{
    if kind.is_indent() {
        SectionPart::Body(section, indentations + 1)
    } else if kind.is_dedent() {
        if indentations < 2 {
            SectionPart::Outside
        } else {
            SectionPart::Body(section, indentations - 1)
        }
    } else {
        SectionPart::Body(section, indentations)
    }
}
