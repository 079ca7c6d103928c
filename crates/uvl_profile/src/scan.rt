//! One pass over the tokens, to the first at which a named fault is met.
ghost use Rattle.std.specs.Prelude.{◌≡◌, ℕ, ◌+◌, ◌<◌, ◌^◌, [], ◌∷◌, OnOk, IfOk, MatchOption, length, reverse};
ghost use Rattle.uvl_profile.specs.First.{NothingMet, IsFirstMet};
ghost use Rattle.uvl_profile.specs.Met as spec;
ghost use Rattle.uvl_profile.specs.Met.{met_by_word, met_limit, met_of, if_nested};
ghost use Rattle.uvl_profile.specs.Rules as rules;
ghost use Rattle.uvl_profile.specs.steps.Scan.{Follows, begins_rule, nodes_in, nodes_behind};

use crate::candidate::{Candidate, Met};
use crate::kinds::{deepens, ends_rule, is_function, is_layout, is_name, is_text, is_type};
use crate::line::{begins_line, is_behind_sum_of_name, is_behind_word, names_feature};
use crate::nesting::Nesting;
use crate::rule::is_node;
use crate::section::{Section, SectionPart};
use std::alloc::{AllocError, Global};
use uvl_base::{FaultKind, MOST_DEPTH, MOST_NESTING, MOST_RULE_NODES};
use uvl_lexer::{Symbol, Token, TokenKind, Word};

/// What the tokens in front of a place say of it.
#[derive(Debug, Drop)]
pub(crate) struct Scan {
    /// The part of a section that it stands in.
    pub(crate) part: SectionPart,
    /// Whether it stands in the brackets behind `constraints`.
    pub(crate) list: bool,
    /// How many nodes the rule has so far that it stands in.
    pub(crate) nodes: Option<usize>,
    pub(crate) nesting: Nesting,
}

/// The first token at which a named fault is met, or would be if it could stand there.
pub fn first_met(alloc: Global, tokens: &[Token]) -> Result<Option<Candidate>, AllocError>
    ensures { IfOk result (λ found. MatchOption found ((k : ℕ) → NothingMet tokens.now k) (IsFirstMet tokens.now)) }
{
    let mut scan = Scan::new(alloc);
    for index in 0..tokens.len() {
        let front = &tokens[..index];
        let token = &tokens[index];
        if let Some(met) = scan.met(front, token) {
            return Ok(Some(Candidate { index, met }));
        }
        scan.take(front, token)?;
    }
    Ok(None)
}

impl Scan {
    /// In front of all tokens.
    fn new(alloc: Global) -> Scan
        ensures { Follows [] result }
    {
        Scan {
            part: SectionPart::Outside,
            list: false,
            nodes: None,
            nesting: Nesting::new(alloc),
        }
    }

    /// What is wrong at a token behind these.
    fn met(&self, front: &[Token], token: &Token) -> Option<Met>
        requires { Follows (reverse front.now) self.now }
        ensures { result ≡ met_of (reverse front.now) token.now }
    {
        match self.met_by_word(front, &token.kind) {
            Some(kind) => Some(Met {
                alive: kind,
                dead: Some(kind),
            }),
            None => self.met_limit(front, token),
        }
    }

    fn met_by_word(&self, front: &[Token], kind: &TokenKind) -> Option<FaultKind>
        requires { Follows (reverse front.now) self.now }
        ensures { result ≡ met_by_word (reverse front.now) kind.now }
    {
        if self.is_typed_feature(front, kind) {
            Some(FaultKind::TypedFeature)
        } else if self.is_feature_cardinality(front, kind) {
            Some(FaultKind::FeatureCardinality)
        } else if self.is_average(front, kind) {
            Some(FaultKind::Average)
        } else if self.is_unsupported(front, kind) {
            Some(FaultKind::UnsupportedOperation)
        } else {
            None
        }
    }

    fn met_limit(&self, front: &[Token], token: &Token) -> Option<Met>
        requires { Follows (reverse front.now) self.now }
        ensures { result ≡ met_limit (reverse front.now) token.now }
    {
        let nested = self.is_nested_too_deep(front, token);
        if self.is_node_too_many(front, &token.kind) {
            Some(Met {
                alive: FaultKind::ExpressionTooLarge,
                dead: if_nested(nested),
            })
        } else if nested {
            Some(Met {
                alive: FaultKind::TooDeep,
                dead: Some(FaultKind::TooDeep),
            })
        } else if self.is_feature_too_deep(front, &token.kind) {
            Some(Met {
                alive: FaultKind::TooDeep,
                dead: None,
            })
        } else {
            None
        }
    }

    fn is_typed_feature(&self, front: &[Token], kind: &TokenKind) -> bool
        requires { Follows (reverse front.now) self.now }
        ensures { result ≡ spec.is_typed_feature (reverse front.now) kind.now }
    {
        is_type(kind) && begins_line(front) && self.part.belongs(Section::Features)
    }

    fn is_feature_cardinality(&self, front: &[Token], kind: &TokenKind) -> bool
        requires { Follows (reverse front.now) self.now }
        ensures { result ≡ spec.is_feature_cardinality (reverse front.now) kind.now }
    {
        self.is_late_cardinality(front, kind) && self.nesting.is_outside()
    }

    /// Whether it is `cardinality` in a line of the features section, not first in the line.
    fn is_late_cardinality(&self, front: &[Token], kind: &TokenKind) -> bool
        requires { Follows (reverse front.now) self.now }
        ensures { result ≡ spec.is_late_cardinality (reverse front.now) kind.now }
    {
        kind.is_word(Word::Cardinality)
            && self.part.belongs(Section::Features)
            && !begins_line(front)
    }

    fn is_average(&self, front: &[Token], kind: &TokenKind) -> bool
        requires { Follows (reverse front.now) self.now }
        ensures { result ≡ spec.is_average (reverse front.now) kind.now }
    {
        kind.is_word(Word::Avg) && !self.part.belongs(Section::Include)
    }

    fn is_unsupported(&self, front: &[Token], kind: &TokenKind) -> bool
        requires { Follows (reverse front.now) self.now }
        ensures { result ≡ spec.is_unsupported (reverse front.now) kind.now }
    {
        kind.is_symbol(Symbol::Slash)
            || is_function(kind) && !self.part.belongs(Section::Include)
            || is_text(kind) && self.part.belongs(Section::Constraints)
            || kind.is_symbol(Symbol::Comma) && is_behind_sum_of_name(front)
    }

    /// Whether it is a bracket or `!` with which what follows nests too deep.
    fn is_nested_too_deep(&self, front: &[Token], token: &Token) -> bool
        requires { Follows (reverse front.now) self.now }
        ensures { result ≡ spec.is_nested_too_deep (reverse front.now) token.now }
    {
        deepens(&token.kind) && self.nesting.depth == MOST_NESTING
    }

    /// Whether it is the reference of a feature that nests too deep: the root has one indentation, and
    /// each feature below another two more, with that of the group between.
    fn is_feature_too_deep(&self, front: &[Token], kind: &TokenKind) -> bool
        requires { Follows (reverse front.now) self.now }
        ensures { result ≡ spec.is_feature_too_deep (reverse front.now) kind.now }
    {
        is_name(kind) && names_feature(front) && is_below_most_depth(self.part)
    }

    /// Whether it is one node more than a rule may have.
    fn is_node_too_many(&self, front: &[Token], kind: &TokenKind) -> bool
        requires { Follows (reverse front.now) self.now }
        ensures { result ≡ spec.is_node_too_many (reverse front.now) kind.now }
    {
        is_node(front, kind) && is_full(self.nodes)
    }

    /// Takes the token behind these.
    fn take(&mut self, front: &[Token], token: &Token) -> Result<(), AllocError>
        requires follows { Follows (reverse front.now) self.old }
        requires room { length front.now + 1 < 2 ^ 64 }
        ensures { OnOk result (Follows (token.now ∷ reverse front.now) self.new) }
    {
        let kind = &token.kind;
        let part = self.part.behind(begins_line(front), kind);
        let opens = self.opens_list(front, kind);
        let begins = self.begins_rule(part, opens, kind);
        self.nodes = nodes_behind(self.nodes, begins, ends_rule(kind), is_node(front, kind));
        self.list = opens || self.list && !kind.is_symbol(Symbol::RightBracket) && !is_layout(kind);
        self.part = part;
        if is_layout(kind) {
            self.nesting.end_line();
            Ok(())
        } else {
            self.nesting.take(kind)
        }
    }

    /// Whether it is the bracket behind `constraints`.
    fn opens_list(&self, front: &[Token], kind: &TokenKind) -> bool
        requires { Follows (reverse front.now) self.now }
        ensures { result ≡ rules.opens_list (reverse front.now) kind.now }
    {
        kind.is_symbol(Symbol::LeftBracket)
            && is_behind_word(front, Word::Constraints)
            && self.part.belongs(Section::Features)
    }

    /// Whether a rule begins behind it, where this part of a section is behind it.
    fn begins_rule(&self, behind: SectionPart, opens_list: bool, kind: &TokenKind) -> bool
        ensures { result ≡ begins_rule behind self.now.part self.now.list opens_list kind.now }
    {
        is_layout(kind) && behind.belongs(Section::Constraints)
            || kind.is_word(Word::Constraint) && self.part.belongs(Section::Features)
            || opens_list
            || kind.is_symbol(Symbol::Comma) && self.list
    }
}

/// Brackets that nest too deep are a fault also where the token can't stand.
fn if_nested(nested: bool) -> Option<FaultKind>
    ensures { result ≡ if_nested nested }
{
    if nested {
        Some(FaultKind::TooDeep)
    } else {
        None
    }
}

fn is_below_most_depth(part: SectionPart) -> bool
    ensures { result ≡ spec.is_below_most_depth part }
{
    match part {
        SectionPart::Body(Section::Features, indentations) => indentations == 2 * MOST_DEPTH + 1,
        _ => false,
    }
}

fn is_full(nodes: Option<usize>) -> bool
    ensures { result ≡ spec.is_full nodes }
{
    match nodes {
        Some(nodes) => nodes == MOST_RULE_NODES,
        None => false,
    }
}

/// The nodes of the rule so far behind a token, behind which a rule begins, or ends, or which is where
/// a node stands.
fn nodes_behind(nodes: Option<usize>, begins: bool, ends: bool, node: bool) -> Option<usize>
    requires { nodes_in nodes + 1 < 2 ^ 64 }
    ensures { result ≡ nodes_behind nodes begins ends node }
{
    if begins {
        return Some(0);
    }
    match nodes {
        Some(nodes) if !ends => Some(if node { nodes + 1 } else { nodes }),
        _ => None,
    }
}
