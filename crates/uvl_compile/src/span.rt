//! Between which features a rule stands.
use uvl_model::{FeatureNo, Number, Rule};

/// The least and the greatest number of some features; of none the least is above the greatest.
#[derive(Clone, Copy, Debug)]
pub(crate) struct Span {
    pub least: u32,
    pub greatest: u32,
}

impl Span {
    const EMPTY: Span = Span {
        least: u32::MAX,
        greatest: 0,
    };

    /// How far the two are apart.
    pub(crate) fn length(self) -> u32 {
        self.greatest.saturating_sub(self.least)
    }

    fn with(self, feature: FeatureNo) -> Span {
        self.joined(Span {
            least: feature.0,
            greatest: feature.0,
        })
    }

    fn joined(self, other: Span) -> Span {
        Span {
            least: self.least.min(other.least),
            greatest: self.greatest.max(other.greatest),
        }
    }
}

/// Between which features a rule stands, where `ends` has the last feature of each feature's subtree. Left operands are
/// a loop, and right ones are calls, as rules are as deep to the left as they are long.
pub(crate) fn span_of(rule: &Rule, ends: &[u32]) -> Span {
    let mut part = rule;
    let mut span = Span::EMPTY;
    loop {
        match part {
            Rule::Feature(feature) => return span.with(*feature),
            Rule::Compare(_, left, right) => {
                span = span.joined(number_span(left.get(), ends));
                return span.joined(number_span(right.get(), ends));
            }
            Rule::Not(operand) => part = operand.get(),
            Rule::And(left, right)
            | Rule::Or(left, right)
            | Rule::Implies(left, right)
            | Rule::Iff(left, right) => {
                span = span.joined(span_of(right.get(), ends));
                part = left.get();
            }
        }
    }
}

/// Between which features a number stands: for a sum all from its top downwards.
fn number_span(number: &Number, ends: &[u32]) -> Span {
    let mut part = number;
    let mut span = Span::EMPTY;
    loop {
        match part {
            Number::Literal(_) => return span,
            Number::Attr(feature, _) => return span.with(*feature),
            Number::Sum { top, key: _ } => {
                return span.with(*top).with(end_of(*top, ends));
            }
            Number::Plus(left, right) | Number::Minus(left, right) | Number::Times(left, right) => {
                span = span.joined(number_span(right.get(), ends));
                part = left.get();
            }
        }
    }
}

/// The last feature of a subtree; the feature itself where that isn't known.
fn end_of(feature: FeatureNo, ends: &[u32]) -> FeatureNo {
    match ends.get(feature.0 as usize) {
        Some(end) => FeatureNo(*end),
        None => feature,
    }
}
