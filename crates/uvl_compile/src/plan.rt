//! In which order a model's conditions are met: plans. A condition is a group, or a rule behind the groups, by its
//! number. Of a plan nothing is claimed: one that leaves a condition out answers nothing.
use crate::span::{Span, span_of};
use dd_store::OutOfMemory;
use std::alloc::Global;
use uvl_base::MOST_DEPTH;
use uvl_model::{FeatureNo, FeatureRow, GroupRow, Model};

/// How far apart the features of a rule may stand for it to be met as soon as the groups of the first one are.
const SHORT_SPAN: u32 = 32;

/// Where a condition stands in a plan: places are met in this order.
#[derive(Clone, Copy, Debug, PartialEq, Eq, PartialOrd, Ord)]
struct Place {
    /// The feature whose groups it is one of, or goes behind, counted down: the last feature comes first.
    down: u32,
    /// The order of those that have this in common: the groups first.
    rank: u32,
    /// The condition.
    number: usize,
}

/// Each feature's groups from the last feature up, so that all below a feature is met before its variable is. Each rule
/// behind the groups of its first feature where its features stand near each other, else behind those of the smallest
/// subtree that has its features, and of these the shortest first.
pub(crate) fn near(alloc: Global, model: &Model) -> Result<Vec<usize>, OutOfMemory> {
    let groups = model.groups();
    let ends = subtree_ends(alloc, model.features())?;
    let parents = are_parents(alloc, model.features(), groups)?;
    let mut places = group_places(alloc, groups)?;
    for (number, rule) in model.rules().iter().enumerate() {
        let span = span_of(rule, &ends);
        places.push(Place {
            down: u32::MAX - feature_before(model.features(), &ends, &parents, span),
            rank: span.length().saturating_add(1),
            number: groups.len().saturating_add(number),
        })?;
    }
    numbers_of(alloc, places)
}

/// All groups as above, and then the rules by falling least feature.
pub(crate) fn upward(alloc: Global, model: &Model) -> Result<Vec<usize>, OutOfMemory> {
    let groups = model.groups();
    let mut places = group_places(alloc, groups)?;
    for (number, rule) in model.rules().iter().enumerate() {
        places.push(Place {
            down: u32::MAX,
            rank: u32::MAX - span_of(rule, &[]).least,
            number: groups.len().saturating_add(number),
        })?;
    }
    numbers_of(alloc, places)
}

/// The places of the groups.
fn group_places(alloc: Global, groups: &[GroupRow]) -> Result<Vec<Place>, OutOfMemory> {
    let mut places = Vec::new(alloc);
    for (number, group) in groups.iter().enumerate() {
        places.push(Place {
            down: u32::MAX - group.parent.0,
            rank: 0,
            number,
        })?;
    }
    Ok(places)
}

/// The conditions in the order of their places.
fn numbers_of(alloc: Global, mut places: Vec<Place>) -> Result<Vec<usize>, OutOfMemory> {
    places.sort()?;
    let mut numbers = Vec::new(alloc);
    for place in &places {
        numbers.push(place.number)?;
    }
    Ok(numbers)
}

/// The last feature of each feature's subtree.
fn subtree_ends(alloc: Global, features: &[FeatureRow]) -> Result<Vec<u32>, OutOfMemory> {
    let mut ends = Vec::new(alloc);
    for number in 0..features.len() {
        ends.push(number.min(u32::MAX as usize) as u32)?;
    }
    for (number, row) in features.iter().enumerate().rev() {
        if let Some(parent) = row.parent {
            let end = number_at(&ends, number);
            raise(&mut ends, parent, end);
        }
    }
    Ok(ends)
}

/// The subtree of a feature ends no earlier than that of its child.
fn raise(ends: &mut [u32], feature: FeatureNo, end: u32) {
    if let Some(last) = ends.get_mut(feature.0 as usize) {
        *last = end.max(*last);
    }
}

fn number_at(numbers: &[u32], place: usize) -> u32 {
    numbers.get(place).copied().unwrap_or(0)
}

/// Whether each feature has groups.
fn are_parents(
    alloc: Global,
    features: &[FeatureRow],
    groups: &[GroupRow],
) -> Result<Vec<bool>, OutOfMemory> {
    let mut parents = vec![in alloc; false; features.len()]?;
    for group in groups {
        if let Some(is_parent) = parents.get_mut(group.parent.0 as usize) {
            *is_parent = true;
        }
    }
    Ok(parents)
}

/// The feature behind whose groups a rule with a span is met.
fn feature_before(features: &[FeatureRow], ends: &[u32], parents: &[bool], span: Span) -> u32 {
    if span.length() <= SHORT_SPAN {
        return span.least;
    }
    feature_above(features, ends, parents, span)
}

/// The deepest feature that has groups and whose subtree has a span.
fn feature_above(features: &[FeatureRow], ends: &[u32], parents: &[bool], span: Span) -> u32 {
    let mut feature = span.least;
    for _ in 0..MOST_DEPTH {
        if let Some(true) = parents.get(feature as usize)
            && span.greatest <= number_at(ends, feature as usize)
        {
            return feature;
        }
        match features.get(feature as usize).and_then(|row| row.parent) {
            Some(parent) => feature = parent.0,
            None => return 0,
        }
    }
    0
}
