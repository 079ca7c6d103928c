//! The plain check of a set of features: one pass over the groups and the rules, which takes no memory.
ghost use Rattle.std.specs.Prelude.{◌≡◌, ◌≤◌, length};
ghost use Rattle.std.specs.List.{list_all, position_or_len};
ghost use Rattle.uvl_model.specs.Amounts.{is_outside, rows_are_met};
ghost use Rattle.uvl_model.specs.Check.{is_marked, marked_count, group_holds};
ghost use Rattle.uvl_model.specs.Sound.{IsSound};

use crate::rules::rules_hold;
use crate::{FeatureNo, FeatureRow, GroupRow, Model};

/// Whether the root is chosen, and each group and each rule holds.
pub(crate) fn rows_hold(model: &Model, chosen: &[bool]) -> bool
    ensures met { result ≡ rows_are_met model.now chosen.now }
    ensures sound { IsSound model.now }
{
    let groups = model.groups();
    is_chosen(FeatureNo(0), chosen) && groups_hold(groups, chosen) && rules_hold(model, chosen)
}

/// Whether each group holds.
fn groups_hold(groups: &[GroupRow], chosen: &[bool]) -> bool
    ensures { result ≡ list_all (group_holds chosen.now) groups.now }
{
    groups.iter().all(|group| group_holds(group, chosen))
}

/// Whether a group of a chosen parent has from `lo` to `hi` chosen members, and any other has none.
fn group_holds(group: &GroupRow, chosen: &[bool]) -> bool
    ensures { result ≡ group_holds chosen.now group.now }
{
    let count = chosen_count(group.members.as_slice(), chosen);
    if is_chosen(group.parent, chosen) {
        group.lo as usize <= count && count <= group.hi as usize
    } else {
        count == 0
    }
}

fn chosen_count(features: &[FeatureNo], chosen: &[bool]) -> usize
    ensures { result ≡ marked_count chosen.now features.now }
{
    features.iter().filter(|f| is_chosen(**f, chosen)).count()
}

/// Whether a feature is chosen, as none is beyond the end of `chosen`.
pub(crate) fn is_chosen(feature: FeatureNo, chosen: &[bool]) -> bool
    ensures { result ≡ is_marked chosen.now feature }
{
    chosen.get(feature.0 as usize).copied().unwrap_or(false)
}

/// How many of the rows in front of the first feature that is outside `top` are not.
pub(crate) fn run_length(rows: &[FeatureRow], top: FeatureNo) -> usize
    ensures run { result ≡ position_or_len (is_outside top) rows.now }
    ensures within { result ≤ length rows.now }
{
    rows.iter().take_while(|row| !is_outside(row, top)).count()
}

/// Whether the parent of a row's feature stands in front of `top`, or there is none.
fn is_outside(row: &FeatureRow, top: FeatureNo) -> bool
    ensures { result ≡ is_outside top row.now }
{
    match row.parent {
        Some(parent) => parent.0 < top.0,
        None => true,
    }
}
