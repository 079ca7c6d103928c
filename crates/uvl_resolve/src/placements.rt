//! What the placing lines of a file place.
ghost use Rattle.std.specs.Prelude.{◌≡◌, [], map, OnOk, IfOk, Some};
ghost use Rattle.std.specs.List.{All, flat_map};
ghost use Rattle.uvl_placing.specs.Constraints.{placings_below, placings_from};
ghost use Rattle.uvl_placing.specs.Files.{placings_of_root};
ghost use Rattle.uvl_placing.specs.Names.{qualifier_of};
ghost use Rattle.uvl_placing.specs.Options.{of_both};
ghost use Rattle.uvl_resolve.specs.steps.Placements.{AddsPlacements, IsPlaced, placement, placement_of};

use crate::walk::target_of;
use std::alloc::Global;
use uvl_ast::{Feature, Group};
use uvl_base::{Name, OutOfMemory};
use uvl_imports::Loaded;
use uvl_scope::{NameIndex, push_dotted};

/// A placing line of a file: the position of the file that it places, and the number that the root of
/// that file has among the features of the placing file.
#[derive(Clone, Copy, Debug, PartialEq, Eq)]
pub(crate) struct Placement {
    pub(crate) target: usize,
    pub(crate) number: usize,
}

/// The placing lines of a file in document order. The qualifiers of its import lines are given, and the
/// names of its placed tree.
pub(crate) fn placements_of(
    alloc: Global,
    loaded: &Loaded,
    qualifiers: &NameIndex,
    names: &NameIndex,
) -> Result<Vec<Placement>, OutOfMemory>
    requires known { qualifiers.now ≡ map qualifier_of loaded.now.file.imports }
    requires placed { All (IsPlaced loaded.now names.now) (placings_of_root loaded.now.file.root) }
    ensures { IfOk result (λ placements.
        AddsPlacements loaded.now names.now [] placements.items (placings_of_root loaded.now.file.root)) }
{
    let mut placements = Vec::new(alloc);
    if let Some(root) = &loaded.file.root {
        add_placements(alloc, &mut placements, loaded, qualifiers, names, root)?;
    }
    Ok(placements)
}

/// Adds the placing lines from a line on downwards.
#[cycle(placements)]
fn add_placements(
    alloc: Global,
    placements: &mut Vec<Placement>,
    loaded: &Loaded,
    qualifiers: &NameIndex,
    names: &NameIndex,
    line: &Feature,
) -> Result<(), OutOfMemory>
    requires known { qualifiers.now ≡ map qualifier_of loaded.now.file.imports }
    requires placed { All (IsPlaced loaded.now names.now) (placings_from line.now) }
    ensures { OnOk result (AddsPlacements loaded.now names.now placements.old.items placements.new.items
        (placings_from line.now)) }
{
    let parts = line.name.parts.as_slice();
    if parts.len() == 1 {
        return add_placements_of_groups(
            alloc,
            placements,
            loaded,
            qualifiers,
            names,
            line.groups.as_slice(),
        );
    }
    if parts.is_empty() {
        return Ok(());
    }
    let placement = placement_of(alloc, loaded, qualifiers, names, parts)?;
    placements.push(placement)?;
    Ok(())
}

/// Adds those below groups.
#[cycle(placements)]
fn add_placements_of_groups(
    alloc: Global,
    placements: &mut Vec<Placement>,
    loaded: &Loaded,
    qualifiers: &NameIndex,
    names: &NameIndex,
    groups: &[Group],
) -> Result<(), OutOfMemory>
    requires known { qualifiers.now ≡ map qualifier_of loaded.now.file.imports }
    requires placed { All (IsPlaced loaded.now names.now)
        (flat_map (λ placings. placings) (map placings_below groups.now)) }
    ensures { OnOk result (AddsPlacements loaded.now names.now placements.old.items placements.new.items
        (flat_map (λ placings. placings) (map placings_below groups.now))) }
{
    for group in groups {
        let members = group.members.as_slice();
        add_placements_of_members(alloc, placements, loaded, qualifiers, names, members)?;
    }
    Ok(())
}

/// Adds those from members of a group on downwards.
#[cycle(placements)]
fn add_placements_of_members(
    alloc: Global,
    placements: &mut Vec<Placement>,
    loaded: &Loaded,
    qualifiers: &NameIndex,
    names: &NameIndex,
    members: &[Feature],
) -> Result<(), OutOfMemory>
    requires known { qualifiers.now ≡ map qualifier_of loaded.now.file.imports }
    requires placed { All (IsPlaced loaded.now names.now)
        (flat_map (λ placings. placings) (map placings_from members.now)) }
    ensures { OnOk result (AddsPlacements loaded.now names.now placements.old.items placements.new.items
        (flat_map (λ placings. placings) (map placings_from members.now))) }
{
    for member in members {
        add_placements(alloc, placements, loaded, qualifiers, names, member)?;
    }
    Ok(())
}

/// What a reference of a file places.
fn placement_of(
    alloc: Global,
    loaded: &Loaded,
    qualifiers: &NameIndex,
    names: &NameIndex,
    parts: &[Name],
) -> Result<Placement, OutOfMemory>
    requires known { qualifiers.now ≡ map qualifier_of loaded.now.file.imports }
    requires placed { IsPlaced loaded.now names.now parts.now }
    ensures { IfOk result (λ found. placement_of loaded.now names.now parts.now ≡ Some found) }
{
    let front = &parts[..parts.len().saturating_sub(1)];
    let mut text = String::new(alloc);
    push_dotted(&mut text, front)?;
    let target = target_of(loaded, qualifiers, text.as_str());
    text.clear();
    push_dotted(&mut text, parts)?;
    let number = names.find(text.as_str());
    match placement_at(target, number) {
        Some(placement) => Ok(placement),
        None => unreachable!(),
    }
}

/// A placing line, where the file that it places and the number of that file's root are known.
fn placement_at(target: Option<usize>, number: Option<usize>) -> Option<Placement>
    ensures { result ≡ of_both placement target number }
{
    let target = target?;
    let number = number?;
    Some(Placement { target, number })
}
