//! The walk over the tree of a file: a feature, and then for each of its groups the group's row and the
//! trees of its members. At a placing line it goes on in the file that is placed.
ghost use Rattle.std.specs.Prelude.{◌≡◌, ◌∷◌, ◌++◌, ◌<◌, [], chars, length, map, Some, IfOk, OnOk};
ghost use Rattle.uvl_model.specs.Spelling.{numbered};
ghost use Rattle.uvl_placing.specs.Names.{dotted, front_of, qualifier_of, target_called};
ghost use Rattle.uvl_resolve.specs.Under.{MayStandInName};
ghost use Rattle.uvl_resolve.specs.steps.Walk.{AddsTree, AddsGroup, AddsGroups, AddsMembers, GroupFits, GroupsFit, MembersFit, TreeFits, qualifiers_of, said_by_file, said_by_group, said_by_groups, said_by_line, said_by_members, said_by_names};
ghost use Rattle.uvl_semantics.specs.Tree.{Tree};

use crate::bounds::{least_of, most_of};
use crate::name::text_behind;
use crate::rows::RowBuilder;
use sqlite_items::Items;
use std::alloc::Global;
use uvl_ast::{Feature, Group};
use uvl_base::{Name, OutOfMemory};
use uvl_imports::Loaded;
use uvl_model::{FeatureNo, GroupRow};
use uvl_placing::files_are_read_in_order;
use uvl_scope::{NameIndex, push_dotted};

impl RowBuilder {
    /// Adds the tree of a file, with a text in front of each name. The files in front of it are given,
    /// and the qualifiers of the import lines of each of them and of the file itself.
    #[cycle(walk)]
    pub(crate) fn add_file(
        &mut self,
        front: &[Loaded],
        loaded: &Loaded,
        qualifiers: &[NameIndex],
        text: &str,
        parent: Option<FeatureNo>,
    ) -> Result<FeatureNo, OutOfMemory>
        requires known { qualifiers.now ≡ qualifiers_of (front.now ++ loaded.now ∷ []) }
        requires name { MayStandInName (chars text.now) }
        requires fits { TreeFits self.old (said_by_file front.now loaded.now (chars text.now)) }
        ensures number { IfOk result (λ number. number ≡ numbered (length self.old.features)) }
        ensures added { OnOk result
            (AddsTree self.old self.new parent (said_by_file front.now loaded.now (chars text.now))) }
    {
        match &loaded.file.root {
            Some(root) => self.add_feature(front, loaded, qualifiers, text, root, parent),
            None => unreachable!(),
        }
    }

    /// Adds a feature with all that stands below it, or the tree that is placed.
    #[cycle(walk)]
    fn add_feature(
        &mut self,
        front: &[Loaded],
        loaded: &Loaded,
        qualifiers: &[NameIndex],
        text: &str,
        line: &Feature,
        parent: Option<FeatureNo>,
    ) -> Result<FeatureNo, OutOfMemory>
        requires known { qualifiers.now ≡ qualifiers_of (front.now ++ loaded.now ∷ []) }
        requires name { MayStandInName (chars text.now) }
        requires fits { TreeFits self.old (said_by_line front.now loaded.now (chars text.now) line.now) }
        ensures number { IfOk result (λ number. number ≡ numbered (length self.old.features)) }
        ensures added { OnOk result
            (AddsTree self.old self.new parent (said_by_line front.now loaded.now (chars text.now) line.now)) }
    {
        let names = line.name.parts.as_slice();
        if names.len() != 1 {
            return self.add_placed(front, loaded, qualifiers, text, names, parent);
        }
        let name = &names[0];
        let number = self.add_row(text, name, line.attributes.as_slice(), parent)?;
        self.add_groups(
            front,
            loaded,
            qualifiers,
            text,
            line.groups.as_slice(),
            number,
        )?;
        Ok(number)
    }

    /// Adds the tree that a reference places.
    #[cycle(walk)]
    fn add_placed(
        &mut self,
        front: &[Loaded],
        loaded: &Loaded,
        qualifiers: &[NameIndex],
        text: &str,
        names: &[Name],
        parent: Option<FeatureNo>,
    ) -> Result<FeatureNo, OutOfMemory>
        requires known { qualifiers.now ≡ qualifiers_of (front.now ++ loaded.now ∷ []) }
        requires name { MayStandInName (chars text.now) }
        requires fits { TreeFits self.old (said_by_names front.now loaded.now (chars text.now) names.now) }
        ensures number { IfOk result (λ number. number ≡ numbered (length self.old.features)) }
        ensures added { OnOk result
            (AddsTree self.old self.new parent (said_by_names front.now loaded.now (chars text.now) names.now)) }
    {
        // A law, which is a fact for the proof.
        files_are_read_in_order();
        let target = target_of_names(self.alloc, front, loaded, qualifiers, names)?;
        let outer = &names[..names.len().saturating_sub(1)];
        let text = text_behind(self.alloc, text, outer)?;
        let inner = &qualifiers[..target + 1];
        self.add_file(
            &front[..target],
            &front[target],
            inner,
            text.as_str(),
            parent,
        )
    }

    /// Adds the groups of a feature.
    #[cycle(walk)]
    fn add_groups(
        &mut self,
        front: &[Loaded],
        loaded: &Loaded,
        qualifiers: &[NameIndex],
        text: &str,
        groups: &[Group],
        parent: FeatureNo,
    ) -> Result<(), OutOfMemory>
        requires known { qualifiers.now ≡ qualifiers_of (front.now ++ loaded.now ∷ []) }
        requires name { MayStandInName (chars text.now) }
        requires fits { GroupsFit self.old (said_by_groups front.now loaded.now (chars text.now) groups.now) }
        ensures { OnOk result
            (AddsGroups self.old self.new parent (said_by_groups front.now loaded.now (chars text.now) groups.now)) }
    {
        for group in groups {
            self.add_group(front, loaded, qualifiers, text, group, parent)?;
        }
        Ok(())
    }

    /// Adds a group. Its row stands in front of those of its members' trees, and gets their numbers once
    /// these are known.
    #[cycle(walk)]
    fn add_group(
        &mut self,
        front: &[Loaded],
        loaded: &Loaded,
        qualifiers: &[NameIndex],
        text: &str,
        group: &Group,
        parent: FeatureNo,
    ) -> Result<(), OutOfMemory>
        requires known { qualifiers.now ≡ qualifiers_of (front.now ++ loaded.now ∷ []) }
        requires name { MayStandInName (chars text.now) }
        requires fits { GroupFits self.old (said_by_group front.now loaded.now (chars text.now) group.now) }
        ensures { OnOk result
            (AddsGroup self.old self.new parent (said_by_group front.now loaded.now (chars text.now) group.now)) }
    {
        let count = group.members.len() as u32;
        let lo = least_of(group.kind, count);
        let hi = most_of(group.kind, count);
        let place = self.groups.len();
        let members = Items::new(self.alloc);
        let blank = GroupRow {
            parent,
            lo,
            hi,
            members,
        };
        self.groups.push(blank)?;
        let lines = group.members.as_slice();
        let members = self.add_members(front, loaded, qualifiers, text, lines, parent)?;
        let row = GroupRow {
            parent,
            lo,
            hi,
            members,
        };
        self.groups.set(place, row);
        Ok(())
    }

    /// Adds the trees of the members of a group, and gives the members' numbers.
    #[cycle(walk)]
    fn add_members(
        &mut self,
        front: &[Loaded],
        loaded: &Loaded,
        qualifiers: &[NameIndex],
        text: &str,
        lines: &[Feature],
        parent: FeatureNo,
    ) -> Result<Items<FeatureNo>, OutOfMemory>
        requires known { qualifiers.now ≡ qualifiers_of (front.now ++ loaded.now ∷ []) }
        requires name { MayStandInName (chars text.now) }
        requires fits { MembersFit self.old (said_by_members front.now loaded.now (chars text.now) lines.now) }
        ensures { IfOk result (λ numbers. AddsMembers self.old self.new parent
            (said_by_members front.now loaded.now (chars text.now) lines.now) numbers) }
    {
        let mut numbers = Items::from_vec(Vec::with_capacity(self.alloc, lines.len())?);
        for line in lines {
            let number = self.add_feature(front, loaded, qualifiers, text, line, Some(parent))?;
            numbers.push(number)?;
        }
        Ok(numbers)
    }
}

/// The position of the file that a reference of a file places.
fn target_of_names(
    alloc: Global,
    front: &[Loaded],
    loaded: &Loaded,
    qualifiers: &[NameIndex],
    names: &[Name],
) -> Result<usize, OutOfMemory>
    requires known { qualifiers.now ≡ qualifiers_of (front.now ++ loaded.now ∷ []) }
    requires placed { (tree : Tree) × (said_by_names front.now loaded.now [] names.now ≡ Some tree) }
    ensures target { IfOk result (λ target.
        target_called (dotted (front_of names.now)) loaded.now.file.imports loaded.now.targets ≡ Some target) }
    ensures within { IfOk result (λ target. target < length front.now) }
{
    // A law, which is a fact for the proof.
    files_are_read_in_order();
    let mut qualifier = String::new(alloc);
    push_dotted(&mut qualifier, &names[..names.len().saturating_sub(1)])?;
    match target_of(loaded, &qualifiers[front.len()], qualifier.as_str()) {
        Some(target) => Ok(target),
        None => unreachable!(),
    }
}

/// The position of the file that a file calls so, whose import lines have these qualifiers.
pub(crate) fn target_of(loaded: &Loaded, qualifiers: &NameIndex, qualifier: &str) -> Option<usize>
    requires { qualifiers.now ≡ map qualifier_of loaded.now.file.imports }
    ensures { result ≡ target_called (chars qualifier.now) loaded.now.file.imports loaded.now.targets }
{
    let number = qualifiers.find(qualifier)?;
    let target = loaded.targets.as_slice().get(number)?;
    Some(*target as usize)
}
