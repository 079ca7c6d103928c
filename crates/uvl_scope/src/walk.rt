//! The walk over the lines of a file's features section.
ghost use Rattle.std.specs.Prelude.{◌≡◌, ◌≤◌, ◌+◌, ◌∷◌, [], true, map, OnOk, IfSome, IfNone};
ghost use Rattle.std.specs.List.{flat_map};
ghost use Rattle.uvl_ast.specs.declared.feature.Feature.{out-Feature};
ghost use Rattle.uvl_base.specs.Limits.{most_depth};
ghost use Rattle.uvl_scope.specs.Brought.{brought_by, is_placing, together};
ghost use Rattle.uvl_scope.specs.LineFaults.{fault_behind, is_bad_range};
ghost use Rattle.uvl_scope.specs.Lines.{line_of, lines_below, lines_from, of_feature};
ghost use Rattle.uvl_scope.specs.steps.Walk.{IsFound, IsWithin, brought_from, brought_of, fault_from};
ghost use Rattle.uvl_scope.specs.steps.Offers.{placed_by};

use crate::fault::FileFault;
use crate::imports::Imports;
use crate::scope::Scope;
use crate::tally::Tally;
use uvl_ast::{Feature, Group, GroupKind};
use uvl_base::{FaultKind, Name};

impl<'a> Tally<'a> {
    /// Adds what the line of a feature brings, and then what the lines below it bring, up to the first
    /// line with which something is wrong.
    #[cycle(walk)]
    pub(crate) fn add_feature(
        &mut self,
        scopes: &[Scope<'a>],
        imports: &Imports,
        line: &'a Feature,
        depth: usize,
    ) -> Result<(), FileFault>
        requires within { IsWithin self.old }
        requires deep { 1 ≤ depth }
        requires shallow { depth ≤ most_depth + 1 }
        ensures found { IsFound
            (fault_from (placed_by scopes.now imports.now) (brought_of self.old) (lines_from line.now depth)) result }
        ensures brought { OnOk result (brought_of self.new
            ≡ brought_from (placed_by scopes.now imports.now) (brought_of self.old) (lines_from line.now depth)) }
        ensures within { OnOk result (IsWithin self.new) }
    {
        self.add_line(scopes, imports, line, depth)?;
        self.add_groups(scopes, imports, line.groups.as_slice(), depth)
    }

    /// Adds what the groups of a feature at a depth bring.
    #[cycle(walk)]
    fn add_groups(
        &mut self,
        scopes: &[Scope<'a>],
        imports: &Imports,
        groups: &'a [Group],
        depth: usize,
    ) -> Result<(), FileFault>
        requires within { IsWithin self.old }
        requires deep { 1 ≤ depth }
        requires shallow { depth ≤ most_depth }
        ensures found { IsFound (fault_from (placed_by scopes.now imports.now) (brought_of self.old)
            (flat_map (λ lines. lines depth) (map lines_below groups.now))) result }
        ensures brought { OnOk result (brought_of self.new ≡ brought_from (placed_by scopes.now imports.now)
            (brought_of self.old) (flat_map (λ lines. lines depth) (map lines_below groups.now))) }
        ensures within { OnOk result (IsWithin self.new) }
    {
        for group in groups {
            self.add_group(scopes, imports, group, depth)?;
        }
        Ok(())
    }

    /// Adds what a group of a feature at a depth brings.
    #[cycle(walk)]
    fn add_group(
        &mut self,
        scopes: &[Scope<'a>],
        imports: &Imports,
        group: &'a Group,
        depth: usize,
    ) -> Result<(), FileFault>
        requires within { IsWithin self.old }
        requires deep { 1 ≤ depth }
        requires shallow { depth ≤ most_depth }
        ensures found { IsFound
            (fault_from (placed_by scopes.now imports.now) (brought_of self.old) (lines_below group.now depth)) result }
        ensures brought { OnOk result (brought_of self.new
            ≡ brought_from (placed_by scopes.now imports.now) (brought_of self.old) (lines_below group.now depth)) }
        ensures within { OnOk result (IsWithin self.new) }
    {
        if is_bad_range(group.kind) {
            return Err(FileFault::At {
                place: group.place,
                kind: FaultKind::BadRange,
            });
        }
        self.add_members(scopes, imports, group.members.as_slice(), depth + 1)
    }

    /// Adds what the members of a group bring, which stand at a depth.
    #[cycle(walk)]
    fn add_members(
        &mut self,
        scopes: &[Scope<'a>],
        imports: &Imports,
        members: &'a [Feature],
        depth: usize,
    ) -> Result<(), FileFault>
        requires within { IsWithin self.old }
        requires deep { 1 ≤ depth }
        requires shallow { depth ≤ most_depth + 1 }
        ensures found { IsFound (fault_from (placed_by scopes.now imports.now) (brought_of self.old)
            (flat_map (λ lines. lines depth) (map lines_from members.now))) result }
        ensures brought { OnOk result (brought_of self.new ≡ brought_from (placed_by scopes.now imports.now)
            (brought_of self.old) (flat_map (λ lines. lines depth) (map lines_from members.now))) }
        ensures within { OnOk result (IsWithin self.new) }
    {
        for member in members {
            self.add_feature(scopes, imports, member, depth)?;
        }
        Ok(())
    }

    /// Adds what the line of a feature at a depth brings, unless something is wrong with it.
    fn add_line(
        &mut self,
        scopes: &[Scope<'a>],
        imports: &Imports,
        line: &'a Feature,
        depth: usize,
    ) -> Result<(), FileFault>
        requires within { IsWithin self.old }
        requires deep { 1 ≤ depth }
        ensures found { IsFound (fault_behind (placed_by scopes.now imports.now) (brought_of self.old)
            (of_feature (line_of (out-Feature line.now) depth))) result }
        ensures brought { OnOk result (brought_of self.new ≡ together (brought_of self.old)
            (brought_by (placed_by scopes.now imports.now) (of_feature (line_of (out-Feature line.now) depth)))) }
        ensures within { OnOk result (IsWithin self.new) }
        ensures shallow { OnOk result (depth ≤ most_depth) }
    {
        match declared_name(line) {
            Some(name) => self.declare(line, name, depth),
            None => self.place(scopes, imports, line, depth),
        }
    }
}

/// The name of the feature that a line declares; none where the line is to place a file.
#[tactic(auto, using(crate::proofs::LineKinds::not_one, crate::proofs::LineKinds::one_part, crate::proofs::LineKinds::none_first))]
fn declared_name(line: &Feature) -> Option<&Name>
    ensures found { IfSome result (λ name. (out-Feature line.now).name.parts ≡ name.now ∷ []) }
    ensures none { IfNone result (is_placing (out-Feature line.now).name.parts ≡ true) }
{
    let parts = line.name.parts.as_slice();
    if parts.len() != 1 {
        return None;
    }
    match parts.first() {
        Some(name) => Some(name),
        None => None,
    }
}

/// Whether a range is written with its lower bound above its upper one.
fn is_bad_range(kind: GroupKind) -> bool
    ensures { result ≡ is_bad_range kind }
{
    match kind {
        GroupKind::Range { lo, hi: Some(hi) } => lo > hi,
        GroupKind::Range { hi: None, .. }
        | GroupKind::Mandatory
        | GroupKind::Optional
        | GroupKind::Alternative
        | GroupKind::Or => false,
    }
}
