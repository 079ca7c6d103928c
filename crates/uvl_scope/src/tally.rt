//! What the lines of a file bring, line by line.
ghost use Rattle.std.specs.Prelude.{◌≡◌, ◌≤◌, ◌+◌, ◌-◌, ◌++◌, map, max, Some, chars, OnOk};
ghost use Rattle.uvl_ast.specs.declared.feature.Feature.{out-Feature};
ghost use Rattle.uvl_base.specs.Limits.{most_depth};
ghost use Rattle.uvl_semantics.specs.Prefix.{prefixed_name};
ghost use Rattle.uvl_scope.specs.Brought.{declared, nothing, placed, placed_at, together};
ghost use Rattle.uvl_scope.specs.LineFaults.{has_more};
ghost use Rattle.uvl_scope.specs.Lines.{line_of};
ghost use Rattle.uvl_scope.specs.steps.Lines.{fault_of_declared, fault_of_names, fault_of_placed, fault_of_placing, overflow};
ghost use Rattle.uvl_scope.specs.steps.Walk.{IsFound, IsWithin, brought_of};
ghost use Rattle.uvl_scope.specs.steps.Offers.{placed_by};

use crate::attributes::AttributeLists;
use crate::fault::FileFault;
use crate::imports::Imports;
use crate::keys::repeated_key;
use crate::limits::{MOST_NODES, MOST_RULES};
use crate::names::NameIndex;
use crate::scope::Scope;
use crate::spelling::dotted;
use std::alloc::Global;
use uvl_ast::Feature;
use uvl_base::{FaultKind, MOST_DEPTH, MOST_FEATURES, Name, Place};

/// What the lines so far brought: names in document order, the qualifiers that are placed, how deep the
/// deepest feature stands, and how many rules the placed files have, with how many nodes.
#[derive(Drop)]
pub(crate) struct Tally<'a> {
    pub(crate) alloc: Global,
    pub(crate) names: NameIndex,
    pub(crate) attributes: AttributeLists<'a>,
    pub(crate) placed: NameIndex,
    pub(crate) depth: usize,
    pub(crate) rules: usize,
    pub(crate) nodes: usize,
}

impl<'a> Tally<'a> {
    /// Nothing is brought yet.
    pub(crate) fn new(alloc: Global) -> Tally<'a>
        ensures nothing { brought_of result ≡ nothing }
        ensures within { IsWithin result }
    {
        Tally {
            alloc,
            names: NameIndex::new(alloc),
            attributes: AttributeLists::new(alloc),
            placed: NameIndex::new(alloc),
            depth: 0,
            rules: 0,
            nodes: 0,
        }
    }

    /// What is in scope in the file.
    pub(crate) fn into_scope(self) -> Scope<'a>
        ensures names { result.names ≡ self.entry.names }
        ensures attributes { result.attributes ≡ self.entry.attributes }
        ensures depth { result.depth ≡ self.entry.depth }
        ensures rules { result.rules ≡ self.entry.rules }
        ensures nodes { result.nodes ≡ self.entry.nodes }
    {
        Scope {
            names: self.names,
            attributes: self.attributes,
            depth: self.depth,
            rules: self.rules,
            nodes: self.nodes,
        }
    }

    /// Adds the feature that a line declares at a depth, unless something is wrong with the line.
    pub(crate) fn declare(
        &mut self,
        line: &'a Feature,
        name: &Name,
        depth: usize,
    ) -> Result<(), FileFault>
        requires { IsWithin self.old }
        ensures found { IsFound
            (fault_of_declared (brought_of self.old) name.now (line_of (out-Feature line.now) depth)) result }
        ensures brought { OnOk result
            (brought_of self.new ≡ together (brought_of self.old)
            (declared depth (out-Feature line.now).attributes name.now)) }
        ensures within { OnOk result (IsWithin self.new) }
        ensures shallow { OnOk result (depth ≤ most_depth) }
    {
        let place = line.name.place;
        if depth > MOST_DEPTH {
            return Err(FileFault::At {
                place,
                kind: FaultKind::TooDeep,
            });
        }
        if !self.names.add(name.text())? {
            return Err(FileFault::At {
                place,
                kind: FaultKind::DuplicateFeature,
            });
        }
        if let Some(place) = repeated_key(self.alloc, line.attributes.as_slice())? {
            return Err(FileFault::At {
                place,
                kind: FaultKind::DuplicateAttribute,
            });
        }
        if self.names.len() > MOST_FEATURES {
            return Err(FileFault::At {
                place,
                kind: FaultKind::TooManyFeatures,
            });
        }
        self.attributes.push(line.attributes.as_slice())?;
        self.depth = self.depth.max(depth);
        Ok(())
    }

    /// Adds the tree that a line places at a depth, unless something is wrong with the line.
    pub(crate) fn place(
        &mut self,
        scopes: &[Scope<'a>],
        imports: &Imports,
        line: &'a Feature,
        depth: usize,
    ) -> Result<(), FileFault>
        requires within { IsWithin self.old }
        requires deep { 1 ≤ depth }
        ensures found { IsFound (fault_of_placing (placed_by scopes.now imports.now) (brought_of self.old)
            (line_of (out-Feature line.now) depth)) result }
        ensures brought { OnOk result (brought_of self.new ≡ together (brought_of self.old)
            (placed_at (placed_by scopes.now imports.now) depth (out-Feature line.now).name.parts)) }
        ensures within { OnOk result (IsWithin self.new) }
        ensures shallow { OnOk result (depth ≤ most_depth) }
    {
        let place = line.name.place;
        let Some((root, front)) = line.name.parts.as_slice().split_last() else {
            return Err(FileFault::At {
                place,
                kind: FaultKind::UnknownFeature,
            });
        };
        let qualifier = dotted(self.alloc, front)?;
        let Some(scope) = imports.placed(scopes, &qualifier, root) else {
            return Err(FileFault::At {
                place,
                kind: FaultKind::UnknownFeature,
            });
        };
        self.place_scope(scope, &qualifier, line, depth)
    }

    /// Adds the tree of a scope under a qualifier at a depth, unless something is wrong with the line.
    fn place_scope(
        &mut self,
        scope: &Scope<'a>,
        qualifier: &str,
        line: &'a Feature,
        depth: usize,
    ) -> Result<(), FileFault>
        requires within { IsWithin self.old }
        requires deep { 1 ≤ depth }
        ensures found { IsFound (fault_of_placed (brought_of self.old) (chars qualifier.now) scope.now
            (line_of (out-Feature line.now) depth)) result }
        ensures brought { OnOk result (brought_of self.new ≡ together (brought_of self.old)
            (placed depth (chars qualifier.now) (Some scope.now))) }
        ensures within { OnOk result (IsWithin self.new) }
        ensures shallow { OnOk result (depth ≤ most_depth) }
    {
        let place = line.name.place;
        if !self.placed.add(qualifier)? {
            return Err(FileFault::At {
                place,
                kind: FaultKind::PlacedTwice,
            });
        }
        if has_body(line) {
            return Err(FileFault::At {
                place,
                kind: FaultKind::BodyOnPlacedImport,
            });
        }
        if depth > MOST_DEPTH || scope.depth > MOST_DEPTH + 1 - depth {
            return Err(FileFault::At {
                place,
                kind: FaultKind::TooDeep,
            });
        }
        self.place_names(scope, qualifier, place, depth)
    }

    /// Adds what a scope has under a qualifier at a depth, unless one of its names is there or there would be
    /// too much. Where there is no room for the names, none of them is made.
    fn place_names(
        &mut self,
        scope: &Scope<'a>,
        qualifier: &str,
        place: Place,
        depth: usize,
    ) -> Result<(), FileFault>
        requires within { IsWithin self.old }
        requires shallow { depth + scope.now.depth - 1 ≤ most_depth }
        requires deep { 1 ≤ depth }
        ensures found { IsFound (fault_of_names (brought_of self.old)
            (placed depth (chars qualifier.now) (Some scope.now)) place) result }
        ensures names { OnOk result
            (self.new.names ≡ self.old.names ++ map (prefixed_name (chars qualifier.now)) scope.now.names) }
        ensures attributes { OnOk result (self.new.attributes ≡ self.old.attributes ++ scope.now.attributes) }
        ensures placed { self.new.placed ≡ self.old.placed }
        ensures depth { OnOk result (self.new.depth ≡ max self.old.depth (depth + scope.now.depth - 1)) }
        ensures rules { OnOk result (self.new.rules ≡ self.old.rules + scope.now.rules) }
        ensures nodes { OnOk result (self.new.nodes ≡ self.old.nodes + scope.now.nodes) }
        ensures within { OnOk result (IsWithin self.new) }
    {
        if let Some(kind) = self.overflow(scope) {
            if self.names.has_under(qualifier, &scope.names) {
                return Err(FileFault::At {
                    place,
                    kind: FaultKind::DuplicateFeature,
                });
            }
            return Err(FileFault::At { place, kind });
        }
        if !self.names.add_under(qualifier, &scope.names)? {
            return Err(FileFault::At {
                place,
                kind: FaultKind::DuplicateFeature,
            });
        }
        self.attributes.append(&scope.attributes)?;
        self.depth = self.depth.max(depth + scope.depth - 1);
        self.rules += scope.rules;
        self.nodes += scope.nodes;
        Ok(())
    }

    /// What there would be too many of with a scope.
    fn overflow(&self, scope: &Scope<'a>) -> Option<FaultKind>
        requires { IsWithin self.now }
        ensures { result ≡ overflow (brought_of self.now) scope.now }
    {
        if scope.names.len() > MOST_FEATURES - self.names.len() {
            return Some(FaultKind::TooManyFeatures);
        }
        if scope.rules > MOST_RULES - self.rules || scope.nodes > MOST_NODES - self.nodes {
            return Some(FaultKind::TooManyRules);
        }
        None
    }
}

/// Whether an attribute or a rule stands in the braces of a line, or groups stand below it.
fn has_body(line: &Feature) -> bool
    ensures { result ≡ has_more (line_of (out-Feature line.now) 0) }
{
    !line.attributes.is_empty() || !line.rules.is_empty() || !line.groups.is_empty()
}
