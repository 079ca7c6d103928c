//! The rules of a model while they grow: of each placed file its own, and then those of what it places.
ghost use Rattle.std.specs.Prelude.{◌≡◌, ◌+◌, ◌≤◌, ◌<◌, [], map, length, slice_get, OnOk};
ghost use Rattle.std.specs.List.{All, flat_map};
ghost use Rattle.uvl_ast.specs.Rules.{all_rules, all_rules_of_group, all_rules_of_root, rules_of};
ghost use Rattle.uvl_base.specs.Limits.{most_features};
ghost use Rattle.uvl_imports.specs.Sets.{IsWhole};
ghost use Rattle.uvl_placing.specs.Files.{said};
ghost use Rattle.uvl_placing.specs.Options.{known};
ghost use Rattle.uvl_resolve.specs.steps.Placements.{AreReady, heads_at};
ghost use Rattle.uvl_resolve.specs.steps.Rules.{IsPlain, Says, SaysRules, heads_in};
ghost use Rattle.uvl_resolve.specs.steps.Walk.{qualifiers_of};

use crate::placements::placements_of;
use crate::rule::rule_of;
use sqlite_items::Items;
use std::alloc::Global;
use uvl_ast::{Expr, Feature, File, Group};
use uvl_base::OutOfMemory;
use uvl_imports::Loaded;
use uvl_model::Rule;
use uvl_placing::files_are_read_in_order;
use uvl_scope::{NameIndex, Scope};

/// The rules so far.
#[derive(Drop)]
pub(crate) struct RuleBuilder {
    pub(crate) alloc: Global,
    pub(crate) rules: Items<Rule>,
}

impl RuleBuilder {
    /// No rules.
    pub(crate) fn new(alloc: Global) -> RuleBuilder
        ensures { result.rules ≡ [] }
    {
        RuleBuilder {
            alloc,
            rules: Items::new(alloc),
        }
    }

    /// Adds the rules of a file at a position of a set: its own, and then for each of its placing lines
    /// those of the file that is placed. The features of the file's placed tree are numbered from
    /// `offset` on. The scopes of all files are given, and the qualifiers of their import lines.
    pub(crate) fn add_file(
        &mut self,
        files: &[Loaded],
        scopes: &[Scope<'_>],
        qualifiers: &[NameIndex],
        at: usize,
        offset: usize,
    ) -> Result<(), OutOfMemory>
        requires whole { IsWhole files.now }
        requires ready { AreReady files.now scopes.now }
        requires known { qualifiers.now ≡ qualifiers_of files.now }
        requires there { at < length files.now }
        requires few { offset + length (heads_at scopes.now at) ≤ most_features }
        ensures { OnOk result (Says (heads_at scopes.now at) offset self.old.rules self.new.rules
            (known (slice_get (said files.now) at))) }
    {
        // A law, which is a fact for the proof.
        files_are_read_in_order();
        let loaded = &files[at];
        let scope = &scopes[at];
        self.add_own(&loaded.file, scope, offset)?;
        let placements = placements_of(self.alloc, loaded, &qualifiers[at], &scope.names)?;
        for placement in &placements {
            let number = offset + placement.number;
            self.add_file(files, scopes, qualifiers, placement.target, number)?;
        }
        Ok(())
    }

    /// Adds the rules of a file alone: those in braces, and then the lines of `constraints`.
    fn add_own(&mut self, file: &File, scope: &Scope<'_>, offset: usize) -> Result<(), OutOfMemory>
        requires few { offset + length scope.now.names ≤ most_features }
        requires plain { All (IsPlain (heads_in scope.now)) (rules_of file.now) }
        ensures { OnOk result (SaysRules (heads_in scope.now) offset self.old.rules self.new.rules
            (rules_of file.now)) }
    {
        self.add_braces(file, scope, offset)?;
        self.add_rules(file.rules.as_slice(), scope, offset)
    }

    /// Adds the rules in braces of a file.
    fn add_braces(
        &mut self,
        file: &File,
        scope: &Scope<'_>,
        offset: usize,
    ) -> Result<(), OutOfMemory>
        requires few { offset + length scope.now.names ≤ most_features }
        requires plain { All (IsPlain (heads_in scope.now)) (all_rules_of_root file.now.root) }
        ensures { OnOk result (SaysRules (heads_in scope.now) offset self.old.rules self.new.rules
            (all_rules_of_root file.now.root)) }
    {
        match &file.root {
            Some(root) => self.add_rules_of(root, scope, offset),
            None => Ok(()),
        }
    }

    /// Adds the rule that each of some expressions is.
    fn add_rules(
        &mut self,
        rules: &[Expr],
        scope: &Scope<'_>,
        offset: usize,
    ) -> Result<(), OutOfMemory>
        requires few { offset + length scope.now.names ≤ most_features }
        requires plain { All (IsPlain (heads_in scope.now)) rules.now }
        ensures { OnOk result (SaysRules (heads_in scope.now) offset self.old.rules self.new.rules
            rules.now) }
    {
        for rule in rules {
            let made = rule_of(self.alloc, rule, &scope.names, offset)?;
            self.rules.push(made)?;
        }
        Ok(())
    }

    /// Adds the rules in braces of a feature and of all below it.
    #[cycle(braces)]
    fn add_rules_of(
        &mut self,
        line: &Feature,
        scope: &Scope<'_>,
        offset: usize,
    ) -> Result<(), OutOfMemory>
        requires few { offset + length scope.now.names ≤ most_features }
        requires plain { All (IsPlain (heads_in scope.now)) (all_rules line.now) }
        ensures { OnOk result (SaysRules (heads_in scope.now) offset self.old.rules self.new.rules
            (all_rules line.now)) }
    {
        self.add_rules(line.rules.as_slice(), scope, offset)?;
        self.add_rules_of_groups(line.groups.as_slice(), scope, offset)
    }

    /// Adds the rules in braces of all below groups.
    #[cycle(braces)]
    fn add_rules_of_groups(
        &mut self,
        groups: &[Group],
        scope: &Scope<'_>,
        offset: usize,
    ) -> Result<(), OutOfMemory>
        requires few { offset + length scope.now.names ≤ most_features }
        requires plain { All (IsPlain (heads_in scope.now)) (flat_map (λ rules. rules) (map all_rules_of_group groups.now)) }
        ensures { OnOk result (SaysRules (heads_in scope.now) offset self.old.rules self.new.rules
            (flat_map (λ rules. rules) (map all_rules_of_group groups.now))) }
    {
        for group in groups {
            self.add_rules_of_members(group.members.as_slice(), scope, offset)?;
        }
        Ok(())
    }

    /// Adds the rules in braces of members of a group and of all below them.
    #[cycle(braces)]
    fn add_rules_of_members(
        &mut self,
        members: &[Feature],
        scope: &Scope<'_>,
        offset: usize,
    ) -> Result<(), OutOfMemory>
        requires few { offset + length scope.now.names ≤ most_features }
        requires plain { All (IsPlain (heads_in scope.now)) (flat_map (λ rules. rules) (map all_rules members.now)) }
        ensures { OnOk result (SaysRules (heads_in scope.now) offset self.old.rules self.new.rules
            (flat_map (λ rules. rules) (map all_rules members.now))) }
    {
        for member in members {
            self.add_rules_of(member, scope, offset)?;
        }
        Ok(())
    }
}
