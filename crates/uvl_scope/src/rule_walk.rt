//! The walk over the rules of a file.
ghost use Rattle.std.specs.Prelude.{◌≡◌, ◌+◌, ◌++◌, map, OnOk};
ghost use Rattle.std.specs.List.{flat_map};
ghost use Rattle.uvl_ast.specs.Nodes.{nodes_of};
ghost use Rattle.uvl_ast.specs.Rules.{all_rules, all_rules_of_group};
ghost use Rattle.uvl_scope.specs.RuleFaults.{fault_behind_rules};
ghost use Rattle.uvl_scope.specs.steps.Walk.{AddsRules, IsFound, IsWithin, fault_in_rules};

use crate::fault::FileFault;
use crate::limits::{MOST_NODES, MOST_RULES};
use crate::rule_faults::first_fault;
use crate::rules::{nodes_left, place_of};
use crate::tally::Tally;
use uvl_ast::{Expr, Feature, Group};
use uvl_base::FaultKind;

impl<'a> Tally<'a> {
    /// Counts the rules of a file: those in braces of its root line and of all below it, and then those of
    /// its lines.
    pub(crate) fn add_all_rules(&mut self, root: &Feature, lines: &[Expr]) -> Result<(), FileFault>
        requires { IsWithin self.old }
        ensures found { IsFound (fault_in_rules self.old (all_rules root.now ++ lines.now)) result }
        ensures adds { OnOk result (AddsRules self.old self.new (all_rules root.now ++ lines.now)) }
    {
        let mut text = String::new(self.alloc);
        self.add_rules_of(&mut text, root)?;
        self.add_rules(&mut text, lines)
    }

    /// Counts a rule, unless something is wrong with it. The text is for names that dots join.
    pub(crate) fn add_rule(&mut self, text: &mut String, rule: &Expr) -> Result<(), FileFault>
        requires { IsWithin self.old }
        ensures found { IsFound (fault_behind_rules self.old.names self.old.attributes
            self.old.rules self.old.nodes rule.now) result }
        ensures names { self.new.names ≡ self.old.names }
        ensures attributes { self.new.attributes ≡ self.old.attributes }
        ensures depth { self.new.depth ≡ self.old.depth }
        ensures rules { OnOk result (self.new.rules ≡ self.old.rules + 1) }
        ensures nodes { OnOk result (self.new.nodes ≡ self.old.nodes + nodes_of rule.now) }
        ensures within { OnOk result (IsWithin self.new) }
    {
        let too_many = FileFault::At {
            place: place_of(rule),
            kind: FaultKind::TooManyRules,
        };
        if self.rules >= MOST_RULES {
            return Err(too_many);
        }
        let Some(left) = nodes_left(rule, MOST_NODES - self.nodes) else {
            return Err(too_many);
        };
        if let Some(found) = first_fault(&self.names, &self.attributes, text, rule, true)? {
            return Err(FileFault::At {
                place: found.place,
                kind: found.kind,
            });
        }
        self.rules += 1;
        self.nodes = MOST_NODES - left;
        Ok(())
    }

    /// Counts rules, up to the first with which something is wrong.
    pub(crate) fn add_rules(&mut self, text: &mut String, rules: &[Expr]) -> Result<(), FileFault>
        requires { IsWithin self.old }
        ensures found { IsFound (fault_in_rules self.old rules.now) result }
        ensures adds { OnOk result (AddsRules self.old self.new rules.now) }
    {
        for rule in rules {
            self.add_rule(text, rule)?;
        }
        Ok(())
    }

    /// Counts the rules in braces of a feature and of all below it.
    #[cycle(braces)]
    pub(crate) fn add_rules_of(
        &mut self,
        text: &mut String,
        line: &Feature,
    ) -> Result<(), FileFault>
        requires { IsWithin self.old }
        ensures found { IsFound (fault_in_rules self.old (all_rules line.now)) result }
        ensures adds { OnOk result (AddsRules self.old self.new (all_rules line.now)) }
    {
        self.add_rules(text, line.rules.as_slice())?;
        self.add_rules_of_groups(text, line.groups.as_slice())
    }

    /// Counts the rules in braces of all below groups.
    #[cycle(braces)]
    fn add_rules_of_groups(&mut self, text: &mut String, groups: &[Group]) -> Result<(), FileFault>
        requires { IsWithin self.old }
        ensures found { IsFound
            (fault_in_rules self.old (flat_map (λ rules. rules) (map all_rules_of_group groups.now))) result }
        ensures adds { OnOk result
            (AddsRules self.old self.new (flat_map (λ rules. rules) (map all_rules_of_group groups.now))) }
    {
        for group in groups {
            self.add_rules_of_members(text, group.members.as_slice())?;
        }
        Ok(())
    }

    /// Counts the rules in braces of members of a group and of all below them.
    #[cycle(braces)]
    fn add_rules_of_members(
        &mut self,
        text: &mut String,
        members: &[Feature],
    ) -> Result<(), FileFault>
        requires { IsWithin self.old }
        ensures found { IsFound
            (fault_in_rules self.old (flat_map (λ rules. rules) (map all_rules members.now))) result }
        ensures adds { OnOk result
            (AddsRules self.old self.new (flat_map (λ rules. rules) (map all_rules members.now))) }
    {
        for member in members {
            self.add_rules_of(text, member)?;
        }
        Ok(())
    }
}
