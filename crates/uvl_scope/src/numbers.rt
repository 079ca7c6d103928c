//! Whether some rule speaks of numbers.
ghost use Rattle.std.specs.Prelude.{◌≡◌, map};
ghost use Rattle.std.specs.List.{flat_map, list_any};
ghost use Rattle.uvl_ast.specs.Rules.{all_rules, all_rules_of_group, rules_of};
ghost use Rattle.uvl_scope.specs.Faults.{have_numbers};
ghost use Rattle.uvl_scope.specs.Rules.{has_numbers};

use crate::rules::has_numbers;
use uvl_ast::{Expr, Feature, File, Group};
use uvl_imports::Loaded;

/// Whether some rule of some of the files has a literal, a sum, arithmetic or a comparison.
pub fn have_numbers(files: &[Loaded]) -> bool
    ensures { result ≡ have_numbers files.now }
{
    files.iter().any(|loaded| file_has_numbers(&loaded.file))
}

/// Whether some rule of a file does.
fn file_has_numbers(file: &File) -> bool
    ensures { result ≡ list_any has_numbers (rules_of file.now) }
{
    let in_braces = match &file.root {
        Some(root) => line_has_numbers(root),
        None => false,
    };
    in_braces || any_has_numbers(file.rules.as_slice())
}

/// Whether some of the rules does.
fn any_has_numbers(rules: &[Expr]) -> bool
    ensures { result ≡ list_any has_numbers rules.now }
{
    rules.iter().any(|rule| has_numbers(rule))
}

/// Whether some rule in braces of a feature or of one below it does.
#[cycle(numbers)]
fn line_has_numbers(line: &Feature) -> bool
    ensures { result ≡ list_any has_numbers (all_rules line.now) }
{
    any_has_numbers(line.rules.as_slice()) || groups_have_numbers(line.groups.as_slice())
}

/// Whether some rule in braces of a feature below the groups does.
#[cycle(numbers)]
fn groups_have_numbers(groups: &[Group]) -> bool
    ensures { result ≡ list_any has_numbers (flat_map (λ rules. rules) (map all_rules_of_group groups.now)) }
{
    for group in groups {
        if members_have_numbers(group.members.as_slice()) {
            return true;
        }
    }
    false
}

/// Whether some rule in braces of the members of a group or of one below them does.
#[cycle(numbers)]
fn members_have_numbers(members: &[Feature]) -> bool
    ensures { result ≡ list_any has_numbers (flat_map (λ rules. rules) (map all_rules members.now)) }
{
    for member in members {
        if line_has_numbers(member) {
            return true;
        }
    }
    false
}
