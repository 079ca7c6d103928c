//! The text of a generated model.
ghost use Rattle.std.specs.Prelude.{◌≡◌, ℕ, ◌*◌, ◌++◌, ◌<◌, ◌≤◌, ◌+◌, IfOk, OnOk, codes, string_bytes, replicate};
ghost use Rattle.uvl_gen.specs.Generated as spec;

use std::alloc::Global;
use std::fmt::Write;
use uvl_base::OutOfMemory;

/// The most features of a generated model.
pub const MOST_GENERATED: u32 = 1_000;

/// The first features have a cost, up to this one.
const LAST_WITH_COST: u32 = 8;

/// The text of a model of `n` features F1 to Fn, 1 to 1,000 of them, which is the same at each call.
///
/// F1 is the root, and each four features, one after the other, are a group below one parent. All kinds
/// of groups take turns. Every tenth feature needs the one in front of it, and what the first features
/// cost is bounded. So it is a model of a realistic shape and of any size, to try a program on.
pub fn generate(alloc: Global, n: u32) -> Result<Vec<u8>, OutOfMemory>
    requires least { 1 ≤ n }
    requires most { n ≤ MOST_GENERATED }
    ensures { IfOk result (λ bytes. bytes.items ≡ spec.generated n) }
{
    let mut text = String::new(alloc);
    text.push_str("features\n")?;
    put_feature(n, 1, 1, &mut text)?;
    text.push_str("constraints\n")?;
    put_rules(n, &mut text)?;
    text.push_str("\tsum(cost) <= 25\n")?;
    Ok(text.into_bytes())
}

/// Appends the lines of a feature and of all below it.
fn put_feature(n: u32, tabs: u32, number: u32, text: &mut String) -> Result<(), OutOfMemory>
    requires first { 1 ≤ number }
    requires there { number ≤ n }
    requires most { n ≤ MOST_GENERATED }
    requires few { tabs ≤ 2 * number }
    ensures { OnOk result ((levels : ℕ) → n < number + levels →
        string_bytes text.new ≡ string_bytes text.old ++ spec.feature_lines levels n tabs number) }
{
    put_tabs(tabs, text)?;
    put_declaration(number, text)?;
    let first = 4 * number - 2;
    if first <= n {
        put_tabs(tabs + 1, text)?;
        put_kind(number, text)?;
        for child in first..n.min(4 * number + 1) + 1 {
            put_feature(n, tabs + 2, child, text)?;
        }
    }
    Ok(())
}

/// Appends tabs, of which a line has one for each level.
fn put_tabs(tabs: u32, text: &mut String) -> Result<(), OutOfMemory>
    ensures { OnOk result (string_bytes text.new ≡ string_bytes text.old ++ replicate tabs 9) }
{
    for _ in 0..tabs {
        text.push('\t')?;
    }
    Ok(())
}

/// Appends the line of a feature behind its tabs.
fn put_declaration(number: u32, text: &mut String) -> Result<(), OutOfMemory>
    ensures { OnOk result (string_bytes text.new
        ≡ string_bytes text.old ++ ((spec.name_of number ++ spec.attributes_of number) ++ codes "\n")) }
{
    if number <= LAST_WITH_COST {
        writeln!(text, "F{number} {{cost {number}}}")
    } else {
        writeln!(text, "F{number}")
    }
}

/// Appends the line of a feature's group behind its tabs.
fn put_kind(number: u32, text: &mut String) -> Result<(), OutOfMemory>
    ensures { OnOk result (string_bytes text.new ≡ string_bytes text.old ++ (spec.kind_of number ++ codes "\n")) }
{
    let kind = kind_of(number);
    writeln!(text, "{kind}")
}

/// The kind of a feature's group.
fn kind_of(number: u32) -> &'static str
    ensures { result.now ≡ spec.kind_of number }
{
    match number % 4 {
        0 => "mandatory",
        1 => "or",
        2 => "alternative",
        _ => "optional",
    }
}

/// Appends the rules of every tenth feature.
fn put_rules(n: u32, text: &mut String) -> Result<(), OutOfMemory>
    requires most { n ≤ MOST_GENERATED }
    ensures { OnOk result (string_bytes text.new
        ≡ string_bytes text.old ++ spec.rule_lines n) }
{
    for tens in 1..n / 10 + 1 {
        put_rule(10 * tens, text)?;
    }
    Ok(())
}

/// Appends the rule of a feature: it needs the one in front of it.
fn put_rule(number: u32, text: &mut String) -> Result<(), OutOfMemory>
    requires { 1 ≤ number }
    ensures { OnOk result (string_bytes text.new ≡ string_bytes text.old ++ spec.rule_line number) }
{
    let before = number - 1;
    writeln!(text, "\tF{number} => F{before}")
}
