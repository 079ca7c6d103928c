//! Trees as one line of text: their names, kinds and numbers, each number in millionths, and the
//! places of nodes, with a column alone inside an expression.
use std::alloc::AllocError;
use std::fmt::Write;
use uvl_ast::{AttrValue, Attribute, BinOp, Expr, Feature, File, Group, GroupKind, Import, Ref};
use uvl_base::{Fixed, Place};

fn sign_of(operator: BinOp) -> &'static str {
    match operator {
        BinOp::And => "&",
        BinOp::Or => "|",
        BinOp::Implies => "=>",
        BinOp::Iff => "<=>",
        BinOp::Equal => "==",
        BinOp::Differs => "!=",
        BinOp::Less => "<",
        BinOp::AtMost => "<=",
        BinOp::Greater => ">",
        BinOp::AtLeast => ">=",
        BinOp::Plus => "+",
        BinOp::Minus => "-",
        BinOp::Times => "*",
    }
}

fn put_number(into: &mut String, number: u64) -> Result<(), AllocError> {
    write!(into, "{number}")
}

fn put_millionths(into: &mut String, value: Fixed) -> Result<(), AllocError> {
    let millionths = value.millionths();
    write!(into, "{millionths}")
}

/// A node and the column in which it stands.
fn put(into: &mut String, node: &str, place: Place) -> Result<(), AllocError> {
    into.push_str(node)?;
    into.push('@')?;
    put_number(into, u64::from(place.column))
}

/// A node and the line and the column in which it stands.
pub(crate) fn put_placed(into: &mut String, node: &str, place: Place) -> Result<(), AllocError> {
    into.push_str(node)?;
    into.push('@')?;
    put_number(into, u64::from(place.line))?;
    into.push(':')?;
    put_number(into, u64::from(place.column))
}

fn put_names(into: &mut String, reference: &Ref) -> Result<(), AllocError> {
    let mut is_first = true;
    for name in reference.parts.as_slice() {
        if !is_first {
            into.push('.')?;
        }
        into.push_str(name.text())?;
        is_first = false;
    }
    Ok(())
}

/// A reference outside expressions.
fn put_reference(into: &mut String, reference: &Ref) -> Result<(), AllocError> {
    put_names(into, reference)?;
    put_placed(into, "", reference.place)
}

/// The tree with parentheses round each operator and its operands.
fn put_expression(into: &mut String, expr: &Expr) -> Result<(), AllocError> {
    match expr {
        Expr::Number(value, place) => {
            put_millionths(into, *value)?;
            put(into, "", *place)
        }
        Expr::Name(reference) => {
            put_names(into, reference)?;
            put(into, "", reference.place)
        }
        Expr::Sum(key, place) => {
            into.push_str("sum ")?;
            put(into, key.text(), *place)
        }
        Expr::Not(inner, place) => {
            put(into, "!", *place)?;
            put_expression(into, inner.get())
        }
        Expr::Binary(operator, left, right, place) => {
            into.push('(')?;
            put_expression(into, left.get())?;
            into.push(' ')?;
            put(into, sign_of(*operator), *place)?;
            into.push(' ')?;
            put_expression(into, right.get())?;
            into.push(')')
        }
    }
}

#[cycle(values)]
fn put_value(into: &mut String, value: &AttrValue) -> Result<(), AllocError> {
    match value {
        AttrValue::Yes => into.push_str("yes"),
        AttrValue::No => into.push_str("no"),
        AttrValue::Number(value) => put_millionths(into, *value),
        AttrValue::Words(text) => {
            into.push('\'')?;
            into.push_str(text.text())?;
            into.push('\'')
        }
        AttrValue::List(attributes) => {
            into.push('{')?;
            for attribute in attributes.as_slice() {
                put_attribute(into, attribute)?;
            }
            into.push('}')
        }
        AttrValue::Vector(values) => {
            into.push('[')?;
            for value in values.as_slice() {
                into.push(' ')?;
                put_value(into, value)?;
            }
            into.push(']')
        }
    }
}

#[cycle(values)]
fn put_attribute(into: &mut String, attribute: &Attribute) -> Result<(), AllocError> {
    into.push(' ')?;
    put_placed(into, attribute.key.text(), attribute.place)?;
    into.push('=')?;
    put_value(into, &attribute.value)
}

fn put_kind(into: &mut String, kind: GroupKind) -> Result<(), AllocError> {
    match kind {
        GroupKind::Mandatory => into.push_str("mandatory"),
        GroupKind::Optional => into.push_str("optional"),
        GroupKind::Alternative => into.push_str("alternative"),
        GroupKind::Or => into.push_str("or"),
        GroupKind::Range { lo, hi } => put_range(into, lo, hi),
    }
}

fn put_range(into: &mut String, lo: u64, hi: Option<u64>) -> Result<(), AllocError> {
    put_number(into, lo)?;
    into.push_str("..")?;
    match hi {
        Some(hi) => put_number(into, hi),
        None => into.push('*'),
    }
}

#[cycle(features)]
fn put_feature(into: &mut String, feature: &Feature) -> Result<(), AllocError> {
    put_reference(into, &feature.name)?;
    for attribute in feature.attributes.as_slice() {
        put_attribute(into, attribute)?;
    }
    for rule in feature.rules.as_slice() {
        into.push_str(" rule ")?;
        put_expression(into, rule)?;
    }
    for group in feature.groups.as_slice() {
        put_group(into, group)?;
    }
    Ok(())
}

#[cycle(features)]
fn put_group(into: &mut String, group: &Group) -> Result<(), AllocError> {
    into.push(' ')?;
    put_kind(into, group.kind)?;
    put_placed(into, "", group.place)?;
    into.push('(')?;
    for member in group.members.as_slice() {
        into.push(' ')?;
        put_feature(into, member)?;
    }
    into.push(')')
}

fn put_import(into: &mut String, import: &Import) -> Result<(), AllocError> {
    put_placed(into, "import", import.place)?;
    into.push(' ')?;
    put_reference(into, &import.path)?;
    if let Some(alias) = &import.alias {
        into.push_str(" as ")?;
        put_reference(into, alias)?;
    }
    into.push(';')
}

/// What stands in front of the features section.
fn put_head(into: &mut String, file: &File) -> Result<(), AllocError> {
    if let Some(namespace) = &file.namespace {
        into.push_str("namespace ")?;
        put_reference(into, namespace)?;
        into.push(';')?;
    }
    for level in file.levels.as_slice() {
        into.push_str("include ")?;
        into.push_str(level.text())?;
        into.push(';')?;
    }
    for import in file.imports.as_slice() {
        put_import(into, import)?;
    }
    Ok(())
}

/// All of a file, with a semicolon behind each part, and where it ends.
pub(crate) fn put_file(into: &mut String, file: &File) -> Result<(), AllocError> {
    put_head(into, file)?;
    if let Some(root) = &file.root {
        put_feature(into, root)?;
        into.push(';')?;
    }
    for rule in file.rules.as_slice() {
        into.push_str("rule ")?;
        put_expression(into, rule)?;
        into.push(';')?;
    }
    put_placed(into, "end", file.finish)
}
