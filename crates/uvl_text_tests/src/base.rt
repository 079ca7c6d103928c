//! Names, texts, numbers and reserved words, and what is printed of a fault.
use std::alloc::Global;
use std::process::Abort;
use std::test::Fail;
use uvl_base::{
    FaultKind, Fixed, ModelFault, Name, NameFault, NumberFault, Place, Text, is_reserved,
};

const NAMES: [&str; 5] = ["Car", "Full Grain", "x.Radio", "größe", " "];

const NO_NAMES: [&str; 4] = ["", "a\"b", "a\nb", "a\r"];

fn expect_names(rt: &impl Abort, alloc: Global, texts: &[&str]) -> Result<(), Fail> {
    for text in texts {
        let name = Name::new(alloc, text)?.clone()?;
        assert_eq!(rt; name.text(), *text);
    }
    Ok(())
}

fn expect_no_names(rt: &impl Abort, alloc: Global, texts: &[&str]) {
    for text in texts {
        match Name::new(alloc, text) {
            Err(fault) => assert_eq!(rt; fault, NameFault::BadName),
            Ok(_) => assert!(rt; false, "a name: {text:?}"),
        }
    }
}

#[test]
fn a_name_is_any_text_without_quotes_and_line_breaks(rt: HostRuntime) -> Result<(), Fail> {
    expect_no_names(&rt, rt.alloc(), &NO_NAMES);
    expect_names(&rt, rt.alloc(), &NAMES)
}

/// Lines, columns and kinds of faults, and what is printed of them.
const FAULTS: [(u32, u32, FaultKind, &str); 5] = [
    (1, 1, FaultKind::Absent, "m.uvl:1:1 E01 Absent"),
    (2, 2, FaultKind::ImportCycle, "m.uvl:2:2 E20 ImportCycle"),
    (
        2051,
        4,
        FaultKind::TooManyFeatures,
        "m.uvl:2051:4 E23 TooManyFeatures",
    ),
    (130, 130, FaultKind::TooDeep, "m.uvl:130:130 E24 TooDeep"),
    (1, 1, FaultKind::NotBuilt, "m.uvl:1:1 E99 NotBuilt"),
];

fn expect_printed(
    rt: &impl Abort,
    alloc: Global,
    rows: &[(u32, u32, FaultKind, &str)],
) -> Result<(), Fail> {
    for (line, column, kind, printed) in rows {
        let fault = ModelFault {
            file: Text::new(alloc, "m.uvl")?,
            place: Place {
                line: *line,
                column: *column,
            },
            kind: *kind,
        };
        let text = format!(in alloc; "{fault}")?;
        assert_eq!(rt; text.as_str(), *printed);
    }
    Ok(())
}

#[test]
fn a_fault_prints_its_file_place_and_kind(rt: HostRuntime) -> Result<(), Fail> {
    expect_printed(&rt, rt.alloc(), &FAULTS)
}

const WORDS: [(&str, bool); 10] = [
    ("features", true),
    ("or", true),
    ("Boolean", true),
    ("constraint", true),
    ("constraints", true),
    ("Features", false),
    ("boolean", false),
    ("o", false),
    ("orr", false),
    ("", false),
];

/// Texts, and the numbers that they write in millionths.
const NUMBERS: [(&str, i64); 5] = [
    ("300", 300_000_000),
    ("700.5", 700_500_000),
    (".5", 500_000),
    ("-0.000001", -1),
    ("999999999999.999999", 999_999_999_999_999_999),
];

const NO_NUMBERS: [(&str, NumberFault); 6] = [
    ("1234567890123", NumberFault::TooWide),
    ("0.0000001", NumberFault::TooWide),
    ("1.", NumberFault::Shape),
    ("--1", NumberFault::Shape),
    ("1..2", NumberFault::Shape),
    ("", NumberFault::Shape),
];

fn expect_reserved(rt: &impl Abort, rows: &[(&str, bool)]) {
    for (word, reserved) in rows {
        assert_eq!(rt; is_reserved(word), *reserved, "{word}");
    }
}

fn expect_numbers(rt: &impl Abort, rows: &[(&str, i64)]) -> Result<(), Fail> {
    for (text, millionths) in rows {
        assert_eq!(rt; Fixed::read(text)?.millionths(), *millionths, "{text}");
    }
    Ok(())
}

fn expect_no_numbers(rt: &impl Abort, rows: &[(&str, NumberFault)]) {
    for (text, fault) in rows {
        assert_eq!(rt; Fixed::read(text).err(), Some(*fault), "{text}");
    }
}

#[test]
fn words_are_reserved_and_numbers_have_six_decimals_at_most(rt: HostRuntime) -> Result<(), Fail> {
    expect_reserved(&rt, &WORDS);
    expect_no_numbers(&rt, &NO_NUMBERS);
    expect_numbers(&rt, &NUMBERS)
}
