//! The lexer over the rows of the language's description: each token by one sign, and each refusal.
use crate::tokens::tokens_of;
use std::alloc::{AllocError, Global};
use std::process::Abort;
use std::test::Fail;
use uvl_base::{FaultKind, MOST_FILE_BYTES, Place};
use uvl_lexer::{LexFault, Token, TokenKind, lex};

fn sign_of(kind: &TokenKind) -> char {
    match kind {
        TokenKind::Name { .. } => 'n',
        TokenKind::Word(_) => 'w',
        TokenKind::Number { whole, .. } => { if *whole { '1' } else { 'd' } }
        TokenKind::Text(_) => 't',
        TokenKind::Symbol(_) => 's',
        TokenKind::Indent => '>',
        TokenKind::Dedent => '<',
        TokenKind::Newline => ';',
        TokenKind::Finish => '.',
    }
}

fn signs_of(alloc: Global, tokens: &[Token]) -> Result<String, AllocError> {
    let mut signs = String::new(alloc);
    for token in tokens {
        signs.push(sign_of(&token.kind))?;
    }
    Ok(signs)
}

/// Texts, and the signs of their tokens.
const READ: [(&str, &str); 15] = [
    ("", "."),
    ("features\n\tA {x 1,\n\t\ty .5}\n", "w;>nsn1snds;<."),
    ("a\n\tb\n\t\tc\nd\n", "n;>n;>n;<<n;."),
    ("1..2", "1s1;."),
    ("1.", "1s;."),
    (".5 1.5", "dd;."),
    ("\"a\" a \"or\" or", "nnnw;."),
    (
        "\u{feff}features\r\n        Car\r\n\t\tmandatory\r\n",
        "w;>n;>w;<<.",
    ),
    ("a // b\r\n/* c\n\t*/ d 'e'", "n;>nt;<."),
    ("a <=> b => !c /* or */ <= d", "nsnssnsn;."),
    ("größe#%? == 'x//y'", "nst;."),
    ("/* a /* b */ c */ \"/*\" // d\re", ">nssn;<."),
    ("a\n  \tb\n\tc\n        d\n", "n;>n;n;n;<."),
    ("(a\n[\n\tb]\n  c)\nd\n", "snsnsns;n;."),
    ("/* a */ b\n// c\n\n\t/*\n*/\n", ">n;<."),
];

fn expect_signs(rt: &impl Abort, alloc: Global, rows: &[(&str, &str)]) -> Result<(), Fail> {
    for (text, signs) in rows {
        let tokens = tokens_of(alloc, text)?;
        let found = signs_of(alloc, &tokens)?;
        assert_eq!(rt; found.as_str(), *signs, "{text:?}");
    }
    Ok(())
}

#[test]
fn a_text_is_cut_into_the_longest_tokens_with_layout_marks(rt: HostRuntime) -> Result<(), Fail> {
    expect_signs(&rt, rt.alloc(), &READ)
}

/// Texts that can't be read, with the line, the column and the kind of the fault.
const REFUSED: [(&str, u32, u32, FaultKind); 18] = [
    (
        "features\n\tA\n\t\toptional\n            B\n",
        4,
        13,
        FaultKind::BadIndent,
    ),
    ("features\n\tA {\n", 3, 1, FaultKind::Unclosed),
    ("features\n\tA $\n", 2, 4, FaultKind::BadCharacter),
    (
        "features\n\tA {p 1234567890123}\n",
        2,
        7,
        FaultKind::NumberTooWide,
    ),
    ("features\n\t\"A\n", 2, 2, FaultKind::Unclosed),
    ("a\n\t\tb\n\t)", 3, 2, FaultKind::BadIndent),
    ("/*/", 1, 1, FaultKind::Unclosed),
    ("a \"\"", 1, 3, FaultKind::BadCharacter),
    ("a\rb", 1, 2, FaultKind::BadCharacter),
    ("größe (]", 1, 8, FaultKind::Unclosed),
    ("features\n\tA\n\t\t[2..3}\n", 3, 8, FaultKind::Unclosed),
    (
        "features\n\tA\n\t\t[0..1000000000000]\n",
        3,
        7,
        FaultKind::NumberTooWide,
    ),
    ("features\n\tA {p 'x\n", 2, 7, FaultKind::Unclosed),
    ("/* note\nfeatures\n", 1, 1, FaultKind::Unclosed),
    (
        "features\n\tA\nconstraints\n\tA = A\n",
        4,
        4,
        FaultKind::BadCharacter,
    ),
    ("\u{feff}a\u{feff}", 1, 2, FaultKind::BadCharacter),
    ("a .1234567", 1, 3, FaultKind::NumberTooWide),
    ("a /* b\n*/ \t\"", 2, 5, FaultKind::Unclosed),
];

fn expect_refused(rt: &impl Abort, alloc: Global, rows: &[(&str, u32, u32, FaultKind)]) {
    for (text, line, column, kind) in rows {
        assert!(rt; text.len() <= MOST_FILE_BYTES);
        let wanted = LexFault::At {
            place: Place {
                line: *line,
                column: *column,
            },
            kind: *kind,
        };
        match lex(alloc, text) {
            Err(fault) => assert_eq!(rt; fault, wanted, "{text:?}"),
            Ok(_) => assert!(rt; false, "{text:?} is read"),
        }
    }
}

#[test]
fn a_text_stops_at_the_first_place_that_cannot_be_read(rt: HostRuntime) {
    expect_refused(&rt, rt.alloc(), &REFUSED);
}

/// How many of the tokens are this name.
fn count_of(tokens: &[Token], wanted: &str) -> usize {
    let mut count = 0usize;
    for token in tokens {
        if let TokenKind::Name { name, .. } = &token.kind {
            if name.text() == wanted {
                count = count.saturating_add(1);
            }
        }
    }
    count
}

#[test]
fn a_name_is_the_same_in_quotes_and_without(rt: HostRuntime) -> Result<(), Fail> {
    let tokens = tokens_of(rt.alloc(), "\"größe\" größe")?;
    assert_eq!(rt; count_of(&tokens, "größe"), 2);
    Ok(())
}
