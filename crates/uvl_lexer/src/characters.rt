//! The characters of a text, from its front on.
ghost use Rattle.std.specs.Prelude.{◌≡◌, ◌<◌, ◌≤◌, [], ◌++◌, MatchOption, take, drop, length, slice_index, chars, IsUtf8};
ghost use Rattle.std.specs.Bool.{OnTrue};
ghost use Rattle.std.specs.List.{prefix_len};
ghost use Rattle.std.specs.Str.{IsAscii};
ghost use Rattle.uvl_base.specs.Identifier.{continues_identifier};
ghost use Rattle.uvl_base.specs.Name.{may_stand_in_name};
ghost use Rattle.uvl_lexer.specs.Characters.{is_of_class, begins_with, may_stand_in_text, stays_in_line};
ghost use Rattle.uvl_lexer.specs.steps.Bytes.{is_byte_of_class, is_identifier_sign, first_beyond_ascii, IsSplit};

use uvl_base::continues_identifier;

/// A class of characters that a token goes on with.
#[derive(Clone, Copy, Debug, PartialEq, Eq)]
pub(crate) enum CharacterClass {
    InIdentifier,
    Digit,
    /// What stands between double quotes.
    InQuotes,
    /// What stands between single quotes.
    InText,
    /// What is neither LF nor CR.
    InLine,
}

/// The first character, and what follows it.
pub(crate) fn split_first(text: &str) -> Option<(char, &str)>
    ensures { MatchOption result (chars text.now ≡ []) (λ parts. IsSplit text.now parts.0 parts.1.now) }
{
    let mut characters = text.chars();
    let first = characters.next()?;
    Some((first, characters.as_str()))
}

/// Whether the first character is this one.
pub(crate) fn begins_with(text: &str, character: char) -> bool
    ensures value { result ≡ begins_with character (chars text.now) }
    ensures within { OnTrue result (1 ≤ length (chars text.now)) }
{
    match split_first(text) {
        Some(parts) => parts.0 == character,
        None => false,
    }
}

/// How many characters from the front on are of the class.
pub(crate) fn count_while(text: &str, class: CharacterClass) -> usize
    ensures count { result ≡ prefix_len (is_of_class class) (chars text.now) }
    ensures within { result ≤ length (chars text.now) }
{
    // Most texts are ASCII, whose bytes are its characters.
    let bytes = text.as_bytes();
    let count = count_bytes_while(bytes, class);
    if is_ascii_at(bytes, count) {
        count
    } else {
        count_characters_while(text, class)
    }
}

/// How many bytes from the front on are characters of ASCII that are of the class.
fn count_bytes_while(bytes: &[u8], class: CharacterClass) -> usize
    ensures { result ≡ prefix_len (is_byte_of_class class) bytes.now }
{
    bytes
        .iter()
        .take_while(|byte| is_byte_of_class(class, **byte))
        .count()
}

/// Whether the byte at a place is a character of ASCII, or no byte is there.
fn is_ascii_at(bytes: &[u8], place: usize) -> bool
    ensures { OnTrue result (place < length bytes.now → slice_index bytes.now place < first_beyond_ascii) }
{
    match bytes.get(place) {
        Some(byte) => byte.is_ascii(),
        None => true,
    }
}

/// The same as `count_while`, for a text with other characters too.
fn count_characters_while(text: &str, class: CharacterClass) -> usize
    ensures count { result ≡ prefix_len (is_of_class class) (chars text.now) }
    ensures within { result ≤ length (chars text.now) }
{
    let mut count = 0;
    for character in text.chars() {
        if !is_of_class(class, character) {
            return count;
        }
        count += 1;
    }
    count
}

/// The first `count` characters, and those that follow.
pub(crate) fn split_at_count(text: &str, count: usize) -> (&str, &str)
    requires { count ≤ length (chars text.now) }
    ensures front { chars result.0.now ≡ take count (chars text.now) }
    ensures rest { chars result.1.now ≡ drop count (chars text.now) }
    ensures bytes { text.now ≡ result.0.now ++ result.1.now }
    ensures utf8 { IsUtf8 result.1.now }
{
    if begins_ascii(text.as_bytes(), count) {
        text.split_at(count)
    } else {
        split_at_character(text, count)
    }
}

/// Whether so many bytes in front are characters of ASCII.
fn begins_ascii(bytes: &[u8], count: usize) -> bool
    ensures { OnTrue result ((count ≤ length bytes.now) × IsAscii (take count bytes.now)) }
{
    match bytes.get(..count) {
        Some(front) => front.is_ascii(),
        None => false,
    }
}

/// The same as `split_at_count`, for a text with other characters too.
fn split_at_character(text: &str, count: usize) -> (&str, &str)
    requires { count ≤ length (chars text.now) }
    ensures front { chars result.0.now ≡ take count (chars text.now) }
    ensures rest { chars result.1.now ≡ drop count (chars text.now) }
    ensures bytes { text.now ≡ result.0.now ++ result.1.now }
    ensures utf8 { IsUtf8 result.1.now }
{
    let mut rest = text;
    for _taken in 0..count {
        let Some(parts) = split_first(rest) else {
            unreachable!();
        };
        rest = parts.1;
    }
    text.split_at(text.len() - rest.len())
}

fn is_of_class(class: CharacterClass, character: char) -> bool
    ensures { result ≡ is_of_class class character }
{
    match class {
        CharacterClass::InIdentifier => continues_identifier(character),
        CharacterClass::Digit => character.is_ascii_digit(),
        CharacterClass::InQuotes => may_stand_in_name(character),
        CharacterClass::InText => may_stand_in_text(character),
        CharacterClass::InLine => stays_in_line(character),
    }
}

/// Whether a byte alone is a character of the class.
fn is_byte_of_class(class: CharacterClass, byte: u8) -> bool
    ensures { result ≡ is_byte_of_class class byte }
{
    byte.is_ascii()
        && match class {
            CharacterClass::InIdentifier => continues_ascii_identifier(byte),
            CharacterClass::Digit => byte.is_ascii_digit(),
            CharacterClass::InQuotes => !matches!(byte, b'"' | b'\n' | b'\r'),
            CharacterClass::InText => !matches!(byte, b'\'' | b'\n' | b'\r'),
            CharacterClass::InLine => !matches!(byte, b'\n' | b'\r'),
        }
}

/// The same as `continues_identifier`, without a look into the tables of Unicode.
fn continues_ascii_identifier(byte: u8) -> bool
    requires { byte < first_beyond_ascii }
    ensures { result ≡ continues_identifier byte }
{
    byte.is_ascii_alphanumeric() || is_identifier_sign(byte)
}

/// Of the characters of ASCII that go on an identifier, those that are no letters and digits.
fn is_identifier_sign(byte: u8) -> bool
    ensures { result ≡ is_identifier_sign byte }
{
    matches!(byte, b'_' | b'#' | b'%' | b'?')
}

fn may_stand_in_name(character: char) -> bool
    ensures { result ≡ may_stand_in_name character }
{
    !matches!(character, '"' | '\n' | '\r')
}

fn may_stand_in_text(character: char) -> bool
    ensures { result ≡ may_stand_in_text character }
{
    !matches!(character, '\'' | '\n' | '\r')
}

fn stays_in_line(character: char) -> bool
    ensures { result ≡ stays_in_line character }
{
    !matches!(character, '\n' | '\r')
}
