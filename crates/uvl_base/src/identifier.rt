//! The characters of identifiers, and the texts that are identifiers.
ghost use Rattle.std.specs.Prelude.{◌≡◌, ◌∷◌, [], MatchOption, chars};
ghost use Rattle.std.specs.List.{list_all};
ghost use Rattle.uvl_base.specs.Identifier.{begins_identifier, continues_identifier, is_identifier};

/// Whether an identifier of UVL may begin with this character: `_`, or one of Unicode's XID_Start.
pub fn begins_identifier(character: char) -> bool
    ensures { result ≡ begins_identifier character }
{
    unicode_ident::is_xid_start(character) || character == '_'
}

/// Whether an identifier of UVL may go on with this character: one of Unicode's XID_Continue, `#`,
/// `%` or `?`.
pub fn continues_identifier(character: char) -> bool
    ensures { result ≡ continues_identifier character }
{
    unicode_ident::is_xid_continue(character) || matches!(character, '#' | '%' | '?')
}

/// Whether a text is an identifier of UVL.
pub(crate) fn is_identifier(text: &str) -> bool
    ensures { result ≡ is_identifier (chars text.now) }
{
    match split_first(text) {
        Some(parts) => begins_identifier(parts.0) && all_continue(parts.1),
        None => false,
    }
}

/// The first character, and what follows it.
fn split_first(text: &str) -> Option<(char, &str)>
    ensures { MatchOption result (chars text.now ≡ []) (λ parts. chars text.now ≡ parts.0 ∷ chars parts.1.now) }
{
    let mut characters = text.chars();
    let first = characters.next()?;
    Some((first, characters.as_str()))
}

fn all_continue(text: &str) -> bool
    ensures { result ≡ list_all continues_identifier (chars text.now) }
{
    text.chars().all(continues_identifier)
}
