//! The layout tokens.

/// A token that tells the layout, or the end of the file.
#[derive(Clone, Copy)]
pub(crate) enum Layout {
    Newline,
    Indent,
    Dedent,
    Finish,
}
