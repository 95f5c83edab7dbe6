//! The separators of printed lists.

/// How the elements of a list are separated.
#[derive(Clone, Copy, Debug, PartialEq, Eq)]
pub enum ListSeparator {
    /// By nothing.
    None,
    /// By a newline and the indentation.
    Newline,
    /// By a character, a newline and the indentation.
    CharNewline(char),
    /// By a character.
    Char(char),
    /// By a character and a space.
    CharSpace(char),
}
