//! A token: its kind, and where it stands.

/// What a token is.
#[derive(Clone, Copy, Debug, PartialEq, Eq)]
pub enum Kind {
    /// A letter, and then letters, digits and underscores.
    Name,
    /// A text in quotes.
    Quoted,
    /// `(`
    LeftParen,
    /// `)`
    RightParen,
    /// `,`
    Comma,
    /// `:`
    Colon,
    /// `->`
    Arrow,
    /// `=`
    Equals,
    /// `|`
    Bar,
    /// A line feed.
    LineEnd,
    /// The end of the input.
    Finish,
}

/// A token, which stands from `start` up to `end`.
#[derive(Clone, Copy, Debug, PartialEq, Eq)]
pub struct Token {
    /// What it is.
    pub kind: Kind,
    /// The offset of its first byte.
    pub start: usize,
    /// The offset after its last byte.
    pub end: usize,
}
