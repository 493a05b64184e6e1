// What a line is cut into.

/// What a token is.
#[derive(Clone, Copy, PartialEq, Eq)]
pub enum TokenKind {
    /// A name of 1 to 31 letters, digits, `_`, `$` and `.`, or a local label such as `10$`.
    Name,
    /// A number, with its value: digits, or `^B`, `^O`, `^D` or `^X` and digits.
    Number(u64),
    /// One printable character that belongs to no other token.
    Mark(u8),
    /// A quoted text with both of its delimiters.
    Text,
}

/// A token, and the bytes of the line that it takes: from `start` up to `end`, which is past its last.
#[derive(Clone, Copy, PartialEq, Eq)]
pub struct Token {
    pub kind: TokenKind,
    pub start: u32,
    pub end: u32,
}

/// What a piece of a line is.
#[derive(Clone, Copy, PartialEq, Eq)]
pub enum PieceKind {
    Token(TokenKind),
    /// A number above 64 bits.
    Wide,
    /// A byte where no token begins.
    Bad,
}

/// A piece of a line, and the bytes that it takes: from `start` up to `end`, which is past its last.
#[derive(Clone, Copy, PartialEq, Eq)]
pub struct Piece {
    pub kind: PieceKind,
    pub start: u32,
    pub end: u32,
}

/// Some bytes of a text: from `start` up to `end`, which is past the last.
#[derive(Clone, Copy, PartialEq, Eq)]
pub struct Span {
    pub start: u32,
    pub end: u32,
}

/// Why a line has no tokens.
#[derive(Clone, Copy, Debug, PartialEq, Eq, thiserror::Error)]
pub enum LexError {
    /// At this byte of the line no token begins.
    #[error("no token begins at byte {0}")]
    Token(u32),
    /// The number that begins at this byte of the line is above 64 bits.
    #[error("the number at byte {0} is above 64 bits")]
    Wide(u32),
    /// Memory was refused.
    #[error("out of memory")]
    NoMemory,
}
