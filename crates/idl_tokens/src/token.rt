//! Tokens and where they stand in a text.

use base_lists::Span;

/// A token. A word or literal is where it stands in the text, a literal without its quotes.
#[derive(Clone, Copy, Debug)]
pub enum Token {
    Word(Span),
    /// `None` where the number is none of 64 bits with a sign.
    Number(Option<i64>),
    Literal(Span),
    /// One of `{ } ( ) < > [ ] : = , ; * @`.
    Mark(u8),
    /// The end of the text.
    Finish,
    /// What is no token. None follows it.
    Bad,
}

/// A token and its line: 1 plus the number of newlines before it.
#[derive(Clone, Copy, Debug)]
pub struct Placed {
    pub token: Token,
    pub line: u32,
}
