//! What stands at a place of a text: a space, a comment or a token.
ghost use Rattle.std.specs.Prelude.{◌≡◌, ℕ, ◌+◌, ◌-◌, ◌≤◌, ◌<◌, length, IfSome, ◌∷◌, List};
ghost use Rattle.idl_tokens.specs.Tokens.{front as front_in, plain_front as plain_front_in, line_comment as line_comment_of, behind_slash as behind_slash_of, behind_quote as behind_quote_of, behind_sign as behind_sign_of, unsigned_number as unsigned_number_of, comment_end as comment_end_of};
ghost use Rattle.idl_tokens.specs.Numbers.{magnitude as magnitude_of};
ghost use Rattle.idl_tokens.specs.Spans.{front_of};

use crate::characters::{
    begins_with, is_digit, is_mark, is_space, is_word_start, line_len, literal_len, word_len,
};
use crate::numbers::{number_of, read_magnitude};

/// What stands at a place.
#[derive(Clone, Copy, Debug)]
pub enum Piece {
    /// A space or a comment.
    Blank,
    Word,
    /// `None` where the number is none of 64 bits with a sign.
    Number(Option<i64>),
    Literal,
    Mark(u8),
    /// What is no token.
    Wrong,
}

/// What stands at a place, and the number of characters that it has behind its first.
#[derive(Clone, Copy, Debug)]
pub struct Front {
    pub piece: Piece,
    pub more: usize,
}

const WRONG: Front = Front {
    piece: Piece::Wrong,
    more: 0,
};

fn line_comment(rest: &[u8]) -> Front
    ensures same { (c : ℕ) (text : List ℕ) → front_of c text result ≡ line_comment_of rest.now }
    ensures fits { result.more ≤ length rest.now }
{
    Front {
        piece: Piece::Blank,
        more: line_len(rest),
    }
}

// The number of characters up to the first `*/` and with it, and one more.
fn comment_end(text: &[u8]) -> Option<usize>
    ensures end { result ≡ comment_end_of 1 text.now }
    ensures fits { IfSome result (λ n. n ≤ length text.now + 1) }
{
    let mut passed: usize = 1;
    let mut rest = text;
    'characters: while let Some((first, after)) = rest.split_first() {
        if *first == b'*' && begins_with(b'/', after) {
            return Some(passed + 2);
        }
        passed += 1;
        rest = after;
    }
    None
}

fn behind_slash(rest: &[u8]) -> Front
    ensures same { (c : ℕ) (text : List ℕ) → front_of c text result ≡ behind_slash_of rest.now }
    ensures fits { result.more ≤ length rest.now }
{
    let Some((first, after)) = rest.split_first() else {
        return WRONG;
    };
    if *first == b'/' {
        return line_comment(rest);
    }
    if *first != b'*' {
        return WRONG;
    }
    match comment_end(after) {
        Some(more) => Front {
            piece: Piece::Blank,
            more,
        },
        None => WRONG,
    }
}

fn behind_quote(quote: u8, rest: &[u8]) -> Front
    ensures same { (c : ℕ) → front_of c rest.now result ≡ behind_quote_of quote rest.now }
    ensures fits { result.more ≤ length rest.now }
{
    let len = literal_len(quote, rest);
    let (_, after) = rest.split_at(len);
    if begins_with(quote, after) {
        Front {
            piece: Piece::Literal,
            more: len + 1,
        }
    } else {
        WRONG
    }
}

fn behind_sign(minus: bool, rest: &[u8]) -> Front
    ensures same { (c : ℕ) (text : List ℕ) → front_of c text result ≡ behind_sign_of minus (magnitude_of rest.now) }
    ensures fits { result.more ≤ length rest.now }
{
    let found = read_magnitude(rest);
    if 0 < found.len {
        Front {
            piece: Piece::Number(number_of(minus, found.value)),
            more: found.len,
        }
    } else {
        WRONG
    }
}

fn unsigned_number(text: &[u8]) -> Front
    ensures same { (c : ℕ) (rest : List ℕ) → front_of c rest result ≡ unsigned_number_of (magnitude_of text.now) }
    ensures fits { result.more ≤ length text.now - 1 }
{
    let found = read_magnitude(text);
    Front {
        piece: Piece::Number(number_of(false, found.value)),
        more: found.len.saturating_sub(1),
    }
}

/// What stands at the beginning of a text.
pub fn front_at(first: u8, rest: &[u8], text: &[u8]) -> Front
    requires { text.now ≡ first ∷ rest.now }
    ensures same { front_of first rest.now result ≡ front_in first rest.now }
    ensures fits { result.more ≤ length rest.now }
{
    if is_space(first) {
        return Front {
            piece: Piece::Blank,
            more: 0,
        };
    }
    match first {
        b'#' => line_comment(rest),
        b'/' => behind_slash(rest),
        b'-' => behind_sign(true, rest),
        b'+' => behind_sign(false, rest),
        b'\'' | b'"' => behind_quote(first, rest),
        _ => plain_front_at(first, rest, text),
    }
}

// What stands at a letter, a digit or a mark.
fn plain_front_at(first: u8, rest: &[u8], text: &[u8]) -> Front
    requires { text.now ≡ first ∷ rest.now }
    ensures same { front_of first rest.now result ≡ plain_front_in first rest.now }
    ensures fits { result.more ≤ length rest.now }
{
    if is_word_start(first) {
        Front {
            piece: Piece::Word,
            more: word_len(rest),
        }
    } else if is_digit(first) {
        unsigned_number(text)
    } else if is_mark(first) {
        Front {
            piece: Piece::Mark(first),
            more: 0,
        }
    } else {
        WRONG
    }
}
