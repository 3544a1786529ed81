//! Splitting a text into its tokens.
ghost use Rattle.std.specs.Prelude.{◌≡◌, ◌+◌, ◌^◌, ◌≤◌, ◌<◌, length, IfOk, OnOk, List, ℕ, ◌++◌};
ghost use Rattle.std.specs.List.{count_by};
ghost use Rattle.std.specs.Prelude.{◌==◌};
ghost use Rattle.idl_tokens.specs.Tokens.{tokens as tokens_in};
ghost use Rattle.idl_tokens.specs.Spans.{toks, token_of, placed_at, is_wrong as is_wrong_of};

use crate::fronts::{Front, Piece, front_at};
use crate::token::{Placed, Token};
use base_lists::Span;
use std::alloc::{AllocError, AllocFailed, Global};

fn newlines(text: &[u8]) -> usize
    ensures count { result ≡ count_by (λ c. c == 10) text.now }
    ensures fits { result ≤ length text.now }
{
    text.iter().filter(|c| **c == b'\n').count()
}

// The token that was found at this place.
fn token_at(at: usize, found: Front) -> Option<Token>
    requires place { at + found.more < 2 ^ 31 }
    ensures { result ≡ token_of at found }
{
    let start = at as u32;
    let more = found.more as u32;
    match found.piece {
        Piece::Blank => None,
        Piece::Word => Some(Token::Word(Span {
            start,
            len: more + 1,
        })),
        Piece::Number(n) => Some(Token::Number(n)),
        Piece::Literal => Some(Token::Literal(Span {
            start: start + 1,
            len: more.saturating_sub(1),
        })),
        Piece::Mark(m) => Some(Token::Mark(m)),
        Piece::Wrong => Some(Token::Bad),
    }
}

// Adds the token that was found at this place, where there is one.
fn keep(
    tokens: &mut Vec<Placed>,
    at: usize,
    line: u32,
    found: Front,
) -> Result<(), AllocFailed<Placed>>
    requires { at + found.more < 2 ^ 31 }
    ensures { OnOk result (tokens.new.items ≡ tokens.old.items ++ placed_at at line found) }
{
    match token_at(at, found) {
        Some(token) => tokens.push(Placed { token, line }),
        None => Ok(()),
    }
}

fn is_wrong(found: Front) -> bool
    ensures { result ≡ is_wrong_of found }
{
    match found.piece {
        Piece::Wrong => true,
        _ => false,
    }
}

/// The tokens of a text. The last is `Finish` or `Bad`, and there is no other of these.
pub fn split(alloc: Global, text: &str) -> Result<Vec<Placed>, AllocError>
    requires { length text.now < 2 ^ 31 }
    ensures { IfOk result (λ found. toks text.now found.items ≡ tokens_in text.now) }
{
    let mut tokens: Vec<Placed> = Vec::new(alloc);
    let mut at: usize = 0;
    let mut line: u32 = 1;
    let mut left = text.as_bytes();
    'tokens: while let Some((first, rest)) = left.split_first() {
        let found = front_at(*first, rest, left);
        keep(&mut tokens, at, line, found)?;
        if is_wrong(found) {
            return Ok(tokens);
        }
        let (passed, behind) = left.split_at(found.more + 1);
        line += newlines(passed) as u32;
        at += found.more + 1;
        left = behind;
    }
    tokens.push(Placed {
        token: Token::Finish,
        line,
    })?;
    Ok(tokens)
}
