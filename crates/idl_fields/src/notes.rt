//! Annotations, which have no effect.

ghost use Rattle.std.specs.Prelude.{◌≡◌};
ghost use Rattle.idl_tokens.specs.Tokens.{Tok};
ghost use Rattle.idl_tokens.specs.Spans.{tok_of, spot_of, toks};
ghost use Rattle.idl_grammar.specs.Grammar.{token as token_that, loop as loop_of};
ghost use Rattle.exact_reading.specs.Reading.{Gives};
ghost use Rattle.idl_grammar.specs.Run.{run, outcome};
ghost use Rattle.idl_profile.specs.Judged.{a_value, a_note, yes};
ghost use Rattle.idl_profile.specs.Text.{note, ann, ended};

use crate::reading::{is_mark, none_left, read_mark, read_sep, wrong};
use crate::words::{has_backslash, is_refused_note};
use base_lists::text_at;
use idl_grammar::{Fault, ReadError};
use idl_tokens::{Placed, Token};

fn read_value<'a>(text: &str, tokens: &'a [Placed]) -> Result<&'a [Placed], ReadError>
    ensures { Gives (λ x. (tt, toks text.now x.now)) result (run (token_that a_value) (toks text.now tokens.now)) }
{
    let Some((first, rest)) = tokens.split_first() else {
        return Err(none_left());
    };
    match first.token {
        Token::Word(_) => Ok(rest),
        Token::Number(Some(_)) => Ok(rest),
        Token::Number(None) => Err(wrong(Fault::Unsupported, first)),
        Token::Literal(x) => {
            if has_backslash(text_at(text, x)) {
                Err(wrong(Fault::Unsupported, first))
            } else {
                Ok(rest)
            }
        }
        Token::Mark(_) | Token::Finish | Token::Bad => Err(wrong(Fault::Syntax, first)),
    }
}

/// An annotation after its word.
fn read_note<'a>(text: &str, tokens: &'a [Placed]) -> Result<&'a [Placed], ReadError>
    ensures { Gives (λ x. (tt, toks text.now x.now)) result (run note (toks text.now tokens.now)) }
{
    let Some((first, rest)) = tokens.split_first() else {
        return Err(none_left());
    };
    if is_mark(b'=', first.token) {
        let rest = read_value(text, rest)?;
        read_sep(rest)
    } else {
        read_sep(tokens)
    }
}

/// Whether another annotation begins here.
fn note_turn(text: &str, placed: &Placed) -> Result<Option<()>, ReadError>
    ensures { (after : Tok) → Gives (λ x. x) result (outcome (a_note yes (tok_of text.now placed.now.token) after) (spot_of text.now placed.now)) }
{
    match placed.token {
        Token::Word(w) => {
            if is_refused_note(text_at(text, w)) {
                Err(wrong(Fault::Unsupported, placed))
            } else {
                Ok(Some(()))
            }
        }
        Token::Mark(b')') => Ok(None),
        _ => Err(wrong(Fault::Syntax, placed)),
    }
}

fn read_notes<'a>(text: &str, tokens: &'a [Placed]) -> Result<&'a [Placed], ReadError>
    ensures { Gives (λ x. (tt, toks text.now x.now)) result (run (loop_of a_note (λ _ _. note) yes) (toks text.now tokens.now)) }
{
    let mut rest = tokens;
    'notes: loop {
        let Some((first, after)) = rest.split_first() else {
            return Err(none_left());
        };
        let Some(_) = note_turn(text, first)? else {
            return Ok(rest);
        };
        let after = read_note(text, after)?;
        rest = after;
    }
}

/// Annotations, where there are any.
pub fn read_ann<'a>(text: &str, tokens: &'a [Placed]) -> Result<&'a [Placed], ReadError>
    ensures { Gives (λ x. (tt, toks text.now x.now)) result (run ann (toks text.now tokens.now)) }
{
    let Some((first, rest)) = tokens.split_first() else {
        return Err(none_left());
    };
    if is_mark(b'(', first.token) {
        let rest = read_notes(text, rest)?;
        read_mark(b')', rest)
    } else {
        Ok(tokens)
    }
}

/// Annotations and a comma or semicolon, where there are any.
pub fn read_end<'a>(text: &str, tokens: &'a [Placed]) -> Result<&'a [Placed], ReadError>
    ensures { Gives (λ x. (tt, toks text.now x.now)) result (run ended (toks text.now tokens.now)) }
{
    let rest = read_ann(text, tokens)?;
    read_sep(rest)
}
