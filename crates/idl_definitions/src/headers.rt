//! Headers, typedefs and members of enums.

ghost use Rattle.std.specs.Prelude.{◌≡◌, List, ℕ, Some, option_map};
ghost use Rattle.base_lists.specs.Spans.{text_at as text_of_span};
ghost use Rattle.idl_tokens.specs.Spans.{toks};
ghost use Rattle.idl_grammar.specs.Grammar.{token as token_that};
ghost use Rattle.exact_reading.specs.Reading.{Gives};
ghost use Rattle.idl_grammar.specs.Run.{run};
ghost use Rattle.idl_profile.specs.Judged.{a_scope, word_or_literal, a_member_number, a_literal};
ghost use Rattle.idl_profile.specs.Text.{namespace, cpp_include, typedef_parts, own_number};
ghost use Rattle.idl_fields.specs.View.{entries_in, alias_of};
ghost use Rattle.idl_fields.specs.Indexed.{IsIndexed};

use base_lists::{Span, text_at};
use idl_fields::draft::{Alias, Whole};
use idl_fields::{
    Scope, has_backslash, is_mark, none_left, read_end, read_mark, read_new_name, read_sep,
    read_type, wrong,
};
use idl_grammar::{Fault, ReadError};
use idl_tokens::{Placed, Token};
use std::alloc::Global;

fn read_scope(tokens: &[Placed]) -> Result<&[Placed], ReadError>
    ensures { (text : List ℕ) → Gives (λ x. (tt, toks text x.now)) result (run (token_that a_scope) (toks text tokens.now)) }
{
    let Some((first, rest)) = tokens.split_first() else {
        return Err(none_left());
    };
    match first.token {
        Token::Word(_) | Token::Mark(b'*') => Ok(rest),
        Token::Number(_) | Token::Literal(_) | Token::Mark(_) | Token::Finish | Token::Bad => Err(
            wrong(Fault::Syntax, first),
        ),
    }
}

fn read_target<'a>(text: &str, tokens: &'a [Placed]) -> Result<&'a [Placed], ReadError>
    ensures { Gives (λ x. (tt, toks text.now x.now)) result (run (token_that word_or_literal) (toks text.now tokens.now)) }
{
    let Some((first, rest)) = tokens.split_first() else {
        return Err(none_left());
    };
    match first.token {
        Token::Word(_) => Ok(rest),
        Token::Literal(x) => {
            if has_backslash(text_at(text, x)) {
                Err(wrong(Fault::Unsupported, first))
            } else {
                Ok(rest)
            }
        }
        Token::Number(_) | Token::Mark(_) | Token::Finish | Token::Bad => Err(wrong(
            Fault::Syntax,
            first,
        )),
    }
}

/// A namespace after its first word.
pub fn read_namespace<'a>(text: &str, tokens: &'a [Placed]) -> Result<&'a [Placed], ReadError>
    ensures { Gives (λ x. (tt, toks text.now x.now)) result (run namespace (toks text.now tokens.now)) }
{
    let rest = read_scope(tokens)?;
    let rest = read_target(text, rest)?;
    read_sep(rest)
}

/// A typedef after its first word.
#[tactic(auto, unfolding(idl_profile::specs::Text::typedef_parts))]
pub fn read_typedef<'a>(
    alloc: Global,
    text: &str,
    scope: &Scope,
    tokens: &'a [Placed],
) -> Result<(Alias, &'a [Placed]), ReadError>
    requires { IsIndexed text.now scope.now }
    ensures { Gives (λ x. (alias_of text.now (entries_in text.now scope.now) x.0, toks text.now x.1.now)) result (run (typedef_parts (entries_in text.now scope.now)) (toks text.now tokens.now)) }
{
    let (ty, rest) = read_type(alloc, text, scope, 32, tokens)?;
    let (name, rest) = read_new_name(text, &scope.names, rest)?;
    let rest = read_end(text, rest)?;
    Ok((Alias { name, ty }, rest))
}

fn read_member_number(tokens: &[Placed]) -> Result<(Whole, &[Placed]), ReadError>
    ensures { (text : List ℕ) → Gives (λ x. (x.0.value, toks text x.1.now)) result (run (token_that a_member_number) (toks text tokens.now)) }
{
    let Some((first, rest)) = tokens.split_first() else {
        return Err(none_left());
    };
    match first.token {
        Token::Number(Some(value)) => {
            if -2147483648 <= value && value <= 2147483647 {
                Ok((Whole { value }, rest))
            } else {
                Err(wrong(Fault::BadDefault, first))
            }
        }
        Token::Number(None) => Err(wrong(Fault::Unsupported, first)),
        Token::Word(_) | Token::Literal(_) | Token::Mark(_) | Token::Finish | Token::Bad => Err(
            wrong(Fault::Syntax, first),
        ),
    }
}

// The number of a member, its own or this one.
fn read_number_or(coming: Whole, tokens: &[Placed]) -> Result<(Whole, &[Placed]), ReadError>
    ensures { (text : List ℕ) → Gives (λ x. (x.0.value, toks text x.1.now)) result (run (own_number (Some coming.value)) (toks text tokens.now)) }
{
    let Some((first, rest)) = tokens.split_first() else {
        return Err(none_left());
    };
    if is_mark(b'=', first.token) {
        read_member_number(rest)
    } else {
        Ok((coming, tokens))
    }
}

/// The number of a member, its own or the coming one.
pub fn read_own_number(
    coming: Option<Whole>,
    tokens: &[Placed],
) -> Result<(Whole, &[Placed]), ReadError>
    ensures { (text : List ℕ) → Gives (λ x. (x.0.value, toks text x.1.now)) result (run (own_number (option_map (λ w. w.value) coming)) (toks text tokens.now)) }
{
    match coming {
        Some(number) => read_number_or(number, tokens),
        None => {
            let rest = read_mark(b'=', tokens)?;
            read_member_number(rest)
        }
    }
}

// A literal.
fn read_literal<'a>(text: &str, tokens: &'a [Placed]) -> Result<(Span, &'a [Placed]), ReadError>
    ensures { Gives (λ x. (text_of_span text.now x.0, toks text.now x.1.now)) result (run (token_that a_literal) (toks text.now tokens.now)) }
{
    let Some((first, rest)) = tokens.split_first() else {
        return Err(none_left());
    };
    match first.token {
        Token::Literal(x) => {
            if has_backslash(text_at(text, x)) {
                Err(wrong(Fault::Unsupported, first))
            } else {
                Ok((x, rest))
            }
        }
        Token::Word(_) | Token::Number(_) | Token::Mark(_) | Token::Finish | Token::Bad => Err(
            wrong(Fault::Syntax, first),
        ),
    }
}

/// An include after its first word.
pub fn read_include<'a>(text: &str, tokens: &'a [Placed]) -> Result<&'a [Placed], ReadError>
    ensures { Gives (λ x. (tt, toks text.now x.now)) result (run cpp_include (toks text.now tokens.now)) }
{
    let (_, rest) = read_literal(text, tokens)?;
    read_sep(rest)
}
