//! Structs.

ghost use Rattle.std.specs.Prelude.{◌≡◌, ℕ, List};
ghost use Rattle.idl_tokens.specs.Spans.{toks, tok_of};
ghost use Rattle.idl_grammar.specs.Grammar.{token as token_that};
ghost use Rattle.exact_reading.specs.Reading.{Gives};
ghost use Rattle.idl_grammar.specs.Run.{run};
ghost use Rattle.idl_profile.specs.Judged.{a_struct_end};
ghost use Rattle.idl_profile.specs.Text.{struct_parts, struct_body};
ghost use Rattle.idl_fields.specs.View.{entries_in, named_in, written_fields, scope_of, parts_of};
ghost use Rattle.idl_fields.specs.Indexed.{IsIndexed};
ghost use Rattle.idl_definitions.specs.Sized.{IsSized};

use crate::measure::measured;
use idl_fields::draft::{Parts, WrittenField};
use idl_fields::{
    Scope, is_mark, none_left, read_end, read_fields, read_mark, read_new_name, wrong,
};
use idl_grammar::{Fault, ReadError};
use idl_tokens::{Placed, Token};
use std::alloc::Global;

fn struct_end(text: &str, scope: &Scope, fields: &[WrittenField], token: Token) -> Result<(), Fault>
    requires { IsSized text.now scope.now }
    ensures { result ≡ a_struct_end (named_in text.now scope.now) (written_fields text.now (entries_in text.now scope.now) fields.now) (tok_of text.now token) }
{
    if is_mark(b'}', token) {
        measured(text, scope, fields)
    } else {
        Err(Fault::Syntax)
    }
}

fn read_struct_end<'a>(
    text: &str,
    scope: &Scope,
    fields: &[WrittenField],
    tokens: &'a [Placed],
) -> Result<&'a [Placed], ReadError>
    requires { IsSized text.now scope.now }
    ensures { Gives (λ x. (tt, toks text.now x.now)) result (run (token_that (a_struct_end (named_in text.now scope.now) (written_fields text.now (entries_in text.now scope.now) fields.now))) (toks text.now tokens.now)) }
{
    let Some((first, rest)) = tokens.split_first() else {
        return Err(none_left());
    };
    match struct_end(text, scope, fields, first.token) {
        Ok(()) => Ok(rest),
        Err(fault) => Err(wrong(fault, first)),
    }
}

/// The fields of a struct in their braces.
#[tactic(auto, unfolding(idl_profile::specs::Text::struct_body))]
fn read_struct_body<'a>(
    alloc: Global,
    text: &str,
    scope: &Scope,
    tokens: &'a [Placed],
) -> Result<(Vec<WrittenField>, &'a [Placed]), ReadError>
    requires sized { IsSized text.now scope.now }
    requires indexed { IsIndexed text.now scope.now }
    ensures { Gives (λ x. (written_fields text.now (entries_in text.now scope.now) x.0.items, toks text.now x.1.now)) result (run (struct_body (scope_of text.now scope.now)) (toks text.now tokens.now)) }
{
    let rest = read_mark(b'{', tokens)?;
    let (fields, rest) = read_fields(alloc, text, scope, rest)?;
    let rest = read_struct_end(text, scope, &fields, rest)?;
    Ok((fields, rest))
}

/// A struct after its first word.
#[tactic(auto, unfolding(idl_profile::specs::Text::struct_parts))]
pub fn read_struct<'a>(
    alloc: Global,
    text: &str,
    scope: &Scope,
    tokens: &'a [Placed],
) -> Result<(Parts, &'a [Placed]), ReadError>
    requires sized { IsSized text.now scope.now }
    requires indexed { IsIndexed text.now scope.now }
    ensures { Gives (λ x. (parts_of text.now (entries_in text.now scope.now) x.0, toks text.now x.1.now)) result (run (struct_parts (scope_of text.now scope.now)) (toks text.now tokens.now)) }
{
    let (name, rest) = read_new_name(text, &scope.names, tokens)?;
    let (fields, rest) = read_struct_body(alloc, text, scope, rest)?;
    let rest = read_end(text, rest)?;
    Ok((Parts { name, fields }, rest))
}
