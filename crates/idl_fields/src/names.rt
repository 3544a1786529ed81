//! New names.

ghost use Rattle.std.specs.Prelude.{◌≡◌, ℕ, List};
ghost use Rattle.name_index.specs.Names.{Indexes};
ghost use Rattle.base_lists.specs.Spans.{text_at as text_of_span};
ghost use Rattle.idl_tokens.specs.Spans.{toks, tok_of};
ghost use Rattle.idl_grammar.specs.Grammar.{token as token_that};
ghost use Rattle.exact_reading.specs.Reading.{Gives};
ghost use Rattle.idl_grammar.specs.Run.{run};
ghost use Rattle.idl_profile.specs.Judged.{new_name as new_name_of};
ghost use Rattle.idl_fields.specs.View.{judged_name};

use crate::reading::{none_left, wrong};
use crate::words::is_name;
use base_lists::{Span, text_at};
use idl_grammar::{Fault, ReadError};
use idl_tokens::{Placed, Token};
use name_index::NameIndex;

/// A name that is none of the names that stood earlier, or the token's fault.
pub fn new_name(text: &str, names: &NameIndex, token: Token) -> Result<Span, Fault>
    ensures { (stood : List (List ℕ)) → Indexes names.now stood → judged_name text.now result ≡ new_name_of stood (tok_of text.now token) }
{
    let Token::Word(w) = token else {
        return Err(Fault::Syntax);
    };
    let name = text_at(text, w);
    if !is_name(name) {
        Err(Fault::Syntax)
    } else if names.contains(name) {
        Err(Fault::RepeatedName)
    } else {
        Ok(w)
    }
}

/// A new name from the front of the tokens.
pub fn read_new_name<'a>(
    text: &str,
    names: &NameIndex,
    tokens: &'a [Placed],
) -> Result<(Span, &'a [Placed]), ReadError>
    ensures { (stood : List (List ℕ)) → Indexes names.now stood → Gives (λ x. (text_of_span text.now x.0, toks text.now x.1.now)) result (run (token_that (new_name_of stood)) (toks text.now tokens.now)) }
{
    let Some((first, rest)) = tokens.split_first() else {
        return Err(none_left());
    };
    match new_name(text, names, first.token) {
        Ok(name) => Ok((name, rest)),
        Err(fault) => Err(wrong(fault, first)),
    }
}
