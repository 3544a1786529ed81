//! Reading a whole text.
ghost use Rattle.std.specs.Prelude.{◌≡◌, ℕ, List, IfOk};
ghost use Rattle.idl_tokens.specs.Spans.{toks, tok_of, spot_of};
ghost use Rattle.idl_tokens.specs.Tokens.{Tok};
ghost use Rattle.exact_reading.specs.Reading.{Gives};
ghost use Rattle.idl_grammar.specs.Run.{run, outcome};
ghost use Rattle.name_index.specs.Names.{is_among as is_among_of};
ghost use Rattle.idl_profile.specs.Judged.{no_definition, begin_of as begin_of_word, a_definition};
ghost use Rattle.idl_profile.specs.Meaning.{Scope as Defined};
ghost use Rattle.idl_profile.specs.Text.{item as item_that, whole};
ghost use Rattle.idl_fields.specs.View.{entries_in, scope_of};
ghost use Rattle.idl_fields.specs.Indexed.{IsIndexed};
ghost use Rattle.idl_definitions.specs.Items.{item_of, begin_as, turn_of, begins, IsIndexedItem};
ghost use Rattle.idl_definitions.specs.Sized.{IsSized};

use crate::collect::add_item;
use crate::headers::{read_include, read_namespace, read_typedef};
use crate::items::{Begin, Item};
use crate::members::read_enum;
use crate::structs::read_struct;
use base_lists::text_at;
use idl_fields::{Scope, TypeNodes, is_among, none_left, wrong};
use idl_grammar::{Fault, ReadError};
use idl_tokens::{Placed, Token};
use name_index::NameIndex;
use std::alloc::Global;

fn is_refused(w: &str) -> bool
    ensures { result ≡ is_among_of no_definition w.now }
{
    is_among(&["union", "exception", "service", "const", "include"], w)
}

// What a word begins where a definition stands.
#[tactic(auto, unfolding(idl_profile::specs::Judged::begin_of))]
fn begin_of(w: &str) -> Result<Begin, Fault>
    ensures { turn_of result ≡ begin_of_word w.now }
{
    if is_refused(w) {
        Err(Fault::Unsupported)
    } else if w == "namespace" {
        Ok(Begin::Namespace)
    } else if w == "cpp_include" {
        Ok(Begin::Include)
    } else if w == "typedef" {
        Ok(Begin::Typedef)
    } else if w == "enum" {
        Ok(Begin::Enum)
    } else if w == "struct" {
        Ok(Begin::Struct)
    } else {
        Err(Fault::Syntax)
    }
}

// Whether another definition or header begins here.
fn definition_turn(text: &str, placed: &Placed) -> Result<Option<Begin>, ReadError>
    ensures { (scope : Defined) (after : Tok) → Gives begins result (outcome (a_definition scope (tok_of text.now placed.now.token) after) (spot_of text.now placed.now)) }
{
    match placed.token {
        Token::Word(w) => match begin_of(text_at(text, w)) {
            Ok(begin) => Ok(Some(begin)),
            Err(fault) => Err(wrong(fault, placed)),
        },
        Token::Finish => Ok(None),
        Token::Mark(b'@') => Err(wrong(Fault::Unsupported, placed)),
        Token::Number(_) | Token::Literal(_) | Token::Mark(_) | Token::Bad => Err(wrong(
            Fault::Syntax,
            placed,
        )),
    }
}

// A definition or a header after its first word.
#[tactic(auto, unfolding(idl_profile::specs::Text::item))]
fn read_item<'a>(
    alloc: Global,
    text: &str,
    scope: &Scope,
    begin: Begin,
    tokens: &'a [Placed],
) -> Result<(Item, &'a [Placed]), ReadError>
    requires sized { IsSized text.now scope.now }
    requires indexed { IsIndexed text.now scope.now }
    ensures reads { Gives (λ x. (item_of text.now (entries_in text.now scope.now) x.0, toks text.now x.1.now)) result (run (item_that (scope_of text.now scope.now) (begin_as begin)) (toks text.now tokens.now)) }
    ensures indexed { IfOk result (λ x. IsIndexedItem text.now x.0) }
{
    match begin {
        Begin::Namespace => {
            let rest = read_namespace(text, tokens)?;
            Ok((Item::Nothing, rest))
        }
        Begin::Include => {
            let rest = read_include(text, tokens)?;
            Ok((Item::Nothing, rest))
        }
        Begin::Typedef => {
            let (alias, rest) = read_typedef(alloc, text, scope, tokens)?;
            Ok((Item::Alias(alias), rest))
        }
        Begin::Enum => {
            let (choice, rest) = read_enum(alloc, text, scope, tokens)?;
            Ok((Item::Choice(choice), rest))
        }
        Begin::Struct => {
            let (parts, rest) = read_struct(alloc, text, scope, tokens)?;
            Ok((Item::Structure(parts), rest))
        }
    }
}

/// What a text defines, from its tokens.
pub fn read_definitions<'a>(
    alloc: Global,
    text: &str,
    tokens: &'a [Placed],
) -> Result<(Scope, &'a [Placed]), ReadError>
    ensures { Gives (λ x. (scope_of text.now x.0, toks text.now x.1.now)) result (run whole (toks text.now tokens.now)) }
{
    let mut scope = Scope {
        entries: Vec::new(alloc),
        names: NameIndex::new(alloc),
        named: Vec::new(alloc),
        members: Vec::new(alloc),
        sizes: Vec::new(alloc),
        types: TypeNodes::new(alloc),
        type_sizes: Vec::new(alloc),
    };
    let mut rest = tokens;
    'definitions: loop {
        let Some((first, after)) = rest.split_first() else {
            return Err(none_left());
        };
        let Some(begin) = definition_turn(text, first)? else {
            return Ok((scope, rest));
        };
        let (item, after) = read_item(alloc, text, &scope, begin, after)?;
        add_item(alloc, text, &mut scope, item)?;
        rest = after;
    }
}
