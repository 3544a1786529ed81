//! Types.

ghost use Rattle.std.specs.Prelude.{◌≡◌, ℕ, List, Bool, true, false, IfOk, option_map};
ghost use Rattle.idl_tokens.specs.Spans.{toks, tok_of, spot_of};
ghost use Rattle.idl_grammar.specs.Grammar.{token as token_that};
ghost use Rattle.exact_reading.specs.Reading.{Gives};
ghost use Rattle.idl_grammar.specs.Run.{run, judged};
ghost use Rattle.idl_profile.specs.Meaning.{Ty, Entry as Meant, find as find_in};
ghost use Rattle.idl_profile.specs.Judged.{plain, an_open, a_type, is_key as is_key_of, a_named_type, a_word_type, container_of as container_for};
ghost use Rattle.idl_profile.specs.Text.{type as type_that, after_head, inner};
ghost use Rattle.idl_fields.specs.View.{contained, word_type, written_type, opening_of, head_of, entries_in, judged_head, judged_word};
ghost use Rattle.idl_fields.specs.Nodes.{node_type};
ghost use Rattle.idl_fields.specs.Indexed.{IsIndexed};

use crate::draft::{Container, Head, Opening, TypeNode, TypeWord, WrittenType};
use crate::notes::read_ann;
use crate::reading::{is_mark, is_word, none_left, read_mark, wrong};
use crate::scope::Scope;
use crate::words::{is_name, scalar_of};
use base_lists::{Span, text_at};
use idl_grammar::{Fault, ReadError};
use idl_tokens::{Placed, Token};
use std::alloc::{AllocError, Global};

fn is_key(node: TypeNode) -> bool
    ensures { (ts : List Ty) → result ≡ is_key_of (node_type ts node) }
{
    match node {
        TypeNode::Base(_) | TypeNode::Enum(_) => true,
        TypeNode::Struct(_) | TypeNode::List(_) | TypeNode::Set(_) | TypeNode::Map(_, _) => false,
    }
}

/// The name that is this word.
fn find(scope: &Scope, w: &str) -> Option<TypeWord>
    ensures { (text : List ℕ) → IsIndexed text scope.now → option_map (word_type (entries_in text scope.now)) result ≡ find_in w.now (entries_in text scope.now) }
{
    match scope.names.place_of(w) {
        Some(place) => Some(TypeWord::Name(place)),
        None => None,
    }
}

fn read_open<'a>(text: &str, tokens: &'a [Placed]) -> Result<&'a [Placed], ReadError>
    ensures { Gives (λ x. (tt, toks text.now x.now)) result (run (token_that an_open) (toks text.now tokens.now)) }
{
    let Some((first, rest)) = tokens.split_first() else {
        return Err(none_left());
    };
    if is_word(text, "cpp_type", first.token) {
        Err(wrong(Fault::Unsupported, first))
    } else if is_mark(b'<', first.token) {
        Ok(rest)
    } else {
        Err(wrong(Fault::Syntax, first))
    }
}

#[tactic(auto, unfolding(idl_profile::specs::Judged::container_of))]
fn container_of(w: &str) -> Option<Opening>
    ensures { option_map opening_of result ≡ container_for w.now }
{
    if w == "list" {
        Some(Opening::List)
    } else if w == "set" {
        Some(Opening::Set)
    } else if w == "map" {
        Some(Opening::Map)
    } else {
        None
    }
}

/// What a name means where a type stands, or its fault.
fn named_type(text: &str, scope: &Scope, key: bool, w: &str) -> Result<TypeWord, Fault>
    requires { IsIndexed text.now scope.now }
    ensures { judged_word (entries_in text.now scope.now) result ≡ a_named_type (entries_in text.now scope.now) key w.now }
{
    if !is_name(w) {
        return Err(Fault::Syntax);
    }
    match find(scope, w) {
        None => Err(Fault::UnknownType),
        Some(word) => {
            if key && !is_key(scope.type_of(word)) {
                Err(Fault::KeyType)
            } else {
                Ok(word)
            }
        }
    }
}

/// What a word means where the type of a key or an element stands, or its fault.
fn key_word(text: &str, scope: &Scope, w: &str) -> Result<TypeWord, Fault>
    requires { IsIndexed text.now scope.now }
    ensures { (room : Bool) → judged_word (entries_in text.now scope.now) result ≡ a_word_type (entries_in text.now scope.now) true room w.now }
{
    if w == "float" || w == "double" {
        return Err(Fault::Unsupported);
    }
    if let Some(s) = scalar_of(w) {
        return Ok(TypeWord::Base(s));
    }
    match container_of(w) {
        None => named_type(text, scope, true, w),
        Some(_) => Err(Fault::KeyType),
    }
}

fn plain_head(judged: Result<TypeWord, Fault>) -> Result<Head, Fault>
    ensures { (es : List Meant) → judged_head es result ≡ judged_word es judged }
{
    match judged {
        Ok(word) => Ok(Head::Plain(word)),
        Err(fault) => Err(fault),
    }
}

/// What a word means where any other type stands, or its fault.
fn word_type(text: &str, scope: &Scope, room: bool, w: &str) -> Result<Head, Fault>
    requires { IsIndexed text.now scope.now }
    ensures { judged_head (entries_in text.now scope.now) result ≡ a_word_type (entries_in text.now scope.now) false room w.now }
{
    if w == "float" || w == "double" {
        return Err(Fault::Unsupported);
    }
    if let Some(s) = scalar_of(w) {
        return Ok(Head::Plain(TypeWord::Base(s)));
    }
    match container_of(w) {
        None => plain_head(named_type(text, scope, false, w)),
        Some(opening) => {
            if room {
                Ok(Head::Open(opening))
            } else {
                Err(Fault::TooDeep)
            }
        }
    }
}

fn read_head<'a>(
    text: &str,
    scope: &Scope,
    room: bool,
    tokens: &'a [Placed],
) -> Result<(Head, &'a [Placed]), ReadError>
    requires { IsIndexed text.now scope.now }
    ensures { Gives (λ x. (head_of (entries_in text.now scope.now) x.0, toks text.now x.1.now)) result (run (token_that (a_type (entries_in text.now scope.now) false room)) (toks text.now tokens.now)) }
{
    let Some((first, rest)) = tokens.split_first() else {
        return Err(none_left());
    };
    let Token::Word(w) = first.token else {
        return Err(wrong(Fault::Syntax, first));
    };
    match word_type(text, scope, room, text_at(text, w)) {
        Ok(head) => Ok((head, rest)),
        Err(fault) => Err(wrong(fault, first)),
    }
}

fn read_key_word<'a>(
    text: &str,
    scope: &Scope,
    tokens: &'a [Placed],
) -> Result<(TypeWord, &'a [Placed]), ReadError>
    requires { IsIndexed text.now scope.now }
    ensures { (room : Bool) → Gives (λ x. (plain (word_type (entries_in text.now scope.now) x.0), toks text.now x.1.now)) result (run (token_that (a_type (entries_in text.now scope.now) true room)) (toks text.now tokens.now)) }
{
    let Some((first, rest)) = tokens.split_first() else {
        return Err(none_left());
    };
    let Token::Word(w) = first.token else {
        return Err(wrong(Fault::Syntax, first));
    };
    match key_word(text, scope, text_at(text, w)) {
        Ok(word) => Ok((word, rest)),
        Err(fault) => Err(wrong(fault, first)),
    }
}

/// The type of a key or an element, with its annotations.
#[tactic(auto, unfolding(idl_profile::specs::Text::inner))]
fn read_key_type<'a>(
    text: &str,
    scope: &Scope,
    tokens: &'a [Placed],
) -> Result<(TypeWord, &'a [Placed]), ReadError>
    requires { IsIndexed text.now scope.now }
    ensures { (depth : ℕ) → Gives (λ x. (word_type (entries_in text.now scope.now) x.0, toks text.now x.1.now)) result (run (type_that (entries_in text.now scope.now) depth true) (toks text.now tokens.now)) }
{
    let (word, rest) = read_key_word(text, scope, tokens)?;
    let rest = read_ann(text, rest)?;
    Ok((word, rest))
}

/// The type of a key or an element, inside a container.
#[tactic(auto, unfolding(idl_profile::specs::Text::inner))]
fn read_key<'a>(
    text: &str,
    scope: &Scope,
    depth: u32,
    tokens: &'a [Placed],
) -> Result<(TypeWord, &'a [Placed]), ReadError>
    requires { IsIndexed text.now scope.now }
    ensures { Gives (λ x. (word_type (entries_in text.now scope.now) x.0, toks text.now x.1.now)) result (run (inner (entries_in text.now scope.now) depth true) (toks text.now tokens.now)) }
{
    if depth > 0 {
        return read_key_type(text, scope, tokens);
    }
    let Some((first, _)) = tokens.split_first() else {
        return Err(none_left());
    };
    Err(wrong(Fault::TooDeep, first))
}

// The type inside one more container.
fn inside_of(mut ty: WrittenType, container: Container) -> Result<WrittenType, AllocError>
    ensures { (es : List Meant) → IfOk result (λ w. written_type es w ≡ contained es (written_type es ty) container) }
{
    ty.around.push(container)?;
    Ok(ty)
}

// A type that is one word.
fn written(alloc: Global, word: TypeWord) -> WrittenType
    ensures { (es : List Meant) → written_type es result ≡ word_type es word }
{
    WrittenType {
        word,
        around: Vec::new(alloc),
    }
}

/// A type in which so many containers may open.
#[cycle(kind)]
#[tactic(auto, unfolding(idl_profile::specs::Text::inner))]
pub fn read_type<'a>(
    alloc: Global,
    text: &str,
    scope: &Scope,
    depth: u32,
    tokens: &'a [Placed],
) -> Result<(WrittenType, &'a [Placed]), ReadError>
    requires { IsIndexed text.now scope.now }
    ensures { Gives (λ x. (written_type (entries_in text.now scope.now) x.0, toks text.now x.1.now)) result (run (type_that (entries_in text.now scope.now) depth false) (toks text.now tokens.now)) }
{
    let (head, rest) = read_head(text, scope, depth > 0, tokens)?;
    let (ty, rest) = read_after_head(alloc, text, scope, depth, head, rest)?;
    let rest = read_ann(text, rest)?;
    Ok((ty, rest))
}

#[cycle(kind)]
#[tactic(auto, unfolding(idl_profile::specs::Text::inner))]
fn read_inner<'a>(
    alloc: Global,
    text: &str,
    scope: &Scope,
    depth: u32,
    tokens: &'a [Placed],
) -> Result<(WrittenType, &'a [Placed]), ReadError>
    requires { IsIndexed text.now scope.now }
    ensures { Gives (λ x. (written_type (entries_in text.now scope.now) x.0, toks text.now x.1.now)) result (run (inner (entries_in text.now scope.now) depth false) (toks text.now tokens.now)) }
{
    if depth > 0 {
        return read_type(alloc, text, scope, depth - 1, tokens);
    }
    let Some((first, _)) = tokens.split_first() else {
        return Err(none_left());
    };
    Err(wrong(Fault::TooDeep, first))
}

#[cycle(kind)]
fn read_after_head<'a>(
    alloc: Global,
    text: &str,
    scope: &Scope,
    depth: u32,
    head: Head,
    tokens: &'a [Placed],
) -> Result<(WrittenType, &'a [Placed]), ReadError>
    requires { IsIndexed text.now scope.now }
    ensures { Gives (λ x. (written_type (entries_in text.now scope.now) x.0, toks text.now x.1.now)) result (run (after_head (inner (entries_in text.now scope.now) depth) (head_of (entries_in text.now scope.now) head)) (toks text.now tokens.now)) }
{
    match head {
        Head::Plain(word) => Ok((written(alloc, word), tokens)),
        Head::Open(Opening::List) => {
            let rest = read_open(text, tokens)?;
            let (x, rest) = read_inner(alloc, text, scope, depth, rest)?;
            let rest = read_mark(b'>', rest)?;
            Ok((inside_of(x, Container::List)?, rest))
        }
        Head::Open(Opening::Set) => {
            let rest = read_open(text, tokens)?;
            let (key, rest) = read_key(text, scope, depth, rest)?;
            let rest = read_mark(b'>', rest)?;
            Ok((inside_of(written(alloc, key), Container::Set)?, rest))
        }
        Head::Open(Opening::Map) => {
            let rest = read_open(text, tokens)?;
            let (key, rest) = read_key(text, scope, depth, rest)?;
            let rest = read_mark(b',', rest)?;
            let (x, rest) = read_inner(alloc, text, scope, depth, rest)?;
            let rest = read_mark(b'>', rest)?;
            Ok((inside_of(x, Container::Map(key))?, rest))
        }
    }
}
