//! Fields of structs.

ghost use Rattle.std.specs.Prelude.{◌≡◌, ◌<◌, ℕ, List, [], option_map};
ghost use Rattle.idl_tokens.specs.Tokens.{Tok};
ghost use Rattle.base_lists.specs.Spans.{text_at as text_of_span};
ghost use Rattle.idl_tokens.specs.Spans.{toks, tok_of, spot_of};
ghost use Rattle.idl_grammar.specs.Grammar.{token as token_that, look};
ghost use Rattle.exact_reading.specs.Reading.{Gives};
ghost use Rattle.idl_grammar.specs.Run.{run, outcome};
ghost use Rattle.idl_profile.specs.Judged.{a_field, an_id, number_default as number_default_of, scalar_number as scalar_number_of, an_int, literal_default as literal_default_of, scalar_literal as scalar_literal_of, scalar_word as scalar_word_of, enum_default as enum_default_of, bracket_default as bracket_default_of, brace_default as brace_default_of, word_default as word_default_of, a_default, a_default_end};
ghost use Rattle.idl_profile.specs.Text.{need_of, default as default_that, field as field_that, typed as typed_that, fields as fields_that};
ghost use Rattle.idl_profile.specs.Meaning.{Ty, Entry as Meant};
ghost use Rattle.idl_fields.specs.View.{written_type, outer, outer_type, entries_in, written_fields, written_field, named_in, default_of, judged_start, start_of as start_view, judged_id, scope_of, typed_of};
ghost use Rattle.idl_fields.specs.Indexed.{IsIndexed};
ghost use Rattle.idl_fields.specs.Found.{IsFound};
ghost use Rattle.idl_fields.specs.Nodes.{node_type};

use crate::draft::{
    Container, Default, Id, Outermost, Start, TypeNode, Typed, Whole, WrittenField, WrittenType,
};
use crate::found::Found;
use crate::names::read_new_name;
use crate::notes::read_end;
use crate::reading::{is_mark, is_word, none_left, read_mark, wrong};
use crate::scope::{Scope, enum_default};
use crate::types::read_type;
use crate::words::has_backslash;
use base_lists::{Span, text_at};
use idl_grammar::{Fault, ReadError};
use idl_profile::{BaseType, Need};
use idl_tokens::{Placed, Token};
use std::alloc::Global;

fn read_need<'a>(text: &str, tokens: &'a [Placed]) -> Result<(Need, &'a [Placed]), ReadError>
    ensures { Gives (λ x. (x.0, toks text.now x.1.now)) result (run (look need_of) (toks text.now tokens.now)) }
{
    let Some((first, rest)) = tokens.split_first() else {
        return Err(none_left());
    };
    if is_word(text, "required", first.token) {
        Ok((Need::Required, rest))
    } else if is_word(text, "optional", first.token) {
        Ok((Need::Optional, rest))
    } else {
        Ok((Need::Plain, tokens))
    }
}

/// The number as an id, or its fault.
fn id_of(found: &Found, z: Whole) -> Result<Id, Fault>
    ensures { (text : List ℕ) (es : List Meant) → IsFound text es found.now → judged_id result ≡ an_id (written_fields text es found.now.fields.items) z.value }
{
    if found.has_id(z) {
        Err(Fault::RepeatedId)
    } else if 1 <= z.value && z.value <= 32767 {
        Ok(Id { id: z.value as i16 })
    } else {
        Err(Fault::BadId)
    }
}

/// Whether another field begins here.
fn field_turn(text: &str, found: &Found, placed: &Placed) -> Result<Option<Id>, ReadError>
    ensures { (es : List Meant) (after : Tok) → IsFound text.now es found.now → Gives (λ x. option_map (λ i. i.id) x) result (outcome (a_field (written_fields text.now es found.now.fields.items) (tok_of text.now placed.now.token) after) (spot_of text.now placed.now)) }
{
    match placed.token {
        Token::Number(None) => Err(wrong(Fault::Unsupported, placed)),
        Token::Number(Some(value)) => {
            match id_of(found, Whole { value }) {
                Ok(id) => Ok(Some(id)),
                Err(fault) => Err(wrong(fault, placed)),
            }
        }
        Token::Mark(b'}') => Ok(None),
        Token::Mark(b'@') => Err(wrong(Fault::Unsupported, placed)),
        _ => Err(wrong(Fault::Syntax, placed)),
    }
}

fn number_default(ty: Outermost, z: Whole) -> Result<Start, Fault>
    ensures { (text : List ℕ) → judged_start text result ≡ number_default_of (outer_type ty) z.value }
{
    match ty {
        Outermost::Base(s) => scalar_number(s, z),
        Outermost::Enum(_) => int_default(-2147483648, 2147483647, z),
        Outermost::Struct(_) | Outermost::List | Outermost::Set | Outermost::Map => Err(
            Fault::BadDefault,
        ),
    }
}

fn literal_default(ty: Outermost, x: Span) -> Result<Start, Fault>
    ensures { (text : List ℕ) → judged_start text result ≡ literal_default_of (outer_type ty) (text_of_span text x) }
{
    match ty {
        Outermost::Base(s) => scalar_literal(s, x),
        Outermost::Enum(_)
        | Outermost::Struct(_)
        | Outermost::List
        | Outermost::Set
        | Outermost::Map => Err(Fault::BadDefault),
    }
}

fn bracket_default(ty: Outermost) -> Result<Start, Fault>
    ensures { (text : List ℕ) → judged_start text result ≡ bracket_default_of (outer_type ty) }
{
    match ty {
        Outermost::List | Outermost::Set => Ok(Start::ClosedBy(b']')),
        Outermost::Base(_) | Outermost::Enum(_) | Outermost::Struct(_) | Outermost::Map => Err(
            Fault::BadDefault,
        ),
    }
}

fn brace_default(ty: Outermost) -> Result<Start, Fault>
    ensures { (text : List ℕ) → judged_start text result ≡ brace_default_of (outer_type ty) }
{
    match ty {
        Outermost::Set | Outermost::Map | Outermost::Struct(_) => Ok(Start::ClosedBy(b'}')),
        Outermost::Base(_) | Outermost::Enum(_) | Outermost::List => Err(Fault::BadDefault),
    }
}

fn int_default(low: i64, high: i64, z: Whole) -> Result<Start, Fault>
    ensures { (text : List ℕ) → judged_start text result ≡ an_int low high z.value }
{
    if low <= z.value && z.value <= high {
        Ok(Start::Complete(Default::Int(z)))
    } else {
        Err(Fault::BadDefault)
    }
}

fn scalar_number(s: BaseType, z: Whole) -> Result<Start, Fault>
    ensures { (text : List ℕ) → judged_start text result ≡ scalar_number_of s z.value }
{
    match s {
        BaseType::Flag => {
            if z.value == 0 {
                Ok(Start::Complete(Default::Flag(false)))
            } else if z.value == 1 {
                Ok(Start::Complete(Default::Flag(true)))
            } else {
                Err(Fault::BadDefault)
            }
        }
        BaseType::I8 => int_default(-128, 127, z),
        BaseType::I16 => int_default(-32768, 32767, z),
        BaseType::I32 => int_default(-2147483648, 2147483647, z),
        BaseType::I64 => Ok(Start::Complete(Default::Int(z))),
        BaseType::Text | BaseType::Bytes => Err(Fault::BadDefault),
    }
}

fn scalar_literal(s: BaseType, x: Span) -> Result<Start, Fault>
    ensures { (text : List ℕ) → judged_start text result ≡ scalar_literal_of s (text_of_span text x) }
{
    match s {
        BaseType::Text | BaseType::Bytes => Ok(Start::Complete(Default::Text(x))),
        BaseType::Flag | BaseType::I8 | BaseType::I16 | BaseType::I32 | BaseType::I64 => Err(
            Fault::BadDefault,
        ),
    }
}

fn scalar_word(s: BaseType, w: &str) -> Result<Start, Fault>
    ensures { (text : List ℕ) → judged_start text result ≡ scalar_word_of s w.now }
{
    match s {
        BaseType::Flag => {
            if w == "true" {
                Ok(Start::Complete(Default::Flag(true)))
            } else if w == "false" {
                Ok(Start::Complete(Default::Flag(false)))
            } else {
                Err(Fault::BadDefault)
            }
        }
        BaseType::I8
        | BaseType::I16
        | BaseType::I32
        | BaseType::I64
        | BaseType::Text
        | BaseType::Bytes => Err(Fault::BadDefault),
    }
}

fn word_default(text: &str, scope: &Scope, ty: Outermost, w: &str) -> Result<Start, Fault>
    requires { IsIndexed text.now scope.now }
    ensures { judged_start text.now result ≡ word_default_of (named_in text.now scope.now) (outer_type ty) w.now }
{
    match ty {
        Outermost::Base(s) => scalar_word(s, w),
        Outermost::Enum(n) => enum_default(text, scope, n, w),
        Outermost::Struct(_) | Outermost::List | Outermost::Set | Outermost::Map => Err(
            Fault::BadDefault,
        ),
    }
}

/// What a token means where a default begins, or its fault.
fn start_of(text: &str, scope: &Scope, ty: Outermost, token: Token) -> Result<Start, Fault>
    requires { IsIndexed text.now scope.now }
    ensures { judged_start text.now result ≡ a_default (named_in text.now scope.now) (outer_type ty) (tok_of text.now token) }
{
    match token {
        Token::Number(Some(value)) => number_default(ty, Whole { value }),
        Token::Number(None) => Err(Fault::Unsupported),
        Token::Literal(x) => {
            if has_backslash(text_at(text, x)) {
                Err(Fault::Unsupported)
            } else {
                literal_default(ty, x)
            }
        }
        Token::Word(w) => word_default(text, scope, ty, text_at(text, w)),
        Token::Mark(b'[') => bracket_default(ty),
        Token::Mark(b'{') => brace_default(ty),
        Token::Mark(_) | Token::Finish | Token::Bad => Err(Fault::Syntax),
    }
}

fn read_default_end<'a>(
    text: &str,
    mark: u8,
    tokens: &'a [Placed],
) -> Result<&'a [Placed], ReadError>
    ensures { Gives (λ x. (tt, toks text.now x.now)) result (run (token_that (a_default_end mark)) (toks text.now tokens.now)) }
{
    let Some((first, rest)) = tokens.split_first() else {
        return Err(none_left());
    };
    match first.token {
        Token::Number(_) | Token::Word(_) | Token::Literal(_) => Err(wrong(
            Fault::Unsupported,
            first,
        )),
        Token::Mark(m) => {
            if m == b'[' || m == b'{' {
                Err(wrong(Fault::Unsupported, first))
            } else if m == mark {
                Ok(rest)
            } else {
                Err(wrong(Fault::Syntax, first))
            }
        }
        Token::Finish | Token::Bad => Err(wrong(Fault::Syntax, first)),
    }
}

fn read_start<'a>(
    text: &str,
    scope: &Scope,
    ty: Outermost,
    tokens: &'a [Placed],
) -> Result<(Start, &'a [Placed]), ReadError>
    requires { IsIndexed text.now scope.now }
    ensures { Gives (λ x. (start_view text.now x.0, toks text.now x.1.now)) result (run (token_that (a_default (named_in text.now scope.now) (outer_type ty))) (toks text.now tokens.now)) }
{
    let Some((first, rest)) = tokens.split_first() else {
        return Err(none_left());
    };
    match start_of(text, scope, ty, first.token) {
        Ok(start) => Ok((start, rest)),
        Err(fault) => Err(wrong(fault, first)),
    }
}

fn read_default<'a>(
    text: &str,
    scope: &Scope,
    ty: Outermost,
    tokens: &'a [Placed],
) -> Result<(Default, &'a [Placed]), ReadError>
    requires { IsIndexed text.now scope.now }
    ensures { Gives (λ x. (default_of text.now x.0, toks text.now x.1.now)) result (run (default_that (named_in text.now scope.now) (outer_type ty)) (toks text.now tokens.now)) }
{
    let Some((first, rest)) = tokens.split_first() else {
        return Err(none_left());
    };
    if !is_mark(b'=', first.token) {
        return Ok((Default::Without, tokens));
    }
    let (start, rest) = read_start(text, scope, ty, rest)?;
    match start {
        Start::Complete(default) => Ok((default, rest)),
        Start::ClosedBy(mark) => {
            let rest = read_default_end(text, mark, rest)?;
            Ok((Default::Empty, rest))
        }
    }
}

fn outer_node(node: TypeNode) -> Outermost
    ensures { (ts : List Ty) → outer_type result ≡ outer (node_type ts node) }
{
    match node {
        TypeNode::Base(s) => Outermost::Base(s),
        TypeNode::Enum(n) => Outermost::Enum(n),
        TypeNode::Struct(n) => Outermost::Struct(n),
        TypeNode::List(_) => Outermost::List,
        TypeNode::Set(_) => Outermost::Set,
        TypeNode::Map(_, _) => Outermost::Map,
    }
}

/// What a type is outermost.
fn outermost(scope: &Scope, ty: &WrittenType) -> Outermost
    ensures { (text : List ℕ) → outer_type result ≡ outer (written_type (entries_in text scope.now) ty.now) }
{
    match ty.around.last() {
        None => outer_node(scope.type_of(ty.word)),
        Some(Container::List) => Outermost::List,
        Some(Container::Set) => Outermost::Set,
        Some(Container::Map(_)) => Outermost::Map,
    }
}

/// The default of a field of this type.
fn read_typed_default<'a>(
    text: &str,
    scope: &Scope,
    ty: &WrittenType,
    tokens: &'a [Placed],
) -> Result<(Default, &'a [Placed]), ReadError>
    requires { IsIndexed text.now scope.now }
    ensures { Gives (λ x. (default_of text.now x.0, toks text.now x.1.now)) result (run (default_that (named_in text.now scope.now) (written_type (entries_in text.now scope.now) ty.now)) (toks text.now tokens.now)) }
{
    read_default(text, scope, outermost(scope, ty), tokens)
}

/// A field from the mark after its number to its name.
#[tactic(auto, unfolding(idl_profile::specs::Text::typed))]
fn read_typed<'a>(
    alloc: Global,
    text: &str,
    scope: &Scope,
    found: &Found,
    tokens: &'a [Placed],
) -> Result<(Typed, &'a [Placed]), ReadError>
    requires indexed { IsIndexed text.now scope.now }
    requires found { IsFound text.now (entries_in text.now scope.now) found.now }
    ensures { Gives (λ x. (typed_of text.now (entries_in text.now scope.now) x.0, toks text.now x.1.now)) result (run (typed_that (entries_in text.now scope.now) (written_fields text.now (entries_in text.now scope.now) found.now.fields.items)) (toks text.now tokens.now)) }
{
    let rest = read_mark(b':', tokens)?;
    let (need, rest) = read_need(text, rest)?;
    let (ty, rest) = read_type(alloc, text, scope, 32, rest)?;
    let (name, rest) = read_new_name(text, &found.names, rest)?;
    Ok((Typed { need, ty, name }, rest))
}

/// A field after its number.
#[tactic(auto, unfolding(idl_profile::specs::Text::field))]
fn read_field<'a>(
    alloc: Global,
    text: &str,
    scope: &Scope,
    found: &Found,
    id: Id,
    tokens: &'a [Placed],
) -> Result<(WrittenField, &'a [Placed]), ReadError>
    requires indexed { IsIndexed text.now scope.now }
    requires found { IsFound text.now (entries_in text.now scope.now) found.now }
    ensures { Gives (λ x. (written_field text.now (entries_in text.now scope.now) x.0, toks text.now x.1.now)) result (run (field_that (scope_of text.now scope.now) (written_fields text.now (entries_in text.now scope.now) found.now.fields.items) id.id) (toks text.now tokens.now)) }
{
    let (typed, rest) = read_typed(alloc, text, scope, found, tokens)?;
    let (default, rest) = read_typed_default(text, scope, &typed.ty, rest)?;
    let rest = read_end(text, rest)?;
    let Typed { need, ty, name } = typed;
    Ok((
        WrittenField {
            id,
            need,
            ty,
            name,
            default,
        },
        rest,
    ))
}

/// The fields of a struct, in the order of the text.
pub fn read_fields<'a>(
    alloc: Global,
    text: &str,
    scope: &Scope,
    tokens: &'a [Placed],
) -> Result<(Vec<WrittenField>, &'a [Placed]), ReadError>
    requires { IsIndexed text.now scope.now }
    ensures { Gives (λ x. (written_fields text.now (entries_in text.now scope.now) x.0.items, toks text.now x.1.now)) result (run (fields_that (scope_of text.now scope.now) []) (toks text.now tokens.now)) }
{
    let mut found = Found::new(alloc);
    let mut rest = tokens;
    'fields: loop {
        let Some((first, after)) = rest.split_first() else {
            return Err(none_left());
        };
        let Some(id) = field_turn(text, &found, first)? else {
            return Ok((found.fields, rest));
        };
        let (field, after) = read_field(alloc, text, scope, &found, id, after)?;
        found.add(alloc, text, field)?;
        rest = after;
    }
}
