//! Steps, read at the front of a text.
ghost use Rattle.std.specs.Prelude.{◌≡◌, option_map, IfOk, string_bytes};
ghost use Rattle.std.specs.Str.{IsUtf8};
ghost use Rattle.path_text.specs.Reading.{closed, read_digits as read_digits_of, read_field as read_field_of, byte_of as byte_of_text, read_text as read_text_of, read_bytes as read_bytes_of, read_plain as read_plain_of, read_key as read_key_of, read_step as read_step_of};
ghost use Rattle.path_text.specs.Steps.{index_step, key_step};
ghost use Rattle.path_text.specs.Views.{key_of_literal, step_of_kind};

use crate::numbers::{read_digits, read_int};
use crate::path::{KeyLit, StepKind};
use crate::pieces::{begins_name, behind_word, hex_digits_len, name_len};
use hex::FromHexError;
use std::alloc::{AllocError, Global};
use std::string::String;

// The name that the text begins with.
fn read_field(alloc: Global, text: &[u8]) -> Result<Option<(StepKind, &[u8])>, AllocError>
    ensures { IfOk result (λ found. option_map (λ x. (step_of_kind x.0, x.1.now)) found ≡ read_field_of text.now) }
{
    if !begins_name(text) {
        return Ok(None);
    }
    let (name, behind) = text.split_at(name_len(text));
    match str::from_utf8(name) {
        Ok(name) => {
            let name = String::from_str(alloc, name)?;
            Ok(Some((StepKind::Field(name), behind)))
        }
        Err(_) => Ok(None),
    }
}

// The byte that the front of a text between two `"` spells: a `"` or `\` behind a `\`, or another byte.
fn byte_of(text: &[u8]) -> Option<(u8, &[u8])>
    ensures { option_map (λ x. (x.0, x.1.now)) result ≡ byte_of_text text.now }
{
    match text {
        [] | [b'"', ..] => None,
        [b'\\', escaped @ (b'"' | b'\\'), behind @ ..] => Some((*escaped, behind)),
        [b'\\', ..] => None,
        [byte, behind @ ..] => Some((*byte, behind)),
    }
}

// The text up to the `"` that ends it, and what is behind that.
fn read_text(alloc: Global, text: &[u8]) -> Result<Option<(String, &[u8])>, AllocError>
    requires { IsUtf8 text.now }
    ensures { IfOk result (λ found. option_map (λ x. (string_bytes x.0, x.1.now)) found ≡ read_text_of text.now) }
{
    let mut bytes: Vec<u8> = Vec::new(alloc);
    let mut rest = text;
    'bytes: while let Some((byte, behind)) = byte_of(rest) {
        bytes.push(byte)?;
        rest = behind;
    }
    let Some(behind) = behind_word(b"\"", rest) else {
        return Ok(None);
    };
    match String::from_utf8(bytes) {
        Ok(text) => Ok(Some((text, behind))),
        Err(_) => Ok(None),
    }
}

// The bytes of the hexadecimal digits that the text begins with.
fn read_bytes(alloc: Global, text: &[u8]) -> Result<Option<(KeyLit, &[u8])>, AllocError>
    ensures { IfOk result (λ found. option_map (λ x. (key_of_literal x.0, x.1.now)) found ≡ read_bytes_of text.now) }
{
    let (digits, behind) = text.split_at(hex_digits_len(text));
    match hex::decode(alloc, digits) {
        Ok(bytes) => Ok(Some((KeyLit::Bytes(bytes), behind))),
        Err(FromHexError::OutOfMemory) => Err(AllocError),
        Err(_) => Ok(None),
    }
}

// `true`, `false` or a number.
fn read_plain(text: &[u8]) -> Option<(KeyLit, &[u8])>
    ensures { option_map (λ x. (key_of_literal x.0, x.1.now)) result ≡ read_plain_of text.now }
{
    if let Some(behind) = behind_word(b"true", text) {
        return Some((KeyLit::Flag(true), behind));
    }
    if let Some(behind) = behind_word(b"false", text) {
        return Some((KeyLit::Flag(false), behind));
    }
    match read_int(text) {
        Some((n, behind)) => Some((KeyLit::Int(n), behind)),
        None => None,
    }
}

// The key literal that the text begins with.
fn read_key(alloc: Global, text: &[u8]) -> Result<Option<(KeyLit, &[u8])>, AllocError>
    requires { IsUtf8 text.now }
    ensures { IfOk result (λ found. option_map (λ x. (key_of_literal x.0, x.1.now)) found ≡ read_key_of text.now) }
{
    let Some((first, rest)) = text.split_first() else {
        return Ok(None);
    };
    match *first {
        b'"' => match read_text(alloc, rest)? {
            Some((text, behind)) => Ok(Some((KeyLit::Text(text), behind))),
            None => Ok(None),
        },
        b'#' => read_bytes(alloc, rest),
        _ => Ok(read_plain(text)),
    }
}

// The index that the text begins with, and a `]`.
fn read_index(text: &[u8]) -> Option<(StepKind, &[u8])>
    ensures { option_map (λ x. (step_of_kind x.0, x.1.now)) result ≡ closed index_step 93 (read_digits_of text.now) }
{
    let (index, rest) = read_digits(text)?;
    Some((StepKind::Index(index), behind_word(b"]", rest)?))
}

// The key that the text begins with, and a `}`.
fn read_key_step(alloc: Global, text: &[u8]) -> Result<Option<(StepKind, &[u8])>, AllocError>
    requires { IsUtf8 text.now }
    ensures { IfOk result (λ found. option_map (λ x. (step_of_kind x.0, x.1.now)) found ≡ closed key_step 125 (read_key_of text.now)) }
{
    let Some((key, rest)) = read_key(alloc, text)? else {
        return Ok(None);
    };
    match behind_word(b"}", rest) {
        Some(behind) => Ok(Some((StepKind::Key(key), behind))),
        None => Ok(None),
    }
}

/// The step that a text begins with, and what is behind it; none where it begins with none.
pub fn read_step(alloc: Global, text: &[u8]) -> Result<Option<(StepKind, &[u8])>, AllocError>
    requires { IsUtf8 text.now }
    ensures { IfOk result (λ found. option_map (λ x. (step_of_kind x.0, x.1.now)) found ≡ read_step_of text.now) }
{
    let Some((first, rest)) = text.split_first() else {
        return Ok(None);
    };
    match *first {
        b'.' => read_field(alloc, rest),
        b'[' => Ok(read_index(rest)),
        b'{' => read_key_step(alloc, rest),
        _ => Ok(None),
    }
}
