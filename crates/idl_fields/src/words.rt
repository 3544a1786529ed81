//! Words that mean something.

ghost use Rattle.std.specs.Prelude.{◌≡◌};
ghost use Rattle.std.specs.List.{list_any};
ghost use Rattle.std.specs.Str.{bytes_eq};
ghost use Rattle.std.specs.Prelude.{◌==◌};
ghost use Rattle.name_index.specs.Names.{is_among as is_among_of};
ghost use Rattle.idl_profile.specs.Judged.{is_name as is_name_of, has_backslash as has_backslash_in, refused_notes, keywords, scalar_of as scalar_for};

use idl_profile::BaseType;

/// Whether this is one of the words.
pub fn is_among(words: &[&str], w: &str) -> bool
    ensures { result ≡ list_any (λ x. bytes_eq x.now w.now) words.now }
{
    words.iter().any(|x| *x == w)
}

fn is_keyword(w: &str) -> bool
    ensures { result ≡ is_among_of keywords w.now }
{
    is_among(
        &[
            "namespace",
            "cpp_include",
            "include",
            "typedef",
            "enum",
            "struct",
            "union",
            "exception",
            "service",
            "const",
            "required",
            "optional",
            "bool",
            "byte",
            "i8",
            "i16",
            "i32",
            "i64",
            "float",
            "double",
            "string",
            "binary",
            "list",
            "set",
            "map",
            "true",
            "false",
        ],
        w,
    )
}

fn has_dot(w: &str) -> bool
    ensures { result ≡ list_any (λ b. b == 46) w.now }
{
    w.as_bytes().iter().any(|b| *b == b'.')
}

/// A word that is no keyword and has no dot.
#[tactic(auto, unfolding(idl_profile::specs::Judged::is_name))]
pub fn is_name(w: &str) -> bool
    ensures { result ≡ is_name_of w.now }
{
    !is_keyword(w) && !has_dot(w)
}

pub fn has_backslash(x: &str) -> bool
    ensures { result ≡ has_backslash_in x.now }
{
    x.as_bytes().iter().any(|b| *b == b'\\')
}

pub fn is_refused_note(w: &str) -> bool
    ensures { result ≡ is_among_of refused_notes w.now }
{
    is_among(
        &["cpp.type", "cpp2.type", "cpp.template", "cpp2.template"],
        w,
    )
}

#[tactic(auto, unfolding(idl_profile::specs::Judged::scalar_of))]
pub fn scalar_of(w: &str) -> Option<BaseType>
    ensures { result ≡ scalar_for w.now }
{
    if w == "bool" {
        Some(BaseType::Flag)
    } else if w == "byte" {
        Some(BaseType::I8)
    } else if w == "i8" {
        Some(BaseType::I8)
    } else if w == "i16" {
        Some(BaseType::I16)
    } else if w == "i32" {
        Some(BaseType::I32)
    } else if w == "i64" {
        Some(BaseType::I64)
    } else if w == "string" {
        Some(BaseType::Text)
    } else if w == "binary" {
        Some(BaseType::Bytes)
    } else {
        None
    }
}
