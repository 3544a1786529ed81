//! Reading a definition text.
ghost use Rattle.std.specs.Prelude.{◌≡◌, ◌<◌, ◌^◌, ◌⊎◌, length, true, false, IfOk, IfErr, MatchResult};
ghost use Rattle.idl_profile.specs.Types.{Named as NamedTree};
ghost use Rattle.std.specs.List.{list_any, list_all};
ghost use Rattle.idl_profile.specs.DefText.{has_struct as has_struct_in, DefTokens};
ghost use Rattle.idl_tokens.specs.Tokens.{tokens};
ghost use Rattle.idl_fields.specs.View.{types_in, nameds_of};
ghost use Rattle.std.specs.Prelude.{List, ℕ};
ghost use Rattle.idl_parse.specs.declared.fault.DefFault.{DefFault};
ghost use Rattle.idl_parse.specs.Drafts.{is_struct as is_struct_of, has_few as has_few_of};
ghost use Rattle.idl_parse.specs.Parsed.{DefText, FirstFault, definition_of, definition_in, IsParsed};

use crate::definition::Definition;
use crate::fault::DefFault;
use idl_definitions::read_definitions;
use idl_fields::TypeNodes;
use idl_fields::draft::DraftNamed;
use idl_tokens::split;
use std::alloc::Global;
use std::string::String;

/// Whether it is a struct.
pub fn is_struct(one: &DraftNamed) -> bool
    ensures { result ≡ is_struct_of one.now }
{
    match one {
        DraftNamed::Enum(_, _) => false,
        DraftNamed::Struct(_, _) => true,
    }
}

fn has_struct(named: &[DraftNamed]) -> bool
    ensures { result ≡ list_any is_struct_of named.now }
{
    named.iter().any(|one| is_struct(one))
}

fn has_few(one: &DraftNamed) -> bool
    ensures { result ≡ has_few_of one.now }
{
    match one {
        DraftNamed::Enum(_, _) => true,
        DraftNamed::Struct(_, fields) => fields.len() < 0x1_0000_0000,
    }
}

// Whether the fields of each struct are counted by 32 bits. There is no memory for more.
fn have_few(named: &[DraftNamed]) -> bool
    ensures { result ≡ list_all has_few_of named.now }
{
    named.iter().all(|one| has_few(one))
}

// The definition of these enums and structs, if one is a struct.
fn rooted(
    alloc: Global,
    text: &str,
    named: Vec<DraftNamed>,
    types: TypeNodes,
) -> Result<Definition, DefFault>
    requires limited { length text.now < 2 ^ 31 }
    requires meant { has_struct_in (nameds_of text.now (types_in types) named.items) ≡ true → DefTokens (tokens text.now) (nameds_of text.now (types_in types) named.items) }
    ensures ok { IfOk result (λ d. (definition_of d ≡ definition_in (nameds_of text.now (types_in types) named.items)) × (has_struct_in (nameds_of text.now (types_in types) named.items) ≡ true)) }
    ensures err { IfErr result (λ e. (e ≡ DefFault.NoMemory) ⊎ ((e ≡ DefFault.NoRoot) × (has_struct_in (nameds_of text.now (types_in types) named.items) ≡ false))) }
{
    if !has_struct(&named) {
        return Err(DefFault::NoRoot);
    }
    if !have_few(&named) || named.len() >= 0x1_0000_0000 {
        return Err(DefFault::NoMemory);
    }
    let text = String::from_str(alloc, text)?;
    Ok(Definition { text, named, types })
}

// Reads a text of characters.
fn read_characters(alloc: Global, text: &str) -> Result<Definition, DefFault>
    requires { length text.now < 2 ^ 31 }
    ensures { IsParsed text.now result }
{
    let tokens = split(alloc, text)?;
    let (scope, _) = read_definitions(alloc, text, &tokens)?;
    rooted(alloc, text, scope.named, scope.types)
}

// Reads a definition text.
fn read_text(alloc: Global, text: &[u8]) -> Result<Definition, DefFault>
    requires { length text.now < 2 ^ 31 }
    ensures { IsParsed text.now result }
{
    match str::from_utf8(text) {
        Ok(text) => read_characters(alloc, text),
        Err(_) => Err(DefFault::NotUtf8),
    }
}

/// Reads a definition text. It answers the definition exactly where the text means one, and else the first fault.
pub fn parse(alloc: Global, text: &[u8]) -> Result<Definition, DefFault>
    requires { length text.now < 2 ^ 31 }
    ensures means { IfOk result (λ d. DefText text.now (definition_of d)) }
    ensures refuses { IfErr result (λ e. (e ≡ DefFault.NoMemory) ⊎ FirstFault text.now e) }
    ensures every_text { (d : List NamedTree) → DefText text.now d → MatchResult result (λ p. definition_of p ≡ d) (λ e. e ≡ DefFault.NoMemory) }
    ensures every_fault { (f : DefFault) → FirstFault text.now f → MatchResult result (λ _. ⊥) (λ e. (e ≡ f) ⊎ (e ≡ DefFault.NoMemory)) }
{
    read_text(alloc, text)
}
