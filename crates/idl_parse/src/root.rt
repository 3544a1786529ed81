//! The root of a definition.
ghost use Rattle.std.specs.Prelude.{◌≡◌, ◌≤◌, ◌^◌, ◌<◌, if◌then◌else◌, length};
ghost use Rattle.idl_profile.specs.Types.{root_of, kind_of};
ghost use Rattle.idl_parse.specs.Roots.{last_place as last_place_of};
ghost use Rattle.idl_parse.specs.Parsed.{definition_of};
ghost use Rattle.idl_parse.specs.Refs.{type_of_ref};

use crate::definition::{Definition, TypeRef};
use crate::parsing::is_struct;
use idl_fields::draft::{DraftNamed, TypeNode};
use idl_profile::TypeKind;

fn later(found: bool, place: u32, last: u32) -> u32
    ensures { result ≡ (if found then place else last) }
{
    if found { place } else { last }
}

// The number of the last struct, or that of all where there is none.
fn last_place(named: &[DraftNamed]) -> u32
    requires { length named.now < 2 ^ 32 }
    ensures { result ≡ last_place_of 0 (length named.now) named.now }
{
    let mut last = named.len() as u32;
    let mut place: u32 = 0;
    for one in named {
        last = later(is_struct(one), place, last);
        place += 1;
    }
    last
}

impl Definition {
    /// The root: the last struct of the definition.
    pub fn root(&self) -> TypeRef<'_>
        ensures tree { type_of_ref result ≡ root_of (definition_of self.now) }
        ensures kind { kind_of (type_of_ref result) ≡ TypeKind.Struct }
    {
        TypeRef {
            def: self,
            within: self.named.len() as u32,
            node: TypeNode::Struct(last_place(&self.named)),
        }
    }
}
