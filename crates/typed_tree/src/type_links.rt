//! Links to the fields of a struct type.
ghost use Rattle.std.specs.Prelude.{◌≡◌, ◌≤◌, ◌<◌, ◌+◌, ◌^◌, ◌++◌, length, vec_len, vec_capacity};
ghost use Rattle.idl_profile.specs.Types.{kind_of, fields_of};
ghost use Rattle.idl_parse.specs.Refs.{type_of_ref};
ghost use Rattle.typed_tree.specs.Filled.{links_of};
ghost use Rattle.typed_tree.specs.Pools.{store_of, Grows};
ghost use Rattle.typed_tree.specs.Spots.{linked};

use crate::fields::link_to;
use crate::pool::Pool;
use crate::spot::{Link, Run};
use thrift_idl::{TypeKind, TypeRef};

// Adds a link to each node under the id of the struct's field at its place, where room was made for them.
fn push_type_links(links: &mut Vec<Link>, ty: TypeRef<'_>, nodes: &[u32])
    requires kind { kind_of (type_of_ref ty) ≡ TypeKind.Struct }
    requires as_many { length (fields_of (type_of_ref ty)) ≡ length nodes.now }
    requires room { vec_len links.old + length nodes.now ≤ vec_capacity links.old }
    ensures added { links.new.items ≡ links.old.items ++ links_of (fields_of (type_of_ref ty.entry)) nodes.now }
    ensures len { vec_len links.new ≡ vec_len links.old + length nodes.now }
    ensures capacity { vec_capacity links.new ≡ vec_capacity links.old }
{
    for i in 0..ty.field_count() {
        links.push_reserved(link_to(ty.field_at(i).id().unsigned_abs(), nodes[i as usize]));
    }
}

impl Pool {
    /// Adds links to nodes under the ids of a struct's fields, in their order, where room was made for them, and says
    /// where they stand.
    pub fn add_type_links(&mut self, ty: TypeRef<'_>, nodes: &[u32]) -> Run
        requires kind { kind_of (type_of_ref ty) ≡ TypeKind.Struct }
        requires as_many { length (fields_of (type_of_ref ty)) ≡ length nodes.now }
        requires room { vec_len self.old.links + length nodes.now ≤ vec_capacity self.old.links }
        requires few { vec_len self.old.links + length nodes.now < 2 ^ 32 }
        ensures nodes { self.new.nodes ≡ self.old.nodes }
        ensures bytes { self.new.bytes ≡ self.old.bytes }
        ensures len { vec_len self.new.links ≡ vec_len self.old.links + length nodes.now }
        ensures capacity { vec_capacity self.new.links ≡ vec_capacity self.old.links }
        ensures grows { Grows (store_of self.old) (store_of self.new) }
        ensures inside { result.first + result.count ≡ length (store_of self.new).links }
        ensures added { linked (store_of self.new) result ≡ links_of (fields_of (type_of_ref ty.entry)) nodes.now }
    {
        let first = self.links.len() as u32;
        push_type_links(&mut self.links, ty, nodes);
        Run {
            first,
            count: nodes.len() as u32,
        }
    }
}
