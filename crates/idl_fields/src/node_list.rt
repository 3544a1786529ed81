//! Looking up and adding types.

ghost use Rattle.std.specs.Prelude.{◌≡◌, ◌++◌, ◌∷◌, [], IfOk, OnOk, length, nat_lt, true};
ghost use Rattle.idl_fields.specs.Nodes.{parts_below, type_at, node_type};
ghost use Rattle.idl_fields.specs.View.{types_in};

use crate::draft::TypeNode;
use crate::nodes::TypeNodes;
use idl_profile::BaseType;
use std::alloc::{AllocError, Global};

impl TypeNodes {
    /// No types.
    pub fn new(alloc: Global) -> Self
        ensures { types_in result ≡ [] }
    {
        TypeNodes {
            nodes: Vec::new(alloc),
        }
    }

    /// The type at this place, from 0; beyond the last a bool.
    pub fn at(&self, place: u32) -> TypeNode
        ensures means { node_type (types_in self.now) result ≡ type_at (types_in self.now) place }
        ensures below { parts_below place result ≡ true }
    {
        match self.nodes.get(place as usize) {
            Some(node) => *node,
            None => TypeNode::Base(BaseType::Flag),
        }
    }

    fn has(&self, place: u32) -> bool
        ensures { result ≡ nat_lt place (length (types_in self.now)) }
    {
        (place as usize) < self.nodes.len()
    }

    /// Whether the parts of the node stand in the list.
    pub fn has_parts(&self, node: TypeNode) -> bool
        ensures { result ≡ parts_below (length (types_in self.now)) node }
    {
        match node {
            TypeNode::Base(_) => true,
            TypeNode::Enum(_) => true,
            TypeNode::Struct(_) => true,
            TypeNode::List(x) => self.has(x),
            TypeNode::Set(x) => self.has(x),
            TypeNode::Map(x, y) => self.has(x) && self.has(y),
        }
    }

    /// Adds a type at the end, and answers its place. It refuses for want of memory, and from 2^32 types on.
    pub fn push(&mut self, node: TypeNode) -> Result<u32, AllocError>
        requires { parts_below (length (types_in self.old)) node ≡ true }
        ensures place { IfOk result (λ i. i ≡ length (types_in self.old)) }
        ensures grows { OnOk result (types_in self.new ≡ types_in self.old ++ node_type (types_in self.old) node ∷ []) }
    {
        let len = self.nodes.len();
        if len >= 0x1_0000_0000 {
            return Err(AllocError);
        }
        self.nodes.push(node)?;
        Ok(len as u32)
    }
}
