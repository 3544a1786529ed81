//! A blank layout over the kind tree of another.

ghost use Rattle.std.specs.Prelude.{◌≡◌};
ghost use Rattle.layout_tree.specs.Shapes.{cleared};

use crate::layouts::Layouts;
use crate::node::{FormVersion, Kind, NodeSpec};
use std::alloc::{AllocError, Global};

impl Layouts {
    ghost use Rattle.std.specs.Prelude.{IfOk};
    ghost use Rattle.frozen_model.specs.Trees.{kinds};
    ghost use Rattle.layout_tree.specs.Nodes.{layout_of, noted_in, IsSettled};
    ghost use Rattle.layout_tree.specs.Shapes.{blank as blank_tree, shape_of};

    /// The relaxed layout of version 2 over the kind tree of another layout, with all widths and bases 0.
    pub fn blank(alloc: Global, from: &Layouts) -> Result<Layouts, AllocError>
        ensures layout { IfOk result (λ l. layout_of l ≡ shape_of (kinds (layout_of from.now).tree)) }
        ensures settled { IfOk result (λ l. IsSettled l) }
        ensures noted { IfOk result (λ l. noted_in l ≡ blank_tree (kinds (layout_of from.now).tree)) }
    {
        let count = from.nodes.len();
        let mut nodes = Vec::with_capacity(alloc, count)?;
        for i in 0..count {
            nodes.push(clear(from.nodes[i]))?;
        }
        Ok(Layouts {
            nodes,
            version: FormVersion::Second,
            relaxed: true,
        })
    }
}

// The node with no bits, at offset 0 and from base 0; the number after the nodes below it stays.
fn clear(node: NodeSpec) -> NodeSpec
    ensures { result ≡ cleared node }
{
    let wide = match node.kind {
        Kind::Flag | Kind::I8 | Kind::I16 | Kind::I32 | Kind::I64 | Kind::Size => 0,
        _ => node.wide,
    };
    NodeSpec {
        kind: node.kind,
        field: node.field,
        parent: node.parent,
        bits: 0,
        wide,
        offset: 0,
        base: 0,
    }
}
