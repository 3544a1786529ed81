//! Layouts: accessors of their nodes, and changes of widths and bases.
ghost use Rattle.layout_tree.specs.Listing.{IsListing, IsNotedLayout, tree_of, version_of, version_number};
ghost use Rattle.frozen_model.specs.Layouts.{MayRelax, Version};
ghost use Rattle.std.specs.Prelude.{◌≡◌, ◌<◌};
ghost use Rattle.layout_tree.specs.Reading.{nth_child_of, whole_kind};
ghost use Rattle.layout_tree.specs.Rest.{rests_in};
ghost use Rattle.layout_tree.specs.Given.{shown_wide};

use crate::mark::mark_part;
use crate::node::{FormVersion, Kind, NodeSpec};
use crate::settle::settle_part;

/// A layout, as its nodes in preorder, with the width that is noted for each leaf. All sums and offsets agree
/// with the bits.
// A node with nodes below it keeps the number after them in the place of a noted width, which for it is
// always its bits.
#[derive(Drop)]
pub struct Layouts {
    pub(crate) nodes: Vec<NodeSpec>,
    pub(crate) version: FormVersion,
    pub(crate) relaxed: bool,
    ghost listing: { IsListing nodes.items },
    ghost sound: { ∥ IsNotedLayout version (tree_of nodes.items) ∥₁ },
    ghost relaxing: { ∥ MayRelax (version_of version) relaxed ∥₁ },
}

impl Layouts {
    ghost use Rattle.std.specs.Prelude.{◌+◌, ◌≤◌, ◌*◌, ◌^◌, ℕ, max, IsTrue, ◌↔◌, slice_get, Some};
    ghost use Rattle.frozen_model.specs.Trees.{nodes as count_nodes};
    ghost use Rattle.frozen_model.specs.Layouts.{Version2, Described, stride as stride_in};
    ghost use Rattle.frozen_model.specs.Packing.{bytes_for};
    ghost use Rattle.layout_tree.specs.Given.{IsListOf, ListsLayout, noted_from};
    ghost use Rattle.layout_tree.specs.Listing.{settled};
    ghost use Rattle.layout_tree.specs.Nodes.{IsNode, at, noted_in, layout_of, settled_of, IsSettled};
    ghost use Rattle.layout_tree.specs.Nodes.{IsNumber, listed, kind_of_node};
    ghost use Rattle.layout_tree.specs.Segments.{Inside};
    ghost use Rattle.layout_tree.specs.Noting.{LeafAt, noted_at, wide_at};
    ghost use Rattle.layout_tree.specs.Basing.{BaseAt, based_at, whole_at};
    ghost use Rattle.layout_tree.specs.Reading.{plain, kind_at, base_at, IsLeaf, IsRange, IsOptional, distance_width};
    ghost use Rattle.layout_tree.specs.Reading.{count_width, isset_width, item_stride, IsStruct, child_of};

    /// The layout of this version, 1 or 2, that the nodes are the list of, each leaf's width noted as it is.
    /// It takes no memory.
    pub fn from_nodes(mut nodes: Vec<NodeSpec>, version: i32, relaxed: bool) -> Layouts
        requires { ListsLayout nodes.items version relaxed }
        ensures layout { (d : Described) → IsListOf d nodes.items version relaxed → layout_of result ≡ d }
        ensures settled { IsSettled result }
        ensures noted { (d : Described) → IsListOf d nodes.items version relaxed
            → noted_in result ≡ noted_from d.tree }
    {
        mark_part(&mut nodes, 0);
        Layouts {
            nodes,
            version: form_version(version),
            relaxed,
        }
    }

    /// How many nodes there are.
    #[inline]
    pub fn count(&self) -> u32
        ensures { result ≡ count_nodes (noted_in self.now) }
    {
        self.nodes.len() as u32
    }

    /// The version of the frozen form: 1 or 2.
    #[inline]
    pub fn version(&self) -> i32
        ensures { result ≡ version_number (layout_of self.now).version }
    {
        match self.version {
            FormVersion::First => 1,
            FormVersion::Second => 2,
        }
    }

    /// Whether a definition that binds to the layout may have wider whole numbers; never in version 1.
    #[inline]
    pub fn relaxed(&self) -> bool
        ensures { result ≡ (layout_of self.now).relaxed }
    {
        self.relaxed
    }

    /// The kind of a node. A struct that is the item of a map is a pair, and any other is a struct.
    #[inline]
    pub fn kind(&self, node: u32) -> Kind
        requires { IsNode self.now node }
        ensures kind { plain result ≡ kind_at (at self.now node) }
        ensures told { kind_of_node self.now node ≡ Some result }
    {
        self.nodes[node as usize].kind
    }

    /// The inline bits of a node.
    #[inline]
    pub fn bits(&self, node: u32) -> u32
        requires { IsNode self.now node }
        ensures bits { result ≡ stride_in (at self.now node) }
        ensures leaf { IsLeaf (at self.now node) → result ≤ 64 }
    {
        self.nodes[node as usize].bits
    }

    /// Whether a node is a leaf of whole numbers.
    #[inline]
    pub fn is_whole(&self, node: u32) -> bool
        requires { IsNumber self.now node }
        ensures { result ≡ whole_at (noted_in self.now) node }
    {
        is_whole_kind(self.nodes[node as usize].kind)
    }

    /// The base of a leaf; 0 where it has none, and where the node is no leaf.
    #[inline]
    pub fn base(&self, node: u32) -> i64
        requires { IsNode self.now node }
        ensures { result ≡ base_at (at self.now node) }
    {
        let spec = self.nodes[node as usize];
        spec.base
    }

    /// The node of a number.
    #[inline]
    pub fn node(&self, node: u32) -> NodeSpec
        requires { IsNumber self.now node }
        ensures { slice_get (listed self.now) node ≡ Some result }
    {
        let mut spec = self.nodes[node as usize];
        spec.wide = wide_of(&spec);
        spec
    }

    /// The number after the last node of a node's subtree. A distance, a count and an isset have nothing
    /// below them.
    #[inline]
    pub fn past(&self, node: u32) -> u32
        requires { IsNumber self.now node }
        ensures part { IsNode self.now node → result ≡ node + count_nodes (at self.now node) }
        ensures other { (IsNode self.now node → ⊥) → result ≡ node + 1 }
    {
        let spec = &self.nodes[node as usize];
        match spec.kind {
            Kind::Flag | Kind::I8 | Kind::I16 | Kind::I32 | Kind::I64 | Kind::Size => node + 1,
            _ => spec.wide,
        }
    }

    /// The width of a range's distance.
    #[inline]
    pub fn distance_bits(&self, node: u32) -> u32
        requires node { IsNode self.now node }
        requires range { IsRange (at self.now node) }
        ensures width { result ≡ distance_width (at self.now node) }
        ensures small { result ≤ 32 }
    {
        self.nodes[node as usize + 1].bits
    }

    /// The width of a range's count.
    #[inline]
    pub fn count_bits(&self, node: u32) -> u32
        requires node { IsNode self.now node }
        requires range { IsRange (at self.now node) }
        ensures width { result ≡ count_width (at self.now node) }
        ensures small { result ≤ 32 }
    {
        self.nodes[node as usize + 2].bits
    }

    /// The width of an optional's flag.
    #[inline]
    pub fn isset_bits(&self, node: u32) -> u32
        requires node { IsNode self.now node }
        requires range { IsOptional (at self.now node) }
        ensures width { result ≡ isset_width (at self.now node) }
        ensures small { result ≤ 1 }
    {
        self.nodes[node as usize + 1].bits
    }

    /// The inline bits of an item of a range: 8 for a byte of a text or of bytes.
    #[inline]
    pub fn stride(&self, node: u32) -> u32
        requires node { IsNode self.now node }
        requires range { IsRange (at self.now node) }
        ensures stride { result ≡ item_stride (at self.now node) }
        ensures small { result ≤ 32767 }
    {
        match self.nodes[node as usize].kind {
            Kind::Text | Kind::Bytes => 8,
            _ => self.nodes[node as usize + 3].bits,
        }
    }

    /// The bytes of a block of so many items of a range.
    #[inline]
    pub fn block_len(&self, node: u32, count: u64) -> u64
        requires node { IsNode self.now node }
        requires range { IsRange (at self.now node) }
        requires few { count < 2 ^ 32 }
        ensures { result ≡ bytes_for (count * item_stride (at self.now node)) }
    {
        (count * self.stride(node) as u64 + 7) / 8
    }

    // The number of the child of a struct that a node below it is, or stands below.
    fn child_over(&self, node: u32, below: u32) -> u32
        requires { Inside self.now.nodes.items node below }
        ensures { (i : Inside self.now.nodes.items node below) → result ≡ i.child }
    {
        let mut child = below;
        while self.nodes[child as usize].parent != node {
            child = self.nodes[child as usize].parent;
        }
        child
    }

    // The number of a struct's child by its field, by halving, since ids rise: each step takes the child that
    // the node in the middle is, or stands below.
    fn field_child(&self, node: u32, field: i16) -> Option<u32>
        requires node { IsNode self.now node }
        requires structure { IsStruct (at self.now node) }
        ensures { result ≡ child_of (at self.now node) node field }
    {
        let mut low = node + 1;
        let mut end = self.past(node);
        while low < end {
            let child = self.child_over(node, low + (end - low) / 2);
            let spec = self.nodes[child as usize];
            if spec.field == field {
                return Some(child);
            }
            if spec.field < field {
                low = self.past(child);
            } else {
                end = child;
            }
        }
        None
    }

    // The number of a part's child by its field.
    fn part_child(&self, node: u32, field: i16) -> Option<u32>
        requires { IsNode self.now node }
        ensures { result ≡ child_of (at self.now node) node field }
    {
        match self.kind(node) {
            Kind::Text | Kind::Bytes | Kind::Optional => nth_child(node, 2, field),
            Kind::List | Kind::Set | Kind::Map => nth_child(node, 3, field),
            Kind::Struct | Kind::Pair => self.field_child(node, field),
            _ => None,
        }
    }

    /// The number of a node's child by its field. `None` exactly where it has none.
    pub fn child(&self, node: u32, field: i16) -> Option<u32>
        requires { IsNumber self.now node }
        ensures part { IsNode self.now node → result ≡ child_of (at self.now node) node field }
        ensures other { (IsNode self.now node → ⊥) → result ≡ None }
    {
        match self.nodes[node as usize].kind {
            Kind::Flag | Kind::Size => None,
            _ => self.part_child(node, field),
        }
    }

    /// Notes a width for a leaf, a distance, a count or an isset, at most its greatest, and changes nothing
    /// else.
    pub fn widen(&mut self, node: u32, width: u32)
        requires { LeafAt (noted_in self.old) node width }
        ensures noted { noted_in self.new ≡ noted_at (noted_in self.old) node width }
        ensures layout { layout_of self.new ≡ layout_of self.old }
    {
        self.nodes[node as usize].wide = width;
    }

    /// Notes a width for a leaf where it has none as great, and changes nothing else.
    #[inline]
    pub fn note(&mut self, node: u32, need: u32)
        requires { LeafAt (noted_in self.old) node need }
        ensures noted { let old = noted_in self.old in
            noted_in self.new ≡ noted_at old node (max (wide_at old node) need) }
        ensures layout { layout_of self.new ≡ layout_of self.old }
    {
        if self.nodes[node as usize].wide < need {
            self.widen(node, need);
        }
    }

    /// Gives a leaf of whole numbers another base in the range of its kind, and changes nothing else.
    pub fn rebase(&mut self, node: u32, base: i64)
        requires version { (layout_of self.old).version ≡ Version2 }
        requires leaf { BaseAt (noted_in self.old) node base }
        ensures noted { noted_in self.new ≡ based_at (noted_in self.old) node base }
        ensures version { (layout_of self.new).version ≡ (layout_of self.old).version }
        ensures relaxed { (layout_of self.new).relaxed ≡ (layout_of self.old).relaxed }
    {
        self.nodes[node as usize].base = base;
    }

    /// Whether each leaf has its noted width.
    pub fn is_settled(&self) -> bool
        ensures { IsTrue result ↔ IsSettled self.now }
    {
        let mut i = 0;
        while i < self.nodes.len() {
            if !rests(&self.nodes[i]) {
                return false;
            }
            i += 1;
        }
        true
    }

    /// Gives each leaf its noted width, and recomputes sums and offsets.
    pub fn settle(&mut self)
        ensures layout { layout_of self.new ≡ settled_of self.old }
        ensures settled { IsSettled self.new }
        ensures noted { noted_in self.new ≡ settled (noted_in self.old) }
    {
        settle_part(&mut self.nodes, 0, 0);
    }
}

// The version of a number, 1 or 2.
fn form_version(version: i32) -> FormVersion
    ensures { (v : Version) → version ≡ version_number v → version_of result ≡ v }
{
    if version == 2 {
        FormVersion::Second
    } else {
        FormVersion::First
    }
}

// The width that is noted for a leaf; the bits where there are nodes below.
#[inline]
fn wide_of(node: &NodeSpec) -> u32
    ensures { result ≡ shown_wide node.now.kind node.now.bits node.now.wide }
{
    match node.kind {
        Kind::Flag | Kind::I8 | Kind::I16 | Kind::I32 | Kind::I64 | Kind::Size => node.wide,
        _ => node.bits,
    }
}

// Whether a kind is one of whole numbers.
#[inline]
fn is_whole_kind(kind: Kind) -> bool
    ensures { result ≡ whole_kind kind }
{
    match kind {
        Kind::I8 | Kind::I16 | Kind::I32 | Kind::I64 => true,
        _ => false,
    }
}

// Whether a node is no leaf or has its noted width.
fn rests(node: &NodeSpec) -> bool
    ensures { result ≡ rests_in node.now }
{
    match node.kind {
        Kind::Flag | Kind::I8 | Kind::I16 | Kind::I32 | Kind::I64 | Kind::Size => {
            node.bits == node.wide
        }
        _ => true,
    }
}

// The child with this field, where two or three children with the fields 1, 2 and 3 follow the node.
fn nth_child(node: u32, most: i16, field: i16) -> Option<u32>
    requires { node < 4096 }
    ensures { result ≡ nth_child_of node most field }
{
    if field == 1 {
        Some(node + 1)
    } else if field == 2 {
        Some(node + 2)
    } else if field == 3 && most == 3 {
        Some(node + 3)
    } else {
        None
    }
}
