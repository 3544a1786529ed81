//! A pool of nodes, and how it grows.
ghost use Rattle.std.specs.Prelude.{◌≡◌, ◌≤◌, ◌+◌, ◌++◌, length, true};
ghost use Rattle.block_region.specs.Space.{in_use};
ghost use Rattle.typed_tree.specs.Spots.{store, fits};

use crate::fields::{push_fields, sort_from};
use crate::items::push_items;
use crate::spot::{Link, Run, Spot};
use block_region::{Block, Region};
use std::alloc::{AllocError, Global};

/// Nodes by their number, and what they refer to. A node's parts stand before it.
#[derive(Drop)]
pub struct Pool {
    pub(crate) nodes: Vec<Spot>,
    pub(crate) links: Vec<Link>,
    // The bytes of all texts and binaries.
    pub(crate) bytes: Region,
    ghost ordered: { fits (store links.items (in_use bytes)) 0 nodes.items ≡ true },
}

// Adds bytes to those that are in use, where there is room for them.
#[inline]
fn append(region: &mut Region, x: &[u8]) -> Block
    requires { region.old.taken + length x.now ≤ length region.old.bytes }
    ensures added { in_use region.new ≡ in_use region.old ++ x.now }
    ensures start { result.start ≡ length (in_use region.old) }
    ensures len { result.len ≡ length x.now }
    ensures taken { region.new.taken ≡ region.old.taken + length x.now }
    ensures size { length region.new.bytes ≡ length region.old.bytes }
{
    region.append(x).unwrap()
}

impl Pool {
    ghost use Rattle.std.specs.Prelude.{◌<◌, ◌^◌, ◌∷◌, [], IfOk, OnOk, OnErr, map, zip, AllPairs, ◌≢◌};
    ghost use Rattle.std.specs.Prelude.{vec_len, vec_capacity, nat_lt};
    ghost use Rattle.typed_tree.specs.Spots.{fits_at, part, linked, item_link, ids_rise};
    ghost use Rattle.typed_tree.specs.Fields.{field_link, id_numbers};
    ghost use Rattle.base_lists.specs.InOrder.{in_order};
    ghost use Rattle.typed_tree.specs.Pools.{store_of, Grows, IsEmpty, SameNodes, SameStore};

    /// A pool without nodes.
    pub fn new(alloc: Global) -> Pool
        ensures { IsEmpty result }
    {
        Pool {
            nodes: Vec::new(alloc),
            links: Vec::new(alloc),
            bytes: Region::reserve(alloc, 0).unwrap(),
        }
    }

    /// A pool without nodes that has room for so many nodes and bytes.
    pub fn sized(alloc: Global, nodes: usize, bytes: usize) -> Result<Pool, AllocError>
        ensures empty { IfOk result IsEmpty }
        ensures nodes { IfOk result (λ p. nodes ≤ vec_capacity p.nodes) }
        ensures links { IfOk result (λ p. nodes ≤ vec_capacity p.links) }
        ensures bytes { IfOk result (λ p. length p.bytes.bytes ≡ bytes) }
    {
        let spots = Vec::with_capacity(alloc, nodes)?;
        let links = Vec::with_capacity(alloc, nodes)?;
        let bytes = Region::reserve(alloc, bytes)?;
        Ok(Pool {
            nodes: spots,
            links,
            bytes,
        })
    }

    /// Makes room for so many more nodes, and for a link to each node.
    pub fn reserve_nodes(&mut self, nodes: usize) -> Result<(), AllocError>
        requires few { vec_len self.old.nodes + nodes < 2 ^ 32 }
        requires linked { vec_len self.old.links ≤ vec_len self.old.nodes }
        ensures nodes { SameNodes self.old self.new }
        ensures store { SameStore self.old self.new }
        ensures room { OnOk result (vec_len self.old.nodes + nodes ≤ vec_capacity self.new.nodes) }
        ensures links { OnOk result (vec_len self.old.nodes + nodes ≤ vec_capacity self.new.links) }
    {
        self.nodes.reserve(nodes)?;
        let links = self.nodes.len() + nodes - self.links.len();
        self.links.reserve(links)
    }

    /// Makes room for so many more bytes. Where there was less, the region at least doubles, and what is in use is
    /// copied as one block.
    pub fn reserve_bytes(&mut self, bytes: usize) -> Result<(), AllocError>
        ensures nodes { SameNodes self.old self.new }
        ensures store { SameStore self.old self.new }
        ensures room { OnOk result (self.new.bytes.taken + bytes ≤ length self.new.bytes.bytes) }
    {
        let left = self.bytes.left();
        if bytes <= left {
            return Ok(());
        }
        let used = self.bytes.in_use().len();
        let Some(least) = used.checked_add(bytes) else {
            return Err(AllocError);
        };
        let twice = used.saturating_add(left).saturating_mul(2);
        self.bytes = self.bytes.grown(*self.nodes.allocator(), least.max(twice))?;
        Ok(())
    }

    /// Puts a node where room was made for it.
    pub fn put(&mut self, spot: Spot)
        requires room { vec_len self.old.nodes < vec_capacity self.old.nodes }
        requires fit { fits_at (store_of self.old) (length self.old.nodes.items) spot ≡ true }
        ensures links { self.new.links ≡ self.old.links }
        ensures bytes { self.new.bytes ≡ self.old.bytes }
        ensures nodes { self.new.nodes.items ≡ self.old.nodes.items ++ spot ∷ [] }
        ensures len { vec_len self.new.nodes ≡ vec_len self.old.nodes + 1 }
        ensures capacity { vec_capacity self.new.nodes ≡ vec_capacity self.old.nodes }
    {
        self.nodes.push_reserved(spot);
    }

    /// Adds bytes where room was made for them, and says where they stand.
    pub fn add_bytes(&mut self, x: &[u8]) -> Block
        requires { self.old.bytes.taken + length x.now ≤ length self.old.bytes.bytes }
        ensures nodes { self.new.nodes ≡ self.old.nodes }
        ensures links { self.new.links ≡ self.old.links }
        ensures taken { self.new.bytes.taken ≡ self.old.bytes.taken + length x.now }
        ensures size { length self.new.bytes.bytes ≡ length self.old.bytes.bytes }
        ensures grows { Grows (store_of self.old) (store_of self.new) }
        ensures inside { result.start + result.len ≡ length (store_of self.new).bytes }
        ensures added { part (store_of self.new).bytes result ≡ x.now }
    {
        append(&mut self.bytes, x)
    }

    /// Adds links to nodes, where room was made for them, and says where they stand.
    pub fn add_items(&mut self, nodes: &[u32]) -> Run
        requires room { vec_len self.old.links + length nodes.now ≤ vec_capacity self.old.links }
        requires few { vec_len self.old.links + length nodes.now < 2 ^ 32 }
        ensures nodes { self.new.nodes ≡ self.old.nodes }
        ensures bytes { self.new.bytes ≡ self.old.bytes }
        ensures len { vec_len self.new.links ≡ vec_len self.old.links + length nodes.now }
        ensures capacity { vec_capacity self.new.links ≡ vec_capacity self.old.links }
        ensures grows { Grows (store_of self.old) (store_of self.new) }
        ensures inside { result.first + result.count ≡ length (store_of self.new).links }
        ensures added { linked (store_of self.new) result ≡ map item_link nodes.now }
    {
        let first = self.links.len() as u32;
        push_items(&mut self.links, nodes);
        Run {
            first,
            count: nodes.len() as u32,
        }
    }

    /// Adds links to nodes under these ids, where room was made for them, by rising id, and says where they stand.
    pub fn add_fields(&mut self, ids: &[i16], nodes: &[u32]) -> Run
        requires as_many { length ids.now ≡ length nodes.now }
        requires differ { AllPairs (λ i j. i ≢ j) ids.now }
        requires room { vec_len self.old.links + length nodes.now ≤ vec_capacity self.old.links }
        requires few { vec_len self.old.links + length nodes.now < 2 ^ 32 }
        ensures nodes { self.new.nodes ≡ self.old.nodes }
        ensures bytes { self.new.bytes ≡ self.old.bytes }
        ensures len { vec_len self.new.links ≡ vec_len self.old.links + length nodes.now }
        ensures capacity { vec_capacity self.new.links ≡ vec_capacity self.old.links }
        ensures grows { Grows (store_of self.old) (store_of self.new) }
        ensures inside { result.first + result.count ≡ length (store_of self.new).links }
        ensures added { linked (store_of self.new) result
            ≡ in_order nat_lt (λ l. l.id) (map field_link (zip (id_numbers ids.now) nodes.now)) }
        ensures rise { ids_rise (linked (store_of self.new) result) ≡ true }
    {
        let first = self.links.len();
        push_fields(&mut self.links, ids, nodes);
        sort_from(self.links.as_mut_slice(), first);
        Run {
            first: first as u32,
            count: nodes.len() as u32,
        }
    }
}
