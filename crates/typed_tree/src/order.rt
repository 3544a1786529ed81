//! Nodes by rising key.
ghost use Rattle.std.specs.Prelude.{◌≡◌, ◌<◌, ◌≤◌, true, nat_lt, IfOk, IsTrue, All, length, map, slice_index};
ghost use Rattle.std.specs.List.{list_all, enumerate_from};
ghost use Rattle.frozen_model.specs.Values.{key_less};
ghost use Rattle.key_order.specs.Keys.{AreOneKind, AreRising, IsOneKind};
ghost use Rattle.key_order.specs.Entries.{places, placed};
ghost use Rattle.key_order.specs.InOrder.{in_order};
ghost use Rattle.typed_tree.specs.Pools.{values_of};
ghost use Rattle.typed_tree.specs.References.{value_at};
ghost use Rattle.typed_tree.specs.Trees.{trees_in};
ghost use Rattle.typed_tree.specs.Tables.{AreTaken, AreSorted, AreOrdered, TellsRepeat};

use crate::fault::TableFault;
use crate::pool::Pool;
use crate::read::compare_keys;
use crate::tree::TreeRef;
use key_order::{PlacedKey, least_repeat};
use std::alloc::{AllocError, Global};

/// Whether the key that one node is stands before the key that another one is.
pub fn is_before(pool: &Pool, node: u32, other: u32) -> bool
    requires node { node < length pool.now.nodes.items }
    requires other { other < length pool.now.nodes.items }
    requires kind { IsOneKind (value_at pool.now node) (value_at pool.now other) }
    ensures { result ≡ key_less (value_at pool.now node) (value_at pool.now other) }
{
    compare_keys(TreeRef { pool, node }, TreeRef { pool, node: other }).is_lt()
}

/// Whether the keys that nodes are rise as they stand.
pub fn keys_rise(pool: &Pool, nodes: &[u32]) -> bool
    requires there { list_all (λ k. nat_lt k (length pool.now.nodes.items)) nodes.now ≡ true }
    requires kind { AreOneKind (trees_in (values_of pool.now) nodes.now) }
    ensures { IsTrue result → AreRising (trees_in (values_of pool.now) nodes.now) }
{
    for later in 1..nodes.len() {
        if !is_before(pool, nodes[later - 1], nodes[later]) {
            return false;
        }
    }
    true
}

// The keys that nodes are, with their places from 0.
fn key_entries<'a>(
    alloc: Global,
    pool: &'a Pool,
    nodes: &[u32],
) -> Result<Vec<PlacedKey<'a>>, AllocError>
    requires there { list_all (λ k. nat_lt k (length pool.now.nodes.items)) nodes.now ≡ true }
    requires kind { AreOneKind (trees_in (values_of pool.now) nodes.now) }
    ensures { IfOk result (λ es. placed es.items ≡ enumerate_from 0 (trees_in (values_of pool.now) nodes.now)) }
{
    let mut entries = Vec::new(alloc);
    entries.reserve(nodes.len())?;
    for node in nodes {
        let place = entries.len() as u64;
        let key = TreeRef { pool, node: *node }.key();
        entries.push(PlacedKey { key, place })?;
    }
    Ok(entries)
}

// The keys that nodes are, with their places from 0, by rising key.
fn sorted_entries<'a>(
    alloc: Global,
    pool: &'a Pool,
    nodes: &[u32],
) -> Result<Vec<PlacedKey<'a>>, TableFault>
    requires there { list_all (λ k. nat_lt k (length pool.now.nodes.items)) nodes.now ≡ true }
    requires kind { AreOneKind (trees_in (values_of pool.now) nodes.now) }
    ensures sorted { IfOk result (λ es. AreSorted (trees_in (values_of pool.now) nodes.now) es.items) }
    ensures repeated { TellsRepeat (trees_in (values_of pool.now) nodes.now) result }
{
    let mut entries = key_entries(alloc, pool, nodes)?;
    match least_repeat(entries.as_mut_slice()) {
        None => Ok(entries),
        Some(repeat) => Err(TableFault::RepeatedKey {
            first: repeat.first,
            second: repeat.second,
        }),
    }
}

// The nodes at the places of entries.
fn nodes_at(alloc: Global, nodes: &[u32], entries: &[PlacedKey<'_>]) -> Result<Vec<u32>, AllocError>
    requires { All (λ e. e.place < length nodes.now) entries.now }
    ensures { IfOk result (λ ks. ks.items ≡ map (λ e. slice_index nodes.now e.place) entries.now) }
{
    entries
        .iter()
        .map(|entry| nodes[entry.place as usize])
        .collect(alloc)
}

/// The nodes by rising key, where each is its own key.
pub fn keys_in_order(alloc: Global, pool: &Pool, nodes: &[u32]) -> Result<Vec<u32>, TableFault>
    requires there { list_all (λ k. nat_lt k (length pool.now.nodes.items)) nodes.now ≡ true }
    requires kind { AreOneKind (trees_in (values_of pool.now) nodes.now) }
    ensures ordered { IfOk result (λ ks. trees_in (values_of pool.now) ks.items
        ≡ in_order (trees_in (values_of pool.now) nodes.now)) }
    ensures still { IfOk result (λ ks. list_all (λ k. nat_lt k (length pool.now.nodes.items)) ks.items ≡ true) }
    ensures taken { IfOk result (λ ks. AreTaken nodes.now ks.items) }
    ensures repeated { TellsRepeat (trees_in (values_of pool.now) nodes.now) result }
{
    let entries = sorted_entries(alloc, pool, nodes)?;
    let sorted = nodes_at(alloc, nodes, &entries)?;
    Ok(sorted)
}

/// The places of the keys that nodes are, by rising key.
pub fn places_in_order(alloc: Global, pool: &Pool, keys: &[u32]) -> Result<Vec<u64>, TableFault>
    requires there { list_all (λ k. nat_lt k (length pool.now.nodes.items)) keys.now ≡ true }
    requires kind { AreOneKind (trees_in (values_of pool.now) keys.now) }
    ensures ordered { IfOk result (λ ps. AreOrdered (trees_in (values_of pool.now) keys.now) ps.items) }
    ensures repeated { TellsRepeat (trees_in (values_of pool.now) keys.now) result }
{
    let entries = sorted_entries(alloc, pool, keys)?;
    let sorted = places_of(alloc, &entries)?;
    Ok(sorted)
}

fn places_of(alloc: Global, entries: &[PlacedKey<'_>]) -> Result<Vec<u64>, AllocError>
    ensures { IfOk result (λ ps. ps.items ≡ places entries.now) }
{
    entries.iter().map(|entry| entry.place).collect(alloc)
}
