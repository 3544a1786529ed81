//! The pairs of a map, as keys and values by turns.
ghost use Rattle.std.specs.Prelude.{◌≡◌, ◌<◌, ◌+◌, ◌*◌, ℕ, List, true, nat_lt, IfOk, IsTrue, All, length, map};
ghost use Rattle.std.specs.List.{list_all};
ghost use Rattle.frozen_model.specs.Values.{Value, key_of};
ghost use Rattle.key_order.specs.Keys.{AreOneKind, AreRising};
ghost use Rattle.key_order.specs.InOrder.{in_order};
ghost use Rattle.typed_tree.specs.Parts.{pairs};
ghost use Rattle.typed_tree.specs.Pools.{values_of};
ghost use Rattle.typed_tree.specs.Trees.{trees_in};
ghost use Rattle.typed_tree.specs.Tables.{AreTakenByTurns, evens, turned, TellsRepeat};

use crate::fault::TableFault;
use crate::order::{is_before, places_in_order};
use crate::pool::Pool;
use std::alloc::{AllocError, Global};

/// Whether the keys among keys and values by turns rise as they stand.
pub fn entries_rise(pool: &Pool, nodes: &[u32]) -> bool
    requires there { list_all (λ k. nat_lt k (length pool.now.nodes.items)) nodes.now ≡ true }
    requires kind { AreOneKind (map key_of (pairs (trees_in (values_of pool.now) nodes.now))) }
    ensures { IsTrue result → AreRising (map key_of (pairs (trees_in (values_of pool.now) nodes.now))) }
{
    for later in 1..nodes.len() / 2 {
        if !is_before(pool, nodes[2 * later - 2], nodes[2 * later]) {
            return false;
        }
    }
    true
}

// The keys among keys and values by turns.
fn key_nodes(alloc: Global, nodes: &[u32]) -> Result<Vec<u32>, AllocError>
    ensures { IfOk result (λ ks. ks.items ≡ evens nodes.now) }
{
    let mut keys = Vec::new(alloc);
    for i in 0..nodes.len() / 2 {
        keys.push(nodes[2 * i])?;
    }
    Ok(keys)
}

// The keys and values by turns of the pairs at these places.
fn nodes_of_pairs(alloc: Global, nodes: &[u32], places: &[u64]) -> Result<Vec<u32>, AllocError>
    requires { All (λ p. 2 * p + 1 < length nodes.now) places.now }
    ensures { IfOk result (λ ks. ks.items ≡ turned nodes.now places.now) }
{
    let mut by_turns = Vec::new(alloc);
    by_turns.reserve(nodes.len())?;
    for place in places {
        let at = 2 * *place as usize;
        by_turns.push(nodes[at])?;
        by_turns.push(nodes[at + 1])?;
    }
    Ok(by_turns)
}

/// Keys and values by turns, in the order of rising keys.
pub fn entries_in_order(alloc: Global, pool: &Pool, nodes: &[u32]) -> Result<Vec<u32>, TableFault>
    requires there { list_all (λ k. nat_lt k (length pool.now.nodes.items)) nodes.now ≡ true }
    requires kind { AreOneKind (map key_of (pairs (trees_in (values_of pool.now) nodes.now))) }
    ensures ordered { IfOk result (λ ks. pairs (trees_in (values_of pool.now) ks.items)
        ≡ in_order (pairs (trees_in (values_of pool.now) nodes.now))) }
    ensures even { IfOk result (λ ks. length ks.items
        ≡ 2 * length (pairs (trees_in (values_of pool.now) ks.items))) }
    ensures still { IfOk result (λ ks. list_all (λ k. nat_lt k (length pool.now.nodes.items)) ks.items ≡ true) }
    ensures taken { IfOk result (λ ks. AreTakenByTurns nodes.now ks.items) }
    ensures repeated { TellsRepeat (map key_of (pairs (trees_in (values_of pool.now) nodes.now))) result }
{
    let keys = key_nodes(alloc, nodes)?;
    let places = places_in_order(alloc, pool, &keys)?;
    let by_turns = nodes_of_pairs(alloc, nodes, &places)?;
    Ok(by_turns)
}
