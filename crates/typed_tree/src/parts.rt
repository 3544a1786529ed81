//! The calls of a builder that join trees.

ghost use Rattle.std.specs.Prelude.{◌≡◌, ◌≤◌, ◌+◌, ◌++◌, length, take, vec_len, vec_capacity};
ghost use Rattle.typed_tree.specs.Trees.{joined_spot as spot_of};

use crate::builder::Builder;
use crate::entries::{entries_in_order, entries_rise};
use crate::fault::TableFault;
use crate::joined::Joined;
use crate::order::{keys_in_order, keys_rise};
use crate::room::Room;
use crate::spot::{Run, Spot};
use std::alloc::AllocError;

// The node of trees that are joined, whose links stand at a run.
fn joined_spot(to: Joined, run: Run) -> Spot
    ensures { result ≡ spot_of to run }
{
    match to {
        Joined::List => Spot::List(run),
        Joined::Set => Spot::Set(run),
        Joined::Map => Spot::Map(run),
    }
}

// Puts numbers in the place of those from a place on, of which there are no fewer.
fn replace_from(stack: &mut Vec<u32>, base: usize, nodes: &[u32])
    requires { base + length nodes.now ≤ length stack.old.items }
    ensures items { stack.new.items ≡ take base stack.old.items ++ nodes.now }
    ensures len { vec_len stack.new ≡ base + length nodes.now }
    ensures capacity { vec_capacity stack.old ≤ vec_capacity stack.new }
{
    stack.truncate(base);
    stack.extend_from_slice(nodes).unwrap();
}

impl Builder {
    ghost use Rattle.std.specs.Prelude.{◌≢◌, true, ◌<◌, ◌-◌, ◌*◌, IsOk, IfOk, OnOk, OnErr, AllPairs};
    ghost use Rattle.std.specs.Prelude.{map, drop, nat_lt, slice_index_or};
    ghost use Rattle.std.specs.List.{list_all};
    ghost use Rattle.frozen_model.specs.Trees.{AList, ASet, AMap};
    ghost use Rattle.frozen_model.specs.Values.{Items, Present, key_of, Absent};
    ghost use Rattle.typed_tree.specs.Fields.{id_numbers, record_of};
    ghost use Rattle.typed_tree.specs.Pools.{store_of, values_of};
    ghost use Rattle.typed_tree.specs.Parts.{pairs};
    ghost use Rattle.typed_tree.specs.declared.tree.TreeKind.TheVariants as made;
    ghost use Rattle.typed_tree.specs.Rooms.{HasRoom, room_of};
    ghost use Rattle.typed_tree.specs.Ranges.{pair_kinds};
    ghost use Rattle.typed_tree.specs.Parts.{ids_of};
    ghost use Rattle.typed_tree.specs.Made.{Makes, IsMade, AreMade, AreMadeByTurns, AreMadeUnder, ItemsAreMade, holder_of};
    ghost use Rattle.frozen_model.specs.Trees.{KindTree, KindTrees, ItemRange, Optional, Struct, ids_of as ids_of_kinds};
    ghost use Rattle.typed_tree.specs.Tables.{TellsRepeat};
    ghost use Rattle.typed_tree.specs.Trees.{trees_in, trees, kinds, room, last, joined, joined_kind, Pushes, Joins};
    ghost use Rattle.typed_tree.specs.Trees.{IsAsBefore};
    ghost use Rattle.key_order.specs.Keys.{AreOneKind};
    ghost use Rattle.key_order.specs.InOrder.{row, in_order};

    /// Puts an optional that is present, around the last tree. It uses one node.
    pub fn present(&mut self) -> Result<(), AllocError>
        requires { 0 < length (trees self.old) }
        ensures wrapped { OnOk result (Joins self.old self.new 1
            (Present (slice_index_or (last 1 (trees self.old)) 0 Absent))
            made.Present (room_of 1 0)) }
        ensures made { (t : KindTree) → IsMade self.old (length (trees self.old) - 1) t
            → OnOk result (Makes self.old self.new 1 (Optional tt t)) }
        ensures failed { OnErr result (IsAsBefore self.old self.new) }
        ensures enough { HasRoom (room self.old) (room_of 1 0) → IsOk result }
    {
        self.make_room(Room::ONE_NODE)?;
        let base = self.stack.len() - 1;
        let inner = self.stack[base];
        self.stack.truncate(base);
        self.put(Spot::Present(inner));
        Ok(())
    }

    // Joins the trees from a place on the stack on as they stand, where there is room for it.
    pub(crate) fn join(&mut self, base: usize, to: Joined)
        requires room { 0 < self.old.room.nodes }
        requires base { base ≤ length self.old.stack.items }
        ensures joined { Joins self.old self.new (length self.old.stack.items - base)
            (joined to (drop base (trees self.old))) (joined_kind to) (room_of 1 0) }
        ensures made { (t : KindTree) → ItemsAreMade to self.old t (drop base self.old.stack.items)
            → Makes self.old self.new (length self.old.stack.items - base) (ItemRange (holder_of to) tt tt t) }
    {
        let run = self.pool.add_items(&self.stack[base..]);
        self.stack.truncate(base);
        self.put(joined_spot(to, run));
    }

    /// Puts a list of the last `n` trees. It uses one node.
    pub fn list(&mut self, n: u64) -> Result<(), AllocError>
        requires { n ≤ length (trees self.old) }
        ensures joined { OnOk result (Joins self.old self.new n
            (Items AList (row (last n (trees self.old)))) made.List (room_of 1 0)) }
        ensures made { (t : KindTree) → AreMade self.old (length (trees self.old) - n) n t
            → OnOk result (Makes self.old self.new n (ItemRange AList tt tt t)) }
        ensures failed { OnErr result (IsAsBefore self.old self.new) }
        ensures enough { HasRoom (room self.old) (room_of 1 0) → IsOk result }
    {
        self.make_room(Room::ONE_NODE)?;
        let base = self.stack.len() - n as usize;
        self.join(base, Joined::List);
        Ok(())
    }

    // Joins the trees from a place on the stack on, once these nodes stand in their place.
    fn join_nodes(&mut self, base: usize, nodes: &[u32], to: Joined) -> Result<(), AllocError>
        requires base { base ≤ length self.old.stack.items }
        requires there { list_all (λ k. nat_lt k (length self.old.pool.nodes.items)) nodes.now ≡ true }
        requires as_many { base + length nodes.now ≤ length self.old.stack.items }
        ensures joined { OnOk result (Joins self.old self.new (length self.old.stack.items - base)
            (joined to (trees_in (values_of self.old.pool) nodes.now)) (joined_kind to) (room_of 1 0)) }
        ensures made { (t : KindTree) → ItemsAreMade to self.old t nodes.now → OnOk result
            (Makes self.old self.new (length self.old.stack.items - base) (ItemRange (holder_of to) tt tt t)) }
        ensures failed { OnErr result (IsAsBefore self.old self.new) }
    {
        self.make_room(Room::ONE_NODE)?;
        replace_from(&mut self.stack, base, nodes);
        self.join(base, to);
        Ok(())
    }

    /// Puts a set of the last `n` trees, keys of one kind, in rising order. It uses one node, and where the keys do not
    /// rise as they stand, it takes memory for their order.
    pub fn set(&mut self, n: u64) -> Result<(), TableFault>
        requires there { n ≤ length (trees self.old) }
        requires kind { AreOneKind (last n (trees self.old)) }
        ensures joined { OnOk result (Joins self.old self.new n
            (Items ASet (row (in_order (last n (trees self.old))))) made.Set
            (room_of 1 0)) }
        ensures made { (t : KindTree) → AreMade self.old (length (trees self.old) - n) n t
            → OnOk result (Makes self.old self.new n (ItemRange ASet tt tt t)) }
        ensures repeated { TellsRepeat (last n (trees self.old)) result }
        ensures failed { OnErr result (IsAsBefore self.old self.new) }
    {
        let base = self.stack.len() - n as usize;
        if keys_rise(&self.pool, &self.stack[base..]) {
            self.make_room(Room::ONE_NODE)?;
            self.join(base, Joined::Set);
            return Ok(());
        }
        let nodes = keys_in_order(*self.stack.allocator(), &self.pool, &self.stack[base..])?;
        self.join_nodes(base, &nodes, Joined::Set)?;
        Ok(())
    }

    /// Puts a map of the last `n` keys and values by turns, each key before its value, in rising order of the keys,
    /// which are of one kind. It uses one node, and where the keys do not rise as they stand, it takes memory for their
    /// order.
    pub fn map(&mut self, n: u64) -> Result<(), TableFault>
        requires there { 2 * n ≤ length (trees self.old) }
        requires kind { AreOneKind (map key_of (pairs (last (2 * n) (trees self.old)))) }
        ensures joined { OnOk result (Joins self.old self.new (2 * n)
            (Items AMap (row (in_order (pairs (last (2 * n) (trees self.old))))))
            made.Map (room_of 1 0)) }
        ensures made { (key value : KindTree)
            → AreMadeByTurns self.old (length (trees self.old) - 2 * n) n key value
            → OnOk result (Makes self.old self.new (2 * n) (ItemRange AMap tt tt (pair_kinds key value))) }
        ensures repeated { TellsRepeat (map key_of (pairs (last (2 * n) (trees self.old)))) result }
        ensures failed { OnErr result (IsAsBefore self.old self.new) }
    {
        let base = self.stack.len() - 2 * n as usize;
        if entries_rise(&self.pool, &self.stack[base..]) {
            self.make_room(Room::ONE_NODE)?;
            self.join(base, Joined::Map);
            return Ok(());
        }
        let nodes = entries_in_order(*self.stack.allocator(), &self.pool, &self.stack[base..])?;
        self.join_nodes(base, &nodes, Joined::Map)?;
        Ok(())
    }

    /// Puts a struct of the last trees, the k-th of them under the k-th id. The ids differ, and may stand in any order.
    /// The fields stand by rising id, where one below 0 counts as 65,536 more. It uses one node.
    pub fn structure(&mut self, ids: &[i16]) -> Result<(), AllocError>
        requires differ { AllPairs (λ i j. i ≢ j) ids.now }
        requires there { length ids.now ≤ length (trees self.old) }
        ensures joined { OnOk result (Joins self.old self.new (length ids.now)
            (record_of (id_numbers ids.now) (last (length ids.now) (trees self.old))) made.Struct (room_of 1 0)) }
        ensures made { (ls : KindTrees)
            → ids_of_kinds ls ≡ ids_of (record_of (id_numbers ids.now) (last (length ids.now) (trees self.old)))
            → AreMadeUnder self.old (length (trees self.old) - length ids.now) (id_numbers ids.now) ls
            → OnOk result (Makes self.old self.new (length ids.now) (Struct ls)) }
        ensures failed { OnErr result (IsAsBefore self.old self.new) }
        ensures enough { HasRoom (room self.old) (room_of 1 0) → IsOk result }
    {
        self.make_room(Room::ONE_NODE)?;
        let base = self.stack.len() - ids.len();
        let run = self.pool.add_fields(ids, &self.stack[base..]);
        self.stack.truncate(base);
        self.put(Spot::Struct(run));
        Ok(())
    }
}
