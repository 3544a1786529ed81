//! The builder of trees: its stack, its room, and how a node is put.
ghost use Rattle.std.specs.Prelude.{◌≡◌, true, ◌+◌, ◌-◌, ◌^◌, ◌<◌, ◌≤◌, nat_lt, length, vec_len, vec_capacity};
ghost use Rattle.std.specs.List.{list_all};

use crate::joined::Joined;
use crate::pool::Pool;
use crate::room::Room;
use crate::spot::Spot;
use crate::tree::Tree;
use block_region::Block;
use std::alloc::{AllocError, Global};

/// A stack of trees. Each call puts one on top, made of those that were on top. It has room for nodes and bytes, with
/// which a call takes no memory; where there is less, it grows.
#[derive(Drop)]
pub struct Builder {
    pub(crate) pool: Pool,
    // The numbers of the trees' nodes.
    pub(crate) stack: Vec<u32>,
    pub(crate) room: Room,
    ghost placed: { list_all (λ n. nat_lt n (length pool.nodes.items)) stack.items ≡ true },
    // Each node is linked at most once.
    ghost linked: { vec_len pool.links + vec_len stack ≤ vec_len pool.nodes },
    ghost few: { vec_len pool.nodes + room.nodes < 2 ^ 32 },
    ghost few_bytes: { room.bytes < 2 ^ 64 - 1 },
    ghost for_nodes: { vec_len pool.nodes + room.nodes ≤ vec_capacity pool.nodes },
    ghost for_links: { vec_len pool.nodes + room.nodes ≤ vec_capacity pool.links },
    ghost for_numbers: { vec_len stack + room.nodes ≤ vec_capacity stack },
    ghost for_bytes: { pool.bytes.taken + room.bytes ≤ length pool.bytes.bytes },
}

impl Builder {
    ghost use Rattle.std.specs.Prelude.{◌++◌, ◌∷◌, [], IsOk, IfOk, OnOk, OnErr, take, max};
    ghost use Rattle.typed_tree.specs.Spots.{fits_at, value_of, part};
    ghost use Rattle.typed_tree.specs.Pools.{store_of, values_of, Grows};
    ghost use Rattle.typed_tree.specs.References.{value_of_tree, kind_of_tree, spot_kind};
    ghost use Rattle.typed_tree.specs.Rooms.{HasRoom, greater, room_of};
    ghost use Rattle.typed_tree.specs.Made.{MadeAs, Makes, IsMade, TreeIsMade};
    ghost use Rattle.frozen_model.specs.Trees.{KindTree};
    ghost use Rattle.typed_tree.specs.Trees.{trees_in, trees, kinds, room, joined, joined_kind, Pushes, IsAsBefore};

    /// An empty stack without room.
    pub fn new(alloc: Global) -> Builder
        ensures trees { trees result ≡ [] }
        ensures kinds { kinds result ≡ [] }
        ensures room { room result ≡ room_of 0 0 }
    {
        Builder {
            pool: Pool::new(alloc),
            stack: Vec::new(alloc),
            room: Room::NONE,
        }
    }

    /// An empty stack with room for so many nodes, of which there are fewer than 2^32, and so many bytes of texts and
    /// binaries, fewer than 2^64 - 1.
    pub fn sized(alloc: Global, nodes: u64, bytes: u64) -> Result<Builder, AllocError>
        ensures trees { IfOk result (λ b. trees b ≡ []) }
        ensures kinds { IfOk result (λ b. kinds b ≡ []) }
        ensures room { IfOk result (λ b. room b ≡ room_of nodes bytes) }
    {
        if nodes >= 0x1_0000_0000 || bytes == u64::MAX {
            return Err(AllocError);
        }
        let pool = Pool::sized(alloc, nodes as usize, bytes as usize)?;
        let stack = Vec::with_capacity(alloc, nodes as usize)?;
        let room = Room { nodes, bytes };
        Ok(Builder { pool, stack, room })
    }

    // Makes room for what is used.
    #[inline(always)]
    pub(crate) fn make_room(&mut self, used: Room) -> Result<(), AllocError>
        ensures store { store_of self.new.pool ≡ store_of self.old.pool }
        ensures nodes { self.new.pool.nodes.items ≡ self.old.pool.nodes.items }
        ensures stack { self.new.stack.items ≡ self.old.stack.items }
        ensures room { OnOk result (self.new.room ≡ greater self.old.room used) }
        ensures failed { OnErr result (IsAsBefore self.old self.new) }
        ensures same { OnOk result ((trees self.new ≡ trees self.old) × (kinds self.new ≡ kinds self.old)) }
        ensures enough { HasRoom self.old.room used → IsOk result }
    {
        if self.room.covers(used) {
            return Ok(());
        }
        self.grow(self.room.greater(used))
    }

    // Takes memory for this room, which is at least what there is.
    #[cold]
    #[inline(never)]
    fn grow(&mut self, room: Room) -> Result<(), AllocError>
        requires nodes { self.old.room.nodes ≤ room.nodes }
        requires bytes { self.old.room.bytes ≤ room.bytes }
        ensures store { store_of self.new.pool ≡ store_of self.old.pool }
        ensures nodes { self.new.pool.nodes.items ≡ self.old.pool.nodes.items }
        ensures stack { self.new.stack.items ≡ self.old.stack.items }
        ensures room { OnOk result (self.new.room ≡ room) }
        ensures failed { OnErr result (self.new.room ≡ self.old.room) }
    {
        if room.nodes >= 0x1_0000_0000 - self.pool.nodes.len() as u64 || room.bytes == u64::MAX {
            return Err(AllocError);
        }
        self.pool.reserve_nodes(room.nodes as usize)?;
        self.stack.reserve(room.nodes as usize)?;
        self.pool.reserve_bytes(room.bytes as usize)?;
        self.room = room;
        Ok(())
    }

    // Adds bytes where there is room for them, and says where they stand.
    pub(crate) fn put_bytes(&mut self, x: &[u8]) -> Block
        requires { length x.now ≤ self.old.room.bytes }
        ensures nodes { self.new.pool.nodes ≡ self.old.pool.nodes }
        ensures stack { self.new.stack ≡ self.old.stack }
        ensures room { self.new.room ≡ room_of self.old.room.nodes (self.old.room.bytes - length x.now) }
        ensures grows { Grows (store_of self.old.pool) (store_of self.new.pool) }
        ensures inside { result.start + result.len ≡ length (store_of self.new.pool).bytes }
        ensures added { part (store_of self.new.pool).bytes result ≡ x.now }
    {
        let block = self.pool.add_bytes(x);
        self.room.bytes -= x.len() as u64;
        block
    }

    // Puts a node, and its number on the stack, where there is room for it.
    pub(crate) fn put(&mut self, spot: Spot)
        requires room { 0 < self.old.room.nodes }
        requires fit { fits_at (store_of self.old.pool) (length self.old.pool.nodes.items) spot ≡ true }
        ensures pushed { Pushes self.old self.new (value_of (store_of self.old.pool) (values_of self.old.pool) spot)
            (spot_kind spot) (room_of 1 0) }
        ensures made { (t : KindTree) → MadeAs (store_of self.old.pool) self.old.pool.nodes.items t spot
            → Makes self.old self.new 0 t }
    {
        let number = self.pool.nodes.len() as u32;
        self.pool.put(spot);
        self.stack.push_reserved(number);
        self.room.nodes -= 1;
    }

    // Puts a node that refers to nothing but nodes.
    pub(crate) fn push(&mut self, spot: Spot) -> Result<(), AllocError>
        requires { fits_at (store_of self.old.pool) (length self.old.pool.nodes.items) spot ≡ true }
        ensures pushed { OnOk result (Pushes self.old self.new
            (value_of (store_of self.old.pool) (values_of self.old.pool) spot)
            (spot_kind spot) (room_of 1 0)) }
        ensures made { (t : KindTree) → MadeAs (store_of self.old.pool) self.old.pool.nodes.items t spot
            → OnOk result (Makes self.old self.new 0 t) }
        ensures failed { OnErr result (IsAsBefore self.old self.new) }
        ensures enough { HasRoom (room self.old) (room_of 1 0) → IsOk result }
    {
        self.make_room(Room { nodes: 1, bytes: 0 })?;
        self.put(spot);
        Ok(())
    }

    /// The one tree.
    pub fn finish(self) -> Tree
        requires { length (trees self) ≡ 1 }
        ensures tree { trees self ≡ value_of_tree result ∷ [] }
        ensures kind { kinds self ≡ kind_of_tree result ∷ [] }
        ensures made { (t : KindTree) → IsMade self 0 t → TreeIsMade t result }
    {
        let Builder {
            pool,
            stack,
            room: _,
        } = self;
        let top = stack[0];
        Tree { pool, top }
    }
}
