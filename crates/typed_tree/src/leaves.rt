//! The calls of a builder that put a leaf.

use crate::builder::Builder;
use crate::room::Room;
use crate::spot::Spot;
use std::alloc::AllocError;

impl Builder {
    ghost use Rattle.std.specs.Prelude.{IsOk, OnOk, OnErr, length};
    ghost use Rattle.frozen_model.specs.Trees.{KindTree, Flag, Integer, Whole, Text, Binary, Leaf, ByteRange, Optional};
    ghost use Rattle.typed_tree.specs.Made.{Makes};
    ghost use Rattle.frozen_model.specs.Values.{Truth, Number, One, Bytes, Absent};
    ghost use Rattle.typed_tree.specs.declared.tree.TreeKind.TheVariants as made;
    ghost use Rattle.typed_tree.specs.Rooms.{HasRoom, room_of};
    ghost use Rattle.typed_tree.specs.Trees.{room, Pushes, IsAsBefore};

    /// Puts a flag. It uses one node.
    pub fn flag(&mut self, x: bool) -> Result<(), AllocError>
        ensures pushed { OnOk result (Pushes self.old self.new (One (Truth x)) made.Flag (room_of 1 0)) }
        ensures made { OnOk result (Makes self.old self.new 0 (Leaf Flag tt)) }
        ensures failed { OnErr result (IsAsBefore self.old self.new) }
        ensures enough { HasRoom (room self.old) (room_of 1 0) → IsOk result }
    {
        self.push(Spot::Flag(x))
    }

    /// Puts a number. It uses one node.
    pub fn int(&mut self, x: i64) -> Result<(), AllocError>
        ensures pushed { OnOk result (Pushes self.old self.new (One (Number x)) made.Int (room_of 1 0)) }
        ensures made { (w : Whole) → OnOk result (Makes self.old self.new 0 (Leaf (Integer w) tt)) }
        ensures failed { OnErr result (IsAsBefore self.old self.new) }
        ensures enough { HasRoom (room self.old) (room_of 1 0) → IsOk result }
    {
        self.push(Spot::Int(x))
    }

    /// Puts an optional that is absent. It uses one node.
    pub fn absent(&mut self) -> Result<(), AllocError>
        ensures pushed { OnOk result (Pushes self.old self.new Absent made.Absent (room_of 1 0)) }
        ensures made { (t : KindTree) → OnOk result (Makes self.old self.new 0 (Optional tt t)) }
        ensures failed { OnErr result (IsAsBefore self.old self.new) }
        ensures enough { HasRoom (room self.old) (room_of 1 0) → IsOk result }
    {
        self.push(Spot::Absent)
    }

    /// Puts a text. It uses one node and its length in bytes.
    pub fn text(&mut self, x: &str) -> Result<(), AllocError>
        ensures pushed { OnOk result (Pushes self.old self.new (Bytes x.now) made.Text (room_of 1 (length x.now))) }
        ensures made { OnOk result (Makes self.old self.new 0 (ByteRange Text tt tt)) }
        ensures failed { OnErr result (IsAsBefore self.old self.new) }
        ensures enough { HasRoom (room self.old) (room_of 1 (length x.now)) → IsOk result }
    {
        self.make_room(Room {
            nodes: 1,
            bytes: x.len() as u64,
        })?;
        self.put_text(x);
        Ok(())
    }

    // Puts a text, where there is room for it.
    pub(crate) fn put_text(&mut self, x: &str)
        requires { HasRoom self.old.room (room_of 1 (length x.now)) }
        ensures pushed { Pushes self.old self.new (Bytes x.now) made.Text (room_of 1 (length x.now)) }
        ensures made { Makes self.old self.new 0 (ByteRange Text tt tt) }
    {
        let block = self.put_bytes(x.as_bytes());
        self.put(Spot::Text(block));
    }

    /// Puts bytes. It uses one node and their length in bytes.
    pub fn bytes(&mut self, x: &[u8]) -> Result<(), AllocError>
        ensures pushed { OnOk result (Pushes self.old self.new (Bytes x.now) made.Bytes (room_of 1 (length x.now))) }
        ensures made { OnOk result (Makes self.old self.new 0 (ByteRange Binary tt tt)) }
        ensures failed { OnErr result (IsAsBefore self.old self.new) }
        ensures enough { HasRoom (room self.old) (room_of 1 (length x.now)) → IsOk result }
    {
        self.make_room(Room {
            nodes: 1,
            bytes: x.len() as u64,
        })?;
        self.put_binary(x);
        Ok(())
    }

    // Puts bytes, where there is room for them.
    pub(crate) fn put_binary(&mut self, x: &[u8])
        requires { HasRoom self.old.room (room_of 1 (length x.now)) }
        ensures pushed { Pushes self.old self.new (Bytes x.now) made.Bytes (room_of 1 (length x.now)) }
        ensures made { Makes self.old self.new 0 (ByteRange Binary tt tt) }
    {
        let block = self.put_bytes(x);
        self.put(Spot::Bytes(block));
    }
}
