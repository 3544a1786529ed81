//! Room for nodes and for the bytes of texts and binaries.
ghost use Rattle.std.specs.Prelude.{◌≡◌, ◌↔◌, ◌+◌, IsTrue};
ghost use Rattle.typed_tree.specs.Rooms.{HasRoom, greater, room_of, without};
ghost use Rattle.typed_tree.specs.Sizes.{capped_room};

/// So many nodes, and so many bytes of texts and binaries.
#[derive(Clone, Copy, Debug, PartialEq, Eq)]
pub struct Room {
    pub nodes: u64,
    pub bytes: u64,
}

impl Room {
    /// No room.
    pub const NONE: Room = Room { nodes: 0, bytes: 0 };

    /// The room of one node.
    pub const ONE_NODE: Room = Room { nodes: 1, bytes: 0 };

    /// The room of both together, where a number above 2^64 - 1 is that.
    pub fn and(self, other: Room) -> Room
        ensures { result ≡ capped_room (room_of (self.nodes + other.nodes) (self.bytes + other.bytes)) }
    {
        Room {
            nodes: self.nodes.saturating_add(other.nodes),
            bytes: self.bytes.saturating_add(other.bytes),
        }
    }

    /// Whether there is room for what is used.
    pub fn covers(self, used: Room) -> bool
        ensures { IsTrue result ↔ HasRoom self used }
    {
        used.nodes <= self.nodes && used.bytes <= self.bytes
    }

    /// At least the room of both.
    pub fn greater(self, other: Room) -> Room
        ensures { result ≡ greater self other }
    {
        Room {
            nodes: self.nodes.max(other.nodes),
            bytes: self.bytes.max(other.bytes),
        }
    }

    /// What is left when so much is used, and nothing where it was less.
    pub fn without(self, used: Room) -> Room
        ensures { result ≡ without self used }
    {
        Room {
            nodes: self.nodes.saturating_sub(used.nodes),
            bytes: self.bytes.saturating_sub(used.bytes),
        }
    }
}
