//! Plans of bindings.
ghost use Rattle.std.specs.Prelude.{◌≡◌, ◌<◌, length, slice_get, Some};
ghost use Rattle.evolve.specs.Bound.{plan_nodes};

// Stands for no node: a layout has 4096 nodes at most.
pub(crate) const NO_NODE: u32 = u32::MAX;

/// For each node of a definition's layout the node of a file's layout that it stands for.
#[derive(Drop)]
pub struct Plan {
    // In preorder; `NO_NODE` below a field that the file lacks.
    pub(crate) nodes: Vec<u32>,
}

impl Plan {
    /// The node of the file that a node of the definition's layout stands for, and `None` where the file
    /// lacks it.
    pub fn file_node(&self, node: u32) -> Option<u32>
        requires { node < length (plan_nodes self.now) }
        ensures { slice_get (plan_nodes self.now) node ≡ Some result }
    {
        let file = self.nodes[node as usize];
        if file == NO_NODE { None } else { Some(file) }
    }
}
