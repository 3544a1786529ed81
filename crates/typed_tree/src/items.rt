//! Links to the items of a list.
ghost use Rattle.std.specs.Prelude.{◌≡◌, ◌+◌, ◌++◌, ◌≤◌, length, map, vec_len, vec_capacity};
ghost use Rattle.typed_tree.specs.Spots.{item_link};

use crate::spot::Link;

/// Adds a link to each node, where room was made for them.
pub fn push_items(links: &mut Vec<Link>, nodes: &[u32])
    requires { vec_len links.old + length nodes.now ≤ vec_capacity links.old }
    ensures added { links.new.items ≡ links.old.items ++ map item_link nodes.now }
    ensures len { vec_len links.new ≡ vec_len links.old + length nodes.now }
    ensures capacity { vec_capacity links.new ≡ vec_capacity links.old }
{
    for node in nodes {
        links.push_reserved(Link { id: 0, node: *node });
    }
}
