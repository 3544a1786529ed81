//! Links to the fields of a struct, by rising id.
ghost use Rattle.std.specs.Prelude.{◌≡◌, ◌+◌, ◌++◌, ◌≤◌, length, take, drop, map, zip, vec_len, vec_capacity, All};
ghost use Rattle.std.specs.Int.{w16};
ghost use Rattle.std.specs.Prelude.{FitsSigned};
ghost use Rattle.std.specs.List.Sorted.{IsPermutation, IsSortedByKey};
ghost use Rattle.std.specs.Ordering.{nat_cmp};
ghost use Rattle.typed_tree.specs.Fields.{field_link, id_numbers};

use crate::spot::Link;

/// A link to a node under an id.
pub fn link_to(id: u16, node: u32) -> Link
    ensures { result ≡ field_link (id, node) }
{
    Link { id, node }
}

/// Adds a link to each node under its id, where room was made for them.
pub fn push_fields(links: &mut Vec<Link>, ids: &[i16], nodes: &[u32])
    requires as_many { length ids.now ≡ length nodes.now }
    requires room { vec_len links.old + length nodes.now ≤ vec_capacity links.old }
    ensures added { links.new.items ≡ links.old.items ++ map field_link (zip (id_numbers ids.now) nodes.now) }
    ensures in_range { All (FitsSigned w16) ids.now }
    ensures len { vec_len links.new ≡ vec_len links.old + length nodes.now }
    ensures capacity { vec_capacity links.new ≡ vec_capacity links.old }
{
    for i in 0..nodes.len() {
        links.push_reserved(link_to(ids[i].cast_unsigned(), nodes[i]));
    }
}

// Sorts links by their ids.
fn sort_ids(links: &mut [Link])
    ensures sorted { IsSortedByKey (λ l. l.id) nat_cmp links.new }
    ensures moved { IsPermutation links.old links.new }
{
    links.sort_unstable_by_key(|link| link.id);
}

/// Sorts the links from a place on by their ids.
pub fn sort_from(links: &mut [Link], first: usize)
    requires { first ≤ length links.old }
    ensures len { length links.new ≡ length links.old }
    ensures kept { take first links.new ≡ take first links.old }
    ensures sorted { IsSortedByKey (λ l. l.id) nat_cmp (drop first links.new) }
    ensures moved { IsPermutation (drop first links.old) (drop first links.new) }
{
    let (_, fields) = links.split_at_mut(first);
    sort_ids(fields);
}
