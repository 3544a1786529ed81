//! What is known while bytes are checked: the least fault so far, and the number of the next node.

ghost use Rattle.std.specs.Prelude.{◌≡◌, ◌+◌, ◌<◌, ◌^◌, Some};
ghost use Rattle.typed_reading.specs.Faults.{lesser, here, least, all_here, number as number_of};
ghost use Rattle.typed_reading.specs.Marks.{listed};
ghost use Rattle.typed_reading.specs.Progress.{inside, with, skipped};

use crate::fault::{Found, NodeFault};

/// The least fault so far, and the number of the next node.
#[derive(Clone, Copy, Debug)]
pub struct Progress {
    pub found: Option<Found>,
    pub next: u64,
}

fn number(fault: NodeFault) -> u32
    ensures { result ≡ number_of fault }
{
    match fault {
        NodeFault::RepeatedField => 1,
        NodeFault::MissingRequired(_) => 2,
        NodeFault::WrongType => 3,
        NodeFault::BadText => 4,
        NodeFault::RepeatedKey => 5,
    }
}

/// The lesser of two faults: that of the lesser node, and at one node that of the lesser number.
#[tactic(auto, using(crate::proofs::Order::lesser_node, crate::proofs::Order::lesser_number))]
fn lesser_of(known: Option<Found>, other: Found) -> Option<Found>
    ensures { result ≡ lesser known (Some other) }
{
    let Some(first) = known else {
        return Some(other);
    };
    if other.node < first.node {
        return Some(other);
    }
    if other.node == first.node && number(other.fault) < number(first.fault) {
        return Some(other);
    }
    known
}

/// Goes past a node without faults of its own.
#[inline(always)]
pub fn pass_node(progress: &mut Progress)
    requires { progress.old.next + 1 < 2 ^ 64 }
    ensures { progress.new ≡ inside progress.old }
{
    progress.next += 1;
}

/// Goes past nodes that are not looked at.
#[inline(always)]
pub fn pass_to(progress: &mut Progress, next: u64)
    ensures { progress.new ≡ skipped progress.old next }
{
    progress.next = next;
}

/// Notes a fault at the node where the progress stands, and goes on at the node `next`.
#[inline(never)]
pub fn note_fault(progress: &mut Progress, fault: NodeFault, next: u64)
    ensures { progress.new ≡ with progress.old fault next }
{
    let node = progress.next;
    note_found(progress, node, fault);
    progress.next = next;
}

/// Notes a fault at a node.
#[inline(never)]
pub fn note_found(progress: &mut Progress, node: u64, fault: NodeFault)
    ensures { progress.new ≡
        record { found = lesser progress.old.found (Some (here node fault)); next = progress.old.next } }
{
    progress.found = lesser_of(progress.found, Found { node, fault });
}

/// Notes the fault of a struct that lacks a field.
#[tactic(auto, using(crate::proofs::Order::lesser_none))]
#[inline(always)]
pub fn note_missing(progress: &mut Progress, node: u64, missing: Option<i16>)
    ensures { progress.new ≡
        record { found = lesser progress.old.found (least (all_here node (listed missing))); next = progress.old.next } }
{
    match missing {
        Some(id) => note_found(progress, node, NodeFault::MissingRequired(id)),
        None => {}
    }
}
