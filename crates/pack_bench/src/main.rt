//! Measures packing: prints a checksum of the packing of 1,000 users, and given the word `time` the time of each cell.
#![tactic(auto)]

ghost use Rattle.std.specs.Prelude.{◌≡◌, ◌+◌, ◌<◌, ◌≤◌, OnOk, IfOk, length};
ghost use Rattle.layout_tree.specs.Nodes.{layout_of};
ghost use Rattle.typed_tree.specs.References.{value_of_tree};
ghost use Rattle.typed_tree.specs.Trees.{trees};
ghost use Rattle.pack_bench.specs.Table.{AddsUser, IsTable, described_table, packed_bytes, plain_node};

use block_region::Region;
use freezer::freeze_into;
use frozen_laws::holding_is_everywhere;
use layout_tree::{Kind, Layouts, NodeSpec};
use std::alloc::{AllocError, Global};
use std::rt::Clock;
use std::time::Instant;
use std::{env, io};
use typed_tree::{Builder, Tree};

/// How many users the checksum is of.
const USERS: u32 = 1000;

/// How many users are timed.
const TIMED_USERS: u32 = 100_000;

/// How often each measurement is taken; the least time counts.
const ROUNDS: u32 = 25;

/// The cells of a user: its item, its id, its score, and the distance, count and bytes of its name.
const CELLS_OF_USER: u64 = 13;

/// A node of the layout, whose width is noted as it is.
fn node(kind: Kind, field: i16, parent: u32, bits: u32, offset: u32) -> NodeSpec
    ensures { result ≡ plain_node kind field parent bits offset }
{
    NodeSpec {
        kind,
        field,
        parent,
        bits,
        wide: bits,
        offset,
        base: 0,
    }
}

/// The layout of the tables that are packed: a struct of a list of users.
fn table_layouts(alloc: Global) -> Result<Layouts, AllocError>
    ensures { IfOk result (λ l. layout_of l ≡ described_table) }
{
    let nodes = [
        node(Kind::Struct, 0, 0, 19, 0),
        node(Kind::List, 1, 0, 19, 0),
        node(Kind::Size, 1, 1, 2, 0),
        node(Kind::Size, 2, 1, 17, 2),
        node(Kind::Struct, 3, 1, 49, 0),
        node(Kind::I32, 1, 4, 17, 0),
        node(Kind::I32, 2, 4, 7, 17),
        node(Kind::Bytes, 3, 4, 25, 24),
        node(Kind::Size, 1, 7, 21, 0),
        node(Kind::Size, 2, 7, 4, 21),
    ];
    Ok(Layouts::from_nodes(nodes.to_vec(alloc)?, 2, true))
}

/// Puts a user with a number.
fn add_user(builder: &mut Builder, i: u32) -> Result<(), AllocError>
    requires { i < 100000 }
    ensures { OnOk result (AddsUser builder.old builder.new) }
{
    builder.int(i64::from(i))?;
    builder.int(i64::from(i % 100))?;
    builder.bytes(b"Adelaide")?;
    builder.structure(&[1, 2, 3])
}

/// A table of so many users.
fn make(alloc: Global, n: u32) -> Result<Tree, AllocError>
    requires { n ≤ 100000 }
    ensures { IfOk result (λ t. IsTable n (value_of_tree t)) }
{
    let users = u64::from(n);
    let mut builder = Builder::sized(alloc, 4 * users + 2, 8 * users)?;
    for i in 0..n {
        add_user(&mut builder, i)?;
    }
    builder.list(users)?;
    builder.structure(&[1])?;
    Ok(builder.finish())
}

/// Packs a table of n users into a region of exactly so many bytes.
#[inline(never)]
fn pack(layouts: &Layouts, tree: &Tree, n: u32, region: &mut Region)
    requires few { n ≤ 100000 }
    requires layout { layout_of layouts.now ≡ described_table }
    requires table { IsTable n (value_of_tree tree.now) }
    requires left { length region.old.bytes ≡ region.old.taken + packed_bytes n }
{
    holding_is_everywhere();
    freeze_into(layouts, tree.top(), region);
}

/// The bytes of the packing of n users.
fn packed_len(n: u32) -> usize
    requires { n ≤ 100000 }
    ensures { result ≡ packed_bytes n }
{
    let n = n as usize;
    3 + ((49 * n + 7) / 8 + 8 * n)
}

/// A sum of bytes that tells their order.
fn checksum(bytes: &[u8]) -> u64 {
    let mut sum = 0u64;
    for byte in bytes {
        sum = sum.wrapping_mul(31).wrapping_add(u64::from(*byte));
    }
    sum
}

/// Picoseconds for each of so many cells, since an instant.
fn picoseconds(rt: &impl Clock, start: Instant, cells: u64) -> io::Result<u64> {
    let spent = start.elapsed(rt)?;
    let nanoseconds = spent
        .as_secs()
        .wrapping_mul(1_000_000_000)
        .wrapping_add(u64::from(spent.subsec_nanos()));
    Ok(nanoseconds.wrapping_mul(1000) / cells.max(1))
}

/// Prints the least time of a cell, as a region is reserved and a table is packed into it.
fn measure(rt: &HostRuntime) -> io::Result<()> {
    let layouts = table_layouts(rt.alloc())?;
    let tree = make(rt.alloc(), TIMED_USERS)?;
    let cells = CELLS_OF_USER * u64::from(TIMED_USERS) + 2;
    let mut least = u64::MAX;
    let mut sum = 0u64;
    for _ in 0..ROUNDS {
        let start = Instant::now(rt)?;
        let mut region = Region::reserve(rt.alloc(), packed_len(TIMED_USERS))?;
        pack(&layouts, &tree, TIMED_USERS, &mut region);
        least = least.min(picoseconds(rt, start, cells)?);
        sum = checksum(region.finish().as_slice());
    }
    println!(rt; "proved, {cells} cells: packing {least} ps a cell, sum {sum}")
}

fn main(rt: HostRuntime) -> io::Result<()> {
    for word in env::args(&rt)?.skip(1) {
        if word.as_str() == "time" {
            return measure(&rt);
        }
    }
    let layouts = table_layouts(rt.alloc())?;
    let tree = make(rt.alloc(), USERS)?;
    let mut region = Region::reserve(rt.alloc(), packed_len(USERS))?;
    pack(&layouts, &tree, USERS, &mut region);
    let sum = checksum(region.finish().as_slice());
    println!(rt; "users {USERS} sum {sum}")
}
