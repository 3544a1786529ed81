//! Measures values as trees: prints a checksum of 1,000 users, and given a number of users the time of each node.
#![tactic(auto)]

ghost use Rattle.std.specs.Prelude.{◌≡◌, ◌+◌, OnOk, length};
ghost use Rattle.typed_tree.specs.Parts.{IsRow, IsMap, IsRecord};
ghost use Rattle.typed_tree.specs.References.{value_of_ref};
ghost use Rattle.typed_tree.specs.Trees.{trees};

use std::alloc::{AllocError, Global};
use std::rt::Clock;
use std::time::Instant;
use std::{env, io};
use typed_tree::{Builder, TableFault, Tree, TreeKind, TreeRef};

/// How many users the checksum is of.
const USERS: u32 = 1000;

/// How often each measurement is taken; the least time counts.
const ROUNDS: u32 = 9;

/// The nodes of a user: its name, its number, two tags in a list, two scores by their names in a map, and itself.
const NODES_OF_USER: u64 = 11;

/// The bytes of a user's texts.
const BYTES_OF_USER: u64 = 23;

/// How deep the value is: the list, a user, a list or a map of it, and what that has.
const DEPTH: u32 = 4;

/// The names that users have by turns, each of 8 bytes.
static NAMES: [&str; 8] = [
    "Adelaide", "Beatrice", "Caroline", "Dominica", "Euphemia", "Florence", "Gabriela", "Harriett",
];

/// Why nothing is measured.
#[derive(Debug, Drop)]
enum Trouble {
    Value(TableFault),
    System(io::Error),
}

impl From<TableFault> for Trouble {
    fn from(fault: TableFault) -> Trouble {
        Trouble::Value(fault)
    }
}

impl From<io::Error> for Trouble {
    fn from(error: io::Error) -> Trouble {
        Trouble::System(error)
    }
}

/// Puts the tags of a user as one list.
fn add_tags(builder: &mut Builder) -> Result<(), AllocError>
    ensures { OnOk result (length (trees builder.new) ≡ length (trees builder.old) + 1) }
{
    builder.text("red")?;
    builder.text("green")?;
    builder.list(2)
}

/// Puts the scores of a user as one map.
fn add_scores(builder: &mut Builder, i: u32) -> Result<(), TableFault>
    ensures { OnOk result (length (trees builder.new) ≡ length (trees builder.old) + 1) }
{
    builder.text("art")?;
    builder.int(i64::from(i % 7))?;
    builder.text("math")?;
    builder.int(i64::from(i % 100))?;
    builder.map(2)
}

/// Puts a user.
fn add_user(builder: &mut Builder, i: u32) -> Result<(), TableFault>
    ensures { OnOk result (length (trees builder.new) ≡ length (trees builder.old) + 1) }
{
    builder.text(NAMES[(i % 8) as usize])?;
    builder.int(i64::from(i))?;
    add_tags(builder)?;
    add_scores(builder, i)?;
    builder.structure(&[1, 2, 3, 4])?;
    Ok(())
}

/// A list of so many users, made with all its room known beforehand.
#[inline(never)]
fn make(alloc: Global, users: u32) -> Result<Tree, TableFault> {
    let n = u64::from(users);
    let mut builder = Builder::sized(alloc, NODES_OF_USER * n + 1, BYTES_OF_USER * n)?;
    for i in 0..users {
        add_user(&mut builder, i)?;
    }
    builder.list(n)?;
    Ok(builder.finish())
}

/// The sum of bytes.
fn weigh_bytes(bytes: &[u8]) -> u64 {
    let mut sum = 0u64;
    for byte in bytes {
        sum = sum.wrapping_add(u64::from(*byte));
    }
    sum
}

/// The sum of all numbers and bytes of a value, down to so many levels.
#[inline(never)]
#[cycle(weigh)]
fn weigh(v: TreeRef<'_>, depth: u32) -> u64 {
    if depth == 0 {
        return 0;
    }
    match v.kind() {
        TreeKind::Flag => u64::from(v.flag()),
        TreeKind::Int => v.int().cast_unsigned(),
        TreeKind::Text | TreeKind::Bytes => weigh_bytes(v.bytes()),
        TreeKind::List | TreeKind::Set => weigh_items(v, depth - 1),
        TreeKind::Map => weigh_pairs(v, depth - 1),
        TreeKind::Struct => weigh_fields(v, depth - 1),
        TreeKind::Absent => 0,
        TreeKind::Present => weigh(v.inner(), depth - 1),
    }
}

/// The sum of the items of a list or a set.
#[cycle(weigh)]
fn weigh_items(v: TreeRef<'_>, depth: u32) -> u64
    requires { IsRow (value_of_ref v) }
{
    let mut sum = 0u64;
    for i in 0..v.len() {
        sum = sum.wrapping_add(weigh(v.item(i), depth));
    }
    sum
}

/// The sum of the keys and values of a map.
#[cycle(weigh)]
fn weigh_pairs(v: TreeRef<'_>, depth: u32) -> u64
    requires { IsMap (value_of_ref v) }
{
    let mut sum = 0u64;
    for i in 0..v.len() {
        let (key, value) = v.entry(i);
        sum = sum.wrapping_add(weigh(key, depth));
        sum = sum.wrapping_add(weigh(value, depth));
    }
    sum
}

/// The sum of the fields 1 to 4 of a struct.
#[cycle(weigh)]
fn weigh_fields(v: TreeRef<'_>, depth: u32) -> u64
    requires { IsRecord (value_of_ref v) }
{
    let mut sum = 0u64;
    for id in 1..5i16 {
        if let Some(field) = v.field(id) {
            sum = sum.wrapping_add(weigh(field, depth));
        }
    }
    sum
}

/// Picoseconds for each of so many nodes, since an instant.
fn picoseconds(rt: &impl Clock, start: Instant, nodes: u64) -> io::Result<u64> {
    let spent = start.elapsed(rt)?;
    let nanoseconds = spent
        .as_secs()
        .wrapping_mul(1_000_000_000)
        .wrapping_add(u64::from(spent.subsec_nanos()));
    Ok(nanoseconds.wrapping_mul(1000) / nodes.max(1))
}

/// Prints the least time of a node, as a value of so many users is made and as it is read.
fn measure(rt: &HostRuntime, users: u32) -> Result<(), Trouble> {
    let nodes = NODES_OF_USER * u64::from(users) + 1;
    let (mut made, mut read) = (u64::MAX, u64::MAX);
    let mut sum = 0u64;
    for _ in 0..ROUNDS {
        let start = Instant::now(rt)?;
        let tree = make(rt.alloc(), users)?;
        made = made.min(picoseconds(rt, start, nodes)?);
        let start = Instant::now(rt)?;
        sum = weigh(tree.top(), DEPTH);
        read = read.min(picoseconds(rt, start, nodes)?);
    }
    println!(rt;
        "proved, {nodes} nodes: making {made} ps a node, reading {read} ps a node, sum {sum}"
    )?;
    Ok(())
}

fn main(rt: HostRuntime) -> Result<(), Trouble> {
    for word in env::args(&rt)?.skip(1) {
        if let Ok(users) = word.as_str().parse::<u32>() {
            return measure(&rt, users);
        }
    }
    let tree = make(rt.alloc(), USERS)?;
    let sum = weigh(tree.top(), DEPTH);
    println!(rt; "users {USERS} sum {sum}")?;
    Ok(())
}
