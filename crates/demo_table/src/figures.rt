//! The figures of a demo, and their line.

ghost use Rattle.std.specs.Prelude.{◌≡◌, ◌++◌, ◌≤◌, IfOk, OnOk, string_bytes};
ghost use Rattle.std.specs.Fmt.{decimal};
ghost use Rattle.demo_table.specs.Demo.{IsDemo, demo_text};

use crate::laws::own_file_is_short;
use crate::lookups::{id_path, look_all_up};
use crate::opening::{definition, opened, own_plan};
use cli_texts::demo_users;
use evolve::{projection_is_a_value, root_lens};
use frozen_file::frozen_file;
use itoa::Buffer;
use std::alloc::{AllocError, Global};
use std::marker::Brand;
use std::string::String;
use std::sync::ledger::Blank;
use typed_tree::cells;

/// What a demo came to.
#[derive(Clone, Copy)]
pub struct DemoFigures {
    /// How many users there are.
    pub rows: u32,
    /// The cells of their value.
    pub cells: u64,
    /// The nodes of the layout.
    pub nodes: u32,
    /// The bytes of the content.
    pub content: u64,
    /// How many lookups answered the number of their user.
    pub found: u32,
    /// The most keys that one lookup compared.
    pub most: u64,
}

/// Freezes the value of `n` users, from 1 to 100,000, opens their file, and looks each of them up by its
/// number.
///
/// # Errors
///
/// `AllocError` where memory runs out, and nowhere else.
pub fn demo(alloc: Global, n: u32) -> Result<DemoFigures, AllocError>
    requires some { 1 ≤ n }
    requires few { n ≤ 100000 }
    ensures { IfOk result (λ d. IsDemo n d) }
{
    projection_is_a_value();
    own_file_is_short();
    let def = definition(alloc)?;
    let tree = demo_users(alloc, n)?;
    let cells = cells(def.root(), tree.top());
    let file = frozen_file(alloc, &def, tree.top())?;
    let opened = opened(alloc, &file)?;
    let plan = own_plan(alloc, &def, &opened)?;
    let root = root_lens(&def, &opened, &plan);
    let mut path = id_path(alloc)?;
    let tally = look_all_up::<Brand>(Blank::new(1), root, &mut path, n);
    Ok(DemoFigures {
        rows: n,
        cells,
        nodes: opened.layouts.count(),
        content: opened.content.len() as u64,
        found: tally.found,
        most: tally.most,
    })
}

/// Writes a name and a number behind a text.
fn push_figure(out: &mut String, name: &str, n: u64) -> Result<(), AllocError>
    ensures { OnOk result (string_bytes out.new ≡ string_bytes out.old ++ (name.now ++ decimal n)) }
{
    let mut buffer = Buffer::new();
    out.push_str(name)?;
    out.push_str(buffer.format(n))
}

/// The line of a demo, with a line feed at its end.
///
/// # Errors
///
/// `AllocError` where memory runs out, and nowhere else.
pub fn demo_line(alloc: Global, demo: &DemoFigures) -> Result<String, AllocError>
    ensures { IfOk result (λ text. string_bytes text ≡ demo_text demo.now) }
{
    let mut out = String::new(alloc);
    push_figure(&mut out, "demo rows=", u64::from(demo.rows))?;
    push_figure(&mut out, " cells=", demo.cells)?;
    push_figure(&mut out, " nodes=", u64::from(demo.nodes))?;
    push_figure(&mut out, " content=", demo.content)?;
    push_figure(&mut out, " found=", u64::from(demo.found))?;
    push_figure(&mut out, " most=", demo.most)?;
    out.push_str("\n")?;
    Ok(out)
}
