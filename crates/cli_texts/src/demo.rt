//! The definition of the demo, and its value.
ghost use Rattle.std.specs.Prelude.{◌≡◌, ◌≤◌, ◌++◌, ◌∷◌, [], OnOk, IfOk};
ghost use Rattle.std.specs.Prelude.{string_bytes};
ghost use Rattle.frozen_model.specs.Trees.{AList, AMap};
ghost use Rattle.frozen_model.specs.Values.{Items, Of, cells, cell_limit};
ghost use Rattle.idl_profile.specs.Types.{root_of};
ghost use Rattle.type_kinds.specs.KindsOf.{kinds_of};
ghost use Rattle.key_order.specs.InOrder.{row};
ghost use Rattle.typed_tree.specs.References.{value_of_tree};
ghost use Rattle.typed_tree.specs.Trees.{trees};
ghost use Rattle.cli_texts.specs.Demos.{number, last_digit, six_digits, name, mail, tags, scores, user};
ghost use Rattle.cli_texts.specs.Demos.{demo, demo_definition};

use compact_codec::join_map;
use std::alloc::{AllocError, Global};
use std::string::String;
use typed_tree::{Builder, Tree};

/// The definition of the demo's value.
pub const DEMO_DEF: &str = "struct User {
  1: i32 id;
  2: string name;
  3: optional string mail;
  4: list<string> tags;
  5: map<string,i32> scores;
}
struct Users {
  1: map<i32,User> users;
}
";

// The most nodes of a user and its key.
const NODES_OF_USER: u64 = 14;

// The most bytes of the texts of a user.
const BYTES_OF_USER: u64 = 43;

fn push_digit(out: &mut String, n: u32) -> Result<(), AllocError>
    ensures { OnOk result (string_bytes out.new ≡ string_bytes out.old ++ last_digit n ∷ []) }
{
    out.push((b'0' + (n % 10) as u8) as char)
}

// The last six decimal digits of a number.
fn push_six(out: &mut String, n: u32) -> Result<(), AllocError>
    ensures { OnOk result (string_bytes out.new ≡ string_bytes out.old ++ six_digits n) }
{
    push_digit(out, n / 100_000)?;
    push_digit(out, n / 10_000)?;
    push_digit(out, n / 1000)?;
    push_digit(out, n / 100)?;
    push_digit(out, n / 10)?;
    push_digit(out, n)?;
    Ok(())
}

// Each of these puts a part of a user on top; the text is a place for what is written.
fn add_name(builder: &mut Builder, text: &mut String, i: u32) -> Result<(), AllocError>
    ensures { OnOk result (trees builder.new ≡ trees builder.old ++ name i ∷ []) }
{
    text.clear();
    text.push_str("user")?;
    push_six(text, i)?;
    builder.text(text.as_str())?;
    Ok(())
}

fn add_mail(builder: &mut Builder, text: &mut String, i: u32) -> Result<(), AllocError>
    ensures { OnOk result (trees builder.new ≡ trees builder.old ++ mail i ∷ []) }
{
    if i % 2 != 0 {
        return builder.absent();
    }
    text.clear();
    push_six(text, i)?;
    text.push_str("@example.com")?;
    builder.text(text.as_str())?;
    builder.present()?;
    Ok(())
}

fn add_tags(builder: &mut Builder, i: u32) -> Result<(), AllocError>
    ensures { OnOk result (trees builder.new ≡ trees builder.old ++ Items AList (row (tags i)) ∷ []) }
{
    match i % 3 {
        0 => builder.list(0)?,
        1 => {
            builder.text("red")?;
            builder.list(1)?
        }
        _ => {
            builder.text("red")?;
            builder.text("green")?;
            builder.list(2)?
        }
    }
    Ok(())
}

fn add_scores(builder: &mut Builder, i: u32) -> Result<(), AllocError>
    ensures { OnOk result (trees builder.new ≡ trees builder.old ++ Items AMap (row (scores i)) ∷ []) }
{
    builder.text("art")?;
    builder.int(i64::from(i % 7))?;
    builder.text("math")?;
    builder.int(i64::from(i % 100))?;
    join_map(builder, 2)?;
    Ok(())
}

// Puts a number and its user on top.
fn add_user(builder: &mut Builder, text: &mut String, i: u32) -> Result<(), AllocError>
    ensures { OnOk result (trees builder.new ≡ trees builder.old ++ number i ∷ user i ∷ []) }
{
    builder.int(i64::from(i))?;
    builder.int(i64::from(i))?;
    add_name(builder, text, i)?;
    add_mail(builder, text, i)?;
    add_tags(builder, i)?;
    add_scores(builder, i)?;
    builder.structure(&[1, 2, 3, 4, 5])?;
    Ok(())
}

/// The value of the demo: a struct of a map with a user for each number from 1 to `n`, at most 100,000.
///
/// # Errors
///
/// `AllocError` where memory runs out, and nowhere else.
pub fn demo_users(alloc: Global, n: u32) -> Result<Tree, AllocError>
    requires some { 1 ≤ n }
    requires few { n ≤ 100000 }
    ensures value { IfOk result (λ t. value_of_tree t ≡ demo n) }
    ensures form { IfOk result (λ t. Of (kinds_of (root_of demo_definition)) (value_of_tree t)) }
    ensures few { IfOk result (λ t.
        cells (kinds_of (root_of demo_definition)) (value_of_tree t) ≤ cell_limit) }
{
    let many = u64::from(n);
    let mut builder = Builder::sized(alloc, NODES_OF_USER * many + 2, BYTES_OF_USER * many)?;
    let mut text = String::new(alloc);
    for i in 1..n + 1 {
        add_user(&mut builder, &mut text, i)?;
    }
    join_map(&mut builder, many)?;
    builder.structure(&[1])?;
    Ok(builder.finish())
}
