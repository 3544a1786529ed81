//! The users of the demo, and many small structs, as the bytes that spell them.

use compact_wire::{push_number, zigzag};
use std::alloc::{AllocError, Global};

/// The definition of the users, of docs/FORMAT.md's demo.
pub(crate) const DEFINITION: &str = "struct User {
  1: i32 id;
  2: string name;
  3: optional string mail;
  4: list<string> tags;
  5: map<string,i32> scores;
}
struct Users {
  1: map<i32,User> users;
}
";

/// The bytes of users with the numbers from 1 to n, in the canonical spelling.
pub(crate) fn users(alloc: Global, n: u32) -> Result<Vec<u8>, AllocError> {
    let mut out = Vec::new(alloc);
    out.extend_from_slice(b"\x1b")?;
    push_number(&mut out, u64::from(n))?;
    out.extend_from_slice(b"\x5c")?;
    for i in 0..n {
        push_user(&mut out, i.saturating_add(1))?;
    }
    out.push(0)?;
    Ok(out)
}

/// A user with its number as its key: the number, the name, the mail of an even one, its tags and its scores.
fn push_user(out: &mut Vec<u8>, i: u32) -> Result<(), AllocError> {
    let id = zigzag(i64::from(i));
    push_number(out, id)?;
    out.push(0x15)?;
    push_number(out, id)?;
    out.extend_from_slice(b"\x18\x0auser")?;
    push_digits(out, i)?;
    let even = i % 2 == 0;
    if even {
        out.extend_from_slice(b"\x18\x12")?;
        push_digits(out, i)?;
        out.extend_from_slice(b"@example.com")?;
    }
    out.push(if even { 0x19 } else { 0x29 })?;
    push_tags(out, i % 3)?;
    out.extend_from_slice(b"\x1b\x02\x85\x03art")?;
    push_number(out, zigzag(i64::from(i % 7)))?;
    out.extend_from_slice(b"\x04math")?;
    push_number(out, zigzag(i64::from(i % 100)))?;
    out.push(0)?;
    Ok(())
}

/// A list of the first so many tags.
fn push_tags(out: &mut Vec<u8>, many: u32) -> Result<(), AllocError> {
    out.push(match many {
        0 => 0x08,
        1 => 0x18,
        _ => 0x28,
    })?;
    if many > 0 {
        out.extend_from_slice(b"\x03red")?;
    }
    if many > 1 {
        out.extend_from_slice(b"\x05green")?;
    }
    Ok(())
}

/// The six last decimal digits of a number.
fn push_digits(out: &mut Vec<u8>, i: u32) -> Result<(), AllocError> {
    let mut unit = 100_000u32;
    for _ in 0..6 {
        out.push(b'0' + (i / unit.max(1) % 10) as u8)?;
        unit /= 10;
    }
    Ok(())
}

/// A list of structs without fields in so many bytes, from eight on.
pub(crate) fn small_structs(alloc: Global, len: u32) -> Result<Vec<u8>, AllocError> {
    let mut out = Vec::new(alloc);
    let many = len.saturating_sub(7);
    out.extend_from_slice(b"\x19\xfc")?;
    push_number(&mut out, u64::from(many))?;
    for _ in 0..many {
        out.push(0)?;
    }
    out.push(0)?;
    Ok(out)
}
