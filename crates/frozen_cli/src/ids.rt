// Ids as a text.
ghost use Rattle.std.specs.Prelude.{◌≡◌, ◌++◌, IfOk, OnOk, string_bytes};
ghost use Rattle.frozen_cli.specs.Refusal.{dot_if, ids_text as text_of_ids};

use itoa::Buffer;
use std::alloc::{AllocError, Global};
use std::string::String;

// A dot, where something stands before.
fn push_dot(out: &mut String, later: bool) -> Result<(), AllocError>
    ensures { OnOk result (string_bytes out.new ≡ string_bytes out.old ++ dot_if later) }
{
    if later {
        return out.push_str(".");
    }
    Ok(())
}

/// Ids in decimal digits, with a dot between two.
pub fn ids_text(alloc: Global, ids: &[i16]) -> Result<String, AllocError>
    ensures { IfOk result (λ text. string_bytes text ≡ text_of_ids ids.now) }
{
    let mut out = String::new(alloc);
    let mut buffer = Buffer::new();
    for i in 0..ids.len() {
        push_dot(&mut out, i > 0)?;
        out.push_str(buffer.format(ids[i]))?;
    }
    Ok(out)
}
