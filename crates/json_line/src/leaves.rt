//! The texts of flags, numbers, texts and bytes.
ghost use Rattle.std.specs.Prelude.{◌≡◌, ◌++◌, OnOk, string_bytes};
ghost use Rattle.std.specs.List.{list_all};
ghost use Rattle.json.specs.Print.{quoted};
ghost use Rattle.hex.specs.Hex.{encode_lower};
ghost use Rattle.serde_json.specs.Written.{compact_text, comma_if};
ghost use Rattle.frozen_model.specs.Values.{One, Truth, Number};
ghost use Rattle.json_line.specs.Json.{leaf};
ghost use Rattle.json_line.specs.Plain.{is_plain_byte};

use itoa::Buffer;
use std::alloc::{AllocError, Global};
use std::string::String;

// A flag.
pub fn push_flag(out: &mut String, x: bool) -> Result<(), AllocError>
    ensures { OnOk result (string_bytes out.new
        ≡ string_bytes out.old ++ compact_text (leaf (One (Truth x)))) }
{
    out.push_str(if x { "true" } else { "false" })
}

// A number in decimal digits.
pub fn push_number(out: &mut String, n: i64) -> Result<(), AllocError>
    ensures { OnOk result (string_bytes out.new
        ≡ string_bytes out.old ++ compact_text (leaf (One (Number n)))) }
{
    let mut buffer = Buffer::new();
    out.push_str(buffer.format(n))
}

// Whether a byte stands in a JSON string as it is.
fn is_plain(byte: u8) -> bool
    ensures { result ≡ is_plain_byte byte }
{
    byte >= 32 && byte != b'"' && byte != b'\\'
}

// Whether all of a text stands in a JSON string as it is.
fn all_plain(text: &str) -> bool
    ensures { result ≡ list_all is_plain_byte text.now }
{
    text.as_bytes().iter().all(|byte| is_plain(*byte))
}

// A text in quotes, with the escapes that JSON asks for. Where it needs none, no memory is taken beside
// `out`.
pub fn push_text(out: &mut String, alloc: Global, text: &str) -> Result<(), AllocError>
    ensures { OnOk result (string_bytes out.new ≡ string_bytes out.old ++ quoted text.now) }
{
    if all_plain(text) {
        out.push_str("\"")?;
        out.push_str(text)?;
        return out.push_str("\"");
    }
    match serde_json::to_string(alloc, &text) {
        Ok(quoted) => out.push_str(quoted.as_str()),
        Err(_) => Err(AllocError),
    }
}

// Bytes as a text of lower hexadecimal digits.
pub fn push_bytes(out: &mut String, alloc: Global, bytes: &[u8]) -> Result<(), AllocError>
    ensures { OnOk result (string_bytes out.new ≡ string_bytes out.old ++ quoted (encode_lower bytes.now)) }
{
    let digits = hex::encode(alloc, bytes)?;
    push_text(out, alloc, digits.as_str())
}

// A comma, where something stands before.
pub fn push_comma(out: &mut String, later: bool) -> Result<(), AllocError>
    ensures { OnOk result (string_bytes out.new ≡ string_bytes out.old ++ comma_if later) }
{
    if later {
        return out.push_str(",");
    }
    Ok(())
}
