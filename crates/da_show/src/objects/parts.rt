//! Parts of the texts of objects.

ghost use Rattle.std.specs.Prelude.{◌≡◌, ◌++◌, OnOk};
ghost use Rattle.std.specs.String.{string_bytes};
ghost use Rattle.serde_json.specs.Written.{comma_if};
ghost use Rattle.da_show.specs.JsonTexts.{in_quotes, quoted_axis, quoted_hex, quoted_name};

use namespace_id::{Axis, Namespace, bytes_law};
use std::alloc::{AllocError, Global};

/// Appends a comma where something stands before.
pub(crate) fn put_comma(out: &mut String, later: bool) -> Result<(), AllocError>
    ensures { OnOk result (string_bytes out.new ≡ string_bytes out.old ++ comma_if later) }
{
    if later { out.push(',') } else { Ok(()) }
}

/// Appends the word of an axis as a string.
#[tactic(auto, unfolding(crate::specs::JsonTexts::quoted_axis, json::specs::Print::escape_byte))]
pub(crate) fn put_axis(out: &mut String, axis: Axis) -> Result<(), AllocError>
    ensures { OnOk result (string_bytes out.new ≡ string_bytes out.old ++ quoted_axis axis) }
{
    match axis {
        Axis::Row => out.push_str("\"row\""),
        Axis::Col => out.push_str("\"col\""),
    }
}

/// Appends a text of which no byte is escaped, in quotes.
#[tactic(auto, unfolding(crate::specs::JsonTexts::in_quotes))]
fn put_quoted(out: &mut String, text: &str) -> Result<(), AllocError>
    ensures { OnOk result (string_bytes out.new ≡ string_bytes out.old ++ in_quotes text.now) }
{
    out.push('"')?;
    out.push_str(text)?;
    out.push('"')
}

/// Appends the digits of bytes as a string.
pub(crate) fn put_hex(alloc: Global, out: &mut String, bytes: &[u8]) -> Result<(), AllocError>
    ensures { OnOk result (string_bytes out.new ≡ string_bytes out.old ++ quoted_hex bytes.now) }
{
    bytes_law(bytes);
    let digits = hex::encode(alloc, bytes)?;
    put_quoted(out, digits.as_str())
}

/// Appends the digits of a namespace as a string.
#[tactic(auto, unfolding(crate::specs::JsonTexts::quoted_hex, crate::specs::JsonTexts::quoted_name))]
pub(crate) fn put_name(alloc: Global, out: &mut String, name: &Namespace) -> Result<(), AllocError>
    ensures { OnOk result (string_bytes out.new ≡ string_bytes out.old ++ quoted_name name.now) }
{
    put_hex(alloc, out, name.0.as_slice())
}
