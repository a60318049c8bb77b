//! Lines, appended one after another.
ghost use Rattle.std.specs.Prelude.{◌≡◌, ◌++◌, OnOk, string_bytes};

use frame_view::Memory;

/// Appends a line to a text.
pub fn push_line(text: &mut Vec<u8>, line: String) -> Result<(), Memory>
    ensures { OnOk result (text.new.items ≡ text.old.items ++ string_bytes line) }
{
    Ok(text.extend_from_slice(line.as_bytes())?)
}
