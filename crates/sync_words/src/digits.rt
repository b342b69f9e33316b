//! The digits of an id.
ghost use Rattle.std.specs.Prelude.{◌≡◌, ◌++◌, OnOk};
ghost use Rattle.std.specs.String.{string_bytes};
ghost use Rattle.hex.specs.Hex.{encode_lower};

use std::alloc::AllocError;
use sync_ids::Fixed;

/// Appends the 64 hexadecimal digits of an id of a group or a message, in lower case. It fails only
/// for want of memory, and then nothing is said of what was appended.
pub fn add_id(id: &Fixed<32>, to: &mut String) -> Result<(), AllocError>
    ensures { OnOk result (string_bytes to.new ≡ string_bytes to.old ++ encode_lower id.now) }
{
    // The digits are made in place: a line of each of many records takes no memory but its own.
    let mut digits = [0u8; 64];
    hex::encode_to_slice(id.0, &mut digits).unwrap();
    let text = str::from_utf8(&digits).unwrap();
    to.push_str(text)
}
