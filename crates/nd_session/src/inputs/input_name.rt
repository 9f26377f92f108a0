//! `is_input_name`: the names that an input may have.

ghost use Rattle.std.specs.Prelude.{◌≡◌};
ghost use Rattle.nd_model.specs.Cells.InputName.{are_name_bytes, is_input_name, is_name_byte};

/// The most bytes of an input's name.
const MOST_NAME: usize = 64;

/// Whether the byte may stand in the name of an input.
fn is_name_byte(byte: u8) -> bool
    ensures { result ≡ is_name_byte byte }
{
    byte.is_ascii_alphanumeric() || matches!(byte, b'-' | b'.' | b'_')
}

/// Whether all bytes may stand in the name of an input.
fn are_name_bytes(bytes: &[u8]) -> bool
    ensures { result ≡ are_name_bytes bytes.now }
{
    for byte in bytes {
        if !is_name_byte(*byte) {
            return false;
        }
    }
    true
}

/// Returns whether an input may have this name: 1 to 64 digits, letters, `-`, `.` and `_`.
///
/// `counts-1.npy` is such a name; `a b` and the empty name are not.
pub fn is_input_name(name: &str) -> bool
    ensures { result ≡ is_input_name name.now }
{
    !name.is_empty() && name.len() <= MOST_NAME && are_name_bytes(name.as_bytes())
}
