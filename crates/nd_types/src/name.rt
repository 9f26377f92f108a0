//! `is_field_name`: the names that a field of a structure may have.
ghost use Rattle.std.specs.Prelude.{◌≡◌, ◌||◌, not};
ghost use Rattle.nd_model.specs.Arrays.Structure as structure;

// Whether the byte is a control character of ASCII, or ends one of UTF-8 that `before` begins.
fn is_control(before: u8, byte: u8) -> bool
    ensures { result ≡ structure.is_control before byte }
{
    byte < 32 || byte == 127 || before == 194 && 128 <= byte && byte <= 159
}

// A colon, a quote of either kind, or a backslash.
fn is_mark(byte: u8) -> bool
    ensures { result ≡ structure.is_mark byte }
{
    matches!(byte, b':' | b'"' | b'\'' | b'\\')
}

fn may_follow(before: u8, byte: u8) -> bool
    ensures { result ≡ not (structure.is_control before byte || structure.is_mark byte) }
{
    !is_control(before, byte) && !is_mark(byte)
}

fn are_name_bytes(bytes: &[u8]) -> bool
    ensures { result ≡ structure.are_name_bytes 0 bytes.now }
{
    let mut before = 0;
    for byte in bytes {
        if !may_follow(before, *byte) {
            return false;
        }
        before = *byte;
    }
    true
}

/// Returns whether a field may have the name: 1 to 64 bytes of UTF-8, without colon, quote,
/// backslash or control character. `a b` may be one, and `a:b` may not.
pub fn is_field_name(name: &str) -> bool
    ensures { result ≡ structure.is_field_name name.now }
{
    let bytes = name.as_bytes();
    !bytes.is_empty() && bytes.len() <= 64 && are_name_bytes(bytes)
}
