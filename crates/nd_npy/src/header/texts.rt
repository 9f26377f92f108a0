//! `element_in`, `pad_in` and `text_of`: dtypes, numbers of pad bytes and names in a header's
//! `descr`.
ghost use Rattle.std.specs.Prelude.{◌≡◌, ◌≤◌, IfSome, is_some, string_bytes};
ghost use Rattle.std.specs.Str.{is_utf8};
ghost use Rattle.nd_model.specs.Formats.NpyHeader as header;

use nd_types::{Elem, parse_descr};
use std::str;

/// Returns the dtype that a text is, as `<i4`, or `None` where it is none.
pub fn element_in(text: &[u8]) -> Option<Elem>
    ensures { result ≡ header.element_in text.now }
{
    match str::from_utf8(text) {
        Ok(text) => parse_descr(text),
        Err(_) => None,
    }
}

/// Returns the itemsize, or one that is just too large for a structure.
pub fn capped_size(size: u32) -> u32
    ensures value { result ≡ header.capped_size size }
    ensures range { result ≤ 65537 }
{
    size.min(65537)
}

fn count_in(digits: &[u8]) -> Option<u32>
    ensures value { result ≡ header.count_in 0 digits.now }
    ensures range { IfSome result (λ n. n ≤ 65537) }
{
    let mut count = 0;
    for digit in digits {
        if !digit.is_ascii_digit() {
            return None;
        }
        count = capped_size(10 * count + u32::from(*digit - b'0'));
    }
    Some(count)
}

// The number of a text of digits without leading zeros.
fn number_in(digits: &[u8]) -> Option<u32>
    ensures value { result ≡ header.number_in digits.now }
    ensures range { IfSome result (λ n. n ≤ 65537) }
{
    match digits {
        [] => None,
        [first, rest @ ..] => {
            if *first == b'0' && !rest.is_empty() {
                None
            } else {
                count_in(digits)
            }
        }
    }
}

fn unordered_pad_in(text: &[u8]) -> Option<u32>
    ensures value { result ≡ header.unordered_pad_in text.now }
    ensures range { IfSome result (λ n. n ≤ 65537) }
{
    match text {
        [] => None,
        [first, rest @ ..] => {
            if *first == b'V' {
                number_in(rest)
            } else {
                None
            }
        }
    }
}

/// Returns the number of pad bytes of `Vn` or `|Vn`, as 3 of `|V3`. It is at most one more than a
/// structure may have.
pub fn pad_in(text: &[u8]) -> Option<u32>
    ensures value { result ≡ header.pad_in text.now }
    ensures range { IfSome result (λ n. n ≤ 65537) }
{
    match text {
        [] => None,
        [first, rest @ ..] => {
            if *first == b'|' {
                unordered_pad_in(rest)
            } else {
                unordered_pad_in(text)
            }
        }
    }
}

/// Returns the text of these bytes, or `None` where they are no UTF-8.
pub fn text_of(bytes: Vec<u8>) -> Option<String>
    ensures text { IfSome result (λ t. string_bytes t ≡ bytes.items) }
    ensures valid { is_some result ≡ is_utf8 bytes.items }
{
    match String::from_utf8(bytes) {
        Ok(text) => Some(text),
        Err(_) => None,
    }
}
