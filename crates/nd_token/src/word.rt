//! `word_at`: names, numbers and quoted texts among the tokens of a cell.

ghost use Rattle.std.specs.Prelude.{◌≡◌, ℕ, ◌+◌, ◌<◌, ◌≤◌, IsTrue, drop, length, slice_index, take};
ghost use Rattle.std.specs.Char.{is_ascii_digit};
ghost use Rattle.std.specs.List.{prefix_len};
ghost use Rattle.std.specs.Option.{option_map};
ghost use Rattle.std.specs.Str.{IsCharBoundary};
ghost use Rattle.nd_model.specs.Grammar.Lexing.{begins_name, integer_of, is_keyword, is_name_byte, is_plain, is_quotable, is_quote, joins_number, name_at, number_at, quoted_at, word_at, word_of_name};
ghost use Rattle.nd_token.specs.Tokens.{lexed, word_of};

use crate::symbol::symbol_at;
use crate::token::Word;

// The most bytes of a name.
const MOST_NAME: usize = 64;

// The keywords of Python 3.7.
static KEYWORDS: [&str; 35] = [
    "False", "None", "True", "and", "as", "assert", "async", "await", "break", "class", "continue",
    "def", "del", "elif", "else", "except", "finally", "for", "from", "global", "if", "import",
    "in", "is", "lambda", "nonlocal", "not", "or", "pass", "raise", "return", "try", "while",
    "with", "yield",
];

fn begins_name(byte: u8) -> bool
    ensures { result ≡ begins_name byte }
{
    byte.is_ascii_alphabetic() || byte == b'_'
}

fn is_name_byte(byte: u8) -> bool
    ensures { result ≡ is_name_byte byte }
{
    begins_name(byte) || byte.is_ascii_digit()
}

// Whether a byte may not follow a number at once, as a letter.
fn joins_number(byte: u8) -> bool
    ensures { result ≡ joins_number byte }
{
    is_name_byte(byte) || byte == b'.'
}

fn is_quote(byte: u8) -> bool
    ensures { result ≡ is_quote byte }
{
    byte == b'"' || byte == b'\''
}

// Whether a byte may stand between two of this quote.
fn is_quotable(quote: u8, byte: u8) -> bool
    ensures { result ≡ is_quotable quote byte }
{
    byte != quote && byte != b'\\' && byte != b'\n'
}

/// Returns the bytes of a text from an index on.
pub(crate) fn bytes_from(text: &str, at: usize) -> &[u8]
    requires { at ≤ length text.now }
    ensures { result.now ≡ drop at text.now }
{
    &text.as_bytes()[at..]
}

// The part of a text of `count` bytes from an index on.
fn part(text: &str, at: usize, count: usize) -> &str
    requires in_text { at + count ≤ length text.now }
    requires begins { IsCharBoundary text.now at }
    requires ends { IsCharBoundary text.now (at + count) }
    ensures { result.now ≡ take count (drop at text.now) }
{
    &text[at..at + count]
}

// The length of the name that begins the text.
#[tactic(auto, using(crate::proofs::Runs::runs))]
fn name_length(text: &[u8]) -> usize
    ensures value { result ≡ prefix_len is_name_byte text.now }
    ensures fits { result ≤ length text.now }
{
    text.iter().take_while(|byte| is_name_byte(**byte)).count()
}

// The number of digits that begin the text.
#[tactic(auto, using(crate::proofs::Runs::runs))]
fn digit_count(text: &[u8]) -> usize
    ensures value { result ≡ prefix_len is_ascii_digit text.now }
    ensures fits { result ≤ length text.now }
{
    text.iter().take_while(|byte| byte.is_ascii_digit()).count()
}

// The number of first bytes that may stand between two of this quote.
#[tactic(auto, using(crate::proofs::Runs::runs))]
fn quotable_length(quote: u8, text: &[u8]) -> usize
    ensures value { result ≡ prefix_len (is_quotable quote) text.now }
    ensures fits { result ≤ length text.now }
{
    text.iter()
        .take_while(|byte| is_quotable(quote, **byte))
        .count()
}

#[tactic(auto, unfolding(nd_model::specs::Grammar::Lexing::keywords))]
fn is_keyword(name: &str) -> bool
    ensures { result ≡ is_keyword name.now }
{
    KEYWORDS.contains(&name)
}

// The word of a name: reserved, a keyword, or neither.
fn word_of_name(name: &str) -> Word<'_>
    ensures { word_of result ≡ word_of_name name.now }
{
    if is_keyword(name) {
        return Word::Keyword(name);
    }
    match name {
        "np" => Word::Np,
        "print" => Word::Print,
        "abs" => Word::Abs,
        "buffer" => Word::Buffer,
        _ => Word::Name(name),
    }
}

// The name at this index, and the number of its bytes.
fn name_at(text: &str, at: usize) -> Option<(Word<'_>, usize)>
    requires in_text { at < length text.now }
    requires begins { IsTrue (begins_name (slice_index text.now at)) }
    ensures { option_map lexed result ≡ name_at (drop at text.now) }
{
    let length = name_length(bytes_from(text, at));
    if length > MOST_NAME {
        return None;
    }
    Some((word_of_name(part(text, at, length)), length))
}

// Whether digits are `0`, or begin with another digit.
fn is_plain(digits: &str) -> bool
    requires { 0 < length digits.now }
    ensures { result ≡ is_plain digits.now }
{
    digits.len() == 1 || digits.as_bytes()[0] != b'0'
}

// The integer that digits write, or `None` for leading zeros and numbers above 64 bits.
fn integer_of(digits: &str) -> Option<u64>
    requires some { 0 < length digits.now }
    requires digits { (k : ℕ) → k < length digits.now
        → IsTrue (is_ascii_digit (slice_index digits.now k)) }
    ensures { result ≡ integer_of digits.now }
{
    if is_plain(digits) {
        digits.parse().ok()
    } else {
        None
    }
}

// The number at this index, and the number of its bytes.
fn number_at(text: &str, at: usize) -> Option<(Word<'_>, usize)>
    requires in_text { at < length text.now }
    requires begins { IsTrue (is_ascii_digit (slice_index text.now at)) }
    ensures { option_map lexed result ≡ number_at (drop at text.now) }
{
    let bytes = text.as_bytes();
    let length = digit_count(bytes_from(text, at));
    let end = at + length;
    if end < bytes.len() && joins_number(bytes[end]) {
        return None;
    }
    let value = integer_of(part(text, at, length))?;
    Some((Word::Integer(value), length))
}

// The quoted text whose first quote has this index, and the number of its bytes with both quotes.
fn quoted_at(text: &str, at: usize) -> Option<(Word<'_>, usize)>
    requires in_text { at < length text.now }
    requires begins { IsTrue (is_quote (slice_index text.now at)) }
    ensures { option_map lexed result ≡ quoted_at (drop at text.now) }
{
    let bytes = text.as_bytes();
    let quote = bytes[at];
    let start = at + 1;
    let length = quotable_length(quote, bytes_from(text, start));
    let end = start + length;
    if end < bytes.len() && bytes[end] == quote {
        Some((Word::Quoted(part(text, start, length)), length + 2))
    } else {
        None
    }
}

/// Returns the longest token at this index, and the number of its bytes. `None` where no token
/// begins here.
#[tactic(auto, unfolding(nd_model::specs::Grammar::Lexing::word_at))]
pub(crate) fn word_at(text: &str, at: usize) -> Option<(Word<'_>, usize)>
    requires { at < length text.now }
    ensures { option_map lexed result ≡ word_at (drop at text.now) }
{
    let first = text.as_bytes()[at];
    if begins_name(first) {
        name_at(text, at)
    } else if first.is_ascii_digit() {
        number_at(text, at)
    } else if is_quote(first) {
        quoted_at(text, at)
    } else {
        symbol_at(bytes_from(text, at))
    }
}
