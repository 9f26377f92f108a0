//! `push_text`, `push_number` and the others: the pieces of an answer. None takes memory.

ghost use Rattle.std.specs.Prelude.{◌≡◌, ◌++◌, codes, decimal, ◌≤◌, length, map, string_bytes};
ghost use Rattle.std.specs.Fmt.{signed_decimal};
ghost use Rattle.nd_model.specs.Book.Script.{hex_digits, hex_text, name_lines, shape_text};
ghost use Rattle.nd_script.specs.Lines.Answers.{Pushes};

use crate::lines::AnswerWrite;
use itoa::Buffer;

// The bytes whose hex digits are made at once.
const CHUNK: usize = 64;

/// Appends a text.
pub fn push_text<O: AnswerWrite>(out: &mut O, text: &str)
    ensures { Pushes (O.state out.old) text.now (O.state out.new) }
{
    out.push_bytes(text.as_bytes());
}

/// Appends a number in decimal digits.
pub fn push_number<O: AnswerWrite>(out: &mut O, number: u64)
    ensures { Pushes (O.state out.old) (decimal number) (O.state out.new) }
{
    let mut buffer = Buffer::new();
    out.push_bytes(buffer.format(number).as_bytes());
}

/// Appends an integer in decimal digits, behind a sign where it is negative: `-5`.
pub fn push_integer<O: AnswerWrite>(out: &mut O, integer: i128)
    ensures { Pushes (O.state out.old) (signed_decimal integer) (O.state out.new) }
{
    let mut buffer = Buffer::new();
    out.push_bytes(buffer.format(integer).as_bytes());
}

/// Appends a line of a word and a number, such as `count 3`.
pub fn push_count_line<O: AnswerWrite>(out: &mut O, word: &str, count: usize)
    ensures { Pushes (O.state out.old) (word.now ++ codes " " ++ decimal count ++ codes "\n")
        (O.state out.new) }
{
    push_text(out, word);
    push_text(out, " ");
    push_number(out, count as u64);
    push_text(out, "\n");
}

/// Appends bytes as two lower-case hex digits each.
pub fn push_hex_digits<O: AnswerWrite>(out: &mut O, bytes: &[u8])
    ensures { Pushes (O.state out.old) (hex_digits bytes.now) (O.state out.new) }
{
    let mut rest = bytes;
    while !rest.is_empty() {
        let (chunk, behind) = rest.split_at(rest.len().min(CHUNK));
        push_chunk(out, chunk);
        rest = behind;
    }
}

// Appends the hex digits of at most 64 bytes.
fn push_chunk<O: AnswerWrite>(out: &mut O, chunk: &[u8])
    requires { length chunk.now ≤ 64 }
    ensures { Pushes (O.state out.old) (hex_digits chunk.now) (O.state out.new) }
{
    let mut digits = [0u8; 2 * CHUNK];
    let digits = &mut digits[..2 * chunk.len()];
    hex::encode_to_slice(chunk, digits).unwrap();
    out.push_bytes(digits);
}

/// Appends bytes as two lower-case hex digits each, or a dash where there are none: the bytes 10 and
/// 255 are `0aff`.
pub fn push_hex<O: AnswerWrite>(out: &mut O, bytes: &[u8])
    ensures { Pushes (O.state out.old) (hex_text bytes.now) (O.state out.new) }
{
    if bytes.is_empty() {
        push_text(out, "-");
    } else {
        push_hex_digits(out, bytes);
    }
}

/// Appends a shape, lengths separated by commas, or `()` where there are none: `2,3`.
pub fn push_shape<O: AnswerWrite>(out: &mut O, shape: &[u64])
    ensures { Pushes (O.state out.old) (shape_text shape.now) (O.state out.new) }
{
    let [first, rest @ ..] = shape else {
        return push_text(out, "()");
    };
    push_number(out, *first);
    for n in rest {
        push_text(out, ",");
        push_number(out, *n);
    }
}

/// Appends a line for each name.
pub fn push_names<O: AnswerWrite>(out: &mut O, names: &[String])
    ensures { Pushes (O.state out.old) (name_lines (map string_bytes names.now))
        (O.state out.new) }
{
    for name in names {
        push_text(out, name.as_str());
        push_text(out, "\n");
    }
}
