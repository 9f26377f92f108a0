//! `scalar_text`: the text that `print` gives for a number.
ghost use Rattle.std.specs.Prelude.{◌≡◌, ◌<◌, ◌++◌, length, replicate, string_bytes, OnOk, IfOk};
ghost use Rattle.std.specs.Fmt.{signed_decimal};
ghost use Rattle.nd_model.specs.Text.Text as model;
ghost use Rattle.nd_model.specs.Text.Text.{number_text, aligned};
ghost use Rattle.nd_types.specs.Kinds.{kind_of};
ghost use Rattle.nd_print.specs.Texts.{num_text};

use itoa::Buffer;
use nd_types::{Kind, Num};
use std::alloc::{AllocError, Global};

/// Returns the text that `print` gives for a number outside arrays: `7`, `-3`, `True`. A NumPy
/// scalar has the text of Python's number.
pub fn scalar_text(alloc: Global, num: Num) -> Result<String, AllocError>
    ensures { IfOk result (λ text. string_bytes text ≡ num_text num) }
{
    let mut text = String::new(alloc);
    match num {
        Num::Int(number) => push_decimal(&mut text, number)?,
        Num::Bool(truth) => text.push_str(truth_text(truth))?,
        Num::Scalar(kind, number) => push_number(&mut text, kind, number)?,
    }
    Ok(text)
}

fn truth_text(truth: bool) -> &'static str
    ensures { result.now ≡ model.truth_text truth }
{
    if truth { "True" } else { "False" }
}

// Appends the digits of a number.
fn push_decimal(text: &mut String, number: i128) -> Result<(), AllocError>
    ensures { OnOk result (string_bytes text.new ≡ string_bytes text.old ++ signed_decimal number) }
{
    text.push_str(Buffer::new().format(number))
}

// Appends a number of the kind.
fn push_number(text: &mut String, kind: Kind, number: i128) -> Result<(), AllocError>
    ensures { OnOk result (string_bytes text.new ≡ string_bytes text.old ++ number_text
        (kind_of kind) number) }
{
    match kind {
        Kind::Bool => text.push_str(truth_text(number != 0)),
        _ => push_decimal(text, number),
    }
}

// The number of bytes of a number's text.
pub(crate) fn text_len(kind: Kind, number: i128) -> u8
    ensures { result ≡ length (number_text (kind_of kind) number) }
{
    match kind {
        Kind::Bool => truth_text(number != 0).len() as u8,
        _ => Buffer::new().format(number).len() as u8,
    }
}

// Appends a text, aligned to the right.
fn push_right(line: &mut String, width: usize, text: &str) -> Result<(), AllocError>
    ensures { OnOk result (string_bytes line.new ≡ string_bytes line.old ++ aligned width
        text.now) }
{
    push_times(line, ' ', width.saturating_sub(text.len()))?;
    line.push_str(text)
}

// Appends a number of the kind, aligned to the right.
pub(crate) fn push_aligned(
    line: &mut String,
    width: usize,
    kind: Kind,
    number: i128,
) -> Result<(), AllocError>
    ensures { OnOk result (string_bytes line.new ≡ string_bytes line.old ++ aligned width
        (number_text (kind_of kind) number)) }
{
    match kind {
        Kind::Bool => push_right(line, width, truth_text(number != 0)),
        _ => push_right(line, width, Buffer::new().format(number)),
    }
}

// Appends a character `times` times.
pub(crate) fn push_times(text: &mut String, character: char, times: usize) -> Result<(), AllocError>
    requires { character < 128 }
    ensures { OnOk result (string_bytes text.new
        ≡ string_bytes text.old ++ replicate times character) }
{
    for _ in 0..times {
        text.push(character)?;
    }
    Ok(())
}
