//! `print_line`: the line that `print` makes of operands, no longer than a cell's text may be.

ghost use Rattle.std.specs.Prelude.{◌≡◌, map, string_bytes};
ghost use Rattle.nd_model.specs.Text.Printing.{printed_line};
ghost use Rattle.nd_operation.specs.Operators.Contents.{elements_operand, operand_of};
ghost use Rattle.nd_operation.specs.Operators.Lines.{limit_line, line_with};
ghost use Rattle.nd_operation.specs.Refusals.Ends.{Makes, Says};

use crate::operators::operand::{BorrowedArray, Operand};
use crate::refusals::{StmtError, StmtFault, Stop};
use nd_print::{Fit, push_elements, scalar_text};
use std::alloc::Global;

/// The most bytes of a cell's text.
const MOST_TEXT: usize = 1 << 20;

/// Refuses a text longer than a cell's may be.
fn check_length(text: &String) -> Result<(), StmtFault>
    ensures { Says (λ u. string_bytes text.now) result (limit_line (string_bytes text.now)) }
{
    if text.len() > MOST_TEXT {
        return Err(StmtFault::Stmt(StmtError::TextTooLong));
    }
    Ok(())
}

/// Appends the text of an array's elements. One that is too long is never built.
fn push_array(alloc: Global, line: &mut String, elements: &BorrowedArray<'_>) -> Result<(), Stop>
    ensures { Makes (λ u. string_bytes line.new) result
        (limit_line (line_with (string_bytes line.old)
        (elements_operand elements.now))) }
{
    elements.soundness();
    check_length(line)?;
    match push_elements(alloc, line, MOST_TEXT, elements.view, elements.block)? {
        Fit::Whole => Ok(()),
        Fit::TooLong => Err(Stop::Refused(StmtFault::Stmt(StmtError::TextTooLong))),
    }
}

/// Appends an operand's text.
fn push_text(alloc: Global, line: &mut String, operand: &Operand<'_>) -> Result<(), Stop>
    ensures { Makes (λ u. string_bytes line.new) result
        (limit_line (line_with (string_bytes line.old) (operand_of operand.now))) }
{
    match operand {
        Operand::Number(number) => {
            let text = scalar_text(alloc, *number)?;
            line.push_str(text.as_str())?;
            Ok(check_length(line)?)
        }
        Operand::Elements(elements) => push_array(alloc, line, elements),
    }
}

/// Returns the line that `print` makes: the operands' texts, separated by spaces, and a newline. It
/// is refused as soon as it is too long (`TextTooLong`).
///
/// ```text
/// print(7, np.arange(3))    7 [0 1 2]
/// ```
pub fn print_line(alloc: Global, operands: &[Operand<'_>]) -> Result<String, Stop>
    ensures { Makes string_bytes result
        (limit_line (printed_line (map operand_of operands.now))) }
{
    let mut line = String::new(alloc);
    if let [first, rest @ ..] = operands {
        push_text(alloc, &mut line, first)?;
        for operand in rest {
            line.push_str(" ")?;
            push_text(alloc, &mut line, operand)?;
        }
    }
    line.push_str("\n")?;
    check_length(&line)?;
    Ok(line)
}
