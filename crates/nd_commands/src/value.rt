//! `push_value`: the answer to `value`, as lines of a script.

ghost use Rattle.std.specs.Prelude.{◌≡◌, ◌++◌, IfOk, OnErr, OnOk, codes, decimal, length, string_bytes};
ghost use Rattle.nd_model.specs.Formats.Format as formats;
ghost use Rattle.nd_model.specs.Book.Script as script;
ghost use Rattle.nd_model.specs.Text.Text.{truth_text};
ghost use Rattle.nd_model.specs.Arrays.View.{item_size};
ghost use Rattle.nd_notebook.specs.Types.{type_of};
ghost use Rattle.nd_notebook.specs.Queries.{bound_of, shown_of};
ghost use Rattle.nd_script.specs.Lines.Answers.{Pushes};
ghost use Rattle.nd_commands.specs.Value.{array_of, row_of, PushesValue};

use crate::elements::push_elements;
use nd_notebook::{BoundValue, ElemType, Shown, ShownElements};
use nd_npy::pep3118::write_format;
use nd_script::lines::AnswerWrite;
use nd_script::words::{push_integer, push_number, push_shape, push_text};
use std::alloc::{AllocError, Global};

/// The text of a dtype, and room for an element. It is all the memory that an array's answer takes.
#[derive(Drop)]
struct Layout {
    format: String,
    item: Vec<u8>,
}

impl Layout {
    fn new(alloc: Global, elem: &ElemType) -> Result<Layout, AllocError>
        ensures format { IfOk result (λ l. string_bytes l.format
            ≡ formats.format_text (type_of elem.now)) }
        ensures item { IfOk result (λ l. length l.item.items ≡ item_size (type_of elem.now)) }
    {
        let format = write_format(alloc, elem)?;
        let item = vec![in alloc; 0u8; elem.size() as usize]?;
        Ok(Layout { format, item })
    }
}

/// Appends the answer to `value`, such as `int 3`. Where memory is wanted for it, the refusal is
/// appended.
pub fn push_value<O: AnswerWrite>(alloc: Global, out: &mut O, value: &BoundValue)
    ensures { PushesValue (bound_of value.now) (O.state out.old) (O.state out.new) }
{
    match push_shown(alloc, out, value.shown()) {
        Ok(()) => push_text(out, "\n"),
        Err(AllocError) => push_text(out, "refused OutOfMemory\n"),
    }
}

/// Appends a value, such as `int 3`, without a newline. All memory is taken before its first byte.
pub fn push_shown<O: AnswerWrite>(
    alloc: Global,
    out: &mut O,
    value: Shown<'_>,
) -> Result<(), AllocError>
    ensures pushed { OnOk result (Pushes (O.state out.old)
        (script.shown_text (shown_of value.entry)) (O.state out.new)) }
    ensures unwritten { OnErr result (O.state out.new ≡ O.state out.old) }
{
    match value {
        Shown::Int(number) => {
            push_text(out, "int ");
            push_integer(out, number);
            Ok(())
        }
        Shown::Bool(truth) => {
            push_text(out, "bool ");
            push_text(out, truth_name(truth));
            Ok(())
        }
        Shown::Scalar(kind, number) => {
            push_text(out, "scalar ");
            push_text(out, kind.name());
            push_text(out, " ");
            push_integer(out, number);
            Ok(())
        }
        Shown::Array(elements) => push_array(alloc, out, elements),
        Shown::Row(elements) => push_row(alloc, out, elements),
    }
}

// Appends an array: its dtype, its shape and its elements.
fn push_array<O: AnswerWrite>(
    alloc: Global,
    out: &mut O,
    elements: ShownElements<'_>,
) -> Result<(), AllocError>
    ensures pushed { OnOk result (Pushes (O.state out.old)
        (script.shown_text (array_of elements.entry)) (O.state out.new)) }
    ensures unwritten { OnErr result (O.state out.new ≡ O.state out.old) }
{
    let ShownElements { view, block } = elements;
    let mut layout = Layout::new(alloc, view.elem())?;
    push_text(out, "array ");
    push_layout(out, layout.format.as_str(), view.elem());
    push_text(out, " ");
    push_shape(out, view.shape());
    push_text(out, " ");
    push_elements(out, layout.item.as_mut_slice(), view, block);
    Ok(())
}

// Appends a row: its dtype and its bytes.
fn push_row<O: AnswerWrite>(
    alloc: Global,
    out: &mut O,
    elements: ShownElements<'_>,
) -> Result<(), AllocError>
    ensures pushed { OnOk result (Pushes (O.state out.old)
        (script.shown_text (row_of elements.entry)) (O.state out.new)) }
    ensures unwritten { OnErr result (O.state out.new ≡ O.state out.old) }
{
    let ShownElements { view, block } = elements;
    let mut layout = Layout::new(alloc, view.elem())?;
    push_text(out, "row ");
    push_layout(out, layout.format.as_str(), view.elem());
    push_text(out, " ");
    push_elements(out, layout.item.as_mut_slice(), view, block);
    Ok(())
}

/// Appends the format string of a dtype (PEP 3118) and its itemsize, such as `<q 8`.
pub fn push_layout<O: AnswerWrite>(out: &mut O, format: &str, elem: &ElemType)
    ensures { Pushes (O.state out.old) (format.now ++ codes " " ++ decimal
        (item_size (type_of elem.now))) (O.state out.new) }
{
    push_text(out, format);
    push_text(out, " ");
    push_number(out, elem.size());
}

fn truth_name(truth: bool) -> &'static str
    ensures { result.now ≡ truth_text truth }
{
    if truth { "True" } else { "False" }
}
