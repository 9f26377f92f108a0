//! `push_trial` and the others: the answers to words for front ends.

ghost use Rattle.std.specs.Prelude.{◌≡◌, OnErr, OnOk, codes};
ghost use Rattle.nd_desk.specs.Answers.{
  file_lines,
  ran_answer,
  trial_answer,
  type_answer,
  type_text,
};
ghost use Rattle.nd_commands.specs.Value.{array_of, row_of};
ghost use Rattle.nd_desk.specs.Carry.{PushesAnswer};
ghost use Rattle.nd_notebook.specs.Queries.{bound_of, result_of, shown_of};
ghost use Rattle.nd_notebook.specs.Results.{saves_of};
ghost use Rattle.nd_script.specs.Lines.Answers.{Pushes};

use indexmap::IndexMap;
use nd_commands::{push_layout, push_refusal, push_shown};
use nd_notebook::{BoundValue, CellResult, Shown, ShownElements};
use nd_npy::pep3118::write_format;
use nd_script::lines::AnswerWrite;
use nd_script::words::{push_count_line, push_number, push_shape, push_text};
use std::alloc::{AllocError, Global};

/// Appends the words that a script of a desk has beside those of every script.
pub fn push_words<O: AnswerWrite>(out: &mut O)
    ensures { Pushes (O.state out.old)
        (codes "words begin end file part ran raw reads save try type\n") (O.state out.new) }
{
    push_text(
        out,
        "words begin end file part ran raw reads save try type\n",
    );
}

/// Appends what a cell gives that was tried: its text, its refusal, and its files with their bytes.
pub fn push_trial<O: AnswerWrite>(out: &mut O, tried: &CellResult)
    ensures { Pushes (O.state out.old) (trial_answer (result_of tried.now)) (O.state out.new) }
{
    push_count_line(out, "text", tried.text.len());
    push_text(out, tried.text.as_str());
    push_refusal(out, &tried.refusal);
    push_files(out, &tried.saves);
    push_text(out, "end\n");
}

// Each file, by a line with its name and length, and its bytes with a newline behind them.
fn push_files<O: AnswerWrite>(out: &mut O, saves: &IndexMap<String, Vec<u8>>)
    ensures { Pushes (O.state out.old) (file_lines (saves_of saves.now.entries))
        (O.state out.new) }
{
    for (name, bytes) in saves {
        push_text(out, "save ");
        push_count_line(out, name.as_str(), bytes.len());
        out.push_bytes(bytes.as_slice());
        push_text(out, "\n");
    }
}

/// Appends the answer to `type`: a number as `value` has it, of an array or a row the dtype, the
/// itemsize and the shape. Where memory is wanted for it, the refusal is appended.
pub fn push_type<O: AnswerWrite>(alloc: Global, out: &mut O, value: &BoundValue)
    ensures { PushesAnswer (type_answer (bound_of value.now))
        (O.state out.old) (O.state out.new) }
{
    match push_shown_type(alloc, out, value.shown()) {
        Ok(()) => push_text(out, "\n"),
        Err(AllocError) => push_text(out, "refused OutOfMemory\n"),
    }
}

fn push_shown_type<O: AnswerWrite>(
    alloc: Global,
    out: &mut O,
    value: Shown<'_>,
) -> Result<(), AllocError>
    ensures pushed { OnOk result (Pushes (O.state out.old)
        (type_text (shown_of value.entry)) (O.state out.new)) }
    ensures unwritten { OnErr result (O.state out.new ≡ O.state out.old) }
{
    match value {
        Shown::Array(elements) => push_array_type(alloc, out, elements),
        Shown::Row(elements) => push_row_type(alloc, out, elements),
        Shown::Int(_) | Shown::Bool(_) | Shown::Scalar(_, _) => push_shown(alloc, out, value),
    }
}

fn push_array_type<O: AnswerWrite>(
    alloc: Global,
    out: &mut O,
    elements: ShownElements<'_>,
) -> Result<(), AllocError>
    ensures pushed { OnOk result (Pushes (O.state out.old)
        (type_text (array_of elements.entry)) (O.state out.new)) }
    ensures unwritten { OnErr result (O.state out.new ≡ O.state out.old) }
{
    let view = elements.view;
    let format = write_format(alloc, view.elem())?;
    push_text(out, "array ");
    push_layout(out, format.as_str(), view.elem());
    push_text(out, " ");
    push_shape(out, view.shape());
    Ok(())
}

fn push_row_type<O: AnswerWrite>(
    alloc: Global,
    out: &mut O,
    elements: ShownElements<'_>,
) -> Result<(), AllocError>
    ensures pushed { OnOk result (Pushes (O.state out.old)
        (type_text (row_of elements.entry)) (O.state out.new)) }
    ensures unwritten { OnErr result (O.state out.new ≡ O.state out.old) }
{
    let view = elements.view;
    let format = write_format(alloc, view.elem())?;
    push_text(out, "row ");
    push_layout(out, format.as_str(), view.elem());
    Ok(())
}

/// Appends how many cells ran in the last edit that was done, and their places.
pub fn push_ran<O: AnswerWrite>(out: &mut O, ran: &[usize])
    ensures { Pushes (O.state out.old) (ran_answer ran.now) (O.state out.new) }
{
    push_text(out, "ran ");
    push_number(out, ran.len() as u64);
    for place in ran {
        push_text(out, " ");
        push_number(out, *place as u64);
    }
    push_text(out, "\n");
}
