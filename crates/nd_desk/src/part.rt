//! `show_part`: what an index chooses of a name's value, as an answer.

ghost use Rattle.std.specs.Prelude.{◌≡◌, [], OnErr, OnOk, slice_index};
ghost use Rattle.nd_model.specs.Book.Renaming.{ShownArray};
ghost use Rattle.nd_model.specs.Book.Script.{refused_line, value_answer};
ghost use Rattle.nd_model.specs.Indexing.Index.{choice_of};
ghost use Rattle.nd_model.specs.Making.Operand.{AnElement};
ghost use Rattle.nd_model.specs.Text.FaultText.{fault_text};
ghost use Rattle.nd_element.specs.Elements.{canonical_bytes};
ghost use Rattle.nd_index.specs.Basic.Faults as choosing;
ghost use Rattle.nd_index.specs.Basic.Items as basic;
ghost use Rattle.nd_notebook.specs.Faults.{fault_of};
ghost use Rattle.nd_notebook.specs.Queries.{bound_of, shown_of};
ghost use Rattle.nd_script.specs.Lines.Answers.{Pushes};
ghost use Rattle.nd_desk.specs.Answers.{part_answer};
ghost use Rattle.nd_desk.specs.Carry.{Asked, PushesAnswer};
ghost use Rattle.nd_desk.specs.Chosen.{shown_in};
ghost use Rattle.nd_desk.specs.Lines.{items_in};
ghost use Rattle.nd_desk.specs.Parts.{part_of};
ghost use Rattle.nd_desk.specs.Words.{AsksPart};

use crate::index::{are_numbers, items_of};
use nd_commands::{push_cell_fault, push_query_refusal, push_shown};
use nd_element::number_in;
use nd_index::basic::{BasicItem, SelectFault, select};
use nd_notebook::{
    BoundValue, CellFault, ElemType, IndexFault, Notebook, Shown, ShownElements, StmtError,
    StmtFault,
};
use nd_script::lines::AnswerWrite;
use nd_script::words::push_text;
use nd_view::View;
use std::alloc::{AllocError, Global};

/// Tells what an index, as it is written, chooses of a name's value after a cell.
pub fn show_part<O: AnswerWrite>(
    alloc: Global,
    out: &mut O,
    notebook: &Notebook,
    at: usize,
    name: &str,
    index: &str,
)
    ensures { Asked (AsksPart at name.now (items_in index.now)) notebook.now
        (O.state out.old) (O.state out.new) }
{
    match notebook.value(at, name) {
        Ok(value) => {
            push_part(alloc, out, &value, index);
            drop(value);
        }
        Err(fault) => push_query_refusal(out, name, fault),
    }
}

// Appends what an index chooses of a value, or the refusal that a cell has. Where memory is wanted
// for it, that refusal is appended.
fn push_part<O: AnswerWrite>(alloc: Global, out: &mut O, value: &BoundValue, index: &str)
    ensures { PushesAnswer (part_answer (part_of (items_in index.now) (bound_of value.now)))
        (O.state out.old) (O.state out.new) }
{
    match push_shown_part(alloc, out, value.shown(), index) {
        Ok(()) => {}
        Err(AllocError) => push_text(out, "refused OutOfMemory\n"),
    }
}

fn push_shown_part<O: AnswerWrite>(
    alloc: Global,
    out: &mut O,
    value: Shown<'_>,
    index: &str,
) -> Result<(), AllocError>
    ensures pushed { OnOk result (Pushes (O.state out.old)
        (part_answer (part_of (items_in index.now) (shown_of value.entry))) (O.state out.new)) }
    ensures unwritten { OnErr result (O.state out.new ≡ O.state out.old) }
{
    match value {
        Shown::Array(elements) => {
            let items = items_of(alloc, index)?;
            let ShownElements { view, block } = elements;
            push_array_part(alloc, out, view, block, &items)
        }
        _ => {
            push_refused(out, StmtFault::Stmt(StmtError::NotAnArray));
            Ok(())
        }
    }
}

// Appends what items choose of an array.
fn push_array_part<O: AnswerWrite>(
    alloc: Global,
    out: &mut O,
    view: &View,
    block: &[u8],
    items: &[BasicItem],
) -> Result<(), AllocError>
    ensures pushed { let shown = canonical_bytes view.now block.now in
        OnOk result (Pushes (O.state out.old) (part_answer (part_of (basic.items_of items.now)
        (ShownArray view.now.element view.now.shape shown))) (O.state out.new)) }
    ensures unwritten { OnErr result (O.state out.new ≡ O.state out.old) }
{
    // proof: the view has an element for each index tuple, by the clauses of count().
    let _count = view.count();
    match select(alloc, view, items)? {
        Ok(found) => {
            let done = push_choice(alloc, out, &found, block, are_numbers(items));
            drop(found);
            done
        }
        Err(fault) => {
            push_refused(out, refusal_of(fault));
            Ok(())
        }
    }
}

// Appends what integers alone, or other items too, chose of a block's elements.
fn push_choice<O: AnswerWrite>(
    alloc: Global,
    out: &mut O,
    found: &View,
    block: &[u8],
    is_one: bool,
) -> Result<(), AllocError>
    ensures pushed { OnOk result (Pushes (O.state out.old)
        (value_answer (shown_in block.now (choice_of is_one found.now.shape found.now)))
        (O.state out.new)) }
    ensures unwritten { OnErr result (O.state out.new ≡ O.state out.old) }
{
    push_shown(alloc, out, choice_of(found, block, is_one))?;
    push_text(out, "\n");
    Ok(())
}

// An element where integers alone were the items and no axis is left, else an array.
fn choice_of<'a>(found: &'a View, block: &'a [u8], is_one: bool) -> Shown<'a>
    ensures { shown_of result
        ≡ shown_in block.now (choice_of is_one found.now.shape found.now) }
{
    let elements = ShownElements { view: found, block };
    if is_one && found.shape().is_empty() {
        return element_of(elements);
    }
    Shown::Array(elements)
}

// The one element of a view: a number, or a row of an array of structures.
fn element_of(elements: ShownElements<'_>) -> Shown<'_>
    requires { elements.view.now.shape ≡ [] }
    ensures { let view = elements.entry.view.now in shown_of result
        ≡ shown_in elements.entry.block.now (AnElement view.element (slice_index view.places 0)) }
{
    let ShownElements { view, block } = elements;
    // proof: there is one element, by the clause of count().
    let _count = view.count();
    match view.elem() {
        ElemType::One(elem) => {
            Shown::Scalar(elem.kind(), number_in(block, view.offset(), *elem))
        }
        ElemType::Rec(_) => Shown::Row(elements),
    }
}

// Appends a refusal, such as `refused Index.OutOfBounds 0 7 4`.
fn push_refused<O: AnswerWrite>(out: &mut O, fault: StmtFault)
    ensures { Pushes (O.state out.old) (refused_line (fault_text (fault_of fault)))
        (O.state out.new) }
{
    let fault = CellFault::Statement(fault);
    push_text(out, "refused ");
    push_cell_fault(out, &fault);
    push_text(out, "\n");
}

// The refusal of an index, as a cell has it.
fn refusal_of(fault: SelectFault) -> StmtFault
    ensures { fault_of result ≡ choosing.fault_of fault }
{
    match fault {
        SelectFault::TwoEllipses => StmtFault::Index(IndexFault::TwoEllipses),
        SelectFault::TooManyIndices => StmtFault::Index(IndexFault::TooManyIndices),
        SelectFault::ZeroStep => StmtFault::Index(IndexFault::ZeroStep),
        SelectFault::OutOfBounds { axis, index, size } => {
            StmtFault::Index(IndexFault::OutOfBounds { axis, index, size })
        }
        SelectFault::View(fault) => StmtFault::View(fault),
    }
}
