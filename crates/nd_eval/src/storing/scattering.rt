//! `scatter` and `update_chosen`: assignments to the elements of an advanced index, carried out in
//! a session.

ghost use Rattle.std.specs.Prelude.{◌≡◌, ℕ, List, length, true, false, OnOk};
ghost use Rattle.nd_model.specs.Making.Creation.{is_number_type};
ghost use Rattle.nd_model.specs.Making.Operand.{Plain};
ghost use Rattle.nd_model.specs.Cells.Running as running;
ghost use Rattle.nd_model.specs.Cells.Sound.{LiesIn};
ghost use Rattle.nd_model.specs.Cells.Storing.{having_block, having_written};
ghost use Rattle.nd_model.specs.Arrays.View.{byte_places};
ghost use Rattle.nd_assign.specs.Sources.{IsValue};
ghost use Rattle.nd_ufunc.specs.Elementwise.Prepared.{IsRightSide, right_operand};
ghost use Rattle.nd_heap.specs.Values.{base_of, geo_of};
ghost use Rattle.nd_scatter.specs.Scattered.{written_by};
ghost use Rattle.nd_session.specs.Session.Live.{live};
ghost use Rattle.nd_syntax.specs.Trees.Syntax.{binary_op};
ghost use Rattle.nd_types.specs.Kinds.{kind_of};
ghost use Rattle.nd_operation.specs.Operators.Contents.{elements_over, num_of};
ghost use Rattle.nd_operation.specs.Operators.Elementwise.{as_array};
ghost use Rattle.nd_eval.specs.Choosing.Selections.{selected};
ghost use Rattle.nd_eval.specs.Choosing.Targets.{writes_to};
ghost use Rattle.nd_eval.specs.Storing.Operands.{IsHeld, operand_over};
ghost use Rattle.nd_eval.specs.Storing.Storable.{IsCopyUpdatable, IsStorableIn, copy_updates};

use crate::choosing::Selection;
use crate::storing::writer::ScatteredBytes;
use nd_assign::AssignedValue;
use nd_operation::operators::{BorrowedArray, whole_number};
use nd_scatter::{Scatter, prepare_results, prepare_scatter};
use nd_session::session::{Array, Base, OutOfMemory, Session, Value};
use nd_syntax::trees::BinaryOp;
use nd_types::{Kind, Num};
use nd_ufunc::elementwise::{RightSide, results_in_place};

/// Carries a prepared assignment out: its elements are noted as written, and then written.
fn write_scattered(
    session: &mut Session,
    base: Base,
    selection: &Selection,
    scatter: Scatter<'_>,
) -> Result<(), OutOfMemory>
    ensures { OnOk result (live session.new ≡ having_block (base_of base)
        (written_by scatter.entry ((live session.old).bytes (base_of base)))
        (having_written (base_of base) (byte_places (selected selection.now))
        (live session.old))) }
{
    let places = &selection.places.places;
    session.mark_written_elements(base, selection.view.elem(), places)?;
    session.write(base, ScatteredBytes { scatter })
}

/// Assigns one number to each of the elements.
fn scatter_number(
    session: &mut Session,
    base: Base,
    selection: &Selection,
    number: Num,
) -> Result<(), OutOfMemory>
    requires target { LiesIn (length ((live session.old).bytes (base_of base)))
        (selected selection.now) }
    requires types { is_number_type (selected selection.now).element ≡ true }
    ensures { OnOk result (live session.new ≡ running.done (running.Storing (base_of base)
        (writes_to (selected selection.now) (Plain (num_of number)))) (live session.old)) }
{
    let source = AssignedValue::Number(whole_number(number));
    let block = session.bytes(base);
    let (alloc, view, places) = (session.allocator(), &selection.view, &selection.places);
    let scatter = prepare_scatter(alloc, view, places, block, source)?;
    write_scattered(session, base, selection, scatter)
}

/// Assigns the elements of an array, which may overlap the target.
fn scatter_elements(
    session: &mut Session,
    base: Base,
    selection: &Selection,
    source: &Array,
) -> Result<(), OutOfMemory>
    requires target { LiesIn (length ((live session.old).bytes (base_of base)))
        (selected selection.now) }
    requires source { IsValue (selected selection.now)
        (length ((live session.old).bytes (base_of source.now.base))) (geo_of source.now) }
    ensures { OnOk result (live session.new ≡ running.done (running.Storing (base_of base)
        (writes_to (selected selection.now) (elements_over false (geo_of source.now)
        ((live session.old).bytes (base_of source.now.base))))) (live session.old)) }
{
    let lent = BorrowedArray {
        view: &source.view,
        block: session.bytes(source.base),
        is_row: false,
    };
    lent.soundness();
    let block = session.bytes(base);
    let read = AssignedValue::Other(lent.view, lent.block);
    let (alloc, view, places) = (session.allocator(), &selection.view, &selection.places);
    let scatter = prepare_scatter(alloc, view, places, block, read)?;
    write_scattered(session, base, selection, scatter)
}

/// Assigns a value to the elements that an advanced index selects (`x[[2, 0]] = y`), and notes
/// these as written.
///
/// The value is read before any write. Where an element is selected twice, the last value in C
/// order stays: `x[[0, 0]] = [5, 6]` sets `x[0]` to 6. All memory is taken before anything is noted
/// or written.
pub(crate) fn scatter(
    session: &mut Session,
    base: Base,
    selection: &Selection,
    value: &Value,
) -> Result<(), OutOfMemory>
    requires { IsStorableIn (live session.old) (base_of base) (selected selection.now) value.now }
    ensures { OnOk result (live session.new ≡ running.done (running.Storing (base_of base)
        (writes_to (selected selection.now) (operand_over (live session.old).bytes value.now)))
        (live session.old)) }
{
    match value {
        Value::Number(number) => scatter_number(session, base, selection, *number),
        Value::Array(array) | Value::Row(array) => {
            scatter_elements(session, base, selection, array)
        }
    }
}

/// A value as the right operand of an operator in place, its elements in their block.
fn right_side<'v>(session: &'v Session, value: &'v Value) -> RightSide<'v>
    requires { IsHeld (live session.now) value.now }
    ensures operand { (block : List ℕ) → right_operand result block
        ≡ as_array (operand_over (live session.now).bytes value.now) }
    ensures lies { (len : ℕ) → IsRightSide len result }
{
    match value {
        Value::Number(number) => RightSide::Number(*number),
        Value::Array(array) | Value::Row(array) => {
            RightSide::Other(&array.view, session.bytes(array.base))
        }
    }
}

/// Applies an operator to the elements that an advanced index selects (`x[m] += y`), and notes
/// these as written.
///
/// The results are those of a copy: an element that is selected twice is updated once, as in NumPy,
/// so `x[[0, 0]] += 1` adds 1.
/// All memory is taken before anything is noted or written.
pub(crate) fn update_chosen(
    session: &mut Session,
    op: BinaryOp,
    kind: Kind,
    base: Base,
    selection: &Selection,
    copy: &Array,
    value: &Value,
) -> Result<(), OutOfMemory>
    requires { IsCopyUpdatable (kind_of kind) (binary_op op) (live session.old) (base_of base)
        (selected selection.now) copy.now value.now }
    ensures { OnOk result (live session.new ≡ running.done (running.Storing (base_of base)
        (copy_updates (kind_of kind) (binary_op op) (live session.old).bytes
        (selected selection.now) copy.now value.now)) (live session.old)) }
{
    let alloc = session.allocator();
    let right = right_side(session, value);
    let read = session.bytes(copy.base);
    let (array, values) = results_in_place(alloc, op, kind, &copy.view, read, right)?;
    let block = session.bytes(base);
    let (view, places) = (&selection.view, &selection.places);
    match prepare_results(alloc, view, places, block, &array, values) {
        Ok(scatter) => {
            drop(array);
            write_scattered(session, base, selection, scatter)
        }
        Err(refused) => {
            drop(array);
            Err(refused.into())
        }
    }
}
