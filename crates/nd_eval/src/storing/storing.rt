//! `store`: plain assignments, carried out in a session once target and value are evaluated.

ghost use Rattle.std.specs.Prelude.{◌≡◌, length, true, false, OnOk};
ghost use Rattle.nd_model.specs.Making.Creation.{is_number_type};
ghost use Rattle.nd_model.specs.Making.Operand.{Plain};
ghost use Rattle.nd_model.specs.Cells.Running as running;
ghost use Rattle.nd_model.specs.Cells.Sound.{LiesIn};
ghost use Rattle.nd_model.specs.Cells.Storing.{having_block, having_written};
ghost use Rattle.nd_model.specs.Arrays.View.{byte_places};
ghost use Rattle.nd_assign.specs.Prepared.{written_by};
ghost use Rattle.nd_assign.specs.Sources.{IsValue};
ghost use Rattle.nd_heap.specs.Values.{base_of, geo_of};
ghost use Rattle.nd_session.specs.Session.Live.{live};
ghost use Rattle.nd_operation.specs.Operators.Contents.{elements_over, num_of};
ghost use Rattle.nd_eval.specs.Choosing.Targets.{writes_to};
ghost use Rattle.nd_eval.specs.Storing.Operands.{operand_over};
ghost use Rattle.nd_eval.specs.Storing.Storable.{IsStorable};

use crate::storing::writer::{AssignedBytes, write_noted};
use nd_assign::{AssignedValue, Assignment, prepare};
use nd_operation::operators::{BorrowedArray, whole_number};
use nd_session::session::{Array, OutOfMemory, Session, Value};
use nd_types::Num;

/// Carries a prepared assignment out: its elements are noted as written, and then written.
fn write_elements(
    session: &mut Session,
    target: &Array,
    assignment: Assignment<'_>,
) -> Result<(), OutOfMemory>
    ensures { OnOk result (live session.new ≡ having_block (base_of target.now.base)
        (written_by assignment.entry ((live session.old).bytes (base_of target.now.base)))
        (having_written (base_of target.now.base) (byte_places (geo_of target.now))
        (live session.old))) }
{
    write_noted(session, target, AssignedBytes { assignment })
}

/// Assigns one number to the elements of an array.
fn store_number(session: &mut Session, target: &Array, number: Num) -> Result<(), OutOfMemory>
    requires target { LiesIn (length ((live session.old).bytes (base_of target.now.base)))
        (geo_of target.now) }
    requires types { is_number_type (geo_of target.now).element ≡ true }
    ensures { OnOk result (live session.new
        ≡ running.done (running.Storing (base_of target.now.base)
        (writes_to (geo_of target.now) (Plain (num_of number)))) (live session.old)) }
{
    let source = AssignedValue::Number(whole_number(number));
    let block = session.bytes(target.base);
    let assignment = prepare(session.allocator(), &target.view, block, source)?;
    write_elements(session, target, assignment)
}

/// Assigns the elements of another array, which may overlap the target.
fn store_elements(session: &mut Session, target: &Array, source: &Array) -> Result<(), OutOfMemory>
    requires target { LiesIn (length ((live session.old).bytes (base_of target.now.base)))
        (geo_of target.now) }
    requires source { IsValue (geo_of target.now)
        (length ((live session.old).bytes (base_of source.now.base))) (geo_of source.now) }
    ensures { OnOk result (live session.new
        ≡ running.done (running.Storing (base_of target.now.base)
        (writes_to (geo_of target.now) (elements_over false (geo_of source.now)
        ((live session.old).bytes (base_of source.now.base))))) (live session.old)) }
{
    let (alloc, view) = (session.allocator(), &source.view);
    let block = session.bytes(target.base);
    if source.base == target.base {
        let own = BorrowedArray {
            view,
            block,
            is_row: false,
        };
        own.soundness();
        let assignment = prepare(alloc, &target.view, block, AssignedValue::Same(view))?;
        return write_elements(session, target, assignment);
    }
    let shared = session.share(source.base)?;
    let bytes = match &shared {
        Some(shared) => shared.as_ref().as_slice(),
        None => &[],
    };
    let lent = BorrowedArray {
        view,
        block: bytes,
        is_row: false,
    };
    lent.soundness();
    let assignment = prepare(
        alloc,
        &target.view,
        block,
        AssignedValue::Other(view, bytes),
    )?;
    write_elements(session, target, assignment)
}

/// Assigns a value to the elements of an array, and notes these as written.
///
/// The value is read before any write, also where it overlaps the target: `x[1:] = x[:-1]` shifts.
/// Another block is read where it lies, without a copy. All memory is taken before anything is
/// noted or written.
pub(crate) fn store(session: &mut Session, target: &Array, value: &Value) -> Result<(), OutOfMemory>
    requires { IsStorable (live session.old) target.now value.now }
    ensures { OnOk result (live session.new
        ≡ running.done (running.Storing (base_of target.now.base)
        (writes_to (geo_of target.now) (operand_over (live session.old).bytes value.now)))
        (live session.old)) }
{
    match value {
        Value::Number(number) => store_number(session, target, *number),
        Value::Array(array) | Value::Row(array) => store_elements(session, target, array),
    }
}
