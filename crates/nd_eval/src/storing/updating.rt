//! `update`: operators in place, carried out in a session once their operands are evaluated.

ghost use Rattle.std.specs.Prelude.{◌≡◌, length, false, Ok, OnOk};
ghost use Rattle.nd_model.specs.Making.Augmenting.{in_place_kind};
ghost use Rattle.nd_model.specs.Making.Operand.{Plain};
ghost use Rattle.nd_model.specs.Cells.Running as running;
ghost use Rattle.nd_model.specs.Cells.Sound.{LiesIn};
ghost use Rattle.nd_model.specs.Cells.Storing.{having_block, having_written};
ghost use Rattle.nd_model.specs.Arrays.View.{byte_places};
ghost use Rattle.nd_ufunc.specs.Elementwise.Prepared.{written_in_place};
ghost use Rattle.nd_heap.specs.Values.{base_of, geo_of};
ghost use Rattle.nd_session.specs.Session.Live.{live};
ghost use Rattle.nd_syntax.specs.Trees.Syntax.{binary_op};
ghost use Rattle.nd_types.specs.Kinds.{kind_of};
ghost use Rattle.nd_operation.specs.Operators.Contents.{elements_over, num_of};
ghost use Rattle.nd_eval.specs.Storing.Updatable.{IsUpdatable, updated_by, updates};

use crate::storing::writer::{ResultBytes, write_noted};
use nd_session::session::{Array, OutOfMemory, Session, Value};
use nd_syntax::trees::BinaryOp;
use nd_types::{Kind, Num};
use nd_ufunc::elementwise::{InPlace, RightSide, prepare_in_place};

/// Writes prepared results, whose elements are noted as written first.
fn write_results(
    session: &mut Session,
    target: &Array,
    results: InPlace<'_>,
) -> Result<(), OutOfMemory>
    ensures { OnOk result (live session.new ≡ having_block (base_of target.now.base)
        (written_in_place results.entry ((live session.old).bytes (base_of target.now.base)))
        (having_written (base_of target.now.base) (byte_places (geo_of target.now))
        (live session.old))) }
{
    write_noted(session, target, ResultBytes { results })
}

/// Applies an operator to the elements of an array and one number.
fn update_by_number(
    session: &mut Session,
    op: BinaryOp,
    kind: Kind,
    target: &Array,
    number: Num,
) -> Result<(), OutOfMemory>
    requires target { LiesIn (length ((live session.old).bytes (base_of target.now.base)))
        (geo_of target.now) }
    requires kind { in_place_kind (binary_op op) (geo_of target.now) (Plain (num_of number))
        ≡ Ok (kind_of kind) }
    ensures { OnOk result (live session.new ≡ updated_by (kind_of kind) (binary_op op) target.now
        (Plain (num_of number)) (live session.old)) }
{
    let alloc = session.allocator();
    let right = RightSide::Number(number);
    let block = session.bytes(target.base);
    let results = prepare_in_place(alloc, op, kind, &target.view, block, right)?;
    write_results(session, target, results)
}

/// Applies an operator to the elements of an array and those of another one, which may overlap it.
fn update_by_elements(
    session: &mut Session,
    op: BinaryOp,
    kind: Kind,
    target: &Array,
    source: &Array,
) -> Result<(), OutOfMemory>
    requires target { LiesIn (length ((live session.old).bytes (base_of target.now.base)))
        (geo_of target.now) }
    requires source { LiesIn (length ((live session.old).bytes (base_of source.now.base)))
        (geo_of source.now) }
    requires kind { in_place_kind (binary_op op) (geo_of target.now)
        (elements_over false (geo_of source.now)
        ((live session.old).bytes (base_of source.now.base))) ≡ Ok (kind_of kind) }
    ensures { OnOk result (live session.new ≡ updated_by (kind_of kind) (binary_op op) target.now
        (elements_over false (geo_of source.now)
        ((live session.old).bytes (base_of source.now.base))) (live session.old)) }
{
    let (alloc, view) = (session.allocator(), &target.view);
    let block = session.bytes(target.base);
    if source.base == target.base {
        let right = RightSide::Own(&source.view);
        let results = prepare_in_place(alloc, op, kind, view, block, right)?;
        return write_results(session, target, results);
    }
    let shared = session.share(source.base)?;
    let bytes = match &shared {
        Some(shared) => shared.as_ref().as_slice(),
        None => &[],
    };
    let right = RightSide::Other(&source.view, bytes);
    let results = prepare_in_place(alloc, op, kind, view, block, right)?;
    write_results(session, target, results)
}

/// Applies an operator in place to the elements of an array and a value (`x += y`), and notes the
/// array's elements as written.
///
/// All elements are read as they were before, also where the value overlaps the array: of 1, 2, 3,
/// `x[1:] += x[:-1]` makes 1, 3, 5. All memory is taken before anything is noted or written.
pub(crate) fn update(
    session: &mut Session,
    op: BinaryOp,
    kind: Kind,
    target: &Array,
    value: &Value,
) -> Result<(), OutOfMemory>
    requires { IsUpdatable (kind_of kind) (binary_op op) (live session.old) target.now value.now }
    ensures { OnOk result (live session.new
        ≡ running.done (running.Storing (base_of target.now.base) (updates (kind_of kind)
        (binary_op op) (live session.old).bytes target.now value.now)) (live session.old)) }
{
    match value {
        Value::Number(number) => update_by_number(session, op, kind, target, *number),
        Value::Array(array) | Value::Row(array) => {
            update_by_elements(session, op, kind, target, array)
        }
    }
}
