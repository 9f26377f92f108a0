//! `save_file`: an array as a file of its cell (`np.save`).

ghost use Rattle.std.specs.Prelude.{◌≡◌, IfOk, Ok};
ghost use Rattle.nd_model.specs.Formats.Files as files;
ghost use Rattle.nd_model.specs.Making.Operand.{Plain, SavesFile};
ghost use Rattle.nd_operation.specs.Operators.Contents.{elements_operand, num_of, operand_of};
ghost use Rattle.nd_operation.specs.Refusals.Ends.{Makes};

use nd_block::push_bytes;
use nd_npy::writing::{write_elements, write_npy};
use nd_operation::operators::{BorrowedArray, Operand, array_kind, bad_argument, whole_number};
use nd_operation::refusals::Stop;
use nd_session::inputs::is_input_name;
use nd_types::{Elem, ElemType, Num};
use std::alloc::{AllocError, Global};

/// The file of an array of one number, of shape ().
fn number_file(alloc: Global, number: Num) -> Result<Vec<u8>, Stop>
    ensures { Makes (λ f. f.items) result (files.operand_file (Plain (num_of number))) }
{
    let elem = Elem::little(array_kind(number)?);
    let mut bytes = Vec::new(alloc);
    push_bytes(&mut bytes, elem, whole_number(number))?;
    let file = write_elements(alloc, &ElemType::One(elem), &[], &bytes)?;
    Ok(file)
}

/// The file of elements as they are.
fn elements_file(alloc: Global, elements: &BorrowedArray<'_>) -> Result<Vec<u8>, AllocError>
    ensures { IfOk result (λ f. files.operand_file (elements_operand elements.now) ≡ Ok f.items) }
{
    elements.soundness();
    let file = write_npy(alloc, elements.view, elements.block)?;
    Ok(file)
}

/// Returns the NPY file of an operand, for `np.save` (NumPy's description of the NPY format). A
/// number is saved as an array of shape (): the file of 7, of dtype `<i8`, has 136 bytes.
///
/// Refused in this order: `BadArgument` for a name that no file may have, `NeedsType` for a Python
/// integer outside `int64`.
pub(crate) fn save_file(alloc: Global, name: &str, operand: &Operand<'_>) -> Result<Vec<u8>, Stop>
    ensures { Makes (λ f. SavesFile name.now f.items) result
        (files.save name.now (operand_of operand.now)) }
{
    if !is_input_name(name) {
        return Err(Stop::Refused(bad_argument()));
    }
    match operand {
        Operand::Number(number) => number_file(alloc, *number),
        Operand::Elements(elements) => {
            let file = elements_file(alloc, elements)?;
            Ok(file)
        }
    }
}
