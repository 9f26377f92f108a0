//! `load`: an input as an array, for `np.load` and `buffer`.

ghost use Rattle.std.specs.Prelude.{◌≡◌, option_map};
ghost use Rattle.nd_model.specs.Formats.Files as files;
ghost use Rattle.nd_model.specs.Formats.FormatReading.{read_format};
ghost use Rattle.nd_model.specs.Formats.NpyReading as reading;
ghost use Rattle.nd_input.specs.Sources.{source_of};
ghost use Rattle.nd_eval.specs.Loading.Loads.{LoadsNew, RefusesInput, load_by};

use nd_block::RawBlock;
use nd_npy::header::read_npy;
use nd_npy::pep3118::parse_format;
use nd_operation::operators::New;
use nd_operation::refusals::{StmtError, StmtFault, Stop};
use nd_session::inputs::Input;
use nd_view::View;
use std::alloc::Global;
use std::rc::Rc;

/// The form of input that a call takes: an NPY file, or a strided buffer (PEP 3118).
#[derive(Clone, Copy)]
pub(crate) enum InputSort {
    File,
    Buffer,
}

/// Refuses an input that does not exist, or has the other form.
fn refuse_input(alloc: Global, name: &str) -> Result<New, Stop>
    ensures { RefusesInput result name.now }
{
    let name = String::from_str(alloc, name)?;
    Err(Stop::Refused(StmtFault::Stmt(StmtError::NoInput(name))))
}

/// A new contiguous array of an NPY file.
fn file_array(alloc: Global, bytes: &[u8]) -> Result<New, Stop>
    ensures { LoadsNew result (files.file_array (reading.read_npy bytes.now)) }
{
    let array = read_npy(alloc, bytes)?;
    Ok(New::Array(array.view, array.block))
}

/// A new array over a copy of a buffer's bytes.
fn buffer_array(
    alloc: Global,
    format: &str,
    itemsize: u64,
    shape: &[u64],
    strides: &[i64],
    offset: u64,
    bytes: &[u8],
) -> Result<New, Stop>
    ensures { LoadsNew result (files.buffer_array shape.now strides.now offset bytes.now
        (read_format format.now itemsize)) }
{
    let elem = parse_format(alloc, format, itemsize)?;
    match View::from_parts(alloc, elem, shape, strides, offset, bytes.len() as u64)? {
        Ok(view) => Ok(New::Array(view, RawBlock::from_slice(alloc, bytes)?)),
        Err(fault) => Err(Stop::Refused(StmtFault::View(fault))),
    }
}

/// Returns a new array of the input of this name, for `np.load` (NumPy's description of the NPY
/// format) or `buffer` (PEP 3118).
///
/// `NoInput` where no input has this name and form. Then comes the first fault of the file, or that
/// of the buffer's format and then of its view.
pub(crate) fn load(
    alloc: Global,
    sort: InputSort,
    name: &str,
    input: Option<&Rc<Input>>,
) -> Result<New, Stop>
    ensures { LoadsNew result
        (load_by sort name.now (option_map (λ x. source_of x.now.value) input.entry)) }
{
    let Some(shared) = input else {
        return refuse_input(alloc, name);
    };
    match (sort, shared.as_ref()) {
        (InputSort::File, Input::Npy(bytes)) => file_array(alloc, bytes),
        (
            InputSort::Buffer,
            Input::Buffer {
                format,
                itemsize,
                shape,
                strides,
                offset,
                bytes,
            },
        ) => buffer_array(
            alloc,
            format.as_str(),
            *itemsize,
            shape,
            strides,
            *offset,
            bytes,
        ),
        _ => refuse_input(alloc, name),
    }
}
