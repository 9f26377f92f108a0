//! Laws that a written NPY file is read again as the same array: [`file_again`] and
//! [`array_again`].
ghost use Rattle.nd_round_trip.specs.Files.FileLaws.{ArrayAgain, FileAgain};

use nd_npy::header::rest_is_ignored;

/// A law: an array's NPY file is read as the same dtype, shape and elements, whatever bytes follow
/// it (NumPy's description of the format).
pub fn file_again()
    ensures { FileAgain }
{
    rest_is_ignored();
}

/// A law: the file of an array whose elements lie anywhere in a block is read as the same dtype,
/// shape and elements.
pub fn array_again()
    ensures { ArrayAgain }
{
    file_again();
}
