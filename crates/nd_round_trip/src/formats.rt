//! Laws that a written dtype is read again: [`format_again`].
ghost use Rattle.nd_round_trip.specs.Formats.FormatLaws.{FormatAgain};

use nd_npy::pep3118::reading_is_exact;

/// A law: a dtype is read back from its format string (PEP 3118) and its itemsize.
pub fn format_again()
    ensures { FormatAgain }
{
    reading_is_exact();
}
