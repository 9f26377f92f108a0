//! What operations make of their operands: numbers, new arrays and texts. [`make_of_one`] and
//! [`make_of_two`] are the operators and functions.
mod arguments;
mod calls;
mod conversion;
mod creation;
mod elements;
mod elementwise;
mod lists;
mod operand;
mod operators;
mod printing;
mod python;
mod ranges;

pub use arguments::{bad_argument, integers_of, lengths_of};
pub use calls::{UnaryCall, make_of_one};
pub use conversion::{
    array_kind, copy_reshaped, not_an_array, not_numbers, operand_converts, operand_misfit,
    whole_number,
};
pub use creation::{check_limits, make_filled, make_full};
pub use elementwise::{kind_in_place, new_numbers};
pub use lists::{is_empty_list, make_list};
pub use operand::{BorrowedArray, New, Operand};
pub use operators::{BinaryCall, make_of_two};
pub use printing::print_line;
pub use ranges::make_range;
