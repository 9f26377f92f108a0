//! NumPy's universal functions of single numbers: the exact integer result, wrapped to a kind.
//! [`result_kind`] gives the kind, [`scalar2`] the result.
mod arithmetic;
mod division;
mod fault;
mod integers;
mod kinds;
mod powers;
mod scalars;
mod shifts;
mod table;
mod ufunc;

pub(crate) use arithmetic::{add, multiply, subtract};
pub(crate) use division::{floor_divide, reciprocal_of, remainder};
pub use fault::UfuncFault;
pub use integers::{is_below, is_negative, is_zero};
pub use kinds::{Sort, result_kind, sort_of};
pub use powers::exact_power;
pub(crate) use powers::power;
pub use scalars::{is_power_below, scalar1, scalar2, whole_number};
pub(crate) use shifts::{left_shift, right_shift, shift_factor};
pub(crate) use table::apply_single;
pub use ufunc::{BinaryUfunc, Single};
