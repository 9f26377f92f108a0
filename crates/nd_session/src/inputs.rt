//! Inputs: what a cell may load by name. [`Input`] is one, [`is_input_name`] says which names are
//! allowed. Beside them stands the [`CellRule`] by which cells are run.
mod input;
mod input_name;
mod rule;

pub use input::{Inputs, are_same_inputs, find_input, has_input, with_input, without_input};
pub use input_name::is_input_name;
pub use nd_input::Input;
pub use rule::CellRule;
