//! Byte offsets of selected elements: how strides and flat indices lead to them. [`places_on`] adds
//! up offsets of axes, [`Axes`] turns a flat index into one.
mod axes;
mod near;
mod placing;
mod row;
mod ways;

pub use axes::Axes;
pub(crate) use axes::Front;
pub use near::{are_near, is_near, line_of, push_near_places, push_on_line};
pub use placing::{place_on, places_on, push_places};
pub use row::{KeptWays, Row};
pub use ways::{own_numbers, ways_of, ways_to};
