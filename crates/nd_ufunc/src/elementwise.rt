//! NumPy's universal functions on arrays, element by element: [`map2`] and [`map1`] broadcast
//! operands into a new array, [`prepare_in_place`] writes into one of them.
mod apart;
mod argument;
mod beside;
mod direct;
mod fault;
mod in_place;
mod map;
mod own;
mod powers;
mod replacing;
mod results;
mod spread;
mod stretched;

pub use argument::Argument;
pub use fault::MapFault;
pub use in_place::{
    InPlace, RightSide, argument_beside, in_place_kind, prepare_in_place, results_in_place,
};
pub use map::{map1, map2};
