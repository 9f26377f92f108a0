//! Views of the same bytes in another form: [`reshape`], [`transpose`], [`broadcast_to`], and
//! [`view_as`] for another dtype.
#![tactic(auto)]

mod fault;
mod layout;
mod recasting;
mod reshaping;
mod stretching;
mod transposing;

pub use fault::ShapeFault;
pub use recasting::view_as;
pub use reshaping::{Reshaped, reshape};
pub use stretching::{broadcast, broadcast_to, broadcasts_to};
pub use transposing::{reverse_axes, transpose};
