//! Assignments to elements, carried out in the blocks of a session.
mod scattering;
mod storing;
mod updating;
mod writer;

pub(crate) use scattering::{scatter, update_chosen};
pub(crate) use storing::store;
pub(crate) use updating::update;
