//! [`Meter`]: counts the runs of cells, so that contracts can bound them.
#![tactic(auto)]

mod meter;

pub use meter::Meter;
