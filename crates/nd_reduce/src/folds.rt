//! Reductions over consecutive numbers: a [`fold`] is a state that takes numbers, [`fold_lanes`]
//! gives one result for each lane, [`accumulate_lanes`] one for each number.
mod blocks;
pub mod fold;
mod lanes;
mod masks;
mod native;
mod prefixes;
mod row_fold;
mod run_fold;
mod taking;

pub use lanes::{fold_lanes, fold_number};
pub use prefixes::accumulate_lanes;
pub use row_fold::{Bests, NoBests, RowFold};
pub use run_fold::RunFold;
pub use taking::{is_kind, number_in, number_of};
