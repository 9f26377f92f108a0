//! New blocks: [`conversion`] makes one of other elements' numbers, [`creation`] one of a number, a
//! range or a list.
#![tactic(auto)]

pub mod conversion;
pub mod creation;
