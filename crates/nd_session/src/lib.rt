//! A session: names, blocks and inputs while cells run, what was read and written, and snapshots.
#![tactic(auto)]

pub mod inputs;
pub mod session;
