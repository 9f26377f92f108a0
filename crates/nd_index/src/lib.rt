//! Indexes: basic ones give views, advanced ones byte offsets of the elements that arrays and masks choose.
#![tactic(auto)]

pub mod advanced;
pub mod basic;
pub mod items;
pub mod offsets;
