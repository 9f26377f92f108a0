//! `World`: what all cells of a notebook are run by.

use nd_session::session::{CellRule, Inputs};

/// The inputs by name, and the rule.
#[derive(Drop)]
pub struct World {
    pub(crate) inputs: Inputs,
    pub(crate) rule: CellRule,
}
