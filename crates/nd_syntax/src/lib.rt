//! The tree of a cell, whose statements are [`trees::Stmt`], and the dtypes that it names, by
//! [`dtypes::element_type`].
#![tactic(auto)]

pub mod dtypes;
pub mod trees;
