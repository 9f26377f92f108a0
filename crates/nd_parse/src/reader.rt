//! The reader of tokens, one at a time with one token of lookahead: [`take`], [`skip`], [`close`],
//! and where it stops.
pub mod kinds;
pub mod names;
pub mod operators;
pub mod read;
pub mod spot;
pub mod types;
