//! Dtypes: the [`Kind`] of a number, its byte order in [`Elem`], structures in [`RecType`], either
//! in [`ElemType`]; and [`Num`], numbers outside arrays.
#![tactic(auto)]

mod descr;
mod elem;
mod field;
mod kind;
mod name;
mod num;
mod promotion;
mod structure;
mod types;

pub use descr::{kind_named, parse_descr};
pub use elem::Elem;
pub use field::Field;
pub use kind::{Kind, fits, highest, lowest, wrap};
pub use name::is_field_name;
pub use num::Num;
pub use promotion::{FloatResult, promote, same_kind};
pub use structure::RecType;
pub use types::ElemType;
