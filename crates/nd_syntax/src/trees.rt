//! The syntax trees of cells ([`Stmt`], [`Expr`]), and why a text is no cell ([`ParseFault`]).
mod calls;
mod tree;

pub use calls::{Accumulation, DType, FieldType, Fill, Reduction, TypeName, Ufunc};
pub use tree::{
    Axis, BinaryOp, Call, Element, Expr, Fold, Index, IndexItem, Line, Method, ParseFault,
    ParseKind, Stmt, Suffix, UnaryOp,
};
