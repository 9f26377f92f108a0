//! Reductions and accumulations as statements call them, [`make_fold`] (NumPy reference,
//! `ndarray.sum` and the like, `ufunc.reduce`, `ufunc.accumulate`).
mod folding;
mod numbers;

pub(crate) use folding::{Folding, make_fold, make_fold_along};
