//! `take_kinds`: the loop by which a fold takes contiguous numbers, specialised for each kind.
ghost use Rattle.std.specs.Prelude.{◌≡◌, ◌+◌, ◌*◌, ◌≤◌, List, ℤ, ◌++◌, length, IsTrue};
ghost use Rattle.nd_model.specs.Arrays.Content.{number_at};
ghost use Rattle.nd_model.specs.Arrays.Element.{IsValue, size_of};
ghost use Rattle.nd_model.specs.Making.Elementwise.{little};
ghost use Rattle.nd_types.specs.Kinds.{kind_of};
ghost use Rattle.nd_ufunc.specs.Loops.Sides.{HasNumbers, number_on};
ghost use Rattle.nd_reduce.specs.Folds.Lanes.{numbers_in};

use crate::folds::fold::FoldStep;
use nd_block::value_at;
use nd_types::{Elem, Kind};
use nd_ufunc::loops::Side;

/// Returns whether both kinds are equal.
#[inline(always)]
pub fn is_kind(kind: Kind, other: Kind) -> bool
    ensures { IsTrue result → kind ≡ other }
{
    kind == other
}

/// Returns the number of this index among contiguous little-endian numbers of a kind.
#[inline(always)]
pub fn number_in(bytes: &[u8], kind: Kind, index: usize) -> i128
    requires { (index + 1) * size_of (kind_of kind) ≤ length bytes.now }
    ensures value { result ≡ number_at (little (kind_of kind)) bytes.now
        (index * size_of (kind_of kind)) }
    ensures in_range { IsValue (kind_of kind) result }
{
    // proof: the number of bytes is bounded, by the clause of len().
    let _len = bytes.len();
    value_at(bytes, index * kind.size() as usize, Elem::little(kind))
}

/// Returns the number of this index of an operand.
#[inline(always)]
pub fn number_of(side: Side<'_>, index: usize) -> i128
    requires { HasNumbers side (index + 1) }
    ensures { result ≡ number_on side.entry index }
{
    match side {
        Side::Same(number) => number,
        Side::Each(bytes, kind) => number_in(bytes, kind, index),
    }
}

// Takes the first `count` numbers of a kind.
#[inline(always)]
fn take_each<F: FoldStep>(fold: F, kind: Kind, bytes: &[u8], count: usize) -> F
    requires { count * size_of (kind_of kind) ≤ length bytes.now }
    ensures { (zs : List ℤ) → F.has_taken fold zs
        → F.has_taken result (zs ++ numbers_in (kind_of kind) bytes.now count) }
{
    let mut all = fold;
    for index in 0..count {
        all = all.step(number_in(bytes, kind, index));
    }
    all
}

// Takes numbers of any kind: the loop is compiled once and not specialised.
#[inline(never)]
fn take_any<F: FoldStep>(fold: F, kind: Kind, bytes: &[u8], count: usize) -> F
    requires { count * size_of (kind_of kind) ≤ length bytes.now }
    ensures { (zs : List ℤ) → F.has_taken fold zs
        → F.has_taken result (zs ++ numbers_in (kind_of kind) bytes.now count) }
{
    take_each::<F>(fold, kind, bytes, count)
}

// Takes numbers by a loop specialised for `known` where that is their kind.
#[inline(always)]
fn take_known<F: FoldStep>(known: Kind, fold: F, kind: Kind, bytes: &[u8], count: usize) -> F
    requires { count * size_of (kind_of kind) ≤ length bytes.now }
    ensures { (zs : List ℤ) → F.has_taken fold zs
        → F.has_taken result (zs ++ numbers_in (kind_of kind) bytes.now count) }
{
    if is_kind(kind, known) {
        take_each::<F>(fold, known, bytes, count)
    } else {
        take_any::<F>(fold, kind, bytes, count)
    }
}

/// Takes the first `count` of contiguous numbers of a kind, by a loop specialised for it.
#[inline(never)]
pub(crate) fn take_kinds<F: FoldStep>(fold: F, kind: Kind, bytes: &[u8], count: usize) -> F
    requires { count * size_of (kind_of kind) ≤ length bytes.now }
    ensures { (zs : List ℤ) → F.has_taken fold zs
        → F.has_taken result (zs ++ numbers_in (kind_of kind) bytes.now count) }
{
    match kind {
        Kind::Bool => take_known::<F>(Kind::Bool, fold, kind, bytes, count),
        Kind::I8 => take_known::<F>(Kind::I8, fold, kind, bytes, count),
        Kind::I16 => take_known::<F>(Kind::I16, fold, kind, bytes, count),
        Kind::I32 => take_known::<F>(Kind::I32, fold, kind, bytes, count),
        Kind::I64 => take_known::<F>(Kind::I64, fold, kind, bytes, count),
        Kind::U8 => take_known::<F>(Kind::U8, fold, kind, bytes, count),
        Kind::U16 => take_known::<F>(Kind::U16, fold, kind, bytes, count),
        Kind::U32 => take_known::<F>(Kind::U32, fold, kind, bytes, count),
        Kind::U64 => take_known::<F>(Kind::U64, fold, kind, bytes, count),
    }
}
