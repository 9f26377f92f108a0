//! `RowFold`: folds that resume from a stored result, and from what is stored beside it.
ghost use Rattle.std.specs.Prelude.{◌≡◌, ℕ, ◌+◌, ◌*◌, ◌^◌, ◌<◌, ◌≤◌, true, List, ℤ, Option, None, length};
ghost use Rattle.std.specs.Int.{w64};
ghost use Rattle.std.specs.List as lists;
ghost use Rattle.nd_model.specs.Grammar.Calls as calls;
ghost use Rattle.nd_model.specs.Arrays.Element.{IsValue, residue, wrap};
ghost use Rattle.nd_model.specs.Making.Reductions.{fold_kind, folded};
ghost use Rattle.nd_types.specs.Kinds.{kind_of};
ghost use Rattle.nd_ufunc.specs.Loops.Sides.{HasNumbers, numbers_on};
ghost use Rattle.nd_reduce.specs.Axes.Tables.{AreColumns, HasBest, HasBests, best_size, more_columns};
ghost use Rattle.nd_reduce.specs.Folds.States.{has_any};

use crate::folds::fold::{All, Any, ArgMax, ArgMin, Max, Min, Prod, Sum, low_bits};
use crate::folds::run_fold::RunFold;
use crate::folds::taking::number_in;
use nd_types::Kind;
use nd_ufunc::loops::Side;
use nd_ufunc::scalar::is_zero;

/// What is stored beside the results for a row of columns: nothing, or another result for each,
/// which is of the kind of the numbers.
///
/// For `np.argmin` of the columns of `[[3 1] [2 5]]` the results are `0 0` behind the first row,
/// with the least numbers `3 1` beside them, and `1 0` with `2 1` behind the second.
pub trait Bests {
    /// The reduction to the other results.
    ghost kept: { Option calls.Reduction };

    /// Returns how many bytes are stored beside each result.
    fn size(kind: Kind) -> usize
        ensures value { result ≡ best_size kept (kind_of kind) }
        ensures small { result ≤ 8 };

    /// Takes one number more into what is stored for each of `count` columns, of `taken` numbers so
    /// far. `found` is room for as many bytes.
    fn extend(
        bests: &mut [u8],
        found: &mut [u8],
        taken: usize,
        kind: Kind,
        side: Side<'_>,
        count: usize,
    )
        requires few { taken + 1 < 2 ^ 64 }
        requires bests { length bests.old ≡ count * best_size kept (kind_of kind) }
        requires found { count * best_size kept (kind_of kind) ≤ length found.old }
        requires side { HasNumbers side count }
        ensures { (columns : List (List ℤ)) → length columns ≡ count
            → AreColumns (kind_of kind) taken columns
            → (0 < taken → HasBests kept (kind_of kind) bests.old columns)
            → HasBests kept (kind_of kind) bests.new
            (more_columns columns (numbers_on side.entry count)) };
}

/// A fold that resumes from a stored result.
pub trait RowFold: RunFold {
    /// What is stored beside each result.
    type Best: Bests;

    /// Returns the state after `taken` numbers of the kind, at least one, whose result so far is
    /// `fold`. What is stored beside it stands at `index` in `bests`.
    fn resume(kind: Kind, taken: usize, fold: i128, bests: &[u8], index: usize) -> Self
        requires { (index + 1) * best_size Self.Best.kept (kind_of kind) ≤ length bests.now }
        ensures { (zs : List ℤ) → has_any zs ≡ true → lists.All (λ z. IsValue (kind_of kind) z) zs
            → length zs ≡ taken
            → fold ≡ wrap (fold_kind Self.reduction (kind_of kind)) (folded Self.reduction zs)
            → HasBest Self.Best.kept (kind_of kind) bests.now index zs
            → Self.has_taken result zs };
}

/// Nothing is stored beside the results.
pub struct NoBests;

impl Bests for NoBests {
    ghost kept = { None };

    #[inline(always)]
    fn size(_kind: Kind) -> usize {
        0
    }

    #[inline(always)]
    fn extend(
        _bests: &mut [u8],
        _found: &mut [u8],
        _taken: usize,
        _kind: Kind,
        _side: Side<'_>,
        _count: usize,
    ) {}
}

impl RowFold for Sum {
    type Best = NoBests;

    #[inline(always)]
    fn resume(_kind: Kind, _taken: usize, fold: i128, _bests: &[u8], _index: usize) -> Sum {
        Sum(low_bits(fold))
    }
}

impl RowFold for Prod {
    type Best = NoBests;

    #[inline(always)]
    fn resume(_kind: Kind, _taken: usize, fold: i128, _bests: &[u8], _index: usize) -> Prod {
        Prod(low_bits(fold))
    }
}

impl RowFold for Min {
    type Best = NoBests;

    #[inline(always)]
    fn resume(_kind: Kind, _taken: usize, fold: i128, _bests: &[u8], _index: usize) -> Min {
        Min {
            some: true,
            best: fold,
        }
    }
}

impl RowFold for Max {
    type Best = NoBests;

    #[inline(always)]
    fn resume(_kind: Kind, _taken: usize, fold: i128, _bests: &[u8], _index: usize) -> Max {
        Max {
            some: true,
            best: fold,
        }
    }
}

impl RowFold for Any {
    type Best = NoBests;

    #[inline(always)]
    fn resume(_kind: Kind, _taken: usize, fold: i128, _bests: &[u8], _index: usize) -> Any {
        Any(!is_zero(fold))
    }
}

impl RowFold for All {
    type Best = NoBests;

    #[inline(always)]
    fn resume(_kind: Kind, _taken: usize, fold: i128, _bests: &[u8], _index: usize) -> All {
        All(!is_zero(fold))
    }
}

// The position that a stored number of 64 bits stands for.
#[inline(always)]
fn place_in(number: i128) -> u64
    ensures { result ≡ residue w64 number }
{
    number.rem_euclid(1 << 64) as u64
}

impl RowFold for ArgMin {
    type Best = Min;

    #[inline(always)]
    fn resume(kind: Kind, taken: usize, fold: i128, bests: &[u8], index: usize) -> ArgMin {
        ArgMin {
            count: taken as u64,
            place: place_in(fold),
            best: number_in(bests, kind, index),
        }
    }
}

impl RowFold for ArgMax {
    type Best = Max;

    #[inline(always)]
    fn resume(kind: Kind, taken: usize, fold: i128, bests: &[u8], index: usize) -> ArgMax {
        ArgMax {
            count: taken as u64,
            place: place_in(fold),
            best: number_in(bests, kind, index),
        }
    }
}
