//! `FoldStep`: NumPy's reductions as types, so that each inner loop is compiled for one of them.
ghost use Rattle.std.specs.Prelude.{◌≡◌, ℕ, ◌^◌, ◌<◌, ◌≤◌, ◌+ℤ◌, ◌*ℤ◌, pos, int_lt, not, ◌&&◌, List, [], ◌∷◌, ◌++◌, ℤ, length, IsTrue};
ghost use Rattle.std.specs.Int.{int_wrap, w64};
ghost use Rattle.std.specs.List.{fold, list_any, list_all};
ghost use Rattle.nd_model.specs.Grammar.Calls as calls;
ghost use Rattle.nd_model.specs.Arrays.Element.{Int64, wrap};
ghost use Rattle.nd_model.specs.Making.Operators.{is_zero};
ghost use Rattle.nd_model.specs.Making.Reductions as reductions;
ghost use Rattle.nd_model.specs.Making.Reductions.{fold_kind, folded, greater};
ghost use Rattle.nd_types.specs.Kinds.{kind_of};
ghost use Rattle.nd_reduce.specs.Folds.States.{IsBest, IsPlaced};

use nd_types::{Kind, wrap};
use nd_ufunc::scalar::is_zero;

/// A reduction under way: a state that takes one number after another.
pub trait FoldStep: Drop {
    /// Which reduction it is.
    ghost reduction: { calls.Reduction };

    /// Whether the state is that after these numbers.
    ghost has_taken: { Self → List ℤ → Type 0 };

    /// Returns the kind of the result for numbers of a kind.
    fn folds_kind(kind: Kind) -> Kind
        ensures { kind_of result ≡ fold_kind reduction (kind_of kind) };

    /// Returns the state that has taken no numbers.
    fn begin() -> Self
        ensures { has_taken result [] };

    /// Takes the next number.
    fn step(self, number: i128) -> Self
        ensures { (zs : List ℤ) → has_taken self zs → has_taken result (zs ++ number ∷ []) };

    /// Returns whether the state stays the same whatever numbers come.
    #[inline(always)]
    fn is_settled(&self) -> bool
        ensures { (zs more : List ℤ) → IsTrue result → has_taken self.now zs
            → has_taken self.now (zs ++ more) }
    {
        false
    }

    /// Returns the result for the numbers taken, which are of the kind `kind`.
    fn result(&self, kind: Kind) -> i128
        ensures { (zs : List ℤ) → length zs < 2 ^ 64 → has_taken self.now zs
            → result ≡ wrap (fold_kind reduction (kind_of kind)) (folded reduction zs) };
}

/// Returns the kind of sums and products of numbers of a kind: `uint64` for unsigned ones, else
/// `int64` (NumPy reference, `numpy.sum`).
pub fn sum_kind(kind: Kind) -> Kind
    ensures { kind_of result ≡ reductions.sum_kind (kind_of kind) }
{
    match kind {
        Kind::U8 | Kind::U16 | Kind::U32 | Kind::U64 => Kind::U64,
        Kind::Bool | Kind::I8 | Kind::I16 | Kind::I32 | Kind::I64 => Kind::I64,
    }
}

/// Returns the lowest 64 bits of a number.
#[inline(always)]
pub(crate) fn low_bits(number: i128) -> i64
    ensures { result ≡ wrap Int64 number }
{
    (number.rem_euclid(1 << 64) as u64).cast_signed()
}

#[inline(always)]
fn wrapping_sum(left: i64, right: i64) -> i64
    ensures { result ≡ int_wrap w64 (left +ℤ right) }
{
    left.wrapping_add(right)
}

#[inline(always)]
fn wrapping_product(left: i64, right: i64) -> i64
    ensures { result ≡ int_wrap w64 (left *ℤ right) }
{
    left.wrapping_mul(right)
}

/// `np.sum`: the lowest 64 bits of the sum so far.
#[derive(Drop)]
pub struct Sum(pub(crate) i64);

impl FoldStep for Sum {
    ghost reduction = { calls.Sum };

    ghost has_taken = { λ s zs. s.0 ≡ int_wrap w64 (fold (λ a b. a +ℤ b) (pos 0) zs) };

    #[inline(always)]
    fn folds_kind(kind: Kind) -> Kind {
        sum_kind(kind)
    }

    #[inline(always)]
    fn begin() -> Sum {
        Sum(0)
    }

    #[inline(always)]
    fn step(self, number: i128) -> Sum {
        Sum(wrapping_sum(self.0, low_bits(number)))
    }

    #[inline(always)]
    fn result(&self, kind: Kind) -> i128 {
        wrap(sum_kind(kind), i128::from(self.0))
    }
}

/// `np.prod`: the lowest 64 bits of the product so far.
#[derive(Drop)]
pub struct Prod(pub(crate) i64);

impl FoldStep for Prod {
    ghost reduction = { calls.Prod };

    ghost has_taken = { λ s zs. s.0 ≡ int_wrap w64 (fold (λ a b. a *ℤ b) (pos 1) zs) };

    #[inline(always)]
    fn folds_kind(kind: Kind) -> Kind {
        sum_kind(kind)
    }

    #[inline(always)]
    fn begin() -> Prod {
        Prod(1)
    }

    #[inline(always)]
    fn step(self, number: i128) -> Prod {
        Prod(wrapping_product(self.0, low_bits(number)))
    }

    #[inline(always)]
    fn result(&self, kind: Kind) -> i128 {
        wrap(sum_kind(kind), i128::from(self.0))
    }
}

/// Returns whether the least number so far stays the least beside the next one. `some` tells that
/// there is one.
#[inline(always)]
pub(crate) fn keeps_least(some: bool, best: i128, number: i128) -> bool
    ensures { result ≡ (some && not (int_lt number best)) }
{
    some && number >= best
}

/// Returns whether the greatest number so far stays the greatest beside the next one. `some` tells
/// that there is one.
#[inline(always)]
pub(crate) fn keeps_greatest(some: bool, best: i128, number: i128) -> bool
    ensures { result ≡ (some && not (greater number best)) }
{
    some && number <= best
}

/// `np.min`: the least number so far, where there is one.
#[derive(Drop)]
pub struct Min {
    pub(crate) some: bool,
    pub(crate) best: i128,
}

impl FoldStep for Min {
    ghost reduction = { calls.Min };

    ghost has_taken = { λ s zs. IsBest int_lt s.some s.best zs };

    #[inline(always)]
    fn folds_kind(kind: Kind) -> Kind {
        kind
    }

    #[inline(always)]
    fn begin() -> Min {
        Min {
            some: false,
            best: 0,
        }
    }

    #[inline(always)]
    fn step(self, number: i128) -> Min {
        if keeps_least(self.some, self.best, number) {
            return self;
        }
        Min {
            some: true,
            best: number,
        }
    }

    #[inline(always)]
    fn result(&self, kind: Kind) -> i128 {
        wrap(kind, self.best)
    }
}

/// `np.max`: the greatest number so far, where there is one.
#[derive(Drop)]
pub struct Max {
    pub(crate) some: bool,
    pub(crate) best: i128,
}

impl FoldStep for Max {
    ghost reduction = { calls.Max };

    ghost has_taken = { λ s zs. IsBest greater s.some s.best zs };

    #[inline(always)]
    fn folds_kind(kind: Kind) -> Kind {
        kind
    }

    #[inline(always)]
    fn begin() -> Max {
        Max {
            some: false,
            best: 0,
        }
    }

    #[inline(always)]
    fn step(self, number: i128) -> Max {
        if keeps_greatest(self.some, self.best, number) {
            return self;
        }
        Max {
            some: true,
            best: number,
        }
    }

    #[inline(always)]
    fn result(&self, kind: Kind) -> i128 {
        wrap(kind, self.best)
    }
}

/// `np.any`: whether a number so far is not zero.
#[derive(Drop)]
pub struct Any(pub(crate) bool);

impl FoldStep for Any {
    ghost reduction = { calls.Any };

    ghost has_taken = { λ s zs. s.0 ≡ list_any (λ z. not (is_zero z)) zs };

    #[inline(always)]
    fn folds_kind(_kind: Kind) -> Kind {
        Kind::Bool
    }

    #[inline(always)]
    fn begin() -> Any {
        Any(false)
    }

    #[inline(always)]
    fn step(self, number: i128) -> Any {
        Any(self.0 | !is_zero(number))
    }

    #[inline(always)]
    fn is_settled(&self) -> bool {
        self.0
    }

    #[inline(always)]
    fn result(&self, _kind: Kind) -> i128 {
        wrap(Kind::Bool, i128::from(self.0))
    }
}

/// `np.all`: whether no number so far is zero.
#[derive(Drop)]
pub struct All(pub(crate) bool);

impl FoldStep for All {
    ghost reduction = { calls.All };

    ghost has_taken = { λ s zs. s.0 ≡ list_all (λ z. not (is_zero z)) zs };

    #[inline(always)]
    fn folds_kind(_kind: Kind) -> Kind {
        Kind::Bool
    }

    #[inline(always)]
    fn begin() -> All {
        All(true)
    }

    #[inline(always)]
    fn step(self, number: i128) -> All {
        All(self.0 & !is_zero(number))
    }

    #[inline(always)]
    fn is_settled(&self) -> bool {
        !self.0
    }

    #[inline(always)]
    fn result(&self, _kind: Kind) -> i128 {
        wrap(Kind::Bool, i128::from(self.0))
    }
}

/// `np.argmin`: the position of the first of the least numbers so far.
#[derive(Drop)]
pub struct ArgMin {
    pub(crate) count: u64,
    pub(crate) place: u64,
    pub(crate) best: i128,
}

impl FoldStep for ArgMin {
    ghost reduction = { calls.ArgMin };

    ghost has_taken = { λ s zs. IsPlaced int_lt s.count s.place s.best zs };

    #[inline(always)]
    fn folds_kind(_kind: Kind) -> Kind {
        Kind::I64
    }

    #[inline(always)]
    fn begin() -> ArgMin {
        ArgMin {
            count: 0,
            place: 0,
            best: 0,
        }
    }

    #[inline(always)]
    fn step(self, number: i128) -> ArgMin {
        let count = self.count.wrapping_add(1);
        if keeps_least(self.count > 0, self.best, number) {
            return ArgMin {
                count,
                place: self.place,
                best: self.best,
            };
        }
        ArgMin {
            count,
            place: self.count,
            best: number,
        }
    }

    #[inline(always)]
    fn result(&self, _kind: Kind) -> i128 {
        wrap(Kind::I64, i128::from(self.place))
    }
}

/// `np.argmax`: the position of the first of the greatest numbers so far.
#[derive(Drop)]
pub struct ArgMax {
    pub(crate) count: u64,
    pub(crate) place: u64,
    pub(crate) best: i128,
}

impl FoldStep for ArgMax {
    ghost reduction = { calls.ArgMax };

    ghost has_taken = { λ s zs. IsPlaced greater s.count s.place s.best zs };

    #[inline(always)]
    fn folds_kind(_kind: Kind) -> Kind {
        Kind::I64
    }

    #[inline(always)]
    fn begin() -> ArgMax {
        ArgMax {
            count: 0,
            place: 0,
            best: 0,
        }
    }

    #[inline(always)]
    fn step(self, number: i128) -> ArgMax {
        let count = self.count.wrapping_add(1);
        if keeps_greatest(self.count > 0, self.best, number) {
            return ArgMax {
                count,
                place: self.place,
                best: self.best,
            };
        }
        ArgMax {
            count,
            place: self.count,
            best: number,
        }
    }

    #[inline(always)]
    fn result(&self, _kind: Kind) -> i128 {
        wrap(Kind::I64, i128::from(self.place))
    }
}
