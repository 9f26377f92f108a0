//! `RunFold`: folds that take contiguous numbers in one call.
ghost use Rattle.std.specs.Prelude.{◌≡◌, ◌*◌, ◌≤◌, List, ℤ, ◌++◌, length};
ghost use Rattle.nd_model.specs.Arrays.Element.{size_of};
ghost use Rattle.nd_types.specs.Kinds.{kind_of};
ghost use Rattle.nd_reduce.specs.Folds.Lanes.{numbers_in};

use crate::folds::blocks::{greatest_block, least_block};
use crate::folds::fold::{
    All, Any, ArgMax, ArgMin, FoldStep, Max, Min, Prod, Sum, keeps_greatest, keeps_least,
};
use crate::folds::masks::{has_false, has_true};
use crate::folds::native::{greatest_in, least_in};
use crate::folds::taking::{is_kind, take_kinds};
use nd_types::Kind;

/// A fold that takes contiguous numbers in one call, which may be faster than number by number.
pub trait RunFold: FoldStep {
    /// Takes the first `count` of contiguous little-endian numbers of a kind.
    fn take(self, kind: Kind, bytes: &[u8], count: usize) -> Self
        requires { count * size_of (kind_of kind) ≤ length bytes.now }
        ensures { (zs : List ℤ) → Self.has_taken self zs
            → Self.has_taken result (zs ++ numbers_in (kind_of kind) bytes.now count) };
}

impl RunFold for Sum {
    #[inline(always)]
    fn take(self, kind: Kind, bytes: &[u8], count: usize) -> Sum {
        take_kinds(self, kind, bytes, count)
    }
}

impl RunFold for Prod {
    #[inline(always)]
    fn take(self, kind: Kind, bytes: &[u8], count: usize) -> Prod {
        take_kinds(self, kind, bytes, count)
    }
}

impl RunFold for Min {
    fn take(self, kind: Kind, bytes: &[u8], count: usize) -> Min {
        if count == 0 {
            return self;
        }
        self.step(least_in(kind, bytes, count))
    }
}

impl RunFold for Max {
    fn take(self, kind: Kind, bytes: &[u8], count: usize) -> Max {
        if count == 0 {
            return self;
        }
        self.step(greatest_in(kind, bytes, count))
    }
}

impl RunFold for Any {
    #[inline(always)]
    fn take(self, kind: Kind, bytes: &[u8], count: usize) -> Any {
        if count == 0 || !is_kind(kind, Kind::Bool) {
            return take_kinds(self, kind, bytes, count);
        }
        Any(self.0 | has_true(bytes, count))
    }
}

impl RunFold for All {
    #[inline(always)]
    fn take(self, kind: Kind, bytes: &[u8], count: usize) -> All {
        if count == 0 || !is_kind(kind, Kind::Bool) {
            return take_kinds(self, kind, bytes, count);
        }
        All(self.0 & !has_false(bytes, count))
    }
}

impl RunFold for ArgMin {
    fn take(self, kind: Kind, bytes: &[u8], count: usize) -> ArgMin {
        if count == 0 {
            return self;
        }
        let taken = self.count.wrapping_add(count as u64);
        let least = least_block(kind, bytes, count);
        if keeps_least(self.count > 0, self.best, least.best) {
            return ArgMin {
                count: taken,
                place: self.place,
                best: self.best,
            };
        }
        ArgMin {
            count: taken,
            place: self.count.wrapping_add(least.place(kind, bytes) as u64),
            best: least.best,
        }
    }
}

impl RunFold for ArgMax {
    fn take(self, kind: Kind, bytes: &[u8], count: usize) -> ArgMax {
        if count == 0 {
            return self;
        }
        let taken = self.count.wrapping_add(count as u64);
        let greatest = greatest_block(kind, bytes, count);
        if keeps_greatest(self.count > 0, self.best, greatest.best) {
            return ArgMax {
                count: taken,
                place: self.place,
                best: self.best,
            };
        }
        ArgMax {
            count: taken,
            place: self.count.wrapping_add(greatest.place(kind, bytes) as u64),
            best: greatest.best,
        }
    }
}
