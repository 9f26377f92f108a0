//! `least_in` and `greatest_in`: the extremes of contiguous numbers, compared as machine integers
//! so that the loops are vectorised.
ghost use Rattle.std.specs.Prelude.{◌≡◌, ◌+◌, ◌*◌, ◌<◌, ◌≤◌, ℤ, pos, int_lt, length, if◌then◌else◌};
ghost use Rattle.nd_model.specs.Arrays.Content.{number_at};
ghost use Rattle.nd_model.specs.Arrays.Element as element;
ghost use Rattle.nd_model.specs.Arrays.Element.{IsValue, Int32, Int64, UInt8, UInt64, size_of};
ghost use Rattle.nd_model.specs.Making.Elementwise.{little};
ghost use Rattle.nd_model.specs.Making.Reductions.{best, greater};
ghost use Rattle.nd_types.specs.Kinds.{kind_of};
ghost use Rattle.nd_ufunc.specs.Loops.Sides.{Keeps};
ghost use Rattle.nd_reduce.specs.Folds.Lanes.{numbers_in};

use crate::folds::taking::number_in;
use nd_types::Kind;

/// A machine integer.
pub(crate) trait Native: Copy + Drop {
    /// The kind with the same values.
    ghost own: { element.Kind };

    /// The integer that it stands for.
    ghost number: { Self → ℤ };

    /// Returns the number of this index among contiguous numbers of a kind.
    fn read(bytes: &[u8], kind: Kind, index: usize) -> Self
        requires inside { (index + 1) * size_of (kind_of kind) ≤ length bytes.now }
        requires keeps { Keeps (kind_of kind) own }
        ensures { number result ≡ number_at (little (kind_of kind)) bytes.now
            (index * size_of (kind_of kind)) };

    /// Returns whether it is below another one.
    fn is_below(self, other: Self) -> bool
        ensures { result ≡ int_lt (number self) (number other) };

    /// Returns the integer that it stands for.
    fn value(self) -> i128
        ensures { result ≡ number self };
}

impl Native for u8 {
    ghost own = { UInt8 };

    ghost number = { λ n. pos n };

    #[inline(always)]
    fn read(bytes: &[u8], kind: Kind, index: usize) -> u8 {
        number_in(bytes, kind, index) as u8
    }

    #[inline(always)]
    fn is_below(self, other: u8) -> bool {
        self < other
    }

    #[inline(always)]
    fn value(self) -> i128 {
        i128::from(self)
    }
}

impl Native for i32 {
    ghost own = { Int32 };

    ghost number = { λ z. z };

    #[inline(always)]
    fn read(bytes: &[u8], kind: Kind, index: usize) -> i32 {
        number_in(bytes, kind, index) as i32
    }

    #[inline(always)]
    fn is_below(self, other: i32) -> bool {
        self < other
    }

    #[inline(always)]
    fn value(self) -> i128 {
        i128::from(self)
    }
}

impl Native for i64 {
    ghost own = { Int64 };

    ghost number = { λ z. z };

    #[inline(always)]
    fn read(bytes: &[u8], kind: Kind, index: usize) -> i64 {
        number_in(bytes, kind, index) as i64
    }

    #[inline(always)]
    fn is_below(self, other: i64) -> bool {
        self < other
    }

    #[inline(always)]
    fn value(self) -> i128 {
        i128::from(self)
    }
}

impl Native for u64 {
    ghost own = { UInt64 };

    ghost number = { λ n. pos n };

    #[inline(always)]
    fn read(bytes: &[u8], kind: Kind, index: usize) -> u64 {
        number_in(bytes, kind, index) as u64
    }

    #[inline(always)]
    fn is_below(self, other: u64) -> bool {
        self < other
    }

    #[inline(always)]
    fn value(self) -> i128 {
        i128::from(self)
    }
}

// The lesser of two numbers.
#[inline(always)]
fn lesser<N: Native>(best: N, number: N) -> N
    ensures { N.number result ≡ (if int_lt (N.number number) (N.number best)
        then N.number number else N.number best) }
{
    if number.is_below(best) { number } else { best }
}

// The larger of two numbers.
#[inline(always)]
fn larger<N: Native>(best: N, number: N) -> N
    ensures { N.number result ≡ (if greater (N.number number) (N.number best)
        then N.number number else N.number best) }
{
    if best.is_below(number) { number } else { best }
}

// The least of the first `count` numbers of a kind.
#[inline(always)]
fn least<N: Native>(bytes: &[u8], kind: Kind, count: usize) -> i128
    requires some { 0 < count }
    requires inside { count * size_of (kind_of kind) ≤ length bytes.now }
    requires keeps { Keeps (kind_of kind) N.own }
    ensures { result ≡ best int_lt (numbers_in (kind_of kind) bytes.now count) }
{
    let mut best = N::read(bytes, kind, 0);
    for index in 1..count {
        best = lesser(best, N::read(bytes, kind, index));
    }
    best.value()
}

// The greatest of the first `count` numbers of a kind.
#[inline(always)]
fn greatest<N: Native>(bytes: &[u8], kind: Kind, count: usize) -> i128
    requires some { 0 < count }
    requires inside { count * size_of (kind_of kind) ≤ length bytes.now }
    requires keeps { Keeps (kind_of kind) N.own }
    ensures { result ≡ best greater (numbers_in (kind_of kind) bytes.now count) }
{
    let mut best = N::read(bytes, kind, 0);
    for index in 1..count {
        best = larger(best, N::read(bytes, kind, index));
    }
    best.value()
}

/// Returns the least of the first `count` numbers of a kind, of which there is one at least.
#[inline(never)]
pub(crate) fn least_in(kind: Kind, bytes: &[u8], count: usize) -> i128
    requires some { 0 < count }
    requires inside { count * size_of (kind_of kind) ≤ length bytes.now }
    ensures { result ≡ best int_lt (numbers_in (kind_of kind) bytes.now count) }
{
    match kind {
        Kind::Bool => least::<u8>(bytes, Kind::Bool, count),
        Kind::I8 => least::<i32>(bytes, Kind::I8, count),
        Kind::I16 => least::<i32>(bytes, Kind::I16, count),
        Kind::I32 => least::<i32>(bytes, Kind::I32, count),
        Kind::I64 => least::<i64>(bytes, Kind::I64, count),
        Kind::U8 => least::<u8>(bytes, Kind::U8, count),
        Kind::U16 => least::<i32>(bytes, Kind::U16, count),
        Kind::U32 => least::<i64>(bytes, Kind::U32, count),
        Kind::U64 => least::<u64>(bytes, Kind::U64, count),
    }
}

/// Returns the greatest of the first `count` numbers of a kind, of which there is one at least.
#[inline(never)]
pub(crate) fn greatest_in(kind: Kind, bytes: &[u8], count: usize) -> i128
    requires some { 0 < count }
    requires inside { count * size_of (kind_of kind) ≤ length bytes.now }
    ensures { result ≡ best greater (numbers_in (kind_of kind) bytes.now count) }
{
    match kind {
        Kind::Bool => greatest::<u8>(bytes, Kind::Bool, count),
        Kind::I8 => greatest::<i32>(bytes, Kind::I8, count),
        Kind::I16 => greatest::<i32>(bytes, Kind::I16, count),
        Kind::I32 => greatest::<i32>(bytes, Kind::I32, count),
        Kind::I64 => greatest::<i64>(bytes, Kind::I64, count),
        Kind::U8 => greatest::<u8>(bytes, Kind::U8, count),
        Kind::U16 => greatest::<i32>(bytes, Kind::U16, count),
        Kind::U32 => greatest::<i64>(bytes, Kind::U32, count),
        Kind::U64 => greatest::<u64>(bytes, Kind::U64, count),
    }
}
