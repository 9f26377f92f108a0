//! `promote` and `same_kind`: NumPy's promotion of two kinds, and its casting rule for writes in
//! place.
ghost use Rattle.std.specs.Prelude.{◌≡◌, ◌&&◌};
ghost use Rattle.nd_model.specs.Arrays.Promotion as promotion;
ghost use Rattle.nd_types.specs.Kinds.{kind_of};
ghost use Rattle.nd_types.specs.Types.{kind_given};

use crate::kind::{Kind, highest, lowest};

/// The refusal of a promotion: only a float would hold both ranges.
#[derive(Clone, Copy)]
pub struct FloatResult;

// The order in which the common kind is looked for.
const ORDER: [Kind; 9] = [
    Kind::Bool,
    Kind::U8,
    Kind::I8,
    Kind::U16,
    Kind::I16,
    Kind::U32,
    Kind::I32,
    Kind::U64,
    Kind::I64,
];

// Whether the first kind has each number of the second.
fn has_range_of(kind: Kind, of: Kind) -> bool
    ensures { result ≡ promotion.has_range_of (kind_of kind) (kind_of of) }
{
    lowest(kind) <= lowest(of) && highest(of) <= highest(kind)
}

// Whether the kind has each number of both.
fn has_both(kind: Kind, a: Kind, b: Kind) -> bool
    ensures { result ≡ (promotion.has_range_of (kind_of kind) (kind_of a) && promotion.has_range_of
        (kind_of kind) (kind_of b)) }
{
    has_range_of(kind, a) && has_range_of(kind, b)
}

/// Returns the first kind, in the order of NEP 50's table, whose range holds the ranges of both.
///
/// `uint8` and `int8` give `int16`. Refused for `uint64` beside a signed kind, where NumPy gives a
/// float.
pub fn promote(a: Kind, b: Kind) -> Result<Kind, FloatResult>
    ensures { kind_given result ≡ promotion.promoted (kind_of a) (kind_of b) }
{
    for kind in ORDER {
        if has_both(kind, a, b) {
            return Ok(kind);
        }
    }
    Err(FloatResult)
}

// Booleans, then unsigned numbers, then signed ones.
fn sort_of(kind: Kind) -> u8
    ensures { result ≡ promotion.sort_of (kind_of kind) }
{
    match kind {
        Kind::Bool => 0,
        Kind::U8 | Kind::U16 | Kind::U32 | Kind::U64 => 1,
        Kind::I8 | Kind::I16 | Kind::I32 | Kind::I64 => 2,
    }
}

/// Returns whether results of one kind may be written in place into numbers of another (NumPy's
/// `same_kind`). Booleans may go to each kind, unsigned numbers to all but Booleans, and signed
/// numbers to signed ones.
///
/// `int64` may go to `int8`, and `int8` may not go to `uint8`.
pub fn same_kind(from: Kind, to: Kind) -> bool
    ensures { result ≡ promotion.same_kind (kind_of from) (kind_of to) }
{
    sort_of(from) <= sort_of(to)
}
