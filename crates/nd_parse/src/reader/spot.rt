//! `Spot`: the places in the grammar where an expression may begin.
ghost use Rattle.std.specs.Prelude.{◌≡◌};
ghost use Rattle.nd_model.specs.Grammar.Cells.{leaves, modules, openings};
ghost use Rattle.nd_parse.specs.Reader.Gives.{spot_of};

use crate::reader::kinds::{
    AXIS_BOUND, DTYPE_BOUND, KEEPDIMS_BOUND, NP, NP_NO_NEWAXIS, NP_NO_SAVE, OPEN, OPEN_ONE,
    OPEN_SOME, OPERAND, PLACE,
};

/// Where an expression begins.
#[derive(Clone, Copy)]
pub enum Spot {
    Anywhere,
    /// As the target of an assignment.
    Target,
    /// As the first item of an index, which may be `()` or `np.newaxis` instead.
    FirstItem,
    /// As another item, which may be `np.newaxis` instead.
    LaterItem,
    /// As a length, where a tuple or `()` may stand instead.
    Length,
    /// As a number, where `dtype=` may stand instead.
    Number,
    /// As an axis, where `axis=` or `keepdims=` may stand instead.
    AxisNumber,
}

/// The operands of one token that may stand there.
pub fn leaves(spot: Spot) -> u128
    ensures { result ≡ leaves (spot_of spot) }
{
    match spot {
        Spot::Target => PLACE,
        Spot::Number => OPERAND & !DTYPE_BOUND,
        Spot::AxisNumber => OPERAND & !(AXIS_BOUND | KEEPDIMS_BOUND),
        _ => OPERAND,
    }
}

/// The words `np` that may stand there.
pub fn modules(spot: Spot) -> u128
    ensures { result ≡ modules (spot_of spot) }
{
    match spot {
        Spot::Target => NP_NO_SAVE,
        Spot::FirstItem | Spot::LaterItem => NP_NO_NEWAXIS,
        _ => NP,
    }
}

/// The opening brackets that may stand there.
pub fn openings(spot: Spot) -> u128
    ensures { result ≡ openings (spot_of spot) }
{
    match spot {
        Spot::FirstItem => OPEN_SOME,
        Spot::Length => OPEN_ONE,
        _ => OPEN,
    }
}
