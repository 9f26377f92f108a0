//! `LaidOut`: a scalar operand that is laid out over a chunk, for loops that are vectorised over
//! two arrays alone.
ghost use Rattle.std.specs.Prelude.{◌≡◌, ◌*◌, ◌<◌, ◌≤◌, ◌++◌, length, replicate};
ghost use Rattle.nd_model.specs.Arrays.Element.{IsValue, size_of};
ghost use Rattle.nd_model.specs.Making.Elementwise.{little};
ghost use Rattle.nd_types.specs.Kinds.{kind_of};
ghost use Rattle.nd_ufunc.specs.Loops.Results.{binary_result, result_bytes};
ghost use Rattle.nd_ufunc.specs.Loops.Sides.{HasNumbers, numbers_on};
ghost use Rattle.nd_model.specs.Making.Operators as operators;

use crate::loops::chunks::CHUNK;
use crate::loops::cycle::ROOM;
use crate::loops::kernel::{Side, apply_each};
use crate::loops::operation::Maximum;
use nd_convert::conversion::known;
use nd_convert::conversion::known::KnownKind;
use nd_types::Kind;
use std::marker::Model;

/// What is left of a number that stands for each of `count`. Each chunk is borrowed from one
/// buffer. A clause sees the list of the numbers that are left, and their kind.
#[derive(Drop)]
pub struct LaidOut<'v> {
    // the number, over and over, for a chunk or for all
    numbers: &'v [u8],
    kind: Kind,
    number: i128,
    count: usize,
}

impl<'v> Model for LaidOut<'v> {
    ghost use Rattle.nd_ufunc.specs.Loops.ElementsLeft.{ElementsLeft};
    ghost use Rattle.nd_ufunc.specs.Loops.Laid.{laid_left, IsLaidOut};

    ghost Value = { ElementsLeft };

    ghost view = { laid_left };

    ghost invariant = { IsLaidOut };
}

// Writes the first `count` numbers of an operand, by a loop specialised for a kind.
#[inline(never)]
fn lay_out<K: KnownKind>(out: &mut [u8], side: Side<'_>, count: usize)
    requires out { length out.old ≡ count * size_of (kind_of K.KIND) }
    requires side { HasNumbers side count }
    ensures { out.new ≡ result_bytes (little (kind_of K.KIND))
        (binary_result operators.Maximum (kind_of K.KIND)) (numbers_on side.entry count)
        (numbers_on side.entry count) }
{
    apply_each::<Maximum>(out, K::KIND, side, side, count);
}

/// Writes the first `count` numbers of an operand in this kind: the greater of each and itself.
pub(crate) fn lay_out_kind(out: &mut [u8], kind: Kind, side: Side<'_>, count: usize)
    requires out { length out.old ≡ count * size_of (kind_of kind) }
    requires side { HasNumbers side count }
    ensures { out.new ≡ result_bytes (little (kind_of kind))
        (binary_result operators.Maximum (kind_of kind)) (numbers_on side.entry count)
        (numbers_on side.entry count) }
{
    match kind {
        Kind::Bool => lay_out::<known::Booleans>(out, side, count),
        Kind::I8 => lay_out::<known::Int8s>(out, side, count),
        Kind::I16 => lay_out::<known::Int16s>(out, side, count),
        Kind::I32 => lay_out::<known::Int32s>(out, side, count),
        Kind::I64 => lay_out::<known::Int64s>(out, side, count),
        Kind::U8 => lay_out::<known::UInt8s>(out, side, count),
        Kind::U16 => lay_out::<known::UInt16s>(out, side, count),
        Kind::U32 => lay_out::<known::UInt32s>(out, side, count),
        Kind::U64 => lay_out::<known::UInt64s>(out, side, count),
    }
}

impl<'v> LaidOut<'v> {
    /// Begins with a number that stands for each of `count`. A chunk of them, or all where they are
    /// fewer, are laid out in `room`.
    pub fn new(number: i128, kind: Kind, count: usize, room: &'v mut [u8; ROOM]) -> LaidOut<'v>
        requires { IsValue (kind_of kind) number }
        ensures numbers { result.numbers ≡ replicate count number }
        ensures kind { result.kind ≡ kind_of kind }
    {
        let size = kind.size() as usize;
        let some = count.min(CHUNK / size);
        lay_out_kind(&mut room[..some * size], kind, Side::Same(number), some);
        LaidOut {
            numbers: &room[..some * size],
            kind,
            number,
            count,
        }
    }

    /// Takes the next `count` numbers.
    pub fn take<'b>(&mut self, count: usize) -> Side<'b>
    where
        'v: 'b,
        requires enough { count ≤ length self.old.numbers }
        requires room { count * size_of self.old.kind ≤ 8192 }
        ensures enough { HasNumbers result count }
        ensures split { self.old.numbers ≡ numbers_on result count ++ self.new.numbers }
        ensures kind { self.new.kind ≡ self.old.kind }
    {
        self.count -= count;
        Side::Each(self.numbers, self.kind)
    }

    /// Returns the itemsize of the numbers.
    pub fn size(&self) -> usize
        ensures value { result ≡ size_of self.now.kind }
        ensures range { (0 < result) × (result ≤ 8) }
    {
        self.kind.size() as usize
    }
}
