//! `Row` and `KeptWays`: the byte offsets of kept axes, around those of the arrays.
ghost use Rattle.std.specs.Prelude.{◌^◌, ◌≤◌, unsigned_abs, IsTrue};
ghost use Rattle.std.specs.List.{All};
ghost use Rattle.nd_places.specs.Near.{IsNear};
ghost use Rattle.nd_index.specs.Offsets.Ways.{AreNear};

/// Elements at fixed offsets from a start that moves.
#[derive(Clone, Copy)]
pub struct Row<'w> {
    /// The byte offset of the start, which may be negative while offsets are added.
    pub start: i128,
    /// The offset of each element from the start, in bytes and in C order.
    pub ways: &'w [i128],
    /// Whether the offsets are small enough for sums of 64 bits.
    pub is_near: bool,
    ghost start_near: { unsigned_abs start ≤ 2 ^ 114 },
    ghost each: { AreNear ways.now },
    ghost near: { IsTrue is_near → All IsNear ways.now },
}

/// The byte offset of the first element, and the offsets of the kept axes before and behind those
/// of the arrays.
#[derive(Clone, Copy)]
pub struct KeptWays<'w> {
    /// The byte offset of the first element.
    pub offset: u64,
    /// The offsets of the axes before those of the arrays, in bytes and in C order.
    pub before: &'w [i128],
    /// The offsets of the axes behind those of the arrays, in bytes and in C order.
    pub behind: &'w [i128],
    ghost first: { AreNear before.now },
    ghost last: { AreNear behind.now },
}
