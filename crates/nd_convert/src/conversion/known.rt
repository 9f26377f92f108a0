//! `KnownKind`: kinds as types, so that a loop over numbers is compiled for one of them.
ghost use Rattle.nd_types.specs.declared.kind.Kind.{Kind};
ghost use Rattle.nd_types.specs.declared.kind.Kind.TheVariants.{Bool, I8, I16, I32, I64, U8, U16, U32, U64};

use nd_types::Kind;

/// A kind that is known at compile time.
pub trait KnownKind {
    /// The kind, in clauses.
    ghost KIND: { Kind };

    /// The kind, at run time.
    const KIND: Kind;
}

/// `bool`: 0 or 1 in a byte.
pub struct Booleans;

impl KnownKind for Booleans {
    ghost KIND = { Bool };

    const KIND: Kind = Kind::Bool;
}

/// `int8`: signed numbers of 8 bits.
pub struct Int8s;

impl KnownKind for Int8s {
    ghost KIND = { I8 };

    const KIND: Kind = Kind::I8;
}

/// `int16`: signed numbers of 16 bits.
pub struct Int16s;

impl KnownKind for Int16s {
    ghost KIND = { I16 };

    const KIND: Kind = Kind::I16;
}

/// `int32`: signed numbers of 32 bits.
pub struct Int32s;

impl KnownKind for Int32s {
    ghost KIND = { I32 };

    const KIND: Kind = Kind::I32;
}

/// `int64`: signed numbers of 64 bits.
pub struct Int64s;

impl KnownKind for Int64s {
    ghost KIND = { I64 };

    const KIND: Kind = Kind::I64;
}

/// `uint8`: unsigned numbers of 8 bits.
pub struct UInt8s;

impl KnownKind for UInt8s {
    ghost KIND = { U8 };

    const KIND: Kind = Kind::U8;
}

/// `uint16`: unsigned numbers of 16 bits.
pub struct UInt16s;

impl KnownKind for UInt16s {
    ghost KIND = { U16 };

    const KIND: Kind = Kind::U16;
}

/// `uint32`: unsigned numbers of 32 bits.
pub struct UInt32s;

impl KnownKind for UInt32s {
    ghost KIND = { U32 };

    const KIND: Kind = Kind::U32;
}

/// `uint64`: unsigned numbers of 64 bits.
pub struct UInt64s;

impl KnownKind for UInt64s {
    ghost KIND = { U64 };

    const KIND: Kind = Kind::U64;
}
