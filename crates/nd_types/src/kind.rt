//! `Kind`: NumPy's nine kinds of integers and Booleans, their names, their ranges and `wrap`.
ghost use Rattle.std.specs.Prelude.{◌≡◌, ◌<◌, ◌≤◌, IsTrue, ◌↔◌};
ghost use Rattle.nd_model.specs.Arrays.Element as element;
ghost use Rattle.nd_model.specs.Formats.Format as formats;
ghost use Rattle.nd_types.specs.Kinds.{kind_of};

/// One of NumPy's nine kinds of integers and Booleans (NumPy user guide, "Data types").
#[derive(Clone, Copy, PartialEq, Eq, Debug)]
pub enum Kind {
    /// `bool`: 0 or 1, in one byte.
    Bool,
    /// `int8`: signed, 8 bits.
    I8,
    /// `int16`: signed, 16 bits.
    I16,
    /// `int32`: signed, 32 bits.
    I32,
    /// `int64`: signed, 64 bits.
    I64,
    /// `uint8`: unsigned, 8 bits.
    U8,
    /// `uint16`: unsigned, 16 bits.
    U16,
    /// `uint32`: unsigned, 32 bits.
    U32,
    /// `uint64`: unsigned, 64 bits.
    U64,
}

impl Kind {
    /// Returns the itemsize in bytes.
    #[inline]
    pub fn size(self) -> u64
        ensures value { result ≡ element.size_of (kind_of self) }
        ensures range { (0 < result) × (result ≤ 8) }
    {
        match self {
            Kind::Bool | Kind::I8 | Kind::U8 => 1,
            Kind::I16 | Kind::U16 => 2,
            Kind::I32 | Kind::U32 => 4,
            Kind::I64 | Kind::U64 => 8,
        }
    }

    /// Returns NumPy's name of the kind, such as `int8` or `bool`.
    pub fn name(self) -> &'static str
        ensures { result.now ≡ formats.kind_text (kind_of self) }
    {
        match self {
            Kind::Bool => "bool",
            Kind::I8 => "int8",
            Kind::I16 => "int16",
            Kind::I32 => "int32",
            Kind::I64 => "int64",
            Kind::U8 => "uint8",
            Kind::U16 => "uint16",
            Kind::U32 => "uint32",
            Kind::U64 => "uint64",
        }
    }
}

/// Returns the least number of the kind: -128 for `int8`.
pub fn lowest(kind: Kind) -> i128
    ensures { result ≡ element.lowest (kind_of kind) }
{
    match kind {
        Kind::Bool | Kind::U8 | Kind::U16 | Kind::U32 | Kind::U64 => 0,
        Kind::I8 => i128::from(i8::MIN),
        Kind::I16 => i128::from(i16::MIN),
        Kind::I32 => i128::from(i32::MIN),
        Kind::I64 => i128::from(i64::MIN),
    }
}

/// Returns the greatest number of the kind: 127 for `int8`.
pub fn highest(kind: Kind) -> i128
    ensures { result ≡ element.highest (kind_of kind) }
{
    match kind {
        Kind::Bool => 1,
        Kind::I8 => i128::from(i8::MAX),
        Kind::I16 => i128::from(i16::MAX),
        Kind::I32 => i128::from(i32::MAX),
        Kind::I64 => i128::from(i64::MAX),
        Kind::U8 => i128::from(u8::MAX),
        Kind::U16 => i128::from(u16::MAX),
        Kind::U32 => i128::from(u32::MAX),
        Kind::U64 => i128::from(u64::MAX),
    }
}

/// Returns whether the kind has the number: `uint8` has 255, and has neither 256 nor -1.
pub fn fits(kind: Kind, number: i128) -> bool
    ensures value { result ≡ element.fits (kind_of kind) number }
    ensures in_range { IsTrue result ↔ element.IsValue (kind_of kind) number }
{
    lowest(kind) <= number && number <= highest(kind)
}

/// Returns the number modulo 2 to the power of the kind's bits, in two's complement where the kind
/// is signed. For a Boolean it is 0 for 0, else 1.
///
/// `wrap(Kind::I8, 200)` is `-56`.
pub fn wrap(kind: Kind, number: i128) -> i128
    ensures value { result ≡ element.wrap (kind_of kind) number }
    ensures in_range { element.IsValue (kind_of kind) result }
{
    match kind {
        Kind::Bool => i128::from(number != 0),
        Kind::I8 => i128::from((number.rem_euclid(1 << 8) as u8).cast_signed()),
        Kind::I16 => i128::from((number.rem_euclid(1 << 16) as u16).cast_signed()),
        Kind::I32 => i128::from((number.rem_euclid(1 << 32) as u32).cast_signed()),
        Kind::I64 => i128::from((number.rem_euclid(1 << 64) as u64).cast_signed()),
        Kind::U8 => number.rem_euclid(1 << 8),
        Kind::U16 => number.rem_euclid(1 << 16),
        Kind::U32 => number.rem_euclid(1 << 32),
        Kind::U64 => number.rem_euclid(1 << 64),
    }
}
