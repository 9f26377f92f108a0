//! `Kinds`: sets of kinds of bytes, one bit for each kind.
use nd_grammar::Kinds;

pub const SINGLE_OTHER: Kinds = 0x1;

pub const SINGLE_DESCR: Kinds = 0x2;

pub const SINGLE_FORTRAN: Kinds = 0x4;

pub const SINGLE_SHAPE: Kinds = 0x8;

pub const DOUBLE_OTHER: Kinds = 0x10;

pub const DOUBLE_DESCR: Kinds = 0x20;

pub const DOUBLE_FORTRAN: Kinds = 0x40;

pub const DOUBLE_SHAPE: Kinds = 0x80;

pub const OPEN_BRACE: Kinds = 0x100;

pub const CLOSE_BRACE: Kinds = 0x200;

pub const OPEN_BRACKET: Kinds = 0x400;

pub const CLOSE_BRACKET: Kinds = 0x800;

pub const OPEN_PARENTHESIS: Kinds = 0x1000;

pub const CLOSE_PARENTHESIS: Kinds = 0x2000;

pub const COLON: Kinds = 0x4000;

pub const COMMA_BEFORE_QUOTE: Kinds = 0x8000;

pub const OTHER_COMMA: Kinds = 0x1_0000;

pub const SPACE: Kinds = 0x2_0000;

pub const LINE_SPACE: Kinds = 0x4_0000;

pub const ZERO_DIGIT: Kinds = 0x8_0000;

pub const OTHER_DIGIT: Kinds = 0x10_0000;

pub const CAPITAL_T: Kinds = 0x20_0000;

pub const LETTER_R: Kinds = 0x40_0000;

pub const LETTER_U: Kinds = 0x80_0000;

pub const LETTER_E: Kinds = 0x100_0000;

pub const CAPITAL_F: Kinds = 0x200_0000;

pub const LETTER_A: Kinds = 0x400_0000;

pub const LETTER_L: Kinds = 0x800_0000;

pub const LETTER_S: Kinds = 0x1000_0000;

/// Quotes before one key, of either form.
pub const DESCR_QUOTES: Kinds = 0x22;

pub const FORTRAN_QUOTES: Kinds = 0x44;

pub const SHAPE_QUOTES: Kinds = 0x88;

/// Quotes of one form.
pub const SINGLE_QUOTES: Kinds = 0xf;

pub const DOUBLE_QUOTES: Kinds = 0xf0;

pub const QUOTES: Kinds = 0xff;

/// All kinds but quotes of one form.
pub const NOT_SINGLE: Kinds = 0x3fff_fff0;

pub const NOT_DOUBLE: Kinds = 0x3fff_ff0f;

pub const COMMAS: Kinds = 0x1_8000;

pub const DIGITS: Kinds = 0x18_0000;

/// The first letters of `True` and `False`.
pub const CAPITALS: Kinds = 0x220_0000;

/// What the value of `descr` begins with.
pub const DESCR_STARTS: Kinds = 0x4ff;

/// What may stand behind the dictionary.
pub const WHITE_SPACE: Kinds = 0x6_0000;
