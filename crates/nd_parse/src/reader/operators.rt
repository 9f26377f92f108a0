//! `unary_of`, `binary_of` and `augment_of`: the operators that words stand for.
ghost use Rattle.std.specs.Prelude.{◌≡◌};
ghost use Rattle.std.specs.Option.{option_map};
ghost use Rattle.nd_model.specs.Grammar.Cells.{unary_of, binary_of, augment_of};
ghost use Rattle.nd_token.specs.Tokens.{word_of};
ghost use Rattle.nd_syntax.specs.Trees.Syntax.{unary_op, binary_op};

use nd_syntax::trees::{BinaryOp, UnaryOp};
use nd_token::Word;

/// Returns the operator of a sign.
pub fn unary_of(word: Word) -> UnaryOp
    ensures { unary_op result ≡ unary_of (word_of word.entry) }
{
    match word {
        Word::Tilde => UnaryOp::Invert,
        _ => UnaryOp::Negative,
    }
}

/// Returns the operator between two operands.
pub fn binary_of(word: Word) -> BinaryOp
    ensures { binary_op result ≡ binary_of (word_of word.entry) }
{
    match word {
        Word::Minus => BinaryOp::Subtract,
        Word::Star => BinaryOp::Multiply,
        Word::DoubleSlash => BinaryOp::FloorDivide,
        Word::Slash => BinaryOp::Divide,
        Word::Percent => BinaryOp::Remainder,
        Word::DoubleStar => BinaryOp::Power,
        Word::ShiftLeft => BinaryOp::LeftShift,
        Word::ShiftRight => BinaryOp::RightShift,
        Word::Ampersand => BinaryOp::BitwiseAnd,
        Word::Caret => BinaryOp::BitwiseXor,
        Word::Bar => BinaryOp::BitwiseOr,
        Word::Less => BinaryOp::Less,
        Word::LessEqual => BinaryOp::LessEqual,
        Word::Greater => BinaryOp::Greater,
        Word::GreaterEqual => BinaryOp::GreaterEqual,
        Word::DoubleEqual => BinaryOp::Equal,
        Word::NotEqual => BinaryOp::NotEqual,
        _ => BinaryOp::Add,
    }
}

/// Returns the operator of `op=`, `None` for `=`.
pub fn augment_of(word: Word) -> Option<BinaryOp>
    ensures { option_map binary_op result ≡ augment_of (word_of word.entry) }
{
    match word {
        Word::PlusEqual => Some(BinaryOp::Add),
        Word::MinusEqual => Some(BinaryOp::Subtract),
        Word::StarEqual => Some(BinaryOp::Multiply),
        Word::DoubleSlashEqual => Some(BinaryOp::FloorDivide),
        Word::SlashEqual => Some(BinaryOp::Divide),
        Word::PercentEqual => Some(BinaryOp::Remainder),
        Word::DoubleStarEqual => Some(BinaryOp::Power),
        Word::ShiftLeftEqual => Some(BinaryOp::LeftShift),
        Word::ShiftRightEqual => Some(BinaryOp::RightShift),
        Word::AmpersandEqual => Some(BinaryOp::BitwiseAnd),
        Word::CaretEqual => Some(BinaryOp::BitwiseXor),
        Word::BarEqual => Some(BinaryOp::BitwiseOr),
        _ => None,
    }
}
