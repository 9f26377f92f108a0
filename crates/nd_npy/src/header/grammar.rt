//! `read_literal`: the grammar of NPY headers, which are Python literals.
ghost use Rattle.std.specs.Prelude.{◌≡◌, ◌≤◌, IfOk, length};
ghost use Rattle.nd_model.specs.Formats.NpyHeader.{header};
ghost use Rattle.nd_model.specs.Formats.RuleReading.{reading};
ghost use Rattle.nd_grammar.specs.Reads.{seen};

use crate::header::sets::{
    CAPITAL_F, CAPITAL_T, CAPITALS, CLOSE_BRACE, CLOSE_BRACKET, CLOSE_PARENTHESIS, COLON,
    COMMA_BEFORE_QUOTE, COMMAS, DESCR_QUOTES, DESCR_STARTS, DIGITS, DOUBLE_DESCR, DOUBLE_FORTRAN,
    DOUBLE_OTHER, DOUBLE_QUOTES, DOUBLE_SHAPE, FORTRAN_QUOTES, LETTER_A, LETTER_E, LETTER_L,
    LETTER_R, LETTER_S, LETTER_U, NOT_DOUBLE, NOT_SINGLE, OPEN_BRACE, OPEN_BRACKET,
    OPEN_PARENTHESIS, OTHER_COMMA, OTHER_DIGIT, QUOTES, SHAPE_QUOTES, SINGLE_DESCR, SINGLE_FORTRAN,
    SINGLE_OTHER, SINGLE_QUOTES, SINGLE_SHAPE, SPACE, WHITE_SPACE, ZERO_DIGIT,
};
use nd_grammar::{Reading, Rule};
use std::alloc::{AllocError, Global};

// What a byte does.
const MARK: u8 = 0;

pub const DESCR_KEY: u8 = 1;

pub const FORTRAN_KEY: u8 = 2;

pub const SHAPE_KEY: u8 = 3;

pub const OTHER_KEY: u8 = 4;

pub const NAME_BYTE: u8 = 5;

pub const TYPE_BYTE: u8 = 6;

pub const LIST_START: u8 = 7;

pub const PAIR_END: u8 = 8;

pub const TYPE_END: u8 = 9;

pub const TRUE_START: u8 = 10;

pub const FALSE_START: u8 = 11;

pub const FIRST_DIGIT: u8 = 12;

pub const FURTHER_DIGIT: u8 = 13;

// Parts one after another.
macro_rules! chain {
    ($only:expr) => { $only };
    ($first:expr, $($rest:expr),+) => { Rule::Then(&$first, &chain!($($rest),+)) };
}

macro_rules! symbol {
    ($set:expr) => {
        Rule::One(MARK, $set)
    };
}

macro_rules! text_between {
    ($set:expr, $inside:expr, $form:expr, $first:expr, $byte:expr, $end:expr) => {
        chain!(
            Rule::One($first, $set),
            Rule::Many($inside, &Rule::One($byte, $inside)),
            Rule::One($end, $form)
        )
    };
}

// A text in quotes: the sets of the first quote, and the roles of that quote, of the bytes between,
// and of the last quote.
macro_rules! text_in_quotes {
    ($single:expr, $double:expr, $first:expr, $byte:expr, $end:expr) => {
        Rule::Or(
            $single,
            &text_between!($single, NOT_SINGLE, SINGLE_QUOTES, $first, $byte, $end),
            &text_between!($double, NOT_DOUBLE, DOUBLE_QUOTES, $first, $byte, $end),
        )
    };
}

macro_rules! any_text {
    ($byte:expr, $end:expr) => {
        text_in_quotes!(SINGLE_QUOTES, DOUBLE_QUOTES, MARK, $byte, $end)
    };
}

// A key behind a quote of these sets, and its value.
macro_rules! entry_of {
    ($single:expr, $double:expr, $key:expr, $value:expr) => {
        chain!(
            text_in_quotes!($single, $double, $key, MARK, MARK),
            BEFORE_VALUE,
            $value
        )
    };
}

const SPACES: Rule<'static> = Rule::Many(SPACE, &symbol!(SPACE));

const COMMA: Rule<'static> = chain!(symbol!(COMMAS), SPACES);

const PAIR: Rule<'static> = chain!(
    symbol!(OPEN_PARENTHESIS),
    SPACES,
    any_text!(NAME_BYTE, MARK),
    SPACES,
    COMMA,
    any_text!(TYPE_BYTE, MARK),
    SPACES,
    Rule::One(PAIR_END, CLOSE_PARENTHESIS),
    SPACES
);

const LIST: Rule<'static> = chain!(
    Rule::One(LIST_START, OPEN_BRACKET),
    SPACES,
    Rule::Or(
        OPEN_PARENTHESIS,
        &chain!(PAIR, Rule::Many(COMMAS, &chain!(COMMA, PAIR))),
        &Rule::Nothing
    ),
    symbol!(CLOSE_BRACKET)
);

const DESCR: Rule<'static> = Rule::Or(OPEN_BRACKET, &LIST, &any_text!(TYPE_BYTE, TYPE_END));

const FORTRAN_ORDER: Rule<'static> = Rule::Or(
    CAPITAL_T,
    &chain!(
        Rule::One(TRUE_START, CAPITAL_T),
        symbol!(LETTER_R),
        symbol!(LETTER_U),
        symbol!(LETTER_E)
    ),
    &chain!(
        Rule::One(FALSE_START, CAPITAL_F),
        symbol!(LETTER_A),
        symbol!(LETTER_L),
        symbol!(LETTER_S),
        symbol!(LETTER_E)
    ),
);

const NUMBER: Rule<'static> = chain!(
    Rule::Or(
        ZERO_DIGIT,
        &Rule::One(FIRST_DIGIT, ZERO_DIGIT),
        &chain!(
            Rule::One(FIRST_DIGIT, OTHER_DIGIT),
            Rule::Many(DIGITS, &Rule::One(FURTHER_DIGIT, DIGITS))
        )
    ),
    SPACES
);

const LENGTHS: Rule<'static> = chain!(
    NUMBER,
    COMMA,
    Rule::Or(
        DIGITS,
        &chain!(NUMBER, Rule::Many(COMMAS, &chain!(COMMA, NUMBER))),
        &Rule::Nothing
    )
);

const SHAPE: Rule<'static> = chain!(
    symbol!(OPEN_PARENTHESIS),
    SPACES,
    Rule::Or(DIGITS, &LENGTHS, &Rule::Nothing),
    symbol!(CLOSE_PARENTHESIS)
);

const BEFORE_VALUE: Rule<'static> = chain!(SPACES, symbol!(COLON), SPACES);

const ANY_VALUE: Rule<'static> = Rule::Or(
    DESCR_STARTS,
    &DESCR,
    &Rule::Or(CAPITALS, &FORTRAN_ORDER, &SHAPE),
);

const ENTRY: Rule<'static> = chain!(
    Rule::Or(
        DESCR_QUOTES,
        &entry_of!(SINGLE_DESCR, DOUBLE_DESCR, DESCR_KEY, DESCR),
        &Rule::Or(
            FORTRAN_QUOTES,
            &entry_of!(SINGLE_FORTRAN, DOUBLE_FORTRAN, FORTRAN_KEY, FORTRAN_ORDER),
            &Rule::Or(
                SHAPE_QUOTES,
                &entry_of!(SINGLE_SHAPE, DOUBLE_SHAPE, SHAPE_KEY, SHAPE),
                &entry_of!(SINGLE_OTHER, DOUBLE_OTHER, OTHER_KEY, ANY_VALUE)
            )
        )
    ),
    SPACES
);

const ENTRIES: Rule<'static> = chain!(
    ENTRY,
    Rule::Many(
        COMMA_BEFORE_QUOTE,
        &chain!(chain!(symbol!(COMMA_BEFORE_QUOTE), SPACES), ENTRY)
    ),
    Rule::Or(
        OTHER_COMMA,
        &chain!(symbol!(OTHER_COMMA), SPACES),
        &Rule::Nothing
    )
);

const HEADER: Rule<'static> = chain!(
    symbol!(OPEN_BRACE),
    SPACES,
    Rule::Or(QUOTES, &ENTRIES, &Rule::Nothing),
    symbol!(CLOSE_BRACE),
    Rule::Many(WHITE_SPACE, &symbol!(WHITE_SPACE))
);

/// Returns the roles of the bytes of a header literal, or of its longest front, by their kinds.
#[tactic(auto, unfolding(nd_model::specs::Formats::NpyHeader::header))]
pub fn read_literal(alloc: Global, kinds: &[u8]) -> Result<Reading, AllocError>
    ensures read { IfOk result (λ r. (r.roles.items, r.whole) ≡ seen (reading header kinds.now)) }
    ensures within { IfOk result (λ r. length r.roles.items ≤ length kinds.now) }
{
    nd_grammar::read(alloc, &HEADER, kinds)
}
