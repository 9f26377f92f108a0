//! `next_in`: the kinds of tokens as bits of a set, and whether the next token is in one.
ghost use Rattle.std.specs.Prelude.{◌≡◌, ◌<◌, map};
ghost use Rattle.nd_model.specs.Grammar.Grammar.{has};
ghost use Rattle.nd_model.specs.Grammar.Kinds.{kind_of_symbol, kind_in, keyword_kinds, name_kinds, before_next, is_before, is_name, is_before_name, holds_comma, refined, kind_of_word, kind_of, kind};
ghost use Rattle.nd_model.specs.Grammar.Predict.{next_in};
ghost use Rattle.nd_token.specs.Tokens.{word_of, token_of};
ghost use Rattle.nd_parse.specs.Reader.Gives.{tokens_of};
ghost use Rattle.nd_parse.specs.Reader.Tables.{entry};
ghost use Rattle.nd_parse.specs.Reader.Openings.{kind_of_opening};

use nd_token::{Token, Word};

/// An integer.
pub const INTEGER: u128 = 1;
/// `True`, `False`
pub const TRUTH: u128 = 1 << 1;
/// `-`
pub const MINUS: u128 = 1 << 2;
/// `+`
pub const PLUS: u128 = 1 << 3;
/// `~`
pub const TILDE: u128 = 1 << 4;
/// `**`
pub const POWER: u128 = 1 << 5;
/// `*`, `//`, `/`, `%`
pub const PRODUCT: u128 = 1 << 6;
/// `<<`, `>>`
pub const SHIFT: u128 = 1 << 7;
/// `&`
pub const AMPERSAND: u128 = 1 << 8;
/// `^`
pub const CARET: u128 = 1 << 9;
/// `|`
pub const BAR: u128 = 1 << 10;
/// `<`, `<=`, `>`, `>=`, `==`, `!=`
pub const COMPARISON: u128 = 1 << 11;
/// `(` before `)`
pub const OPEN_NONE: u128 = 1 << 31;
/// `(` with a comma of its own
pub const OPEN_TUPLE: u128 = 1 << 36;
/// Any other `(`
pub const OPEN_ONE: u128 = 1 << 12;
/// `(` that is not before `)`
pub const OPEN_SOME: u128 = OPEN_ONE | OPEN_TUPLE;
/// `(`
pub const OPEN: u128 = OPEN_SOME | OPEN_NONE;
/// `)`
pub const CLOSE: u128 = 1 << 13;
/// `[`
pub const OPEN_BRACKET: u128 = 1 << 14;
/// `]`
pub const CLOSE_BRACKET: u128 = 1 << 15;
/// `,` before `]`
pub const COMMA_LAST: u128 = 1 << 30;
/// `,` that is not before `]`
pub const COMMA_MORE: u128 = 1 << 16 | COMMA_CLOSING;
/// `,` before `)`
pub const COMMA_CLOSING: u128 = 1 << 37;
/// `,` that is not before `)`
pub const COMMA_INNER: u128 = 1 << 16 | COMMA_LAST;
/// `,`
pub const COMMA: u128 = COMMA_MORE | COMMA_LAST;
/// `=`, and `+=` and the like
pub const ASSIGNMENT: u128 = 0b11 << 17;
/// `=`
pub const EQUAL: u128 = 1 << 17;
/// `.`
pub const DOT: u128 = 1 << 19;
/// `np` before `.newaxis`
pub const NP_NEWAXIS: u128 = 1 << 32;
/// `np` before `.save`
pub const NP_SAVE: u128 = 1 << 35;
/// `np` that is not before `.newaxis`
pub const NP_NO_NEWAXIS: u128 = 1 << 20 | NP_SAVE;
/// `np` that is not before `.save`
pub const NP_NO_SAVE: u128 = 1 << 20 | NP_NEWAXIS;
/// `np`
pub const NP: u128 = NP_NO_NEWAXIS | NP_NEWAXIS;
/// `abs`
pub const ABS: u128 = 1 << 33;
/// `buffer`
pub const BUFFER: u128 = 1 << 34;
/// `print`
pub const PRINT: u128 = 1 << 21;
/// `import`
pub const IMPORT: u128 = 1 << 22;
/// `as`
pub const AS: u128 = 1 << 23;
/// `del`
pub const DEL: u128 = 1 << 24;
/// The end of a statement.
pub const END: u128 = 1 << 25;
/// `:`
pub const COLON: u128 = 1 << 26;
/// `...`
pub const ELLIPSIS: u128 = 1 << 27;
/// `None`
pub const NONE: u128 = 1 << 28;
/// A text in quotes.
pub const QUOTED: u128 = 1 << 29;
/// Any token.
pub const ANY: u128 = u128::MAX;
/// One kind of each name: every third.
const THIRDS: u128 = ((1 << 78) - 1) / 7;
/// A name before neither an operator of assignment nor `(`.
pub const UNBOUND: u128 = THIRDS << 40;
/// A name before an operator of assignment.
pub const BOUND: u128 = THIRDS << 41;
/// A name before `(`.
pub const CALLED: u128 = THIRDS << 42;
/// A name that is not called.
pub const NAME: u128 = UNBOUND | BOUND;
/// A name.
pub const ANY_NAME: u128 = NAME | CALLED;
/// `numpy`, where it is not called.
pub const NUMPY: u128 = 0b011 << 43;
/// `numpy` before `(`.
pub const NUMPY_CALLED: u128 = 0b100 << 43;
/// `newaxis`, where it is not called.
pub const NEWAXIS: u128 = 0b011 << 49;

/// `newaxis`, where it is called.
pub const NEWAXIS_CALLED: u128 = 1 << 51;
/// `arange`
pub const ARANGE: u128 = 0b111 << 46;
/// `zeros`, `ones`
pub const FILL: u128 = 0b111 << 52;
/// `full`
pub const FULL: u128 = 0b111 << 55;
/// `array`
pub const ARRAY: u128 = 0b111 << 58;
/// `broadcast_to`
pub const BROADCAST: u128 = 0b111 << 61;
/// `add`, `multiply`, `minimum`, `maximum`, where they are not called.
pub const UFUNC: u128 = 0b011_011 << 64;
/// `minimum`, `maximum` before `(`.
pub const EXTREMUM: u128 = 0b100 << 67;
/// `absolute`, after `np.` also `abs`.
pub const ABSOLUTE: u128 = 0b111 << 70 | ABS;
/// `load`
pub const LOAD: u128 = 0b111 << 73;
/// `save`
pub const SAVE: u128 = 0b111 << 76;
/// The names of the kinds of numbers.
pub const KIND: u128 = 0b111 << 79;
/// A name that may not follow `np.` in an expression.
pub const NO_FUNCTION: u128 = ANY_NAME
    & !(ARANGE | FILL | FULL | ARRAY | BROADCAST | UFUNC | EXTREMUM | ABSOLUTE | LOAD | KIND);
/// The names of the kinds of numbers, where they are not called.
pub const KIND_PLAIN: u128 = 0b011 << 79;
/// Any other name.
pub const NO_KIND: u128 = ANY_NAME & !KIND_PLAIN;
/// `reduce`
pub const REDUCE: u128 = 0b111 << 103;
/// `accumulate`
pub const ACCUMULATE: u128 = 0b111 << 106;
/// Any other name.
pub const NO_FOLD: u128 = ANY_NAME & !(REDUCE | ACCUMULATE);
/// `T`, where it is not called.
pub const TRANSPOSED: u128 = 0b011 << 82;
/// `transpose`
pub const TRANSPOSE: u128 = 0b111 << 85;
/// `reshape`
pub const RESHAPE: u128 = 0b111 << 88;
/// `copy`
pub const COPY: u128 = 0b111 << 91;
/// `astype`, `view`
pub const CONVERSION: u128 = 0b111 << 94;
/// `sum` and the like.
pub const REDUCTION: u128 = 0b111 << 97;
/// `cumsum`, `cumprod`
pub const ACCUMULATION: u128 = 0b111 << 100;
/// A name that is no method.
pub const NO_METHOD: u128 = ANY_NAME
    & !(TRANSPOSED | TRANSPOSE | RESHAPE | COPY | CONVERSION | REDUCTION | ACCUMULATION);
/// `axis`, where it is not called.
pub const AXIS: u128 = 0b011 << 109;
/// `axis` before an operator of assignment.
pub const AXIS_BOUND: u128 = 0b010 << 109;
/// `axis` before `(`.
pub const AXIS_CALLED: u128 = 0b100 << 109;
/// `keepdims`, where it is not called.
pub const KEEPDIMS: u128 = 0b011 << 112;
/// `keepdims` before an operator of assignment.
pub const KEEPDIMS_BOUND: u128 = 0b010 << 112;
/// `keepdims` before `(`.
pub const KEEPDIMS_CALLED: u128 = 0b100 << 112;
/// `dtype`, where it is not called.
pub const DTYPE: u128 = 0b011 << 115;
/// `dtype` before an operator of assignment.
pub const DTYPE_BOUND: u128 = 0b010 << 115;
/// `dtype` before `(`.
pub const DTYPE_CALLED: u128 = 0b100 << 115;
/// An operand of one token.
pub const OPERAND: u128 = NAME | INTEGER | TRUTH;
/// An operand of one token that is not before an operator of assignment.
pub const PLACE: u128 = UNBOUND | INTEGER | TRUTH;
/// The signs.
pub const SIGN: u128 = MINUS | TILDE;
/// `+`, `-`
pub const SUM: u128 = PLUS | MINUS;
/// What may follow an operand.
pub const SUFFIX: u128 = OPEN_BRACKET | DOT;
/// What an expression begins with.
pub const EXPR: u128 = OPERAND | CALLED | PLUS | NP | ABS | BUFFER | OPEN | SIGN;
/// What an element of a list begins with.
pub const ELEMENT: u128 = EXPR | OPEN_BRACKET;
/// The first tokens of an axis that is not named, where a named one may stand.
pub const FIRST_AXIS: u128 = EXPR & !(AXIS_BOUND | KEEPDIMS_BOUND) | NONE;
/// What a statement begins with.
pub const START: u128 = OPERAND | CALLED | PLUS | NP | ABS | BUFFER | OPEN | PRINT | IMPORT | DEL;

static KEYWORDS: [(&str, u8); 6] = [
    ("True", 1),
    ("False", 1),
    ("import", 22),
    ("as", 23),
    ("del", 24),
    ("None", 28),
];

/// The names that have kinds of their own, with the bit of each.
static NAMES: [(&str, u8); 46] = [
    ("numpy", 43),
    ("arange", 46),
    ("newaxis", 49),
    ("zeros", 52),
    ("ones", 52),
    ("full", 55),
    ("array", 58),
    ("broadcast_to", 61),
    ("add", 64),
    ("multiply", 64),
    ("minimum", 67),
    ("maximum", 67),
    ("absolute", 70),
    ("load", 73),
    ("save", 76),
    ("bool", 79),
    ("bool_", 79),
    ("int8", 79),
    ("int16", 79),
    ("int32", 79),
    ("int64", 79),
    ("uint8", 79),
    ("uint16", 79),
    ("uint32", 79),
    ("uint64", 79),
    ("T", 82),
    ("transpose", 85),
    ("reshape", 88),
    ("copy", 91),
    ("astype", 94),
    ("view", 94),
    ("sum", 97),
    ("prod", 97),
    ("min", 97),
    ("max", 97),
    ("any", 97),
    ("all", 97),
    ("argmin", 97),
    ("argmax", 97),
    ("cumsum", 100),
    ("cumprod", 100),
    ("reduce", 103),
    ("accumulate", 106),
    ("axis", 109),
    ("keepdims", 112),
    ("dtype", 115),
];

fn kind_of_symbol(word: Word) -> u8
    ensures { result ≡ kind_of_symbol (word_of word.entry) }
{
    match word {
        Word::Integer(_) => 0,
        Word::Minus => 2,
        Word::Plus => 3,
        Word::Tilde => 4,
        Word::DoubleStar => 5,
        Word::Star | Word::DoubleSlash | Word::Slash | Word::Percent => 6,
        Word::ShiftLeft | Word::ShiftRight => 7,
        Word::Ampersand => 8,
        Word::Caret => 9,
        Word::Bar => 10,
        Word::Less
        | Word::LessEqual
        | Word::Greater
        | Word::GreaterEqual
        | Word::DoubleEqual
        | Word::NotEqual => 11,
        Word::OpenParen => 12,
        Word::CloseParen => 13,
        Word::OpenBracket => 14,
        Word::CloseBracket => 15,
        Word::Comma => 16,
        Word::Equal => 17,
        Word::PlusEqual
        | Word::MinusEqual
        | Word::StarEqual
        | Word::DoubleStarEqual
        | Word::DoubleSlashEqual
        | Word::SlashEqual
        | Word::PercentEqual
        | Word::ShiftLeftEqual
        | Word::ShiftRightEqual
        | Word::AmpersandEqual
        | Word::BarEqual
        | Word::CaretEqual => 18,
        Word::Dot => 19,
        Word::Np => 20,
        Word::Print => 21,
        Word::End => 25,
        Word::Colon => 26,
        Word::Ellipsis => 27,
        Word::Quoted(_) => 29,
        Word::Abs => 33,
        Word::Buffer => 34,
        _ => 126,
    }
}

/// The kind of a word in the table, `other` for all other words.
fn kind_in(table: &[(&str, u8)], other: u8, word: &str) -> u8
    ensures { result ≡ kind_in (map entry table.now) other word.now }
{
    for (name, kind) in table {
        if word == *name {
            return *kind;
        }
    }
    other
}

#[tactic(auto, unfolding(nd_model::specs::Grammar::Kinds::keyword_kinds))]
fn kind_of_keyword(keyword: &str) -> u8
    ensures { result ≡ kind_in keyword_kinds 126 keyword.now }
{
    kind_in(&KEYWORDS, 126, keyword)
}

#[tactic(auto, unfolding(nd_model::specs::Grammar::Kinds::name_kinds))]
fn kind_of_name(name: &str) -> u8
    ensures { result ≡ kind_in name_kinds 40 name.now }
{
    kind_in(&NAMES, 40, name)
}

/// What a name before these tokens is: 1 before an operator of assignment, 2 before `(`, else 0.
fn before_next(rest: &[Token]) -> u8
    ensures { result ≡ before_next (tokens_of rest.now) }
{
    match rest.first() {
        Some(token) => match kind_of_symbol(token.word) {
            17 | 18 => 1,
            12 => 2,
            _ => 0,
        },
        None => 0,
    }
}

/// Whether the next token is a symbol of this kind.
fn is_before(symbol: u8, rest: &[Token]) -> bool
    ensures { result ≡ is_before symbol (tokens_of rest.now) }
{
    match rest.first() {
        Some(token) => kind_of_symbol(token.word) == symbol,
        None => false,
    }
}

fn is_name(name: &str, word: Word) -> bool
    ensures { result ≡ is_name name.now (word_of word.entry) }
{
    match word {
        Word::Name(text) => text == name,
        _ => false,
    }
}

/// Whether the next tokens are a dot and this name.
fn is_before_name(name: &str, rest: &[Token]) -> bool
    ensures { result ≡ is_before_name name.now (tokens_of rest.now) }
{
    match rest {
        [dot, token, ..] => kind_of_symbol(dot.word) == 19 && is_name(name, token.word),
        _ => false,
    }
}

/// Whether the open bracket has a comma of its own further on.
fn holds_comma(tokens: &[Token]) -> bool
    ensures { result ≡ holds_comma 0 (tokens_of tokens.now) }
{
    let mut depth: u64 = 0;
    for token in tokens {
        match kind_of_symbol(token.word) {
            12 | 14 => depth += 1,
            13 | 15 => {
                if depth == 0 {
                    return false;
                }
                depth -= 1;
            }
            16 => {
                if depth == 0 {
                    return true;
                }
            }
            25 => return false,
            _ => {}
        }
    }
    false
}

/// The kind of a symbol before these tokens.
fn refine(symbol: u8, rest: &[Token]) -> u8
    ensures { result ≡ refined symbol (tokens_of rest.now) }
{
    if symbol == 16 && is_before(15, rest) {
        30
    } else if symbol == 16 && is_before(13, rest) {
        37
    } else if symbol == 12 && is_before(13, rest) {
        31
    } else if symbol == 12 && holds_comma(rest) {
        36
    } else if symbol == 20 && is_before_name("newaxis", rest) {
        32
    } else if symbol == 20 && is_before_name("save", rest) {
        35
    } else {
        symbol
    }
}

fn kind_of_word(word: Word, rest: &[Token]) -> u32
    ensures { result ≡ kind_of_word (word_of word.entry) (tokens_of rest.now) }
{
    match word {
        Word::Name(name) => u32::from(kind_of_name(name)) + u32::from(before_next(rest)),
        Word::Keyword(keyword) => u32::from(kind_of_keyword(keyword)),
        _ => u32::from(refine(kind_of_symbol(word), rest)),
    }
}

/// The kind of a token, by those that follow it. A statement begins in column 1.
fn kind(token: Token, rest: &[Token]) -> u32
    ensures place { result ≡ kind_of (token_of token.entry) (tokens_of rest.now) }
    ensures below { result < 128 }
{
    if token.starts && token.column != 1 {
        127
    } else {
        kind_of_word(token.word, rest)
    }
}

/// The kind of `(`, where a comma of its own does not matter.
fn kind_of_opening(starts: bool, column: usize, rest: &[Token]) -> u32
    ensures place { result ≡ kind_of_opening starts column (tokens_of rest.now) }
    ensures below { result < 128 }
{
    if starts && column != 1 {
        127
    } else if is_before(13, rest) {
        31
    } else {
        12
    }
}

#[tactic(auto, unfolding(nd_model::specs::Grammar::Grammar::has))]
fn has(set: u128, kind: u32) -> bool
    requires { kind < 128 }
    ensures { result ≡ has set kind }
{
    (set >> kind) & 1 == 1
}

fn is_in(token: Token, rest: &[Token], set: u128) -> bool
    ensures { result ≡ has set (kind_of (token_of token.entry) (tokens_of rest.now)) }
{
    match token.word {
        // a set with both kinds of `(` before other than `)`, or with neither, needs no look for a
        // comma
        Word::OpenParen if has(set, 12) == has(set, 36) => {
            has(set, kind_of_opening(token.starts, token.column, rest))
        }
        _ => has(set, kind(token, rest)),
    }
}

/// Returns whether the next token is in the set.
pub fn next_in(tokens: &[Token], set: u128) -> bool
    ensures { result ≡ next_in kind set (tokens_of tokens.now) }
{
    match tokens.split_first() {
        Some((token, rest)) => is_in(*token, rest, set),
        None => false,
    }
}
