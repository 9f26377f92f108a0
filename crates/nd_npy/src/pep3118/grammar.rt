//! `byte_kind` and `read_roles`: the grammar of format strings.
ghost use Rattle.std.specs.Prelude.{◌≡◌, ◌≤◌, ◌||◌, IfOk, length};
ghost use Rattle.nd_grammar.specs.Reads.{seen};
ghost use Rattle.nd_model.specs.Formats.RuleReading.{reading};
ghost use Rattle.nd_model.specs.Arrays.Structure as structure;
ghost use Rattle.nd_model.specs.Formats.FormatGrammar as model;
ghost use Rattle.nd_npy.specs.Pep3118.Gives.{kind_number};

use nd_grammar::{Kinds, Reading, Rule};
use std::alloc::{AllocError, Global};

// The kinds of bytes that the grammar tells apart.
#[derive(Clone, Copy)]
enum ByteKind {
    Order,
    Code,
    Cross,
    Digit,
    Tee,
    Open,
    Close,
    Colon,
    Space,
    /// 194, which begins U+0080 to U+00BF in UTF-8.
    Lead,
    /// What stands in names alone.
    Plain,
    /// 128 to 159, which end a control character of two bytes where 194 comes before.
    Tail,
    /// What stands nowhere.
    Barred,
}

/// The role of a byte in a format.
#[derive(Clone, Copy)]
pub enum Role {
    Order,
    /// The code of a format that is no structure.
    Single,
    /// The code of a field.
    Code,
    /// The colon before a name.
    Colon,
    Name,
    NameEnd,
    Digit,
    Pad,
    Tee,
    Open,
    Close,
    Space,
}

fn is_order(byte: u8) -> bool
    ensures { result ≡ model.is_order byte }
{
    matches!(byte, b'@' | b'^' | b'=' | b'<' | b'>' | b'!')
}

fn is_code(byte: u8) -> bool
    ensures { result ≡ model.is_code byte }
{
    matches!(
        byte,
        b'?' | b'b' | b'B' | b'h' | b'H' | b'i' | b'I' | b'q' | b'Q' | b'l' | b'L'
    )
}

// Whether a byte is a control character, or a mark that no name has.
fn is_barred(byte: u8) -> bool
    ensures { result ≡ (structure.is_control 0 byte || structure.is_mark byte) }
{
    byte < 32 || byte == 127 || matches!(byte, b':' | b'"' | b'\'' | b'\\')
}

fn kind_of(byte: u8) -> ByteKind
    ensures { kind_number result ≡ model.byte_kind byte }
{
    if is_order(byte) {
        ByteKind::Order
    } else if is_code(byte) {
        ByteKind::Code
    } else if byte == b'x' {
        ByteKind::Cross
    } else if byte.is_ascii_digit() {
        ByteKind::Digit
    } else if byte == b'T' {
        ByteKind::Tee
    } else if byte == b'{' {
        ByteKind::Open
    } else if byte == b'}' {
        ByteKind::Close
    } else if byte == b':' {
        ByteKind::Colon
    } else if byte == b' ' {
        ByteKind::Space
    } else if byte == 194 {
        ByteKind::Lead
    } else if 128 <= byte && byte <= 159 {
        ByteKind::Tail
    } else if is_barred(byte) {
        ByteKind::Barred
    } else {
        ByteKind::Plain
    }
}

/// Returns the number of the kind of a byte.
pub fn byte_kind(byte: u8) -> u8
    ensures { result ≡ model.byte_kind byte }
{
    kind_of(byte) as u8
}

const ORDER: Kinds = 1 << ByteKind::Order as u8;

const CODE: Kinds = 1 << ByteKind::Code as u8;

const CROSS: Kinds = 1 << ByteKind::Cross as u8;

const DIGIT: Kinds = 1 << ByteKind::Digit as u8;

const TEE: Kinds = 1 << ByteKind::Tee as u8;

const OPEN: Kinds = 1 << ByteKind::Open as u8;

const CLOSE: Kinds = 1 << ByteKind::Close as u8;

const COLON: Kinds = 1 << ByteKind::Colon as u8;

const SPACE: Kinds = 1 << ByteKind::Space as u8;

const LEAD: Kinds = 1 << ByteKind::Lead as u8;

const PLAIN: Kinds = 1 << ByteKind::Plain as u8;
// the kinds that begin a character of a name, and those of them that need no second byte
const NAME: Kinds = (1 << ByteKind::Barred as u8) - 1 - COLON;

const NAME_BYTE: Kinds = NAME - LEAD;
// the kinds that begin a pad or an order character, and these or a field
const LEADING: Kinds = ORDER + CROSS + DIGIT;

const ITEM: Kinds = LEADING + CODE;

const SPACES_RULE: Rule<'static> = Rule::Many(SPACE, &Rule::One(Role::Space as u8, SPACE));

const ORDER_RULE: Rule<'static> = Rule::Then(&Rule::One(Role::Order as u8, ORDER), &SPACES_RULE);

const CROSS_RULE: Rule<'static> = Rule::One(Role::Pad as u8, CROSS);

const DIGIT_RULE: Rule<'static> = Rule::One(Role::Digit as u8, DIGIT);

const MANY_PADS: Rule<'static> = Rule::Then(
    &DIGIT_RULE,
    &Rule::Then(&Rule::Many(DIGIT, &DIGIT_RULE), &CROSS_RULE),
);

const PAD_RULE: Rule<'static> = Rule::Then(&Rule::Or(DIGIT, &MANY_PADS, &CROSS_RULE), &SPACES_RULE);

const NAME_PART: Rule<'static> = Rule::Or(
    LEAD,
    &Rule::Then(
        &Rule::One(Role::Name as u8, LEAD),
        &Rule::One(Role::Name as u8, PLAIN),
    ),
    &Rule::One(Role::Name as u8, NAME_BYTE),
);

const NAME_RULE: Rule<'static> = Rule::Then(&NAME_PART, &Rule::Many(NAME, &NAME_PART));

const FIELD_RULE: Rule<'static> = Rule::Then(
    &Rule::One(Role::Code as u8, CODE),
    &Rule::Then(
        &Rule::One(Role::Colon as u8, COLON),
        &Rule::Then(
            &NAME_RULE,
            &Rule::Then(&Rule::One(Role::NameEnd as u8, COLON), &SPACES_RULE),
        ),
    ),
);

const ITEMS: Rule<'static> = Rule::Then(
    &Rule::Many(LEADING, &Rule::Or(ORDER, &ORDER_RULE, &PAD_RULE)),
    &Rule::Then(
        &FIELD_RULE,
        &Rule::Many(
            ITEM,
            &Rule::Or(ORDER, &ORDER_RULE, &Rule::Or(CODE, &FIELD_RULE, &PAD_RULE)),
        ),
    ),
);

const STRUCTURE: Rule<'static> = Rule::Then(
    &Rule::One(Role::Tee as u8, TEE),
    &Rule::Then(
        &Rule::One(Role::Open as u8, OPEN),
        &Rule::Then(
            &SPACES_RULE,
            &Rule::Then(&ITEMS, &Rule::One(Role::Close as u8, CLOSE)),
        ),
    ),
);

const FORMAT: Rule<'static> = Rule::Then(
    &Rule::Many(ORDER, &ORDER_RULE),
    &Rule::Or(TEE, &STRUCTURE, &Rule::One(Role::Single as u8, CODE)),
);

/// Returns the roles of the bytes of a format, or of its longest front, by their kinds.
#[tactic(auto, unfolding(nd_model::specs::Formats::FormatGrammar::format))]
pub fn read_roles(alloc: Global, kinds: &[u8]) -> Result<Reading, AllocError>
    ensures read { IfOk result (λ r. (r.roles.items, r.whole) ≡ seen (reading model.format
        kinds.now)) }
    ensures within { IfOk result (λ r. length r.roles.items ≤ length kinds.now) }
{
    nd_grammar::read(alloc, &FORMAT, kinds)
}
