//! `Token`: a word of a cell's text and where it begins.

/// What a token is.
#[derive(Clone, Copy, Debug)]
pub enum Word<'a> {
    /// A name that is neither reserved nor a keyword.
    Name(&'a str),
    Integer(u64),
    /// The text between two quotes.
    Quoted(&'a str),
    /// A keyword of Python 3.7.
    Keyword(&'a str),
    /// The reserved name `np`.
    Np,
    /// The reserved name `print`.
    Print,
    /// The reserved name `abs`.
    Abs,
    /// The reserved name `buffer`.
    Buffer,
    /// `+`
    Plus,
    /// `-`
    Minus,
    /// `*`
    Star,
    /// `**`
    DoubleStar,
    /// `//`
    DoubleSlash,
    /// `/`
    Slash,
    /// `%`
    Percent,
    /// `<<`
    ShiftLeft,
    /// `>>`
    ShiftRight,
    /// `&`
    Ampersand,
    /// `|`
    Bar,
    /// `^`
    Caret,
    /// `~`
    Tilde,
    /// `<`
    Less,
    /// `<=`
    LessEqual,
    /// `>`
    Greater,
    /// `>=`
    GreaterEqual,
    /// `==`
    DoubleEqual,
    /// `!=`
    NotEqual,
    /// `=`
    Equal,
    /// `+=`
    PlusEqual,
    /// `-=`
    MinusEqual,
    /// `*=`
    StarEqual,
    /// `**=`
    DoubleStarEqual,
    /// `//=`
    DoubleSlashEqual,
    /// `/=`
    SlashEqual,
    /// `%=`
    PercentEqual,
    /// `<<=`
    ShiftLeftEqual,
    /// `>>=`
    ShiftRightEqual,
    /// `&=`
    AmpersandEqual,
    /// `|=`
    BarEqual,
    /// `^=`
    CaretEqual,
    /// `(`
    OpenParen,
    /// `)`
    CloseParen,
    /// `[`
    OpenBracket,
    /// `]`
    CloseBracket,
    /// `,`
    Comma,
    /// `:`
    Colon,
    /// `.`
    Dot,
    /// `...`
    Ellipsis,
    /// `;`
    Semicolon,
    /// `@`
    At,
    /// `:=`
    ColonEqual,
    /// The end of a statement.
    End,
}

/// A token, and where it begins: line and column in bytes, both from 1. The end of a statement lies
/// just behind its last token.
#[derive(Clone, Copy)]
pub struct Token<'a> {
    pub word: Word<'a>,
    pub line: usize,
    pub column: usize,
    /// Whether it is the first of its statement.
    pub starts: bool,
}

/// The first byte of a text that begins no token: its line and column in bytes, both from 1.
#[derive(Clone, Copy)]
pub struct BadToken {
    pub line: usize,
    pub column: usize,
}
