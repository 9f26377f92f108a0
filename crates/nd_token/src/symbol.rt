//! `symbol_at`: operators and brackets, of which the longest one is taken.
ghost use Rattle.std.specs.Prelude.{◌≡◌, map};
ghost use Rattle.std.specs.Option.{option_map};
ghost use Rattle.nd_model.specs.Grammar.Lexing.{first_of, symbol_at};
ghost use Rattle.nd_token.specs.Tokens.{entry, lexed};

use crate::token::Word;

// All symbols, the longer ones first.
static SYMBOLS: [(&[u8], Word<'static>); 43] = [
    (b"**=", Word::DoubleStarEqual),
    (b"//=", Word::DoubleSlashEqual),
    (b"<<=", Word::ShiftLeftEqual),
    (b">>=", Word::ShiftRightEqual),
    (b"...", Word::Ellipsis),
    (b"**", Word::DoubleStar),
    (b"//", Word::DoubleSlash),
    (b"<<", Word::ShiftLeft),
    (b">>", Word::ShiftRight),
    (b"<=", Word::LessEqual),
    (b">=", Word::GreaterEqual),
    (b"==", Word::DoubleEqual),
    (b"!=", Word::NotEqual),
    (b"+=", Word::PlusEqual),
    (b"-=", Word::MinusEqual),
    (b"*=", Word::StarEqual),
    (b"/=", Word::SlashEqual),
    (b"%=", Word::PercentEqual),
    (b"&=", Word::AmpersandEqual),
    (b"|=", Word::BarEqual),
    (b"^=", Word::CaretEqual),
    (b":=", Word::ColonEqual),
    (b"+", Word::Plus),
    (b"-", Word::Minus),
    (b"*", Word::Star),
    (b"/", Word::Slash),
    (b"%", Word::Percent),
    (b"&", Word::Ampersand),
    (b"|", Word::Bar),
    (b"^", Word::Caret),
    (b"~", Word::Tilde),
    (b"<", Word::Less),
    (b">", Word::Greater),
    (b"=", Word::Equal),
    (b"(", Word::OpenParen),
    (b")", Word::CloseParen),
    (b"[", Word::OpenBracket),
    (b"]", Word::CloseBracket),
    (b",", Word::Comma),
    (b":", Word::Colon),
    (b".", Word::Dot),
    (b";", Word::Semicolon),
    (b"@", Word::At),
];

// The first of these symbols that begins the text, and the number of its bytes.
fn first_of(symbols: &[(&[u8], Word<'static>)], text: &[u8]) -> Option<(Word<'static>, usize)>
    ensures { option_map lexed result ≡ first_of (map entry symbols.now) text.now }
{
    for (bytes, word) in symbols {
        if text.starts_with(bytes) {
            return Some((*word, bytes.len()));
        }
    }
    None
}

#[tactic(auto, unfolding(nd_model::specs::Grammar::Lexing::symbols))]
/// Returns the longest symbol that begins the text, and the number of its bytes.
pub(crate) fn symbol_at(text: &[u8]) -> Option<(Word<'static>, usize)>
    ensures { option_map lexed result ≡ symbol_at text.now }
{
    first_of(&SYMBOLS, text)
}
