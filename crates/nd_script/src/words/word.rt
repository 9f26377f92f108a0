//! `split_word` and `number_of`: the words of a script's line.

ghost use Rattle.std.specs.Prelude.{◌≡◌, ◌∷◌, option_copied};
ghost use Rattle.nd_model.specs.Book.Script.{number_word, words_of};
ghost use Rattle.nd_script.specs.Words.Words.{words_behind};

use itoa::Buffer;

/// Returns the first word, and what follows the space that ends it.
pub fn split_word(text: &str) -> (&str, Option<&str>)
    ensures { words_of text.now ≡ result.0.now ∷ words_behind (option_copied result.1) }
{
    match text.split_once(' ') {
        Some((word, rest)) => (word, Some(rest)),
        None => (text, None),
    }
}

/// Returns the number whose decimal text the word is.
pub fn number_of(word: &str) -> Option<usize>
    ensures { result ≡ number_word word.now }
{
    let number = word.parse::<usize>().ok()?;
    let mut buffer = Buffer::new();
    if buffer.format(number) == word {
        Some(number)
    } else {
        None
    }
}
