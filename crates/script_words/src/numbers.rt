//! Words that are decimal numbers.
ghost use Rattle.std.specs.Prelude.{◌≡◌, ◌^◌};
ghost use Rattle.std.specs.Option.{ok_or};
ghost use Rattle.script_words.specs.Numbers.{number_below};

use crate::bad_line::BadLine;

/// A number up to 18446744073709551615. Refused: anything else, with `NoNumber`.
pub fn number_of(word: &str) -> Result<u64, BadLine>
    ensures number_of_the_word { result ≡ ok_or (number_below (2 ^ 64) word.now) BadLine.NoNumber }
{
    word.parse::<u64>().ok().ok_or(BadLine::NoNumber)
}

/// How many of something, up to 18446744073709551615. Refused: anything else, with `NoNumber`.
pub fn count_of(word: &str) -> Result<usize, BadLine>
    ensures number_of_the_word { result ≡ ok_or (number_below (2 ^ 64) word.now) BadLine.NoNumber }
{
    word.parse::<usize>().ok().ok_or(BadLine::NoNumber)
}

/// A number up to 65535. Refused: anything else, with `NoNumber`.
pub fn short_of(word: &str) -> Result<u16, BadLine>
    ensures number_of_the_word { result ≡ ok_or (number_below (2 ^ 16) word.now) BadLine.NoNumber }
{
    word.parse::<u16>().ok().ok_or(BadLine::NoNumber)
}

/// A number up to 255, or `None` for anything else.
pub fn octet_of(word: &str) -> Option<u8>
    ensures number_of_the_word { result ≡ number_below (2 ^ 8) word.now }
{
    word.parse::<u8>().ok()
}
