//! Words that say one of two things.
ghost use Rattle.std.specs.Prelude.{◌≡◌};
ghost use Rattle.script_words.specs.Switches.{flag_of, media_of};

use crate::bad_line::BadLine;

/// The flag of a reference: `0` or `1`. Refused: anything else, with `NoNumber`.
pub fn flag_of(word: &str) -> Result<bool, BadLine>
    ensures zero_or_one { result ≡ flag_of word.now }
{
    match word {
        "0" => Ok(false),
        "1" => Ok(true),
        _ => Err(BadLine::NoNumber),
    }
}

/// Whether a response has media: `media` or `silent`. Refused: anything else, with `NeitherMediaNorSilent`.
pub fn media_of(word: &str) -> Result<bool, BadLine>
    ensures media_or_silent { result ≡ media_of word.now }
{
    match word {
        "media" => Ok(true),
        "silent" => Ok(false),
        _ => Err(BadLine::NeitherMediaNorSilent),
    }
}
