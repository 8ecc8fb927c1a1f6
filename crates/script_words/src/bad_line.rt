//! Why a line asks for nothing.
ghost use Rattle.std.specs.Prelude.{◌≡◌, Some};
ghost use Rattle.script_words.specs.Reasons.{reason_text};

use std::fmt;

/// Why a line asks for nothing. Want of memory is none of these: it is no fault of the line.
#[derive(Clone, Copy, PartialEq, Eq, Debug)]
pub enum BadLine {
    NoSuchWord,
    WrongNumberOfWords,
    NoNumber,
    NoHexadecimal,
    NoTimer,
    NoPool,
    NeitherMediaNorSilent,
    NoQueue,
}

impl BadLine {
    /// The reason in a few words.
    fn text(self) -> &'static str
        ensures text_of_the_reason { result.now ≡ reason_text self }
    {
        match self {
            BadLine::NoSuchWord => "no such word",
            BadLine::WrongNumberOfWords => "wrong number of words",
            BadLine::NoNumber => "no number",
            BadLine::NoHexadecimal => "no hexadecimal octets",
            BadLine::NoTimer => "no timer",
            BadLine::NoPool => "no pool",
            BadLine::NeitherMediaNorSilent => "neither media nor silent",
            BadLine::NoQueue => "no queue",
        }
    }
}

impl fmt::Display for BadLine {
    ghost output = { λ reason. Some (reason_text reason) };

    fn fmt<W: fmt::Write>(&self, f: &mut fmt::Formatter<W>) -> fmt::Result {
        f.write_str(self.text())
    }
}
