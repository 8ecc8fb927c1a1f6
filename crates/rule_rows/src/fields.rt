//! The fields of messages and calls: digits, causes, and the elements of a message.
use crate::bad_line::BadLine;
use calls::Digits;
use digits::{Dialled, recorded};
use messages::{Cause, Elements, Part};

/// A dash stands for no digits.
pub fn octets_of(word: &str) -> &[u8] {
    if word == "-" { &[] } else { word.as_bytes() }
}

pub fn digits_of(word: &str) -> Result<Digits, BadLine> {
    Dialled::new(octets_of(word))
        .map(recorded)
        .ok_or(BadLine::TooManyDigits)
}

/// A cause and its location, as `28@5`.
pub fn cause_of(word: &str) -> Result<Cause, BadLine> {
    let (value, location) = word.split_once('@').ok_or(BadLine::NoCause)?;
    Ok(Cause {
        value: value.parse()?,
        location: location.parse()?,
    })
}

fn part_of(digits: &str) -> Part<'_> {
    Part {
        place: 0,
        octets: octets_of(digits),
    }
}

/// The elements with one more field.
fn with_field<'a>(
    elements: Elements<Part<'a>>,
    word: &'a str,
) -> Result<Elements<Part<'a>>, BadLine> {
    match word.split_once('=') {
        Some(("cause", cause)) => Ok(Elements {
            cause: Some(cause_of(cause)?),
            ..elements
        }),
        Some(("digits", digits)) => Ok(Elements {
            digits: Some(part_of(digits)),
            ..elements
        }),
        None if word == "complete" => Ok(Elements {
            complete: true,
            ..elements
        }),
        _ => Err(BadLine::NoField),
    }
}

/// The fields of a message, in any order.
pub fn elements_of<'a>(words: &[&'a str]) -> Result<Elements<Part<'a>>, BadLine> {
    words.iter().try_fold(Elements::bare(), |elements, word| {
        with_field(elements, word)
    })
}
