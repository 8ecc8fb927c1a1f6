//! Octets as hexadecimal text.
#![tactic(auto)]

ghost use Rattle.std.specs.Prelude.{◌≡◌, ◌<◌, IfSome, IfOk, vec_items};
ghost use Rattle.std.specs.Option.{option_map};
ghost use Rattle.hexadecimal.specs.Text.{is_blank, digit_of, octets_in};

use std::alloc::{AllocError, Global};

fn is_blank(byte: u8) -> bool
    ensures space_or_tab { result ≡ is_blank byte }
{
    byte == b' ' || byte == b'\t'
}

fn digit_of(byte: u8) -> Option<u8>
    ensures value_of_the_digit { result ≡ digit_of byte }
    ensures below_sixteen { IfSome result (λ digit. digit < 16) }
{
    match byte {
        b'0'..=b'9' => Some(byte - b'0'),
        b'A'..=b'F' => Some(byte - b'A' + 10),
        b'a'..=b'f' => Some(byte - b'a' + 10),
        _ => None,
    }
}

/// The octets that the text stands for, or `None` where it is not hexadecimal or has half an octet.
pub fn octets_in(heap: Global, text: &[u8]) -> Result<Option<Vec<u8>>, AllocError>
    ensures two_digits_an_octet { IfOk result (λ o. option_map vec_items o ≡ octets_in text.now) }
{
    let mut octets = Vec::new(heap);
    let mut digits = text
        .iter()
        .filter(|byte| !is_blank(**byte))
        .map(|byte| digit_of(*byte));
    while let Some(high) = digits.next() {
        let Some(high) = high else {
            return Ok(None);
        };
        let Some(Some(low)) = digits.next() else {
            return Ok(None);
        };
        octets.push(high * 16 + low)?;
    }
    Ok(Some(octets))
}
