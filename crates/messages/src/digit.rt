//! The digits of a called number.
ghost use Rattle.std.specs.Prelude.{◌≡◌};
ghost use Rattle.messages.specs.Elements.{is_digit, all_digits};

/// Whether an octet is one of 0 to 9, * and # in ASCII.
fn is_digit(octet: u8) -> bool
    ensures a_digit { result ≡ is_digit octet }
{
    matches!(octet, b'0'..=b'9' | b'*' | b'#')
}

/// Whether each octet is a digit.
pub fn all_digits(octets: &[u8]) -> bool
    ensures each_a_digit { result ≡ all_digits octets.now }
{
    octets.iter().all(|octet| is_digit(*octet))
}
