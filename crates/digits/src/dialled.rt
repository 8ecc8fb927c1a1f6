//! Digits that can be kept: at most 20. They are tested once, where they come in, and every later step takes them as such.
ghost use Rattle.std.specs.Prelude.{◌≡◌, ◌≤◌, length};

/// At most 20 digits, as they came.
#[derive(Clone, Copy)]
pub struct Dialled<'a> {
    pub octets: &'a [u8],
    ghost few: { length octets.now ≤ 20 },
}
