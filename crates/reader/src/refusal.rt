ghost use Rattle.std.specs.Prelude.{◌≡◌};
ghost use Rattle.messages.specs.Reading.{refuse};

use messages::Misread;
use refusals::Ground;

/// No reading: why, and at which octet.
pub fn refuse<T>(ground: Ground, place: usize) -> Result<T, Misread>
    ensures with_place { result ≡ refuse ground place }
{
    Err(Misread { ground, place })
}
