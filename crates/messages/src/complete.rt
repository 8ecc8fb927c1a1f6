ghost use Rattle.std.specs.Prelude.{◌≡◌};
ghost use Rattle.messages.specs.Reading.{lacking};

use crate::kind::MessageType;
use crate::record::Elements;

impl<D> Elements<D> {
    /// Whether these elements leave out what a message of this type must have: a SETUP names a channel and a called number.
    pub fn lack_for(&self, kind: MessageType) -> bool
        ensures setup_without_channel_or_number { result ≡ lacking kind self.now }
    {
        kind.is_setup() && (self.channel.is_none() || self.digits.is_none())
    }
}
