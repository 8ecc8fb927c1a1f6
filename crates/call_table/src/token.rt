ghost use Rattle.std.specs.Prelude.{◌≡◌};

/// A channel that is seized and stands in no call. It is entered at one place or released: with neither `Drop` nor `Copy`
/// it cannot be let go or entered twice.
pub struct Token {
    pub(crate) channel: u8,
}

impl Token {
    /// The number of the channel.
    pub fn channel(&self) -> u8
        ensures answers_its_channel { result ≡ self.now.channel }
    {
        self.channel
    }
}
