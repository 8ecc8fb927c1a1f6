ghost use Rattle.std.specs.Prelude.{◌≡◌};
ghost use Rattle.pools.specs.States.{known, idle, seized};

// Not an `Option` round a flag: a further known state joins as one more case here.
/// What a pool holds a channel number to be.
#[derive(Clone, Copy, PartialEq, Eq, Debug)]
pub enum ChannelState {
    Unknown,
    Idle,
    Seized,
}

impl ChannelState {
    /// Is it one of the pool's channels?
    pub fn is_known(self) -> bool
        ensures yes_exactly_if_known { result ≡ known self }
    {
        self != ChannelState::Unknown
    }

    /// May it be seized?
    pub fn is_idle(self) -> bool
        ensures yes_exactly_if_idle { result ≡ idle self }
    {
        self == ChannelState::Idle
    }

    /// May it be released?
    pub fn is_seized(self) -> bool
        ensures yes_exactly_if_seized { result ≡ seized self }
    {
        self == ChannelState::Seized
    }
}
