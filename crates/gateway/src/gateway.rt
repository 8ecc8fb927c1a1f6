ghost use Rattle.std.specs.Prelude.{◌≡◌, true};
ghost use Rattle.calls.specs.Standing.{is_sound};

use call_table::{Table, Trunk};
use pools::Pool;

/// The calls between an exchange and SIP, over a pool of channels of any kind.
#[derive(Drop)]
pub struct Gateway<P: Pool> {
    /// As many digits make a number complete.
    pub(crate) full: usize,
    /// The number of the next call that a SETUP makes; none once the last is used up.
    pub(crate) next: Option<u64>,
    pub(crate) table: Table,
    pub(crate) trunk: Trunk<P>,
    // an INVITE of the gateway's own is out only while its call proceeds, and so has a channel
    ghost sound: { is_sound table.places ≡ true },
}
