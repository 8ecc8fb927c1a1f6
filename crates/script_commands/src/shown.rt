//! What people read of an opening.
ghost use Rattle.std.specs.Prelude.{Some, flat_map};
ghost use Rattle.std.specs.Fmt.{WritesOnOk};
ghost use Rattle.script_commands.specs.Shown.{next_text, channels_text, pool_text, opening_text};

use crate::command::{Opening, PoolKind};
use std::fmt;

impl fmt::Display for Opening {
    ghost output = { λ opening. Some (opening_text opening) };

    fn fmt<W: fmt::Write>(&self, f: &mut fmt::Formatter<W>) -> fmt::Result {
        write!(
            f,
            "opened {} length={} first={} exchange-places={} sip-places={}",
            self.pool, self.length, self.first, self.exchange_places, self.sip_places
        )
    }
}

impl fmt::Display for PoolKind {
    ghost output = { λ pool. Some (pool_text pool) };

    fn fmt<W: fmt::Write>(&self, f: &mut fmt::Formatter<W>) -> fmt::Result {
        match self {
            PoolKind::Link => f.write_str("link"),
            PoolKind::Turn(channels) => {
                f.write_str("turn")?;
                show_channels(f, channels.as_slice())
            }
        }
    }
}

fn show_channels<W: fmt::Write>(f: &mut fmt::Formatter<W>, channels: &[u8]) -> fmt::Result
    ensures all_in_their_order { WritesOnOk W.write_str_gives f.old result (channels_text channels.now) f.new }
{
    let [first, more @ ..] = channels else {
        return Ok(());
    };
    write!(f, " {first}")?;
    show_more(f, more)
}

fn show_more<W: fmt::Write>(f: &mut fmt::Formatter<W>, channels: &[u8]) -> fmt::Result
    ensures a_comma_before_each { WritesOnOk W.write_str_gives f.old result (flat_map next_text channels.now) f.new }
{
    for channel in channels {
        write!(f, ",{channel}")?;
    }
    Ok(())
}
