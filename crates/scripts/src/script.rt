//! A whole script: its lines, in sections that each begin with an opening.
ghost use Rattle.gateway.specs.Stands.{Begins};
ghost use Rattle.scripts.specs.Kept.{AllIdle};

use crate::play::Play;
use gateway::{Gateway, Outgoing};
use link_pool::LinkPool;
use pools::Pool;
use script_lines::{Line, Opening, PoolKind, lines_of, print_refused, print_unopened};
use std::io;
use turn_pool::TurnPool;

/// Lines on an open gateway, and its ledger.
fn play_opened<P: Pool + Drop>(
    rt: &(impl Print + AllocGlobal),
    gateway: Gateway<P>,
    opening: &Opening,
    lines: &[Line<'_>],
) -> io::Result<()>
    requires at_its_opening { Begins P.Pool.state gateway }
    requires all_channels_are_idle { AllIdle (P.Pool.state gateway.trunk.pool) }
{
    let mut exchange_places = vec![in rt.alloc(); None; opening.exchange_places]?;
    let mut sip_places = vec![in rt.alloc(); None; opening.sip_places]?;
    let queues = Outgoing::new(exchange_places.as_mut_slice(), sip_places.as_mut_slice());
    println!(rt; "= {opening}")?;
    let play = Play::new(rt.alloc(), gateway, queues).play(rt, lines)?;
    play.close(rt)
}

/// A gateway over a pool, and the lines below its opening. Answers whether it was opened.
fn play_over<P: Pool + Drop>(
    rt: &(impl Print + AllocGlobal),
    pool: P,
    opening: &Opening,
    lines: &[Line<'_>],
) -> io::Result<bool>
    requires all_channels_are_idle { AllIdle (P.Pool.state pool) }
{
    match Gateway::open(opening.length, opening.first, pool) {
        Ok(gateway) => {
            play_opened(rt, gateway, opening, lines)?;
            Ok(true)
        }
        Err(ground) => {
            print_refused(rt, ground, lines)?;
            Ok(false)
        }
    }
}

/// An opening and the lines below it. Answers whether a gateway was opened.
fn play_opening(
    rt: &(impl Print + AllocGlobal),
    opening: &Opening,
    lines: &[Line<'_>],
) -> io::Result<bool> {
    match &opening.pool {
        PoolKind::Link => play_over(rt, LinkPool::new(), opening, lines),
        PoolKind::Turn(list) => match TurnPool::new(list.as_slice()) {
            Ok(pool) => play_over(rt, pool, opening, lines),
            Err(ground) => {
                print_refused(rt, ground, lines)?;
                Ok(false)
            }
        },
    }
}

/// The lines from an opening up to the next, or those above the first. Answers whether a gateway was opened.
fn play_section(rt: &(impl Print + AllocGlobal), lines: &[Line<'_>]) -> io::Result<bool> {
    if let Some((first, below)) = lines.split_first() {
        if let Some(opening) = first.opening() {
            first.echo(rt)?;
            return play_opening(rt, opening, below);
        }
    }
    print_unopened(rt, lines)?;
    Ok(false)
}

/// Plays a script and prints its lines, their answers and a ledger for each gateway.
pub fn play_script(rt: &(impl Print + AllocGlobal), text: &str) -> io::Result<()> {
    let lines = lines_of(rt.alloc(), text)?;
    let mut opened = false;
    for section in lines.chunk_by(|_, next| next.opening().is_none()) {
        opened |= play_section(rt, section)?;
    }
    if !opened {
        println!(rt; "no gateway was opened")?;
    }
    Ok(())
}
