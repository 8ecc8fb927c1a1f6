//! What a pool of any kind is tried by: steps, played one after the other.
use pools::Pool;

/// One call to a pool, or the same call for each channel of a list, with what it has to answer.
#[derive(Clone, Copy)]
pub enum Step {
    Largest(u8),
    Idle(u8, bool),
    Seize(u8, bool),
    SeizeAny(Option<u8>),
    Release(u8, bool),
    /// Each channel is idle.
    AllIdle(&'static [u8]),
    /// The pool chooses these channels, in this order.
    SeizeInTurn(&'static [u8]),
    /// Each channel is seized, and is released.
    ReleaseAll(&'static [u8]),
}

fn all_idle<P: Pool>(pool: &P, channels: &[u8]) -> bool {
    for channel in channels {
        if !pool.is_idle(*channel) {
            return false;
        }
    }
    true
}

fn seized_in_turn<P: Pool>(pool: &mut P, channels: &[u8]) -> bool {
    for channel in channels {
        if pool.seize_any() != Some(*channel) {
            return false;
        }
    }
    true
}

fn all_released<P: Pool>(pool: &mut P, channels: &[u8]) -> bool {
    for channel in channels {
        if !pool.release(*channel) {
            return false;
        }
    }
    true
}

fn goes_as_said<P: Pool>(pool: &mut P, step: Step) -> bool {
    match step {
        Step::Largest(said) => P::LARGEST == said,
        Step::Idle(channel, said) => pool.is_idle(channel) == said,
        Step::Seize(channel, said) => pool.seize(channel) == said,
        Step::SeizeAny(said) => pool.seize_any() == said,
        Step::Release(channel, said) => pool.release(channel) == said,
        Step::AllIdle(channels) => all_idle(pool, channels),
        Step::SeizeInTurn(channels) => seized_in_turn(pool, channels),
        Step::ReleaseAll(channels) => all_released(pool, channels),
    }
}

/// Plays the steps up to the first that goes otherwise than it says, and answers which of them that is.
pub fn goes_otherwise<P: Pool>(pool: &mut P, steps: &[Step]) -> Option<usize> {
    for (at, step) in steps.iter().enumerate() {
        if !goes_as_said(pool, *step) {
            return Some(at);
        }
    }
    None
}
