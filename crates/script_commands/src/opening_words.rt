//! The opening that the words behind `open` ask for.
ghost use Rattle.std.specs.Prelude.{◌≡◌, IfOk, map};
ghost use Rattle.script_commands.specs.Parts.{seen};
ghost use Rattle.script_commands.specs.Openings.{settings_of, pool_of, settings_with, settings, turn, open_with};

use crate::command::{Opening, PoolKind};
use script_words::{BadLine, channels_of, count_of, number_of};
use std::alloc::{AllocError, Global};

fn opening_with(
    pool: PoolKind,
    length: &str,
    first: &str,
    exchange_places: &str,
    sip_places: &str,
) -> Result<Opening, BadLine>
    ensures opening_of_the_words { seen settings_of result ≡ settings_with (pool_of pool) length.now first.now exchange_places.now sip_places.now }
{
    Ok(Opening {
        length: count_of(length)?,
        first: number_of(first)?,
        exchange_places: count_of(exchange_places)?,
        sip_places: count_of(sip_places)?,
        pool,
    })
}

/// An opening over this pool, with the settings behind it.
fn opening_of(pool: PoolKind, words: &[&str]) -> Result<Opening, BadLine>
    ensures opening_of_the_words { seen settings_of result ≡ settings (pool_of pool) (map (λ word. word.now) words.now) }
{
    let [length, first, exchange_places, sip_places] = words else {
        return Err(BadLine::WrongNumberOfWords);
    };
    opening_with(pool, length, first, exchange_places, sip_places)
}

/// An opening over channels that take turns: their list, and the settings behind it.
fn turn(heap: Global, words: &[&str]) -> Result<Result<Opening, BadLine>, AllocError>
    ensures opening_of_the_words { IfOk result (λ asked. seen settings_of asked ≡ turn (map (λ word. word.now) words.now)) }
{
    let [list, settings @ ..] = words else {
        return Ok(Err(BadLine::WrongNumberOfWords));
    };
    let Some(channels) = channels_of(heap, list)? else {
        return Ok(Err(BadLine::NoPool));
    };
    Ok(opening_of(PoolKind::Turn(channels), settings))
}

/// An opening: `link` or `turn`, and what stands behind it. Refused: want of memory alone.
pub(crate) fn open(heap: Global, words: &[&str]) -> Result<Result<Opening, BadLine>, AllocError>
    ensures opening_of_the_words { IfOk result (λ asked. seen settings_of asked ≡ open_with (map (λ word. word.now) words.now)) }
{
    let [pool, rest @ ..] = words else {
        return Ok(Err(BadLine::WrongNumberOfWords));
    };
    match *pool {
        "link" => Ok(opening_of(PoolKind::Link, rest)),
        "turn" => turn(heap, rest),
        _ => Ok(Err(BadLine::NoPool)),
    }
}
