//! Lists of channel numbers.
ghost use Rattle.std.specs.Prelude.{◌≡◌, IfOk, map, vec_items};
ghost use Rattle.std.specs.Option.{option_map};
ghost use Rattle.script_words.specs.Channels.{octets_of, channels_of};

use crate::numbers::octet_of;
use std::alloc::{AllocError, Global};

/// The parts of a list as numbers up to 255, or `None` where one is none.
fn octets_of(heap: Global, parts: &[&str]) -> Result<Option<Vec<u8>>, AllocError>
    ensures all_are_numbers { IfOk result (λ octets. option_map vec_items octets ≡ octets_of (map (λ part. part.now) parts.now)) }
{
    let mut octets = Vec::new(heap);
    for part in parts {
        let Some(octet) = octet_of(part) else {
            return Ok(None);
        };
        octets.push(octet)?;
    }
    Ok(Some(octets))
}

/// Numbers up to 255 with commas between them, or `None` for any other text. Refused: want of memory alone.
pub fn channels_of(heap: Global, list: &str) -> Result<Option<Vec<u8>>, AllocError>
    ensures numbers_between_commas { IfOk result (λ channels. option_map vec_items channels ≡ channels_of list.now) }
{
    let parts: Vec<&str> = list.split(',').collect(heap)?;
    octets_of(heap, parts.as_slice())
}
