//! The event that the words behind each first word ask for.
ghost use Rattle.std.specs.Prelude.{◌≡◌, IfOk, map, vec_items, option_map};
ghost use Rattle.std.specs.List.{concat};
ghost use Rattle.hexadecimal.specs.Text.{octets_in};
ghost use Rattle.events.specs.Events.{event_of};
ghost use Rattle.script_commands.specs.Parts.{seen};
ghost use Rattle.script_commands.specs.Events as events;

use crate::timers::timer_of;
use calls::Response;
use events::Event;
use hexadecimal::octets_in;
use messages::CallReference;
use script_words::{BadLine, flag_of, media_of, number_of, short_of};
use std::alloc::{AllocError, Global};

/// A dash stands for no digits at all.
fn digits_of(heap: Global, word: &str) -> Result<Vec<u8>, AllocError>
    ensures dash_or_digits { IfOk result (λ digits. digits.items ≡ events.digits_of word.now) }
{
    let digits = if word == "-" { "" } else { word };
    Vec::from_slice(heap, digits.as_bytes())
}

/// The octets that all words together write.
fn octets_of(heap: Global, words: &[&str]) -> Result<Option<Vec<u8>>, AllocError>
    ensures octets_of_all_words { IfOk result (λ octets. option_map vec_items octets ≡ octets_in (concat (map (λ word. word.now) words.now))) }
{
    let text = words.concat(heap)?;
    octets_in(heap, text.as_bytes())
}

/// A message from the exchange, in hexadecimal: all words together.
pub(crate) fn exchange(heap: Global, words: &[&str]) -> Result<Result<Event, BadLine>, AllocError>
    ensures event_of_the_words { IfOk result (λ asked. seen event_of asked ≡ events.exchange (map (λ word. word.now) words.now)) }
{
    if words.is_empty() {
        return Ok(Err(BadLine::WrongNumberOfWords));
    }
    let octets = octets_of(heap, words)?;
    Ok(
        octets
            .map(|octets| Event::Exchange { octets })
            .ok_or(BadLine::NoHexadecimal),
    )
}

fn invite_with(transaction: &str, dialogue: &str, digits: Vec<u8>) -> Result<Event, BadLine>
    ensures event_of_the_words { seen event_of result ≡ events.invite_with transaction.now dialogue.now (vec_items digits) }
{
    Ok(Event::Invite {
        transaction: number_of(transaction)?,
        dialogue: number_of(dialogue)?,
        digits,
    })
}

/// An INVITE: its transaction, its dialogue and its digits.
pub(crate) fn invite(heap: Global, words: &[&str]) -> Result<Result<Event, BadLine>, AllocError>
    ensures event_of_the_words { IfOk result (λ asked. seen event_of asked ≡ events.invite (map (λ word. word.now) words.now)) }
{
    let [transaction, dialogue, digits] = words else {
        return Ok(Err(BadLine::WrongNumberOfWords));
    };
    let digits = digits_of(heap, digits)?;
    Ok(invite_with(transaction, dialogue, digits))
}

/// A CANCEL: its transaction.
pub(crate) fn cancel(words: &[&str]) -> Result<Event, BadLine>
    ensures event_of_the_words { seen event_of result ≡ events.cancel (map (λ word. word.now) words.now) }
{
    let [transaction] = words else {
        return Err(BadLine::WrongNumberOfWords);
    };
    Ok(Event::Cancel {
        transaction: number_of(transaction)?,
    })
}

/// A BYE: its dialogue.
pub(crate) fn bye(words: &[&str]) -> Result<Event, BadLine>
    ensures event_of_the_words { seen event_of result ≡ events.bye (map (λ word. word.now) words.now) }
{
    let [dialogue] = words else {
        return Err(BadLine::WrongNumberOfWords);
    };
    Ok(Event::Bye {
        dialogue: number_of(dialogue)?,
    })
}

fn response_with(number: &str, status: &str, dialogue: &str, media: &str) -> Result<Event, BadLine>
    ensures event_of_the_words { seen event_of result ≡ events.response_with number.now status.now dialogue.now media.now }
{
    Ok(Event::Response(Response {
        number: number_of(number)?,
        status: short_of(status)?,
        dialogue: number_of(dialogue)?,
        media: media_of(media)?,
    }))
}

/// A response: the number of our INVITE, the status, the dialogue, and whether there are media.
pub(crate) fn response(words: &[&str]) -> Result<Event, BadLine>
    ensures event_of_the_words { seen event_of result ≡ events.response (map (λ word. word.now) words.now) }
{
    let [number, status, dialogue, media] = words else {
        return Err(BadLine::WrongNumberOfWords);
    };
    response_with(number, status, dialogue, media)
}

/// The end of a timer of the exchange side: its name, and the flag and the number of the reference.
fn side_timer(timer: &str, flag: &str, number: &str) -> Result<Event, BadLine>
    ensures event_of_the_words { seen event_of result ≡ events.side_timer timer.now flag.now number.now }
{
    Ok(Event::Expiry {
        timer: timer_of(timer)?,
        reference: CallReference {
            flag: flag_of(flag)?,
            number: short_of(number)?,
        },
    })
}

/// The end of the timer of a CANCEL: its number.
fn cancel_timer(words: &[&str]) -> Result<Event, BadLine>
    ensures event_of_the_words { seen event_of result ≡ events.cancel_timer (map (λ word. word.now) words.now) }
{
    let [number] = words else {
        return Err(BadLine::WrongNumberOfWords);
    };
    Ok(Event::CancelExpiry {
        number: number_of(number)?,
    })
}

fn other_timer(timer: &str, words: &[&str]) -> Result<Event, BadLine>
    ensures event_of_the_words { seen event_of result ≡ events.other_timer timer.now (map (λ word. word.now) words.now) }
{
    let [flag, number] = words else {
        return Err(BadLine::WrongNumberOfWords);
    };
    side_timer(timer, flag, number)
}

/// The end of the timer with this name: `TC` is that of a CANCEL.
fn timer_end(timer: &str, words: &[&str]) -> Result<Event, BadLine>
    ensures event_of_the_words { seen event_of result ≡ events.timer_end timer.now (map (λ word. word.now) words.now) }
{
    match timer {
        "TC" => cancel_timer(words),
        _ => other_timer(timer, words),
    }
}

/// The end of a timer: its name, and what stands behind it.
pub(crate) fn expire(words: &[&str]) -> Result<Event, BadLine>
    ensures event_of_the_words { seen event_of result ≡ events.expire (map (λ word. word.now) words.now) }
{
    let [timer, rest @ ..] = words else {
        return Err(BadLine::WrongNumberOfWords);
    };
    timer_end(timer, rest)
}

fn take_from(queue: &str) -> Result<Event, BadLine>
    ensures event_of_the_word { seen event_of result ≡ events.take_from queue.now }
{
    match queue {
        "exchange" => Ok(Event::TakeExchange),
        "sip" => Ok(Event::TakeSip),
        _ => Err(BadLine::NoQueue),
    }
}

/// The oldest message of a queue is taken: `exchange` or `sip`.
pub(crate) fn take(words: &[&str]) -> Result<Event, BadLine>
    ensures event_of_the_words { seen event_of result ≡ events.take (map (λ word. word.now) words.now) }
{
    let [queue] = words else {
        return Err(BadLine::WrongNumberOfWords);
    };
    take_from(queue)
}
