//! What a line asks for.
ghost use Rattle.std.specs.Prelude.{◌≡◌, IfOk, map};
ghost use Rattle.events.specs.Events.{event_of};
ghost use Rattle.script_commands.specs.Parts.{seen};
ghost use Rattle.script_commands.specs.Commands as commands;
ghost use Rattle.script_commands.specs.Commands.{asked_by, alone, event, command_with, command_of, asked_of};

use crate::command::Command;
use crate::event_words::{bye, cancel, exchange, expire, invite, response, take};
use crate::opening_words::open;
use events::Event;
use script_words::{BadLine, words_of};
use std::alloc::{AllocError, Global};

/// A word that stands alone.
fn alone(command: Command, words: &[&str]) -> Result<Command, BadLine>
    ensures no_other_word { seen asked_by result ≡ alone (asked_by command) (map (λ word. word.now) words.now) }
{
    if words.is_empty() {
        Ok(command)
    } else {
        Err(BadLine::WrongNumberOfWords)
    }
}

fn event(heap: Global, first: &str, words: &[&str]) -> Result<Result<Event, BadLine>, AllocError>
    ensures event_of_the_words { IfOk result (λ asked. seen event_of asked ≡ event first.now (map (λ word. word.now) words.now)) }
{
    match first {
        "exchange" => exchange(heap, words),
        "invite" => invite(heap, words),
        "cancel" => Ok(cancel(words)),
        "bye" => Ok(bye(words)),
        "response" => Ok(response(words)),
        "expire" => Ok(expire(words)),
        "take" => Ok(take(words)),
        _ => Ok(Err(BadLine::NoSuchWord)),
    }
}

fn event_command(
    heap: Global,
    first: &str,
    words: &[&str],
) -> Result<Result<Command, BadLine>, AllocError>
    ensures command_of_the_words { IfOk result (λ asked. seen asked_by asked ≡ seen commands.Event (event first.now (map (λ word. word.now) words.now))) }
{
    Ok(event(heap, first, words)?.map(Command::Event))
}

fn command_with(
    heap: Global,
    first: &str,
    words: &[&str],
) -> Result<Result<Command, BadLine>, AllocError>
    ensures command_of_the_words { IfOk result (λ asked. seen asked_by asked ≡ command_with first.now (map (λ word. word.now) words.now)) }
{
    match first {
        "open" => Ok(open(heap, words)?.map(Command::Open)),
        "drain" => Ok(alone(Command::Drain, words)),
        "calls" => Ok(alone(Command::Calls, words)),
        _ => event_command(heap, first, words),
    }
}

fn command_of(heap: Global, words: &[&str]) -> Result<Result<Command, BadLine>, AllocError>
    ensures command_of_the_words { IfOk result (λ asked. seen asked_by asked ≡ command_of (map (λ word. word.now) words.now)) }
{
    let [first, rest @ ..] = words else {
        return Ok(Err(BadLine::NoSuchWord));
    };
    command_with(heap, first, rest)
}

/// What a line asks for, or why it asks for nothing. Refused: want of memory alone, which is not among the reasons.
pub fn parse(heap: Global, line: &str) -> Result<Result<Command, BadLine>, AllocError>
    ensures asked_of_the_line { IfOk result (λ asked. seen asked_by asked ≡ asked_of line.now) }
{
    let words = words_of(heap, line)?;
    command_of(heap, words.as_slice())
}
