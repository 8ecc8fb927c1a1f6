ghost use Rattle.std.specs.Prelude.{◌≡◌, Some, Ok, IfOk, string_bytes};
ghost use Rattle.reader.specs.Seen.{seen_record};
ghost use Rattle.message_text.specs.Verdicts.{is_remark, verdict, verdict_on};
ghost use Rattle.message_text.specs.Lines.{said, told, told_on};

use crate::shown::MessageText;
use hexadecimal::octets_in;
use messages::{Message, Part};
use reader::read;
use std::alloc::{AllocError, Global};

/// What a line of input gets. Three cases and no `Result`: what is no hexadecimal is counted as neither a message nor a refusal.
#[derive(Drop)]
pub enum Answer {
    Message(String),
    Refused(String),
    NotHex,
}

/// Whether a line is a comment or empty.
pub fn is_remark(line: &[u8]) -> bool
    ensures empty_or_a_comment { result ≡ is_remark line.now }
{
    matches!(line, [] | [b'#', ..])
}

/// The line of a message.
fn told_of(heap: Global, message: Message<Part<'_>>) -> Result<String, AllocError>
    ensures its_text { IfOk result (λ text. Some (string_bytes text) ≡ told (Ok (seen_record message.entry))) }
{
    format!(in heap; "= {}", MessageText { message })
}

/// What a line of hexadecimal octets gets.
pub fn answer_to(heap: Global, line: &[u8]) -> Result<Answer, AllocError>
    ensures message_or_refused_as_it_reads { IfOk result (λ answer. verdict answer ≡ verdict_on line.now) }
    ensures told_letter_by_letter { IfOk result (λ answer. said answer ≡ told_on line.now) }
{
    let Some(octets) = octets_in(heap, line)? else {
        return Ok(Answer::NotHex);
    };
    match read(octets.as_slice()) {
        Ok(message) => Ok(Answer::Message(told_of(heap, message)?)),
        Err(misread) => Ok(Answer::Refused(format!(in heap; "= {misread}")?)),
    }
}
