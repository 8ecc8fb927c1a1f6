//! The lines of a script, each with its number and what it is.
ghost use Rattle.std.specs.Prelude.{◌≡◌, IfOk, map};
ghost use Rattle.std.specs.Option.{option_map};
ghost use Rattle.script_commands.specs.Commands.{asked_by};
ghost use Rattle.script_commands.specs.Openings.{settings_of};
ghost use Rattle.script_lines.specs.Meanings.{asked_by_meaning, meant_by, read, read_at, lines_in, commanded, opened};

use message_text::is_remark;
use script_commands::{Command, Opening, parse};
use script_words::BadLine;
use std::alloc::{AllocError, Global};
use std::io;

/// What a line is.
#[derive(Drop)]
enum Meaning {
    /// Empty, or a comment.
    Remark,
    Command(Command),
    Bad(BadLine),
}

/// A line of a script with its number, from 1.
#[derive(Drop)]
pub struct Line<'a> {
    number: usize,
    text: &'a str,
    meaning: Meaning,
}

fn meaning_of(heap: Global, text: &str) -> Result<Meaning, AllocError>
    ensures remark_or_as_it_asks { IfOk result (λ meaning. asked_by_meaning meaning ≡ meant_by text.now) }
{
    if is_remark(text.as_bytes()) {
        return Ok(Meaning::Remark);
    }
    Ok(match parse(heap, text)? {
        Ok(command) => Meaning::Command(command),
        Err(why) => Meaning::Bad(why),
    })
}

impl<'a> Line<'a> {
    fn new(heap: Global, number: usize, text: &'a str) -> Result<Line<'a>, AllocError>
        ensures its_number_its_text_and_what_it_asks_for { IfOk result (λ line. read line ≡ read_at number text.now) }
    {
        Ok(Line {
            number,
            text,
            meaning: meaning_of(heap, text)?,
        })
    }

    /// The opening, if the line is one.
    pub fn opening(&self) -> Option<&Opening>
        ensures opening_that_it_asks_for { option_map (λ opening. settings_of opening.now) result ≡ opened (commanded (read self.now).asked) }
    {
        match &self.meaning {
            Meaning::Command(Command::Open(opening)) => Some(opening),
            _ => None,
        }
    }

    /// The line: a remark as it is, any other behind its number and without the blanks at its end.
    pub fn echo(&self, rt: &impl Print) -> io::Result<()> {
        match self.meaning {
            Meaning::Remark => println!(rt; "{}", self.text),
            _ => println!(rt; "{}: {}", self.number, self.text.trim_end()),
        }
    }

    /// The command, if the line has one; a bad line is answered here.
    pub fn command(&self, rt: &impl Print) -> io::Result<Option<&Command>>
        ensures command_that_it_asks_for { IfOk result (λ command. option_map (λ c. asked_by c.now) command ≡ commanded (read self.now).asked) }
    {
        match &self.meaning {
            Meaning::Remark => Ok(None),
            Meaning::Command(command) => Ok(Some(command)),
            Meaning::Bad(why) => {
                println!(rt; "= bad line: {why}")?;
                Ok(None)
            }
        }
    }
}

/// The lines of a text, each with its number. Refused: want of memory alone.
pub fn lines_of(heap: Global, text: &str) -> Result<Vec<Line<'_>>, AllocError>
    ensures each_line_in_its_order { IfOk result (λ all. map read all.items ≡ lines_in text.now) }
{
    let mut lines = Vec::new(heap);
    for (i, line) in text.lines().enumerate() {
        lines.push(Line::new(heap, i.saturating_add(1), line)?)?;
    }
    Ok(lines)
}
