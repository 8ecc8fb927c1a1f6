//! What is printed below the lines of a script.
use crate::line::Line;
use crate::shown::{AnswerText, CallText};
use calls::{Answer, Call, Refused};
use refusals::Ground;
use std::io;

/// Lines while no gateway is open.
pub fn print_unopened(rt: &impl Print, lines: &[Line<'_>]) -> io::Result<()> {
    for line in lines {
        line.echo(rt)?;
        if line.command(rt)?.is_some() {
            println!(rt; "= no gateway is open")?;
        }
    }
    Ok(())
}

/// An opening that was refused, and the lines below it.
pub fn print_refused(rt: &impl Print, ground: Ground, lines: &[Line<'_>]) -> io::Result<()> {
    println!(rt; "= {}", Refused::from(ground))?;
    print_unopened(rt, lines)
}

/// Answers in their order, a line each.
pub fn print_answers(rt: &impl Print, answers: &[Answer]) -> io::Result<()> {
    for answer in answers {
        println!(rt; "= {}", AnswerText(*answer))?;
    }
    Ok(())
}

/// The answers of events that took all that waited.
pub fn print_drained(rt: &impl Print, answers: &[Answer]) -> io::Result<()> {
    if answers.is_empty() {
        return println!(rt; "= none");
    }
    print_answers(rt, answers)
}

/// Calls in their order, a line each.
pub fn print_calls(rt: &impl Print, calls: &[Call]) -> io::Result<()> {
    if calls.is_empty() {
        return println!(rt; "  no calls");
    }
    for call in calls {
        println!(rt; "  {}", CallText(*call))?;
    }
    Ok(())
}
