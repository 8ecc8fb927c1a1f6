//! Reads lines of hexadecimal octets and prints each as a QSIG message and back.
#![tactic(auto)]

use message_text::{Answer, answer_to, is_remark};
use std::io;

fn main(rt: HostRuntime) -> io::Result<()> {
    let mut messages = 0u64;
    let mut refusals = 0u64;
    for line in rt.lines(rt.alloc()) {
        let line = line?;
        if is_remark(line.as_bytes()) {
            println!(rt; "{line}")?;
            continue;
        }
        match answer_to(rt.alloc(), line.as_bytes())? {
            Answer::Message(text) => {
                messages = messages.saturating_add(1);
                println!(rt; "{text}")?;
            }
            Answer::Refused(text) => {
                refusals = refusals.saturating_add(1);
                println!(rt; "{text}")?;
            }
            Answer::NotHex => println!(rt; "= not hex")?,
        }
    }
    println!(rt; "messages={messages} refusals={refusals}")
}
