//! Plays scripts of events on a gateway and prints what comes of them.
#![tactic(auto)]

use scripts::play_script;
use std::{env, fs, io};

/// Plays the files, or standard input where none is named.
fn play_all(rt: &HostRuntime, names: &[String]) -> io::Result<()> {
    if names.is_empty() {
        let text = io::read_to_string(rt.alloc(), rt.reader())?;
        return play_script(rt, &text);
    }
    for name in names {
        println!(rt; "-- {name}")?;
        let text = fs::read_to_string(rt, name)?;
        play_script(rt, &text)?;
    }
    Ok(())
}

fn main(rt: HostRuntime) -> io::Result<()> {
    let names: Vec<String> = env::args(&rt)?.skip(1).collect(rt.alloc())?;
    play_all(&rt, &names)
}
