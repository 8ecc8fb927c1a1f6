//! Tries every row of the rules on one call, and compares what comes of it with what the row says.
#![tactic(auto)]

mod bad_line;
mod fields;
mod row;
mod shown;
mod sides;
mod stand;
mod tally;
mod tried;
mod words;

use anyhow::Context;
use std::{env, fs};
use tally::Tally;

/// The file of rows that lies where the program runs, read where no other is named.
const ROWS: &str = "rows.txt";

fn try_rows(rt: &HostRuntime, name: &str) -> anyhow::Result<()> {
    let text = fs::read_to_string(rt, name).context(format_args!("reading {name}"))?;
    let mut tally = Tally::new(rt.alloc());
    for (i, line) in text.lines().enumerate() {
        let number = i.saturating_add(1);
        tally
            .take(rt, number, line)
            .context(format_args!("line {number} of {name}"))?;
    }
    tally.end(rt)
}

fn run(rt: &HostRuntime) -> anyhow::Result<()> {
    let names: Vec<String> = env::args(rt)?.skip(1).collect(rt.alloc())?;
    try_rows(rt, names.first().map_or(ROWS, |name| name.as_str()))
}

fn main(rt: HostRuntime) -> anyhow::Result<()> {
    run(&rt)
}
