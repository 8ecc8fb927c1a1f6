// Prints what both mappings answer for every row, and compares all their answers with a list of its own.
#![tactic(auto)]

mod list;
mod report;

use std::fs;

const LIST: &str = "expected.txt";

fn run(rt: &HostRuntime) -> anyhow::Result<()> {
    let text = fs::read_to_string(rt, LIST)?;
    let list = list::read(rt.alloc(), &text)?;
    report::rows(rt, &list)?;
    report::comparison(rt, &list)?;
    Ok(())
}

fn main(rt: HostRuntime) -> anyhow::Result<()> {
    run(&rt)
}
