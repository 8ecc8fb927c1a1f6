//! What is counted of the rows, and what is printed of them.
use crate::bad_line::BadLine;
use crate::row::{Line, Row, parse};
use crate::tried::outcome;
use anyhow::bail;
use std::alloc::Global;
use std::io;

/// A table's name, and how many of its rows were tried.
#[derive(Drop)]
struct Table<'a> {
    name: &'a str,
    rows: u32,
}

/// The tables up to the line that was taken last, and how many rows differ.
#[derive(Drop)]
pub struct Tally<'a> {
    tables: Vec<Table<'a>>,
    different: u32,
}

impl<'a> Tally<'a> {
    pub fn new(heap: Global) -> Tally<'a> {
        Tally {
            tables: Vec::new(heap),
            different: 0,
        }
    }

    /// A line of the file: a heading opens a table, a row is tried.
    pub fn take(&mut self, rt: &HostRuntime, number: usize, line: &'a str) -> anyhow::Result<()> {
        match parse(rt.alloc(), line)? {
            Line::Remark => {}
            Line::Table(name) => self.tables.push(Table { name, rows: 0 })?,
            Line::Row(row) => {
                self.count()?;
                self.compare(rt, number, row)?;
            }
        }
        Ok(())
    }

    /// One more row of the table that is open.
    fn count(&mut self) -> Result<(), BadLine> {
        let table = self.tables.last_mut().ok_or(BadLine::NoTable)?;
        table.rows = table.rows.saturating_add(1);
        Ok(())
    }

    /// Tries a row, and prints it where something else comes of it.
    fn compare(&mut self, rt: &HostRuntime, number: usize, row: Row<'_>) -> io::Result<()> {
        let came = outcome(rt.alloc(), row.trial)?;
        if came.as_str() == row.expected {
            return Ok(());
        }
        self.different = self.different.saturating_add(1);
        println!(rt; "differs: line {number}")?;
        println!(rt; "  expected {}", row.expected)?;
        println!(rt; "  came     {came}")
    }

    /// How many rows each table has, and whether all agree; where some differ, the program fails.
    pub fn end(&self, rt: &HostRuntime) -> anyhow::Result<()> {
        let mut tried = 0u32;
        for table in &self.tables {
            println!(rt; "{}: {}", table.name, table.rows)?;
            tried = tried.saturating_add(table.rows);
        }
        println!(rt; "{tried} rows tried")?;
        if self.different > 0 {
            bail!("{} rows differ", self.different);
        }
        println!(rt; "all agree")?;
        Ok(())
    }
}
