// Runs a table of test vectors from standard input: a row each of kind, engine, key, bits, message and expected answer.
// Prints how many of each kind matched, how many rows could not be read, and the first row that did not match.
// A line that begins with '#' is a comment.
#![tactic(auto)]

mod row;
mod tally;

use row::Row;
use std::io::{BufRead, BufReader};
use tally::Report;

fn main(rt: HostRuntime) -> anyhow::Result<()> {
    let alloc = rt.alloc();
    let mut report = Report::new(alloc)?;
    for (i, line) in BufReader::new(alloc, rt.stdin())?.lines(alloc).enumerate() {
        let line = line?;
        match Row::read(line.as_str()) {
            Some(row) => {
                let number = u32::try_from(i.saturating_add(1)).unwrap_or(u32::MAX);
                report.note(&row, number, row.matches(alloc)?)?;
            }
            None if line.as_str().starts_with('#') => {}
            None => report.skip(),
        }
    }
    print!(rt; "{report}")?;
    Ok(())
}
