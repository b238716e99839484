//! What happened in runs, counted.

use anyhow::{Context, Result};
use std::io::Print;

/// How many runs there were, how many lines of these kinds their journals have, and how many totals watchers saw.
#[derive(Default, Drop)]
pub(crate) struct Counts {
    runs: u64,
    gots: u64,
    empties: u64,
    gives: u64,
    misses: u64,
    unreads: u64,
    looks: u64,
}

/// One more.
fn count(number: &mut u64) {
    *number = number.saturating_add(1);
}

impl Counts {
    /// Adds a run with this output.
    pub(crate) fn add(&mut self, output: &[u8]) -> Result<()> {
        count(&mut self.runs);
        let text = str::from_utf8(output).ok().context("the output is a text")?;
        for line in text.lines() {
            self.add_line(line);
        }
        Ok(())
    }

    /// Adds a line of an output.
    fn add_line(&mut self, line: &str) {
        if line.starts_with("got ") {
            count(&mut self.gots);
        } else if line.starts_with("empty ") {
            count(&mut self.empties);
        } else if line.starts_with("given ") {
            count(&mut self.gives);
        } else if line.starts_with("missed ") {
            count(&mut self.misses);
        } else if line == "unread" {
            count(&mut self.unreads);
        } else if line.starts_with("seen ") {
            count(&mut self.looks);
        }
    }

    /// Prints the counts. A draw that found the pool empty makes one null page.
    pub(crate) fn report<R: Print>(&self, rt: &R) -> Result<()> {
        println!(rt;
            "{} runs, each lawful: {} draws got a buffer, {} were empty, {} gives, {} missed, {} unread, {} totals seen",
            self.runs, self.gots, self.empties, self.gives, self.misses, self.unreads, self.looks
        )?;
        Ok(())
    }
}
