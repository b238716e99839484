//! Runs the rows that are files, each over memory through the top call, and prints those that differ and how many calls there were.
//! The arguments are the folders that have them; `data/cases/README.md` says how a row lies in files.
#![tactic(auto)]

mod files;
mod row;

use row::{Fault, Row};
use std::marker::Sync;
use std::rt::Files;
use std::sync::Wait;
use std::thread::Threads;
use std::{env, fs, io};

/// How many calls there were, and how many of them differed.
#[derive(Default, Drop)]
struct Counts {
    calls: u64,
    differ: u64,
}

fn main(rt: HostRuntime) -> io::Result<()> {
    let mut counts = Counts::default();
    for folder in env::args(&rt)?.skip(1) {
        try_folder(&rt, folder.as_str(), &mut counts)?;
    }
    println!(rt; "{} rows, {} differ", counts.calls, counts.differ)?;
    Ok(())
}

/// Runs the rows of a folder.
fn try_folder<R: Files + Threads + Wait + Sync + AllocGlobal + Print + Clone + Drop>(
    rt: &R,
    folder: &str,
    counts: &mut Counts,
) -> io::Result<()> {
    for entry in fs::read_dir(rt, folder)? {
        let entry = entry?;
        if let Some(name) = entry.file_name().strip_suffix(".out") {
            try_row(rt, folder, name, counts)?;
        }
    }
    Ok(())
}

/// Runs a row. An outcome is checked too, behind its workload.
fn try_row<R: Files + Threads + Wait + Sync + AllocGlobal + Print>(
    rt: &R,
    folder: &str,
    name: &str,
    counts: &mut Counts,
) -> io::Result<()> {
    let row = Row::read(rt, folder, name)?;
    tell(rt, folder, name, row.fault(rt)?, counts)?;
    if row.is_outcome() {
        let check = row.check_of(rt.alloc())?;
        tell(rt, folder, name, check.fault(rt)?, counts)?;
    }
    Ok(())
}

/// Counts a call, and says of its row what is wrong.
fn tell<R: Print>(
    rt: &R,
    folder: &str,
    name: &str,
    fault: Option<Fault>,
    counts: &mut Counts,
) -> io::Result<()> {
    counts.calls = counts.calls.saturating_add(1);
    let Some(fault) = fault else {
        return Ok(());
    };
    counts.differ = counts.differ.saturating_add(1);
    match fault {
        Fault::Status(status) => println!(rt; "{folder}/{name}: the status is {status}"),
        Fault::Output { line, byte } => {
            println!(rt; "{folder}/{name}: the output differs first in line {line}, byte {byte}")
        }
    }
}
