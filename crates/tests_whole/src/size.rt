//! The greatest workload.

use crate::calls::{assert_lawful, outcome};
use std::alloc::{AllocError, Global};
use std::test::Fail;

const HEAD: &str =
    "hindsight 1\nnodes 1\nclients 1\nbuffers 1024\nsize 64\nthreshold 1024\ntraces 65536\npins 1024\nstride 64\nclient 0 0\n";

const POINTS: u32 = 262_142;

/// One trace of so many points without bytes.
fn workload(alloc: Global) -> Result<String, AllocError> {
    let mut text = String::from_str(alloc, HEAD)?;
    text.push_str("begin 0000000000000001\n")?;
    for _point in 0..POINTS {
        text.push_str("point 7 -\n")?;
    }
    text.push_str("end\ndone\n")?;
    Ok(text)
}

/// A page of 64 bytes has four of them. 1,024 pages have a buffer, and the pages behind them found the pool empty at the
/// draw of their number.
fn draws(alloc: Global) -> Result<String, AllocError> {
    let mut text = String::from_str(alloc, "journal 1 1 1\ndraws 0 0\n")?;
    for page in 0..POINTS.div_ceil(4) {
        let line = if page < 1024 {
            format!(in alloc; "got {page} {page}\n")?
        } else {
            format!(in alloc; "empty {page}\n")?
        };
        text.push_str(line.as_str())?;
    }
    text.push_str("log 0\n")?;
    Ok(text)
}

/// A round has 64 operations and sends the pages behind which it starts one: 15, then 16 each time, and the last of the 1,024
/// in the round with the number 64. Of 4,096 rounds each has a turn.
fn log(alloc: Global) -> Result<String, AllocError> {
    let mut text = String::new(alloc);
    for round in 0..4096u32 {
        let chunks = match round {
            0 => 15,
            1..64 => 16,
            64 => 1,
            _ => 0,
        };
        for _chunk in 0..chunks {
            text.push_str("chunk 0\n")?;
        }
        text.push_str("turn\n")?;
    }
    Ok(text)
}

/// What is behind the log.
fn ledger(alloc: Global) -> Result<String, AllocError> {
    let mut text = String::from_str(alloc, "coordinator\nend\nreports 0\nledger 262142\n")?;
    for point in 0..POINTS {
        let page = point / 4;
        let line = if page < 1024 {
            format!(in alloc; "0 0 {point} 0000000000000001 live\n")?
        } else {
            format!(in alloc; "0 0 {point} 0000000000000001 null {page}\n")?
        };
        text.push_str(line.as_str())?;
    }
    text.push_str("total 262142 live 4096 reported 0 null 258046 evicted 0 abandoned 0\ndone\n")?;
    Ok(text)
}

/// All that the replay writes.
fn whole(alloc: Global) -> Result<String, AllocError> {
    let mut text = draws(alloc)?;
    text.push_str(log(alloc)?.as_str())?;
    text.push_str(ledger(alloc)?.as_str())?;
    Ok(text)
}

/// 262,144 operations of one client have 262,142 records.
#[test]
fn most_operations_are_replayed(rt: HostRuntime) -> Result<(), Fail> {
    let input = workload(rt.alloc())?;
    let written = outcome(&rt, &["replay"], input.as_bytes())?;
    let wanted = whole(rt.alloc())?;
    assert!(rt; written.as_slice() == wanted.as_bytes());
    Ok(())
}

/// The journal of the replay is lawful, and comes to the same.
#[test]
fn most_operations_are_checked(rt: HostRuntime) -> Result<(), Fail> {
    let input = workload(rt.alloc())?;
    let wanted = whole(rt.alloc())?;
    assert_lawful(&rt, input.as_str(), wanted.as_bytes())
}

/// The same come to the same in a run, but for when the agent took its chunks.
#[test]
fn most_operations_are_run(rt: HostRuntime) -> Result<(), Fail> {
    let input = workload(rt.alloc())?;
    let written = outcome(&rt, &["run"], input.as_bytes())?;
    assert!(rt; written.starts_with(draws(rt.alloc())?.as_bytes()));
    assert!(rt; written.ends_with(ledger(rt.alloc())?.as_bytes()));
    Ok(())
}

/// What the second watcher sees at last, and the end. Of the 65,536 pages 1,024 have a buffer.
const SEEN: &str =
    "\nseen 4096 operations 262144 records 262142 null 64512 taken 1024 given 0\nend\n";

/// And under watch.
#[test]
fn most_operations_are_watched(rt: HostRuntime) -> Result<(), Fail> {
    let input = workload(rt.alloc())?;
    let written = outcome(&rt, &["run", "--watch"], input.as_bytes())?;
    let text = str::from_utf8(&written).ok().ok_or("a text")?;
    let (front, seen) = text.split_once("watcher 0\n").ok_or("a watcher")?;
    assert!(rt; front.ends_with(ledger(rt.alloc())?.as_str()));
    assert!(rt; seen.ends_with(SEEN));
    Ok(())
}
