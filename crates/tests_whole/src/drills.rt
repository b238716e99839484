//! Drills: one line for a made workload.

use crate::calls::{BLIND, called};
use crate::made::made;
use hs_records::{Op, Workload};
use std::alloc::{AllocError, Global};
use std::marker::Sync;
use std::process::Abort;
use std::sync::Wait;
use std::test::Fail;
use std::thread::Threads;

/// The numbers of a line, in order.
fn numbers(alloc: Global, line: &str) -> Result<Vec<u64>, AllocError> {
    let mut all = Vec::new(alloc);
    for word in line.trim_end().split(' ') {
        if let Ok(number) = word.parse::<u64>() {
            all.push(number)?;
        }
    }
    Ok(all)
}

/// How many points a workload has.
fn points(workload: &Workload) -> u64 {
    let mut count: u64 = 0;
    for client in workload.clients.as_slice() {
        for operation in client.as_slice() {
            if let Op::Point { .. } = operation {
                count = count.saturating_add(1);
            }
        }
    }
    count
}

/// The sum of these numbers.
fn sum(numbers: &[u64]) -> u64 {
    let mut sum: u64 = 0;
    for number in numbers {
        sum = sum.saturating_add(*number);
    }
    sum
}

/// The line that a drill of this seed and size writes, which reads nothing.
fn drilled<R: Threads + Wait + Sync + AllocGlobal + Abort>(
    rt: &R,
    seed: &str,
    size: &str,
) -> Result<String, Fail> {
    let (status, line) = called(rt, &["drill", seed, size], &[], &BLIND)?;
    assert_eq!(rt; status, 0);
    let text = str::from_utf8(&line).ok().ok_or("a text")?;
    assert!(rt; text.starts_with("total ") && text.lines().count() == 1);
    Ok(text.to_string(rt.alloc())?)
}

/// Seeds and sizes.
const TABLE: [[&str; 2]; 4] = [["7", "3"], ["0", "1"], ["1", "1000"], ["1", "10000"]];

/// A drill counts the points of the workload that `make` writes, and its five fates sum to them.
#[test]
fn drills_count_the_records(rt: HostRuntime) -> Result<(), Fail> {
    for [seed, size] in TABLE {
        let line = drilled(&rt, seed, size)?;
        let workload = made(&rt, seed, size)?;
        let counts = numbers(rt.alloc(), line.as_str())?;
        assert_eq!(rt; counts.len(), 6);
        assert_eq!(rt; counts.first().copied(), Some(points(&workload)));
        assert_eq!(rt; counts.first().copied(), counts.get(1..).map(sum));
    }
    Ok(())
}

/// A drill writes twice the same.
#[test]
fn drills_are_the_same_again(rt: HostRuntime) -> Result<(), Fail> {
    for [seed, size] in TABLE {
        let line = drilled(&rt, seed, size)?;
        let again = drilled(&rt, seed, size)?;
        assert_eq!(rt; line.as_str(), again.as_str());
    }
    Ok(())
}
