//! What watchers see: text behind the outcome of a run, which is lawful as if nobody had watched.

use crate::gated::{called, checked};
use crate::hold::{At, Both, Hold};
use crate::inputs::{A_BUFFER_COMES_BACK, A_FULL_PAGE, FOUR_SEGMENTS, NO_OPERATIONS};
use hs_base::{Gate, OpenGate};
use std::marker::Sync;
use std::process::Abort;
use std::sync::Wait;
use std::test::Fail;
use std::thread::Threads;

/// Runs a workload under watch and this gate. Its outcome is what `check` writes of it. Answers what stands behind the line of the
/// first watcher.
fn watched<R: Threads + Wait + Sync + AllocGlobal + Abort, G: Gate>(
    rt: &R,
    input: &str,
    gate: &G,
) -> Result<String, Fail> {
    let written = called(rt, &["run", "--watch"], input, gate)?;
    let text = str::from_utf8(&written).ok().ok_or("a text")?;
    let (outcome, seen) = text.split_once("watcher 0\n").ok_or("a watcher")?;
    let again = checked(rt, input, text)?;
    assert_eq!(rt; again.as_slice(), outcome.as_bytes());
    Ok(seen.to_string(rt.alloc())?)
}

const NOTHING: &str = "seen 0 operations 0 records 0 null 0 taken 0 given 0
watcher 1
seen 0 operations 0 records 0 null 0 taken 0 given 0
end
";

#[test]
fn there_is_nothing_to_see(rt: HostRuntime) -> Result<(), Fail> {
    let seen = watched(&rt, NO_OPERATIONS, &OpenGate)?;
    assert_eq!(rt; seen.as_str(), NOTHING);
    Ok(())
}

/// The only round may end before the agent takes the chunk.
const ONE_ROUND: [&str; 2] = [
    "seen 0 operations 0 records 0 null 0 taken 0 given 0
seen 1 operations 5 records 3 null 1 taken 0 given 0
watcher 1
seen 0 operations 0 records 0 null 0 taken 0 given 0
seen 1 operations 5 records 3 null 1 taken 0 given 0
end
",
    "seen 0 operations 0 records 0 null 0 taken 0 given 0
seen 1 operations 5 records 3 null 1 taken 1 given 0
watcher 1
seen 0 operations 0 records 0 null 0 taken 0 given 0
seen 1 operations 5 records 3 null 1 taken 1 given 0
end
",
];

#[test]
fn both_see_the_only_round(rt: HostRuntime) -> Result<(), Fail> {
    let seen = watched(&rt, A_FULL_PAGE, &OpenGate)?;
    let [early, late] = ONE_ROUND;
    assert!(rt; seen.as_str() == early || seen.as_str() == late, "{seen}");
    Ok(())
}

/// Client and agent wait for each other, as without watchers.
#[test]
fn watchers_hold_nobody(rt: HostRuntime) -> Result<(), Fail> {
    let both = Both {
        first: Hold::new(At { actor: 1, step: 0 }, At { actor: 0, step: 9 }),
        second: Hold::new(At { actor: 0, step: 9 }, At { actor: 1, step: 1 }),
    };
    watched(&rt, FOUR_SEGMENTS, &both)?;
    assert!(rt; both.first.was_kept() && both.second.was_kept());
    Ok(())
}

/// The rounds that a line tells, if it is one of totals.
fn rounds_in(line: &str) -> Option<u32> {
    let (rounds, _) = line.strip_prefix("seen ")?.split_once(' ')?;
    rounds.parse().ok()
}

/// Whether a watcher that looks in each round may see the totals after so many rounds next: at first those before all rounds, and then
/// those of the next round or of the one behind it.
fn may_follow(before: Option<u32>, now: u32) -> bool {
    match before {
        None => now == 0,
        Some(rounds) => rounds < now && now <= rounds.saturating_add(2),
    }
}

/// Each watcher looks in each round, up to the last.
fn assert_looks_always<R: Abort>(rt: &R, seen: &str, last: u32) {
    let mut before = None;
    for line in seen.lines() {
        let now = rounds_in(line);
        match now {
            Some(rounds) => assert!(rt; may_follow(before, rounds), "{line}"),
            None => assert_eq!(rt; before, Some(last), "{line}"),
        }
        before = now;
    }
}

/// Watchers that only look behind the last round see no totals of an earlier one.
#[test]
fn each_round_is_watched(rt: HostRuntime) -> Result<(), Fail> {
    let seen = watched(&rt, A_BUFFER_COMES_BACK, &OpenGate)?;
    assert_looks_always(&rt, seen.as_str(), 7);
    Ok(())
}
