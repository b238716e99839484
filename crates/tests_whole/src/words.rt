//! Words that are no command.

use crate::calls::{BLIND, EXAMPLE, called, texts_of};
use hs_base::{MemorySink, MemorySource, OpenGate};
use hs_cli::hindsight_unwatched;
use std::test::Fail;

const USAGE: &str =
    "usage: hindsight replay [--json] | run [--json] | run --watch | make SEED SIZE | drill SEED SIZE | convert | check | compare H B\n";

/// Each command with too few, too many and wrong words, and flags where they may not stand.
const NO_COMMANDS: [&[&str]; 78] = [
    &[],
    &[""],
    &["Replay"],
    &["replay "],
    &["replay", "now"],
    &["replay", "7", "3"],
    &["replay", "--json", "--json"],
    &["replay", "--json", "now"],
    &["replay", "--json", "--watch"],
    &["replay", "--json=true"],
    &["replay", "--", "--json"],
    &["replay", "--watch"],
    &["replay", "--help"],
    &["--help"],
    &["-h"],
    &["replay", "--version"],
    &["help"],
    &["convert", "2"],
    &["convert", "--json"],
    &["convert", "--watch"],
    &["make"],
    &["make", "7"],
    &["make", "7", "3", "1"],
    &["make", "7", "3", "--json"],
    &["make", "7", "3", "--watch"],
    &["make", "7", "0"],
    &["make", "7", "10001"],
    &["make", "7", "01"],
    &["make", "7", "1.0"],
    &["make", "7", "+1"],
    &["make", "7", "-1"],
    &["make", "7", "18446744073709551616"],
    &["make", "18446744073709551616", "3"],
    &["make", "07", "3"],
    &["make", "x", "3"],
    &["make", "", "3"],
    &["run", "now"],
    &["run", "7", "3"],
    &["--watch"],
    &["run", "--watch", "now"],
    &["run", "7", "3", "--watch"],
    &["run", "--json", "--watch"],
    &["run", "--watch", "--json"],
    &["--watch", "run", "--json"],
    &["run", "--watch", "--watch"],
    &["run", "--watch=true"],
    &["run", "--", "--watch"],
    &["run", "--json", "--json"],
    &["run", "--", "--json"],
    &["Run"],
    &["drill"],
    &["drill", "7"],
    &["drill", "7", "3", "1"],
    &["drill", "7", "3", "--json"],
    &["drill", "7", "3", "--watch"],
    &["drill", "7", "0"],
    &["drill", "7", "10001"],
    &["drill", "7", "+1"],
    &["check", "now"],
    &["check", "7", "3"],
    &["check", "--json"],
    &["--json", "check"],
    &["check", "--watch"],
    &["Check"],
    &["compare"],
    &["compare", "1"],
    &["compare", "1", "1", "1"],
    &["compare", "1", "1", "--json"],
    &["compare", "1", "1", "--watch"],
    &["compare", "0", "1"],
    &["compare", "1000001", "1"],
    &["compare", "01", "1"],
    &["compare", "1", "0"],
    &["compare", "1", "262145"],
    &["compare", "1", "+1"],
    &["Compare", "1", "1"],
    &["7", "make", "3"],
    &["make", "replay", "convert"],
];

/// Nothing is read, not even by a source that fails at once.
#[test]
fn words_that_are_no_command(rt: HostRuntime) -> Result<(), Fail> {
    for words in NO_COMMANDS {
        let (status, written) = called(&rt, words, EXAMPLE.as_bytes(), &BLIND)?;
        assert_eq!(rt; status, 2);
        assert_eq!(rt; written.as_slice(), USAGE.as_bytes());
    }
    Ok(())
}

/// The call that has no leave to wait knows no watchers.
#[test]
fn no_watchers_without_waiting(rt: HostRuntime) -> Result<(), Fail> {
    let alloc = rt.alloc();
    let words = texts_of(alloc, &["run", "--watch"])?;
    let mut source = MemorySource::new(alloc, &[], 1, &[0])?;
    let mut sink = MemorySink::new(alloc, 1 << 10, 1 << 10, &[])?;
    let status = hindsight_unwatched(&rt, alloc, &words, &mut source, &mut sink, &OpenGate);
    assert_eq!(rt; status.number(), 2);
    assert_eq!(rt; sink.bytes(), USAGE.as_bytes());
    Ok(())
}
