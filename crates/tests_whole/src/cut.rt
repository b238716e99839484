//! The example cut at each of its bytes.

use crate::calls::{EXAMPLE, EXAMPLE_OUTPUT, JOURNAL, assert_writes};
use std::test::Fail;

/// One more line where the byte ends one.
fn line_behind(line: u32, byte: u8) -> u32 {
    if byte == b'\n' {
        line.saturating_add(1)
    } else {
        line
    }
}

/// The workload is refused at the line in which it ends.
#[test]
fn a_workload_is_cut(rt: HostRuntime) -> Result<(), Fail> {
    let bytes = EXAMPLE.as_bytes();
    assert_eq!(rt; bytes.len(), 221);
    let mut line = 1;
    for (kept, byte) in bytes.iter().enumerate() {
        let wanted = format!(in rt.alloc(); "refused line {line} Truncated\n")?;
        assert_writes(&rt, &["replay"], &bytes[..kept], 3, wanted.as_str())?;
        line = line_behind(line, *byte);
    }
    Ok(())
}

/// The journal is refused at the line in which it ends, which is counted from its first. Whole it is lawful.
#[test]
fn a_journal_is_cut(rt: HostRuntime) -> Result<(), Fail> {
    let mut input = EXAMPLE.as_bytes().to_vec(rt.alloc())?;
    let mut line = 1;
    for byte in JOURNAL.as_bytes() {
        let wanted = format!(in rt.alloc(); "refused journal line {line} Truncated\n")?;
        assert_writes(&rt, &["check"], &input, 3, wanted.as_str())?;
        input.push(*byte)?;
        line = line_behind(line, *byte);
    }
    assert_writes(&rt, &["check"], &input, 0, EXAMPLE_OUTPUT)
}
