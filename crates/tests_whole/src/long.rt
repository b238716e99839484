//! Inputs of the greatest length, and longer ones.

use crate::calls::{EXAMPLE, EXAMPLE_OUTPUT, JOURNAL, Streams, assert_writes, called};
use hs_base::limits::MAX_INPUT;
use std::test::Fail;

const TOO_LONG: &str = "refused input longer than 16777216 bytes\n";

#[test]
fn a_workload_that_is_too_long(rt: HostRuntime) -> Result<(), Fail> {
    let input = vec![in rt.alloc(); b'x'; MAX_INPUT + 1]?;
    assert_writes(&rt, &["replay"], &input, 7, TOO_LONG)
}

/// The call behind that which gave one byte too many would fail. Nobody makes it: too much is told, and no fault.
#[test]
fn no_read_behind_too_much(rt: HostRuntime) -> Result<(), Fail> {
    let input = vec![in rt.alloc(); b'x'; MAX_INPUT + 1]?;
    let streams = Streams {
        most: 65_536,
        read_fails: &[257],
        write_fails: &[],
    };
    let (status, written) = called(&rt, &["replay"], &input, &streams)?;
    assert_eq!(rt; status, 7);
    assert_eq!(rt; written.as_slice(), TOO_LONG.as_bytes());
    Ok(())
}

/// The longest input of a check, of which most stands behind the journal, and one byte more.
#[test]
fn a_check_as_long_as_may_be(rt: HostRuntime) -> Result<(), Fail> {
    let mut input = EXAMPLE.as_bytes().to_vec(rt.alloc())?;
    input.extend_from_slice(JOURNAL.as_bytes())?;
    let rest = vec![in rt.alloc(); b'x'; MAX_INPUT - 296]?;
    input.extend_from_slice(&rest)?;
    assert_writes(&rt, &["check"], &input, 0, EXAMPLE_OUTPUT)?;
    input.push(b'\n')?;
    assert_writes(&rt, &["check"], &input, 7, TOO_LONG)
}
