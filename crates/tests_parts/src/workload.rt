//! Texts of as many operations as may be, of one more, and of a payload that is too long; and the example cut at each byte. Each other
//! reason to refuse a text has its files in `cases/refused`, and what is read and written stands in `cases/convert`.

use crate::rows::row;
use hs_base::Memory;
use hs_base::limits::MAX_PAYLOAD;
use hs_workload::{ReadError, Reason, Refusal, read_workload, write_workload};
use std::alloc::{AllocError, Global};

/// The head of the least workload of version 1, nine lines.
const HEAD: &[u8] =
    b"hindsight 1\nnodes 1\nclients 1\nbuffers 1\nsize 64\nthreshold 1\ntraces 4\npins 4\nstride 8\n";

/// One client with three points.
const EXAMPLE: &[u8] =
    b"hindsight 1\nnodes 1\nclients 1\nbuffers 1\nsize 64\nthreshold 1\ntraces 4\npins 4\nstride 8\nclient 0 0\nbegin 0000000000000001\npoint 100 00112233445566778899\npoint 101 00112233445566778899\npoint 102 00112233445566778899\nend\ndone\n";

/// Each kind of line, with numbers at both ends of their ranges, in version 1.
const NARROW: &[u8] =
    b"hindsight 1\nnodes 2\nclients 2\nbuffers 3\nsize 64\nthreshold 0\ntraces 7\npins 0\nstride 64\ntriggerid 1 100 1000 0\ntriggerid 64 1 1 1000000\nauto 0 exception 64\nauto 1 percentile 1 2 1\nauto 2 category 1 1024 9999\nauto 3 queue 64 16 9900 32\nclient 0 0\nbegin 00000000000000af\npoint 18446744073709551615 -\npoint 0 00ff\ncrumb 1\nsample 5 3 18446744073709551615\ntrigger 6 64 00000000000000af 00000000000000af ffffffffffffffff\nend\nclient 0 1\ntrigger 7 1 0000000000000000\nclient 1 0\nclient 1 1\nbegin ffffffffffffffff\nend\ndone\n";

/// Whether a text is refused in this line for this reason.
fn is_refused(alloc: Global, text: &[u8], line: u32, reason: Reason) -> bool {
    match read_workload(alloc, text) {
        Ok(_) => false,
        Err(error) => error == ReadError::Refused(Refusal { line, reason }),
    }
}

/// One more line where the byte ends one.
pub(crate) fn line_behind(line: u32, byte: u8) -> u32 {
    if byte == b'\n' {
        line.saturating_add(1)
    } else {
        line
    }
}

/// Pushes these bytes so often.
pub(crate) fn push_often(text: &mut Vec<u8>, bytes: &[u8], count: u32) -> Result<(), AllocError> {
    for _time in 0..count {
        text.extend_from_slice(bytes)?;
    }
    Ok(())
}

/// Cut at any byte the example is truncated in the line of the cut.
fn every_prefix_is_truncated(alloc: Global) -> bool {
    let mut right = true;
    let mut line: u32 = 1;
    for (end, byte) in EXAMPLE.iter().enumerate() {
        right &= is_refused(alloc, &EXAMPLE[..end], line, Reason::Truncated);
        line = line_behind(line, *byte);
    }
    right && line == 17
}

/// A point whose payload is one byte too long, in line 11.
fn push_long(text: &mut Vec<u8>) -> Result<(), AllocError> {
    text.extend_from_slice(b"client 0 0\npoint 1 ")?;
    push_often(text, b"00", MAX_PAYLOAD as u32 + 1)?;
    text.extend_from_slice(b"\n")
}

fn a_long_payload_is_refused(alloc: Global) -> Result<bool, Memory> {
    let mut text = HEAD.to_vec(alloc)?;
    push_long(&mut text)?;
    Ok(is_refused(alloc, &text, 11, Reason::Range))
}

/// A client's trace and a point of 65,520 bytes, which are 2,184 pieces, and then so many points.
fn push_points(text: &mut Vec<u8>, count: u32) -> Result<(), AllocError> {
    text.extend_from_slice(b"client 0 0\nbegin 0000000000000001\npoint 1 ")?;
    push_often(text, b"00", 65_520)?;
    text.extend_from_slice(b"\n")?;
    push_often(text, b"point 2 -\n", count)?;
    text.extend_from_slice(b"end\ndone\n")
}

/// The head, and such a client.
fn points(alloc: Global, count: u32) -> Result<Vec<u8>, AllocError> {
    let mut text = HEAD.to_vec(alloc)?;
    push_points(&mut text, count)?;
    Ok(text)
}

/// Whether a text is written as it was read, in version 1.
fn comes_back(alloc: Global, text: &[u8]) -> Result<bool, Memory> {
    let Ok(workload) = read_workload(alloc, text) else {
        return Ok(false);
    };
    Ok(write_workload(alloc, &workload)?.as_slice() == text)
}

/// The begin, the pieces, 259,958 more points and the end are 262,144 operations.
fn most_operations_come_back(alloc: Global) -> Result<bool, Memory> {
    let text = points(alloc, 259_958)?;
    comes_back(alloc, &text)
}

fn one_operation_more_is_refused(alloc: Global) -> Result<bool, Memory> {
    let text = points(alloc, 259_960)?;
    Ok(is_refused(alloc, &text, 259_972, Reason::TooMany))
}

#[test]
fn workloads(rt: HostRuntime) {
    row(&rt, "prefixes", Ok(every_prefix_is_truncated(rt.alloc())));
    row(&rt, "a long payload", a_long_payload_is_refused(rt.alloc()));
    row(&rt, "each kind of line", comes_back(rt.alloc(), NARROW));
    row(
        &rt,
        "most operations",
        most_operations_come_back(rt.alloc()),
    );
    row(
        &rt,
        "one operation more",
        one_operation_more_is_refused(rt.alloc()),
    );
}
