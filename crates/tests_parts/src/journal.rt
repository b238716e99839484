//! A journal that comes back, one of great length, the example cut at each byte, and what stands behind an end. What a journal says is shown
//! by `cases/lawful`, and each reason to refuse one by `cases/no-journal`.

use crate::rows::row;
use crate::workload::{line_behind, push_often};
use hs_base::Memory;
use hs_journal::{JournalError, JournalReason, read_journal, write_journal};
use std::alloc::{AllocError, Global};

/// A client draws twice and finds the pool empty at the second draw.
const EXAMPLE: &[u8] =
    b"journal 1 1 1\ndraws 0 0\ngot 0 0\nempty 1\nlog 0\nchunk 0\nturn\ncoordinator\nend\n";

/// A journal with a line of each kind.
const EACH_KIND: &[u8] =
    b"journal 1 2 1\ndraws 0 0\ngot 1023 18446744073709551615\ndraws 1 0\nlog 0\ncrumb 0\ntrigger 0\nask\nlog 1\ngiven 3\nmissed 4\nunread\ncoordinator\ntold 1\ntold 0\nend\n";

/// The line and the reason for which a text is refused.
fn refusal_of(alloc: Global, text: &[u8]) -> Option<(u32, JournalReason)> {
    if text.len() >= 1000 {
        return None;
    }
    match read_journal(alloc, text) {
        Err(JournalError::Refused(refusal)) => Some((refusal.line, refusal.reason)),
        _ => None,
    }
}

/// Cut at any byte the example is truncated in the line of the cut.
fn every_prefix_is_truncated(alloc: Global) -> bool {
    let mut right = true;
    let mut line = 1;
    for (cut, byte) in EXAMPLE.iter().enumerate() {
        right &= refusal_of(alloc, &EXAMPLE[..cut]) == Some((line, JournalReason::Truncated));
        line = line_behind(line, *byte);
    }
    right && line == 10
}

/// A journal with a line behind its end, and the first reason of that line. A line that comes earlier is refused in
/// `cases/no-journal`, where what stands behind the end is not looked at.
const BEHIND_THE_END: [(&[u8], JournalReason); 3] = [
    (
        b"journal 1 1 1\ndraws 0 0\nlog 0\ncoordinator\nend\nend\n",
        JournalReason::Word,
    ),
    (
        b"journal 1 1 1\ndraws 0 0\nlog 0\ncoordinator\nend\n\n",
        JournalReason::Spaces,
    ),
    (
        b"journal 1 1 1\ndraws 0 0\nlog 0\ncoordinator\nend\nend",
        JournalReason::Truncated,
    ),
];

/// Whether each is refused in that line.
fn ends_are_last(alloc: Global) -> bool {
    let mut right = true;
    for (text, reason) in BEHIND_THE_END {
        right &= refusal_of(alloc, text) == Some((6, reason));
    }
    right
}

/// A journal of one client with so many draws and steps, and as many messages.
fn journal_of(alloc: Global, count: u32) -> Result<Vec<u8>, AllocError> {
    let mut text = Vec::from_slice(alloc, b"journal 1 1 1\ndraws 0 0\n")?;
    push_often(&mut text, b"got 1023 18446744073709551615\n", count)?;
    text.extend_from_slice(b"log 0\n")?;
    push_often(&mut text, b"given 18446744073709551615\n", count)?;
    text.extend_from_slice(b"coordinator\n")?;
    push_often(&mut text, b"told 0\n", count)?;
    text.extend_from_slice(b"end\n")?;
    Ok(text)
}

/// Whether the text is read as a journal that is written as this text.
fn comes_back(alloc: Global, text: &[u8]) -> Result<bool, Memory> {
    if text.len() >= u32::MAX as usize {
        return Ok(false);
    }
    let Ok(journal) = read_journal(alloc, text) else {
        return Ok(false);
    };
    Ok(write_journal(alloc, &journal)?.as_slice() == text)
}

/// A journal of so many draws, steps and messages comes back.
fn a_long_one_comes_back(alloc: Global, count: u32) -> Result<bool, Memory> {
    let text = journal_of(alloc, count)?;
    comes_back(alloc, &text)
}

#[test]
fn journals(rt: HostRuntime) {
    row(&rt, "the example", comes_back(rt.alloc(), EXAMPLE));
    row(&rt, "each kind of line", comes_back(rt.alloc(), EACH_KIND));
    row(&rt, "prefixes", Ok(every_prefix_is_truncated(rt.alloc())));
    row(&rt, "ends", Ok(ends_are_last(rt.alloc())));
    row(
        &rt,
        "80,000 of each",
        a_long_one_comes_back(rt.alloc(), 80_000),
    );
    row(&rt, "none", a_long_one_comes_back(rt.alloc(), 0));
}
