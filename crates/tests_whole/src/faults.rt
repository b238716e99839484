//! Streams that fail: each call of the source in turn, and then each call of the sink.

use crate::calls::{EXAMPLE, EXAMPLE_OUTPUT, JOURNAL, Streams, called};
use std::alloc::{AllocError, Global};
use std::marker::Sync;
use std::process::Abort;
use std::sync::Wait;
use std::test::Fail;
use std::thread::Threads;

/// The journal of the example without its turn.
const NO_TURN: &str =
    "journal 1 1 1\ndraws 0 0\ngot 0 0\nempty 1\nlog 0\nchunk 0\ncoordinator\nend\n";

/// More calls than a stream gets here.
const CALLS: u32 = 300;

/// A call of the program over the example and a journal behind it, with what it ends with and writes where nothing fails.
#[derive(Clone, Copy)]
struct Row {
    word: &'static str,
    journal: &'static str,
    status: u8,
    output: &'static str,
    /// The most bytes that a stream gives or takes at once.
    most: usize,
    /// How many bytes of the output are written before the others: the example's journal has 75.
    front: usize,
    /// How often the source is asked. The example has 221 bytes, its journal 75, that without a turn 70, and the end is asked for.
    reads: u32,
}

const ROWS: [Row; 5] = [
    Row {
        word: "replay",
        journal: "",
        status: 0,
        output: EXAMPLE_OUTPUT,
        most: 1,
        front: 75,
        reads: 222,
    },
    Row {
        word: "replay",
        journal: "",
        status: 0,
        output: EXAMPLE_OUTPUT,
        most: 10,
        front: 75,
        reads: 24,
    },
    Row {
        word: "check",
        journal: JOURNAL,
        status: 0,
        output: EXAMPLE_OUTPUT,
        most: 10,
        front: 75,
        reads: 31,
    },
    Row {
        word: "check",
        journal: NO_TURN,
        status: 8,
        output: "unlawful L5\n",
        most: 10,
        front: 0,
        reads: 31,
    },
    Row {
        word: "check",
        journal: "",
        status: 3,
        output: "refused journal line 1 Truncated\n",
        most: 10,
        front: 0,
        reads: 24,
    },
];

impl Row {
    fn input(&self, alloc: Global) -> Result<String, AllocError> {
        let journal = self.journal;
        format!(in alloc; "{EXAMPLE}{journal}")
    }

    /// How many bytes so many calls of the sink take.
    fn taken(&self, calls: u32) -> usize {
        let most = self.most.max(1);
        let calls = calls as usize;
        let more = calls.saturating_sub(self.front.div_ceil(most));
        if more == 0 {
            return self.front.min(most.saturating_mul(calls));
        }
        self.front.saturating_add(most.saturating_mul(more))
    }

    /// How many calls of the sink take all of the output.
    fn writes(&self) -> usize {
        let most = self.most.max(1);
        let behind = self.output.len().saturating_sub(self.front);
        self.front
            .div_ceil(most)
            .saturating_add(behind.div_ceil(most))
    }
}

/// Each call of the source fails in turn, until the program meets no fault. Answers how many it met.
fn read_faults<R: Threads + Wait + Sync + AllocGlobal + Abort>(
    rt: &R,
    row: &Row,
) -> Result<u32, Fail> {
    let input = row.input(rt.alloc())?;
    for call in 0..CALLS {
        let streams = Streams {
            most: row.most.max(1),
            read_fails: &[call],
            write_fails: &[],
        };
        let (status, written) = called(rt, &[row.word], input.as_bytes(), &streams)?;
        if status == row.status {
            assert_eq!(rt; written.as_slice(), row.output.as_bytes());
            return Ok(call);
        }
        assert_eq!(rt; status, 4, "{call}");
        assert!(rt; written.is_empty(), "{call}");
    }
    Ok(CALLS)
}

/// The same for the sink. What was written by then begins the output.
fn write_faults<R: Threads + Wait + Sync + AllocGlobal + Abort>(
    rt: &R,
    row: &Row,
) -> Result<u32, Fail> {
    let input = row.input(rt.alloc())?;
    for call in 0..CALLS {
        let streams = Streams {
            most: row.most.max(1),
            read_fails: &[],
            write_fails: &[call],
        };
        let (status, written) = called(rt, &[row.word], input.as_bytes(), &streams)?;
        if status == row.status {
            assert_eq!(rt; written.as_slice(), row.output.as_bytes());
            return Ok(call);
        }
        assert_eq!(rt; status, 5, "{call}");
        let whole = row.output.as_bytes();
        assert_eq!(rt; Some(written.as_slice()), whole.get(..row.taken(call)));
    }
    Ok(CALLS)
}

#[test]
fn each_read_fails(rt: HostRuntime) -> Result<(), Fail> {
    for row in &ROWS {
        assert_eq!(rt; read_faults(&rt, row)?, row.reads);
    }
    Ok(())
}

#[test]
fn each_write_fails(rt: HostRuntime) -> Result<(), Fail> {
    for row in &ROWS {
        assert_eq!(rt; write_faults(&rt, row)? as usize, row.writes());
    }
    Ok(())
}
