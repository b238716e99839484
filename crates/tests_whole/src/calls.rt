//! Calls of the program over memory.

ghost use Rattle.std.specs.Prelude.{◌<◌};

use hs_base::{MemorySink, MemorySource, OpenGate};
use hs_cli::hindsight;
use std::alloc::{AllocError, Global};
use std::marker::Sync;
use std::process::Abort;
use std::sync::Wait;
use std::test::Fail;
use std::thread::Threads;

/// The example: one buffer and three records, of which the third finds the pool empty.
pub(crate) const EXAMPLE: &str =
    "hindsight 1\nnodes 1\nclients 1\nbuffers 1\nsize 64\nthreshold 1\ntraces 4\npins 4\nstride 8\nclient 0 0\nbegin 0000000000000001\npoint 100 00112233445566778899\npoint 101 00112233445566778899\npoint 102 00112233445566778899\nend\ndone\n";

/// What the example's replay writes.
pub(crate) const EXAMPLE_OUTPUT: &str = "journal 1 1 1
draws 0 0
got 0 0
empty 1
log 0
chunk 0
turn
coordinator
end
reports 0
ledger 3
0 0 0 0000000000000001 live
0 0 1 0000000000000001 live
0 0 2 0000000000000001 null 1
total 3 live 2 reported 0 null 1 evicted 0 abandoned 0
done
";

/// The journal of the example.
pub(crate) const JOURNAL: &str =
    "journal 1 1 1\ndraws 0 0\ngot 0 0\nempty 1\nlog 0\nchunk 0\nturn\ncoordinator\nend\n";

/// How a source and a sink behave: the most bytes of a call, and the numbers of the calls that fail.
#[derive(Clone, Copy)]
pub(crate) struct Streams<'a> {
    pub(crate) most: usize,
    pub(crate) read_fails: &'a [u32],
    pub(crate) write_fails: &'a [u32],
}

/// Streams that do not fail.
pub(crate) const WHOLE: Streams<'static> = Streams {
    most: 1 << 20,
    read_fails: &[],
    write_fails: &[],
};

/// Streams of which the source fails at once.
pub(crate) const BLIND: Streams<'static> = Streams {
    most: 1 << 20,
    read_fails: &[0],
    write_fails: &[],
};

/// The words as texts of their own.
pub(crate) fn texts_of(alloc: Global, words: &[&str]) -> Result<Vec<String>, AllocError> {
    let mut texts = Vec::new(alloc);
    for word in words {
        texts.push(word.to_string(alloc)?)?;
    }
    Ok(texts)
}

/// The status number of a call with these words, and what it wrote.
pub(crate) fn called<R: Threads + Wait + Sync + AllocGlobal>(
    rt: &R,
    words: &[&str],
    input: &[u8],
    streams: &Streams,
) -> Result<(u8, Vec<u8>), Fail>
    requires { 0 < streams.now.most }
{
    let alloc = rt.alloc();
    let texts = texts_of(alloc, words)?;
    let mut source = MemorySource::new(alloc, input, streams.most, streams.read_fails)?;
    let mut sink = MemorySink::new(alloc, 1 << 24, streams.most, streams.write_fails)?;
    let status = hindsight(rt, alloc, &texts, &mut source, &mut sink, &OpenGate);
    Ok((status.number(), sink.bytes().to_vec(alloc)?))
}

/// A call that ends with this status and writes this text.
pub(crate) fn assert_writes<R: Threads + Wait + Sync + AllocGlobal + Abort>(
    rt: &R,
    words: &[&str],
    input: &[u8],
    status: u8,
    wanted: &str,
) -> Result<(), Fail> {
    let (ended, written) = called(rt, words, input, &WHOLE)?;
    assert_eq!(rt; ended, status, "{wanted}");
    assert_eq!(rt; written.as_slice(), wanted.as_bytes());
    Ok(())
}

/// A call that ends well, and all that it wrote.
pub(crate) fn outcome<R: Threads + Wait + Sync + AllocGlobal + Abort>(
    rt: &R,
    words: &[&str],
    input: &[u8],
) -> Result<Vec<u8>, Fail> {
    let (status, written) = called(rt, words, input, &WHOLE)?;
    assert_eq!(rt; status, 0);
    Ok(written)
}

/// An output that is lawful behind its workload: checking it writes it again.
pub(crate) fn assert_lawful<R: Threads + Wait + Sync + AllocGlobal + Abort>(
    rt: &R,
    input: &str,
    output: &[u8],
) -> Result<(), Fail> {
    let mut both = input.as_bytes().to_vec(rt.alloc())?;
    both.extend_from_slice(output)?;
    let written = outcome(rt, &["check"], &both)?;
    assert!(rt; written.as_slice() == output);
    Ok(())
}
