//! Calls of the program over memory, with a gate.

use hs_base::{Gate, MemorySink, MemorySource, OpenGate};
use hs_cli::hindsight;
use std::alloc::{AllocError, Global};
use std::marker::Sync;
use std::process::Abort;
use std::sync::Wait;
use std::test::Fail;
use std::thread::Threads;

/// The words as texts of their own.
fn texts_of(alloc: Global, words: &[&str]) -> Result<Vec<String>, AllocError> {
    let mut texts = Vec::new(alloc);
    for word in words {
        texts.push(word.to_string(alloc)?)?;
    }
    Ok(texts)
}

/// What a call with these words, which ends well, wrote.
pub(crate) fn called<R: Threads + Wait + Sync + AllocGlobal + Abort, G: Gate>(
    rt: &R,
    words: &[&str],
    input: &str,
    gate: &G,
) -> Result<Vec<u8>, Fail> {
    let alloc = rt.alloc();
    let texts = texts_of(alloc, words)?;
    let mut source = MemorySource::new(alloc, input.as_bytes(), 1 << 20, &[])?;
    let mut sink = MemorySink::new(alloc, 1 << 24, 1 << 20, &[])?;
    let status = hindsight(rt, alloc, &texts, &mut source, &mut sink, gate);
    assert_eq!(rt; status.number(), 0);
    Ok(sink.bytes().to_vec(alloc)?)
}

/// A workload, and parts that the output of each of its runs has.
#[derive(Clone, Copy)]
pub(crate) struct Row {
    pub(crate) name: &'static str,
    pub(crate) input: &'static str,
    pub(crate) parts: &'static [&'static str],
}

/// An output that is lawful behind its workload. Answers what `check` writes of the two.
pub(crate) fn checked<R: Threads + Wait + Sync + AllocGlobal + Abort>(
    rt: &R,
    input: &str,
    output: &str,
) -> Result<Vec<u8>, Fail> {
    let both = format!(in rt.alloc(); "{input}{output}")?;
    called(rt, &["check"], both.as_str(), &OpenGate)
}

/// Each of the row's parts stands in the text.
fn assert_parts<R: Abort>(rt: &R, row: &Row, text: &str) {
    let name = row.name;
    for part in row.parts {
        assert!(rt; text.contains(*part), "{name}");
    }
}

/// Runs the row's workload under this gate, and looks for each of the row's parts. What was written in lines is what `check`
/// writes of it.
pub(crate) fn assert_held<R: Threads + Wait + Sync + AllocGlobal + Abort, G: Gate>(
    rt: &R,
    words: &[&str],
    row: &Row,
    gate: &G,
) -> Result<(), Fail> {
    let written = called(rt, words, row.input, gate)?;
    let text = str::from_utf8(&written).ok().ok_or("a text")?;
    assert_parts(rt, row, text);
    let again = checked(rt, row.input, text)?;
    let name = row.name;
    assert!(rt; words.len() > 1 || again == written, "{name}");
    Ok(())
}

/// The same under a gate that is always open.
pub(crate) fn assert_run<R: Threads + Wait + Sync + AllocGlobal + Abort>(
    rt: &R,
    words: &[&str],
    row: &Row,
) -> Result<(), Fail> {
    assert_held(rt, words, row, &OpenGate)
}
