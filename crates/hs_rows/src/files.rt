//! The files of a row.

use std::io::ErrorKind;
use std::rt::Files;
use std::{fs, io};

/// The bytes of a file, and none where there is no such file.
pub(crate) fn bytes_at<R: Files + AllocGlobal>(rt: &R, path: &str) -> io::Result<Vec<u8>> {
    match fs::read(rt, path) {
        Err(error) if error.kind() == ErrorKind::NotFound => Ok(Vec::new(rt.alloc())),
        answer => answer,
    }
}

/// What a row says of a kind: in a file of its own, or in that of its folder, or else what is always meant.
pub(crate) fn said<R: Files + AllocGlobal>(
    rt: &R,
    folder: &str,
    name: &str,
    kind: &str,
    otherwise: &str,
) -> io::Result<String> {
    let own = format!(in rt.alloc(); "{folder}/{name}.{kind}")?;
    if fs::exists(rt, own.as_str())? {
        return fs::read_to_string(rt, own.as_str());
    }
    let shared = format!(in rt.alloc(); "{folder}/{kind}")?;
    if fs::exists(rt, shared.as_str())? {
        return fs::read_to_string(rt, shared.as_str());
    }
    Ok(otherwise.to_string(rt.alloc())?)
}

/// The words that a row says, one a line.
pub(crate) fn words_of<R: Files + AllocGlobal>(
    rt: &R,
    folder: &str,
    name: &str,
) -> io::Result<Vec<String>> {
    let text = said(rt, folder, name, "words", "replay")?;
    let mut words = Vec::new(rt.alloc());
    for word in text.lines() {
        words.push(word.to_string(rt.alloc())?)?;
    }
    Ok(words)
}

/// The status that a row says.
pub(crate) fn status_of<R: Files + AllocGlobal>(
    rt: &R,
    folder: &str,
    name: &str,
) -> io::Result<u8> {
    let text = said(rt, folder, name, "status", "0")?;
    match text.trim_end().parse() {
        Ok(status) => Ok(status),
        Err(_) => Err(ErrorKind::InvalidData.into()),
    }
}

/// The input of a row: the workload that it names, if any, and then its own text.
pub(crate) fn input_of<R: Files + AllocGlobal>(
    rt: &R,
    folder: &str,
    name: &str,
) -> io::Result<Vec<u8>> {
    let workload = said(rt, folder, name, "workload", "")?;
    let mut input = match workload.trim_end() {
        "" => Vec::new(rt.alloc()),
        path => fs::read(rt, path)?,
    };
    let own = format!(in rt.alloc(); "{folder}/{name}.txt")?;
    input.extend_from_slice(&bytes_at(rt, own.as_str())?)?;
    Ok(input)
}
