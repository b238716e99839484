//! Lines that are long and many, and texts that are looked at whole. Each kind of word and number is read and written by the rows of
//! `cases/convert` and `cases/refused`.

use crate::rows::row;
use hs_base::limits::MAX_PAYLOAD;
use hs_base::{Memory, TraceId};
use hs_text::{
    decode_payload, end_line, is_payload, is_tidy, payload_len, push_hex, push_number,
    push_payload, push_spaced, push_spaced_numbers, push_spaced_traces,
};
use std::alloc::Global;

/// Texts of more than thirty-two bytes, which are looked at by pieces, and short ones; and whether each is tidy.
const TEXTS: [(&[u8], bool); 6] = [
    (
        b"ask\ngot 1 2\nno newline behind this longer line of more than thirty-two bytes",
        true,
    ),
    (
        b"got 1 2\na space at the end of a line of more than thirty-two bytes \nask\n",
        false,
    ),
    (
        b"got 1 2\ntwo spaces in a line  of more than thirty-two bytes\nask\n",
        false,
    ),
    (b"ask\n\nturn\n", false),
    (b"ask\r\n", false),
    (b"ask\n\x80\n", false),
];

fn texts_are_looked_at() -> bool {
    let mut right = true;
    for (text, tidy) in TEXTS {
        right &= is_tidy(text) == tidy;
    }
    right
}

/// Whether the bytes are those of the payload that is written of them.
fn comes_back(alloc: Global, bytes: &[u8]) -> Result<bool, Memory> {
    let mut word = Vec::new(alloc);
    push_payload(&mut word, bytes)?;
    if !is_payload(&word) || payload_len(&word) != bytes.len() {
        return Ok(false);
    }
    Ok(decode_payload(alloc, &word)?.as_slice() == bytes)
}

/// The longest payload.
fn the_longest_comes_back(alloc: Global) -> Result<bool, Memory> {
    let longest = vec![in alloc; 0xa5; MAX_PAYLOAD]?;
    comes_back(alloc, &longest)
}

/// A number, a word of 32 digits, one of no digit, and the end of a line.
fn push_line(text: &mut Vec<u8>) -> Result<(), Memory> {
    push_number(text, 0)?;
    push_hex(text, 32, 0)?;
    push_hex(text, 0, 1)?;
    push_spaced(text, b"")?;
    end_line(text)
}

/// 300,000 lines.
fn many_lines_are_written(alloc: Global) -> Result<bool, Memory> {
    let mut text = Vec::new(alloc);
    for _time in 0..300_000u32 {
        push_line(&mut text)?;
    }
    Ok(text.len() == 10_500_000)
}

/// Numbers and traces on one line.
fn push_long(text: &mut Vec<u8>, numbers: &[u64], traces: &[TraceId]) -> Result<(), Memory> {
    push_spaced_numbers(text, numbers)?;
    push_spaced_traces(text, 2, traces)
}

/// 100,000 numbers and traces on one line.
fn a_long_line_is_written(alloc: Global) -> Result<bool, Memory> {
    let numbers = vec![in alloc; u64::MAX; 100_000]?;
    let traces = vec![in alloc; TraceId(u128::MAX); 100_000]?;
    let mut text = Vec::new(alloc);
    push_long(&mut text, &numbers, &traces)?;
    Ok(text.len() == 5_400_000)
}

#[test]
fn texts(rt: HostRuntime) {
    row(&rt, "texts are looked at", Ok(texts_are_looked_at()));
    row(&rt, "no byte comes back", comes_back(rt.alloc(), &[]));
    row(&rt, "bytes come back", comes_back(rt.alloc(), &[187, 15]));
    row(
        &rt,
        "the longest comes back",
        the_longest_comes_back(rt.alloc()),
    );
    row(&rt, "many lines", many_lines_are_written(rt.alloc()));
    row(&rt, "a long line", a_long_line_is_written(rt.alloc()));
}
