//! Words as they are written.

ghost use Rattle.std.specs.Prelude.{◌≡◌, ◌≤◌, ◌++◌, ◌∷◌, [], decimal, map, OnOk, OnErr};
ghost use Rattle.hs_text.specs.Text.{hex_text, payload_text};
ghost use Rattle.hs_text.specs.Writing.{spaced, trace_word};

use crate::digits::{hex_sixteen, put_number, write_hex};
use hs_base::{Memory, TraceId};

const HEX_DIGITS: [u8; 16] = *b"0123456789abcdef";

/// The least number of nine digits.
const LONG: u64 = 100_000_000;

/// Appends a number of any length. After an `Err` the text is as it was. It stands apart, so that what short numbers take stays small.
#[inline(never)]
fn push_long(out: &mut Vec<u8>, number: u64) -> Result<(), Memory>
    ensures ok { OnOk result (out.new.items ≡ out.old.items ++ decimal number) }
    ensures err { OnErr result (out.new.items ≡ out.old.items) }
{
    out.extend_from_slice(itoa::Buffer::new().format(number).as_bytes())?;
    Ok(())
}

/// Appends a number. After an `Err` the text is as it was.
pub fn push_number(out: &mut Vec<u8>, number: u64) -> Result<(), Memory>
    ensures ok { OnOk result (out.new.items ≡ out.old.items ++ decimal number) }
    ensures err { OnErr result (out.new.items ≡ out.old.items) }
{
    if number >= LONG {
        return push_long(out, number);
    }
    out.reserve(8)?;
    put_number(out, number);
    Ok(())
}

/// Appends the lowest hexadecimal digits of a number, so many of them. After an `Err` the text is as it
/// was.
pub fn push_hex(out: &mut Vec<u8>, digits: u32, number: u128) -> Result<(), Memory>
    requires { digits ≤ 32 }
    ensures ok { OnOk result (out.new.items ≡ out.old.items ++ hex_text digits number) }
    ensures err { OnErr result (out.new.items ≡ out.old.items) }
{
    if digits == 16 {
        out.extend_from_slice(&hex_sixteen(number))?;
        return Ok(());
    }
    let mut text = [b'0'; 32];
    let mut rest = number;
    let digits = digits as usize;
    for place in (0..digits).rev() {
        text[place] = HEX_DIGITS[(rest % 16) as usize];
        rest /= 16;
    }
    out.extend_from_slice(&text[..digits])?;
    Ok(())
}

/// Appends a payload. After an `Err` the text is as it was.
pub fn push_payload(out: &mut Vec<u8>, bytes: &[u8]) -> Result<(), Memory>
    ensures ok { OnOk result (out.new.items ≡ out.old.items ++ payload_text bytes.now) }
    ensures err { OnErr result (out.new.items ≡ out.old.items) }
{
    if bytes.is_empty() {
        out.push(b'-')?;
        return Ok(());
    }
    let start = out.len();
    let Some(end) = start.checked_add(2 * bytes.len()) else {
        return Err(Memory);
    };
    out.resize(end, 0)?;
    write_hex(&mut out[start..], bytes);
    Ok(())
}

/// Appends a word behind a space. After an `Err` of this call and of those below, no clause says what the text is.
pub fn push_spaced(out: &mut Vec<u8>, word: &[u8]) -> Result<(), Memory>
    ensures { OnOk result (out.new.items ≡ out.old.items ++ 32 ∷ word.now) }
{
    out.extend_from_slice(b" ")?;
    out.extend_from_slice(word)?;
    Ok(())
}

/// Appends a number behind a space.
pub fn push_spaced_number(out: &mut Vec<u8>, number: u64) -> Result<(), Memory>
    ensures { OnOk result (out.new.items ≡ out.old.items ++ 32 ∷ decimal number) }
{
    if number >= LONG {
        out.extend_from_slice(b" ")?;
        return push_long(out, number);
    }
    out.reserve(9)?;
    out.push_reserved(b' ');
    put_number(out, number);
    Ok(())
}

/// Appends the lowest hexadecimal digits of a number, so many of them, behind a space.
pub fn push_spaced_hex(out: &mut Vec<u8>, digits: u32, number: u128) -> Result<(), Memory>
    requires { digits ≤ 32 }
    ensures { OnOk result (out.new.items ≡ out.old.items ++ 32 ∷ hex_text digits number) }
{
    out.extend_from_slice(b" ")?;
    push_hex(out, digits, number)
}

/// Appends the 16 lowest hexadecimal digits of a number behind a space.
fn push_spaced_sixteen(out: &mut Vec<u8>, number: u128) -> Result<(), Memory>
    ensures { OnOk result (out.new.items ≡ out.old.items ++ 32 ∷ hex_text 16 number) }
{
    out.extend_from_slice(b" ")?;
    out.extend_from_slice(&hex_sixteen(number))?;
    Ok(())
}

/// Appends a trace behind a space, in as many digits as the version has.
pub fn push_spaced_trace(out: &mut Vec<u8>, version: u8, trace: TraceId) -> Result<(), Memory>
    ensures { OnOk result (out.new.items ≡ out.old.items ++ 32 ∷ trace_word version trace) }
{
    if version == 1 {
        return push_spaced_sixteen(out, trace.0);
    }
    push_spaced_sixteen(out, trace.0 / 18_446_744_073_709_551_616)?;
    out.extend_from_slice(&hex_sixteen(trace.0))?;
    Ok(())
}

/// Appends a payload behind a space.
pub fn push_spaced_payload(out: &mut Vec<u8>, bytes: &[u8]) -> Result<(), Memory>
    ensures { OnOk result (out.new.items ≡ out.old.items ++ 32 ∷ payload_text bytes.now) }
{
    out.extend_from_slice(b" ")?;
    push_payload(out, bytes)
}

/// Appends numbers, each behind a space.
#[inline(always)]
pub fn push_spaced_numbers(out: &mut Vec<u8>, numbers: &[u64]) -> Result<(), Memory>
    ensures { OnOk result (out.new.items ≡ out.old.items ++ spaced (map decimal numbers.now)) }
{
    for number in numbers {
        push_spaced_number(out, *number)?;
    }
    Ok(())
}

/// Appends traces, each behind a space, in as many digits as the version has.
pub fn push_spaced_traces(out: &mut Vec<u8>, version: u8, traces: &[TraceId]) -> Result<(), Memory>
    ensures { OnOk result (out.new.items ≡ out.old.items ++ spaced (map (trace_word version) traces.now)) }
{
    for trace in traces {
        push_spaced_trace(out, version, *trace)?;
    }
    Ok(())
}

/// Ends a line.
pub fn end_line(out: &mut Vec<u8>) -> Result<(), Memory>
    ensures { OnOk result (out.new.items ≡ out.old.items ++ 10 ∷ []) }
{
    out.extend_from_slice(b"\n")?;
    Ok(())
}
