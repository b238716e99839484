//! Lines, words and what a word says.

ghost use Rattle.std.specs.Prelude.{◌≡◌, ◌≢◌, ◌↔◌, ◌<◌, ◌≤◌, ◌∷◌, [], ◌++◌, length, Some, None, IfOk, IfSome, IfNone, IsTrue, if◌then◌else◌};
ghost use Rattle.std.specs.List.{All};
ghost use Rattle.hs_text.specs.Text.{has_bad_byte, has_bad_spaces, words_of, number_of, hex_of, is_payload, payload_of};
ghost use Rattle.hs_text.specs.LineFaults.{line_fault_of};

use crate::values::{decode_pairs, few_digits, few_hex_digits, hex_value, is_hex};
use hs_base::{Bytes, List, Memory};
use memchr::memchr;
use std::alloc::Global;

/// What is wrong with a line, whatever its words are.
#[derive(Clone, Copy)]
pub enum LineFault {
    /// It has a byte that does not print.
    Byte,
    /// A word of it is empty: there is a space too many, or no word at all.
    Spaces,
}

/// The first line without its newline, and what follows the newline. `None` where there is none.
pub fn split_line(text: &[u8]) -> Option<(&[u8], &[u8])>
    ensures some { IfSome result (λ parts. text.now ≡ parts.0.now ++ 10 ∷ parts.1.now) }
    ensures line { IfSome result (λ parts. All (λ b. b ≢ 10) parts.0.now) }
    ensures none { IfNone result (All (λ b. b ≢ 10) text.now) }
{
    let end = memchr(b'\n', text)?;
    Some((&text[..end], &text[end + 1..]))
}

/// What is wrong with a line, a byte before spaces.
#[tactic(auto, using(crate::proofs::Lines::ended))]
pub fn line_fault(line: &[u8]) -> Option<LineFault>
    ensures { result ≡ line_fault_of line.now }
{
    let mut is_behind_space = true;
    let mut has_gap = false;
    for byte in line {
        if *byte < b' ' || b'~' < *byte {
            return Some(LineFault::Byte);
        }
        let is_space = *byte == b' ';
        if is_space && is_behind_space {
            has_gap = true;
        }
        is_behind_space = is_space;
    }
    if has_gap || is_behind_space {
        Some(LineFault::Spaces)
    } else {
        None
    }
}

/// How many words a line has: one more than it has spaces.
pub fn count_words(line: &[u8]) -> usize
    ensures { result ≡ length (words_of line.now) }
{
    line.split(|byte| *byte == b' ').count()
}

/// The first word of a line, and what follows the space behind it, where there is one.
pub fn split_word(line: &[u8]) -> (&[u8], Option<&[u8]>)
    ensures more { IfSome result.1 (λ rest. words_of line.now ≡ result.0.now ∷ words_of rest.now) }
    ensures last { IfNone result.1 (words_of line.now ≡ result.0.now ∷ []) }
    ensures shorter { IfSome result.1 (λ rest. length rest.now < length line.now) }
{
    match line.iter().position(|byte| *byte == b' ') {
        Some(end) => (&line[..end], Some(&line[end + 1..])),
        None => (line, None),
    }
}

/// Whether a line has no space, so that it is one word.
pub fn is_one_word(line: &[u8]) -> bool
    ensures { IsTrue result ↔ All (λ b. b ≢ 32) line.now }
{
    memchr(b' ', line).is_none()
}

/// The number that a word is, or `None` where it is not one.
pub fn number(word: &[u8]) -> Option<u64>
    ensures { result ≡ number_of word.now }
{
    let first = *word.first()?;
    if !first.is_ascii_digit() {
        return None;
    }
    if first == b'0' && word.len() != 1 {
        return None;
    }
    if word.len() < 20 {
        return few_digits(word);
    }
    std::str::from_utf8(word).ok()?.parse().ok()
}

/// The number that a word of so many digits is, or `None` where it is not one.
#[tactic(auto, using(crate::proofs::Pairs::digit_at))]
pub fn hex_number(word: &[u8], digits: u32) -> Option<u128>
    requires { digits ≤ 32 }
    ensures { result ≡ hex_of digits word.now }
{
    if word.len() != digits as usize || !is_hex(word) {
        return None;
    }
    let front = word.len().min(16);
    let mut number = u128::from(few_hex_digits(&word[..front]));
    for digit in &word[front..] {
        number = 16 * number + u128::from(hex_value(*digit));
    }
    Some(number)
}

/// Whether a word is a payload.
pub fn is_payload(word: &[u8]) -> bool
    ensures { result ≡ is_payload word.now }
{
    if word.len() == 1 {
        return word[0] == b'-';
    }
    !word.is_empty() && word.len() % 2 == 0 && is_hex(word)
}

/// How many bytes a payload has.
pub fn payload_len(word: &[u8]) -> usize
    requires { IsTrue (is_payload word.now) }
    ensures { IfSome (payload_of word.now) (λ bytes. result ≡ length bytes) }
{
    word.len() / 2
}

/// The bytes of a payload.
pub fn decode_payload(alloc: Global, word: &[u8]) -> Result<Bytes, Memory>
    requires { IsTrue (is_payload word.now) }
    ensures { IfOk result (λ bytes. payload_of word.now ≡ Some bytes.items) }
{
    if word.len() == 1 {
        return Ok(List::new(alloc));
    }
    let mut bytes = vec![in alloc; 0u8; word.len() / 2]?;
    decode_pairs(word, bytes.as_mut_slice());
    Ok(List::from_vec(bytes))
}
