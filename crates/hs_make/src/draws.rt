//! Words of a generator, and what single words give.

ghost use Rattle.std.specs.Prelude.{◌≡◌, ◌<◌, ◌%◌, IfOk, OnOk};
ghost use Rattle.hs_make.specs.Words.{words_from, from};
ghost use Rattle.hs_make.specs.Made.{payload_at, behind_payload};

use hs_base::{Bytes, Memory};
use rand_core::utils::NextWord;
use rand_xoshiro::Xoshiro256PlusPlus;
use std::alloc::Global;

/// How many lengths a payload may have, from 0 bytes on.
const PAYLOAD_LENGTHS: u64 = 41;

/// How many values a byte has.
const BYTE_VALUES: u64 = 256;

/// The next word.
pub(crate) fn draw(generator: &mut Xoshiro256PlusPlus) -> u64
    ensures word { result ≡ words_from generator.old 0 }
    ensures rest { words_from generator.new ≡ from 1 (words_from generator.old) }
{
    generator.next_word()
}

/// The next word modulo a number.
pub(crate) fn pick(generator: &mut Xoshiro256PlusPlus, below: u64) -> u64
    requires { 0 < below }
    ensures picked { result ≡ words_from generator.old 0 % below }
    ensures rest { words_from generator.new ≡ from 1 (words_from generator.old) }
{
    draw(generator) % below
}

/// A payload: its length, and then its bytes.
pub(crate) fn draw_payload(
    alloc: Global,
    generator: &mut Xoshiro256PlusPlus,
) -> Result<Bytes, Memory>
    ensures payload { IfOk result (λ payload. payload.items ≡ payload_at (words_from generator.old)) }
    ensures rest { OnOk result (words_from generator.new ≡ behind_payload (words_from generator.old)) }
{
    let length = pick(generator, PAYLOAD_LENGTHS) as usize;
    let mut payload = Bytes::with_room(alloc, length)?;
    'bytes: for _ in 0..length {
        payload.push(pick(generator, BYTE_VALUES) as u8);
    }
    Ok(payload)
}
