//! Reading a source to its end, up to the longest input.

ghost use Rattle.std.specs.Prelude.{◌≡◌, IfOk, vec_len};
ghost use Rattle.hs_workload.specs.Reading.{IsReadBy};

use hs_base::limits::MAX_INPUT;
use hs_base::{Memory, Source};
use std::alloc::Global;

/// How many bytes are asked for at once.
const PIECE: usize = 65_536;

/// What came from a source.
#[derive(Drop)]
pub enum ReadInput {
    /// All that the source had, which is no more than an input may have.
    Whole(Vec<u8>),
    /// One byte more than an input may have.
    TooLong,
    /// The source failed.
    Fault,
    /// There was no memory for it.
    NoMemory,
}

/// A buffer of so many bytes, each 0, to read into.
fn zeros(alloc: Global, count: usize) -> Result<Vec<u8>, Memory>
    ensures { IfOk result (λ bytes. vec_len bytes ≡ count) }
{
    Ok(vec![in alloc; 0u8; count]?)
}

/// Reads all that the source has, and stops at the first byte beyond the longest input.
pub fn read_all<S: Source>(alloc: Global, source: &mut S) -> ReadInput
    ensures read { IsReadBy (S.left source.old) (S.left source.new) (S.faults source.old) (S.faults source.new) result }
{
    let Ok(mut piece) = zeros(alloc, PIECE) else {
        return ReadInput::NoMemory;
    };
    let mut text = Vec::new(alloc);
    while text.len() <= MAX_INPUT {
        let most = PIECE.min(MAX_INPUT + 1 - text.len());
        let front = &mut piece[..most];
        let Ok(count) = source.read(front) else {
            return ReadInput::Fault;
        };
        if count == 0 {
            return ReadInput::Whole(text);
        }
        let Ok(()) = text.extend_from_slice(&front[..count]) else {
            return ReadInput::NoMemory;
        };
    }
    ReadInput::TooLong
}
