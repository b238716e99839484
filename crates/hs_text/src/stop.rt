//! Why a line was not taken.

ghost use Rattle.std.specs.Prelude.{◌≡◌};
ghost use Rattle.hs_text.specs.declared.stop.Stop.TheVariants.{Memory as OutOfMemory};

use hs_base::Memory;

/// What ends the reading of a line: want of memory, or the reason for which the line is refused.
#[derive(Clone, Copy)]
pub enum Stop<R> {
    Memory,
    Fault(R),
}

impl<R> From<Memory> for Stop<R> {
    ghost from_gives = { λ _ stop. stop ≡ OutOfMemory };

    fn from(_memory: Memory) -> Stop<R> {
        Stop::Memory
    }
}
