//! Draws that are given.

ghost use Rattle.std.specs.Prelude.{◌≡◌, ◌≤◌, None, IfOk, map};
ghost use Rattle.hs_base.specs.declared.limits.TheConstants.{MIN_SIZE, MAX_SIZE};
ghost use Rattle.hs_check_follow.specs.Scripts.{IsClearOf};

use hs_base::{List, Memory};
use hs_records::Draw;
use hs_replay_client::Well;
use hs_words::{Chunk, Drawn, Held, Stock};
use std::alloc::Global;
use std::collections::VecDeque;

/// The draws that are still to be made, and what their buffers are made with. Each draw that got a buffer makes a clear one; which
/// number it has does not matter to what is sent.
#[derive(Drop)]
pub(crate) struct DrawScript {
    pub(crate) alloc: Global,
    pub(crate) size: u32,
    pub(crate) left: VecDeque<Draw>,
}

impl DrawScript {
    /// A script of these draws, of which none was made, for buffers of this size in bytes.
    pub(crate) fn make(alloc: Global, size: u32, draws: &[Draw]) -> Result<DrawScript, Memory>
        ensures left { IfOk result (λ script. script.left.items ≡ draws.now) }
        ensures size { IfOk result (λ script. script.size ≡ size) }
    {
        let mut left = VecDeque::new(alloc);
        for draw in draws {
            left.push_back(*draw)?;
        }
        Ok(DrawScript { alloc, size, left })
    }
}

impl Well for DrawScript {
    ghost use Rattle.hs_check_follow.specs.Scripts.{script_way};

    ghost way = { script_way };

    fn next_draw(&mut self) -> Result<Drawn<()>, Memory> {
        match self.left.pop_front() {
            Some(Draw::Got { stamp, .. }) => {
                let chunk = clear_chunk(self.alloc, self.size)?;
                Ok(Drawn::Got {
                    held: Held { chunk, lease: () },
                    stamp,
                })
            }
            Some(Draw::Empty { stamp }) => Ok(Drawn::Empty { stamp }),
            None => Ok(Drawn::Empty { stamp: 0 }),
        }
    }
}

/// A clear buffer of this size in bytes.
fn clear_chunk(alloc: Global, size: u32) -> Result<Chunk, Memory>
    requires least { MIN_SIZE ≤ size }
    requires most { size ≤ MAX_SIZE }
    ensures { IfOk result (IsClearOf size) }
{
    let mut chunks = Stock::make(alloc, 1, size)?;
    match chunks.pop() {
        Some(chunk) => Ok(chunk),
        None => unreachable!(),
    }
}
