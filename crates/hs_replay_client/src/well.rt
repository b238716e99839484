//! Where a client draws from.

ghost use Rattle.std.specs.Prelude.{ℕ, ◌+◌, IfOk, OnOk};
ghost use Rattle.hs_replay_client.specs.Wells.{Way, IsClear, note_drawn};

use hs_base::Memory;
use hs_words::Drawn;

/// Where a client of one thread draws from: the pool of its node, or draws that are given.
pub trait Well {
    /// For how many draws it is ready, and what one does. An implementation says here what its callers want to know.
    ghost way: { Way Self };

    /// The next draw. Something is wanting only where memory is.
    fn next_draw(&mut self) -> Result<Drawn<()>, Memory>
        requires { (size : ℕ) × way.ready self.old size 1 }
        ensures clear { (size more : ℕ) → way.ready self.old size (more + 1) → IfOk result (IsClear size) }
        ensures ready { (size more : ℕ) → way.ready self.old size (more + 1) → OnOk result (way.ready self.new size more) }
        ensures draws { IfOk result (λ drawn. way.draws self.old (note_drawn drawn) self.new) };
}
