//! The law of a ring's buffers. It is the contract of a function that does nothing.

ghost use Rattle.std.specs.Prelude.{ℕ, ◌<◌, Option};
ghost use Rattle.atomic_table.specs.Table.{State};
ghost use Rattle.hs_words.specs.Chunks.{Contents};
ghost use Rattle.hs_ring.specs.Views.{View};
ghost use Rattle.hs_words.specs.Plans.{Plan};
ghost use Rattle.hs_ring.specs.Rule.{RingRule};
ghost use Rattle.hs_ring.specs.Places.{IsInOnePlace};

/// Between any two steps of the threads, each buffer of a ring is in one place and in no other: its chunk waits in an entry,
/// or one drawer has it in hand, or one lease lets it be written, or the giver has it. So none is lost. A lease that was dropped keeps its buffer.
pub fn each_buffer_is_in_one_place()
    ensures { (plan : Plan) (s : State (Option Contents) View) → RingRule plan s → (buffer : ℕ) → buffer < plan.buffers → IsInOnePlace plan.size s buffer }
{}
