//! The law of a locked pool's buffers. It is the contract of a function that does nothing.

ghost use Rattle.std.specs.Prelude.{ℕ, ◌<◌};
ghost use Rattle.atomic_table.specs.Table.{State};
ghost use Rattle.hs_locked.specs.declared.store.Store.{Store};
ghost use Rattle.hs_locked.specs.Views.{View};
ghost use Rattle.hs_words.specs.Plans.{Plan};
ghost use Rattle.hs_locked.specs.Rule.{LockedRule};
ghost use Rattle.hs_locked.specs.Places.{IsInOnePlace};

/// Between any two steps of the threads, each buffer of a locked pool is in one place and in no other: it waits in the store,
/// or one drawer has it in hand, or one lease lets it be written, or the giver has it. So none is lost. A lease that was
/// dropped keeps its buffer.
pub fn each_buffer_is_in_one_place()
    ensures { (plan : Plan) (s : State Store View) → LockedRule plan s → (buffer : ℕ) → buffer < plan.buffers → IsInOnePlace s buffer }
{}
