//! Laws of the fair turn. Each is the contract of a function that does nothing.

ghost use Rattle.hs_sched.specs.Fairness.{VisitsAreFair};
ghost use Rattle.hs_sched.specs.Moving.{TurnsMoveItems};

use crate::queues::Queues;

/// A trigger id that always has more to send gets what its weight promises: its weight in pages for
/// each visit, give or take less than one page over all of them together.
pub fn visits_are_fair()
    ensures { VisitsAreFair }
{}

/// For whoever keeps items and sends them by moving the next one of an id behind all that was sent: a turn moves, id
/// after id, exactly as many items from the front of each as its visit pays for, and leaves the rest. That a send
/// moves the next item is what such an implementation of `Queues` says in `sends`.
pub fn turns_move_items<Q: Queues, T>()
    ensures { TurnsMoveItems T Q.costs Q.sends }
{}
