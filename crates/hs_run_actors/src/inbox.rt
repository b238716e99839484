//! What was brought to the coordinator of one node.

ghost use Rattle.std.specs.Prelude.{◌≡◌, List, [], ◌++◌, OnOk};
ghost use Rattle.hs_base.specs.declared.told.Told.{Told};
ghost use Rattle.hs_run_actors.specs.Coordinators.{IsTaken, is_empty};

use hs_base::{Memory, Told};
use std::alloc::Global;
use std::collections::VecDeque;
use std::marker::Model;

/// The messages of a node that were brought and not heard, in order.
#[derive(Drop)]
pub(crate) struct Inbox {
    queue: VecDeque<Told>,
}

impl Model for Inbox {
    ghost use Rattle.std.specs.Prelude.{List};
    ghost use Rattle.hs_base.specs.declared.told.Told.{Told};

    ghost Value = { List Told };

    ghost view = { λ s. s.queue.items };
}

impl Inbox {
    /// An inbox to which no message was brought.
    pub(crate) fn none(alloc: Global) -> Inbox
        ensures { result ≡ [] }
    {
        Inbox {
            queue: VecDeque::new(alloc),
        }
    }

    /// Takes the first message out.
    pub(crate) fn next(&mut self) -> Option<Told>
        ensures { IsTaken self.old result self.new }
    {
        self.queue.pop_front()
    }

    /// These messages go behind the others.
    pub(crate) fn bring(&mut self, told: &mut VecDeque<Told>) -> Result<(), Memory>
        ensures put { OnOk result (self.new ≡ self.old ++ told.old.items) }
        ensures gone { OnOk result (told.new.items ≡ []) }
    {
        self.queue.append(told)?;
        Ok(())
    }

    /// Whether nothing waits.
    pub(crate) fn is_empty(&self) -> bool
        ensures { result ≡ is_empty self.now }
    {
        self.queue.is_empty()
    }
}
