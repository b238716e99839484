//! Gates that hold an actor until another one has come to a step.

use hs_base::Gate;
use std::sync::atomic::{AtomicU32, Ordering};
use std::thread;

/// How often a held actor looks before it goes on without the other one.
const LOOKS: u32 = 100_000_000;

/// An actor, by its number, at a step.
#[derive(Clone, Copy)]
pub(crate) struct At {
    pub(crate) actor: u32,
    pub(crate) step: u32,
}

/// Holds an actor at a step until another one has come to its own.
#[derive(Drop)]
pub(crate) struct Hold {
    held: At,
    until: At,
    /// How often it looks for the other one.
    looks: u32,
    /// The last step that the other one came to.
    seen: AtomicU32,
    /// Whether the held one came to its step at all.
    came: AtomicU32,
    /// Whether it went on without the other one.
    broken: AtomicU32,
}

impl Hold {
    pub(crate) fn new(held: At, until: At) -> Hold {
        Hold::with_looks(held, until, LOOKS)
    }

    pub(crate) fn with_looks(held: At, until: At, looks: u32) -> Hold {
        Hold {
            held,
            until,
            looks,
            seen: AtomicU32::new(0),
            came: AtomicU32::new(0),
            broken: AtomicU32::new(0),
        }
    }

    /// Whether the held one came, and did not go on too early. A gate that nobody passes keeps nothing.
    pub(crate) fn was_kept(&self) -> bool {
        self.came.load(Ordering::SeqCst) == 1 && self.broken.load(Ordering::SeqCst) == 0
    }

    fn wait(&self) {
        for _look in 0..self.looks {
            if self.seen.load(Ordering::SeqCst) >= self.until.step {
                return;
            }
            thread::yield_now();
        }
        self.broken.store(1, Ordering::SeqCst);
    }
}

impl Gate for Hold {
    fn pass(&self, actor: u32, step: u32) {
        if actor == self.until.actor {
            self.seen.store(step, Ordering::SeqCst);
        }
        if actor == self.held.actor && step == self.held.step {
            self.came.store(1, Ordering::SeqCst);
            self.wait();
        }
    }
}

/// Two holds, the first of which sees each actor first.
#[derive(Drop)]
pub(crate) struct Both {
    pub(crate) first: Hold,
    pub(crate) second: Hold,
}

impl Gate for Both {
    fn pass(&self, actor: u32, step: u32) {
        self.first.pass(actor, step);
        self.second.pass(actor, step);
    }
}
