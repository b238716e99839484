//! The pool of a node, replayed.

ghost use Rattle.std.specs.Prelude.{◌≡◌, ℕ, ◌∷◌, List, [], IfOk};
ghost use Rattle.std.specs.Bool.{OnTrue};
ghost use Rattle.hs_law_journal.specs.Pooled.{may_follow};
ghost use Rattle.hs_words.specs.PoolHistory.{PoolEvent, Got, Empty, Given, Missed};
ghost use Rattle.hs_check_follow.specs.Happening.{event_of, may_come, earlier_with};
ghost use Rattle.hs_check_follow.specs.Replaying.{IsReplayed, IsReplaying};

use crate::happened::{NotedEvent, StampedEvent};
use hs_base::Memory;
use std::alloc::Global;

/// A pool as its events so far leave it: the buffers that waited at some time, in the order in which they joined the queue, of
/// which the first so many are gone; how often more each buffer was got than given; and how many more draws found the queue
/// empty than gives missed.
#[derive(Drop)]
pub(crate) struct Replay {
    waiting: Vec<u32>,
    gone: usize,
    out: Vec<usize>,
    owed: usize,
}

impl Replay {
    /// A pool with so many buffers before any event.
    pub(crate) fn make(alloc: Global, buffers: u32) -> Result<Replay, Memory>
        ensures { IfOk result (λ replay. IsReplayed buffers [] replay) }
    {
        let mut waiting = Vec::new(alloc);
        let mut out = Vec::new(alloc);
        for buffer in 0..buffers {
            waiting.push(buffer)?;
            out.push(0)?;
        }
        Ok(Replay {
            waiting,
            gone: 0,
            out,
            owed: 0,
        })
    }

    /// A draw that got this buffer, if it may come.
    pub(crate) fn get(&mut self, buffer: u32) -> bool
        requires { IsReplaying self.old }
        ensures { (n : ℕ) (earlier : List PoolEvent) → IsReplayed n earlier self.old
            → (result ≡ may_follow n earlier (Got buffer)) × OnTrue result (IsReplayed n (Got buffer ∷ earlier) self.new) }
    {
        if self.gone == self.waiting.len() {
            return false;
        }
        if self.waiting[self.gone] != buffer {
            return false;
        }
        self.gone += 1;
        self.out[buffer as usize] += 1;
        true
    }

    /// A draw that found the queue empty, if it may come.
    pub(crate) fn find_none(&mut self) -> bool
        requires { IsReplaying self.old }
        ensures { (n : ℕ) (earlier : List PoolEvent) → IsReplayed n earlier self.old
            → (result ≡ may_follow n earlier Empty) × OnTrue result (IsReplayed n (Empty ∷ earlier) self.new) }
    {
        if self.gone < self.waiting.len() {
            return false;
        }
        self.owed += 1;
        true
    }

    /// A give of this buffer, if it may come.
    pub(crate) fn give(&mut self, buffer: u32) -> Result<bool, Memory>
        requires { IsReplaying self.old }
        ensures { (n : ℕ) (earlier : List PoolEvent) → IsReplayed n earlier self.old
            → IfOk result (λ yes. (yes ≡ may_follow n earlier (Given buffer)) × OnTrue yes (IsReplayed n (Given buffer ∷ earlier) self.new)) }
    {
        let place = buffer as usize;
        if place >= self.out.len() {
            return Ok(false);
        }
        if self.out[place] == 0 {
            return Ok(false);
        }
        self.waiting.push(buffer)?;
        self.out[place] -= 1;
        Ok(true)
    }

    /// A give that missed, if it may come.
    pub(crate) fn miss(&mut self) -> bool
        requires { IsReplaying self.old }
        ensures { (n : ℕ) (earlier : List PoolEvent) → IsReplayed n earlier self.old
            → (result ≡ may_follow n earlier Missed) × OnTrue result (IsReplayed n (Missed ∷ earlier) self.new) }
    {
        if self.gone < self.waiting.len() {
            return false;
        }
        if self.owed == 0 {
            return false;
        }
        self.owed -= 1;
        true
    }

    /// Takes an event, if it may come, and answers whether it did.
    pub(crate) fn take_event(&mut self, event: NotedEvent) -> Result<bool, Memory>
        requires { IsReplaying self.old }
        ensures { (n : ℕ) (earlier : List PoolEvent) → IsReplayed n earlier self.old
            → IfOk result (λ yes. (yes ≡ may_follow n earlier (event_of event)) × OnTrue yes (IsReplayed n (event_of event ∷ earlier) self.new)) }
    {
        match event {
            NotedEvent::Got { buffer } => Ok(self.get(buffer)),
            NotedEvent::Empty => Ok(self.find_none()),
            NotedEvent::Given { buffer, .. } => self.give(buffer),
            NotedEvent::Missed => Ok(self.miss()),
        }
    }

    /// Takes an event as `take_event` does. One whose stamp is not below a bound is let pass, and changes nothing.
    pub(crate) fn take_event_below(
        &mut self,
        bound: u64,
        event: StampedEvent,
    ) -> Result<bool, Memory>
        requires { IsReplaying self.old }
        ensures { (n : ℕ) (earlier : List PoolEvent) → IsReplayed n earlier self.old
            → IfOk result (λ yes. (yes ≡ may_come n bound earlier event) × OnTrue yes (IsReplayed n (earlier_with bound event earlier) self.new)) }
    {
        if event.stamp >= bound {
            return Ok(true);
        }
        self.take_event(event.event)
    }
}
