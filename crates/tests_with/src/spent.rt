//! What threads saw that draw and give on one pool, and what their calls took, which are timed one by one.

use std::alloc::{AllocError, Global};
use std::hint;
use std::rt::Clock;
use std::sync::atomic::AtomicU64;
use std::time::Instant;

/// How many nanoseconds a call may take to be counted. One that takes longer was kept from its processor.
const LATE: u128 = 10_000;

/// So many calls in so many nanoseconds, those apart that were kept from a processor.
#[derive(Clone, Copy, Default, Drop)]
pub struct Spent {
    pub calls: u64,
    pub nanos: u64,
    pub late: u64,
}

impl Spent {
    /// A call that took so long.
    pub fn add(&mut self, nanos: u128) {
        if nanos < LATE {
            self.calls = self.calls.saturating_add(1);
            self.nanos = self.nanos.saturating_add(nanos as u64);
        } else {
            self.late = self.late.saturating_add(1);
        }
    }

    /// The calls of another thread.
    pub fn add_all(&mut self, other: Spent) {
        self.calls = self.calls.saturating_add(other.calls);
        self.nanos = self.nanos.saturating_add(other.nanos);
        self.late = self.late.saturating_add(other.late);
    }

    /// How many calls there were, those apart that were late among them.
    pub fn count(&self) -> u64 {
        self.calls.saturating_add(self.late)
    }

    /// Tenths of a nanosecond for each call.
    pub fn tenths(self) -> u64 {
        self.nanos.saturating_mul(10) / self.calls.max(1)
    }
}

/// The clock, where it answers.
pub fn now<R: Clock>(rt: &R) -> Option<Instant> {
    Instant::now(rt).ok()
}

/// How long ago that was. Where the clock does not answer it is too long to be counted.
pub fn since<R: Clock>(rt: &R, start: Option<Instant>) -> u128 {
    let Some(start) = start else {
        return LATE;
    };
    match start.elapsed(rt) {
        Ok(past) => past.as_nanos(),
        Err(_) => LATE,
    }
}

/// Does nothing for so many turns.
pub fn rest(turns: u32) {
    for _ in 0..turns {
        hint::spin_loop();
    }
}

/// What reading the clock twice takes, so many times.
pub fn bare<R: Clock>(rt: &R, times: u32) -> Spent {
    let mut spent = Spent::default();
    for _ in 0..times {
        let start = now(rt);
        spent.add(since(rt, start));
    }
    spent
}

/// How the threads of a pool work together.
#[derive(Drop)]
pub struct Pace {
    /// How many of those that draw are done.
    pub over: AtomicU64,
    /// How long a thread rests behind a draw that got a chunk.
    pub rests: u32,
}

/// What threads were answered.
#[derive(Drop)]
pub struct Seen {
    /// The stamps of draws and gives.
    pub stamps: Vec<u64>,
    /// What the draws took that got a chunk.
    pub drawn: Spent,
    /// What the gives took that put one back.
    pub given: Spent,
    pub empties: u64,
    pub misses: u64,
    pub unread: u64,
}

impl Seen {
    /// What a thread was answered that did nothing.
    pub fn nothing(alloc: Global) -> Seen {
        Seen {
            stamps: Vec::new(alloc),
            drawn: Spent::default(),
            given: Spent::default(),
            empties: 0,
            misses: 0,
            unread: 0,
        }
    }

    /// How many draws there were.
    pub fn draws(&self) -> u64 {
        self.drawn.count().saturating_add(self.empties)
    }

    /// How many draws and gives were answered with a stamp.
    pub fn answers(&self) -> u64 {
        let gives = self.given.count().saturating_add(self.misses);
        self.draws().saturating_add(gives)
    }

    /// What other threads were answered, too, without their stamps.
    pub fn add_counts(&mut self, other: &Seen) {
        self.drawn.add_all(other.drawn);
        self.given.add_all(other.given);
        self.empties = self.empties.saturating_add(other.empties);
        self.misses = self.misses.saturating_add(other.misses);
        self.unread = self.unread.saturating_add(other.unread);
    }

    /// What another thread was answered, too.
    fn add_all(&mut self, other: Seen) -> Result<(), AllocError> {
        self.add_counts(&other);
        self.stamps.extend_from_slice(other.stamps.as_slice())
    }

    /// Whether the stamps, sorted, count up from 0 and leave none out.
    pub fn leaves_no_gap(&mut self) -> bool {
        self.stamps.sort_unstable();
        let mut right = true;
        for (place, stamp) in self.stamps.as_slice().iter().enumerate() {
            right &= *stamp == place as u64;
        }
        right
    }
}

/// What all of these threads were answered.
pub fn add_up(alloc: Global, parts: Vec<Result<Seen, AllocError>>) -> Result<Seen, AllocError> {
    let mut all = Seen::nothing(alloc);
    for part in parts {
        all.add_all(part?)?;
    }
    Ok(all)
}
