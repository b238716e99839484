//! The outside world of a test: input that is known in advance, output that can be looked at, and failures where the
//! test wants them.

ghost use Rattle.std.specs.Prelude.{◌≡◌, ◌<◌, ◌≤◌, ◌↔◌, [], length, take, Some, IfOk, OnOk, OnErr, IfSome};
ghost use Rattle.hs_base.specs.Outside.{Rose, Loses, Gains};
ghost use Rattle.hs_base.specs.InMemory.{is_to_fail, read_of, write_of};

use crate::ids::{Failed, Memory};
use crate::outside::{Sink, Source};
use std::alloc::Global;
use std::marker::Model;

/// Input that is known in advance. A call gives as much as it may, and some calls fail.
#[derive(Drop)]
pub struct MemorySource {
    bytes: Vec<u8>,
    at: usize,
    most: usize,
    fails: Vec<u32>,
    calls: u64,
    faults: u64,
}

impl Model for MemorySource {
    ghost use Rattle.std.specs.Prelude.{◌<◌, ◌≤◌, length, drop};
    ghost use Rattle.hs_base.specs.InMemory.{Tape};

    ghost Value = { Tape };

    ghost view = { λ a. record { left = drop a.at a.bytes.items; most = a.most; fails = a.fails.items; calls = a.calls; faults = a.faults } };

    ghost invariant = { λ a. (a.at ≤ length a.bytes.items) × (0 < a.most) };
}

/// Output that can be looked at. Its memory is there from the start, so no write asks for any; one that finds
/// it full fails.
#[derive(Drop)]
pub struct MemorySink {
    bytes: Vec<u8>,
    room: usize,
    most: usize,
    fails: Vec<u32>,
    calls: u64,
    faults: u64,
}

impl Model for MemorySink {
    ghost use Rattle.std.specs.Prelude.{◌<◌, ◌≤◌, vec_capacity};
    ghost use Rattle.hs_base.specs.InMemory.{Store};

    ghost Value = { Store };

    ghost view = { λ a. record { written = a.bytes.items; room = a.room; most = a.most; fails = a.fails.items; calls = a.calls; faults = a.faults } };

    ghost invariant = { λ a. (a.room ≤ vec_capacity a.bytes) × (0 < a.most) };
}

/// Whether a call's number is listed.
fn is_listed(fails: &[u32], call: u64) -> bool
    ensures { result ≡ is_to_fail fails.now call }
{
    fails.iter().any(|number| u64::from(*number) == call)
}

impl MemorySource {
    /// Input of these bytes, in steps of at most `most`. `fails` lists the calls that fail; the first call
    /// has number 0.
    pub fn new(
        alloc: Global,
        bytes: &[u8],
        most: usize,
        fails: &[u32],
    ) -> Result<MemorySource, Memory>
        requires { 0 < most }
        ensures { IfOk result (λ source. source ≡ record { left = bytes.now; most = most; fails = fails.now; calls = 0; faults = 0 }) }
    {
        let Ok(bytes) = Vec::from_slice(alloc, bytes) else {
            return Err(Memory);
        };
        let Ok(fails) = Vec::from_slice(alloc, fails) else {
            return Err(Memory);
        };
        Ok(MemorySource {
            bytes,
            at: 0,
            most,
            fails,
            calls: 0,
            faults: 0,
        })
    }
}

impl Source for MemorySource {
    ghost left = { λ s. Some s.left };

    ghost faults = { λ s. s.faults };

    fn read(&mut self, piece: &mut [u8]) -> Result<usize, Failed>
        requires { 0 < length piece.old }
        ensures exact { (result, self.new) ≡ read_of self.old (length piece.old) }
        ensures fits { IfOk result (λ k. k ≤ length piece.new) }
        ensures taken { IfOk result (λ k. Loses (Some self.old.left) (Some self.new.left) (take k piece.new)) }
        ensures end { IfOk result (λ k. IfSome (Some self.old.left) (λ bytes. (k ≡ 0) ↔ (bytes ≡ []))) }
        ensures kept { OnErr result (Some self.new.left ≡ Some self.old.left) }
        ensures failed { OnErr result (Rose self.old.faults self.new.faults) }
        ensures still { OnOk result (self.new.faults ≡ self.old.faults) }
        ensures counted { self.old.faults ≤ self.new.faults }
    {
        let fails = is_listed(&self.fails, self.calls);
        self.calls = self.calls.saturating_add(1);
        if fails {
            self.faults = self.faults.saturating_add(1);
            return Err(Failed);
        }
        let rest = self.bytes.len() - self.at;
        let count = piece.len().min(self.most).min(rest);
        piece[..count].copy_from_slice(&self.bytes[self.at..self.at + count]);
        self.at += count;
        Ok(count)
    }
}

impl MemorySink {
    /// Output of at most `room` bytes, in steps of at most `most`. `fails` lists the calls that fail; the
    /// first call has number 0.
    pub fn new(alloc: Global, room: usize, most: usize, fails: &[u32]) -> Result<MemorySink, Memory>
        requires { 0 < most }
        ensures { IfOk result (λ sink. sink ≡ record { written = []; room = room; most = most; fails = fails.now; calls = 0; faults = 0 }) }
    {
        let Ok(bytes) = Vec::with_capacity(alloc, room) else {
            return Err(Memory);
        };
        let Ok(fails) = Vec::from_slice(alloc, fails) else {
            return Err(Memory);
        };
        Ok(MemorySink {
            bytes,
            room,
            most,
            fails,
            calls: 0,
            faults: 0,
        })
    }

    /// The bytes written so far.
    pub fn bytes(&self) -> &[u8]
        ensures { result.now ≡ self.now.written }
    {
        &self.bytes
    }
}

impl Sink for MemorySink {
    ghost written = { λ s. Some s.written };

    ghost faults = { λ s. s.faults };

    fn write(&mut self, piece: &[u8]) -> Result<usize, Failed>
        requires { 0 < length piece.now }
        ensures exact { (result, self.new) ≡ write_of self.old piece.now }
        ensures some { IfOk result (λ k. 0 < k) }
        ensures fits { IfOk result (λ k. k ≤ length piece.now) }
        ensures gained { IfOk result (λ k. Gains (Some self.old.written) (Some self.new.written) (take k piece.now)) }
        ensures kept { OnErr result (Some self.new.written ≡ Some self.old.written) }
        ensures failed { OnErr result (Rose self.old.faults self.new.faults) }
        ensures still { OnOk result (self.new.faults ≡ self.old.faults) }
        ensures counted { self.old.faults ≤ self.new.faults }
    {
        let fails = is_listed(&self.fails, self.calls);
        self.calls = self.calls.saturating_add(1);
        if fails || self.room <= self.bytes.len() {
            self.faults = self.faults.saturating_add(1);
            return Err(Failed);
        }
        let count = piece.len().min(self.most).min(self.room - self.bytes.len());
        match self.bytes.extend_from_slice(&piece[..count]) {
            Ok(()) => Ok(count),
            Err(_) => unreachable!(),
        }
    }
}
