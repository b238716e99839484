//! The standings of all traces.

ghost use Rattle.std.specs.Prelude.{◌≡◌, ◌≢◌, ◌+◌, ◌<◌, ◌≤◌, [], length, None, Some, IfOk, OnOk, OnErr, option_copied, option_map};
ghost use Rattle.std.specs.Map.{lookup};
ghost use Rattle.hs_standings.specs.Standing.{same_id, PlainStandings, no_standings, lives_of, latest_of, count_of, answer_to, with_standing, without_trace, latest_at};
ghost use Rattle.hs_standings.specs.Closing.{are_closed};

use crate::answers::{Latest, Life, StandingOutcome};
use crate::book::Book;
use hs_base::{Memory, TraceId};
use hs_wire::Standing;
use indexmap::map::Slice;
use std::alloc::Global;
use std::collections::BTreeMap;
use std::marker::Model;

/// The latest standing of each trace and life, of at most so many. Contracts see the traces in the order of their ids, each with the
/// lives that spoke of it.
#[derive(Drop)]
pub struct Standings {
    alloc: Global,
    most: u32,
    count: u32,
    books: BTreeMap<TraceId, Book>,
}

impl Model for Standings {
    ghost use Rattle.std.specs.Prelude.{◌≡◌};
    ghost use Rattle.hs_standings.specs.Standing.{PlainStandings, count_in};

    ghost Value = { PlainStandings };

    ghost view = { λ a. record { most = a.most; books = a.books.entries } };

    ghost invariant = { λ a. a.count ≡ count_in a.books.entries };
}

impl Standings {
    /// No standing, of at most so many. Takes no memory.
    pub fn make(alloc: Global, most: u32) -> Standings
        ensures { result ≡ no_standings most }
    {
        Standings {
            alloc,
            most,
            count: 0,
            books: BTreeMap::new(alloc),
        }
    }

    /// Notes what a life says in a message with this number. After `Older` and `Full`, and after `Memory`, all is as it was.
    pub fn note(
        &mut self,
        life: Life,
        number: u64,
        standing: Standing,
    ) -> Result<StandingOutcome, Memory>
        ensures answer { IfOk result (λ noted. noted ≡ answer_to self.old standing.trace life number) }
        ensures noted { IfOk result (λ noted. noted ≡ StandingOutcome.Noted
            → self.new ≡ with_standing self.old standing.trace life (latest_at number standing)) }
        ensures same { IfOk result (λ noted. noted ≢ StandingOutcome.Noted → self.new ≡ self.old) }
        ensures memory { OnErr result (self.new ≡ self.old) }
    {
        match self.latest(standing.trace, life) {
            Some(latest) => {
                if number <= latest.number {
                    return Ok(StandingOutcome::Older);
                }
                self.renew(standing.trace, life, Latest { number, standing })?;
            }
            None => {
                if self.count >= self.most {
                    return Ok(StandingOutcome::Full);
                }
                self.begin(standing.trace, life, Latest { number, standing })?;
            }
        }
        Ok(StandingOutcome::Noted)
    }

    /// Puts a standing in place of the one of its trace and life.
    fn renew(&mut self, trace: TraceId, life: Life, latest: Latest) -> Result<(), Memory>
        requires { latest_of self.old trace life ≢ None }
        ensures ok { OnOk result (self.new ≡ with_standing self.old trace life latest) }
        ensures err { OnErr result (self.new ≡ self.old) }
    {
        let Some(book) = self.books.get_mut(&trace) else {
            unreachable!()
        };
        book.put(life, latest)?;
        Ok(())
    }

    /// Puts the first standing of a trace and life.
    fn begin(&mut self, trace: TraceId, life: Life, latest: Latest) -> Result<(), Memory>
        requires new { latest_of self.old trace life ≡ None }
        requires room { count_of self.old < self.old.most }
        ensures ok { OnOk result (self.new ≡ with_standing self.old trace life latest) }
        ensures err { OnErr result (self.new ≡ self.old) }
    {
        match self.books.get_mut(&trace) {
            Some(book) => {
                book.put(life, latest)?;
                self.count += 1;
                Ok(())
            }
            None => self.begin_trace(trace, life, latest),
        }
    }

    /// Puts the first standing of a trace.
    fn begin_trace(&mut self, trace: TraceId, life: Life, latest: Latest) -> Result<(), Memory>
        requires new { lookup (same_id trace) self.old.books ≡ None }
        requires room { count_of self.old < self.old.most }
        ensures ok { OnOk result (self.new ≡ with_standing self.old trace life latest) }
        ensures err { OnErr result (self.new ≡ self.old) }
    {
        let mut book = Book::new(self.alloc);
        book.put(life, latest)?;
        match self.books.insert(trace, book) {
            Ok(_) => {
                self.count += 1;
                Ok(())
            }
            Err(_) => Err(Memory),
        }
    }

    /// The latest standing of a trace and life, or `None` where none is noted.
    pub fn latest(&self, trace: TraceId, life: Life) -> Option<&Latest>
        ensures { option_copied result ≡ latest_of self.now trace life }
    {
        match self.books.get(&trace) {
            Some(book) => book.get(life),
            None => None,
        }
    }

    /// The lives that spoke of a trace, each with its latest standing, or `None` where none did.
    pub fn lives(&self, trace: TraceId) -> Option<Slice<'_, Life, Latest>>
        ensures { result ≡ lives_of self.now.books trace }
    {
        match self.books.get(&trace) {
            Some(book) => Some(book.lives()),
            None => None,
        }
    }

    /// Whether each life that spoke of a trace is closed to it: it says whole or unheard, and no segment is open.
    pub fn are_closed(&self, trace: TraceId) -> bool
        ensures { result ≡ are_closed self.now trace }
    {
        match self.books.get(&trace) {
            Some(book) => book.are_closed(),
            None => true,
        }
    }

    /// Forgets what is noted of a trace. Takes no memory.
    pub fn forget(&mut self, trace: TraceId)
        ensures { self.new ≡ without_trace self.old trace }
    {
        if let Some(book) = self.books.remove(&trace) {
            self.count -= book.len() as u32;
        }
    }

    /// How many standings are noted.
    pub fn len(&self) -> u32
        ensures { result ≡ count_of self.now }
    {
        self.count
    }
}
