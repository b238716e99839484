//! What is noted of the chunks that an agent took: their standings in a book, or what clauses alone see.

ghost use Rattle.std.specs.Prelude.{◌≡◌, ◌+◌, ◌<◌, ◌^◌, true, false, [], ◌∷◌, ◌++◌, length, map, Some, None, OnOk, OnErr, if◌then◌else◌};
ghost use Rattle.hs_agent.specs.Leaving.{with_left, with_fate, standing_by};
ghost use Rattle.hs_agent.specs.Noting.{are_kept, LeavesMarks};

use crate::hand::{ChunkNote, Leave};
use crate::placed::ArrivalPlace;
use hs_base::{Fate, List, Memory, Noting, Trail};
use hs_records::Standing;
use std::alloc::Global;
use std::marker::Model;

/// What was noted of each chunk, in the order of arrival. A bare one takes no memory, now or later.
#[derive(Drop)]
pub struct ChunkNotes {
    trail: Trail<ChunkNote>,
    kept: Option<List<Standing>>,
    count: u64,
}

impl Model for ChunkNotes {
    ghost use Rattle.std.specs.Prelude.{◌≡◌, length};
    ghost use Rattle.hs_base.specs.Notes.{Noted};
    ghost use Rattle.hs_agent.specs.declared.hand.ChunkNote.{ChunkNote};
    ghost use Rattle.hs_agent.specs.Noting.{marked, AreMarks};

    ghost Value = { Noted ChunkNote };

    ghost view = { λ s. marked s.trail.items s.kept };

    ghost invariant = { λ s. AreMarks s.trail.items s.kept × (s.count ≡ length s.trail.items) };
}

/// How the notes go on by a chunk that leaves.
struct Leaves;

impl Noting<ChunkNote, Leave> for Leaves {
    ghost use Rattle.hs_agent.specs.Noting.{marks_after};

    ghost then = { marks_after };
}

impl ChunkNotes {
    /// Empty notes of chunks that are kept, for the book of the agent. It takes no memory yet.
    pub fn new(alloc: Global) -> ChunkNotes
        ensures { result ≡ record { items = []; keeps = true; room = 0 } }
    {
        ChunkNotes {
            trail: Trail::new(),
            kept: Some(List::new(alloc)),
            count: 0,
        }
    }

    /// Empty notes of chunks that are not kept: clauses see them, and no call takes memory for them.
    pub fn bare() -> ChunkNotes
        ensures { result ≡ record { items = []; keeps = false; room = 0 } }
    {
        ChunkNotes {
            trail: Trail::new(),
            kept: None,
            count: 0,
        }
    }

    /// How many chunks were noted.
    pub fn len(&self) -> u64
        ensures { result ≡ length self.now.items }
    {
        self.count
    }

    /// Makes room for one chunk more, where they are kept.
    pub fn reserve(&mut self) -> Result<(), Memory>
        ensures items { self.new.items ≡ self.old.items }
        ensures keeps { self.new.keeps ≡ self.old.keeps }
        ensures ok { OnOk result (self.new.keeps ≡ true → length self.new.items < self.new.room) }
        ensures err { OnErr result (self.new ≡ self.old) }
    {
        match &mut self.kept {
            Some(kept) => kept.reserve(1),
            None => Ok(()),
        }
    }

    /// Notes a chunk more, for which there is room where they are kept.
    pub fn push(&mut self, mark: ChunkNote)
        requires room { self.old.keeps ≡ true → length self.old.items < self.old.room }
        requires few { length self.old.items + 1 < 2 ^ 64 }
        requires live { mark.left ≡ None }
        ensures items { self.new.items ≡ self.old.items ++ mark ∷ [] }
        ensures keeps { self.new.keeps ≡ self.old.keeps }
    {
        self.trail = Trail::with(&self.trail, &mark);
        self.count += 1;
        if let Some(kept) = &mut self.kept {
            kept.push(Standing {
                client: mark.client,
                page: mark.page,
                fate: Fate::Live,
            });
        }
    }

    /// Notes why the chunk at a place left, where there is one.
    pub fn leave(&mut self, leave: Leave)
        ensures items { self.new.items ≡ with_left leave.place.0 (Some leave.left) self.old.items }
        ensures keeps { self.new.keeps ≡ self.old.keeps }
    {
        self.trail = Trail::after::<Leave, Leaves>(&self.trail, &leave);
        leave_kept(&mut self.kept, leave);
    }

    /// The standings, where they were kept, or none.
    pub fn into_list(self, alloc: Global) -> List<Standing>
        ensures { result.items ≡ (if self.keeps then map standing_by self.items else []) }
    {
        let ChunkNotes {
            trail: _,
            kept,
            count: _,
        } = self;
        match kept {
            Some(kept) => kept,
            None => List::new(alloc),
        }
    }
}

/// Notes a chunk's fate, where standings are kept.
fn leave_kept(kept: &mut Option<List<Standing>>, leave: Leave)
    ensures marks { LeavesMarks leave kept.old kept.new }
    ensures keeps { are_kept kept.new ≡ are_kept kept.old }
{
    let Some(standings) = kept else {
        return;
    };
    note_fate(standings, leave.place, leave.left.fate());
}

/// Notes a chunk's fate, where it has a standing.
fn note_fate(standings: &mut List<Standing>, place: ArrivalPlace, fate: Fate)
    ensures { standings.new.items ≡ with_fate place.0 fate standings.old.items }
{
    let standings = standings.as_mut_slice();
    let place = place.0 as usize;
    if place < standings.len() {
        standings[place].fate = fate;
    }
}
