//! The claims that an agent noted: in a list, or for clauses alone.

ghost use Rattle.std.specs.Prelude.{◌≡◌, ◌+◌, ◌<◌, ◌≤◌, true, false, [], ◌∷◌, ◌++◌, length, filter, not, OnOk, OnErr, if◌then◌else◌};
ghost use Rattle.hs_pins.specs.Priorities.{same_group};
ghost use Rattle.hs_agent.specs.Noting.{claims_after};

use hs_base::{Group, List, Memory, Noting, Trail};
use hs_pins::is_group;
use hs_records::Claim;
use std::alloc::Global;
use std::marker::Model;
use std::mem::replace;

/// The claims as they were made, but for those of groups that were forgotten. A bare one takes no memory, now or later.
#[derive(Drop)]
pub struct ClaimNotes {
    trail: Trail<Claim>,
    kept: Option<List<Claim>>,
}

impl Model for ClaimNotes {
    ghost use Rattle.hs_base.specs.Notes.{Noted, notes_of, AreKept};
    ghost use Rattle.hs_records.specs.declared.books.Claim.{Claim};

    ghost Value = { Noted Claim };

    ghost view = { λ s. notes_of s.trail.items s.kept };

    ghost invariant = { λ s. AreKept s.trail.items s.kept };
}

/// How the notes go on by a group that is forgotten.
struct Forgets;

impl Noting<Claim, Group> for Forgets {
    ghost use Rattle.hs_agent.specs.Noting.{claims_after};

    ghost then = { claims_after };
}

impl ClaimNotes {
    /// Empty notes of claims that are kept, for the book of the agent. It takes no memory yet.
    pub fn new(alloc: Global) -> ClaimNotes
        ensures { result ≡ record { items = []; keeps = true; room = 0 } }
    {
        ClaimNotes {
            trail: Trail::new(),
            kept: Some(List::new(alloc)),
        }
    }

    /// Empty notes of claims that are not kept: clauses see them, and no call takes memory for them.
    pub fn bare() -> ClaimNotes
        ensures { result ≡ record { items = []; keeps = false; room = 0 } }
    {
        ClaimNotes {
            trail: Trail::new(),
            kept: None,
        }
    }

    /// Makes room for so many claims more, where they are kept.
    pub fn reserve(&mut self, more: usize) -> Result<(), Memory>
        ensures items { self.new.items ≡ self.old.items }
        ensures keeps { self.new.keeps ≡ self.old.keeps }
        ensures ok { OnOk result (self.new.keeps ≡ true → length self.new.items + more ≤ self.new.room) }
        ensures err { OnErr result (self.new ≡ self.old) }
    {
        match &mut self.kept {
            Some(kept) => kept.reserve(more),
            None => Ok(()),
        }
    }

    /// Notes a claim more, for which there is room where they are kept. The room does not shrink.
    pub fn push(&mut self, claim: Claim)
        requires { self.old.keeps ≡ true → length self.old.items < self.old.room }
        ensures items { self.new.items ≡ self.old.items ++ claim ∷ [] }
        ensures keeps { self.new.keeps ≡ self.old.keeps }
        ensures room { self.old.room ≤ self.new.room }
    {
        self.trail = Trail::with(&self.trail, &claim);
        if let Some(kept) = &mut self.kept {
            kept.push(claim);
        }
    }

    /// Drops the notes of a group's claims. It takes no memory.
    pub fn forget(&mut self, alloc: Global, group: Group)
        ensures items { self.new.items ≡ claims_after self.old.items group }
        ensures keeps { self.new.keeps ≡ self.old.keeps }
    {
        self.trail = Trail::after::<Group, Forgets>(&self.trail, &group);
        if let Some(kept) = &mut self.kept {
            drop_notes(alloc, kept, group);
        }
    }

    /// The claims, where they were kept, or none.
    pub fn into_list(self, alloc: Global) -> List<Claim>
        ensures { result.items ≡ (if self.keeps then self.items else []) }
    {
        let ClaimNotes { trail: _, kept } = self;
        match kept {
            Some(kept) => kept,
            None => List::new(alloc),
        }
    }
}

/// Drops the notes of a group's claims.
fn drop_notes(alloc: Global, claims: &mut List<Claim>, group: Group)
    ensures { claims.new.items ≡ filter (λ (claim : _). not (same_group group claim.group)) claims.old.items }
{
    let mut kept = replace(claims, List::new(alloc)).into_vec();
    kept.retain(
        |claim: &Claim| -> bool
            ensures { result ≡ not (same_group group claim.now.group) }
        { !is_group(&group, &claim.group) },
    );
    *claims = List::from_vec(kept);
}
