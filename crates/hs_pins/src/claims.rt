//! The claims of a node.

ghost use Rattle.std.specs.Prelude.{◌≡◌, ◌≢◌, ◌==◌, ◌<◌, ◌≤◌, ℕ, [], ◌∷◌, ◌++◌, ◌+◌, ◌-◌, length, map, slice_get, not, filter, true, IsSome, Some, None, OnOk, option_map};
ghost use Rattle.std.specs.Bool.{OnTrue};
ghost use Rattle.hs_pins.specs.Remembered.{claim_of, has_crumb, with_crumb, is_of_group};
ghost use Rattle.hs_pins.specs.ClaimsLayout.{party_at, claim_by, claim_from, AreNoted, AreNamed, HasSeat, note_moved, LastTakes};

use crate::priority::is_group;
use hs_base::limits::MOST_NODES;
use hs_base::{Crumb, Group, GroupId, Laterals, List, Memory, NodeSet, TraceId, TriggerId};
use indexmap::IndexMap;
use std::alloc::Global;
use std::marker::Model;

/// A group that claimed traces, with the laterals of its trigger.
#[derive(Clone, Copy)]
pub struct Party {
    pub group: Group,
    pub laterals: Laterals,
}

/// What is noted of a claimed trace: the place of the party that claimed it, and the nodes to which its
/// crumbs lead.
#[derive(Clone, Copy)]
pub struct ClaimNote {
    pub party: usize,
    pub crumbs: NodeSet,
}

/// The claims of a node, in their order. The traces that a party claims one after another share its
/// laterals. Contracts see the claims, and for how many more there is room.
#[derive(Drop)]
pub struct Claims {
    notes: IndexMap<TraceId, ClaimNote>,
    parties: List<Party>,
}

impl Model for Claims {
    ghost use Rattle.hs_pins.specs.ClaimsLayout.{ClaimList};

    ghost Value = { ClaimList };

    ghost use Rattle.hs_pins.specs.ClaimsView.{claims_in, IsClaims};

    ghost view = { claims_in };

    ghost invariant = { IsClaims };
}

impl Claims {
    /// No claims. It takes no memory.
    pub fn new(alloc: Global) -> Claims
        ensures { result.claims ≡ [] }
    {
        Claims {
            notes: IndexMap::new(alloc),
            parties: List::new(alloc),
        }
    }

    /// The group that claimed a trace, or `None` where the trace is not claimed.
    pub fn group_of(&self, trace: TraceId) -> Option<Group>
        ensures { result ≡ option_map (λ claim. claim.group) (claim_of self.now.claims trace) }
    {
        let note = self.notes.get(&trace)?;
        match self.parties.get(note.party) {
            Some(party) => Some(party.group),
            None => unreachable!(),
        }
    }

    /// The laterals with which a trace was claimed, or `None` where it is not claimed.
    pub fn laterals_of(&self, trace: TraceId) -> Option<Laterals>
        ensures { result ≡ option_map (λ claim. claim.laterals) (claim_of self.now.claims trace) }
    {
        let note = self.notes.get(&trace)?;
        match self.parties.get(note.party) {
            Some(party) => Some(party.laterals),
            None => unreachable!(),
        }
    }

    /// The nodes to which the crumbs of a trace lead, or `None` where it is not claimed.
    pub fn crumbs_of(&self, trace: TraceId) -> Option<NodeSet>
        ensures { result ≡ option_map (λ claim. claim.crumbs) (claim_of self.now.claims trace) }
    {
        match self.notes.get(&trace) {
            Some(note) => Some(note.crumbs),
            None => None,
        }
    }

    /// Makes room for so many claims more, all of one party.
    pub fn reserve(&mut self, more: usize) -> Result<(), Memory>
        ensures ok { OnOk result (more ≤ self.new.room) }
        ensures seat { OnOk result (0 < self.new.seats) }
        ensures claims { self.new.claims ≡ self.old.claims }
    {
        self.notes.reserve(more)?;
        self.parties.reserve(1)
    }

    /// Makes room for so many claims more, each of a party of its own.
    pub fn reserve_each(&mut self, more: usize) -> Result<(), Memory>
        ensures { self.new.claims ≡ self.old.claims }
    {
        self.notes.reserve(more)?;
        self.parties.reserve(more)
    }

    /// Adds the claim of a trace that is not claimed. There is room.
    pub fn add(&mut self, trace: TraceId, party: Party, crumbs: NodeSet)
        requires unclaimed { claim_of self.old.claims trace ≡ None }
        requires room { 1 ≤ self.old.room }
        requires seat { HasSeat self.old party }
        ensures claims { self.new.claims ≡ self.old.claims ++ claim_by party trace crumbs ∷ [] }
        ensures room { self.old.room ≤ self.new.room + 1 }
        ensures seat { HasSeat self.new party }
    {
        let party = place_of(&mut self.parties, party);
        match self.notes.insert(trace, ClaimNote { party, crumbs }) {
            Ok(_) => {}
            Err(_) => unreachable!(),
        }
    }

    /// Adds a crumb to the set of its claimed trace, and answers whether the node is new there.
    pub fn add_crumb(&mut self, crumb: Crumb) -> bool
        requires claimed { IsSome (claim_of self.old.claims crumb.trace) }
        requires node { crumb.node.0 < MOST_NODES }
        ensures fresh { result ≡ not (has_crumb self.old.claims crumb.trace crumb.node.0) }
        ensures adds { self.new.claims ≡ with_crumb self.old.claims crumb.trace crumb.node }
    {
        let Some(note) = self.notes.get_mut(&crumb.trace) else {
            unreachable!()
        };
        let fresh = !note.crumbs.contains(crumb.node);
        note.crumbs = note.crumbs.with(crumb.node);
        fresh
    }

    /// Drops the claims of a group, and its parties. It takes no memory.
    pub fn forget(&mut self, group: Group)
        ensures { self.new.claims ≡ filter (λ claim. not (is_of_group group claim)) self.old.claims }
    {
        drop_parties(&mut self.notes, &mut self.parties, &group);
    }
}

/// Drops the parties of a group, with their claims.
fn drop_parties(notes: &mut IndexMap<TraceId, ClaimNote>, parties: &mut List<Party>, group: &Group)
    requires noted { AreNoted parties.old.items notes.old.entries }
    requires named { AreNamed parties.old.items notes.old.entries }
    ensures noted { AreNoted parties.new.items notes.new.entries }
    ensures named { AreNamed parties.new.items notes.new.entries }
    ensures claims { map (claim_from parties.new.items) notes.new.entries ≡ filter (λ claim. not (is_of_group group.now claim)) (map (claim_from parties.old.items) notes.old.entries) }
{
    let mut place = parties.len();
    while place > 0 {
        place -= 1;
        if is_group(group, &group_at(parties.as_slice(), place)) {
            drop_party(notes, parties, place);
        }
    }
}

/// Drops the party at a place, with its claims. The last party takes the place.
fn drop_party(notes: &mut IndexMap<TraceId, ClaimNote>, parties: &mut List<Party>, place: usize)
    requires within { place < length parties.old.items }
    requires noted { AreNoted parties.old.items notes.old.entries }
    requires named { AreNamed parties.old.items notes.old.entries }
    ensures noted { AreNoted parties.new.items notes.new.entries }
    ensures named { AreNamed parties.new.items notes.new.entries }
    ensures claims { map (claim_from parties.new.items) notes.new.entries ≡ map (claim_from parties.old.items) (filter (λ noted. not (noted.1.party == place)) notes.old.entries) }
    ensures parties { LastTakes place parties.old.items parties.new.items }
{
    let last = parties.len() - 1;
    notes.retain(
        |_trace: &TraceId, note: &mut ClaimNote| -> bool
            ensures { (result ≡ not (note.old.party == place)) × (note.new ≡ note_moved place last note.old) }
        { move_note(note, place, last) },
    );
    give_place(parties, place);
}

/// Notes that the party at the last place takes this one. Answers whether the note is not of the party that was there.
fn move_note(note: &mut ClaimNote, place: usize, last: usize) -> bool
    ensures stays { result ≡ not (note.old.party == place) }
    ensures moved { note.new ≡ note_moved place last note.old }
{
    let stays = note.party != place;
    if note.party == last {
        note.party = place;
    }
    stays
}

/// Gives a place to the last party, and takes the party there out.
fn give_place(parties: &mut List<Party>, place: usize)
    requires { place < length parties.old.items }
    ensures { LastTakes place parties.old.items parties.new.items }
{
    let Some(party) = parties.pop() else {
        unreachable!()
    };
    let parties = parties.as_mut_slice();
    if place < parties.len() {
        parties[place] = party;
    }
}

/// The group of the party at a place.
fn group_at(parties: &[Party], place: usize) -> Group
    ensures { result ≡ (party_at parties.now place).group }
{
    match parties.get(place) {
        Some(party) => party.group,
        None => Group {
            id: GroupId { node: 0, number: 0 },
            trigger: TriggerId(0),
            lead: TraceId(0),
        },
    }
}

/// The place of a party among the parties. It joins them where it is not the last of them.
fn place_of(parties: &mut List<Party>, party: Party) -> usize
    requires { parties.old.room - length parties.old.items ≡ 0
        → slice_get parties.old.items (length parties.old.items - 1) ≡ Some party }
    ensures place { slice_get parties.new.items result ≡ Some party }
    ensures kept { (k : ℕ) → k < length parties.old.items
        → party_at parties.new.items k ≡ party_at parties.old.items k }
    ensures longer { length parties.old.items ≤ length parties.new.items }
    ensures others { (k : ℕ) → k < length parties.new.items → k ≢ result → k < length parties.old.items }
    ensures last { slice_get parties.new.items (length parties.new.items - 1) ≡ Some party }
{
    let count = parties.len();
    if is_last(parties.as_slice(), &party) {
        return count - 1;
    }
    parties.push(party);
    count
}

/// Whether the party is the last of these.
fn is_last(parties: &[Party], party: &Party) -> bool
    ensures yes { OnTrue result (slice_get parties.now (length parties.now - 1) ≡ Some party.now) }
    ensures no { slice_get parties.now (length parties.now - 1) ≡ Some party.now → result ≡ true }
{
    if parties.is_empty() {
        return false;
    }
    is_party(&parties[parties.len() - 1], party)
}

/// Whether two parties are one.
fn is_party(party: &Party, other: &Party) -> bool
    ensures yes { OnTrue result (party.now ≡ other.now) }
    ensures no { party.now ≡ other.now → result ≡ true }
{
    party.group == other.group && party.laterals == other.laterals
}
