//! The chunks of an agent, wherever they are, and what it notes of them.

ghost use Rattle.std.specs.Prelude.{◌≡◌, ◌+◌, ◌<◌, ◌^◌, ℕ, Bool, true, List, [], ◌∷◌, ◌++◌, length, None, Some, Option, IfOk, IfSome, IfNone, OnOk, OnErr, IsSome, All, Ok, map, ◌≤◌};
ghost use Rattle.hs_base.specs.Rules.{AreRules, is_declared};
ghost use Rattle.hs_records.specs.Plain.{PlainSettings, settings_of};
ghost use Rattle.hs_words.specs.Buffers.{Buffer, buffer_of, buffer_in};
ghost use Rattle.hs_words.specs.Chunks.{used_in};
ghost use Rattle.hs_law_agent.specs.State.{AgentState, start};
ghost use Rattle.hs_law_agent.specs.Lives.{is_settled, forget_group};
ghost use Rattle.std.specs.Prelude.{false};
ghost use Rattle.hs_pins.specs.Remembered.{Remembered, claim_of, claim_for, pin_of};
ghost use Rattle.hs_pins.specs.Abandoning.{drops, relieved};
ghost use Rattle.hs_pins.specs.PinsLayout.{Remembers, KnowsThat};
ghost use Rattle.hs_index.specs.Index.{leaving_of, chunks_left};
ghost use Rattle.hs_law_agent.specs.Messages.{told_of, crumb_nodes};
ghost use Rattle.hs_law_agent.specs.Claiming.{traces_of, claim_unclaimed};
ghost use Rattle.hs_law_agent.specs.Stepping as model;
ghost use Rattle.hs_agent.specs.declared.placed.Tagged.{Tagged};
ghost use Rattle.hs_records.specs.Books.{agent_book_of};
ghost use Rattle.hs_law_agent.specs.Laws.{IsInOnePlace};
ghost use Rattle.hs_agent.specs.Placing.{place_of, placed_at, untagged};
ghost use Rattle.hs_agent.specs.Keeping.{Point, first_point, Holds, HoldsThat, with_state};
ghost use Rattle.hs_agent.specs.Parting.{going_of, hand_of, sent_pin};
ghost use Rattle.hs_agent.specs.LettingGo.{let_go, let_go_all, reported, evicted_going, abandoned_going, reported_going};
ghost use Rattle.hs_agent.specs.Arriving.{noted, indexed};
ghost use Rattle.hs_agent.specs.Offering.{Offers, answered, Leads};
ghost use Rattle.hs_agent.specs.Points.{chunk_taken, crumb_taken, trigger_taken, claimed_for, ask_by, book_kept, buffers_left};

mod claiming;
mod trying;

use crate::chunk_notes::ChunkNotes;
use crate::claim_notes::ClaimNotes;
use crate::hand::{First, Leave, Left, Out, Parting, SentChunk};
use crate::holdings::trying::evict_into;
use crate::input::Finished;
use crate::page_notes::PageNotes;
use crate::placed::{ArrivalPlace, Tagged};
use hs_base::limits::MOST_NODES;
use hs_base::{
    Ask, Crumb, Group, GroupId, List, Memory, NodeId, NodeSet, Settings, Told, TraceId, Trigger,
    TriggerId, Why,
};
use hs_index::TraceIndex;
use hs_pins::{Admitted, Dropped, Pins};
use hs_records::{AgentBook, Step};
use hs_sched::Queues;
use hs_words::{Held, Token};
use std::alloc::Global;
use std::collections::VecDeque;
use std::marker::Model;

/// The chunks that an agent has, each in the index, pinned, or in the hand, and what it notes of each chunk that it took. A
/// chunk is named by its place in the order of arrival.
#[derive(Drop)]
pub struct Holdings<L: Token> {
    alloc: Global,
    node: NodeId,
    index: TraceIndex<Tagged<L>>,
    pins: Pins<Tagged<L>>,
    /// What the turn that is under way has sent. There is room for all that is pinned.
    sent: VecDeque<SentChunk<L>>,
    /// The chunks whose buffers are to be given back, the next one first, but for the one that was offered.
    hand: VecDeque<Parting<L>>,
    /// The chunk that was offered to the pool and not answered yet. There is room in the hand for it to come back.
    offered: Option<Out>,
    /// Whether the first of the hand was offered before, and came back.
    again: bool,
    standings: ChunkNotes,
    claims: ClaimNotes,
    pages: PageNotes,
}

impl<L: Token> Model for Holdings<L> {
    ghost use Rattle.hs_agent.specs.Keeping.{Kept};

    ghost Value = { Kept L };

    ghost use Rattle.hs_agent.specs.KeptLayout.{kept_in, HasRoom};

    ghost view = { kept_in };

    ghost invariant = { HasRoom };
}

impl<L: Token> Holdings<L> {
    /// What an agent holds before it took anything: no chunk, no claim, an empty hand. What is noted is kept, and can be had at
    /// the end.
    pub fn make(alloc: Global, node: NodeId, settings: &Settings) -> Result<Holdings<L>, Memory>
        requires { AreRules settings.now.triggers.items }
        ensures { IfOk result (λ holdings. Holds holdings (first_point (settings_of settings.now) node.0 true)) }
    {
        let standings = ChunkNotes::new(alloc);
        let claims = ClaimNotes::new(alloc);
        let pages = PageNotes::new(alloc);
        Holdings::empty(alloc, node, settings, standings, claims, pages)
    }

    /// What an agent holds before it took anything. What is noted is for clauses alone. The hand has room for all buffers, and
    /// what a turn sends for all chunks.
    pub fn bare(alloc: Global, node: NodeId, settings: &Settings) -> Result<Holdings<L>, Memory>
        requires { AreRules settings.now.triggers.items }
        ensures { IfOk result (λ holdings. Holds holdings (first_point (settings_of settings.now) node.0 false)) }
    {
        let standings = ChunkNotes::bare();
        let claims = ClaimNotes::bare();
        let pages = PageNotes::bare();
        let mut holdings = Holdings::empty(alloc, node, settings, standings, claims, pages)?;
        holdings.fill(settings)?;
        Ok(holdings)
    }

    /// Takes the memory for all buffers in the hand, and for all chunks in what a turn sends.
    fn fill(&mut self, settings: &Settings) -> Result<(), Memory>
        ensures { self.new ≡ self.old }
    {
        self.hand
            .reserve((settings.buffers as usize).saturating_add(2))?;
        let waiting = (settings.pins as usize).saturating_add(settings.threshold as usize);
        self.sent.reserve(waiting.saturating_add(2))?;
        Ok(())
    }

    /// Takes the memory for so many claims more, each of a group of its own.
    pub fn reserve_claims(&mut self, claims: u32) -> Result<(), Memory>
        ensures { self.new ≡ self.old }
    {
        self.pins.reserve_claims(claims as usize)
    }

    /// Holdings before anything was taken, over these notes, which are empty.
    fn empty(
        alloc: Global,
        node: NodeId,
        settings: &Settings,
        standings: ChunkNotes,
        claims: ClaimNotes,
        pages: PageNotes,
    ) -> Result<Holdings<L>, Memory>
        requires rules { AreRules settings.now.triggers.items }
        requires standings { standings.items ≡ [] }
        requires claims { (claims.items ≡ []) × (claims.keeps ≡ standings.keeps) }
        requires pages { (pages.items ≡ []) × (pages.keeps ≡ standings.keeps) }
        ensures { IfOk result (λ holdings. Holds holdings (first_point (settings_of settings.now) node.0 standings.keeps)) }
    {
        Ok(Holdings {
            alloc,
            node,
            index: TraceIndex::make(alloc, settings.threshold, settings.traces)?,
            pins: Pins::make(alloc, node, settings)?,
            sent: VecDeque::new(alloc),
            hand: VecDeque::new(alloc),
            offered: None,
            again: false,
            standings,
            claims,
            pages,
        })
    }

    /// Takes a chunk whose page was started.
    pub fn take_chunk(&mut self, held: Held<L>) -> Result<(), Memory>
        requires started { IsSome held.chunk.page }
        requires known { HoldsThat self.old (λ point. Unit {0}) }
        ensures { (point : Point L) → Holds self.old point → held.chunk.size ≡ point.settings.size → OnOk result (Holds self.new (chunk_taken (buffer_of held) point)) }
    {
        match self.try_chunk(held) {
            Ok(()) => Ok(()),
            Err(_) => Err(Memory),
        }
    }

    /// Takes a crumb. Answers what is to be told, if its trace is claimed and its node is new there. For want of memory
    /// nothing changes.
    pub fn take_crumb(&mut self, crumb: Crumb) -> Result<Option<Told>, Memory>
        requires node { crumb.node.0 < MOST_NODES }
        requires known { HoldsThat self.old (λ point. Unit {0}) }
        ensures told { (point : Point L) → Holds self.old point → IfOk result (λ told. told ≡ model.told_by point.settings point.node point.state (model.Crumbed 0 crumb)) }
        ensures after { (point : Point L) → Holds self.old point → OnOk result (Holds self.new (crumb_taken crumb point)) }
        ensures same { OnErr result (self.new ≡ self.old) }
    {
        let Some(group) = self.pins.owner(crumb.trace) else {
            let room = (self.index.chunks() as usize).saturating_add(1);
            self.hand.reserve(room)?;
            let gone = self.index.crumb(crumb)?;
            evict_into(&mut self.standings, &mut self.hand, gone);
            return Ok(None);
        };
        if !self.pins.crumb(crumb) {
            return Ok(None);
        }
        Ok(Some(Told {
            group,
            laterals: self.pins.laterals(crumb.trace),
            crumbs: NodeSet::only(crumb.node),
            why: Why::Late,
        }))
    }

    /// Forgets a group for which nothing is pinned. Answers whether it did. It takes no memory.
    pub fn forget(&mut self, group: Group) -> bool
        ensures settled { (point : Point L) → Holds self.old point → result ≡ is_settled group point.state }
        ensures after { (point : Point L) → Holds self.old point → result ≡ true → Holds self.new (with_state (forget_group group point.state) point) }
        ensures same { result ≡ false → self.new ≡ self.old }
        ensures offered { self.new.offered ≡ self.old.offered }
    {
        let did = self.pins.forget(group);
        if !did {
            return false;
        }
        self.claims.forget(self.alloc, group);
        true
    }

    /// Takes a trigger. Answers what is to be told, if it is admitted. For want of memory nothing changes.
    pub fn take_trigger(&mut self, trigger: &Trigger) -> Result<Option<Told>, Memory>
        requires { HoldsThat self.old (λ point. (is_declared point.settings.triggers trigger.now.trigger ≡ true) × (point.state.admitted + 1 < 2 ^ 32)) }
        ensures told { (point : Point L) → Holds self.old point → IfOk result (λ told. told ≡ model.told_by point.settings point.node point.state (model.Triggered 0 trigger.now)) }
        ensures after { (point : Point L) → Holds self.old point → OnOk result (Holds self.new (trigger_taken trigger.now point)) }
        ensures same { OnErr result (self.new ≡ self.old) }
    {
        let answer = self.pins.would_admit(trigger.trigger, trigger.moment);
        let Admitted::Admitted { number } = answer else {
            let _ = self.pins.admit(trigger.trigger, trigger.moment);
            return Ok(None);
        };
        let ask = self.ask_of(trigger, number);
        let told = self.take_ask(&ask, Why::Fired)?;
        let _ = self.pins.admit(trigger.trigger, trigger.moment);
        Ok(Some(told))
    }

    /// What the group of an admitted trigger of this number asks for.
    fn ask_of(&self, trigger: &Trigger, number: u32) -> Ask
        ensures { result ≡ ask_by self.now.node trigger.now number }
    {
        Ask {
            group: Group {
                id: GroupId {
                    node: self.node.0,
                    number,
                },
                trigger: trigger.trigger,
                lead: trigger.lead,
            },
            laterals: trigger.laterals,
        }
    }

    /// Claims what the group names and nobody claimed, and answers what is to be told. For want of memory nothing changes.
    pub fn take_ask(&mut self, ask: &Ask, why: Why) -> Result<Told, Memory>
        requires { HoldsThat self.old (λ point. is_declared point.settings.triggers ask.now.group.trigger ≡ true) }
        ensures told { (point : Point L) → Holds self.old point → IfOk result (λ told. told ≡ told_of point.state.crumbs ask.now why) }
        ensures after { (point : Point L) → Holds self.old point → OnOk result (Holds self.new (claimed_for ask.now point)) }
        ensures same { OnErr result (self.new ≡ self.old) }
    {
        self.claim(ask)?;
        Ok(Told {
            group: ask.group,
            laterals: ask.laterals,
            crumbs: self.crumbs(ask),
            why,
        })
    }

    /// The nodes to which the crumbs of a group's traces lead, each of which is claimed.
    fn crumbs(&self, ask: &Ask) -> NodeSet
        requires { KnowsThat self.now.pins (λ memory. All (λ trace. IsSome (claim_of memory.claims trace)) (traces_of ask.now)) }
        ensures { (point : Point L) → Holds self.now point → result ≡ crumb_nodes point.state.crumbs (traces_of ask.now) }
    {
        let mut crumbs = self.pins.crumbs(ask.group.lead);
        for place in 0..ask.laterals.len() {
            let Some(trace) = ask.laterals.get(place) else {
                unreachable!()
            };
            crumbs = crumbs.union(self.pins.crumbs(trace));
        }
        crumbs
    }

    /// Notes why a chunk left, and puts it last into the hand, where a place stays free for a chunk that comes back.
    fn let_go(&mut self, parting: Parting<L>) -> Result<(), Memory>
        ensures { OnOk result (self.new ≡ let_go self.old (going_of parting)) }
    {
        self.standings.leave(Leave {
            place: parting.place,
            left: parting.left,
        });
        self.hand.reserve(2)?;
        self.hand.push_back_reserved(parting);
        Ok(())
    }

    /// Reports what a turn sent: notes that the chunks were reported and the bytes of their pages, and puts them last into
    /// the hand.
    pub fn report(&mut self) -> Result<(), Memory>
        requires { All (λ pin. IsSome pin.chunk.chunk.page) self.old.sent }
        ensures { OnOk result (self.new ≡ reported self.old) }
    {
        while let Some(sent) = self.sent.pop_front() {
            let SentChunk { held, place, group } = sent;
            self.pages.append(self.alloc, &held.chunk)?;
            let left = Left::Reported(group);
            self.let_go(Parting { held, place, left })?;
        }
        Ok(())
    }

    /// The first of the hand, with the lease with which it came last, to be offered to the pool. `None` where the hand is
    /// empty.
    pub fn offer(&mut self) -> Result<Option<Held<L>>, Memory>
        requires none { self.old.offered ≡ None }
        ensures some { IfOk result (λ first. IfSome first (λ held. Offers self.old (buffer_of held) self.new)) }
        ensures none { IfOk result (λ first. IfNone first ((self.old.hand ≡ []) × (self.new ≡ self.old))) }
    {
        self.hand.reserve(1)?;
        let Some(Parting { held, place, left }) = self.hand.pop_front() else {
            return Ok(None);
        };
        self.offered = Some(Out { place, left });
        Ok(Some(held))
    }

    /// Takes the chunk that was offered first into the hand again, with its new lease, if it came back.
    pub fn answer(&mut self, back: Option<Held<L>>)
        requires { IsSome self.old.offered }
        ensures { self.new ≡ answered (buffer_in back) self.old }
    {
        let Some(Out { place, left }) = self.offered.take() else {
            unreachable!()
        };
        let Some(held) = back else {
            self.again = false;
            return;
        };
        self.again = true;
        self.hand.push_front_reserved(Parting { held, place, left });
    }

    /// The first of the hand, with the lease with which it came last. `None` where the hand is empty.
    pub fn first(&self) -> Option<First<'_, L>>
        ensures some { IfSome result (λ first. Leads self.now first.chunk.now first.lease.now first.left first.again) }
        ensures none { IfNone result (self.now.hand ≡ []) }
    {
        let parting = self.hand.front()?;
        Some(First {
            chunk: &parting.held.chunk,
            lease: &parting.held.lease,
            left: parting.left,
            again: self.again,
        })
    }

    /// How many triggers were admitted.
    pub fn admitted(&self) -> u32
        ensures { (memory : Remembered (Tagged L)) → Remembers self.now.pins memory → result ≡ memory.admitted }
    {
        self.pins.admitted()
    }

    /// How many chunks are pinned.
    pub fn pinned(&self) -> u32
        ensures { (memory : Remembered (Tagged L)) → Remembers self.now.pins memory → result ≡ length memory.pinned }
    {
        self.pins.chunks()
    }

    /// How many chunks the hand has, without the one that was offered.
    pub fn in_hand(&self) -> usize
        ensures { result ≡ length self.now.hand }
    {
        self.hand.len()
    }

    /// What is left at the end, with these steps. The book is empty where nothing was kept.
    pub fn finish(self, log: List<Step>) -> Result<Finished<L>, Memory>
        requires { HoldsThat self (λ point. (point.offered ≡ None) × ((place : ℕ) → IsInOnePlace point.state place)) }
        ensures book { (point : Point L) → Holds self point → IfOk result (λ finished. agent_book_of finished.book ≡ record (book_kept point.keeps point.node point.state) { log = log.items }) }
        ensures rest { (point : Point L) → Holds self point → point.offered ≡ None → IfOk result (λ finished. map buffer_of finished.rest.items ≡ buffers_left point) }
    {
        let book = AgentBook {
            node: self.node,
            log,
            standings: self.standings.into_list(self.alloc),
            claims: self.claims.into_list(self.alloc),
            sent: self.pages.into_list(self.alloc),
        };
        let rest = rest_of(self.alloc, self.index, self.hand);
        finished(book, rest)
    }
}

impl<L: Token> Queues for Holdings<L> {
    ghost use Rattle.hs_agent.specs.Reporting.{costs_of, SendsNext};

    ghost costs = { costs_of };

    ghost sends = { SendsNext };

    fn next_cost(&self, trigger: TriggerId) -> Option<u32> {
        self.pins.next_cost(trigger)
    }

    fn send_next(&mut self, trigger: TriggerId) {
        match self.pins.take_next(trigger) {
            Some(dropped) => self.sent.push_back_reserved(sent_of(dropped)),
            None => unreachable!(),
        }
    }
}

/// A chunk with its place beside its lease.
pub(super) fn with_place<L: Token>(place: ArrivalPlace, held: Held<L>) -> Held<Tagged<L>>
    ensures { buffer_of result ≡ placed_at place.0 (buffer_of held) }
{
    let Held { chunk, lease } = held;
    let lease = Tagged { lease, place };
    Held { chunk, lease }
}

/// A chunk with its lease alone, and its place.
fn apart<L: Token>(held: Held<Tagged<L>>) -> (Held<L>, ArrivalPlace)
    ensures held { buffer_of result.0 ≡ untagged (buffer_of held) }
    ensures place { result.1.0 ≡ place_of (buffer_of held) }
{
    let Held { chunk, lease } = held;
    let Tagged { lease, place } = lease;
    (Held { chunk, lease }, place)
}

/// A chunk that the pins sent.
fn sent_of<L: Token>(dropped: Dropped<Tagged<L>>) -> SentChunk<L>
    ensures { sent_pin result ≡ pin_of dropped }
{
    let Dropped { held, group } = dropped;
    let (held, place) = apart(held);
    SentChunk { held, place, group }
}

/// A book with what is left, where memory was found for that.
fn finished<L: Token>(
    book: AgentBook,
    rest: Result<List<Held<L>>, Memory>,
) -> Result<Finished<L>, Memory>
    ensures book { IfOk result (λ finished. finished.book ≡ book) }
    ensures rest { IfOk result (λ finished. rest ≡ Ok finished.rest) }
{
    match rest {
        Ok(rest) => Ok(Finished { book, rest }),
        Err(_) => Err(Memory),
    }
}

/// What is left: the chunks of the index and then those of the hand, each with the lease with which it came last.
fn rest_of<L: Token>(
    alloc: Global,
    index: TraceIndex<Tagged<L>>,
    hand: VecDeque<Parting<L>>,
) -> Result<List<Held<L>>, Memory>
    ensures { IfOk result (λ rest. map buffer_of rest.items ≡ map untagged (chunks_left index.touched ++ hand_of hand.items)) }
{
    let mut rest = List::new(alloc);
    take_indexed(&mut rest, index.finish()?)?;
    take_hand(&mut rest, hand)?;
    Ok(rest)
}

/// Puts the chunks of an index behind others.
fn take_indexed<L: Token>(
    rest: &mut List<Held<L>>,
    indexed: List<Held<Tagged<L>>>,
) -> Result<(), Memory>
    ensures { OnOk result (map buffer_of rest.new.items ≡ map buffer_of rest.old.items ++ map untagged (map buffer_of indexed.items)) }
{
    for held in indexed.into_vec() {
        let (held, _) = apart(held);
        rest.append(held)?;
    }
    Ok(())
}

/// Puts the chunks of the hand behind others.
fn take_hand<L: Token>(
    rest: &mut List<Held<L>>,
    mut hand: VecDeque<Parting<L>>,
) -> Result<(), Memory>
    ensures { OnOk result (map buffer_of rest.new.items ≡ map buffer_of rest.old.items ++ map untagged (hand_of hand.items)) }
{
    while let Some(parting) = hand.pop_front() {
        let Parting {
            held,
            place: _,
            left: _,
        } = parting;
        rest.append(held)?;
    }
    Ok(())
}
