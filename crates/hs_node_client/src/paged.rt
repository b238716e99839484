//! The client of the library, which counts its pages beside what it does.

ghost use Rattle.std.specs.Prelude.{◌≡◌, ℕ, ◌+◌, ◌<◌, ◌≤◌, ◌^◌, true, false, [], length, map, count_by, None, IsSome};
ghost use Rattle.hs_auto.specs.Watching.{Watch};
ghost use Rattle.hs_base.specs.declared.limits.TheConstants.{FRAME_COST, MAX_PAYLOAD, MAX_SIZE, MIN_SIZE};
ghost use Rattle.hs_client.specs.Calls.{May};
ghost use Rattle.hs_client.specs.Core.{is_null, after_step, Fits, NeedsPage, Wrote};
ghost use Rattle.hs_link.specs.Contents.{sent, HasPlaces, TakesPlaces};
ghost use Rattle.hs_live.specs.declared.called.Called.TheVariants.{Done};
ghost use Rattle.hs_live.specs.Calls.{IsNew, made_of, BeginsBy, NotesBy, EndsBy, RenewsBy, begun, renewed, counts, Renews, IsAutoOf, WritesOnly};
ghost use Rattle.hs_live.specs.Done.{HasDone, Does, DoesNothing};
ghost use Rattle.hs_live.specs.Keys.{IsTriggerOf};
ghost use Rattle.hs_live.specs.Live.{outgoing, GoesOn, Sends, Flushes};
ghost use Rattle.hs_live.specs.Writing.{Spends, writing_of};
ghost use Rattle.hs_records.specs.Plain.{Begin, Point, Crumb as LeaveCrumb, End, Fire, Sample};
ghost use Rattle.hs_records.specs.Records.{piece_count};
ghost use Rattle.hs_ring.specs.Parts.{Refills};
ghost use Rattle.hs_node_client.specs.Clients.{KeepsDraws};
ghost use Rattle.hs_node_client.specs.Paging.{place_behind, place_in};

use crate::laws::{ends_take_none, points_take_pages};
use hs_auto::Auto;
use hs_base::{Crumb, List, NodeId, TraceId, Trigger, TriggerId};
use hs_client::ClientCore;
use hs_link::Sender;
use hs_live::{Called, Client, ClientKey, what_was_done_was_sent};
use hs_ring::{Drawer, Lease};
use hs_words::Held;
use std::marker::Model;

/// Where the next page of a client comes: the number of the core that writes it, and the page's number there.
#[derive(Clone, Copy)]
pub(crate) struct NextPage {
    pub(crate) core: u64,
    pub(crate) page: u32,
}

/// The client of the library with the place of its next page. Where a point needs pages, they are counted by the calls of the core: one
/// for each piece, and each piece stands on a page of its own.
#[derive(Drop)]
pub(crate) struct Paged {
    live: Client,
    place: NextPage,
}

impl Model for Paged {
    ghost use Rattle.hs_live.specs.Live.{PlainClient};

    ghost Value = { PlainClient };

    ghost use Rattle.hs_node_client.specs.Paged.{live_in, IsPaged};

    ghost view = { live_in };

    ghost invariant = { IsPaged };
}

impl Paged {
    /// A client with these parts, none of which was used.
    pub(crate) fn make(
        core: ClientCore<Lease>,
        autos: List<Auto>,
        drawer: Drawer,
        chunks: Sender<Held<Lease>, ClientKey>,
        crumbs: Sender<Crumb, ClientKey>,
        triggers: Sender<Trigger, ClientKey>,
    ) -> Paged
        requires new { IsNew (record { core = core; autos = autos.items; drawer = drawer; chunks = outgoing chunks; crumbs = crumbs; triggers = triggers }) }
        requires first { core.renewed ≡ 0 }
        ensures client { result ≡ record { core = core; autos = autos.items; drawer = drawer; chunks = outgoing chunks; crumbs = crumbs; triggers = triggers } }
        ensures done { HasDone (made_of result) [] result }
    {
        // That its calls have 32 bits is said where those that are left are asked for.
        let _ = core.left();
        Paged {
            live: Client::make(core, autos, drawer, chunks, crumbs, triggers),
            place: NextPage { core: 0, page: 0 },
        }
    }

    /// Where the next page comes: behind all pages, of which each has ended where no trace is open.
    #[inline(always)]
    pub(crate) fn place(&self) -> NextPage
        ensures behind { result ≡ place_behind self.now.core }
        ensures ended { self.now.core.trace ≡ None → result ≡ place_in self.now.core }
    {
        what_was_done_was_sent();
        self.place
    }

    /// Opens a trace.
    #[inline(always)]
    pub(crate) fn begin(&mut self, trace: TraceId) -> Called
        ensures answer { BeginsBy self.old.core result }
        ensures after { self.new ≡ record self.old { core = begun trace result self.old.core } }
        ensures does { Does (Begin trace) result self.old self.new }
    {
        self.live.begin(trace)
    }

    /// Whether a page is open that has room for a payload with so many bytes.
    #[inline(always)]
    pub(crate) fn has_room(&self, len: usize) -> bool
        requires { len < 2 ^ 63 }
        ensures room { result ≡ true → Fits self.now.core len }
        ensures needs { result ≡ false → NeedsPage self.now.core len }
        ensures open { result ≡ true → IsSome self.now.core.trace }
        ensures narrow { result ≡ true → FRAME_COST + len ≤ self.now.core.size }
        ensures most { result ≡ true → len ≤ MAX_PAYLOAD }
    {
        self.live.has_room(len)
    }

    /// Records a payload that the open page has room for.
    #[inline(always)]
    pub(crate) fn point_here(&mut self, moment: u64, payload: &[u8]) -> Called
        requires may { May self.old.core (Wrote moment payload.now false) }
        requires most { length payload.now ≤ MAX_PAYLOAD }
        ensures done { result ≡ Done }
        ensures core { self.new.core ≡ after_step self.old.core (Wrote moment payload.now false) }
        ensures does { Does (Point moment payload.now) result self.old self.new }
        ensures trace { self.new.core.trace ≡ self.old.core.trace }
        ensures spends { Spends (counts (piece_count self.old.core.size (length payload.now)) result) (writing_of self.old) (writing_of self.new) }
        ensures places { TakesPlaces (piece_count self.old.core.size (length payload.now)) self.old.chunks self.new.chunks }
        ensures only { WritesOnly self.old self.new }
    {
        self.live.point_here(moment, payload)
    }

    /// Records a payload that the open page has no room for.
    pub(crate) fn point(&mut self, moment: u64, payload: &[u8]) -> Called
        requires open { IsSome self.old.core.trace }
        requires needs { NeedsPage self.old.core (length payload.now) }
        requires most { length payload.now ≤ MAX_PAYLOAD }
        requires left { self.old.core.counted + piece_count self.old.core.size (length payload.now) ≤ self.old.core.calls }
        requires draws { piece_count self.old.core.size (length payload.now) ≤ self.old.drawer.left }
        requires places { HasPlaces (piece_count self.old.core.size (length payload.now)) self.old.chunks }
        ensures done { result ≡ Done }
        ensures does { Does (Point moment payload.now) result self.old self.new }
        ensures trace { self.new.core.trace ≡ self.old.core.trace }
        ensures spends { Spends (counts (piece_count self.old.core.size (length payload.now)) result) (writing_of self.old) (writing_of self.new) }
        ensures places { TakesPlaces (piece_count self.old.core.size (length payload.now)) self.old.chunks self.new.chunks }
        ensures only { WritesOnly self.old self.new }
    {
        points_take_pages();
        // That a page has its least size is said where the size is asked for.
        let _ = self.live.size();
        let left = self.live.calls_left();
        match self.live.point(moment, payload) {
            Called::Done => {}
            Called::Spent | Called::AlreadyOpen | Called::NoTrace | Called::TooWide =>
                unreachable!(),
        }
        self.place.page += left - self.live.calls_left();
        Called::Done
    }

    /// Leaves a crumb: the open trace goes on to this node.
    pub(crate) fn crumb(&mut self, node: NodeId) -> Called
        requires place { HasPlaces 1 self.old.crumbs }
        requires node { node.0 < self.old.crumbs.key.nodes }
        ensures answer { NotesBy self.old.core result }
        ensures does { Does (LeaveCrumb node) result self.old self.new }
        ensures only { self.new ≡ record self.old { crumbs = self.new.crumbs } }
        ensures crumbs { GoesOn self.old.crumbs self.new.crumbs }
        ensures most { length (sent self.new.crumbs) ≤ length (sent self.old.crumbs) + 1 }
        ensures places { TakesPlaces 1 self.old.crumbs self.new.crumbs }
    {
        self.live.crumb(node)
    }

    /// Fires a trigger.
    pub(crate) fn trigger(&mut self, trigger: Trigger) -> Called
        requires place { HasPlaces 1 self.old.triggers }
        requires declared { IsTriggerOf self.old.triggers.key trigger }
        ensures answer { result ≡ Done }
        ensures does { Does (Fire trigger) result self.old self.new }
        ensures only { self.new ≡ record self.old { triggers = self.new.triggers } }
        ensures triggers { Sends trigger self.old.triggers self.new.triggers }
        ensures places { TakesPlaces 1 self.old.triggers self.new.triggers }
    {
        self.live.trigger(trigger)
    }

    /// Gives an autotrigger, by its number, a value of the open trace.
    pub(crate) fn sample(
        &mut self,
        moment: u64,
        auto: u32,
        value: u64,
        trigger: TriggerId,
    ) -> Called
        requires place { HasPlaces 1 self.old.triggers }
        requires auto { IsAutoOf self.old auto trigger }
        ensures answer { NotesBy self.old.core result }
        ensures does { Does (Sample moment auto value) result self.old self.new }
        ensures only { self.new ≡ record self.old { autos = self.new.autos; triggers = self.new.triggers } }
        ensures rules { map (λ (watch : Watch). watch.rule) self.new.autos ≡ map (λ (watch : Watch). watch.rule) self.old.autos }
        ensures triggers { GoesOn self.old.triggers self.new.triggers }
        ensures most { length (sent self.new.triggers) ≤ length (sent self.old.triggers) + 1 }
        ensures places { TakesPlaces 1 self.old.triggers self.new.triggers }
    {
        self.live.sample(moment, auto, value, trigger)
    }

    /// Goes on with a new core for so many calls, where no trace is open.
    pub(crate) fn renew(&mut self, calls: u32) -> Called
        ensures answer { RenewsBy self.old.core result }
        ensures only { self.new ≡ record self.old { core = renewed calls result self.old.core } }
        ensures does { Renews result self.old self.new }
    {
        let called = self.live.renew(calls);
        if let Called::Done = called {
            self.place = NextPage {
                core: self.place.core + 1,
                page: 0,
            };
        }
        called
    }

    /// Makes the allowance of draws whole again where fewer than half of it are left. Where it cannot be made whole it stays as it is.
    #[inline(always)]
    pub(crate) fn keep_draws(&mut self)
        ensures draws { KeepsDraws self.old.drawer self.new.drawer }
        ensures only { self.new ≡ record self.old { drawer = self.new.drawer } }
        ensures does { DoesNothing self.old self.new }
    {
        if self.draws_left() < self.draws_most() / 2 {
            self.refill_draws();
        }
    }

    /// Makes the allowance of draws whole again, and answers whether it is. It stands apart, since it looks at what all threads share.
    #[cold]
    #[inline(never)]
    pub(crate) fn refill_draws(&mut self) -> bool
        ensures draws { Refills self.old.drawer result self.new.drawer }
        ensures only { self.new ≡ record self.old { drawer = self.new.drawer } }
        ensures does { DoesNothing self.old self.new }
    {
        self.live.refill_draws()
    }

    /// Closes the open trace.
    pub(crate) fn end(&mut self) -> Called
        requires { HasPlaces 1 self.old.chunks }
        ensures answer { EndsBy self.old.core result }
        ensures does { Does End result self.old self.new }
        ensures trace { result ≡ Done → self.new.core.trace ≡ None }
        ensures spends { Spends (counts 1 result) (writing_of self.old) (writing_of self.new) }
        ensures places { TakesPlaces 1 self.old.chunks self.new.chunks }
        ensures only { WritesOnly self.old self.new }
    {
        ends_take_none();
        self.live.end()
    }

    /// Puts what waits in the outboxes into the rings, as far as there is room, and answers how much still waits.
    pub(crate) fn flush(&mut self) -> u32
        ensures left { result ≡ length self.new.chunks.outbox + length self.new.crumbs.outbox + length self.new.triggers.outbox }
        ensures chunks { Flushes self.old.chunks self.new.chunks }
        ensures crumbs { Flushes self.old.crumbs self.new.crumbs }
        ensures triggers { Flushes self.old.triggers self.new.triggers }
        ensures only { self.new ≡ record self.old { chunks = self.new.chunks; crumbs = self.new.crumbs; triggers = self.new.triggers } }
        ensures does { DoesNothing self.old self.new }
    {
        self.live.flush()
    }

    /// The open trace, or `None` where none is open.
    #[inline(always)]
    pub(crate) fn trace(&self) -> Option<TraceId>
        ensures { result ≡ self.now.core.trace }
    {
        self.live.trace()
    }

    /// The size of its pages, in bytes.
    pub(crate) fn size(&self) -> u32
        ensures value { result ≡ self.now.core.size }
        ensures least { MIN_SIZE ≤ self.now.core.size }
        ensures most { self.now.core.size ≤ MAX_SIZE }
    {
        self.live.size()
    }

    /// The calls that its core may still count.
    pub(crate) fn calls_left(&self) -> u32
        ensures { self.now.core.counted + result ≡ self.now.core.calls }
    {
        self.live.calls_left()
    }

    /// The draws that it may still make before its allowance is made whole again.
    pub(crate) fn draws_left(&self) -> u32
        ensures { result ≡ self.now.drawer.left }
    {
        self.live.draws_left()
    }

    /// The draws of its whole allowance.
    pub(crate) fn draws_most(&self) -> u32
        ensures { result ≡ self.now.drawer.most }
    {
        self.live.draws_most()
    }

    /// How many chunks more may be sent, whatever the agent does.
    pub(crate) fn chunk_places(&self) -> u32
        ensures enough { HasPlaces result self.now.chunks }
        ensures most { (more : ℕ) → HasPlaces more self.now.chunks → more ≤ result }
    {
        self.live.chunk_places()
    }

    /// How many crumbs more may be sent, whatever the agent does.
    pub(crate) fn crumb_places(&self) -> u32
        ensures enough { HasPlaces result self.now.crumbs }
        ensures most { (more : ℕ) → HasPlaces more self.now.crumbs → more ≤ result }
    {
        self.live.crumb_places()
    }

    /// How many triggers more may be sent, whatever the agent does.
    pub(crate) fn trigger_places(&self) -> u32
        ensures enough { HasPlaces result self.now.triggers }
        ensures most { (more : ℕ) → HasPlaces more self.now.triggers → more ≤ result }
    {
        self.live.trigger_places()
    }

    /// The number of draws so far that found the pool empty.
    pub(crate) fn nulls(&self) -> u32
        ensures { result ≡ count_by is_null self.now.core.draws }
    {
        self.live.nulls()
    }
}
