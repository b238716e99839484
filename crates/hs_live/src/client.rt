//! The client.

ghost use Rattle.std.specs.Prelude.{◌≡◌, ℕ, ◌+◌, ◌<◌, ◌≤◌, ◌^◌, true, false, [], ◌∷◌, length, map, count_by, IsSome, IsNone};
ghost use Rattle.hs_auto.specs.Watching.{Watch};
ghost use Rattle.hs_records.specs.Plain.{Begin, Point, Crumb as LeaveCrumb, End, Fire, Sample};
ghost use Rattle.hs_records.specs.Records.{piece_count};
ghost use Rattle.hs_client.specs.Core.{is_null, after_step, Fits, NeedsPage, Wrote};
ghost use Rattle.hs_client.specs.Calls.{May};
ghost use Rattle.hs_base.specs.declared.limits.TheConstants.{FRAME_COST, MIN_SIZE, MAX_SIZE};
ghost use Rattle.hs_link.specs.Contents.{sent, HasPlaces, TakesPlaces};
ghost use Rattle.hs_ring.specs.Parts.{Refills};
ghost use Rattle.hs_live.specs.declared.called.Called.TheVariants.{Done};
ghost use Rattle.hs_live.specs.Keys.{IsTriggerOf};
ghost use Rattle.hs_live.specs.Live.{outgoing, incoming, GoesOn, Sends, Flushes};
ghost use Rattle.hs_live.specs.Writing.{Spends, writing_of};
ghost use Rattle.hs_live.specs.Done.{HasDone, Does, DoesNothing};
ghost use Rattle.hs_live.specs.Calls.{IsNew, made_of, BeginsBy, PointsBy, NotesBy, EndsBy, RenewsBy, begun, renewed, counts, Renews, IsAutoOf, WritesOnly, AreMates, MeetsAt};

use crate::called::{Called, ClientLeft, Closed, Parted};
use crate::key::ClientKey;
use crate::laws::what_was_done_was_sent;
use crate::links::meet_at;
use crate::writer::Writer;
use hs_auto::{Auto, Sampled};
use hs_base::limits::MAX_PAYLOAD;
use hs_base::{Crumb, List, NodeId, TraceId, Trigger, TriggerId};
use hs_client::sending_laws::one_operation_more;
use hs_client::{ClientCore, any_steps_make_the_book};
use hs_link::{Receiver, Sender};
use hs_ring::{Drawer, Giver, Lease};
use hs_words::Held;
use std::marker::Model;

/// A client of a service. No call waits, whatever the agent does, and none takes memory.
#[derive(Drop)]
pub struct Client {
    writer: Writer,
    autos: List<Auto>,
    crumbs: Sender<Crumb, ClientKey>,
    triggers: Sender<Trigger, ClientKey>,
}

impl Model for Client {
    ghost use Rattle.hs_live.specs.Live.{PlainClient};

    ghost Value = { PlainClient };

    ghost use Rattle.hs_live.specs.ClientInside.{live_of, IsClient};

    ghost view = { live_of };

    ghost invariant = { IsClient };
}

impl Client {
    /// A client with these parts, none of which was used.
    pub fn make(
        core: ClientCore<Lease>,
        autos: List<Auto>,
        drawer: Drawer,
        chunks: Sender<Held<Lease>, ClientKey>,
        crumbs: Sender<Crumb, ClientKey>,
        triggers: Sender<Trigger, ClientKey>,
    ) -> Client
        requires { IsNew (record { core = core; autos = autos.items; drawer = drawer; chunks = outgoing chunks; crumbs = crumbs; triggers = triggers }) }
        ensures client { result ≡ record { core = core; autos = autos.items; drawer = drawer; chunks = outgoing chunks; crumbs = crumbs; triggers = triggers } }
        ensures done { HasDone (made_of result) [] result }
    {
        Client {
            writer: Writer::new(core, drawer, chunks),
            autos,
            crumbs,
            triggers,
        }
    }

    /// Opens a trace.
    pub fn begin(&mut self, trace: TraceId) -> Called
        ensures answer { BeginsBy self.old.core result }
        ensures after { self.new ≡ record self.old { core = begun trace result self.old.core } }
        ensures does { Does (Begin trace) result self.old self.new }
    {
        any_steps_make_the_book::<Lease>();
        one_operation_more();
        self.writer.begin(trace)
    }

    /// Records a payload at a moment, in microseconds.
    pub fn point(&mut self, moment: u64, payload: &[u8]) -> Called
        requires left { self.old.core.counted + piece_count self.old.core.size (length payload.now) ≤ self.old.core.calls }
        requires draws { piece_count self.old.core.size (length payload.now) ≤ self.old.drawer.left }
        requires places { HasPlaces (piece_count self.old.core.size (length payload.now)) self.old.chunks }
        ensures answer { PointsBy self.old.core (length payload.now) result }
        ensures does { Does (Point moment payload.now) result self.old self.new }
        ensures trace { self.new.core.trace ≡ self.old.core.trace }
        ensures spends { Spends (counts (piece_count self.old.core.size (length payload.now)) result) (writing_of self.old) (writing_of self.new) }
        ensures places { TakesPlaces (piece_count self.old.core.size (length payload.now)) self.old.chunks self.new.chunks }
        ensures only { WritesOnly self.old self.new }
    {
        if self.has_room(payload.len()) {
            self.point_here(moment, payload)
        } else {
            self.point_apart(moment, payload)
        }
    }

    /// Whether a page is open that has room for a payload with so many bytes.
    pub fn has_room(&self, len: usize) -> bool
        requires { len < 2 ^ 63 }
        ensures room { result ≡ true → Fits self.now.core len }
        ensures needs { result ≡ false → NeedsPage self.now.core len }
        ensures open { result ≡ true → IsSome self.now.core.trace }
        ensures narrow { result ≡ true → FRAME_COST + len ≤ self.now.core.size }
        ensures most { result ≡ true → len ≤ MAX_PAYLOAD }
    {
        self.writer.core.has_room(len)
    }

    /// Records a payload that the open page has room for, as `point` does. It writes the payload as one piece, and counts it once.
    pub fn point_here(&mut self, moment: u64, payload: &[u8]) -> Called
        requires may { May self.old.core (Wrote moment payload.now false) }
        requires most { length payload.now ≤ MAX_PAYLOAD }
        ensures answer { PointsBy self.old.core (length payload.now) result }
        ensures done { result ≡ Done }
        ensures core { self.new.core ≡ after_step self.old.core (Wrote moment payload.now false) }
        ensures does { Does (Point moment payload.now) result self.old self.new }
        ensures trace { self.new.core.trace ≡ self.old.core.trace }
        ensures spends { Spends (counts (piece_count self.old.core.size (length payload.now)) result) (writing_of self.old) (writing_of self.new) }
        ensures places { TakesPlaces (piece_count self.old.core.size (length payload.now)) self.old.chunks self.new.chunks }
        ensures only { WritesOnly self.old self.new }
    {
        one_operation_more();
        self.writer.point_here(moment, payload);
        Called::Done
    }

    /// Records a payload that the open page has no room for, or answers why none is recorded. It stands apart, since most
    /// payloads fit the open page.
    #[cold]
    #[inline(never)]
    fn point_apart(&mut self, moment: u64, payload: &[u8]) -> Called
        requires left { self.old.core.counted + piece_count self.old.core.size (length payload.now) ≤ self.old.core.calls }
        requires draws { piece_count self.old.core.size (length payload.now) ≤ self.old.drawer.left }
        requires places { HasPlaces (piece_count self.old.core.size (length payload.now)) self.old.chunks }
        ensures answer { PointsBy self.old.core (length payload.now) result }
        ensures does { Does (Point moment payload.now) result self.old self.new }
        ensures trace { self.new.core.trace ≡ self.old.core.trace }
        ensures spends { Spends (counts (piece_count self.old.core.size (length payload.now)) result) (writing_of self.old) (writing_of self.new) }
        ensures places { TakesPlaces (piece_count self.old.core.size (length payload.now)) self.old.chunks self.new.chunks }
        ensures only { WritesOnly self.old self.new }
    {
        one_operation_more();
        if self.writer.core.trace().is_none() {
            return Called::NoTrace;
        }
        if payload.len() > MAX_PAYLOAD {
            return Called::TooWide;
        }
        self.writer.point(moment, payload);
        Called::Done
    }

    /// Leaves a crumb: the open trace goes on to this node.
    pub fn crumb(&mut self, node: NodeId) -> Called
        requires place { HasPlaces 1 self.old.crumbs }
        requires node { node.0 < self.old.crumbs.key.nodes }
        ensures answer { NotesBy self.old.core result }
        ensures does { Does (LeaveCrumb node) result self.old self.new }
        ensures only { self.new ≡ record self.old { crumbs = self.new.crumbs } }
        ensures crumbs { GoesOn self.old.crumbs self.new.crumbs }
        ensures most { length (sent self.new.crumbs) ≤ length (sent self.old.crumbs) + 1 }
        ensures places { TakesPlaces 1 self.old.crumbs self.new.crumbs }
    {
        one_operation_more();
        let Some(trace) = self.writer.core.trace() else {
            return Called::NoTrace;
        };
        self.crumbs.send_within(Crumb { trace, node });
        Called::Done
    }

    /// Fires a trigger. It needs no open trace.
    pub fn trigger(&mut self, trigger: Trigger) -> Called
        requires place { HasPlaces 1 self.old.triggers }
        requires declared { IsTriggerOf self.old.triggers.key trigger }
        ensures answer { result ≡ Done }
        ensures does { Does (Fire trigger) result self.old self.new }
        ensures only { self.new ≡ record self.old { triggers = self.new.triggers } }
        ensures triggers { Sends trigger self.old.triggers self.new.triggers }
        ensures places { TakesPlaces 1 self.old.triggers self.new.triggers }
    {
        one_operation_more();
        self.triggers.send_within(trigger);
        Called::Done
    }

    /// Gives an autotrigger, by its number, a value of the open trace. Where it fires, a trigger of its id goes to the
    /// agent.
    pub fn sample(&mut self, moment: u64, auto: u32, value: u64, trigger: TriggerId) -> Called
        requires place { HasPlaces 1 self.old.triggers }
        requires auto { IsAutoOf self.old auto trigger }
        ensures answer { NotesBy self.old.core result }
        ensures does { Does (Sample moment auto value) result self.old self.new }
        ensures only { self.new ≡ record self.old { autos = self.new.autos; triggers = self.new.triggers } }
        ensures rules { map (λ (watch : Watch). watch.rule) self.new.autos ≡ map (λ (watch : Watch). watch.rule) self.old.autos }
        ensures triggers { GoesOn self.old.triggers self.new.triggers }
        ensures most { length (sent self.new.triggers) ≤ length (sent self.old.triggers) + 1 }
        ensures places { TakesPlaces 1 self.old.triggers self.new.triggers }
    {
        one_operation_more();
        let Some(lead) = self.writer.core.trace() else {
            return Called::NoTrace;
        };
        let autos = self.autos.as_mut_slice();
        match autos[auto as usize].sample(value, lead) {
            Sampled::Quiet => {}
            Sampled::Fired { laterals } => {
                self.triggers.send_within(Trigger {
                    moment,
                    trigger,
                    lead,
                    laterals,
                });
            }
        }
        Called::Done
    }

    /// Goes on with a new bare core for so many calls, as if it were made, where no trace is open. What was sent stays sent, what
    /// waits in the outboxes waits on, and the autotriggers go on. The chunks that come have the number of the renewal as the mark
    /// of their leases, and records and pages count from 0.
    pub fn renew(&mut self, calls: u32) -> Called
        ensures answer { RenewsBy self.old.core result }
        ensures only { self.new ≡ record self.old { core = renewed calls result self.old.core } }
        ensures does { Renews result self.old self.new }
    {
        what_was_done_was_sent();
        self.writer.renew(calls)
    }

    /// Closes the open trace.
    pub fn end(&mut self) -> Called
        requires { HasPlaces 1 self.old.chunks }
        ensures answer { EndsBy self.old.core result }
        ensures does { Does End result self.old self.new }
        ensures trace { result ≡ Done → self.new.core.trace ≡ None }
        ensures spends { Spends (counts 1 result) (writing_of self.old) (writing_of self.new) }
        ensures places { TakesPlaces 1 self.old.chunks self.new.chunks }
        ensures only { WritesOnly self.old self.new }
    {
        one_operation_more();
        self.writer.end()
    }

    /// Puts what waits in the outboxes into the rings, as far as there is room, and answers how much still waits.
    pub fn flush(&mut self) -> u32
        ensures left { result ≡ length self.new.chunks.outbox + length self.new.crumbs.outbox + length self.new.triggers.outbox }
        ensures chunks { Flushes self.old.chunks self.new.chunks }
        ensures crumbs { Flushes self.old.crumbs self.new.crumbs }
        ensures triggers { Flushes self.old.triggers self.new.triggers }
        ensures only { self.new ≡ record self.old { chunks = self.new.chunks; crumbs = self.new.crumbs; triggers = self.new.triggers } }
        ensures does { DoesNothing self.old self.new }
    {
        let chunks = self.writer.chunks.flush();
        let crumbs = self.crumbs.flush();
        let triggers = self.triggers.flush();
        chunks + crumbs + triggers
    }

    /// What the client has left. Each call asks for some of it.
    pub fn left(&self) -> ClientLeft
        ensures calls { self.now.core.counted + result.calls ≡ self.now.core.calls }
        ensures draws { result.draws ≡ self.now.drawer.left }
        ensures chunks { HasPlaces result.chunks self.now.chunks }
        ensures crumbs { HasPlaces result.crumbs self.now.crumbs }
        ensures triggers { HasPlaces result.triggers self.now.triggers }
    {
        let chunks = self.writer.chunks.places();
        let crumbs = self.crumbs.places();
        let triggers = self.triggers.places();
        ClientLeft {
            calls: self.writer.core.left(),
            draws: self.writer.drawer.left(),
            chunks,
            crumbs,
            triggers,
        }
    }

    /// The open trace, or `None` where none is open.
    pub fn trace(&self) -> Option<TraceId>
        ensures { result ≡ self.now.core.trace }
    {
        self.writer.core.trace()
    }

    /// The size of its pages, in bytes.
    pub fn size(&self) -> u32
        ensures value { result ≡ self.now.core.size }
        ensures least { MIN_SIZE ≤ self.now.core.size }
        ensures most { self.now.core.size ≤ MAX_SIZE }
    {
        self.writer.core.size()
    }

    /// The calls that its core may still count.
    pub fn calls_left(&self) -> u32
        ensures { self.now.core.counted + result ≡ self.now.core.calls }
    {
        self.writer.core.left()
    }

    /// The draws that it may still make before its allowance is made whole again.
    pub fn draws_left(&self) -> u32
        ensures { result ≡ self.now.drawer.left }
    {
        self.writer.drawer.left()
    }

    /// The draws of its whole allowance.
    pub fn draws_most(&self) -> u32
        ensures { result ≡ self.now.drawer.most }
    {
        self.writer.drawer.most()
    }

    /// Makes the allowance of draws whole again, and answers whether it is. It is not where a void number of the pool stands out, which
    /// a later give fills, or where the pool's life is at its end, and then nothing changes. It may be called in any state, is no
    /// operation, and neither waits nor takes memory.
    pub fn refill_draws(&mut self) -> bool
        ensures draws { Refills self.old.drawer result self.new.drawer }
        ensures only { self.new ≡ record self.old { drawer = self.new.drawer } }
        ensures does { DoesNothing self.old self.new }
    {
        self.writer.drawer.refill()
    }

    /// How many chunks more may be sent, whatever the agent does.
    pub fn chunk_places(&self) -> u32
        ensures enough { HasPlaces result self.now.chunks }
        ensures most { (more : ℕ) → HasPlaces more self.now.chunks → more ≤ result }
    {
        self.writer.chunks.places()
    }

    /// How many crumbs more may be sent, whatever the agent does.
    pub fn crumb_places(&self) -> u32
        ensures enough { HasPlaces result self.now.crumbs }
        ensures most { (more : ℕ) → HasPlaces more self.now.crumbs → more ≤ result }
    {
        self.crumbs.places()
    }

    /// How many triggers more may be sent, whatever the agent does.
    pub fn trigger_places(&self) -> u32
        ensures enough { HasPlaces result self.now.triggers }
        ensures most { (more : ℕ) → HasPlaces more self.now.triggers → more ≤ result }
    {
        self.triggers.places()
    }

    /// The number of draws so far that found the pool empty.
    pub fn nulls(&self) -> u32
        ensures { result ≡ count_by is_null self.now.core.draws }
    {
        self.writer.core.nulls()
    }

    /// Brings the client's ends together with those of its number, of the same links and the same pool.
    pub(crate) fn meet(
        &mut self,
        giver: &mut Giver,
        chunks: &mut List<Receiver<Held<Lease>, ClientKey>>,
        crumbs: &mut List<Receiver<Crumb, ClientKey>>,
        triggers: &mut List<Receiver<Trigger, ClientKey>>,
        number: u16,
    )
        requires { AreMates number (record { giver = giver.old; chunks = map incoming chunks.old.items; crumbs = crumbs.old.items; triggers = triggers.old.items }) self.old }
        ensures met { MeetsAt number (record { giver = giver.old; chunks = map incoming chunks.old.items; crumbs = crumbs.old.items; triggers = triggers.old.items }) self.old
            (record { giver = giver.new; chunks = map incoming chunks.new.items; crumbs = crumbs.new.items; triggers = triggers.new.items }) self.new }
        ensures does { DoesNothing self.old self.new }
    {
        let writer = &mut self.writer;
        meet_at(&mut writer.chunks, chunks, number);
        meet_at(&mut self.crumbs, crumbs, number);
        meet_at(&mut self.triggers, triggers, number);
        giver.meet(&mut writer.drawer);
    }

    /// Gives back what the client noted, which it has to keep, and its ends.
    pub fn close(self) -> Closed
        requires closed { IsNone self.core.trace }
        requires keeps { self.core.keeps ≡ true }
        ensures book { (result.book.client ≡ self.core.client) × (result.book.draws.items ≡ self.core.draws) × (result.book.pages.items ≡ self.core.pages) }
        ensures drawer { result.drawer ≡ self.drawer }
        ensures chunks { outgoing result.chunks ≡ self.chunks }
        ensures crumbs { result.crumbs ≡ self.crumbs }
        ensures triggers { result.triggers ≡ self.triggers }
    {
        let Client {
            writer,
            autos: _,
            crumbs,
            triggers,
        } = self;
        let Writer {
            core,
            drawer,
            chunks,
        } = writer;
        Closed {
            book: core.finish(),
            drawer,
            chunks,
            crumbs,
            triggers,
        }
    }

    /// Gives back the ends of the client alone: its drawer and the senders of its links. It may be bare, and then keeps no book.
    pub fn part(self) -> Parted
        requires { IsNone self.core.trace }
        ensures drawer { result.drawer ≡ self.drawer }
        ensures chunks { outgoing result.chunks ≡ self.chunks }
        ensures crumbs { result.crumbs ≡ self.crumbs }
        ensures triggers { result.triggers ≡ self.triggers }
    {
        let Client {
            writer,
            autos: _,
            crumbs,
            triggers,
        } = self;
        let Writer {
            core: _,
            drawer,
            chunks,
        } = writer;
        Parted {
            drawer,
            chunks,
            crumbs,
            triggers,
        }
    }
}
