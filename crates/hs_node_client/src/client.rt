//! The client of a service.

ghost use Rattle.std.specs.Prelude.{◌≡◌, ◌+◌, ◌<◌, ◌≤◌, ◌^◌, true, false, length, map, count_by, Some, None};
ghost use Rattle.hs_base.specs.NodeSets.{one_node};
ghost use Rattle.hs_base.specs.Rules.{fired_by};
ghost use Rattle.hs_base.specs.declared.limits.TheConstants.{MAX_SIZE, MOST_NODES};
ghost use Rattle.hs_client.specs.Core.{is_null, NeedsPage};
ghost use Rattle.hs_live.specs.Live.{Sends};
ghost use Rattle.hs_records.specs.Plain.{Point, Crumb as LeaveCrumb, End, Fire, Sample};
ghost use Rattle.hs_node_client.specs.declared.answers.CallAnswer.TheVariants.{Done, Full, Unknown};
ghost use Rattle.hs_node_client.specs.declared.limits.TheConstants.{MIN_CALLS};
ghost use Rattle.hs_node_client.specs.declared.segment.SegmentState.TheVariants.{Opened, Refused, Led};
ghost use Rattle.hs_node_client.specs.Counting.{no_counts, all_counts, with_point, with_crumb_called, with_refused_late, with_refused_trigger, if_full};
ghost use Rattle.hs_node_client.specs.Answers.{BeginsBy, PointsBy, CrumbsBy, LateBy, TriggersBy, SamplesBy, EndsBy, MayRenew, IsAtItsLast};
ghost use Rattle.hs_node_client.specs.Clients.{PutsThrough, KeepsEnds, NotesIt, NotesEnd, NotesLate, KeepsDraws, tally_at_begin, waiting};
ghost use Rattle.hs_node_client.specs.Known.{AreDeclared, rules_in};
ghost use Rattle.hs_node_client.specs.Notes.{PutsOn};
ghost use Rattle.hs_node_client.specs.Paging.{place_in};
ghost use Rattle.hs_node_client.specs.Pointing.{called_of, DriesBy};
ghost use Rattle.hs_node_client.specs.Lives.{HasHalf, Lives, LivesByBegin, LivesOn, TurnsInto, RenewsInto};

use crate::acts;
use crate::answers::{CallAnswer, PointAnswer};
use crate::counts::{ClientCounts, RunningCounts};
use crate::notebook::Notebook;
use crate::paged::Paged;
use crate::places::has_place;
use crate::segment::{SegmentKey, SegmentNote, SegmentState};
use hs_base::{Crumb, List, NodeId, NodeSet, TraceId, Trigger, TriggerId};
use hs_link::Sender;
use hs_live::{Called as Live, ClientKey};
use std::marker::Model;

/// How many trigger ids there could be: an id has eight bits.
pub(crate) const IDS: usize = 256;

/// From this number on a begin makes no note, since none would be left for the end, nor does a crumb outside of a segment.
const MOST_NOTES: u64 = u64::MAX - 1;

/// What a thread of a service holds. Each call may be made at any time, answers at once, and takes no memory: its answer says
/// whether it was done.
#[derive(Drop)]
pub struct NodeClient {
    live: Paged,
    late: Sender<Crumb, ClientKey>,
    notebook: Notebook,
    tally: RunningCounts,
    declared: [bool; IDS],
    fires: List<TriggerId>,
    nodes: u16,
    calls: u32,
}

impl Model for NodeClient {
    ghost use Rattle.hs_node_client.specs.Clients.{PlainNodeClient};

    ghost Value = { PlainNodeClient };

    ghost use Rattle.hs_node_client.specs.Inside.{node_client_of, IsNodeClient};

    ghost view = { node_client_of };

    ghost invariant = { IsNodeClient };
}

impl NodeClient {
    /// A client with these parts, none of which was used.
    pub(crate) fn make(
        live: Paged,
        late: Sender<Crumb, ClientKey>,
        notes: Sender<SegmentNote, SegmentKey>,
        declared: [bool; IDS],
        fires: List<TriggerId>,
        nodes: u16,
        calls: u32,
    ) -> NodeClient
        requires declared { AreDeclared live.triggers.key.rules declared }
        requires fires { map fired_by (rules_in live) ≡ fires.items }
        requires nodes { (live.crumbs.key.nodes ≡ nodes) × (late.key.nodes ≡ nodes) }
        requires most { nodes ≤ MOST_NODES }
        requires calls { (live.core.calls ≡ calls) × (MIN_CALLS ≤ calls) }
        requires trace { live.core.trace ≡ None }
        requires size { live.core.size ≤ MAX_SIZE }
        ensures { result ≡ record { live = live; late = late; notebook = record { link = notes; number = 0 }; tally = no_counts } }
    {
        NodeClient {
            live,
            late,
            notebook: Notebook {
                link: notes,
                number: 0,
            },
            tally: RunningCounts::none(),
            declared,
            fires,
            nodes,
            calls,
        }
    }

    /// Opens a trace. Where fewer than half of the core's calls are left, the core is renewed first. Where fewer than half of the draws
    /// of its allowance are left, the allowance is made whole again, or stays where it cannot be.
    pub fn begin(&mut self, trace: TraceId) -> CallAnswer
        ensures answer { BeginsBy self.old result }
        ensures does { LivesByBegin trace result self.old.live self.new.live }
        ensures refused { (result ≡ Done → ⊥) → self.new ≡ self.old }
        ensures keeps { KeepsEnds self.old.live self.new.live }
        ensures opens { result ≡ Done → self.new.live.core.trace ≡ Some trace }
        ensures half { result ≡ Done → HasHalf self.new.live.core }
        ensures draws { result ≡ Done → KeepsDraws self.old.live.drawer self.new.live.drawer }
        ensures notes { result ≡ Done → NotesIt trace Opened (place_in self.new.live.core) self.old.notebook (tally_at_begin self.old) self.new.notebook self.new.tally }
        ensures late { self.new.late ≡ self.old.late }
    {
        if self.live.trace().is_some() {
            return CallAnswer::AlreadyOpen;
        }
        if self.notebook.number >= MOST_NOTES || !self.has_calls() {
            return CallAnswer::Spent;
        }
        self.live.keep_draws();
        let place = self.live.place();
        match self.live.begin(trace) {
            Live::Done => {}
            Live::Spent | Live::AlreadyOpen | Live::NoTrace | Live::TooWide => unreachable!(),
        }
        self.tally.open(self.live.nulls(), place.page);
        if !self.notebook.note(place, trace, SegmentState::Opened) {
            self.tally.drop_note();
        }
        CallAnswer::Done
    }

    /// Whether half of the core's calls are left, or it could be renewed.
    fn has_calls(&mut self) -> bool
        requires { self.old.live.core.trace ≡ None }
        ensures true_is { result ≡ true → MayRenew self.old.live.core }
        ensures false_is { result ≡ false → IsAtItsLast self.old.live.core × (self.new ≡ self.old) }
        ensures turns { result ≡ true → TurnsInto self.old self.new }
    {
        if u64::from(self.live.calls_left()) * 2 >= u64::from(self.calls) {
            return true;
        }
        self.renew()
    }

    /// Renews the core, and answers whether this could be done.
    #[cold]
    #[inline(never)]
    fn renew(&mut self) -> bool
        requires trace { self.old.live.core.trace ≡ None }
        ensures true_is { result ≡ true → self.old.live.core.renewed + 1 < 2 ^ 64 }
        ensures false_is { result ≡ false → (self.old.live.core.renewed + 1 ≡ 2 ^ 64) × (self.new ≡ self.old) }
        ensures renews { result ≡ true → RenewsInto self.old self.new }
    {
        let nulls = self.live.nulls();
        match self.live.renew(self.calls) {
            Live::Done => {
                self.tally.renew(nulls);
                true
            }
            Live::Spent => false,
            Live::AlreadyOpen | Live::NoTrace | Live::TooWide => unreachable!(),
        }
    }

    /// Records a payload at a moment, in microseconds. Where it needs more draws than are left, the allowance is made whole first, if it can
    /// be, so that a segment may be of any length.
    pub fn point(&mut self, moment: u64, payload: &[u8]) -> CallAnswer
        ensures answer { PointsBy self.old.live (length payload.now) result self.new.live }
        ensures does { Lives (Point moment payload.now) result self.old.live self.new.live }
        ensures refused { (result ≡ Done → ⊥) → PutsThrough self.old.live self.new.live }
        ensures keeps { KeepsEnds self.old.live self.new.live }
        ensures counts { self.new.tally ≡ with_point result self.old.tally }
        ensures only { self.new ≡ record self.old { live = self.new.live; tally = self.new.tally } }
    {
        self.point_told(moment, payload).called()
    }

    /// Records a payload at a moment in microseconds, as `point` does, and also tells whether a draw of it found the pool empty.
    /// `Done` says that each page that it drew for got a buffer; `Dry` that one got none, so that what is written to that page is
    /// lost; any other answer is that of `point`, with its cause.
    pub fn point_told(&mut self, moment: u64, payload: &[u8]) -> PointAnswer
        ensures answer { PointsBy self.old.live (length payload.now) (called_of result) self.new.live }
        ensures dry { DriesBy result self.old.live.core self.new.live.core }
        ensures does { Lives (Point moment payload.now) (called_of result) self.old.live self.new.live }
        ensures refused { (called_of result ≡ Done → ⊥) → PutsThrough self.old.live self.new.live }
        ensures keeps { KeepsEnds self.old.live self.new.live }
        ensures counts { self.new.tally ≡ with_point (called_of result) self.old.tally }
        ensures only { self.new ≡ record self.old { live = self.new.live; tally = self.new.tally } }
    {
        if self.live.has_room(payload.len()) {
            self.live.point_here(moment, payload);
            self.tally.here.points += 1;
            return PointAnswer::Done;
        }
        self.point_apart(moment, payload)
    }

    /// Records a payload that the open page has no room for. It stands apart, since most payloads fit the open page.
    #[cold]
    #[inline(never)]
    fn point_apart(&mut self, moment: u64, payload: &[u8]) -> PointAnswer
        requires { NeedsPage self.old.live.core (length payload.now) }
        ensures answer { PointsBy self.old.live (length payload.now) (called_of result) self.new.live }
        ensures dry { DriesBy result self.old.live.core self.new.live.core }
        ensures does { Lives (Point moment payload.now) (called_of result) self.old.live self.new.live }
        ensures refused { (called_of result ≡ Done → ⊥) → PutsThrough self.old.live self.new.live }
        ensures keeps { KeepsEnds self.old.live self.new.live }
        ensures counts { self.new.tally ≡ with_point (called_of result) self.old.tally }
        ensures only { self.new ≡ record self.old { live = self.new.live; tally = self.new.tally } }
    {
        let nulls = self.live.nulls();
        let called = acts::point(&mut self.live, moment, payload);
        self.tally.point(called);
        match called {
            CallAnswer::Done => {
                if nulls < self.live.nulls() {
                    PointAnswer::Dry
                } else {
                    PointAnswer::Done
                }
            }
            CallAnswer::NoTrace => PointAnswer::NoTrace,
            CallAnswer::TooWide => PointAnswer::TooWide,
            CallAnswer::Full => PointAnswer::Full,
            CallAnswer::Spent => PointAnswer::Spent,
            CallAnswer::AlreadyOpen | CallAnswer::Unknown => unreachable!(),
        }
    }

    /// Leaves a crumb: the open trace goes on to this node.
    pub fn crumb(&mut self, node: NodeId) -> CallAnswer
        ensures answer { CrumbsBy self.old.live node result self.new.live }
        ensures does { Lives (LeaveCrumb node) result self.old.live self.new.live }
        ensures refused { (result ≡ Done → ⊥) → PutsThrough self.old.live self.new.live }
        ensures keeps { KeepsEnds self.old.live self.new.live }
        ensures core { self.new.live.core ≡ self.old.live.core }
        ensures counts { self.new.tally ≡ with_crumb_called node result self.old.tally }
        ensures only { self.new ≡ record self.old { live = self.new.live; tally = self.new.tally } }
    {
        if node.0 >= self.nodes {
            return CallAnswer::Unknown;
        }
        let called = acts::crumb(&mut self.live, node);
        match called {
            CallAnswer::Done => self.tally.leave_crumb(node),
            CallAnswer::Full => self.tally.refuse_crumb(),
            CallAnswer::NoTrace
            | CallAnswer::AlreadyOpen
            | CallAnswer::TooWide
            | CallAnswer::Unknown
            | CallAnswer::Spent => {}
        }
        called
    }

    /// Leaves a crumb of a trace that need not be open: it went on to this node. The crumb goes by a link of its own, and is none of
    /// the operations of the client's cores. It is noted where it led, or that it was refused for want of a place.
    pub fn crumb_of(&mut self, trace: TraceId, node: NodeId) -> CallAnswer
        ensures answer { LateBy self.old node result self.new }
        ensures sends { result ≡ Done → Sends (record { trace = trace; node = node }) self.old.late self.new.late }
        ensures refused { (result ≡ Done → ⊥) → PutsOn self.old.late self.new.late }
        ensures led { result ≡ Done → NotesLate trace (Led (one_node node)) self.old self.old.tally self.new }
        ensures notes { result ≡ Full → NotesLate trace Refused self.old (with_refused_late self.old.tally) self.new }
        ensures same { result ≡ Unknown → self.new ≡ self.old }
        ensures only { self.new ≡ record self.old { late = self.new.late; notebook = self.new.notebook; tally = self.new.tally } }
    {
        if self.nodes <= node.0 {
            return CallAnswer::Unknown;
        }
        if !has_place(&mut self.late) {
            self.tally.refuse_late();
            self.note_late(trace, SegmentState::Refused);
            return CallAnswer::Full;
        }
        self.late.send_within(Crumb { trace, node });
        self.note_late(trace, SegmentState::Led(NodeSet::only(node)));
        CallAnswer::Done
    }

    /// Notes what became of a crumb of a trace that need not be open, if a number is left beside that for the end of a segment.
    fn note_late(&mut self, trace: TraceId, state: SegmentState)
        ensures notes { NotesLate trace state self.old self.old.tally self.new }
        ensures only { self.new ≡ record self.old { notebook = self.new.notebook; tally = self.new.tally } }
    {
        if self.notebook.number >= MOST_NOTES {
            return;
        }
        let place = self.live.place();
        if !self.notebook.note(place, trace, state) {
            self.tally.drop_note();
        }
    }

    /// Fires a trigger. It needs no open trace.
    pub fn trigger(&mut self, trigger: &Trigger) -> CallAnswer
        ensures answer { TriggersBy self.old.live trigger.now result self.new.live }
        ensures does { Lives (Fire trigger.now) result self.old.live self.new.live }
        ensures refused { (result ≡ Done → ⊥) → PutsThrough self.old.live self.new.live }
        ensures keeps { KeepsEnds self.old.live self.new.live }
        ensures core { self.new.live.core ≡ self.old.live.core }
        ensures counts { self.new.tally ≡ if_full result with_refused_trigger self.old.tally }
        ensures only { self.new ≡ record self.old { live = self.new.live; tally = self.new.tally } }
    {
        if !self.declared[trigger.trigger.0 as usize] {
            return CallAnswer::Unknown;
        }
        let called = acts::trigger(&mut self.live, trigger);
        if let CallAnswer::Full = called {
            self.tally.refuse_trigger();
        }
        called
    }

    /// Gives an autotrigger, by its number, a value of the open trace. Where it fires, a trigger of its id goes to the agent.
    pub fn sample(&mut self, moment: u64, auto: u32, value: u64) -> CallAnswer
        ensures answer { SamplesBy self.old.live auto result self.new.live }
        ensures does { Lives (Sample moment auto value) result self.old.live self.new.live }
        ensures refused { (result ≡ Done → ⊥) → PutsThrough self.old.live self.new.live }
        ensures keeps { KeepsEnds self.old.live self.new.live }
        ensures core { self.new.live.core ≡ self.old.live.core }
        ensures counts { self.new.tally ≡ if_full result with_refused_trigger self.old.tally }
        ensures only { self.new ≡ record self.old { live = self.new.live; tally = self.new.tally } }
    {
        let Some(trigger) = self.fires.get(auto as usize).copied() else {
            return CallAnswer::Unknown;
        };
        let called = acts::sample(&mut self.live, moment, auto, value, trigger);
        if let CallAnswer::Full = called {
            self.tally.refuse_trigger();
        }
        called
    }

    /// Closes the open trace.
    pub fn end(&mut self) -> CallAnswer
        ensures answer { EndsBy self.old.live result self.new.live }
        ensures does { Lives End result self.old.live self.new.live }
        ensures refused { (result ≡ Done → ⊥) → PutsThrough self.old.live self.new.live }
        ensures keeps { KeepsEnds self.old.live self.new.live }
        ensures closes { result ≡ Done → self.new.live.core.trace ≡ None }
        ensures notes { result ≡ Done → NotesEnd self.old self.new }
        ensures same { (result ≡ Done → ⊥) → (self.new.notebook ≡ self.old.notebook) × (self.new.tally ≡ self.old.tally) }
        ensures late { self.new.late ≡ self.old.late }
    {
        let Some(trace) = self.live.trace() else {
            return CallAnswer::NoTrace;
        };
        let called = acts::end(&mut self.live);
        if let CallAnswer::Done = called {
            let place = self.live.place();
            let counts = self.tally.close(self.live.nulls(), place.page);
            if !self
                .notebook
                .note(place, trace, SegmentState::Closed(counts))
            {
                self.tally.drop_note();
            }
        }
        called
    }

    /// Puts what waits in the outboxes into the rings, as far as there is room, and answers how much still waits.
    pub fn flush(&mut self) -> u64
        ensures left { result ≡ waiting self.new }
        ensures does { LivesOn self.old.live self.new.live }
        ensures live { PutsThrough self.old.live self.new.live }
        ensures late { PutsOn self.old.late self.new.late }
        ensures notes { PutsOn self.old.notebook.link self.new.notebook.link }
        ensures only { self.new ≡ record self.old { live = self.new.live; late = self.new.late; notebook = record self.old.notebook { link = self.new.notebook.link } } }
    {
        let live = u64::from(self.live.flush());
        let late = u64::from(self.late.flush());
        let notes = u64::from(self.notebook.flush());
        live + late + notes
    }

    /// What the client did since it was made, and what it refused, by cause.
    pub fn counts(&self) -> ClientCounts
        ensures { result ≡ all_counts (count_by is_null self.now.live.core.draws) self.now.tally }
    {
        self.tally.all(self.live.nulls())
    }

    /// The open trace, or `None` where none is open.
    pub fn trace(&self) -> Option<TraceId>
        ensures { result ≡ self.now.live.core.trace }
    {
        self.live.trace()
    }
}
