//! The hub.

ghost use Rattle.std.specs.Prelude.{◌≡◌, ◌≢◌, ◌↔◌, ◌<◌, ◌++◌, ℕ, length, true, fold, Err, Some, IfOk, OnOk, OnErr, option_map, option_copied, drop, slice_get};
ghost use Rattle.hs_words.specs.Pages.{Sheet};
ghost use Rattle.hs_words.specs.Reading.{Spells};
ghost use Rattle.hs_standings.specs.Standing.{latest_of};
ghost use Rattle.hs_verdict.specs.Verdict.{node_word, word_of};
ghost use Rattle.hs_traces.specs.Keys.{key_of, is_own};
ghost use Rattle.hs_traces.specs.Parts.{page_with};
ghost use Rattle.hs_traces.specs.Traces.{page_behind};
ghost use Rattle.hs_cursor.specs.CursorLayout.{plain as plain_row};
ghost use Rattle.hs_cursor.specs.Walking.{row_of, place_of, step_inside, step_on};
ghost use Rattle.hs_groups.specs.Groups.{answer_of_hear};
ghost use Rattle.hs_wire.specs.Messages.{PlainMessage, IsMessage, message_bytes, plain};
ghost use Rattle.hs_settings.specs.Settings.{service_of, IsServiceSettings};
ghost use Rattle.hs_hub.specs.ByService.{limits_by};
ghost use Rattle.hs_hub.specs.Hub.{PlainHub, IsDelivered, are_out, no_hub, birth_of, noted, all_noted, answer_to_hear, after_hear, answer_to_told, after_told, answer_to_page, after_page, answer_to_standing, after_standing, IsReported, ask_of, IsWritten, IsShort, after_next, after_pass, is_pressed, aged, may_go, answer_to_take, after_take, after_saved, pages_out, next_row, is_sure_of, is_whole_out, page_of_out, why_out, part_out, claim_out, life_out, repeated, after_named, counts_of};

use crate::answers::{Delivered, HubCounts, HubLimits, MakeFault, OutReason};
use crate::births::{are_sure, no_births, note_birth};
use crate::limits::hub_limits;
use crate::ready::first_ready;
use hs_base::limits::MOST_NODES;
use hs_base::{Ask, Laterals, Memory, NodeId, Told, TraceId};
use hs_cursor::{Cursor, Row};
use hs_groups::{FollowedGroup, GroupLimits, Groups, LifeHeard, ToldOutcome};
use hs_receipts::{MessageId, Receipts};
use hs_saved::Saved;
use hs_settings::ServiceSettings;
use hs_standings::{Life, StandingOutcome, Standings};
use hs_traces::{
    Added, CoreId, LEAST_BYTES, PageKey, TraceLimits, Traces, is_own, key_of, read_header,
};
use hs_verdict::{LifeWord, NodeWord, claim_at, is_whole, life_at, life_word, node_word};
use hs_wire::{Body, Head, Message, Standing, WriteFault, read, write};
use std::alloc::Global;
use std::marker::Model;

/// What a hub knows: groups, standings, pages, and the messages that wait for their acknowledgement.
#[derive(Drop)]
pub struct Hub {
    alloc: Global,
    limits: HubLimits,
    epoch: u64,
    asks: u64,
    passes: u64,
    is_fresh: bool,
    births: Vec<u64>,
    groups: Groups,
    standings: Standings,
    traces: Traces,
    receipts: Receipts,
    saved: Saved,
    why: OutReason,
    out_since: u64,
}

impl Model for Hub {
    ghost use Rattle.hs_hub.specs.Hub.{PlainHub};
    ghost use Rattle.hs_hub.specs.HubLayout.{hub_in};

    ghost Value = { PlainHub };

    ghost view = { hub_in };
}

/// Whether a limit is out of its range.
fn are_out(limits: &HubLimits) -> bool
    ensures { result ≡ are_out limits.now }
{
    limits.nodes > MOST_NODES
        || limits.groups == 0
        || limits.hold == 0
        || limits.bytes < LEAST_BYTES
}

/// Writes the message in which a node is asked, and answers how many bytes it has. A fault changes nothing.
fn write_ask(
    out: &mut [u8],
    epoch: u64,
    number: u64,
    node: NodeId,
    ask: Ask,
) -> Result<usize, WriteFault>
    ensures bytes { IfOk result (λ n. out.new ≡ message_bytes (ask_of epoch number node ask) ++ drop n out.old) }
    ensures len { IfOk result (λ n. n ≡ length (message_bytes (ask_of epoch number node ask))) }
    ensures short { (wanted : ℕ) → result ≡ Err (WriteFault.Short wanted)
        → (wanted ≡ length (message_bytes (ask_of epoch number node ask))) × (length out.old < wanted) }
    ensures same { OnErr result (out.new ≡ out.old) }
{
    let message = Message {
        head: Head {
            epoch,
            number,
            node,
        },
        body: Body::Ask(ask),
    };
    write(out, &message)
}

/// Has a message wait for a trace, if it does not yet.
fn note(receipts: &mut Receipts, trace: TraceId, message: MessageId, now: u64)
    ensures { receipts.new ≡ noted now message receipts.old trace }
{
    if !receipts.is_noted(trace, message) {
        receipts.wait(trace, message, now);
    }
}

/// Has a message wait for each of these traces.
fn note_each(receipts: &mut Receipts, traces: &Laterals, message: MessageId, now: u64)
    ensures { receipts.new ≡ fold (noted now message) receipts.old traces.now }
{
    for place in 0..traces.len() {
        let Some(trace) = traces.get(place) else {
            return;
        };
        note(receipts, trace, message, now);
    }
}

/// Has a message wait for the lead and each lateral of what it tells. One that waits already is a repeat: it waits for what is left of
/// these, since the others were saved.
fn note_all(receipts: &mut Receipts, told: &Told, message: MessageId, now: u64)
    ensures { receipts.new ≡ all_noted now message receipts.old told.now }
{
    if receipts.is_known(message) {
        return;
    }
    note(receipts, told.group.lead, message, now);
    note_each(receipts, &told.laterals, message, now);
}

impl Hub {
    /// A hub that has heard nothing. It speaks in the life of this epoch. It is fresh where no hub was before it, nor any life of a node
    /// of which it will not hear: then the first life that it hears of a node is sure from the start.
    pub fn make(
        alloc: Global,
        epoch: u64,
        is_fresh: bool,
        limits: HubLimits,
    ) -> Result<Hub, MakeFault>
        ensures made { IfOk result (λ hub. hub ≡ no_hub epoch is_fresh limits) }
        ensures limits { (result ≡ Err MakeFault.Limits) ↔ (are_out limits ≡ true) }
    {
        if are_out(&limits) {
            return Err(MakeFault::Limits);
        }
        match Hub::empty(alloc, epoch, is_fresh, limits) {
            Ok(hub) => Ok(hub),
            Err(_) => Err(MakeFault::Memory),
        }
    }

    /// A hub that has heard nothing, by the settings of a service.
    pub fn by_settings(
        alloc: Global,
        epoch: u64,
        is_fresh: bool,
        settings: &ServiceSettings,
    ) -> Result<Hub, MakeFault>
        ensures made { IfOk result (λ hub. hub ≡ no_hub epoch is_fresh (limits_by (service_of settings.now))) }
        ensures limits { (result ≡ Err MakeFault.Limits) ↔ (are_out (limits_by (service_of settings.now)) ≡ true) }
        // Settings that were read are within all limits: then memory alone may be wanting.
        ensures valid { IsServiceSettings (service_of settings.now) → result ≢ Err MakeFault.Limits }
    {
        Hub::make(alloc, epoch, is_fresh, hub_limits(settings))
    }

    /// A hub that has heard nothing.
    fn empty(alloc: Global, epoch: u64, is_fresh: bool, limits: HubLimits) -> Result<Hub, Memory>
        ensures { IfOk result (λ hub. hub ≡ no_hub epoch is_fresh limits) }
    {
        let of_groups = GroupLimits {
            nodes: limits.nodes,
            groups: limits.groups,
            tries: limits.tries,
        };
        let of_traces = TraceLimits {
            hold: limits.hold,
            outs: 1,
            bytes: limits.bytes,
        };
        let Ok(groups) = Groups::make(alloc, of_groups) else {
            return Err(Memory);
        };
        let Ok(traces) = Traces::make(alloc, of_traces) else {
            return Err(Memory);
        };
        Ok(Hub {
            alloc,
            limits,
            epoch,
            asks: 0,
            passes: 0,
            is_fresh,
            births: no_births(alloc, limits.nodes, is_fresh)?,
            groups,
            standings: Standings::make(alloc, limits.standings),
            traces,
            receipts: Receipts::make(alloc, limits.messages)?,
            saved: Saved::make(alloc, limits.groups)?,
            why: OutReason::Complete,
            out_since: 0,
        })
    }

    /// Takes a message, by its bytes. After `Refused` and `Full`, and after `Memory`, all is as it was.
    pub fn deliver(&mut self, bytes: &[u8]) -> Result<Delivered, Memory>
        ensures message { IfOk result (λ delivered. (m : PlainMessage) → IsMessage m → bytes.now ≡ message_bytes m
            → IsDelivered self.old m delivered self.new) }
        ensures none { IfOk result (λ delivered. ((m : PlainMessage) → IsMessage m → message_bytes m ≢ bytes.now)
            → (delivered ≡ Delivered.Refused) × (self.new ≡ self.old)) }
        ensures memory { OnErr result (self.new ≡ self.old) }
    {
        match read(bytes) {
            Some(message) => self.take_message(&message),
            None => Ok(Delivered::Refused),
        }
    }

    /// Takes a message.
    fn take_message(&mut self, message: &Message<'_>) -> Result<Delivered, Memory>
        ensures delivered { IfOk result (λ delivered. IsDelivered self.old (plain message.now) delivered self.new) }
        ensures memory { OnErr result (self.new ≡ self.old) }
    {
        let id = MessageId {
            node: message.head.node.0,
            epoch: message.head.epoch,
            number: message.head.number,
        };
        match message.body {
            Body::Hello(_) => Ok(self.hear(message.head.node, message.head.epoch)),
            Body::Told(told) => Ok(self.told(id, &told)),
            Body::Ask(_) => Ok(Delivered::Refused),
            Body::Reported(reported) => {
                self.reported(id, reported.client, reported.core, reported.page)
            }
            Body::Standing(standing) => self.standing(id, standing),
        }
    }

    /// A node says that it speaks in the life of this epoch. If that is later than all that were heard of the node, its asks
    /// without an answer are to be sent again. Takes no memory.
    pub fn hear(&mut self, node: NodeId, epoch: u64) -> Delivered
        ensures answer { result ≡ answer_to_hear self.old node epoch }
        ensures after { self.new ≡ after_hear self.old node epoch }
    {
        match self.hear_life(node, epoch) {
            LifeHeard::Refused => Delivered::Refused,
            LifeHeard::Known | LifeHeard::Newer => Delivered::Done,
        }
    }

    /// From which pass on a life of a node is sure that is heard now.
    fn birth(&self, node: NodeId) -> u64
        ensures { result ≡ birth_of self.now node }
    {
        if self.is_fresh && self.groups.latest(node) == 0 {
            0
        } else {
            self.passes.saturating_add(self.limits.age)
        }
    }

    /// Hears of a life.
    fn hear_life(&mut self, node: NodeId, epoch: u64) -> LifeHeard
        ensures answer { result ≡ answer_of_hear self.old.groups node epoch }
        ensures after { self.new ≡ after_hear self.old node epoch }
    {
        let birth = self.birth(node);
        let heard = self.groups.hear(node, epoch);
        note_birth(&mut self.births, heard, node, birth);
        heard
    }

    /// A node tells of a group, in this message. After each answer but `Held` all is as it was. Takes no memory.
    pub fn told(&mut self, message: MessageId, told: &Told) -> Delivered
        ensures answer { result ≡ answer_to_told self.old message told.now }
        ensures after { self.new ≡ after_told self.old message told.now }
    {
        if self.receipts.room() <= told.laterals.len() as usize {
            return Delivered::Full;
        }
        let node = NodeId(message.node);
        let birth = self.birth(node);
        match self.groups.told(node, message.epoch, told) {
            ToldOutcome::Refused => Delivered::Refused,
            ToldOutcome::Full => Delivered::Full,
            ToldOutcome::Taken(heard) => {
                note_birth(&mut self.births, heard, node, birth);
                note_all(&mut self.receipts, told, message, self.passes);
                Delivered::Held
            }
        }
    }

    /// A node reports a page, in this message, that its client's core wrote. After each answer but `Held`, and after `Memory`, all is
    /// as it was.
    pub fn reported(
        &mut self,
        message: MessageId,
        client: u16,
        core: u64,
        page: &[u8],
    ) -> Result<Delivered, Memory>
        ensures reported { IfOk result (λ delivered. IsReported self.old message client core page.now delivered self.new) }
        ensures memory { OnErr result (self.new ≡ self.old) }
    {
        let Some(header) = read_header(self.alloc, page)? else {
            return Ok(Delivered::Refused);
        };
        let sender = CoreId {
            node: message.node,
            epoch: message.epoch,
            client,
            core,
        };
        if !is_own(&sender, &header) {
            return Ok(Delivered::Refused);
        }
        self.page(message, header.trace, key_of(&sender, &header), page)
    }

    /// Takes a page of a trace, by its key.
    fn page(
        &mut self,
        message: MessageId,
        trace: TraceId,
        key: PageKey,
        bytes: &[u8],
    ) -> Result<Delivered, Memory>
        ensures answer { IfOk result (λ delivered. delivered ≡ answer_to_page self.old message trace key bytes.now) }
        ensures after { OnOk result (self.new ≡ after_page self.old message trace key bytes.now) }
        ensures memory { OnErr result (self.new ≡ self.old) }
    {
        if message.node >= self.limits.nodes {
            return Ok(Delivered::Refused);
        }
        if self.receipts.room() == 0 {
            return Ok(Delivered::Full);
        }
        match self.traces.add_page(trace, key, bytes)? {
            Added::Added => {
                self.receipts.wait(trace, message, self.passes);
            }
            Added::Repeated => self.repeat(message, trace, key),
            Added::Full => return Ok(Delivered::Full),
            Added::NoPage | Added::Foreign => return Ok(Delivered::Refused),
        }
        self.hear_life(NodeId(message.node), message.epoch);
        Ok(Delivered::Held)
    }

    /// Has the message of a page that is held already wait with that page.
    fn repeat(&mut self, message: MessageId, trace: TraceId, key: PageKey)
        ensures { self.new ≡ record self.old { receipts = repeated self.old message trace key } }
    {
        if self.receipts.is_noted(trace, message) {
            return;
        }
        if self.traces.is_out_page(trace, key) {
            self.receipts.join(message);
        } else {
            self.receipts.wait(trace, message, self.passes);
        }
    }

    /// A life says how whole its part of a trace is, in this message. After `Refused` and `Full`, and after `Memory`, all is as it
    /// was.
    pub fn standing(&mut self, message: MessageId, standing: Standing) -> Result<Delivered, Memory>
        ensures answer { IfOk result (λ delivered. delivered ≡ answer_to_standing self.old message standing) }
        ensures after { OnOk result (self.new ≡ after_standing self.old message standing) }
        ensures memory { OnErr result (self.new ≡ self.old) }
    {
        if message.node >= self.limits.nodes {
            return Ok(Delivered::Refused);
        }
        if self.receipts.room() == 0 {
            return Ok(Delivered::Full);
        }
        let life = Life {
            node: message.node,
            epoch: message.epoch,
        };
        match self.standings.note(life, message.number, standing)? {
            StandingOutcome::Full => return Ok(Delivered::Full),
            StandingOutcome::Noted | StandingOutcome::Older => {}
        }
        note(&mut self.receipts, standing.trace, message, self.passes);
        self.hear_life(NodeId(message.node), message.epoch);
        Ok(Delivered::Held)
    }

    /// Writes the ask that is to be sent next as a message, and answers how many bytes it has, or `None` where there is none. It counts
    /// as sent then. Where it does not fit nothing changes. Takes no memory.
    pub fn next(&mut self, out: &mut [u8]) -> Result<Option<usize>, WriteFault>
        ensures written { IfOk result (λ len. IsWritten self.old len out.old out.new) }
        ensures after { OnOk result (self.new ≡ after_next self.old) }
        ensures short { (wanted : ℕ) → result ≡ Err (WriteFault.Short wanted) → IsShort self.old wanted out.old }
        ensures fault { OnErr result ((self.new ≡ self.old) × (out.new ≡ out.old)) }
    {
        let Some((node, ask)) = self.groups.next_ask() else {
            return Ok(None);
        };
        let group = ask.group.id;
        let len = write_ask(out, self.epoch, self.asks, node, ask)?;
        self.groups.sent(node, group, self.passes);
        self.asks = self.asks.wrapping_add(1);
        Ok(Some(len))
    }

    /// Whether a node was asked for the trace that is out, and answered. `None` where none is out.
    pub fn node_word(&self, node: NodeId) -> Option<NodeWord>
        ensures { result ≡ option_map (λ trace. node_word self.now.groups trace node) self.now.receipts.out }
    {
        match self.receipts.out() {
            Some(trace) => Some(node_word(&self.groups, trace, node)),
            None => None,
        }
    }

    /// What a life said last of the trace that is out. `None` where none is out.
    pub fn life_word(&self, life: Life) -> Option<LifeWord>
        ensures { result ≡ option_map (λ trace. word_of (latest_of self.now.standings trace life)) self.now.receipts.out }
    {
        match self.receipts.out() {
            Some(trace) => Some(life_word(&self.standings, trace, life)),
            None => None,
        }
    }

    /// A pass: the groups whose nodes do not answer are asked again where that is due. Takes no memory.
    pub fn pass(&mut self)
        ensures { self.new ≡ after_pass self.old }
    {
        self.passes = self.passes.saturating_add(1);
        self.groups.pass(self.passes, self.limits.wait);
    }

    /// Whether a limit is reached, so that a message may be `Full` until a trace was given out and saved.
    fn is_pressed(&self) -> bool
        ensures { result ≡ is_pressed self.now }
    {
        let counts = self.traces.counts();
        counts.waiting >= self.limits.hold as usize
            || self.limits.bytes.saturating_sub(counts.bytes) < LEAST_BYTES
            || self.standings.len() >= self.limits.standings
            || self.receipts.room() <= 32
    }

    /// The trace of the message that waits longest, if that came so many passes ago as the age says, or a limit is reached.
    fn aged(&self) -> Option<(TraceId, OutReason)>
        ensures { result ≡ aged self.now }
    {
        let waits = self.receipts.longest()?;
        if self.passes.saturating_sub(waits.since) >= self.limits.age {
            Some((waits.trace, OutReason::Aged))
        } else if self.is_pressed() {
            Some((waits.trace, OutReason::CutShort))
        } else {
            None
        }
    }

    /// The trace that may be given out, and why: one of which nothing more is to come, else the one that waits longest, by age or
    /// at a limit.
    fn may_go(&self) -> Option<(TraceId, OutReason)>
        ensures { result ≡ may_go self.now }
    {
        match first_ready(&self.groups, &self.standings, &self.traces) {
            Some(trace) => Some((trace, OutReason::Complete)),
            None => self.aged(),
        }
    }

    /// Gives a trace out, and answers which. A complete trace goes first, of the oldest group that has one; else the one whose
    /// message waits longest, once it is as old as `age` passes or at once if a limit is reached. `None` comes where a trace is
    /// out already, or none may go. The trace is held until `saved`. Takes no memory (`docs/RULES.md`, "The hub").
    pub fn take(&mut self) -> Option<TraceId>
        ensures answer { result ≡ answer_to_take self.old }
        ensures after { self.new ≡ after_take self.old }
    {
        if self.receipts.out().is_some() {
            return None;
        }
        let (trace, why) = self.may_go()?;
        self.out_since = self.receipts.since(trace).unwrap_or(0);
        self.traces.offer(trace);
        self.receipts.offer(trace);
        self.why = why;
        Some(trace)
    }

    /// The trace that is out, or `None` where none is.
    pub fn out(&self) -> Option<TraceId>
        ensures { result ≡ self.now.receipts.out }
    {
        self.receipts.out()
    }

    /// Why the trace that is out was given out, or `None` where none is out.
    pub fn why(&self) -> Option<OutReason>
        ensures { result ≡ why_out self.now }
    {
        match self.receipts.out() {
            Some(_) => Some(self.why),
            None => None,
        }
    }

    /// Which part of the trace is out: 0 where none was saved before, as far as that is known of the traces that were saved last.
    pub fn part(&self) -> Option<u32>
        ensures { result ≡ part_out self.now }
    {
        match self.receipts.out() {
            Some(trace) => Some(self.saved.parts(trace)),
            None => None,
        }
    }

    /// Of the groups that claim the trace that is out, the oldest one first, the one at this place.
    pub fn claim(&self, place: usize) -> Option<&FollowedGroup>
        ensures { option_copied result ≡ claim_out self.now place }
    {
        let trace = self.receipts.out()?;
        claim_at(&self.groups, trace, place)
    }

    /// Of the lives that spoke of the trace that is out, the one at this place in the order in which they spoke first.
    pub fn life(&self, place: usize) -> Option<Life>
        ensures { result ≡ life_out self.now place }
    {
        let trace = self.receipts.out()?;
        life_at(&self.standings, trace, place)
    }

    /// The first page behind this key, or the first of all, of the trace that is out.
    pub fn next_page(&self, after: Option<PageKey>) -> Option<(PageKey, &[u8])>
        ensures { option_map (λ next. (next.0, next.1.now)) result ≡ page_of_out self.now after }
    {
        let trace = self.receipts.out()?;
        self.traces.next_page(trace, after)
    }

    /// The page with this key of the trace that is out.
    fn page_out(&self, key: PageKey) -> Option<&[u8]>
        ensures { option_map (λ bytes. bytes.now) result ≡ page_with (pages_out self.now) key }
    {
        let trace = self.receipts.out()?;
        self.traces.page(trace, key)
    }

    /// The next row of the page that a cursor stands in.
    fn row_inside(&self, cursor: &mut Cursor) -> Option<Row<'_>>
        ensures row { option_map plain_row result ≡ row_of (step_inside (pages_out self.now) cursor.old) }
        ensures after { cursor.new ≡ place_of (step_inside (pages_out self.now) cursor.old) cursor.old }
    {
        let key = cursor.page()?;
        let bytes = self.page_out(key)?;
        cursor.inside(bytes)
    }

    /// The first row of the page behind the one that a cursor stands in.
    fn row_behind(&self, cursor: &mut Cursor) -> Option<Row<'_>>
        ensures row { option_map plain_row result ≡ row_of (step_on (pages_out self.now) cursor.old) }
        ensures after { cursor.new ≡ place_of (step_on (pages_out self.now) cursor.old) cursor.old }
    {
        let (key, bytes) = self.next_page(cursor.page())?;
        cursor.enter(key, bytes)
    }

    /// The next row of the trace that is out, behind a cursor, which goes on behind it. `None` where there is none, and the cursor stays.
    /// A cursor serves the trace for which it was started. Takes no memory.
    pub fn next_row(&self, cursor: &mut Cursor) -> Option<Row<'_>>
        ensures row { option_map plain_row result ≡ row_of (next_row self.now cursor.old) }
        ensures after { cursor.new ≡ place_of (next_row self.now cursor.old) cursor.old }
    {
        match self.row_inside(cursor) {
            Some(row) => Some(row),
            None => self.row_behind(cursor),
        }
    }

    /// Whether the trace that is out is in its first part, and each node that it reached was sure when its first message came.
    fn is_sure_of(&self, trace: TraceId) -> bool
        ensures { result ≡ is_sure_of self.now trace }
    {
        self.saved.parts(trace) == 0 && are_sure(&self.births, self.out_since, trace, &self.groups)
    }

    /// Whether the trace that is out is whole. `false` where none is.
    pub fn is_whole(&self) -> Result<bool, Memory>
        ensures { IfOk result (λ whole. whole ≡ is_whole_out self.now) }
    {
        let Some(trace) = self.receipts.out() else {
            return Ok(false);
        };
        let pages = self.traces.page_keys(trace)?;
        Ok(
            is_whole(&self.groups, &self.standings, trace, pages.as_slice())
                && self.is_sure_of(trace),
        )
    }

    /// Notes that the trace that is out was saved, and answers which that is. Takes no memory.
    pub fn saved(&mut self) -> Option<TraceId>
        ensures answer { result ≡ self.old.receipts.out }
        ensures after { self.new ≡ after_saved self.old }
    {
        let trace = self.receipts.saved()?;
        self.traces.saved(trace);
        if !self.receipts.has_waiting(trace) {
            self.standings.forget(trace);
        }
        self.saved.note(trace);
        Some(trace)
    }

    /// A message that may be acknowledged, and was not named yet. Takes no memory.
    pub fn next_acknowledged(&mut self) -> Option<MessageId>
        ensures next { result ≡ slice_get self.old.receipts.done 0 }
        ensures after { self.new ≡ after_named self.old }
    {
        self.receipts.next_acknowledged()
    }

    /// How much the hub holds, and how many passes it made.
    pub fn counts(&self) -> HubCounts
        ensures { result ≡ counts_of self.now }
    {
        let traces = self.traces.counts();
        HubCounts {
            passes: self.passes,
            groups: self.groups.len(),
            traces: traces.waiting,
            bytes: traces.bytes,
            standings: self.standings.len(),
            messages: self.receipts.counts().waiting,
        }
    }
}
