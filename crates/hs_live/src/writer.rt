//! The part of a client that writes pages.

ghost use Rattle.std.specs.Prelude.{◌≡◌, ◌+◌, ◌<◌, ◌≤◌, [], ◌∷◌, ◌++◌, length, false, Some, None, IsSome, MatchOption};
ghost use Rattle.std.specs.Option.{option_to_list};
ghost use Rattle.hs_base.specs.declared.limits.TheConstants.{FRAME_COST, MIN_SIZE};
ghost use Rattle.hs_records.specs.Records.{piece_count, record_pieces};
ghost use Rattle.hs_words.specs.Buffers.{buffer_in};
ghost use Rattle.hs_client.specs.Core.{number_after, after_step, NeedsPage, Wrote};
ghost use Rattle.hs_client.specs.Calls.{May};
ghost use Rattle.hs_link.specs.Contents.{sent, HasPlaces};
ghost use Rattle.hs_live.specs.declared.called.Called.TheVariants.{Done};
ghost use Rattle.hs_live.specs.Keys.{IsChunkOf};
ghost use Rattle.hs_live.specs.Live.{outgoing, GoesOn};
ghost use Rattle.hs_live.specs.Writing.{Spends, WritesPieces, WritesEnd};
ghost use Rattle.hs_live.specs.Calls.{BeginsBy, EndsBy, RenewsBy, begun, renewed, counts};
ghost use Rattle.hs_live.specs.Inside.{writing_in, IsSoundIn};

use crate::called::Called;
use crate::key::ClientKey;
use hs_base::TraceId;
use hs_client::{Begun, ClientCore, Ended, Pointed};
use hs_link::Sender;
use hs_records::{payloads_are_cut_from_the_front, piece_limit, pieces_are_counted};
use hs_ring::{Drawer, Lease};
use hs_words::Held;

/// A client's core with the drawer of its node's pool, and the link that takes the chunks which the core hands out.
#[derive(Drop)]
pub(crate) struct Writer {
    pub(crate) core: ClientCore<Lease>,
    pub(crate) drawer: Drawer,
    pub(crate) chunks: Sender<Held<Lease>, ClientKey>,
}

impl Writer {
    pub(crate) fn new(
        core: ClientCore<Lease>,
        drawer: Drawer,
        chunks: Sender<Held<Lease>, ClientKey>,
    ) -> Writer
        ensures parts { (result.core ≡ core) × (result.drawer ≡ drawer) × (result.chunks ≡ chunks) }
        ensures least { MIN_SIZE ≤ core.size }
    {
        // That a core's size is within its limits is said where it is asked for.
        let _ = core.size();
        Writer {
            core,
            drawer,
            chunks,
        }
    }

    /// Begins a trace.
    pub(crate) fn begin(&mut self, trace: TraceId) -> Called
        ensures answer { BeginsBy self.old.core result }
        ensures after { self.new ≡ record self.old { core = begun trace result self.old.core } }
    {
        match self.core.begin(trace) {
            Begun::Began => Called::Done,
            Begun::Spent => Called::Spent,
            Begun::AlreadyOpen => Called::AlreadyOpen,
        }
    }

    /// Records a payload that the open page has room for, as one piece.
    pub(crate) fn point_here(&mut self, moment: u64, payload: &[u8])
        requires sound { IsSoundIn self.old }
        requires may { May self.old.core (Wrote moment payload.now false) }
        ensures sound { IsSoundIn self.new }
        ensures core { self.new.core ≡ after_step self.old.core (Wrote moment payload.now false) }
        ensures trace { self.new.core.trace ≡ self.old.core.trace }
        ensures number { self.new.core.number ≡ self.old.core.number + 1 }
        ensures page { IsSome self.new.core.current }
        ensures spends { Spends (piece_count self.old.core.size (length payload.now)) (writing_in self.old) (writing_in self.new) }
        ensures written { WritesPieces (record_pieces self.old.core.size self.old.core.number moment payload.now) (writing_in self.old) (writing_in self.new) }
    {
        payloads_are_cut_from_the_front();
        pieces_are_counted();
        self.put(moment, payload);
    }

    /// Records a piece on the open page, which has room for it: the last of its record.
    fn put(&mut self, moment: u64, payload: &[u8])
        requires sound { IsSoundIn self.old }
        requires may { May self.old.core (Wrote moment payload.now false) }
        ensures sound { IsSoundIn self.new }
        ensures core { self.new.core ≡ after_step self.old.core (Wrote moment payload.now false) }
        ensures trace { self.new.core.trace ≡ self.old.core.trace }
        ensures number { self.new.core.number ≡ self.old.core.number + 1 }
        ensures page { IsSome self.new.core.current }
        ensures spends { Spends 1 (writing_in self.old) (writing_in self.new) }
        ensures written { WritesPieces (record { number = self.old.core.number; moment = moment; payload = payload.now } ∷ []) (writing_in self.old) (writing_in self.new) }
    {
        self.core.write(moment, payload, false);
    }

    /// Records a payload, in as few pieces as fit pages.
    pub(crate) fn point(&mut self, moment: u64, payload: &[u8])
        requires sound { IsSoundIn self.old }
        requires open { IsSome self.old.core.trace }
        requires left { self.old.core.counted + piece_count self.old.core.size (length payload.now) ≤ self.old.core.calls }
        requires draws { piece_count self.old.core.size (length payload.now) ≤ self.old.drawer.left }
        requires places { HasPlaces (piece_count self.old.core.size (length payload.now)) (outgoing self.old.chunks) }
        ensures sound { IsSoundIn self.new }
        ensures trace { self.new.core.trace ≡ self.old.core.trace }
        ensures number { self.new.core.number ≡ self.old.core.number + 1 }
        ensures page { IsSome self.new.core.current }
        ensures spends { Spends (piece_count self.old.core.size (length payload.now)) (writing_in self.old) (writing_in self.new) }
        ensures written { WritesPieces (record_pieces self.old.core.size self.old.core.number moment payload.now) (writing_in self.old) (writing_in self.new) }
    {
        payloads_are_cut_from_the_front();
        pieces_are_counted();
        let limit = piece_limit(self.core.size());
        let mut rest = payload;
        while rest.len() > limit {
            let (full, behind) = rest.split_at(limit);
            self.piece(moment, full, true);
            rest = behind;
        }
        self.piece(moment, rest, false);
    }

    /// Records a piece, the last of its record unless `more` is true.
    fn piece(&mut self, moment: u64, payload: &[u8], more: bool)
        requires sound { IsSoundIn self.old }
        requires open { IsSome self.old.core.trace }
        requires left { self.old.core.counted < self.old.core.calls }
        requires draws { 1 ≤ self.old.drawer.left }
        requires place { HasPlaces 1 (outgoing self.old.chunks) }
        requires narrow { FRAME_COST + length payload.now ≤ self.old.core.size }
        ensures sound { IsSoundIn self.new }
        ensures trace { self.new.core.trace ≡ self.old.core.trace }
        ensures number { self.new.core.number ≡ number_after more self.old.core.number }
        ensures page { IsSome self.new.core.current }
        ensures spends { Spends 1 (writing_in self.old) (writing_in self.new) }
        ensures written { WritesPieces (record { number = self.old.core.number; moment = moment; payload = payload.now } ∷ []) (writing_in self.old) (writing_in self.new) }
    {
        if self.core.has_room(payload.len()) {
            self.core.write(moment, payload, more);
        } else {
            self.turn_page(moment, payload, more);
        }
    }

    /// Records a piece that needs a page: the full chunk of the page before is sent, and then the new page draws a buffer, whose
    /// lease gets the number of the core's renewal. It stands apart, since most pieces need no page.
    #[cold]
    #[inline(never)]
    fn turn_page(&mut self, moment: u64, payload: &[u8], more: bool)
        requires sound { IsSoundIn self.old }
        requires open { IsSome self.old.core.trace }
        requires left { self.old.core.counted < self.old.core.calls }
        requires draws { 1 ≤ self.old.drawer.left }
        requires place { HasPlaces 1 (outgoing self.old.chunks) }
        requires narrow { FRAME_COST + length payload.now ≤ self.old.core.size }
        requires needs { NeedsPage self.old.core (length payload.now) }
        ensures sound { IsSoundIn self.new }
        ensures trace { self.new.core.trace ≡ self.old.core.trace }
        ensures number { self.new.core.number ≡ number_after more self.old.core.number }
        ensures page { IsSome self.new.core.current }
        ensures spends { Spends 1 (writing_in self.old) (writing_in self.new) }
        ensures written { WritesPieces (record { number = self.old.core.number; moment = moment; payload = payload.now } ∷ []) (writing_in self.old) (writing_in self.new) }
    {
        match self.core.piece(moment, payload, more) {
            Pointed::NeedPage(full) => {
                send_chunk(&mut self.chunks, full);
                let drawn = self.drawer.draw_marked(self.core.renewed());
                self.core.supply(drawn, moment, payload, more);
            }
            Pointed::Written | Pointed::Spent | Pointed::NoTrace | Pointed::TooWide =>
                unreachable!(),
        }
    }

    /// Goes on with a new bare core, where no trace is open.
    pub(crate) fn renew(&mut self, calls: u32) -> Called
        ensures answer { RenewsBy self.old.core result }
        ensures only { self.new ≡ record self.old { core = renewed calls result self.old.core } }
    {
        if self.core.trace().is_some() {
            return Called::AlreadyOpen;
        }
        if self.core.renewed() == u64::MAX {
            return Called::Spent;
        }
        self.core.renew(calls);
        Called::Done
    }

    /// Ends the open trace, and sends its last chunk.
    pub(crate) fn end(&mut self) -> Called
        requires sound { IsSoundIn self.old }
        requires place { HasPlaces 1 (outgoing self.old.chunks) }
        ensures sound { IsSoundIn self.new }
        ensures answer { EndsBy self.old.core result }
        ensures refused { (result ≡ Done → ⊥) → self.new ≡ self.old }
        ensures trace { result ≡ Done → self.new.core.trace ≡ None }
        ensures page { result ≡ Done → self.new.core.current ≡ None }
        ensures number { self.new.core.number ≡ self.old.core.number }
        ensures spends { Spends (counts 1 result) (writing_in self.old) (writing_in self.new) }
        ensures written { result ≡ Done → WritesEnd (writing_in self.old) (writing_in self.new) }
    {
        match self.core.end() {
            Ended::Ended(last) => {
                send_chunk(&mut self.chunks, last);
                Called::Done
            }
            Ended::Spent => Called::Spent,
            Ended::NoTrace => Called::NoTrace,
        }
    }
}

/// Sends a chunk that was handed out, if one was.
fn send_chunk(chunks: &mut Sender<Held<Lease>, ClientKey>, handed: Option<Held<Lease>>)
    requires place { HasPlaces 1 (outgoing chunks.old) }
    requires fact { MatchOption (buffer_in handed) (Unit {0}) (IsChunkOf chunks.old.key) }
    ensures goes { GoesOn (outgoing chunks.old) (outgoing chunks.new) }
    ensures sent { sent (outgoing chunks.new) ≡ sent (outgoing chunks.old) ++ option_to_list (buffer_in handed) }
{
    if let Some(held) = handed {
        chunks.send_within(held);
    }
}
