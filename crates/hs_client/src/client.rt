//! The core of a client.

ghost use Rattle.std.specs.Prelude.{◌≡◌, ◌+◌, ◌-◌, ◌≤◌, ◌<◌, ◌^◌, length, IfOk, OnErr, true, false, None, IsSome, IsNone, count_by};
ghost use Rattle.hs_base.specs.declared.limits.TheConstants.{FRAME_COST};
ghost use Rattle.hs_client.specs.Calls.{May};
ghost use Rattle.hs_client.specs.Core.{new_core, bare_core, bare_after, renewed_core, after_step, Wrote, Fits, NeedsPage, began, ended_step, pointed_step, supplied, closed, handed, started, piece, BeginsBy, PointsBy, EndsBy, MaySupply, HasClearChunk, is_null};
ghost use Rattle.hs_words.specs.Buffers.{buffer_in, buffer_of};

use crate::answers::{Begun, Ended, Pointed};
use hs_base::limits::{FRAME_COST, MAX_SIZE, MIN_SIZE, PIECE_COST};
use hs_base::{ClientId, Memory, Notes, TraceId};
use hs_records::{ClientBook, Draw, PageNote};
use hs_words::{Drawn, Header, Held, Token};
use std::alloc::Global;
use std::marker::Model;

/// A client's core. It has at most one page at a time. One that keeps its book, the notes of its draws and pages, takes all its
/// memory when it is made; a bare one takes none.
#[derive(Drop)]
pub struct ClientCore<L: Token> {
    client: ClientId,
    size: u32,
    calls: u32,
    counted: u32,
    trace: Option<TraceId>,
    record: u32,
    used: u32,
    limit: u32,
    page: Option<PageNote>,
    held: Option<Held<L>>,
    draws: Notes<Draw>,
    pages: Notes<PageNote>,
    ended: u32,
    nulls: u32,
    renewed: u64,
}

impl<L: Token> Model for ClientCore<L> {
    ghost use Rattle.hs_client.specs.Core.{Core};

    ghost Value = { Core L };

    ghost use Rattle.hs_client.specs.Layout.{core_of, IsCore};

    ghost view = { core_of };

    ghost invariant = { IsCore };
}

impl<L: Token> ClientCore<L> {
    /// A core for a client whose buffers have this size, and for so many calls that are counted. It takes memory
    /// for these calls alone.
    pub fn make(
        alloc: Global,
        client: ClientId,
        size: u32,
        calls: u32,
    ) -> Result<ClientCore<L>, Memory>
        requires least { MIN_SIZE ≤ size }
        requires most { size ≤ MAX_SIZE }
        ensures core { IfOk result (λ core. core ≡ new_core client size calls) }
        ensures some { OnErr result (0 < calls) }
    {
        Ok(ClientCore {
            client,
            size,
            calls,
            counted: 0,
            trace: None,
            record: 0,
            used: 0,
            limit: 0,
            page: None,
            held: None,
            draws: Notes::with_room(alloc, calls as usize)?,
            pages: Notes::with_room(alloc, calls as usize)?,
            ended: 0,
            nulls: 0,
            renewed: 0,
        })
    }

    /// A core as `make` makes it, for so many calls that are counted, but bare: it keeps no list of its draws and pages, which
    /// only clauses see. It takes no memory, now or later.
    pub fn bare(client: ClientId, size: u32, calls: u32) -> ClientCore<L>
        requires least { MIN_SIZE ≤ size }
        requires most { size ≤ MAX_SIZE }
        ensures core { result ≡ bare_core client size calls }
    {
        ClientCore::numbered(client, size, calls, 0)
    }

    /// A bare core, after so many renewals.
    fn numbered(client: ClientId, size: u32, calls: u32, renewed: u64) -> ClientCore<L>
        requires least { MIN_SIZE ≤ size }
        requires most { size ≤ MAX_SIZE }
        ensures { result ≡ bare_after client size calls renewed }
    {
        ClientCore {
            client,
            size,
            calls,
            counted: 0,
            trace: None,
            record: 0,
            used: 0,
            limit: 0,
            page: None,
            held: None,
            draws: Notes::bare(),
            pages: Notes::bare(),
            ended: 0,
            nulls: 0,
            renewed,
        }
    }

    /// Begins anew as a bare core for so many calls, between two traces, with the number of the next renewal. What it noted goes.
    pub fn renew(&mut self, calls: u32)
        requires closed { IsNone self.old.trace }
        requires few { self.old.renewed + 1 < 2 ^ 64 }
        ensures { self.new ≡ renewed_core calls self.old }
    {
        *self = ClientCore::numbered(self.client, self.size, calls, self.renewed + 1);
    }

    /// Opens a trace.
    pub fn begin(&mut self, trace: TraceId) -> Begun
        ensures answer { BeginsBy self.old result }
        ensures after { self.new ≡ after_step self.old (began trace result) }
        ensures may { May self.old (began trace result) }
    {
        if self.counted == self.calls {
            return Begun::Spent;
        }
        if self.trace.is_some() {
            return Begun::AlreadyOpen;
        }
        self.trace = Some(trace);
        self.used = 0;
        self.counted += 1;
        Begun::Began
    }

    /// Records a piece, the last of its record unless `more` is true. Where it needs a page, the page before is
    /// handed out: then draw, and call `supply` with the same piece.
    pub fn piece(&mut self, moment: u64, payload: &[u8], more: bool) -> Pointed<L>
        ensures answer { PointsBy self.old (length payload.now) result }
        ensures after { self.new ≡ after_step self.old (pointed_step moment payload.now more result) }
        ensures may { May self.old (pointed_step moment payload.now more result) }
    {
        if self.counted == self.calls {
            return Pointed::Spent;
        }
        if self.trace.is_none() {
            return Pointed::NoTrace;
        }
        if payload.len() + FRAME_COST > self.size as usize {
            return Pointed::TooWide;
        }
        if !self.has_room(payload.len()) {
            return Pointed::NeedPage(self.close_page());
        }
        self.write(moment, payload, more);
        Pointed::Written
    }

    /// Whether a page is open that has room for a piece with so many bytes. It is one comparison, since the limit is 0 where
    /// no page is open.
    pub fn has_room(&self, len: usize) -> bool
        requires { len < 2 ^ 63 }
        ensures room { result ≡ true → Fits self.now len }
        ensures none { result ≡ false → NeedsPage self.now len }
        ensures open { result ≡ true → IsSome self.now.trace }
        ensures narrow { result ≡ true → FRAME_COST + len ≤ self.now.size }
        ensures most { result ≡ true → len ≤ MAX_SIZE }
    {
        self.used as usize + PIECE_COST + len <= self.limit as usize
    }

    /// Records a piece on the page that is open, which has room for it: the last of its record unless `more` is true.
    pub fn write(&mut self, moment: u64, payload: &[u8], more: bool)
        requires { May self.old (Wrote moment payload.now more) }
        ensures { self.new ≡ after_step self.old (Wrote moment payload.now more) }
    {
        let Some(page) = &mut self.page else {
            unreachable!()
        };
        page.count += 1;
        self.used += (PIECE_COST + payload.len()) as u32;
        self.counted += 1;
        if !more {
            self.record += 1;
        }
        if let Some(held) = &mut self.held {
            held.chunk.write(moment, payload);
        }
    }

    /// Records a piece that is the last of its record, or all of it.
    pub fn point(&mut self, moment: u64, payload: &[u8]) -> Pointed<L>
        ensures answer { PointsBy self.old (length payload.now) result }
        ensures after { self.new ≡ after_step self.old (pointed_step moment payload.now false result) }
        ensures may { May self.old (pointed_step moment payload.now false result) }
    {
        self.piece(moment, payload, false)
    }

    /// Starts the next page with what was drawn for it, and writes the piece as its first.
    pub fn supply(&mut self, drawn: Drawn<L>, moment: u64, payload: &[u8], more: bool)
        requires may { MaySupply self.old (length payload.now) }
        requires clear { HasClearChunk self.old drawn }
        ensures after { self.new ≡ after_step self.old (supplied drawn moment payload.now more) }
        ensures may { May self.old (supplied drawn moment payload.now more) }
    {
        let Some(trace) = self.trace else {
            unreachable!()
        };
        let header = Header {
            trace,
            client: self.client,
            page: self.ended,
            first: self.record,
        };
        match drawn {
            Drawn::Got { held, stamp } => {
                let buffer = held.chunk.number();
                self.draws.push(Draw::Got { buffer, stamp });
                self.held = Some(start_page(held, header, moment, payload));
            }
            Drawn::Empty { stamp } => {
                self.draws.push(Draw::Empty { stamp });
                self.nulls += 1;
            }
        }
        self.page = Some(PageNote {
            trace,
            first: self.record,
            count: 1,
        });
        self.used = (FRAME_COST + payload.len()) as u32;
        self.limit = self.size;
        self.counted += 1;
        if !more {
            self.record += 1;
        }
    }

    /// Ends the current page, and hands out its chunk, if it has one.
    fn close_page(&mut self) -> Option<Held<L>>
        ensures handed { buffer_in result ≡ handed self.old }
        ensures after { self.new ≡ closed self.old }
    {
        let Some(page) = self.page else {
            return None;
        };
        self.pages.push(page);
        self.ended += 1;
        self.page = None;
        self.limit = 0;
        self.held.take()
    }

    /// Ends the open trace, and hands out its last chunk, if its last page has one.
    pub fn end(&mut self) -> Ended<L>
        ensures answer { EndsBy self.old result }
        ensures after { self.new ≡ after_step self.old (ended_step result) }
        ensures may { May self.old (ended_step result) }
    {
        if self.counted == self.calls {
            return Ended::Spent;
        }
        if self.trace.is_none() {
            return Ended::NoTrace;
        }
        let held = self.close_page();
        self.trace = None;
        self.counted += 1;
        Ended::Ended(held)
    }

    /// The open trace, or `None` where none is open.
    pub fn trace(&self) -> Option<TraceId>
        ensures { result ≡ self.now.trace }
    {
        self.trace
    }

    /// The size of its pages, in bytes.
    pub fn size(&self) -> u32
        ensures value { result ≡ self.now.size }
        ensures least { MIN_SIZE ≤ self.now.size }
        ensures most { self.now.size ≤ MAX_SIZE }
    {
        self.size
    }

    /// How often the core was renewed since it was made.
    pub fn renewed(&self) -> u64
        ensures { result ≡ self.now.renewed }
    {
        self.renewed
    }

    /// The calls that may still be counted.
    pub fn left(&self) -> u32
        ensures { self.now.counted + result ≡ self.now.calls }
    {
        self.calls - self.counted
    }

    /// The number of draws so far that found the pool empty.
    pub fn nulls(&self) -> u32
        ensures { result ≡ count_by is_null self.now.draws }
    {
        self.nulls
    }

    /// What the client noted, of a core that keeps its book.
    pub fn finish(self) -> ClientBook
        requires closed { IsNone self.trace }
        requires keeps { self.keeps ≡ true }
        ensures client { result.client ≡ self.client }
        ensures draws { result.draws.items ≡ self.draws }
        ensures pages { result.pages.items ≡ self.pages }
    {
        let ClientCore {
            client,
            draws,
            pages,
            ..
        } = self;
        let (Some(draws), Some(pages)) = (draws.into_list(), pages.into_list()) else {
            unreachable!()
        };
        ClientBook {
            client,
            draws,
            pages,
        }
    }
}

/// Starts a page in a clear chunk, with its first piece.
fn start_page<L: Token>(held: Held<L>, header: Header, moment: u64, payload: &[u8]) -> Held<L>
    requires clear { held.chunk.page ≡ None }
    requires narrow { FRAME_COST + length payload.now ≤ held.chunk.size }
    ensures { buffer_of result ≡ started header (piece moment payload.now) (buffer_of held) }
{
    let Held { mut chunk, lease } = held;
    chunk.start(header);
    chunk.add(moment, payload);
    Held { chunk, lease }
}
