//! Chunks: the recycled buffers that pages are written into.

ghost use Rattle.std.specs.Prelude.{◌≡◌, ◌+◌, ◌-◌, ◌<◌, ◌≤◌, [], length, replicate, IfOk, IfSome, IsSome, Some, None};
ghost use Rattle.std.specs.Option.{option_map};
ghost use Rattle.hs_words.specs.Pages.{IsPage, page_bytes, with_piece};
ghost use Rattle.hs_words.specs.Shown.{Shows};
ghost use Rattle.hs_words.specs.Chunks.{clear_chunk, clear_chunks, header_in, used_in, with_page, Adds};

use crate::layout::{Front, clear_counts, extend_page, start_page};
use crate::page::Header;
use hs_base::limits::{MAX_SIZE, MIN_SIZE, MOST_BUFFERS, PIECE_COST, UNCOUNTED_BYTES};
use hs_base::{List, Memory};
use std::alloc::Global;
use std::marker::Model;

/// A buffer of fixed size with a number of its own, into which a page is written.
#[derive(Drop)]
pub struct Chunk {
    number: u32,
    page: Option<Front>,
    bytes: Vec<u8>,
}

impl Model for Chunk {
    ghost use Rattle.hs_words.specs.Chunks.{Contents};

    ghost Value = { Contents };

    ghost use Rattle.hs_words.specs.ChunkLayout.{contents_of, IsChunk};

    ghost view = { contents_of };

    ghost invariant = { IsChunk };
}

/// Whether a piece was added.
#[derive(Clone, Copy, Debug, PartialEq, Eq)]
pub enum Added {
    Added,
    NoRoom,
}

impl Chunk {
    /// The chunk's number.
    pub fn number(&self) -> u32
        ensures { result ≡ self.now.number }
    {
        self.number
    }

    /// How much of the size the page takes, in bytes; 0 where the chunk is clear.
    pub fn used(&self) -> u32
        ensures value { result ≡ used_in self.now }
        ensures bound { result ≤ self.now.size }
    {
        match self.page {
            Some(page) => u32::from(page.used),
            None => 0,
        }
    }

    /// The header, or `None` where the chunk is clear.
    pub fn header(&self) -> Option<Header>
        ensures { result ≡ header_in self.now }
    {
        match self.page {
            Some(page) => Some(page.header),
            None => None,
        }
    }

    /// Starts a page with this header and no piece.
    pub fn start(&mut self, header: Header)
        requires { self.old.page ≡ None }
        ensures { self.new ≡ with_page self.old (Some (record { header = header; pieces = [] })) }
    {
        self.page = Some(start_page(&mut self.bytes, header));
    }

    /// Adds a piece at the end of the page, where there is room for it (`docs/FORMATS.md`, "The page"). Takes no
    /// memory, and copies the payload once.
    pub fn add(&mut self, moment: u64, payload: &[u8]) -> Added
        requires { IsSome self.old.page }
        ensures { Adds self.old (record { moment = moment; payload = payload.now }) result self.new }
    {
        let used = self.used() as usize;
        if self.bytes.len() - UNCOUNTED_BYTES - used < PIECE_COST + payload.len() {
            return Added::NoRoom;
        }
        self.write(moment, payload);
        Added::Added
    }

    /// Adds a piece at the end of the page, which has room for it. Takes no memory, and copies the payload once.
    #[inline(always)]
    pub fn write(&mut self, moment: u64, payload: &[u8])
        requires page { IsSome self.old.page }
        requires room { used_in self.old + (PIECE_COST + length payload.now) ≤ self.old.size }
        ensures { self.new ≡ with_page self.old (option_map (λ sheet. with_piece sheet (record { moment = moment; payload = payload.now })) self.old.page) }
    {
        let Some(page) = &mut self.page else {
            unreachable!()
        };
        extend_page(&mut self.bytes, page, moment, payload);
    }

    /// The page's bytes: its header and the pieces that were added. Where none was added these are the header
    /// alone, with count 0, and no page.
    pub fn bytes(&self) -> &[u8]
        requires { IsSome self.now.page }
        ensures spelled { IfSome self.now.page (λ sheet. result.now ≡ page_bytes sheet) }
        ensures len { length result.now ≡ used_in self.now + UNCOUNTED_BYTES }
        ensures valid { IfSome self.now.page (λ sheet. 0 < length sheet.pieces → IsPage sheet) }
    {
        let Some(page) = self.page else {
            unreachable!()
        };
        &self.bytes[..usize::from(page.used) + UNCOUNTED_BYTES]
    }

    /// All bytes of the chunk, as they lie in memory. They show its page, or nothing where it is clear.
    pub fn memory(&self) -> &[u8]
        ensures { Shows result.now self.now.page }
    {
        &self.bytes
    }

    /// Clears the chunk, so that its memory shows nothing. Its number and its size stay.
    pub fn clear(&mut self)
        ensures { self.new ≡ with_page self.old None }
    {
        self.page = None;
        clear_counts(&mut self.bytes);
    }
}

/// A clear chunk in memory that was just taken, all zeros.
fn new_chunk(number: u32, bytes: Vec<u8>) -> Chunk
    requires least { MIN_SIZE + UNCOUNTED_BYTES ≤ length bytes.items }
    requires most { length bytes.items ≤ MAX_SIZE + UNCOUNTED_BYTES }
    requires zeros { bytes.items ≡ replicate (length bytes.items) 0 }
    ensures { result ≡ clear_chunk (length bytes.items - UNCOUNTED_BYTES) number }
{
    Chunk {
        number,
        page: None,
        bytes,
    }
}

/// The maker of chunks. There is no other.
pub struct Stock;

impl Stock {
    /// So many clear chunks of one size, numbered from 0. The memory of each is taken here, once and for all.
    pub fn make(alloc: Global, count: u32, size: u32) -> Result<List<Chunk>, Memory>
        requires some { 1 ≤ count }
        requires few { count ≤ MOST_BUFFERS }
        requires least { MIN_SIZE ≤ size }
        requires most { size ≤ MAX_SIZE }
        ensures { IfOk result (λ chunks. chunks.items ≡ clear_chunks count size) }
    {
        let mut chunks = List::with_room(alloc, count as usize)?;
        for number in 0..count {
            let Ok(bytes) = vec![in alloc; 0; size as usize + UNCOUNTED_BYTES] else {
                return Err(Memory);
            };
            chunks.push(new_chunk(number, bytes));
        }
        Ok(chunks)
    }
}
