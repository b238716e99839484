//! The bytes of the pages that an agent reported: in lists of their own, or for clauses alone.

ghost use Rattle.std.specs.Prelude.{◌≡◌, true, false, [], ◌∷◌, ◌++◌, IsSome, IfOk, OnOk, OnErr, if◌then◌else◌};
ghost use Rattle.hs_agent.specs.Noting.{bytes_in, texts};

use hs_base::{Bytes, List, Memory, Noting, Trail};
use hs_words::Chunk;
use std::alloc::Global;
use std::marker::Model;

/// The bytes of the reported pages, in order. A bare one takes no memory, now or later.
#[derive(Drop)]
pub struct PageNotes {
    trail: Trail<Bytes>,
    kept: Option<List<Bytes>>,
}

impl Model for PageNotes {
    ghost use Rattle.hs_agent.specs.Noting.{NotedPages, paged, ArePages};

    ghost Value = { NotedPages };

    ghost view = { λ s. paged s.trail.items s.kept };

    ghost invariant = { λ s. ArePages s.trail.items s.kept };
}

/// How the notes go on by a page.
struct Writes;

impl Noting<Bytes, Chunk> for Writes {
    ghost use Rattle.hs_agent.specs.Noting.{pages_after};

    ghost then = { pages_after };
}

impl PageNotes {
    /// Empty notes of pages that are kept, for the book of the agent. It takes no memory yet.
    pub fn new(alloc: Global) -> PageNotes
        ensures { result ≡ record { items = []; keeps = true } }
    {
        PageNotes {
            trail: Trail::new(),
            kept: Some(List::new(alloc)),
        }
    }

    /// Empty notes of pages that are not kept: clauses see them, and no call takes memory for them.
    pub fn bare() -> PageNotes
        ensures { result ≡ record { items = []; keeps = false } }
    {
        PageNotes {
            trail: Trail::new(),
            kept: None,
        }
    }

    /// Notes the bytes of a chunk's page. It takes memory for them only where they are kept.
    pub fn append(&mut self, alloc: Global, chunk: &Chunk) -> Result<(), Memory>
        requires { IsSome chunk.now.page }
        ensures ok { OnOk result (self.new.items ≡ self.old.items ++ bytes_in chunk.now ∷ []) }
        ensures keeps { self.new.keeps ≡ self.old.keeps }
    {
        if let Some(kept) = &mut self.kept {
            keep_page(alloc, kept, chunk)?;
        }
        self.trail = Trail::after::<Chunk, Writes>(&self.trail, chunk);
        Ok(())
    }

    /// The bytes of the pages, where they were kept, or none.
    pub fn into_list(self, alloc: Global) -> List<Bytes>
        ensures { texts result.items ≡ (if self.keeps then self.items else []) }
    {
        let PageNotes { trail: _, kept } = self;
        match kept {
            Some(kept) => kept,
            None => List::new(alloc),
        }
    }
}

/// Keeps the bytes of a chunk's page. For want of memory nothing changes.
fn keep_page(alloc: Global, pages: &mut List<Bytes>, chunk: &Chunk) -> Result<(), Memory>
    requires { IsSome chunk.now.page }
    ensures ok { OnOk result (texts pages.new.items ≡ texts pages.old.items ++ bytes_in chunk.now ∷ []) }
    ensures err { OnErr result (pages.new ≡ pages.old) }
{
    let page = page_of(alloc, chunk)?;
    pages.append(page)
}

/// The bytes of a chunk's page.
fn page_of(alloc: Global, chunk: &Chunk) -> Result<Bytes, Memory>
    requires { IsSome chunk.now.page }
    ensures { IfOk result (λ page. page.items ≡ bytes_in chunk.now) }
{
    let mut page = Bytes::new(alloc);
    page.append_slice(chunk.bytes())?;
    Ok(page)
}
