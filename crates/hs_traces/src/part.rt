//! The pages of one trace that are given out together.

ghost use Rattle.std.specs.Prelude.{◌≡◌, ◌+◌, ◌<◌, ◌^◌, [], length, count_by, find, slice_get, false, IfOk, OnOk, OnErr, option_map};
ghost use Rattle.std.specs.Ordering.{is_lt};
ghost use Rattle.hs_traces.specs.Keys.{is_from, key_cmp};
ghost use Rattle.hs_traces.specs.Parts.{bytes_of, keys_of, has_key, page_with, with_page, next_page};

use crate::key::{PageKey, is_from};
use hs_base::{Bytes, List, Memory};
use std::alloc::Global;
use std::collections::BTreeMap;
use std::marker::Model;
use std::ops::Bound;

/// The bytes of a page.
#[derive(Drop)]
pub struct PageBytes {
    bytes: Bytes,
}

impl Model for PageBytes {
    ghost use Rattle.std.specs.Prelude.{List, ℕ};

    ghost Value = { List ℕ };

    ghost view = { λ a. a.bytes.items };
}

impl PageBytes {
    /// A copy of the bytes.
    pub fn copy(alloc: Global, bytes: &[u8]) -> Result<PageBytes, Memory>
        ensures { IfOk result (λ copy. copy ≡ bytes.now) }
    {
        let bytes = Vec::from_slice(alloc, bytes)?;
        Ok(PageBytes {
            bytes: List::from_vec(bytes),
        })
    }

    /// The bytes of the page, as a slice.
    pub fn as_slice(&self) -> &[u8]
        ensures { result.now ≡ self.now }
    {
        self.bytes.as_slice()
    }
}

/// The pages of one trace, in the order of their keys, with the number of their bytes.
#[derive(Drop)]
pub struct Part {
    pages: BTreeMap<PageKey, PageBytes>,
    bytes: u64,
}

impl Model for Part {
    ghost use Rattle.std.specs.Prelude.{◌≡◌};
    ghost use Rattle.hs_traces.specs.Parts.{Pages, bytes_of};

    ghost Value = { Pages };

    ghost view = { λ a. a.pages.entries };

    ghost invariant = { λ a. a.bytes ≡ bytes_of a.pages.entries };
}

impl Part {
    /// A part with no page. Takes no memory.
    pub fn new(alloc: Global) -> Part
        ensures { result ≡ [] }
    {
        Part {
            pages: BTreeMap::new(alloc),
            bytes: 0,
        }
    }

    /// The bytes of all pages.
    pub fn bytes(&self) -> u64
        ensures { result ≡ bytes_of self.now }
    {
        self.bytes
    }

    /// Whether a page has this key.
    pub fn has(&self, key: PageKey) -> bool
        ensures { result ≡ has_key self.now key }
    {
        self.pages.contains_key(&key)
    }

    /// The keys of all pages, in their order.
    pub fn keys(&self, alloc: Global) -> Result<List<PageKey>, Memory>
        ensures { IfOk result (λ keys. keys.items ≡ keys_of self.now) }
    {
        let mut keys = List::new(alloc);
        for (key, _) in self.pages.iter() {
            keys.append(*key)?;
        }
        Ok(keys)
    }

    /// How many pages a life of a node wrote.
    pub fn count_from(&self, node: u16, epoch: u64) -> usize
        ensures { result ≡ count_by (is_from node epoch) (keys_of self.now) }
    {
        self.pages
            .keys()
            .filter(|key| is_from(node, epoch, key))
            .count()
    }

    /// Adds a page. After `Memory` the part is as it was.
    pub fn add(&mut self, key: PageKey, page: PageBytes) -> Result<(), Memory>
        requires new { has_key self.old key ≡ false }
        requires fits { bytes_of self.old + length page < 2 ^ 64 }
        ensures ok { OnOk result (self.new ≡ with_page self.old key page) }
        ensures count { OnOk result (bytes_of self.new ≡ bytes_of self.old + length page) }
        ensures err { OnErr result (self.new ≡ self.old) }
    {
        let len = page.as_slice().len() as u64;
        match self.pages.insert(key, page) {
            Ok(_) => {
                self.bytes += len;
                Ok(())
            }
            Err(_) => Err(Memory),
        }
    }

    /// The page with this key.
    pub fn get(&self, key: PageKey) -> Option<&[u8]>
        ensures { option_map (λ bytes. bytes.now) result ≡ page_with self.now key }
    {
        match self.pages.get(&key) {
            Some(page) => Some(page.as_slice()),
            None => None,
        }
    }

    /// The first page behind this key, or the first of all.
    pub fn next(&self, after: Option<PageKey>) -> Option<(PageKey, &[u8])>
        ensures { option_map (λ next. (next.0, next.1.now)) result ≡ next_page after self.now }
    {
        match after {
            Some(key) => self.behind(key),
            None => self.first(),
        }
    }

    /// The first page.
    fn first(&self) -> Option<(PageKey, &[u8])>
        ensures { option_map (λ first. (first.0, first.1.now)) result ≡ slice_get self.now 0 }
    {
        match self.pages.first_key_value() {
            Some((key, page)) => Some((*key, page.as_slice())),
            None => None,
        }
    }

    /// The first page behind this key.
    fn behind(&self, key: PageKey) -> Option<(PageKey, &[u8])>
        ensures { option_map (λ next. (next.0, next.1.now)) result ≡ find (λ page. is_lt (key_cmp key page.0)) self.now }
    {
        let mut pages = self.pages.range((Bound::Excluded(key), Bound::Unbounded));
        match pages.next() {
            Some((key, page)) => Some((*key, page.as_slice())),
            None => None,
        }
    }
}
