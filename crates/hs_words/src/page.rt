//! Pages as a reader gets them.

use hs_base::{Bytes, ClientId, List, TraceId};
use thiserror::Error;

/// Where a page belongs: to this trace, written by this client. `page` counts the client's pages and `first` its
/// records, up to the one that the page begins in; both from 0.
#[derive(Clone, Copy, Debug, PartialEq, Eq)]
pub struct Header {
    pub trace: TraceId,
    pub client: ClientId,
    pub page: u32,
    pub first: u32,
}

/// What stands on a page of one record, all of it or a part. The moment is in microseconds.
#[derive(Drop)]
pub struct Point {
    pub moment: u64,
    pub payload: Bytes,
}

/// A page that was read. Its points stand in the order in which they were written.
#[derive(Drop)]
pub struct Page {
    pub header: Header,
    pub points: List<Point>,
}

/// What is wrong with bytes that are no page, tried in this order (`docs/FORMATS.md`, "The page").
#[derive(Clone, Copy, Debug, PartialEq, Eq, Error)]
pub enum PageFault {
    /// They end within the header.
    #[error("the bytes end within the header")]
    Short,
    /// The header says another length than theirs.
    #[error("the header says another length")]
    Used,
    /// Behind the header are more or fewer pieces than it says, or it says that there is none.
    #[error("the header says another count of pieces")]
    Count,
    /// Nothing: they are a page, and there was no memory to hold it.
    #[error("out of memory")]
    Memory,
}

/// Why bytes show no page to a reader who goes by their counts.
#[derive(Clone, Copy, Debug, PartialEq, Eq, Error)]
pub enum PrefixFault {
    /// They end within the header.
    #[error("the bytes end within the header")]
    Short,
    /// No byte is used: nothing was written yet, or the page was given back.
    #[error("no byte is used")]
    Empty,
    /// They do not begin with a page of as many used bytes and pieces as they say.
    #[error("the counts and the pieces do not go together")]
    Torn,
    /// Nothing: they show a page, and there was no memory to hold it.
    #[error("out of memory")]
    Memory,
}
