//! A cursor over the rows of a trace's pages.

ghost use Rattle.std.specs.Prelude.{◌≡◌, ◌+◌, option_map};
ghost use Rattle.hs_cursor.specs.Rows.{is_same_core, page_due, record_due, plain_row, first_row};
ghost use Rattle.hs_cursor.specs.Walking.{start, end_at, inside_of, entered, row_of, place_of};
ghost use Rattle.hs_cursor.specs.CursorLayout.{plain};

use crate::reading::{first_of, piece_at};
use hs_base::limits::{HEADER_BYTES, PIECE_COST};
use hs_traces::PageKey;
use std::marker::Model;

/// A piece of a record, which is the whole record or a part of one that takes several pages.
#[derive(Clone, Copy)]
pub struct Row<'a> {
    /// The page that it stands on.
    pub page: PageKey,
    /// The number of its record among those of the core.
    pub number: u64,
    /// The moment of the record.
    pub moment: u64,
    pub payload: &'a [u8],
    /// Whether it goes on with the record of the row before.
    pub continues: bool,
    /// How many pages of the core lie between the row before of this core, or the core's beginning, and this one, and are not here. They
    /// are of this trace or of others.
    pub missing_pages: u64,
    /// How many numbers of records lie there: at most so many records of the trace are missing.
    pub missing_records: u64,
}

/// Which row is the next one.
#[derive(Drop)]
pub struct Cursor {
    page: Option<PageKey>,
    at: usize,
    number: u64,
}

impl Model for Cursor {
    ghost use Rattle.hs_cursor.specs.Walking.{PlainCursor};
    ghost use Rattle.hs_cursor.specs.CursorLayout.{place_in, IsSmall};

    ghost Value = { PlainCursor };

    ghost view = { place_in };

    ghost invariant = { IsSmall };
}

/// Whether one core of a client wrote both pages.
fn is_same_core(one: &PageKey, other: &PageKey) -> bool
    ensures { result ≡ is_same_core one.now other.now }
{
    one.node == other.node
        && one.epoch == other.epoch
        && one.client == other.client
        && one.core == other.core
}

/// The number of the page behind.
fn page_behind(key: PageKey) -> u64
    ensures { result ≡ key.page + 1 }
{
    u64::from(key.page) + 1
}

/// A row with nothing missing in front.
fn plain_row(key: PageKey, number: u64, moment: u64, payload: &[u8]) -> Row<'_>
    ensures { plain result ≡ plain_row key number (record { moment = moment; payload = payload.now }) }
{
    Row {
        page: key,
        number,
        moment,
        payload,
        continues: false,
        missing_pages: 0,
        missing_records: 0,
    }
}

impl Cursor {
    /// A cursor before the first row of a trace.
    pub fn start() -> Cursor
        ensures { result ≡ start }
    {
        Cursor {
            page: None,
            at: 0,
            number: 0,
        }
    }

    /// The page in which the cursor stands, or `None` before the first row.
    pub fn page(&self) -> Option<PageKey>
        ensures { result ≡ self.now.page }
    {
        self.page
    }

    /// The next row of the page that it stands in, by the page's bytes. Where there is none the cursor stays.
    pub fn inside<'a>(&mut self, bytes: &'a [u8]) -> Option<Row<'a>>
        ensures row { option_map plain result ≡ row_of (inside_of self.old bytes.now) }
        ensures after { self.new ≡ place_of (inside_of self.old bytes.now) self.old }
    {
        let key = self.page?;
        let (moment, payload) = piece_at(bytes, self.at)?;
        let number = self.number;
        self.at += PIECE_COST + payload.len();
        self.number = number + 1;
        Some(plain_row(key, number, moment, payload))
    }

    /// Of a page's core, the number behind that of the last page, and behind that of the last record.
    fn due(&self, key: &PageKey) -> (u64, u64)
        ensures page { result.0 ≡ page_due (end_at self.now) key.now }
        ensures record { result.1 ≡ record_due (end_at self.now) key.now }
    {
        match self.page {
            Some(last) => {
                if is_same_core(&last, key) {
                    (page_behind(last), self.number)
                } else {
                    (0, 0)
                }
            }
            None => (0, 0),
        }
    }

    /// The first row of a page behind.
    fn first_row<'a>(&self, key: PageKey, first: u32, moment: u64, payload: &'a [u8]) -> Row<'a>
        ensures { plain result ≡ first_row (end_at self.now) key first (record { moment = moment; payload = payload.now }) }
    {
        let (page_due, record_due) = self.due(&key);
        let number = u64::from(first);
        Row {
            continues: number + 1 == record_due,
            missing_pages: u64::from(key.page).saturating_sub(page_due),
            missing_records: number.saturating_sub(record_due),
            ..plain_row(key, number, moment, payload)
        }
    }

    /// The first row of a page behind the one that it stands in, by the page's key and bytes. Where there is none the cursor stays.
    pub fn enter<'a>(&mut self, key: PageKey, bytes: &'a [u8]) -> Option<Row<'a>>
        ensures row { option_map plain result ≡ row_of (entered self.old key bytes.now) }
        ensures after { self.new ≡ place_of (entered self.old key bytes.now) self.old }
    {
        let (moment, payload) = piece_at(bytes, HEADER_BYTES)?;
        let first = first_of(bytes);
        let row = self.first_row(key, first, moment, payload);
        *self = Cursor {
            page: Some(key),
            at: HEADER_BYTES + PIECE_COST + payload.len(),
            number: u64::from(first) + 1,
        };
        Some(row)
    }
}
