//! The entries of a client's book, page by page.

ghost use Rattle.std.specs.Prelude.{◌≡◌, ◌+◌, ◌<◌, ◌≤◌, ◌^◌, ◌++◌, length, OnOk, OnErr, All};
ghost use Rattle.std.specs.HashMap.{get};
ghost use Rattle.hs_ledger.specs.Books.{AreNumbered, record_count};
ghost use Rattle.hs_ledger.specs.Fates.{FatedPage, fated_by, book_entries};
ghost use Rattle.hs_ledger.specs.Making.{page_eq, drawn_fate, joined_fate, last_joined, with_page};

use crate::ledger::Entry;
use crate::standings::{PageId, page_fate};
use hs_base::{ClientId, Fate, Memory, RecordId};
use hs_records::{ClientBook, PageNote};
use std::collections::HashMap;

/// Whether pieces of this fate are lost.
fn is_discarded(fate: Fate) -> bool
    ensures { result ≡ Rattle.hs_ledger.specs.Fates.is_discarded fate }
{
    match fate {
        Fate::Null { .. } | Fate::Evicted { .. } | Fate::Abandoned { .. } => true,
        Fate::Live | Fate::Reported { .. } => false,
    }
}

/// The fate of a record with one more piece of the fate `more`.
fn join_fates(fate: Fate, more: Fate) -> Fate
    ensures { result ≡ joined_fate fate more }
{
    if is_discarded(more) && !is_discarded(fate) {
        more
    } else {
        fate
    }
}

/// The last record has one more piece, of this fate.
fn join_last(entries: &mut Vec<Entry>, more: Fate)
    ensures { entries.new.items ≡ last_joined more entries.old.items }
{
    if let Some(last) = entries.last_mut() {
        last.fate = join_fates(last.fate, more);
    }
}

/// Adds the pieces of a page, where the client's next record has the number `next`.
fn add_page(
    entries: &mut Vec<Entry>,
    client: ClientId,
    next: u32,
    note: &PageNote,
    fate: Fate,
) -> Result<(), Memory>
    requires fits { note.now.first + note.now.count < 2 ^ 32 }
    requires rises { next ≤ note.now.first + note.now.count }
    ensures entries { OnOk result (entries.new.items ≡ with_page client next (record { note = note.now; fate = fate }) entries.old.items) }
    ensures some { OnErr result (next < note.now.first + note.now.count) }
{
    if note.first < next {
        join_last(entries, fate);
    }
    for number in next..note.first + note.count {
        entries.push(Entry {
            id: RecordId { client, number },
            trace: note.trace,
            fate,
        })?;
    }
    Ok(())
}

/// Adds the entries of a client's records.
pub(crate) fn add_book(
    entries: &mut Vec<Entry>,
    fates: &HashMap<PageId, Fate>,
    book: &ClientBook,
) -> Result<(), Memory>
    requires drawn { length book.now.draws.items ≡ length book.now.pages.items }
    requires counted { All (λ note. 1 ≤ note.count) book.now.pages.items }
    requires numbered { AreNumbered book.now.pages.items }
    requires few { record_count book.now.pages.items < 2 ^ 32 }
    ensures entries { OnOk result (entries.new.items ≡ entries.old.items
        ++ book_entries book.now.client (fated_by (λ page draw. drawn_fate (get page_eq fates.now (record { client = book.now.client; page = page })) draw) 0 book.now.draws.items book.now.pages.items)) }
    ensures some { OnErr result (0 < length book.now.pages.items) }
{
    let draws = book.draws.as_slice();
    let mut next = 0;
    for (page, note) in book.pages.as_slice().iter().enumerate() {
        let fate = page_fate(fates, book.client, page, draws[page]);
        add_page(entries, book.client, next, note, fate)?;
        next = note.first + note.count;
    }
    Ok(())
}
