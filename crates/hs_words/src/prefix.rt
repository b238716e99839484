//! A buffer, read as it is between any two steps of writing.

ghost use Rattle.std.specs.Prelude.{◌≡◌, ◌↔◌, Err};
ghost use Rattle.hs_words.specs.Pages.{Sheet};
ghost use Rattle.hs_words.specs.Shown.{ShowsPage, HasPrefixFault, AnswersShown, GivesShown};

use crate::page::{Page, PrefixFault};
use crate::reading::{has_pieces, read_front, read_pieces};
use hs_base::limits::{HEADER_COST, UNCOUNTED_BYTES};
use std::alloc::Global;

/// The page that the bytes show, or why they show none.
fn find_shown(alloc: Global, bytes: &[u8]) -> Result<Page, PrefixFault>
    ensures { AnswersShown bytes.now result }
{
    let Some((front, rest)) = read_front(bytes) else {
        return Err(PrefixFault::Short);
    };
    let used = usize::from(front.used);
    if used == 0 {
        return Err(PrefixFault::Empty);
    }
    if used < HEADER_COST {
        return Err(PrefixFault::Torn);
    }
    if used + UNCOUNTED_BYTES > bytes.len() {
        return Err(PrefixFault::Torn);
    }
    let pieces = &rest[..used - HEADER_COST];
    if !has_pieces(front.count, pieces) {
        return Err(PrefixFault::Torn);
    }
    let Ok(points) = read_pieces(alloc, front.count, pieces) else {
        return Err(PrefixFault::Memory);
    };
    Ok(Page {
        header: front.header,
        points,
    })
}

/// The page that the bytes show by their counts (`docs/FORMATS.md`, "The page"), whatever stands behind its used bytes. It may
/// have no piece yet. After `Memory` nothing is kept.
pub fn read_prefix(alloc: Global, bytes: &[u8]) -> Result<Page, PrefixFault>
    // What is read is shown by the bytes, and where they have a fault it is the one that is answered.
    // Memory may be wanted only for bytes that show a page.
    ensures answers { AnswersShown bytes.now result }

    // A page that is shown is read, unless memory is refused.
    ensures page { (sheet : Sheet) → ShowsPage bytes.now sheet → GivesShown sheet result }

    // Each fault is answered exactly where the bytes have it.
    ensures short { (result ≡ Err PrefixFault.Short) ↔ HasPrefixFault bytes.now PrefixFault.Short }
    ensures empty { (result ≡ Err PrefixFault.Empty) ↔ HasPrefixFault bytes.now PrefixFault.Empty }
    ensures torn { (result ≡ Err PrefixFault.Torn) ↔ HasPrefixFault bytes.now PrefixFault.Torn }
{
    find_shown(alloc, bytes)
}
