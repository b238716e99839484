//! The header of a page, from its bytes.

ghost use Rattle.std.specs.Prelude.{◌≡◌, IfOk, IfSome, IfNone};
ghost use Rattle.hs_words.specs.Pages.{Sheet};
ghost use Rattle.hs_words.specs.Reading.{Spells};

use hs_base::Memory;
use hs_words::{Header, PageFault, read_page};
use std::alloc::Global;

/// The header of the page that the bytes are, or `None` where they are no page.
pub fn read_header(alloc: Global, bytes: &[u8]) -> Result<Option<Header>, Memory>
    ensures some { IfOk result (λ found. IfSome found (λ header. (sheet : Sheet) → Spells sheet bytes.now
        → header ≡ sheet.header)) }
    ensures none { IfOk result (λ found. IfNone found ((sheet : Sheet) → Spells sheet bytes.now → ⊥)) }
    ensures page { IfOk result (λ found. IfSome found (λ header. (sheet : Sheet) × Spells sheet bytes.now)) }
{
    match read_page(alloc, bytes) {
        Ok(page) => Ok(Some(page.header)),
        Err(PageFault::Memory) => Err(Memory),
        Err(PageFault::Short | PageFault::Used | PageFault::Count) => Ok(None),
    }
}
