//! What should stand on a page.

ghost use Rattle.std.specs.Prelude.{IsSome};
ghost use Rattle.tests_with.specs.Pairs.{KeepsPort, HasClient};

use hs_base::{Memory, TraceId};
use hs_live::AgentPort;
use hs_ring::Lease;
use hs_words::{Header, Held, Page, PageFault, read_page};
use std::alloc::Global;
use tests_with::{CLIENT, give_back, next_chunk};

/// What stands on a page: its number, its trace, the number of its first record, and of each piece the moment and the
/// payload. Its chunk's lease has this mark.
pub struct Sheet {
    pub mark: u64,
    pub page: u32,
    pub trace: u128,
    pub first: u32,
    pub points: &'static [(u64, &'static [u8])],
}

/// Whether this stands on the page.
fn is_page(page: &Page, sheet: &Sheet) -> bool {
    let header = Header {
        trace: TraceId(sheet.trace),
        client: CLIENT,
        page: sheet.page,
        first: sheet.first,
    };
    let points = page.points.as_slice();
    let mut right = page.header == header && points.len() == sheet.points.len();
    for (point, (moment, payload)) in points.iter().zip(sheet.points) {
        right &= point.moment == *moment && point.payload.as_slice() == *payload;
    }
    right
}

/// Whether this stands on the page of a chunk, and its lease has the mark.
pub fn is_sheet(alloc: Global, held: &Held<Lease>, sheet: &Sheet) -> Result<bool, Memory>
    requires { IsSome held.now.chunk.page }
{
    match read_page(alloc, held.chunk.bytes()) {
        Ok(page) => Ok(is_page(&page, sheet) && held.lease.mark() == sheet.mark),
        Err(PageFault::Memory) => Err(Memory),
        Err(_) => Ok(false),
    }
}

/// Takes the next chunk, and gives it back where this stands on its page. Answers as `give_back` does, and `None` too where no chunk
/// came or something else stands there.
pub fn take_sheet(
    alloc: Global,
    port: &mut AgentPort,
    sheet: &Sheet,
) -> Result<Option<(u32, u64)>, Memory>
    requires { HasClient port.old }
    ensures { KeepsPort port.old port.new }
{
    let Some(held) = next_chunk(port) else {
        return Ok(None);
    };
    if !is_sheet(alloc, &held, sheet)? {
        return Ok(None);
    }
    Ok(give_back(port, held, 8))
}
