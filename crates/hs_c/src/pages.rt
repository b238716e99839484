//! Pages as they lie in buffers.

ghost use Rattle.std.specs.Prelude.{◌≡◌, ◌≢◌, ◌↔◌, ◌+◌, ◌<◌, ◌^◌, map};
ghost use Rattle.hs_base.specs.declared.limits.TheConstants.{UNCOUNTED_BYTES};
ghost use Rattle.hs_words.specs.Pages.{Sheet, piece_of, sheet_of, used_by};
ghost use Rattle.hs_words.specs.Shown.{ShowsPage, HasPrefixFault};
ghost use Rattle.hs_c.specs.Pages.{page_out, piece_out, with_pieces};
ghost use Rattle.hs_c.specs.declared.codes.TheConstants.{DONE as done, MEMORY as memory, NOTHING as nothing, SHORT as short, TORN as torn};

use crate::codes::{DONE, MEMORY, NOTHING, SHORT, TORN};
use crate::handles::HindTrace;
use hs_base::limits::{HEADER_BYTES, PIECE_COST};
use hs_words::{Page, Point, PrefixFault, read_prefix};
use std::alloc::Global;

/// A page at the front of a buffer: its trace, its number among the pages of its client, the number of the record that its first piece is of,
/// the node and the client that wrote it, how many pieces it has, and how many bytes of the buffer are its.
#[repr(C)]
#[derive(Clone, Copy)]
pub struct HindPage {
    pub trace: HindTrace,
    pub page: u32,
    pub record: u32,
    pub node: u16,
    pub client: u16,
    pub pieces: u32,
    pub len: u64,
}

/// A piece of a page: the moment of its record, and how many bytes its payload has.
#[repr(C)]
#[derive(Clone, Copy)]
pub struct HindPiece {
    pub moment: u64,
    pub len: u64,
}

/// How many bytes a page of these points has.
fn page_len(points: &[Point]) -> usize
    requires { used_by (map piece_of points.now) < 2 ^ 16 }
    ensures { result ≡ used_by (map piece_of points.now) + UNCOUNTED_BYTES }
{
    let mut len = HEADER_BYTES;
    for point in points {
        len += PIECE_COST + point.payload.len();
    }
    len
}

/// A page as C sees it, without its pieces.
fn page_out(page: &Page) -> HindPage
    requires { used_by (sheet_of page.now).pieces < 2 ^ 16 }
    ensures { result ≡ page_out (sheet_of page.now) }
{
    HindPage {
        trace: HindTrace {
            bytes: page.header.trace.0.to_be_bytes(),
        },
        page: page.header.page,
        record: page.header.first,
        node: page.header.client.node,
        client: page.header.client.number,
        pieces: page.points.len() as u32,
        len: page_len(page.points.as_slice()) as u64,
    }
}

/// A piece as C sees it, without its payload.
fn piece_out(point: &Point) -> HindPiece
    ensures { result ≡ piece_out (piece_of point.now) }
{
    HindPiece {
        moment: point.moment,
        len: point.payload.len() as u64,
    }
}

/// Writes the first pieces to the front of `pieces`, as far as there is room.
fn write_pieces(points: &[Point], pieces: &mut [HindPiece])
    ensures { pieces.new ≡ with_pieces (map piece_of points.now) pieces.old }
{
    for i in 0..points.len().min(pieces.len()) {
        pieces[i] = piece_out(&points[i]);
    }
}

/// Reads a buffer as it lies there, also as it was left between any two steps of writing (`docs/FORMATS.md`, "The page"). DONE: the bytes show
/// a page, which is written, and its first pieces to the front of `pieces`, as far as there is room. SHORT: they have no room for a header.
/// NOTHING: no byte is used. TORN: they do not show the page that their counts speak of.
#[unsafe(no_mangle)]
pub extern "C" fn hindcore_page_read(
    alloc: Global,
    bytes: &[u8],
    page: &mut HindPage,
    pieces: &mut [HindPiece],
) -> u32
    // What is written is of a page that the bytes show.
    ensures done { result ≡ done → (sheet : Sheet) × ShowsPage bytes.now sheet × (page.new ≡ page_out sheet) × (pieces.new ≡ with_pieces sheet.pieces pieces.old) }

    // A page that is shown is read, unless memory is wanting, and it may be wanting only for such a page.
    ensures shown { (sheet : Sheet) → ShowsPage bytes.now sheet → result ≢ done → result ≡ memory }
    ensures memory { result ≡ memory → HasPrefixFault bytes.now PrefixFault.Memory }

    // Each fault is answered exactly where the bytes have it.
    ensures short { (result ≡ short) ↔ HasPrefixFault bytes.now PrefixFault.Short }
    ensures nothing { (result ≡ nothing) ↔ HasPrefixFault bytes.now PrefixFault.Empty }
    ensures torn { (result ≡ torn) ↔ HasPrefixFault bytes.now PrefixFault.Torn }

    // Nothing is written but with DONE, and there is no other answer.
    ensures same { result ≢ done → (page.new ≡ page.old) × (pieces.new ≡ pieces.old) }
    ensures only { result ≢ done → result ≢ short → result ≢ nothing → result ≢ torn → result ≡ memory }
{
    match read_prefix(alloc, bytes) {
        Ok(found) => {
            *page = page_out(&found);
            write_pieces(found.points.as_slice(), pieces);
            DONE
        }
        Err(PrefixFault::Short) => SHORT,
        Err(PrefixFault::Empty) => NOTHING,
        Err(PrefixFault::Torn) => TORN,
        Err(PrefixFault::Memory) => MEMORY,
    }
}
