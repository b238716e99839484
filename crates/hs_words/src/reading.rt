//! Bytes, read as a page.

ghost use Rattle.std.specs.Prelude.{◌≡◌, ◌<◌, ◌^◌, ◌↔◌, ◌++◌, length, map, IsTrue, IfOk, IfSome, IfNone};
ghost use Rattle.std.specs.List.{AllByRecursion};
ghost use Rattle.std.specs.Int.{w16, w32, w64, w128, to_be_bytes};
ghost use Rattle.hs_words.specs.Pages.{Sheet, FitsHeader, FitsPiece, header_bytes, counts_bytes, piece_of, piece_bytes, pieces_bytes};
ghost use Rattle.hs_words.specs.Reading.{BeginsWithPiece, HasPieces, Spells, Answers, HasFault, Gives};

use crate::layout::Front;
use crate::page::{Header, Page, PageFault, Point};
use hs_base::limits::{HEADER_BYTES, UNCOUNTED_BYTES};
use hs_base::{ClientId, List, Memory, TraceId};
use std::alloc::Global;

fn split_u16(bytes: &[u8]) -> Option<(u16, &[u8])>
    ensures some { IfSome result (λ x. (bytes.now ≡ to_be_bytes w16 x.0 ++ x.1.now) × (x.0 < 2 ^ 16)) }
    ensures none { IfNone result (length bytes.now < 2) }
{
    let (field, rest) = bytes.split_first_chunk::<2>()?;
    Some((u16::from_be_bytes(*field), rest))
}

fn split_u32(bytes: &[u8]) -> Option<(u32, &[u8])>
    ensures some { IfSome result (λ x. (bytes.now ≡ to_be_bytes w32 x.0 ++ x.1.now) × (x.0 < 2 ^ 32)) }
    ensures none { IfNone result (length bytes.now < 4) }
{
    let (field, rest) = bytes.split_first_chunk::<4>()?;
    Some((u32::from_be_bytes(*field), rest))
}

fn split_u64(bytes: &[u8]) -> Option<(u64, &[u8])>
    ensures some { IfSome result (λ x. (bytes.now ≡ to_be_bytes w64 x.0 ++ x.1.now) × (x.0 < 2 ^ 64)) }
    ensures none { IfNone result (length bytes.now < 8) }
{
    let (field, rest) = bytes.split_first_chunk::<8>()?;
    Some((u64::from_be_bytes(*field), rest))
}

fn split_u128(bytes: &[u8]) -> Option<(u128, &[u8])>
    ensures some { IfSome result (λ x. (bytes.now ≡ to_be_bytes w128 x.0 ++ x.1.now) × (x.0 < 2 ^ 128)) }
    ensures none { IfNone result (length bytes.now < 16) }
{
    let (field, rest) = bytes.split_first_chunk::<16>()?;
    Some((u128::from_be_bytes(*field), rest))
}

/// The front of a page and the bytes behind it, or `None` where there are fewer bytes than a header has.
pub(crate) fn read_front(bytes: &[u8]) -> Option<(Front, &[u8])>
    ensures some { IfSome result (λ x. bytes.now ≡ header_bytes x.0.header ++ counts_bytes x.0.count x.0.used ++ x.1.now) }
    ensures fits { IfSome result (λ x. FitsHeader x.0.header × (x.0.count < 2 ^ 16) × (x.0.used < 2 ^ 16)) }
    ensures none { IfNone result (length bytes.now < HEADER_BYTES) }
{
    let (trace, rest) = split_u128(bytes)?;
    let (node, rest) = split_u16(rest)?;
    let (number, rest) = split_u16(rest)?;
    let (page, rest) = split_u32(rest)?;
    let (first, rest) = split_u32(rest)?;
    let (count, rest) = split_u16(rest)?;
    let (used, rest) = split_u16(rest)?;
    let header = Header {
        trace: TraceId(trace),
        client: ClientId { node, number },
        page,
        first,
    };
    Some((
        Front {
            header,
            count,
            used,
        },
        rest,
    ))
}

/// The moment and the payload of the piece at the front of the bytes, and the bytes behind it, or `None`
/// where they do not begin with a whole piece.
fn split_piece(bytes: &[u8]) -> Option<(u64, &[u8], &[u8])>
    ensures some { IfSome result (λ x. bytes.now ≡ piece_bytes (record { moment = x.0; payload = x.1.now }) ++ x.2.now) }
    ensures fits { IfSome result (λ x. FitsPiece (record { moment = x.0; payload = x.1.now })) }
    ensures none { IfNone result (BeginsWithPiece bytes.now → ⊥) }
{
    let (len, rest) = split_u16(bytes)?;
    let (moment, rest) = split_u64(rest)?;
    let (payload, rest) = rest.split_at_checked(usize::from(len))?;
    Some((moment, payload, rest))
}

/// Whether the bytes are so many pieces and no more. Takes no memory, and does not look into the payloads.
pub(crate) fn has_pieces(count: u16, bytes: &[u8]) -> bool
    ensures { IsTrue result ↔ HasPieces count bytes.now }
{
    let mut rest = bytes;
    for _number in 0..count {
        let Some((_, _, after)) = split_piece(rest) else {
            return false;
        };
        rest = after;
    }
    rest.is_empty()
}

/// The so many pieces that the bytes are.
pub(crate) fn read_pieces(alloc: Global, count: u16, bytes: &[u8]) -> Result<List<Point>, Memory>
    requires { HasPieces count bytes.now }
    ensures { IfOk result (λ points. AllByRecursion FitsPiece (map piece_of points.items) × (length points.items ≡ count) × (bytes.now ≡ pieces_bytes (map piece_of points.items))) }
{
    let mut points = List::with_room(alloc, usize::from(count))?;
    let mut rest = bytes;
    for _number in 0..count {
        let Some((moment, payload, after)) = split_piece(rest) else {
            unreachable!()
        };
        let payload = List::from_vec(Vec::from_slice(alloc, payload)?);
        points.push(Point { moment, payload });
        rest = after;
    }
    Ok(points)
}

/// The page that the bytes are, or why they are none.
fn find_page(alloc: Global, bytes: &[u8]) -> Result<Page, PageFault>
    ensures { Answers bytes.now result }
{
    let Some((front, rest)) = read_front(bytes) else {
        return Err(PageFault::Short);
    };
    if usize::from(front.used) + UNCOUNTED_BYTES != bytes.len() {
        return Err(PageFault::Used);
    }
    if front.count == 0 {
        return Err(PageFault::Count);
    }
    if !has_pieces(front.count, rest) {
        return Err(PageFault::Count);
    }
    let Ok(points) = read_pieces(alloc, front.count, rest) else {
        return Err(PageFault::Memory);
    };
    Ok(Page {
        header: front.header,
        points,
    })
}

/// The page that the bytes are (`docs/FORMATS.md`, "The page"). Its pieces are counted before memory is asked
/// for; then each payload is copied once. After `Memory` nothing is kept.
pub fn read_page(alloc: Global, bytes: &[u8]) -> Result<Page, PageFault>
    // What is read is spelled by the bytes, and where they have a fault it is the one that is answered.
    // Memory may be wanted only for the bytes of a page.
    ensures answers { Answers bytes.now result }

    // A page is read from its bytes, unless memory is refused.
    ensures page { (sheet : Sheet) → Spells sheet bytes.now → Gives sheet result }

    // Each fault is answered exactly where the bytes have it.
    ensures short { (result ≡ Err PageFault.Short) ↔ HasFault bytes.now PageFault.Short }
    ensures used { (result ≡ Err PageFault.Used) ↔ HasFault bytes.now PageFault.Used }
    ensures count { (result ≡ Err PageFault.Count) ↔ HasFault bytes.now PageFault.Count }
{
    find_page(alloc, bytes)
}
