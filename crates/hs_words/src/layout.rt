//! A page's parts, written into a buffer.

ghost use Rattle.std.specs.Prelude.{◌≡◌, ◌+◌, ◌<◌, ◌≤◌, ◌^◌, [], ◌++◌, length, take, drop};
ghost use Rattle.hs_words.specs.Pages.{Piece, FitsHeader, cost_of, header_bytes, counts_bytes, piece_bytes, with_piece};
ghost use Rattle.hs_words.specs.Shown.{ShowsNothing, IsBehind};
ghost use Rattle.hs_words.specs.ChunkLayout.{sheet_in, Holds};

use crate::page::Header;
use byteorder::{BigEndian, ByteOrder};
use hs_base::limits::{HEADER_BYTES, HEADER_COST, MAX_SIZE, PIECE_COST, UNCOUNTED_BYTES};
use hs_base::{ClientId, TraceId};

/// The front of a page: its header, how many pieces there are, and the used bytes.
#[derive(Clone, Copy)]
pub struct Front {
    pub(crate) header: Header,
    pub(crate) used: u16,
    pub(crate) count: u16,
}

/// Writes the count of pieces and the used bytes behind the header's fields, in one store of four bytes.
fn write_counts(buffer: &mut [u8], count: u16, used: u16)
    requires { HEADER_BYTES ≤ length buffer.old }
    ensures { buffer.new ≡ take 28 buffer.old ++ (counts_bytes count used ++ drop HEADER_BYTES buffer.old) }
{
    let counts = u32::from(count) * 65_536 + u32::from(used);
    BigEndian::write_u32(&mut buffer[28..], counts);
}

/// Copies the payload to the front of the buffer. One of 16 to 32 bytes takes two moves of 16 bytes, which may overlap: a
/// call that copies any number of bytes costs more.
fn copy_payload(buffer: &mut [u8], payload: &[u8])
    requires { length payload.now ≤ length buffer.old }
    ensures { buffer.new ≡ payload.now ++ drop (length payload.now) buffer.old }
{
    let len = payload.len();
    if 16 <= len && len <= 32 {
        copy_16(buffer, payload);
        copy_16(&mut buffer[len - 16..], &payload[len - 16..]);
    } else {
        buffer[..len].copy_from_slice(payload);
    }
}

/// Copies the first 16 bytes to the front of the buffer.
fn copy_16(buffer: &mut [u8], payload: &[u8])
    requires source { 16 ≤ length payload.now }
    requires room { 16 ≤ length buffer.old }
    ensures { buffer.new ≡ take 16 payload.now ++ drop 16 buffer.old }
{
    let Some(bytes) = payload.first_chunk::<16>() else {
        unreachable!()
    };
    let bytes = *bytes;
    buffer[..16].copy_from_slice(&bytes);
}

/// Step: empties the counts. From then on the buffer shows no page.
pub(crate) fn clear_counts(buffer: &mut [u8])
    requires { HEADER_BYTES ≤ length buffer.old }
    ensures len { length buffer.new ≡ length buffer.old }
    ensures shows { ShowsNothing buffer.new }
{
    write_counts(buffer, 0, 0);
}

/// Step: writes the fields of a header, before the counts. The buffer shows no page before and after.
fn write_header(buffer: &mut [u8], header: Header)
    requires { ShowsNothing buffer.old }
    ensures bytes { buffer.new ≡ header_bytes header ++ drop 28 buffer.old }
    ensures fits { FitsHeader header }
    ensures shows { ShowsNothing buffer.new }
{
    let Header {
        trace: TraceId(trace),
        client: ClientId { node, number },
        page,
        first,
    } = header;
    BigEndian::write_u128(buffer, trace);
    BigEndian::write_u16(&mut buffer[16..], node);
    BigEndian::write_u16(&mut buffer[18..], number);
    BigEndian::write_u32(&mut buffer[20..], page);
    BigEndian::write_u32(&mut buffer[24..], first);
}

/// Writes a page without pieces into a buffer that shows none: the header's fields, and then the counts, which show it.
pub(crate) fn start_page(buffer: &mut [u8], header: Header) -> Front
    requires { ShowsNothing buffer.old }
    ensures len { length buffer.new ≡ length buffer.old }
    ensures holds { Holds buffer.new result }
    ensures sheet { sheet_in buffer.new result ≡ record { header = header; pieces = [] } }
{
    write_header(buffer, header);
    let used = HEADER_COST as u16;
    write_counts(buffer, 0, used);
    Front {
        header,
        count: 0,
        used,
    }
}

/// Writes a piece at the front of the buffer.
fn write_piece(buffer: &mut [u8], moment: u64, payload: &[u8])
    requires few { length payload.now < 2 ^ 16 }
    requires room { PIECE_COST + length payload.now ≤ length buffer.old }
    ensures { buffer.new ≡ piece_bytes (record { moment = moment; payload = payload.now }) ++ drop (PIECE_COST + length payload.now) buffer.old }
{
    BigEndian::write_u16(buffer, payload.len() as u16);
    BigEndian::write_u64(&mut buffer[2..], moment);
    copy_payload(&mut buffer[PIECE_COST..], payload);
}

/// Step: writes a piece behind the page. The buffer shows the page as before.
fn put_piece(buffer: &mut [u8], page: &Front, moment: u64, payload: &[u8])
    requires holds { Holds buffer.old page.now }
    requires room { page.now.used + UNCOUNTED_BYTES + (PIECE_COST + length payload.now) ≤ length buffer.old }
    requires small { length buffer.old ≤ MAX_SIZE + UNCOUNTED_BYTES }
    ensures len { length buffer.new ≡ length buffer.old }
    ensures holds { Holds buffer.new page.now }
    ensures sheet { sheet_in buffer.new page.now ≡ sheet_in buffer.old page.now }
    ensures behind { IsBehind page.now.used (record { moment = moment; payload = payload.now }) buffer.new }
{
    let at = usize::from(page.used) + UNCOUNTED_BYTES;
    write_piece(&mut buffer[at..], moment, payload);
}

/// The counts with a piece more. They are added to as one number, since they lie side by side.
fn counts_after(count: u16, used: u16, cost: u16) -> (u16, u16)
    requires few { count < 65_535 }
    requires small { used + cost < 65_536 }
    ensures count { result.0 ≡ count + 1 }
    ensures used { result.1 ≡ used + cost }
{
    let counts = u32::from(count) * 65_536 + u32::from(used) + (65_536 + u32::from(cost));
    ((counts / 65_536) as u16, (counts % 65_536) as u16)
}

/// Step: counts the piece that stands behind the page and takes so many bytes. From then on the buffer shows the page with it.
fn count_piece(buffer: &mut [u8], page: &mut Front, cost: u16)
    requires holds { Holds buffer.old page.old }
    requires piece { (piece : Piece) × IsBehind page.old.used piece buffer.old × (cost_of piece ≡ cost) }
    requires small { length buffer.old ≤ MAX_SIZE + UNCOUNTED_BYTES }
    ensures len { length buffer.new ≡ length buffer.old }
    ensures holds { Holds buffer.new page.new }
    ensures sheet { (piece : Piece) → IsBehind page.old.used piece buffer.old → cost_of piece ≡ cost → sheet_in buffer.new page.new ≡ with_piece (sheet_in buffer.old page.old) piece }
{
    let (count, used) = counts_after(page.count, page.used, cost);
    page.count = count;
    page.used = used;
    write_counts(buffer, count, used);
}

/// Writes a piece behind the page, and then counts it.
#[inline(always)]
pub(crate) fn extend_page(buffer: &mut [u8], page: &mut Front, moment: u64, payload: &[u8])
    requires holds { Holds buffer.old page.old }
    requires room { page.old.used + UNCOUNTED_BYTES + (PIECE_COST + length payload.now) ≤ length buffer.old }
    requires small { length buffer.old ≤ MAX_SIZE + UNCOUNTED_BYTES }
    ensures len { length buffer.new ≡ length buffer.old }
    ensures holds { Holds buffer.new page.new }
    ensures sheet { sheet_in buffer.new page.new ≡ with_piece (sheet_in buffer.old page.old) (record { moment = moment; payload = payload.now }) }
{
    put_piece(buffer, page, moment, payload);
    count_piece(buffer, page, PIECE_COST as u16 + payload.len() as u16);
}
