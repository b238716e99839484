//! What stands at a place among the bytes of a page.

ghost use Rattle.std.specs.Prelude.{◌≡◌, ◌+◌, ◌<◌, ◌≤◌, ◌^◌, length, option_map, IfSome};
ghost use Rattle.hs_words.specs.Pages.{Piece};
ghost use Rattle.hs_cursor.specs.Reading.{first_of, front_piece, piece_at};

use byteorder::{BigEndian, ByteOrder};
use hs_base::limits::PIECE_COST;

/// The moment and the payload of the piece in front, or `None` where there is no whole one.
fn front_piece(bytes: &[u8]) -> Option<(u64, &[u8])>
    ensures piece { option_map (λ piece. record { moment = piece.0; payload = piece.1.now }) result ≡ front_piece bytes.now }
    ensures within { IfSome result (λ piece. PIECE_COST + length piece.1.now ≤ length bytes.now) }
{
    if bytes.len() < PIECE_COST {
        return None;
    }
    let end = PIECE_COST + usize::from(BigEndian::read_u16(bytes));
    if bytes.len() < end {
        return None;
    }
    Some((BigEndian::read_u64(&bytes[2..]), &bytes[PIECE_COST..end]))
}

/// The moment and the payload of the piece that begins at this place, or `None` where no whole one does.
pub(crate) fn piece_at(bytes: &[u8], at: usize) -> Option<(u64, &[u8])>
    ensures piece { option_map (λ piece. record { moment = piece.0; payload = piece.1.now }) result ≡ piece_at bytes.now at }
    ensures within { IfSome result (λ piece. at + PIECE_COST + length piece.1.now ≤ length bytes.now) }
{
    if at >= bytes.len() {
        return None;
    }
    front_piece(&bytes[at..])
}

/// The number of the record that a page's first piece is of.
pub(crate) fn first_of(bytes: &[u8]) -> u32
    requires { 28 ≤ length bytes.now }
    ensures { result ≡ first_of bytes.now }
{
    BigEndian::read_u32(&bytes[24..])
}
