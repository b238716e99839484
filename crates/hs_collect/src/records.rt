//! The records of one trace.

ghost use Rattle.std.specs.Prelude.{◌≡◌, ◌++◌, ◌+◌, ◌-◌, ◌≤◌, ◌<◌, ◌^◌, ℕ, [], length, take, drop, map, IfOk, OnErr, OnOk, if◌then◌else◌};
ghost use Rattle.hs_words.specs.Pages.{piece_of, sheet_of};
ghost use Rattle.hs_collect.specs.Clients.{is_behind};
ghost use Rattle.hs_collect.specs.Collected.{AreInOrder, AreWholes, end_of, page_pieces};
ghost use Rattle.hs_collect.specs.Views.{Pieces, wholes_of, sheet_with};
ghost use Rattle.hs_collect.specs.Joining.{IsPlaceBehind, GoesBehind, Joins, join_at, is_before};

use hs_base::{Bytes, ClientId, List, Memory, RecordId};
use hs_words::{Header, Page, Point};
use std::alloc::Global;

/// A record with its moment in microseconds and its whole payload.
#[derive(Drop)]
pub struct TraceRecord {
    pub id: RecordId,
    pub moment: u64,
    pub payload: Bytes,
}

/// The records of a trace, in the order of client and number.
#[derive(Drop)]
pub struct TraceRecords {
    pub entries: List<TraceRecord>,
}

/// The id of the record at this place of a page's pieces.
fn id_at(header: Header, place: usize) -> RecordId
    requires { header.first + place < 2 ^ 32 }
    ensures { result ≡ record { client = header.client; number = header.first + place } }
{
    RecordId {
        client: header.client,
        number: header.first + place as u32,
    }
}

/// Whether a client comes behind another: by node, and at one node by number.
fn is_client_behind(client: ClientId, other: ClientId) -> bool
    ensures { result ≡ is_behind client other }
{
    client.node > other.node || (client.node == other.node && client.number > other.number)
}

/// Appends bytes, or leaves the payload as it is.
fn join(payload: &mut Bytes, more: &[u8]) -> Result<(), Memory>
    ensures ok { OnOk result (payload.new.items ≡ payload.old.items ++ more.now) }
    ensures err { OnErr result (payload.new.items ≡ payload.old.items) }
{
    payload.reserve(more.len())?;
    for byte in more {
        payload.push(*byte);
    }
    Ok(())
}

impl TraceRecords {
    ghost use Rattle.hs_collect.specs.declared.records.TraceRecord.{TraceRecord};

    /// The records of a trace of which no page was added.
    pub(crate) fn none(alloc: Global) -> TraceRecords
        ensures { wholes_of result ≡ [] }
    {
        TraceRecords {
            entries: List::new(alloc),
        }
    }

    /// The place before the records of the clients behind this one.
    fn place_behind(&self, client: ClientId) -> usize
        ensures bound { result ≤ length self.now.entries.items }
        ensures place { AreInOrder (wholes_of self.now) → IsPlaceBehind client result (wholes_of self.now) }
    {
        self.entries
            .as_slice()
            .partition_point(|record| !is_client_behind(record.id.client, client))
    }

    /// Joins the piece to the record before this place, if it is that record's, and answers whether it is.
    fn join_before(&mut self, place: usize, id: RecordId, piece: &Point) -> Result<bool, Memory>
        requires { place ≤ length self.old.entries.items }
        ensures joined { IfOk result (λ joined. wholes_of self.new
            ≡ (if joined then join_at (place - 1) piece.now.payload.items (wholes_of self.old) else wholes_of self.old)) }
        ensures its { IfOk result (λ joined. joined ≡ is_before place id (wholes_of self.old)) }
        ensures room { self.new.entries.room ≡ self.old.entries.room }
        ensures err { OnErr result (wholes_of self.new ≡ wholes_of self.old) }
    {
        let Some(last) = place.checked_sub(1) else {
            return Ok(false);
        };
        let record = &mut self.entries.as_mut_slice()[last];
        if record.id != id {
            return Ok(false);
        }
        join(&mut record.payload, piece.payload.as_slice())?;
        Ok(true)
    }

    /// Joins the first piece of a page to the record before this place, if it is that record's, and answers
    /// whether it is.
    fn join_first(
        &mut self,
        place: usize,
        header: Header,
        points: &List<Point>,
    ) -> Result<bool, Memory>
        requires { place ≤ length self.old.entries.items }
        ensures joins { IfOk result (λ joined. Joins header place (wholes_of self.old) (map piece_of points.now.items)
            joined (wholes_of self.new)) }
        ensures room { self.new.entries.room ≡ self.old.entries.room }
        ensures err { OnErr result (wholes_of self.new ≡ wholes_of self.old) }
    {
        let Some(first) = points.get(0) else {
            return Ok(false);
        };
        let id = RecordId {
            client: header.client,
            number: header.first,
        };
        self.join_before(place, id, first)
    }

    /// Appends the records that the pieces begin, but for the first `joined` pieces.
    fn append(&mut self, header: Header, points: List<Point>, joined: usize)
        requires fits { header.first + length points.items ≤ 2 ^ 32 }
        requires room { length self.old.entries.items + length points.items ≤ self.old.entries.room }
        ensures { wholes_of self.new ≡ wholes_of self.old ++ drop joined (page_pieces (sheet_with header points.items)) }
    {
        for (place, point) in points.into_vec().into_iter().enumerate().skip(joined) {
            self.entries.push(TraceRecord {
                id: id_at(header, place),
                moment: point.moment,
                payload: point.payload,
            });
        }
    }

    /// Moves the records from `middle` on before those from `place` on.
    fn move_before(&mut self, place: usize, middle: usize)
        requires order { place ≤ middle }
        requires within { middle ≤ length self.old.entries.items }
        ensures { wholes_of self.new ≡ take place (wholes_of self.old) ++ drop middle (wholes_of self.old)
            ++ take (middle - place) (drop place (wholes_of self.old)) }
    {
        self.entries.as_mut_slice()[place..].rotate_left(middle - place);
    }

    /// Adds the pieces of a page in their place. After `Memory` the records are as they were.
    pub(crate) fn add(&mut self, page: Page) -> Result<(), Memory>
        requires fits { end_of (sheet_of page) ≤ 2 ^ 32 }
        requires later { GoesBehind page.header (wholes_of self.old) }
        ensures ok { OnOk result ((pieces : Pieces) → AreWholes pieces (wholes_of self.old)
            → AreWholes (pieces ++ page_pieces (sheet_of page)) (wholes_of self.new)) }
        ensures err { OnErr result (wholes_of self.new ≡ wholes_of self.old) }
    {
        let Page { header, points } = page;
        let place = self.place_behind(header.client);
        self.entries.reserve(points.len())?;
        let joined = self.join_first(place, header, &points)?;
        let middle = self.entries.len();
        self.append(header, points, usize::from(joined));
        self.move_before(place, middle);
        Ok(())
    }
}
