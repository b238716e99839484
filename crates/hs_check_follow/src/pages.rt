//! How many pages a client's operations start.

ghost use Rattle.std.specs.Prelude.{◌≡◌, ◌≤◌, ◌<◌, ◌+◌, ◌^◌, false, [], ◌∷◌, length, map};
ghost use Rattle.hs_base.specs.declared.limits.TheConstants.{MIN_SIZE, MAX_OPERATIONS};
ghost use Rattle.hs_records.specs.Pages.{pages_of};
ghost use Rattle.hs_records.specs.Records.{AreBracketed};
ghost use Rattle.hs_records.specs.Validity.{client_pieces};
ghost use Rattle.hs_records.specs.Views.{operation_of};
ghost use Rattle.hs_check_follow.specs.Filling.{opened, room_behind, payload_costs, started_by, room_left};

use hs_base::limits::{HEADER_COST, PIECE_COST};
use hs_records::{Op, payloads_are_cut_from_the_front, piece_limit, pieces_are_counted};

/// How many pages were started, and how many bytes are left in the one that is open.
#[derive(Clone, Copy)]
struct Filled {
    pages: usize,
    room: usize,
}

impl Filled {
    /// Puts a piece that costs so many bytes into the open page, or into a new one.
    fn put_piece(self, size: u32, cost: usize) -> Filled
        requires least { MIN_SIZE ≤ size }
        requires few { self.pages + opened size self.room (cost ∷ []) < 2 ^ 64 }
        ensures pages { result.pages ≡ self.pages + opened size self.room (cost ∷ []) }
        ensures room { result.room ≡ room_behind size self.room (cost ∷ []) }
    {
        if cost <= self.room {
            Filled {
                pages: self.pages,
                room: self.room - cost,
            }
        } else {
            Filled {
                pages: self.pages + 1,
                room: (size as usize - HEADER_COST).saturating_sub(cost),
            }
        }
    }

    /// Puts the pieces of a payload into pages.
    fn put_payload(self, size: u32, payload: &[u8]) -> Filled
        requires least { MIN_SIZE ≤ size }
        requires few { self.pages + opened size self.room (payload_costs size payload.now) < 2 ^ 64 }
        ensures pages { result.pages ≡ self.pages + opened size self.room (payload_costs size payload.now) }
        ensures room { result.room ≡ room_behind size self.room (payload_costs size payload.now) }
    {
        payloads_are_cut_from_the_front();
        let limit = piece_limit(size);
        let mut filled = self;
        let mut done = 0;
        while payload.len() - done > limit {
            filled = filled.put_piece(size, PIECE_COST + limit);
            done += limit;
        }
        filled.put_piece(size, PIECE_COST + (payload.len() - done))
    }

    /// Does an operation.
    fn put_operation(self, size: u32, operation: &Op) -> Filled
        requires least { MIN_SIZE ≤ size }
        requires few { self.pages + started_by size self.room (operation_of operation.now) < 2 ^ 64 }
        ensures pages { result.pages ≡ self.pages + started_by size self.room (operation_of operation.now) }
        ensures room { result.room ≡ room_left size self.room (operation_of operation.now) }
    {
        match operation {
            Op::Begin { .. } => Filled {
                pages: self.pages,
                room: 0,
            },
            Op::End => Filled {
                pages: self.pages,
                room: 0,
            },
            Op::Point { payload, .. } => self.put_payload(size, payload.as_slice()),
            _ => self,
        }
    }
}

/// How many pages the operations of a client start, which has no trace open at its end.
pub(crate) fn count_pages(size: u32, operations: &[Op]) -> usize
    requires least { MIN_SIZE ≤ size }
    requires bracketed { AreBracketed false (map operation_of operations.now) }
    requires few { client_pieces size (map operation_of operations.now) ≤ MAX_OPERATIONS }
    ensures { result ≡ length (pages_of size (map operation_of operations.now)) }
{
    pieces_are_counted();
    let mut filled = Filled { pages: 0, room: 0 };
    for operation in operations {
        filled = filled.put_operation(size, operation);
    }
    filled.pages
}
