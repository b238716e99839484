//! Laws of pieces and pages. Each is the contract of a function that does nothing.

ghost use Rattle.std.specs.Prelude.{◌≡◌, ◌<◌, ◌≤◌, ℕ, false, List, [], ◌∷◌, length, take, drop};
ghost use Rattle.std.specs.List.{concat};
ghost use Rattle.hs_records.specs.Plain.{Operation};
ghost use Rattle.hs_records.specs.Records.{AreBracketed, Piece, piece_limit, payload_pieces, piece_count, records_of};
ghost use Rattle.hs_records.specs.Pages.{pages_of, runs_of};
ghost use Rattle.hs_base.specs.declared.limits.TheConstants.{MIN_SIZE};
ghost use Rattle.hs_records.specs.Laws.{AreFullButLast, CarryRecords, AreRuns, PagesHoldThePieces, joined, traces_of};

/// The pieces of a payload, one behind another, are the payload.
pub fn pieces_join_to_the_payload()
    ensures { (size : ℕ) (payload : List ℕ) → concat (payload_pieces size payload) ≡ payload }
{}

/// A payload that fits is one piece, and a longer one gives its front and is cut again.
pub fn payloads_are_cut_from_the_front()
    ensures fits { (size : ℕ) (payload : List ℕ) → length payload ≤ piece_limit size → payload_pieces size payload ≡ payload ∷ [] }
    ensures cut { (size : ℕ) (payload : List ℕ) → MIN_SIZE ≤ size → piece_limit size < length payload
        → payload_pieces size payload ≡ take (piece_limit size) payload ∷ payload_pieces size (drop (piece_limit size) payload) }
{}

/// All pieces of a payload but the last are full, and the last has a byte at least.
pub fn pieces_are_full()
    ensures { (size : ℕ) (payload : List ℕ) → MIN_SIZE ≤ size → 1 ≤ length payload → AreFullButLast (piece_limit size) (payload_pieces size payload) }
{}

/// How many pieces a payload has is decided by the count of its bytes.
pub fn pieces_are_counted()
    ensures { (size : ℕ) (payload : List ℕ) → length (payload_pieces size payload) ≡ piece_count size (length payload) }
{}

/// Runs of pieces that each fit a page, and have no room for what comes next, are those that the pages take.
pub fn the_longest_runs_are_the_pages()
    ensures { (size : ℕ) (runs : List (List Piece)) → AreRuns size runs → runs_of size (joined runs) ≡ runs }
{}

/// The pages of a client's operations carry all its records: each page begins with the next record, or goes on
/// with the last one of the page before, and each of its pieces is that of a record of its trace.
pub fn pages_carry_the_records()
    ensures { (size : ℕ) (operations : List Operation) → MIN_SIZE ≤ size → AreBracketed false operations
        → CarryRecords (traces_of (records_of operations)) 0 (pages_of size operations) (length (records_of operations)) }
{}

/// The pages of a client's operations hold the pieces of its records: all of them, each once and in their order.
pub fn pages_hold_the_pieces()
    ensures { PagesHoldThePieces }
{}
