//! What valid workloads have room for. These functions do nothing: their contracts say it.

ghost use Rattle.hs_outcome.specs.Fitting.{RecordsAreFew, ReportedPagesArePages};

use hs_client::sending_laws::{pages_fit, timed_pages_are_the_pages};
use hs_law_outcome::laws::reported_pages_are_of_clients;
use hs_records::{
    pages_carry_the_records, pages_hold_the_pieces, pieces_are_counted, pieces_join_to_the_payload,
};

/// The records of a valid workload can be counted with 32 bits.
pub(crate) fn records_are_few()
    ensures { RecordsAreFew }
{}

/// What the agents of a valid workload report are pages: all numbers fit their fields, and each has a piece.
pub(crate) fn reported_pages_are_pages()
    ensures { ReportedPagesArePages }
{
    pages_carry_the_records();
    pages_hold_the_pieces();
    pieces_are_counted();
    pieces_join_to_the_payload();
    pages_fit();
    timed_pages_are_the_pages();
    reported_pages_are_of_clients();
}
