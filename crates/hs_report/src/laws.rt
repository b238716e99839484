//! That journals can be read. These functions do nothing: their contracts say it.

ghost use Rattle.hs_report.specs.Readable.{LawfulJournalsCanBeRead, JournalsCanBeRead};

use hs_law_outcome::laws::lawful_journals_are_journals;
use hs_records::{pages_carry_the_records, pages_hold_the_pieces, pieces_are_counted};

/// What is written of a lawful journal reads as that journal: all its numbers are in their ranges.
pub fn lawful_journals_can_be_read()
    ensures { LawfulJournalsCanBeRead }
{
    lawful_journals_are_journals();
}

/// What is written of a lawful journal of a valid workload reads as that journal.
pub fn journals_can_be_read()
    ensures { JournalsCanBeRead }
{
    pages_carry_the_records();
    pages_hold_the_pieces();
    pieces_are_counted();
    lawful_journals_can_be_read();
}
