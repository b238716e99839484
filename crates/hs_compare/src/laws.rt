//! What holds of the samplers over any workload. These functions do nothing: their contracts say it.

ghost use Rattle.hs_compare.specs.SamplerLaws.{RingKeepsLess, TheOrderHasAll, RingKeepsEachOnce, ClaimedTracesAreNamed, EntriesStandByTheRecords, KeptIsParted, GapsAreInGapLines, TailIsTheSum};
ghost use Rattle.hs_compare.specs.SamplerExamples.{Examples};

use hs_client::sending_laws::all_is_sent_in_the_end;
use hs_law_agent::laws::claims_are_of_what_is_brought;
use hs_law_journal::laws::following_plays_out;
use hs_law_outcome::laws::{
    agents_keep_their_model, each_fate_has_its_cause, each_record_has_one_entry,
    reported_pages_are_of_clients,
};
use hs_records::pages_carry_the_records;

/// Whatever room a ring has, tail keeps all that the ring keeps.
pub fn ring_keeps_less()
    ensures { RingKeepsLess }
{}

/// In the operation order each record of the workload comes once, and each trigger names its lead and its laterals
/// once.
pub fn the_order_has_all()
    ensures { TheOrderHasAll }
{
    all_is_sent_in_the_end();
}

/// A ring keeps no record twice, so it keeps no more records than tail.
pub fn ring_keeps_each_once()
    ensures { RingKeepsEachOnce }
{}

/// Each trace that a node claimed is the lead or a lateral of some trigger of the workload.
pub fn claimed_traces_are_named()
    ensures { ClaimedTracesAreNamed }
{
    following_plays_out();
    all_is_sent_in_the_end();
    claims_are_of_what_is_brought();
}

/// The entries of an outcome stand one for one with the records of the workload. Each entry of a named trace is
/// reported, or in a gap line, or limited, and only one of these; each entry of another trace is none of them.
pub fn kept_is_parted()
    ensures beside { EntriesStandByTheRecords }
    ensures parted { KeptIsParted }
{
    each_fate_has_its_cause();
    each_record_has_one_entry();
    agents_keep_their_model();
    reported_pages_are_of_clients();
    pages_carry_the_records();
    claimed_traces_are_named();
}

/// As many records are counted as gaps as stand in the gap lines of the reports.
pub fn gaps_are_in_gap_lines()
    ensures { GapsAreInGapLines }
{}

/// Tail keeps as many records as Hindsight keeps, as stand in gap lines, and as are limited.
pub fn tail_is_the_sum()
    ensures { TailIsTheSum }
{
    kept_is_parted();
}

/// Two workloads that were worked out by hand compare as the examples in `specs/SamplerExamples.antt` say: one where an eviction
/// leaves a gap, and one with a ring of a single record.
pub fn examples_hold()
    ensures { Examples }
{}
