//! The clauses, one after another.

ghost use Rattle.std.specs.Prelude.{◌≡◌, option_map, IfOk};
ghost use Rattle.hs_records.specs.Journals.{journal_of};
ghost use Rattle.hs_law_journal.specs.Played.{played};
ghost use Rattle.hs_records.specs.Validity.{IsValid};
ghost use Rattle.hs_records.specs.Views.{workload_of};
ghost use Rattle.hs_check.specs.Asking.{of_the_journal, of_the_pools, of_the_end, first_among, WasFollowed};
ghost use Rattle.hs_check.specs.Clauses.{number_of};

use crate::clause::Clause;
use crate::pace::has_pace;
use crate::unreads::has_unreads;
use hs_base::Memory;
use hs_check_follow::{
    Found, has_answers, has_history, has_offers, has_passes, has_rounds, has_shape, has_stamps,
    is_bare,
};
use hs_records::{Journal, Workload};
use std::alloc::Global;

/// The first of the clauses on the journal alone that fails: the first, the second and the fifth.
pub(crate) fn ask_journal(
    alloc: Global,
    workload: &Workload,
    journal: &Journal,
) -> Result<Option<Clause>, Memory>
    requires { IsValid (workload_of workload.now) }
    ensures { IfOk result (λ failed. option_map number_of failed ≡ first_among of_the_journal (played (workload_of workload.now) (journal_of journal.now))) }
{
    if !has_shape(workload, journal) {
        return Ok(Some(Clause::L1));
    }
    if !has_stamps(alloc, workload, journal)? {
        return Ok(Some(Clause::L2));
    }
    if !has_passes(workload, journal) {
        return Ok(Some(Clause::L5));
    }
    Ok(None)
}

/// The first of the clauses on pools and offers that fails: the third, the fourth, the sixth and the seventh.
pub(crate) fn ask_pools(
    alloc: Global,
    workload: &Workload,
    journal: &Journal,
    found: &Found,
) -> Result<Option<Clause>, Memory>
    requires { WasFollowed (workload_of workload.now) (journal_of journal.now) found.now }
    ensures { IfOk result (λ failed. option_map number_of failed ≡ first_among of_the_pools (played (workload_of workload.now) (journal_of journal.now))) }
{
    if !has_history(alloc, workload, journal, found)? {
        return Ok(Some(Clause::L3));
    }
    if !has_answers(alloc, workload, journal, found)? {
        return Ok(Some(Clause::L4));
    }
    if !has_offers(workload, journal, found) {
        return Ok(Some(Clause::L6));
    }
    if !has_unreads(alloc, workload, journal, found)? {
        return Ok(Some(Clause::L7));
    }
    Ok(None)
}

/// The first of the clauses on the end and on pace that fails: the ninth, the tenth and the eleventh.
pub(crate) fn ask_end(
    alloc: Global,
    workload: &Workload,
    journal: &Journal,
    found: &Found,
) -> Result<Option<Clause>, Memory>
    requires { WasFollowed (workload_of workload.now) (journal_of journal.now) found.now }
    ensures { IfOk result (λ failed. option_map number_of failed ≡ first_among of_the_end (played (workload_of workload.now) (journal_of journal.now))) }
{
    if !has_rounds(workload, journal) {
        return Ok(Some(Clause::L9));
    }
    if !is_bare(workload, journal, found) {
        return Ok(Some(Clause::L10));
    }
    if !has_pace(alloc, workload, journal, found)? {
        return Ok(Some(Clause::L11));
    }
    Ok(None)
}
