//! What is said of a journal.

ghost use Rattle.std.specs.Prelude.{IfOk};
ghost use Rattle.hs_records.specs.Journals.{journal_of};
ghost use Rattle.hs_records.specs.Validity.{IsValid};
ghost use Rattle.hs_records.specs.Views.{workload_of};
ghost use Rattle.hs_check.specs.Verdicts.{IsVerdict};

use crate::asking::{ask_end, ask_journal, ask_pools};
use crate::clause::Clause;
use crate::ending::come_to;
use hs_base::Memory;
use hs_check_follow::follow;
use hs_law_journal::laws::{lawful_is_decided, runs_are_of_the_journal};
use hs_outcome::Outcome;
use hs_records::{Journal, Workload};
use std::alloc::Global;

/// What is said of a journal that was given with a workload.
#[derive(Drop)]
pub enum Verdict {
    /// It is lawful for the workload, and this is what the two come to.
    Lawful { outcome: Outcome },
    /// It is not: this is the first clause that fails, in the order in which they are asked.
    Unlawful { clause: Clause },
}

/// Whether a journal is lawful for a workload (`docs/RULES.md`, "The lawful journal"). The one error is want of memory.
pub fn check(alloc: Global, workload: &Workload, journal: &Journal) -> Result<Verdict, Memory>
    requires { IsValid (workload_of workload.now) }
    ensures { IfOk result (IsVerdict (workload_of workload.now) (journal_of journal.now)) }
{
    lawful_is_decided();
    runs_are_of_the_journal();
    if let Some(clause) = ask_journal(alloc, workload, journal)? {
        return Ok(Verdict::Unlawful { clause });
    }
    let following = follow(alloc, workload, journal)?;
    if !following.is_done(journal) {
        return Ok(Verdict::Unlawful { clause: Clause::L8 });
    }
    let (found, ended) = following.part(alloc)?;
    if let Some(clause) = ask_pools(alloc, workload, journal, &found)? {
        return Ok(Verdict::Unlawful { clause });
    }
    if let Some(clause) = ask_end(alloc, workload, journal, &found)? {
        return Ok(Verdict::Unlawful { clause });
    }
    let outcome = come_to(alloc, workload, journal, ended)?;
    Ok(Verdict::Lawful { outcome })
}
