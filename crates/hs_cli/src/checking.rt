//! What `check` answers for a workload and the text of a journal.

ghost use Rattle.std.specs.Prelude.{◌≡◌, ◌≤◌, ◌++◌, IfOk, length};
ghost use Rattle.hs_base.specs.declared.limits.TheConstants.{MAX_INPUT};
ghost use Rattle.hs_records.specs.Journals.{journal_of};
ghost use Rattle.hs_check.specs.Clauses.{number_of};
ghost use Rattle.hs_records.specs.Validity.{IsValid};
ghost use Rattle.hs_records.specs.Views.{workload_of};
ghost use Rattle.hs_cli.specs.Answers.{IsAnswer, IsJudged};
ghost use Rattle.hs_cli.specs.Messages.{journal_refusal_text, unlawful_text};
ghost use Rattle.hs_cli.specs.declared.command.Command.TheVariants.{Check};

use crate::answer::{Answer, done_with, whole};
use hs_base::{Bytes, Memory};
use hs_check::{Clause, Verdict, check};
use hs_journal::{JournalError, JournalRefusal, read_journal};
use hs_json::outcome_parts;
use hs_law_journal::laws::lawful_is_decided;
use hs_records::{Journal, Workload};
use hs_report::Form;
use hs_workload::Status;
use std::alloc::Global;

/// What `check` answers: that the text is no journal's, or what the journal is for the workload.
pub(crate) fn judge(alloc: Global, workload: &Workload, text: &[u8]) -> Result<Answer, Memory>
    requires valid { IsValid (workload_of workload.now) }
    requires short { length text.now ≤ MAX_INPUT }
    ensures { IfOk result (λ answer. IsAnswer Check (workload_of workload.now) text.now answer.status (answer.front.items ++ answer.text.items)) }
{
    match read_journal(alloc, text) {
        Ok(journal) => verdict_on(alloc, workload, &journal),
        Err(JournalError::Refused(refusal)) => {
            let line = journal_refusal(alloc, refusal)?;
            Ok(whole(alloc, Status::Refused, line))
        }
        Err(JournalError::Memory) => Err(Memory),
    }
}

/// The outcome of a workload and its lawful journal, or the first clause that fails.
fn verdict_on(alloc: Global, workload: &Workload, journal: &Journal) -> Result<Answer, Memory>
    requires { IsValid (workload_of workload.now) }
    ensures { IfOk result (λ answer. IsJudged (workload_of workload.now) (journal_of journal.now) answer.status (answer.front.items ++ answer.text.items)) }
{
    lawful_is_decided();
    match check(alloc, workload, journal)? {
        Verdict::Lawful { outcome } => Ok(done_with(outcome_parts(alloc, outcome, Form::Text)?)),
        Verdict::Unlawful { clause } => {
            let line = clause_line(alloc, clause)?;
            Ok(whole(alloc, Status::Unlawful, line))
        }
    }
}

/// The text that names a journal's bad line and its reason.
fn journal_refusal(alloc: Global, refusal: JournalRefusal) -> Result<Bytes, Memory>
    ensures { IfOk result (λ line. line.items ≡ journal_refusal_text refusal.line refusal.reason) }
{
    let line = refusal.line;
    let reason = refusal.reason.word();
    let text = format!(in alloc; "refused journal line {line} {reason}\n")?;
    Ok(Bytes::from_vec(text.into_bytes()))
}

/// The text that names a clause.
fn clause_line(alloc: Global, clause: Clause) -> Result<Bytes, Memory>
    ensures { IfOk result (λ line. line.items ≡ unlawful_text (number_of clause)) }
{
    let word = clause.word();
    let text = format!(in alloc; "unlawful {word}\n")?;
    Ok(Bytes::from_vec(text.into_bytes()))
}
