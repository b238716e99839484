//! The text of an outcome in either form.

ghost use Rattle.std.specs.Prelude.{◌≡◌, ◌++◌, IfOk};
ghost use Rattle.hs_journal.specs.Grammar.{journal_text};
ghost use Rattle.hs_records.specs.Journals.{PlainJournal, journal_of};
ghost use Rattle.hs_law_journal.specs.Lawful.{IsLawful};
ghost use Rattle.hs_report.specs.OutcomeText.{outcome_text};
ghost use Rattle.hs_report.specs.declared.form.Form.TheVariants.{Json};
ghost use Rattle.hs_records.specs.Plain.{PlainWorkload};
ghost use Rattle.hs_outcome.specs.Outcomes.{IsOutcome};
ghost use Rattle.hs_records.specs.Validity.{IsValid};

use crate::parts::json_parts;
use crate::values::push_json;
use hs_base::{Bytes, Memory};
use hs_outcome::Outcome;
use hs_report::{Form, Parts, close_text, line_parts, open_text, sort_out, write_lines};
use std::alloc::Global;

/// The text of an outcome with its reports as JSON.
fn write_json(alloc: Global, outcome: &Outcome) -> Result<Bytes, Memory>
    requires { (W : PlainWorkload) × (J : PlainJournal) × IsValid W × IsLawful W J × IsOutcome W J outcome.now }
    ensures { IfOk result (λ bytes. (W : PlainWorkload) (J : PlainJournal) → IsValid W → IsLawful W J → IsOutcome W J outcome.now
        → bytes.items ≡ outcome_text W J Json) }
{
    let sorted = sort_out(alloc, outcome)?;
    let traces = sorted.traces.as_slice();
    let mut out = open_text(alloc, outcome, traces.len())?;
    push_json(
        &mut out,
        alloc,
        outcome.version,
        &sorted.fates,
        &outcome.collector,
        traces,
    )?;
    close_text(out, outcome)
}

/// The text of an outcome: its journal, its reports and its ledger (`docs/FORMATS.md`, "The outcome"). Sorting the entries of claimed
/// traces by trace is all that takes more than one pass. The one error is want of memory.
pub fn write_outcome(alloc: Global, outcome: &Outcome, form: Form) -> Result<Bytes, Memory>
    // Some valid workload and some lawful journal of it come to this outcome.
    requires { (W : PlainWorkload) × (J : PlainJournal) × IsValid W × IsLawful W J × IsOutcome W J outcome.now }
    ensures { IfOk result (λ bytes. (W : PlainWorkload) (J : PlainJournal) → IsValid W → IsLawful W J → IsOutcome W J outcome.now
        → bytes.items ≡ outcome_text W J form) }
{
    match form {
        Form::Text => write_lines(alloc, outcome),
        Form::Json => write_json(alloc, outcome),
    }
}

/// The text of an outcome in two parts: that of its journal, and all behind it. The journal is let go as soon as its text is there, so
/// that less of both is there at once. Else it is as `write_outcome`.
pub fn outcome_parts(alloc: Global, outcome: Outcome, form: Form) -> Result<Parts, Memory>
    // Some valid workload and some lawful journal of it come to this outcome.
    requires { (W : PlainWorkload) × (J : PlainJournal) × IsValid W × IsLawful W J × IsOutcome W J outcome }
    ensures journal { IfOk result (λ parts. parts.journal.items ≡ journal_text (journal_of outcome.journal)) }
    ensures text { IfOk result (λ parts. (W : PlainWorkload) (J : PlainJournal) → IsValid W → IsLawful W J → IsOutcome W J outcome
        → parts.journal.items ++ parts.behind.items ≡ outcome_text W J form) }
{
    match form {
        Form::Text => line_parts(alloc, outcome),
        Form::Json => json_parts(alloc, outcome),
    }
}
