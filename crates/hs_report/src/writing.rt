//! The text of an outcome.

ghost use Rattle.std.specs.Prelude.{◌≡◌, ◌≤◌, ◌*◌, [], ◌∷◌, ◌++◌, List, length, filter, IfOk, OnOk};
ghost use Rattle.hs_journal.specs.Grammar.{journal_text};
ghost use Rattle.hs_records.specs.Journals.{PlainJournal, journal_of};
ghost use Rattle.hs_law_journal.specs.Lawful.{IsLawful};
ghost use Rattle.hs_ledger.specs.declared.ledger.Entry.{Entry};
ghost use Rattle.hs_report.specs.OutcomeText.{ledger_text, outcome_text, total_line};
ghost use Rattle.hs_report.specs.declared.form.Form.TheVariants.{Text};
ghost use Rattle.hs_records.specs.Plain.{PlainWorkload};
ghost use Rattle.hs_report.specs.Fates.{AreFatesOf, has_entry};
ghost use Rattle.hs_outcome.specs.Outcomes.{IsOutcome};
ghost use Rattle.hs_report.specs.Sorted.{AreSorted, count_line};
ghost use Rattle.hs_text.specs.Text.{text_of};
ghost use Rattle.hs_records.specs.Validity.{IsValid};

use crate::fates::{Fates, Sorted};
use crate::kept::kept_entries;
use crate::laws::journals_can_be_read;
use crate::ledger::{push_ledger, push_totals};
use crate::text::push_reports;
use hs_base::{Bytes, Memory, TraceId};
use hs_journal::write_journal;
use hs_law_outcome::laws::collected_records_are_whole;
use hs_ledger::Ledger;
use hs_outcome::Outcome;
use hs_text::{end_line, push_spaced_number};
use std::alloc::Global;

/// Appends a trace that has a record, and of another one nothing.
fn push_trace(traces: &mut Vec<TraceId>, fates: &Fates, trace: TraceId) -> Result<(), Memory>
    ensures { OnOk result ((entries : List Entry) → AreFatesOf entries fates.now
        → traces.new.items ≡ traces.old.items ++ filter (has_entry entries) (trace ∷ [])) }
{
    if !fates.has_record(trace) {
        return Ok(());
    }
    traces.push(trace)?;
    Ok(())
}

/// The traces among these that have a record.
fn reported_traces(
    alloc: Global,
    fates: &Fates,
    claimed: &[TraceId],
) -> Result<Vec<TraceId>, Memory>
    ensures { IfOk result (λ traces. (entries : List Entry) → AreFatesOf entries fates.now
        → traces.items ≡ filter (has_entry entries) claimed.now) }
{
    let mut traces = Vec::new(alloc);
    if fates.is_empty() {
        return Ok(traces);
    }
    for trace in claimed {
        push_trace(&mut traces, fates, *trace)?;
    }
    Ok(traces)
}

/// The entries of the claimed traces by trace, and the traces that have a report. Of other traces nothing is copied or sorted, and
/// sorting is all that takes more than one pass. The one error is want of memory.
pub fn sort_out(alloc: Global, outcome: &Outcome) -> Result<Sorted, Memory>
    ensures { IfOk result (λ sorted. (W : PlainWorkload) (J : PlainJournal) → IsValid W → IsLawful W J → IsOutcome W J outcome.now
        → AreSorted W J outcome.now sorted) }
{
    collected_records_are_whole();
    let claimed = outcome.claimed.as_slice();
    let kept = kept_entries(alloc, outcome.ledger.entries.as_slice(), claimed)?;
    let fates = Fates::make(alloc, kept.as_slice())?;
    let traces = reported_traces(alloc, &fates, claimed)?;
    Ok(Sorted { fates, traces })
}

/// About how many bytes the line of a ledger's entry has, where a trace has 16 digits.
const ENTRY_ROOM: usize = 48;

/// About how many bytes a ledger has in a text of this version: at most 64 for each entry.
pub(crate) fn room_for(version: u8, ledger: &Ledger) -> usize
    ensures { result ≤ length ledger.now.entries.items * 64 }
{
    let wider = if version == 1 { 0 } else { 16 };
    let entries = ledger.entries.len();
    entries.saturating_mul(ENTRY_ROOM + wider)
}

/// Appends the line that counts the reports.
pub(crate) fn push_count_line(out: &mut Vec<u8>, count: usize) -> Result<(), Memory>
    ensures { OnOk result (out.new.items ≡ out.old.items ++ (count_line count ++ 10 ∷ [])) }
{
    out.extend_from_slice(b"reports")?;
    push_spaced_number(out, count as u64)?;
    end_line(out)
}

/// The front of an outcome's text: its journal, and the line that counts the reports. The one error is want of memory.
pub fn open_text(alloc: Global, outcome: &Outcome, count: usize) -> Result<Vec<u8>, Memory>
    // Some valid workload and some lawful journal of it come to this outcome.
    requires { (W : PlainWorkload) × (J : PlainJournal) × IsValid W × IsLawful W J × IsOutcome W J outcome.now }
    ensures { IfOk result (λ out. out.items ≡ journal_text (journal_of outcome.now.journal) ++ (count_line count ++ 10 ∷ [])) }
{
    journals_can_be_read();
    let mut out = write_journal(alloc, &outcome.journal)?.into_vec();
    out.reserve_exact(room_for(outcome.version, &outcome.ledger))?;
    push_count_line(&mut out, count)?;
    Ok(out)
}

/// The whole of an outcome's text, from all of it in front of the ledger. The one error is want of memory.
pub fn close_text(front: Vec<u8>, outcome: &Outcome) -> Result<Bytes, Memory>
    ensures { IfOk result (λ bytes. bytes.items
        ≡ front.items ++ ledger_text outcome.now.version outcome.now.ledger.entries.items outcome.now.ledger.totals) }
{
    let mut out = front;
    push_ledger(&mut out, outcome.version, &outcome.ledger)?;
    Ok(Bytes::from_vec(out))
}

/// The text of an outcome in lines: its journal, its reports and its ledger (`docs/FORMATS.md`, "The outcome"). The one error is
/// want of memory.
pub fn write_lines(alloc: Global, outcome: &Outcome) -> Result<Bytes, Memory>
    // Some valid workload and some lawful journal of it come to this outcome.
    requires { (W : PlainWorkload) × (J : PlainJournal) × IsValid W × IsLawful W J × IsOutcome W J outcome.now }
    ensures { IfOk result (λ bytes. (W : PlainWorkload) (J : PlainJournal) → IsValid W → IsLawful W J → IsOutcome W J outcome.now
        → bytes.items ≡ outcome_text W J Text) }
{
    let sorted = sort_out(alloc, outcome)?;
    let traces = sorted.traces.as_slice();
    let mut out = open_text(alloc, outcome, traces.len())?;
    push_reports(
        &mut out,
        outcome.version,
        &sorted.fates,
        &outcome.collector,
        traces,
    )?;
    close_text(out, outcome)
}

/// The total line of an outcome alone. The one error is want of memory.
pub fn write_total(alloc: Global, outcome: &Outcome) -> Result<Bytes, Memory>
    ensures { IfOk result (λ bytes. bytes.items ≡ text_of (total_line outcome.now.ledger.totals ∷ [])) }
{
    let mut out = Vec::new(alloc);
    push_totals(&mut out, &outcome.ledger.totals)?;
    Ok(Bytes::from_vec(out))
}
