//! The reports as lines.

ghost use Rattle.std.specs.Prelude.{◌≡◌, not, [], ◌∷◌, ◌++◌, List, map, filter, OnOk};
ghost use Rattle.std.specs.List.{flat_map};
ghost use Rattle.hs_base.specs.declared.ids.TraceId.{TraceId};
ghost use Rattle.hs_collect.specs.Collected.{Placed};
ghost use Rattle.hs_collect.specs.Views.{placed_of};
ghost use Rattle.hs_ledger.specs.declared.ledger.Entry.{Entry};
ghost use Rattle.hs_ledger.specs.Totals.{is_reported as reported_by};
ghost use Rattle.hs_law_outcome.specs.CollectedReports.{reported_wholes};
ghost use Rattle.hs_report.specs.OutcomeText.{placed_line, gap_line, report_lines};
ghost use Rattle.hs_report.specs.Fates.{AreFatesOf};
ghost use Rattle.hs_report.specs.Sources.{Hold, report_by};
ghost use Rattle.hs_text.specs.Text.{text_of};

use crate::fates::Fates;
use crate::ledger::push_fate;
use hs_base::{Memory, TraceId};
use hs_collect::{Collector, TraceRecord};
use hs_ledger::{Entry, is_reported};
use hs_text::{end_line, push_number, push_spaced_number, push_spaced_payload, push_spaced_trace};

/// Appends a record's line.
fn push_record(out: &mut Vec<u8>, whole: &TraceRecord) -> Result<(), Memory>
    ensures { OnOk result (out.new.items ≡ out.old.items ++ (placed_line (placed_of whole.now) ++ 10 ∷ [])) }
{
    push_number(out, u64::from(whole.id.client.node))?;
    push_spaced_number(out, u64::from(whole.id.client.number))?;
    push_spaced_number(out, u64::from(whole.id.number))?;
    push_spaced_number(out, whole.moment)?;
    push_spaced_payload(out, whole.payload.as_slice())?;
    end_line(out)
}

/// Appends the line of a record that was reported, and of another one nothing.
fn push_shown(out: &mut Vec<u8>, fates: &Fates, whole: &TraceRecord) -> Result<(), Memory>
    ensures { OnOk result ((entries : List Entry) → AreFatesOf entries fates.now
        → out.new.items ≡ out.old.items ++ text_of (map placed_line (reported_wholes entries (placed_of whole.now ∷ [])))) }
{
    if !fates.was_reported(whole.id) {
        return Ok(());
    }
    push_record(out, whole)
}

/// Appends a line for each of these records that was reported.
fn push_records(out: &mut Vec<u8>, fates: &Fates, records: &[TraceRecord]) -> Result<(), Memory>
    ensures { OnOk result ((entries : List Entry) → AreFatesOf entries fates.now
        → out.new.items ≡ out.old.items ++ text_of (map placed_line (reported_wholes entries (map placed_of records.now)))) }
{
    for whole in records {
        push_shown(out, fates, whole)?;
    }
    Ok(())
}

/// Appends the line of a gap.
fn push_gap(out: &mut Vec<u8>, version: u8, entry: &Entry) -> Result<(), Memory>
    ensures { OnOk result (out.new.items ≡ out.old.items ++ (gap_line version entry.now ++ 10 ∷ [])) }
{
    out.extend_from_slice(b"gap")?;
    push_spaced_number(out, u64::from(entry.id.client.node))?;
    push_spaced_number(out, u64::from(entry.id.client.number))?;
    push_spaced_number(out, u64::from(entry.id.number))?;
    out.extend_from_slice(b" ")?;
    push_fate(out, version, &entry.fate)?;
    end_line(out)
}

/// Appends the line of a gap where the entry's record was not reported, and else nothing.
fn push_unreported(out: &mut Vec<u8>, version: u8, entry: &Entry) -> Result<(), Memory>
    ensures { OnOk result (out.new.items ≡ out.old.items
        ++ text_of (map (gap_line version) (filter (λ entry. not (reported_by entry.fate)) (entry.now ∷ [])))) }
{
    if is_reported(entry.fate) {
        return Ok(());
    }
    push_gap(out, version, entry)
}

/// Appends a line for each of these entries whose record was not reported.
fn push_gaps(out: &mut Vec<u8>, version: u8, entries: &[Entry]) -> Result<(), Memory>
    ensures { OnOk result (out.new.items ≡ out.old.items
        ++ text_of (map (gap_line version) (filter (λ entry. not (reported_by entry.fate)) entries.now))) }
{
    for entry in entries {
        push_unreported(out, version, entry)?;
    }
    Ok(())
}

/// Appends a line for each record of a trace that was reported.
fn push_collected(
    out: &mut Vec<u8>,
    fates: &Fates,
    collector: &Collector,
    trace: TraceId,
) -> Result<(), Memory>
    ensures { OnOk result ((entries : List Entry) (records : TraceId → List Placed) → Hold entries records fates.now collector.now
        → out.new.items ≡ out.old.items ++ text_of (map placed_line (records trace))) }
{
    match collector.trace(trace) {
        Some(records) => push_records(out, fates, records.entries.as_slice()),
        None => Ok(()),
    }
}

/// Appends the report of a trace.
fn push_report(
    out: &mut Vec<u8>,
    version: u8,
    fates: &Fates,
    collector: &Collector,
    trace: TraceId,
) -> Result<(), Memory>
    ensures { OnOk result ((entries : List Entry) (records : TraceId → List Placed) → Hold entries records fates.now collector.now
        → out.new.items ≡ out.old.items ++ text_of (report_lines version (report_by entries records trace))) }
{
    out.extend_from_slice(b"report")?;
    push_spaced_trace(out, version, trace)?;
    end_line(out)?;
    push_collected(out, fates, collector, trace)?;
    push_gaps(out, version, fates.of(trace))
}

/// Appends the reports of these traces.
pub(crate) fn push_reports(
    out: &mut Vec<u8>,
    version: u8,
    fates: &Fates,
    collector: &Collector,
    traces: &[TraceId],
) -> Result<(), Memory>
    ensures { OnOk result ((entries : List Entry) (records : TraceId → List Placed) → Hold entries records fates.now collector.now
        → out.new.items ≡ out.old.items ++ text_of (flat_map (report_lines version) (map (report_by entries records) traces.now))) }
{
    for trace in traces {
        push_report(out, version, fates, collector, *trace)?;
    }
    Ok(())
}
