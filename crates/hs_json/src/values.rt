//! The reports as JSON.

ghost use Rattle.std.specs.Prelude.{◌≡◌, not, [], ◌∷◌, ◌++◌, List, map, filter, codes, IfOk, OnOk};
ghost use Rattle.hs_base.specs.declared.ids.TraceId.{TraceId};
ghost use Rattle.hs_collect.specs.Collected.{Placed};
ghost use Rattle.hs_collect.specs.Views.{placed_of};
ghost use Rattle.hs_ledger.specs.declared.ledger.Entry.{Entry};
ghost use Rattle.hs_ledger.specs.Totals.{is_reported as reported_by};
ghost use Rattle.hs_law_outcome.specs.CollectedReports.{reported_wholes};
ghost use Rattle.hs_report.specs.OutcomeText.{json_list, json_text, placed_json, gap_json, report_json};
ghost use Rattle.hs_report.specs.Fates.{AreFatesOf};
ghost use Rattle.hs_json.specs.Spelling.{ArePlain, Spells, SpellEach, Texts, id_data};
ghost use Rattle.hs_report.specs.Sources.{Hold, report_by};
ghost use Rattle.hs_text.specs.Text.{payload_text};
ghost use Rattle.hs_base.specs.Ids.{trace_digits};
ghost use Rattle.hs_text.specs.Writing.{trace_word};
ghost use Rattle.serde_json.specs.Data.{object, member, no_members, put as with_member};
ghost use Rattle.serde_json.specs.View.{view, members_view};

use hs_base::{Memory, RecordId, TraceId};
use hs_collect::{Collector, TraceRecord};
use hs_ledger::{Entry, is_reported};
use hs_report::{Fates, push_fate};
use hs_text::{end_line, push_hex, push_payload};
use serde_json::{Map, Value, put};
use std::alloc::Global;

/// A text as a JSON string.
fn text_value(text: Vec<u8>) -> Value
    requires { ArePlain text.items }
    ensures { Spells result (json_text text.items) }
{
    match String::from_utf8(text) {
        Ok(text) => Value::String(text),
        Err(_) => unreachable!(),
    }
}

/// The node, the client and the number of a record as JSON, with room for more.
fn id_values(alloc: Global, id: RecordId) -> Result<Vec<Value>, Memory>
    ensures { IfOk result (λ values. map view values.items ≡ id_data id) }
{
    let mut values = Vec::with_capacity(alloc, 5)?;
    values.push(Value::from(id.client.node))?;
    values.push(Value::from(id.client.number))?;
    values.push(Value::from(id.number))?;
    Ok(values)
}

/// A payload as JSON.
fn payload_value(alloc: Global, payload: &[u8]) -> Result<Value, Memory>
    ensures { IfOk result (λ value. Spells value (json_text (payload_text payload.now))) }
{
    let mut text = Vec::new(alloc);
    push_payload(&mut text, payload)?;
    Ok(text_value(text))
}

/// A record as JSON.
fn record_value(alloc: Global, whole: &TraceRecord) -> Result<Value, Memory>
    ensures { IfOk result (λ value. Spells value (placed_json (placed_of whole.now))) }
{
    let mut values = id_values(alloc, whole.id)?;
    values.push(Value::from(whole.moment))?;
    values.push(payload_value(alloc, whole.payload.as_slice())?)?;
    Ok(Value::Array(values))
}

/// Appends a record that was reported, and of another one nothing.
fn push_shown(
    values: &mut Vec<Value>,
    alloc: Global,
    fates: &Fates,
    whole: &TraceRecord,
) -> Result<(), Memory>
    ensures { OnOk result ((entries : List Entry) (texts : Texts) → AreFatesOf entries fates.now → SpellEach values.old.items texts
        → SpellEach values.new.items (texts ++ map placed_json (reported_wholes entries (placed_of whole.now ∷ [])))) }
{
    if !fates.was_reported(whole.id) {
        return Ok(());
    }
    values.push(record_value(alloc, whole)?)?;
    Ok(())
}

/// Those of these records that were reported, as JSON.
fn record_values(
    alloc: Global,
    fates: &Fates,
    records: &[TraceRecord],
) -> Result<Vec<Value>, Memory>
    ensures { IfOk result (λ values. (entries : List Entry) → AreFatesOf entries fates.now
        → SpellEach values.items (map placed_json (reported_wholes entries (map placed_of records.now)))) }
{
    let mut values = Vec::new(alloc);
    for whole in records {
        push_shown(&mut values, alloc, fates, whole)?;
    }
    Ok(values)
}

/// A gap as JSON.
fn gap_value(alloc: Global, version: u8, entry: &Entry) -> Result<Value, Memory>
    ensures { IfOk result (λ value. Spells value (gap_json version entry.now)) }
{
    let mut values = id_values(alloc, entry.id)?;
    let mut fate = Vec::new(alloc);
    push_fate(&mut fate, version, &entry.fate)?;
    values.push(text_value(fate))?;
    Ok(Value::Array(values))
}

/// Appends a gap where the entry's record was not reported, and else nothing.
fn push_unreported(
    values: &mut Vec<Value>,
    alloc: Global,
    version: u8,
    entry: &Entry,
) -> Result<(), Memory>
    ensures { OnOk result ((texts : Texts) → SpellEach values.old.items texts → SpellEach values.new.items
        (texts ++ map (gap_json version) (filter (λ entry. not (reported_by entry.fate)) (entry.now ∷ [])))) }
{
    if is_reported(entry.fate) {
        return Ok(());
    }
    values.push(gap_value(alloc, version, entry)?)?;
    Ok(())
}

/// Those of these entries whose record was not reported, as JSON.
fn gap_values(alloc: Global, version: u8, entries: &[Entry]) -> Result<Vec<Value>, Memory>
    ensures { IfOk result (λ values. SpellEach values.items
        (map (gap_json version) (filter (λ entry. not (reported_by entry.fate)) entries.now))) }
{
    let mut values = Vec::new(alloc);
    for entry in entries {
        push_unreported(&mut values, alloc, version, entry)?;
    }
    Ok(values)
}

/// The records of a trace that were reported, as JSON.
fn collected_values(
    alloc: Global,
    fates: &Fates,
    collector: &Collector,
    trace: TraceId,
) -> Result<Vec<Value>, Memory>
    ensures { IfOk result (λ values. (entries : List Entry) (records : TraceId → List Placed) → Hold entries records fates.now collector.now
        → SpellEach values.items (map placed_json (records trace))) }
{
    match collector.trace(trace) {
        Some(records) => record_values(alloc, fates, records.entries.as_slice()),
        None => Ok(Vec::new(alloc)),
    }
}

/// The number of digits of a trace.
fn digits(version: u8) -> u32
    ensures { result ≡ trace_digits version }
{
    if version == 1 { 16 } else { 32 }
}

/// A trace as JSON.
fn trace_value(alloc: Global, version: u8, trace: TraceId) -> Result<Value, Memory>
    ensures { IfOk result (λ value. Spells value (json_text (trace_word version trace))) }
{
    let mut text = Vec::new(alloc);
    push_hex(&mut text, digits(version), trace.0)?;
    Ok(text_value(text))
}

/// Adds the records and the trace of a report to its members.
fn put_shown(
    members: &mut Map<String, Value>,
    alloc: Global,
    records: Value,
    trace: Value,
) -> Result<(), Memory>
    ensures { OnOk result (members_view members.new.entries
        ≡ with_member (codes "trace") (view trace) (with_member (codes "records") (view records) (members_view members.old.entries))) }
{
    put(members, alloc, "records", records)?;
    put(members, alloc, "trace", trace)?;
    Ok(())
}

/// An object of these members.
fn report_object(alloc: Global, gaps: Value, records: Value, trace: Value) -> Result<Value, Memory>
    ensures { IfOk result (λ value. view value ≡ object (member (codes "gaps") (view gaps)
        (member (codes "records") (view records) (member (codes "trace") (view trace) no_members)))) }
{
    let mut members = Map::new(alloc);
    put(&mut members, alloc, "gaps", gaps)?;
    put_shown(&mut members, alloc, records, trace)?;
    Ok(Value::Object(members))
}

/// The report of a trace as JSON.
fn report_value(
    alloc: Global,
    version: u8,
    fates: &Fates,
    collector: &Collector,
    trace: TraceId,
) -> Result<Value, Memory>
    ensures { IfOk result (λ value. (entries : List Entry) (records : TraceId → List Placed) → Hold entries records fates.now collector.now
        → Spells value (report_json version (report_by entries records trace))) }
{
    let gaps = gap_values(alloc, version, fates.of(trace))?;
    let records = collected_values(alloc, fates, collector, trace)?;
    let trace = trace_value(alloc, version, trace)?;
    report_object(alloc, Value::Array(gaps), Value::Array(records), trace)
}

/// The reports of these traces as JSON.
fn reports_value(
    alloc: Global,
    version: u8,
    fates: &Fates,
    collector: &Collector,
    traces: &[TraceId],
) -> Result<Value, Memory>
    ensures { IfOk result (λ value. (entries : List Entry) (records : TraceId → List Placed) → Hold entries records fates.now collector.now
        → Spells value (json_list (map (report_json version) (map (report_by entries records) traces.now)))) }
{
    let mut reports = Vec::with_capacity(alloc, traces.len())?;
    for trace in traces {
        reports.push(report_value(alloc, version, fates, collector, *trace)?)?;
    }
    Ok(Value::Array(reports))
}

/// Appends the line with the reports of these traces.
pub(crate) fn push_json(
    out: &mut Vec<u8>,
    alloc: Global,
    version: u8,
    fates: &Fates,
    collector: &Collector,
    traces: &[TraceId],
) -> Result<(), Memory>
    ensures { OnOk result ((entries : List Entry) (records : TraceId → List Placed) → Hold entries records fates.now collector.now
        → out.new.items ≡ out.old.items ++ (json_list (map (report_json version) (map (report_by entries records) traces.now)) ++ 10 ∷ [])) }
{
    let reports = reports_value(alloc, version, fates, collector, traces)?;
    out.extend_from_slice(reports.to_vec(alloc)?.as_slice())?;
    end_line(out)
}
