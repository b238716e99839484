//! Writing a workload.

ghost use Rattle.std.specs.Prelude.{◌≡◌, ◌<◌, ◌*◌, ◌≤◌, ◌++◌, ◌∷◌, [], map, length, decimal, codes, IfOk, OnOk};
ghost use Rattle.hs_base.specs.declared.limits.TheConstants.{MAX_AUTOS, MAX_CLIENTS, MAX_NODES};
ghost use Rattle.hs_text.specs.Text.{line_of};
ghost use Rattle.hs_text.specs.Writing.{spaced, trace_word};
ghost use Rattle.hs_records.specs.Plain.{Begin, Fire, Point};
ghost use Rattle.hs_records.specs.Views.{operation_of, operations_of, workload_of};
ghost use Rattle.hs_workload.specs.Settings.{all_settings};
ghost use Rattle.hs_records.specs.Settings.{setting_of};
ghost use Rattle.hs_workload.specs.Statements.{Declare, Watch, Operate, keyword_text, kind_text, statement_line};
ghost use Rattle.hs_workload.specs.Grammar.{statements_text, head_statements, auto_statements, client_statements, Reads};
ghost use Rattle.hs_records.specs.Validity.{IsValid};

use crate::word::{Keyword, Kind};
use hs_base::{AutoRule, Bytes, Laterals, List, Memory, TraceId, Trigger, TriggerRule};
use hs_records::{Op, Setting, Workload};
use hs_text::{
    Spelled, end_line, push_spaced, push_spaced_number, push_spaced_numbers, push_spaced_payload,
    push_spaced_trace,
};
use std::alloc::Global;

const SETTINGS: [Setting; 9] = [
    Setting::Version,
    Setting::Nodes,
    Setting::Clients,
    Setting::Buffers,
    Setting::Size,
    Setting::Threshold,
    Setting::Traces,
    Setting::Pins,
    Setting::Stride,
];

/// All settings in the order of their lines.
fn all_settings() -> &'static [Setting]
    ensures { result.now ≡ all_settings }
{
    &SETTINGS
}

/// A setting of a workload.
fn setting(workload: &Workload, setting: Setting) -> u32
    ensures { result ≡ setting_of (workload_of workload.now) setting }
{
    match setting {
        Setting::Version => u32::from(workload.version),
        Setting::Nodes => u32::from(workload.settings.nodes),
        Setting::Clients => u32::from(workload.settings.clients),
        Setting::Buffers => workload.settings.buffers,
        Setting::Size => workload.settings.size,
        Setting::Threshold => workload.settings.threshold,
        Setting::Traces => workload.settings.traces,
        Setting::Pins => workload.settings.pins,
        Setting::Stride => workload.settings.stride,
    }
}

/// Appends a line of this word and these numbers.
#[inline(always)]
fn push_line(out: &mut Vec<u8>, keyword: Keyword, numbers: &[u64]) -> Result<(), Memory>
    ensures { OnOk result (out.new.items ≡ out.old.items ++ (line_of (keyword_text keyword ∷ map decimal numbers.now) ++ 10 ∷ [])) }
{
    out.extend_from_slice(keyword.text())?;
    push_spaced_numbers(out, numbers)?;
    end_line(out)?;
    Ok(())
}

/// Appends the lines of the settings.
fn push_head(out: &mut Vec<u8>, workload: &Workload) -> Result<(), Memory>
    ensures { OnOk result (out.new.items ≡ out.old.items
        ++ statements_text workload.now.version (head_statements (workload_of workload.now))) }
{
    for name in all_settings() {
        let number = u64::from(setting(workload, *name));
        push_line(out, Keyword::Setting(*name), &[number])?;
    }
    Ok(())
}

/// Appends the lines of the trigger ids, which are the same in each version.
fn push_rules(out: &mut Vec<u8>, rules: &[TriggerRule]) -> Result<(), Memory>
    ensures { OnOk result (out.new.items ≡ out.old.items ++ statements_text 1 (map Declare rules.now)) }
{
    for rule in rules {
        let id = u64::from(rule.id.0);
        let weight = u64::from(rule.weight);
        let burst = u64::from(rule.burst);
        let rate = u64::from(rule.rate);
        push_line(out, Keyword::TriggerId, &[id, weight, burst, rate])?;
    }
    Ok(())
}

/// Appends the line of an autotrigger of this kind with these numbers.
fn push_kind(out: &mut Vec<u8>, number: u64, kind: Kind, numbers: &[u64]) -> Result<(), Memory>
    ensures { OnOk result (out.new.items ≡ out.old.items
        ++ (line_of (codes "auto" ∷ decimal number ∷ kind_text kind ∷ map decimal numbers.now) ++ 10 ∷ [])) }
{
    out.extend_from_slice(Keyword::Auto.text())?;
    push_spaced_number(out, number)?;
    push_spaced(out, kind.text())?;
    push_spaced_numbers(out, numbers)?;
    end_line(out)?;
    Ok(())
}

/// Appends the line of an autotrigger, which is the same in each version.
fn push_auto(out: &mut Vec<u8>, number: u64, rule: AutoRule) -> Result<(), Memory>
    ensures { OnOk result (out.new.items ≡ out.old.items ++ (statement_line 1 (Watch number rule) ++ 10 ∷ [])) }
{
    match rule {
        AutoRule::Exception { trigger } => {
            push_kind(out, number, Kind::Exception, &[u64::from(trigger.0)])
        }
        AutoRule::Percentile {
            trigger,
            window,
            share,
        } => {
            let numbers = [u64::from(trigger.0), u64::from(window), u64::from(share)];
            push_kind(out, number, Kind::Percentile, &numbers)
        }
        AutoRule::Category {
            trigger,
            window,
            share,
        } => {
            let numbers = [u64::from(trigger.0), u64::from(window), u64::from(share)];
            push_kind(out, number, Kind::Category, &numbers)
        }
        AutoRule::Queue {
            trigger,
            window,
            share,
            laterals,
        } => {
            let window = u64::from(window);
            let share = u64::from(share);
            let numbers = [u64::from(trigger.0), window, share, u64::from(laterals)];
            push_kind(out, number, Kind::Queue, &numbers)
        }
    }
}

/// Appends the lines of the autotriggers.
fn push_autos(out: &mut Vec<u8>, autos: &[AutoRule]) -> Result<(), Memory>
    requires { length autos.now ≤ MAX_AUTOS }
    ensures { OnOk result (out.new.items ≡ out.old.items ++ statements_text 1 (auto_statements 0 autos.now)) }
{
    let mut number: u64 = 0;
    for rule in autos {
        push_auto(out, number, *rule)?;
        number += 1;
    }
    Ok(())
}

/// Appends laterals, each behind a space.
fn push_laterals(out: &mut Vec<u8>, version: u8, laterals: &Laterals) -> Result<(), Memory>
    ensures { OnOk result (out.new.items ≡ out.old.items ++ spaced (map (trace_word version) laterals.now)) }
{
    for place in 0..laterals.len() {
        let Some(trace) = laterals.get(place) else {
            unreachable!()
        };
        push_spaced_trace(out, version, trace)?;
    }
    Ok(())
}

/// Appends the line of a trigger.
fn push_trigger(out: &mut Vec<u8>, version: u8, trigger: &Trigger) -> Result<(), Memory>
    ensures { OnOk result (out.new.items ≡ out.old.items ++ (statement_line version (Operate (Fire trigger.now)) ++ 10 ∷ [])) }
{
    out.extend_from_slice(Keyword::Trigger.text())?;
    push_spaced_number(out, trigger.moment)?;
    push_spaced_number(out, u64::from(trigger.trigger.0))?;
    push_spaced_trace(out, version, trigger.lead)?;
    push_laterals(out, version, &trigger.laterals)?;
    end_line(out)?;
    Ok(())
}

/// Appends the line that begins a trace.
fn push_begin(out: &mut Vec<u8>, version: u8, trace: TraceId) -> Result<(), Memory>
    ensures { OnOk result (out.new.items ≡ out.old.items ++ (statement_line version (Operate (Begin trace)) ++ 10 ∷ [])) }
{
    out.extend_from_slice(Keyword::Begin.text())?;
    push_spaced_trace(out, version, trace)?;
    end_line(out)?;
    Ok(())
}

/// Appends the line of a record, which is the same in each version.
fn push_point(out: &mut Vec<u8>, moment: u64, payload: &[u8]) -> Result<(), Memory>
    ensures { OnOk result (out.new.items ≡ out.old.items ++ (statement_line 1 (Operate (Point moment payload.now)) ++ 10 ∷ [])) }
{
    out.extend_from_slice(Keyword::Point.text())?;
    push_spaced_number(out, moment)?;
    push_spaced_payload(out, payload)?;
    end_line(out)?;
    Ok(())
}

/// Appends the line of an operation.
fn push_operation(out: &mut Vec<u8>, version: u8, operation: &Op) -> Result<(), Memory>
    ensures { OnOk result (out.new.items ≡ out.old.items
        ++ (statement_line version (Operate (operation_of operation.now)) ++ 10 ∷ [])) }
{
    match operation {
        Op::Begin { trace } => push_begin(out, version, *trace),
        Op::Point { moment, payload } => push_point(out, *moment, payload.as_slice()),
        Op::Crumb { node } => push_line(out, Keyword::Crumb, &[u64::from(node.0)]),
        Op::End => push_line(out, Keyword::End, &[]),
        Op::Trigger { trigger } => push_trigger(out, version, trigger),
        Op::Sample {
            moment,
            auto,
            value,
        } => push_line(out, Keyword::Sample, &[*moment, u64::from(*auto), *value]),
    }
}

/// Appends a client's operations.
fn push_operations(out: &mut Vec<u8>, version: u8, operations: &[Op]) -> Result<(), Memory>
    ensures { OnOk result (out.new.items ≡ out.old.items
        ++ statements_text version (map Operate (map operation_of operations.now))) }
{
    for operation in operations {
        push_operation(out, version, operation)?;
    }
    Ok(())
}

/// Appends all clients, where each node has so many.
fn push_clients(
    out: &mut Vec<u8>,
    version: u8,
    each: u16,
    clients: &[List<Op>],
) -> Result<(), Memory>
    requires some { 0 < each }
    requires few { length clients.now ≤ MAX_NODES * MAX_CLIENTS }
    ensures { OnOk result (out.new.items ≡ out.old.items
        ++ statements_text version (client_statements each 0 (map operations_of clients.now))) }
{
    let each = u64::from(each);
    let mut client: u64 = 0;
    for operations in clients {
        push_line(out, Keyword::Client, &[client / each, client % each])?;
        push_operations(out, version, operations.as_slice())?;
        client += 1;
    }
    Ok(())
}

/// The text of a valid workload, which reads as that workload and no other.
pub fn write_workload(alloc: Global, workload: &Workload) -> Result<Bytes, Memory>
    requires { IsValid (workload_of workload.now) }
    ensures { IfOk result (λ text. Reads text.items (workload_of workload.now)) }
{
    let settings = &workload.settings;
    let mut out = Vec::new(alloc);
    push_head(&mut out, workload)?;
    push_rules(&mut out, settings.triggers.as_slice())?;
    push_autos(&mut out, settings.autos.as_slice())?;
    let clients = workload.clients.as_slice();
    push_clients(&mut out, workload.version, settings.clients, clients)?;
    push_line(&mut out, Keyword::Done, &[])?;
    Ok(List::from_vec(out))
}
