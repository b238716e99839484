//! The text of an outcome in two parts, of which the second takes the room that the journal had.

ghost use Rattle.std.specs.Prelude.{◌≡◌, [], ◌∷◌, ◌++◌, List, map, length, IfOk};
ghost use Rattle.std.specs.List.{flat_map};
ghost use Rattle.hs_base.specs.declared.ids.TraceId.{TraceId};
ghost use Rattle.hs_collect.specs.Collected.{Placed};
ghost use Rattle.hs_records.specs.Journals.{HasItsLists, PlainJournal, journal_of};
ghost use Rattle.hs_journal.specs.Grammar.{journal_text};
ghost use Rattle.hs_law_journal.specs.Lawful.{IsLawful};
ghost use Rattle.hs_report.specs.OutcomeText.{ledger_text, outcome_text, report_lines};
ghost use Rattle.hs_report.specs.declared.form.Form.TheVariants.{Text};
ghost use Rattle.hs_ledger.specs.declared.ledger.Entry.{Entry};
ghost use Rattle.hs_records.specs.Plain.{PlainWorkload};
ghost use Rattle.hs_outcome.specs.Outcomes.{IsOutcome};
ghost use Rattle.hs_report.specs.Sorted.{AreSorted, count_line};
ghost use Rattle.hs_report.specs.Sources.{Hold, report_by};
ghost use Rattle.hs_text.specs.Text.{text_of};
ghost use Rattle.hs_records.specs.Validity.{IsValid};

use crate::fates::Sorted;
use crate::laws::journals_can_be_read;
use crate::ledger::push_ledger;
use crate::text::push_reports;
use crate::writing::{push_count_line, room_for, sort_out};
use hs_base::{Bytes, Memory};
use hs_collect::Collector;
use hs_journal::write_journal;
use hs_ledger::Ledger;
use hs_outcome::Outcome;
use hs_records::Journal;
use std::alloc::Global;

/// The text of an outcome: that of its journal, and what stands behind it.
#[derive(Drop)]
pub struct Parts {
    pub journal: Bytes,
    pub behind: Bytes,
}

/// What the text behind the journal is written from.
#[derive(Drop)]
pub struct Behind {
    pub version: u8,
    pub sorted: Sorted,
    pub ledger: Ledger,
    pub collector: Collector,
}

/// An outcome whose journal is a text already.
#[derive(Drop)]
pub struct Opened {
    pub journal: Bytes,
    pub behind: Behind,
}

/// The journal of an outcome, and what the text behind it is written from.
fn taken_apart(outcome: Outcome, sorted: Sorted) -> (Journal, Behind)
    ensures journal { result.0 ≡ outcome.journal }
    ensures version { result.1.version ≡ outcome.version }
    ensures sorted { result.1.sorted ≡ sorted }
    ensures ledger { result.1.ledger ≡ outcome.ledger }
    ensures collector { result.1.collector ≡ outcome.collector }
{
    let Outcome {
        version,
        journal,
        ledger,
        claimed: _,
        collector,
    } = outcome;
    let behind = Behind {
        version,
        sorted,
        ledger,
        collector,
    };
    (journal, behind)
}

/// The text of a journal, which is let go.
fn journal_part(alloc: Global, journal: Journal) -> Result<Bytes, Memory>
    requires { HasItsLists (journal_of journal) }
    ensures { IfOk result (λ text. text.items ≡ journal_text (journal_of journal)) }
{
    write_journal(alloc, &journal)
}

/// The outcome with its journal as a text. The journal itself is let go. The one error is want of memory.
pub fn open_parts(alloc: Global, outcome: Outcome) -> Result<Opened, Memory>
    // Some valid workload and some lawful journal of it come to this outcome.
    requires { (W : PlainWorkload) × (J : PlainJournal) × IsValid W × IsLawful W J × IsOutcome W J outcome }
    ensures journal { IfOk result (λ opened. opened.journal.items ≡ journal_text (journal_of outcome.journal)) }
    ensures version { IfOk result (λ opened. opened.behind.version ≡ outcome.version) }
    ensures ledger { IfOk result (λ opened. opened.behind.ledger ≡ outcome.ledger) }
    ensures collector { IfOk result (λ opened. opened.behind.collector ≡ outcome.collector) }
    ensures sorted { IfOk result (λ opened. (W : PlainWorkload) (J : PlainJournal) → IsValid W → IsLawful W J → IsOutcome W J outcome
        → AreSorted W J outcome opened.behind.sorted) }
{
    journals_can_be_read();
    let sorted = sort_out(alloc, &outcome)?;
    let (journal, behind) = taken_apart(outcome, sorted);
    let journal = journal_part(alloc, journal)?;
    Ok(Opened { journal, behind })
}

/// The line that counts the reports, with room for the ledger behind it. The one error is want of memory.
pub fn open_behind(alloc: Global, behind: &Behind) -> Result<Vec<u8>, Memory>
    ensures { IfOk result (λ out. out.items ≡ count_line (length behind.now.sorted.traces.items) ++ 10 ∷ []) }
{
    let mut out = Vec::with_capacity(alloc, room_for(behind.version, &behind.ledger))?;
    push_count_line(&mut out, behind.sorted.traces.len())?;
    Ok(out)
}

/// The reports in lines, and the ledger behind them.
fn lines_behind(alloc: Global, behind: &Behind) -> Result<Bytes, Memory>
    ensures { IfOk result (λ bytes. (entries : List Entry) (records : TraceId → List Placed) → Hold entries records behind.now.sorted.fates behind.now.collector
        → bytes.items ≡ ((count_line (length behind.now.sorted.traces.items) ++ 10 ∷ [])
        ++ text_of (flat_map (report_lines behind.now.version) (map (report_by entries records) behind.now.sorted.traces.items)))
        ++ ledger_text behind.now.version behind.now.ledger.entries.items behind.now.ledger.totals) }
{
    let traces = behind.sorted.traces.as_slice();
    let mut out = open_behind(alloc, behind)?;
    push_reports(
        &mut out,
        behind.version,
        &behind.sorted.fates,
        &behind.collector,
        traces,
    )?;
    push_ledger(&mut out, behind.version, &behind.ledger)?;
    Ok(Bytes::from_vec(out))
}

/// The text of an outcome in lines, in two parts. The journal is let go as soon as its text is there. The one error is want of
/// memory.
pub fn line_parts(alloc: Global, outcome: Outcome) -> Result<Parts, Memory>
    // Some valid workload and some lawful journal of it come to this outcome.
    requires { (W : PlainWorkload) × (J : PlainJournal) × IsValid W × IsLawful W J × IsOutcome W J outcome }
    ensures journal { IfOk result (λ parts. parts.journal.items ≡ journal_text (journal_of outcome.journal)) }
    ensures text { IfOk result (λ parts. (W : PlainWorkload) (J : PlainJournal) → IsValid W → IsLawful W J → IsOutcome W J outcome
        → parts.journal.items ++ parts.behind.items ≡ outcome_text W J Text) }
{
    let opened = open_parts(alloc, outcome)?;
    let behind = lines_behind(alloc, &opened.behind)?;
    let journal = opened.journal;
    Ok(Parts { journal, behind })
}
