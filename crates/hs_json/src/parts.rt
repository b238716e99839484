//! The text of an outcome with its reports as JSON, in two parts, of which the second takes the room that the journal had.

ghost use Rattle.std.specs.Prelude.{◌≡◌, [], ◌∷◌, ◌++◌, List, map, length, IfOk};
ghost use Rattle.hs_base.specs.declared.ids.TraceId.{TraceId};
ghost use Rattle.hs_collect.specs.Collected.{Placed};
ghost use Rattle.hs_journal.specs.Grammar.{journal_text};
ghost use Rattle.hs_records.specs.Journals.{PlainJournal, journal_of};
ghost use Rattle.hs_law_journal.specs.Lawful.{IsLawful};
ghost use Rattle.hs_report.specs.OutcomeText.{json_list, ledger_text, outcome_text, report_json};
ghost use Rattle.hs_report.specs.declared.form.Form.TheVariants.{Json};
ghost use Rattle.hs_ledger.specs.declared.ledger.Entry.{Entry};
ghost use Rattle.hs_records.specs.Plain.{PlainWorkload};
ghost use Rattle.hs_outcome.specs.Outcomes.{IsOutcome};
ghost use Rattle.hs_report.specs.Sorted.{count_line};
ghost use Rattle.hs_report.specs.Sources.{Hold, report_by};
ghost use Rattle.hs_records.specs.Validity.{IsValid};

use crate::values::push_json;
use hs_base::{Bytes, Memory};
use hs_outcome::Outcome;
use hs_report::{Behind, Parts, open_behind, open_parts, push_ledger};
use std::alloc::Global;

/// The reports as JSON, and the ledger behind them.
fn json_behind(alloc: Global, behind: &Behind) -> Result<Bytes, Memory>
    ensures { IfOk result (λ bytes. (entries : List Entry) (records : TraceId → List Placed) → Hold entries records behind.now.sorted.fates behind.now.collector
        → bytes.items ≡ ((count_line (length behind.now.sorted.traces.items) ++ 10 ∷ [])
        ++ (json_list (map (report_json behind.now.version) (map (report_by entries records) behind.now.sorted.traces.items)) ++ 10 ∷ []))
        ++ ledger_text behind.now.version behind.now.ledger.entries.items behind.now.ledger.totals) }
{
    let traces = behind.sorted.traces.as_slice();
    let fates = &behind.sorted.fates;
    let mut out = open_behind(alloc, behind)?;
    push_json(
        &mut out,
        alloc,
        behind.version,
        fates,
        &behind.collector,
        traces,
    )?;
    push_ledger(&mut out, behind.version, &behind.ledger)?;
    Ok(Bytes::from_vec(out))
}

/// The text of an outcome with its reports as JSON, in two parts.
pub(crate) fn json_parts(alloc: Global, outcome: Outcome) -> Result<Parts, Memory>
    requires { (W : PlainWorkload) × (J : PlainJournal) × IsValid W × IsLawful W J × IsOutcome W J outcome }
    ensures journal { IfOk result (λ parts. parts.journal.items ≡ journal_text (journal_of outcome.journal)) }
    ensures text { IfOk result (λ parts. (W : PlainWorkload) (J : PlainJournal) → IsValid W → IsLawful W J → IsOutcome W J outcome
        → parts.journal.items ++ parts.behind.items ≡ outcome_text W J Json) }
{
    let opened = open_parts(alloc, outcome)?;
    let behind = json_behind(alloc, &opened.behind)?;
    let journal = opened.journal;
    Ok(Parts { journal, behind })
}
