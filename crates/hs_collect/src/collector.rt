//! The collector.

ghost use Rattle.std.specs.Prelude.{◌≡◌, ◌≢◌, [], ◌∷◌, ◌++◌, filter, IfOk, IsOk, OnOk, OnErr, MatchOption};
ghost use Rattle.indexmap.specs.IndexMap.{keys};
ghost use Rattle.hs_words.specs.Pages.{Sheet};
ghost use Rattle.hs_words.specs.Reading.{Spells};
ghost use Rattle.hs_collect.specs.Collected.{AreCollected, AreWholes, CanBeAdded, is_of, pieces_of, first_seen};
ghost use Rattle.hs_collect.specs.Views.{Sheets, wholes_of};

use crate::records::TraceRecords;
use hs_base::{List, Memory, TraceId};
use hs_words::read_page;
use indexmap::IndexMap;
use std::alloc::Global;
use std::marker::Model;

/// The traces of a map, in its order.
fn key_list(
    alloc: Global,
    traces: &IndexMap<TraceId, TraceRecords>,
) -> Result<List<TraceId>, Memory>
    ensures { IfOk result (λ list. list.items ≡ keys traces.now) }
{
    let list = traces.keys().copied().collect(alloc)?;
    Ok(List::from_vec(list))
}

/// Joins the records of each trace from its pages (`docs/RULES.md`, "The collector"). Contracts speak
/// of the lists of pages that collect what it has.
#[derive(Drop)]
pub struct Collector {
    alloc: Global,
    traces: IndexMap<TraceId, TraceRecords>,
}

impl Model for Collector {
    ghost use Rattle.hs_collect.specs.Views.{Collection, collection_of};

    ghost Value = { Collection };

    ghost view = { λ a. collection_of a.traces.entries };
}

impl Collector {
    /// A collector to which no page was added. It is always made.
    pub fn make(alloc: Global) -> Result<Collector, Memory>
        ensures empty { IfOk result (λ collector. AreCollected [] collector) }
        ensures made { IsOk result }
    {
        Ok(Collector {
            alloc,
            traces: IndexMap::new(alloc),
        })
    }

    /// Adds a page, by its bytes. After `Memory` the collector is as it was.
    pub fn add(&mut self, bytes: &[u8]) -> Result<(), Memory>
        // The bytes are those of a page that can be added behind the pages before it.
        requires { (sheets : Sheets) × (sheet : Sheet) × AreCollected sheets self.old
            × Spells sheet bytes.now × CanBeAdded (sheets ++ sheet ∷ []) }
        ensures ok { OnOk result ((sheets : Sheets) (sheet : Sheet) → AreCollected sheets self.old
            → Spells sheet bytes.now → AreCollected (sheets ++ sheet ∷ []) self.new) }
        ensures memory { OnErr result (self.new ≡ self.old) }
    {
        let Ok(page) = read_page(self.alloc, bytes) else {
            return Err(Memory);
        };
        let trace = page.header.trace;
        if let Some(records) = self.traces.get_mut(&trace) {
            return records.add(page);
        }
        let mut records = TraceRecords::none(self.alloc);
        records.add(page)?;
        self.traces.insert(trace, records)?;
        Ok(())
    }

    /// The records of a trace, or `None` where no page of it was added.
    pub fn trace(&self, trace: TraceId) -> Option<&TraceRecords>
        ensures { (sheets : Sheets) → AreCollected sheets self.now → MatchOption result
            (filter (is_of trace) sheets ≡ [])
            (λ records. (filter (is_of trace) sheets ≢ [])
            × AreWholes (pieces_of trace sheets) (wholes_of records.now)) }
    {
        self.traces.get(&trace)
    }

    /// The traces, in the order of their first pages.
    pub fn traces(&self) -> Result<List<TraceId>, Memory>
        ensures { IfOk result (λ traces. (sheets : Sheets) → AreCollected sheets self.now
            → traces.items ≡ first_seen sheets) }
    {
        key_list(self.alloc, &self.traces)
    }
}
