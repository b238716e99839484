//! The reported pages, and what a collector joins of them.

ghost use Rattle.std.specs.Prelude.{◌++◌, map, IfOk, OnOk};
ghost use Rattle.hs_base.specs.declared.ids.TraceId.{TraceId};
ghost use Rattle.hs_collect.specs.Collected.{AreCollected, CanBeAdded};
ghost use Rattle.hs_words.specs.Pages.{Sheet};
ghost use Rattle.hs_words.specs.Reading.{Spells};
ghost use Rattle.hs_collect.specs.Views.{Sheets};
ghost use Rattle.hs_outcome.specs.Pages.{SpellAll, JoinsAs, AreRead, AreReported, Reordered, all_sent, bytes_of};

use hs_base::{Bytes, ClientId, Memory, TraceId};
use hs_collect::{Collector, reordered_pages_collect_the_same, runs_decide_the_records};
use hs_records::AgentBook;
use hs_words::{pages_have_bytes_of_their_own, read_page};
use indexmap::IndexSet;
use std::alloc::Global;

/// A reported page with its client, and with the place of its trace among those that were seen.
#[derive(Drop)]
pub(crate) struct Reported<'a> {
    seen: usize,
    client: ClientId,
    bytes: &'a [u8],
}

/// The page with these bytes. Its trace joins those that were seen.
fn read_reported<'a>(
    alloc: Global,
    traces: &mut IndexSet<TraceId>,
    bytes: &'a [u8],
) -> Result<Reported<'a>, Memory>
    requires { (sheet : Sheet) × Spells sheet bytes.now }
    ensures { IfOk result (λ page. (sheet : Sheet) → Spells sheet bytes.now
        → JoinsAs sheet traces.old.keys traces.new.keys page) }
{
    let Ok(page) = read_page(alloc, bytes) else {
        return Err(Memory);
    };
    let (seen, _) = traces.insert_full(page.header.trace)?;
    Ok(Reported {
        seen,
        client: page.header.client,
        bytes,
    })
}

/// Appends the pages with these bytes, whose traces join those that were seen.
fn push_reported<'a>(
    pages: &mut Vec<Reported<'a>>,
    traces: &mut IndexSet<TraceId>,
    alloc: Global,
    sent: &'a [Bytes],
) -> Result<(), Memory>
    requires { (sheets : Sheets) × SpellAll sheets (map (λ page. page.items) sent.now) }
    ensures { OnOk result ((before sheets : Sheets) → AreRead before traces.old.keys pages.old.items
        → SpellAll sheets (map (λ page. page.items) sent.now)
        → AreRead (before ++ sheets) traces.new.keys pages.new.items) }
{
    for bytes in sent {
        pages.push(read_reported(alloc, traces, bytes.as_slice())?)?;
    }
    Ok(())
}

/// The pages that the agents reported, agent by agent.
fn reported_pages<'a>(alloc: Global, agents: &'a [AgentBook]) -> Result<Vec<Reported<'a>>, Memory>
    requires { (sheets : Sheets) × SpellAll sheets (all_sent agents.now) }
    ensures { IfOk result (λ pages. (sheets : Sheets) → SpellAll sheets (all_sent agents.now) → AreReported sheets pages.items) }
{
    let mut pages = Vec::new(alloc);
    let mut traces = IndexSet::new(alloc);
    for book in agents {
        push_reported(&mut pages, &mut traces, alloc, book.sent.as_slice())?;
    }
    Ok(pages)
}

/// Puts the pages of each trace together, client by client, and keeps the order in which the traces were first
/// seen and that of the pages of each client. So a collector joins each page behind those before it.
fn sort_pages(pages: &mut Vec<Reported<'_>>) -> Result<(), Memory>
    ensures { OnOk result ((sheets : Sheets) → AreReported sheets pages.old.items
        → Reordered sheets pages.new.items) }
{
    pages_have_bytes_of_their_own();
    pages.sort_by_key(|page| (page.seen, page.client))?;
    Ok(())
}

/// A collector to which these pages were added.
fn collect(alloc: Global, pages: &[Reported<'_>]) -> Result<Collector, Memory>
    requires { (sheets : Sheets) × SpellAll sheets (bytes_of pages.now) × CanBeAdded sheets }
    ensures { IfOk result (λ collector. (sheets : Sheets) → SpellAll sheets (bytes_of pages.now) → CanBeAdded sheets
        → AreCollected sheets collector) }
{
    let mut collector = Collector::make(alloc)?;
    for page in pages {
        collector.add(page.bytes)?;
    }
    Ok(collector)
}

/// What the collector joins of the pages that the agents reported, agent by agent.
pub(crate) fn collected(alloc: Global, agents: &[AgentBook]) -> Result<Collector, Memory>
    requires { (sheets : Sheets) × SpellAll sheets (all_sent agents.now) × CanBeAdded sheets }
    ensures { IfOk result (λ collector. (sheets : Sheets) → SpellAll sheets (all_sent agents.now) → CanBeAdded sheets
        → AreCollected sheets collector) }
{
    runs_decide_the_records();
    reordered_pages_collect_the_same();
    let mut pages = reported_pages(alloc, agents)?;
    sort_pages(&mut pages)?;
    collect(alloc, pages.as_slice())
}
