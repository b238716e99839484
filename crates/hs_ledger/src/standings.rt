//! The fates of pages, from the agents' standings.

ghost use Rattle.std.specs.Prelude.{◌≡◌, ◌<◌, length, IfOk, OnOk, OnErr, None, map};
ghost use Rattle.std.specs.HashMap.{get};
ghost use Rattle.hs_base.specs.declared.ids.ClientId.{ClientId};
ghost use Rattle.hs_records.specs.Books.{agent_book_of};
ghost use Rattle.hs_ledger.specs.declared.standings.PageId.{PageId};
ghost use Rattle.hs_ledger.specs.Making.{page_eq, newest, all_standings, drawn_fate};

use hs_base::{ClientId, Fate, Memory};
use hs_records::{AgentBook, Draw, Standing};
use std::alloc::Global;
use std::collections::HashMap;

/// A page of a client, by its place among the client's pages, from 0.
#[derive(Clone, Copy, PartialEq, Eq, Hash)]
pub(crate) struct PageId {
    client: ClientId,
    page: usize,
}

/// Notes the fates of these standings.
fn add_standings(fates: &mut HashMap<PageId, Fate>, standings: &[Standing]) -> Result<(), Memory>
    ensures fates { OnOk result ((q : PageId) → get page_eq fates.new q ≡ newest (get page_eq fates.old q) q.client q.page standings.now) }
    ensures some { OnErr result (0 < length standings.now) }
{
    for standing in standings {
        let id = PageId {
            client: standing.client,
            page: standing.page as usize,
        };
        fates.insert(id, standing.fate)?;
    }
    Ok(())
}

/// How many standings these books have.
fn standing_count(agents: &[AgentBook]) -> usize
    ensures { length agents.now ≡ 0 → result ≡ 0 }
{
    let mut count: usize = 0;
    for book in agents {
        count = count.saturating_add(book.standings.len());
    }
    count
}

/// The fates of all pages that have a standing.
pub(crate) fn page_fates(
    alloc: Global,
    agents: &[AgentBook],
) -> Result<HashMap<PageId, Fate>, Memory>
    ensures fates { IfOk result (λ fates. (q : PageId) → get page_eq fates q ≡ newest None q.client q.page (all_standings (map agent_book_of agents.now))) }
    ensures some { OnErr result (0 < length agents.now) }
{
    let mut fates = HashMap::new(alloc);
    fates.reserve(standing_count(agents))?;
    for book in agents {
        add_standings(&mut fates, book.standings.as_slice())?;
    }
    Ok(fates)
}

/// The fate of a client's page with this draw: null where the pool was empty, and else that of its
/// standing, which each page with a buffer has.
pub(crate) fn page_fate(
    fates: &HashMap<PageId, Fate>,
    client: ClientId,
    page: usize,
    draw: Draw,
) -> Fate
    ensures { result ≡ drawn_fate (get page_eq fates.now (record { client = client; page = page })) draw }
{
    match draw {
        Draw::Empty { stamp } => Fate::Null { stamp },
        Draw::Got { .. } => {
            let id = PageId { client, page };
            fates.get(&id).copied().unwrap_or(Fate::Live)
        }
    }
}
