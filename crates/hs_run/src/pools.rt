//! The pools are closed, and the agents' books taken.

ghost use Rattle.std.specs.Prelude.{map, IfOk};
ghost use Rattle.hs_records.specs.Books.{agent_book_of};
ghost use Rattle.hs_run.specs.Ended.{MayFinish, HaveFinished, items_of};

use hs_base::{List, Memory};
use hs_records::AgentBook;
use hs_ring::Drawer;
use hs_run_actors::ClosedAgent;
use std::alloc::Global;

/// Closes the pool of each node, with its drawers, and answers the books of the agents.
pub(crate) fn close_pools(
    alloc: Global,
    nodes: List<ClosedAgent>,
    drawers: List<List<Drawer>>,
) -> Result<List<AgentBook>, Memory>
    requires { MayFinish nodes.items (items_of drawers.items) }
    ensures { IfOk result (λ books. HaveFinished nodes.items (items_of drawers.items) (map agent_book_of books.items)) }
{
    let mut books = List::new(alloc);
    for (node, ends) in nodes.into_vec().into_iter().zip(drawers.into_vec()) {
        let book = node.finish(ends)?;
        books.append(book)?;
    }
    Ok(books)
}
