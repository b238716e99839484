//! What the clients of a node leave when all their operations are done.

ghost use Rattle.std.specs.Prelude.{◌≡◌, ◌∷◌, ◌++◌, [], map, IfOk, OnOk};
ghost use Rattle.std.specs.List.{AllByRecursion};
ghost use Rattle.hs_records.specs.Books.{client_book_of};
ghost use Rattle.hs_live.specs.Live.{outgoing};
ghost use Rattle.hs_run_actors.specs.ClientActors.{PlainClientActor};
ghost use Rattle.hs_run_actors.specs.Nodes.{AreNotes};
ghost use Rattle.hs_run_actors.specs.Standing.{IsDone};

use crate::client_actor::ClientActor;
use hs_base::{Crumb, List, Memory, Trigger};
use hs_link::Sender;
use hs_live::{ClientKey, Closed};
use hs_records::ClientBook;
use hs_ring::{Drawer, Lease};
use hs_words::Held;
use std::alloc::Global;

/// What clients noted, and their ends, each by the place of its client.
#[derive(Drop)]
pub struct PartedClients {
    pub books: List<ClientBook>,
    pub drawers: List<Drawer>,
    pub chunks: List<Sender<Held<Lease>, ClientKey>>,
    pub crumbs: List<Sender<Crumb, ClientKey>>,
    pub triggers: List<Sender<Trigger, ClientKey>>,
}

impl PartedClients {
    /// What a closed client noted, and its ends, go behind those of the others.
    fn add(&mut self, closed: Closed) -> Result<(), Memory>
        ensures books { OnOk result (self.new.books.items ≡ self.old.books.items ++ closed.book ∷ []) }
        ensures drawers { OnOk result (self.new.drawers.items ≡ self.old.drawers.items ++ closed.drawer ∷ []) }
        ensures chunks { OnOk result (self.new.chunks.items ≡ self.old.chunks.items ++ closed.chunks ∷ []) }
        ensures crumbs { OnOk result (self.new.crumbs.items ≡ self.old.crumbs.items ++ closed.crumbs ∷ []) }
        ensures triggers { OnOk result (self.new.triggers.items ≡ self.old.triggers.items ++ closed.triggers ∷ []) }
    {
        self.books.append(closed.book)?;
        self.drawers.append(closed.drawer)?;
        self.chunks.append(closed.chunks)?;
        self.crumbs.append(closed.crumbs)?;
        self.triggers.append(closed.triggers)?;
        Ok(())
    }
}

/// Takes clients apart that have done all their operations.
pub fn take_apart(alloc: Global, callers: List<ClientActor>) -> Result<PartedClients, Memory>
    requires { AllByRecursion IsDone callers.items }
    ensures books { IfOk result (λ apart. AreNotes callers.items (map client_book_of apart.books.items)) }
    ensures drawers { IfOk result (λ apart. apart.drawers.items ≡ map (λ (c : PlainClientActor). c.client.drawer) callers.items) }
    ensures chunks { IfOk result (λ apart. map outgoing apart.chunks.items ≡ map (λ (c : PlainClientActor). c.client.chunks) callers.items) }
    ensures crumbs { IfOk result (λ apart. apart.crumbs.items ≡ map (λ (c : PlainClientActor). c.client.crumbs) callers.items) }
    ensures triggers { IfOk result (λ apart. apart.triggers.items ≡ map (λ (c : PlainClientActor). c.client.triggers) callers.items) }
{
    let mut apart = PartedClients {
        books: List::new(alloc),
        drawers: List::new(alloc),
        chunks: List::new(alloc),
        crumbs: List::new(alloc),
        triggers: List::new(alloc),
    };
    for caller in callers.into_vec() {
        let closed = caller.close();
        apart.add(closed)?;
    }
    Ok(apart)
}
