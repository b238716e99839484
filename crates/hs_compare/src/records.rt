//! The records of all clients.

ghost use Rattle.std.specs.Prelude.{◌≡◌, ◌<◌, ◌≤◌, ◌++◌, ◌∷◌, [], List, length, map, IfOk, OnOk};
ghost use Rattle.hs_law_outcome.specs.Outcomes.{client_at};
ghost use Rattle.hs_compare.specs.Coming.{all_comings, comings_of};
ghost use Rattle.hs_client.specs.Sending.{operations_at};
ghost use Rattle.hs_records.specs.Validity.{IsValid};
ghost use Rattle.hs_records.specs.Views.{operation_of, workload_of};
ghost use Rattle.hs_compare.specs.Happens.{coming_of};
ghost use Rattle.hs_compare.specs.Points.{Operations, Comings, HasJoined};

use crate::coming::Coming;
use crate::places::client_at;
use crate::points::RecordWalk;
use hs_base::limits::MAX_OPERATIONS;
use hs_base::{ClientId, List, Memory};
use hs_client::sending_laws::{one_operation_more, valid_clients_may_be_played};
use hs_records::{Op, Workload};
use std::alloc::Global;

/// Goes on by an operation. The record that it brings joins the others.
fn add_record(all: &mut List<Coming>, walk: &mut RecordWalk, operation: &Op) -> Result<(), Memory>
    requires few { walk.old.count < MAX_OPERATIONS }
    ensures client { walk.new.client ≡ walk.old.client }
    ensures joined { (before : Operations) (first : Comings) → HasJoined before first walk.old all.old.items
        → OnOk result (HasJoined (before ++ operation_of operation.now ∷ []) first walk.new all.new.items) }
{
    one_operation_more();
    match walk.advance(operation) {
        Some(coming) => all.append(coming),
        None => Ok(()),
    }
}

/// Adds the records of a client.
fn add_records(all: &mut List<Coming>, client: ClientId, operations: &[Op]) -> Result<(), Memory>
    requires { length operations.now ≤ MAX_OPERATIONS }
    ensures { OnOk result (map coming_of all.new.items ≡ map coming_of all.old.items ++ comings_of client (map operation_of operations.now)) }
{
    let mut walk = RecordWalk::make(client);
    for number in 0..operations.len() {
        add_record(all, &mut walk, &operations[number])?;
    }
    Ok(())
}

/// Adds the records of the client at a place.
fn place_records(all: &mut List<Coming>, workload: &Workload, place: usize) -> Result<(), Memory>
    requires valid { IsValid (workload_of workload.now) }
    requires low { place < length workload.now.clients.items }
    ensures { OnOk result (map coming_of all.new.items ≡ map coming_of all.old.items ++ comings_of (client_at workload.now.settings.clients place) (operations_at (workload_of workload.now) place)) }
{
    valid_clients_may_be_played();
    let client = client_at(workload.settings.clients, place);
    let operations = workload.clients.as_slice()[place].as_slice();
    add_records(all, client, operations)
}

/// All records of a valid workload, by node, client and number.
pub(crate) fn all_records(alloc: Global, workload: &Workload) -> Result<List<Coming>, Memory>
    requires { IsValid (workload_of workload.now) }
    ensures { IfOk result (λ all. map coming_of all.items ≡ all_comings (workload_of workload.now)) }
{
    let mut all = List::new(alloc);
    for place in 0..workload.clients.len() {
        place_records(&mut all, workload, place)?;
    }
    Ok(all)
}
