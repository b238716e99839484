//! What is left of what a node's clients send.

ghost use Rattle.std.specs.Prelude.{◌≡◌, ◌<◌, length, map, IfOk};
ghost use Rattle.hs_client.specs.Sending.{operations_at, place_of};
ghost use Rattle.hs_words.specs.Buffers.{buffer_in};
ghost use Rattle.hs_records.specs.Views.{operation_of, workload_of};
ghost use Rattle.hs_check_follow.specs.Clients.{MayFillNext, MayFillAny, Pops, PopsChunk, PopsCrumb, PopsTrigger};

use crate::client::FollowedClient;
use hs_base::{ClientId, Crumb, List, Memory, Trigger};
use hs_records::{Op, Workload};
use hs_words::Held;

/// The operations of a client.
pub(crate) fn operations_of(workload: &Workload, client: ClientId) -> &[Op]
    requires { place_of workload.now.settings.clients client.node client.number < length (workload_of workload.now).clients }
    ensures { map operation_of result.now ≡ operations_at (workload_of workload.now) (place_of workload.now.settings.clients client.node client.number) }
{
    let each = workload.settings.clients as usize;
    let place = client.node as usize * each + client.number as usize;
    workload.clients.as_slice()[place].as_slice()
}

/// Fills the next chunk of a client, where one is left.
fn fill_next(sending: &mut FollowedClient, workload: &Workload) -> Result<Option<Held<()>>, Memory>
    requires { MayFillNext (workload_of workload.now) sending.old }
    ensures { IfOk result (λ held. PopsChunk (workload_of workload.now) sending.old (buffer_in held) sending.new) }
{
    let operations = operations_of(workload, sending.chunks.client());
    let rules = workload.settings.autos.as_slice();
    let held = sending.chunks.next(rules, operations)?;
    Ok(held)
}

/// Fills the next chunk of a client, where there is such a client and one is left.
pub(crate) fn next_chunk(
    clients: &mut List<FollowedClient>,
    workload: &Workload,
    client: u16,
) -> Result<Option<Held<()>>, Memory>
    requires { MayFillAny (workload_of workload.now) clients.old.items }
    ensures { IfOk result (λ held. Pops (PopsChunk (workload_of workload.now)) client clients.old.items (buffer_in held) clients.new.items) }
{
    if client as usize >= clients.len() {
        return Ok(None);
    }
    let held = fill_next(&mut clients.as_mut_slice()[client as usize], workload)?;
    Ok(held)
}

/// Takes out the next crumb of a client, where there is such a client and one is left.
pub(crate) fn next_crumb(clients: &mut List<FollowedClient>, client: u16) -> Option<Crumb>
    ensures { Pops PopsCrumb client clients.old.items result clients.new.items }
{
    if client as usize >= clients.len() {
        return None;
    }
    clients.as_mut_slice()[client as usize].crumbs.pop_front()
}

/// Takes out the next trigger of a client, where there is such a client and one is left.
pub(crate) fn next_trigger(clients: &mut List<FollowedClient>, client: u16) -> Option<Trigger>
    ensures { Pops PopsTrigger client clients.old.items result clients.new.items }
{
    if client as usize >= clients.len() {
        return None;
    }
    clients.as_mut_slice()[client as usize].triggers.pop_front()
}
