//! The script of a client.

ghost use Rattle.std.specs.Prelude.{◌≡◌, length, map, IfOk};
ghost use Rattle.std.specs.List.{list_any};
ghost use Rattle.hs_records.specs.Pages.{pages_of};
ghost use Rattle.hs_records.specs.Plain.{settings_of};
ghost use Rattle.hs_client.specs.Playable.{IsPlayable};
ghost use Rattle.hs_records.specs.Views.{operation_of};
ghost use Rattle.hs_records.specs.declared.operation.Op.{Op};
ghost use Rattle.hs_compare.specs.Scripts.{may_trigger, names_of, IsClientScript};

use crate::happening::NumberedEvent;
use crate::names::names_of;
use crate::script::{Script, script_of};
use hs_base::{ClientId, List, Memory, Settings};
use hs_check_follow::{FollowedClient, send};
use hs_client::sending_laws::items_are_sent_in_order;
use hs_records::{Draw, Op};
use std::alloc::Global;

/// Whether an operation may send a trigger.
fn may_trigger(operation: &Op) -> bool
    ensures { result ≡ may_trigger (operation_of operation.now) }
{
    matches!(operation, Op::Trigger { .. } | Op::Sample { .. })
}

/// Whether one of these operations may send a trigger.
fn any_may_trigger(operations: &[Op]) -> bool
    ensures { result ≡ list_any (λ (op : Op). may_trigger (operation_of op)) operations.now }
{
    operations.iter().any(may_trigger)
}

/// The names of a client of a valid workload at these draws. A client without triggers and samples names nothing, and is not played.
fn client_names(
    alloc: Global,
    client: ClientId,
    settings: &Settings,
    operations: &[Op],
    draws: &[Draw],
) -> Result<List<NumberedEvent>, Memory>
    requires playable { IsPlayable (settings_of settings.now) (map operation_of operations.now) }
    requires each { length draws.now ≡ length (pages_of settings.now.size (map operation_of operations.now)) }
    ensures { IfOk result (λ names. names.items ≡ names_of (settings_of settings.now).autos (map operation_of operations.now)) }
{
    if !any_may_trigger(operations) {
        return Ok(List::new(alloc));
    }
    let sending = send(alloc, client, settings, operations, draws)?;
    let FollowedClient {
        triggers,
        found,
        ..
    } = sending;
    names_of(alloc, triggers, found.triggers.as_slice())
}

/// The script of a client of a valid workload at these draws, one for each of its pages.
pub(crate) fn client_script(
    alloc: Global,
    client: ClientId,
    settings: &Settings,
    operations: &[Op],
    draws: &[Draw],
) -> Result<Script, Memory>
    requires playable { IsPlayable (settings_of settings.now) (map operation_of operations.now) }
    requires each { length draws.now ≡ length (pages_of settings.now.size (map operation_of operations.now)) }
    ensures { IfOk result (IsClientScript (settings_of settings.now).autos client (map operation_of operations.now)) }
{
    items_are_sent_in_order();
    let names = client_names(alloc, client, settings, operations, draws)?;
    script_of(alloc, client, operations, names.as_slice())
}
