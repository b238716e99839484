//! How clients and the port of their node are made.

ghost use Rattle.std.specs.Prelude.{◌≡◌, ◌≢◌, map, Ok, Some, None, [], ◌∷◌, ◌++◌, IfOk, OnErr, OnOk, IfSome, IfNone, length};
ghost use Rattle.hs_c.specs.declared.codes.TheConstants.{DONE, VACANT, BUSY, MEMORY, SETTINGS, UNFIT, NOTHING};
ghost use Rattle.hs_c.specs.Opening.{Opens, Fills, IsRefused, IsUnfit, HandsOut, HoldsPort, left_in, limits_in, reason_number};
ghost use Rattle.hs_node_client.specs.Making.{AreMade, rules_by};
ghost use Rattle.hs_settings.specs.Faults.{reading_of};
ghost use Rattle.hs_settings.specs.Settings.{service_of};

use crate::cells::{ClientCell, PortCell};
use crate::codes::{BUSY, DONE, MEMORY, NOTHING, SETTINGS, UNFIT, VACANT};
use crate::handles::{HindClient, HindFault, HindPort};
use crate::loose::Loose;
use crate::slots::{ClientSlot, PortSlot};
use hs_base::{List, Memory};
use hs_node_client::{ClientLimits, Made, MakeFault, NodeClient, make_clients};
use hs_settings::{ServiceSettings, SettingsFault, SettingsReason, SettingsRefusal, read_settings};
use std::alloc::Global;
use std::mem::replace;

/// How many calls a core counts before it is renewed.
const CALLS: u32 = 0x8000_0000;

/// The reason of settings of which no line is bad, but which leave no buffer.
const NO_ROOM: u32 = 11;

/// The number of a reason.
fn reason_number(reason: SettingsReason) -> u32
    ensures { result ≡ reason_number reason }
{
    match reason {
        SettingsReason::Truncated => 1,
        SettingsReason::Byte => 2,
        SettingsReason::Spaces => 3,
        SettingsReason::Word => 4,
        SettingsReason::Twice => 5,
        SettingsReason::Count => 6,
        SettingsReason::Number => 7,
        SettingsReason::Range => 8,
        SettingsReason::Order => 9,
        SettingsReason::Unknown => 10,
    }
}

/// Why settings are refused that leave no buffer.
pub(crate) fn no_room() -> HindFault
    ensures { (result.line ≡ 0) × (result.reason ≡ 11) }
{
    HindFault {
        line: 0,
        reason: NO_ROOM,
    }
}

/// Why settings are refused, as C sees it.
pub(crate) fn refusal_out(refusal: &SettingsRefusal) -> HindFault
    ensures { (result.line ≡ refusal.now.line) × (result.reason ≡ reason_number refusal.now.reason) }
{
    HindFault {
        line: refusal.line,
        reason: reason_number(refusal.reason),
    }
}

/// Makes the clients of a node and their port, by the text of a service's settings. The code says why there is none, and of settings
/// `fault` says where.
#[unsafe(no_mangle)]
pub extern "C" fn hindcore_open(
    alloc: Global,
    text: &[u8],
    node: u16,
    port: &mut HindPort,
    fault: &mut HindFault,
) -> u32
    ensures done { result ≡ DONE → Opens text.now node port.new }
    ensures same { result ≢ DONE → port.new ≡ port.old }
    ensures busy { port.old.live ≡ 1 → result ≡ BUSY }
    ensures free { result ≡ BUSY → port.old.live ≡ 1 }
    ensures settings { result ≡ SETTINGS → IsRefused text.now fault.new }
    ensures unfit { result ≡ UNFIT → IsUnfit text.now node }
    ensures only { result ≢ DONE → result ≢ BUSY → result ≢ SETTINGS → result ≢ UNFIT → result ≡ MEMORY }
{
    if port.live == 1 {
        return BUSY;
    }
    match read_settings(alloc, text) {
        Ok(settings) => open(alloc, &settings, node, port),
        Err(SettingsFault::Memory) => MEMORY,
        Err(SettingsFault::NoRoom) => {
            *fault = no_room();
            SETTINGS
        }
        Err(SettingsFault::Refused(refusal)) => {
            *fault = refusal_out(&refusal);
            SETTINGS
        }
    }
}

/// Makes the clients and their port by settings that were read, and fills the handle. The code is DONE, UNFIT or MEMORY.
fn open(alloc: Global, settings: &ServiceSettings, node: u16, port: &mut HindPort) -> u32
    ensures done { (text : _) → reading_of text ≡ Ok (service_of settings.now) → result ≡ DONE → Opens text node port.new }
    ensures same { result ≢ DONE → port.new ≡ port.old }
    ensures unfit { (text : _) → reading_of text ≡ Ok (service_of settings.now) → result ≡ UNFIT → IsUnfit text node }
    ensures only { result ≢ DONE → result ≢ UNFIT → result ≡ MEMORY }
{
    let limits = ClientLimits {
        node,
        clients: settings.clients,
        buffers: settings.buffers,
        size: settings.size,
        backlog: settings.backlog,
        notes: settings.backlog,
        calls: CALLS,
    };
    match make_clients(
        alloc,
        &limits,
        &settings.autos,
        &settings.triggers,
        settings.nodes,
    ) {
        Ok(made) => match fill(alloc, made, settings.clients, port) {
            Ok(()) => DONE,
            Err(Memory) => MEMORY,
        },
        Err(MakeFault::Memory) => MEMORY,
        Err(_) => UNFIT,
    }
}

/// Fills the handle.
fn fill(alloc: Global, made: Made, clients: u16, port: &mut HindPort) -> Result<(), Memory>
    requires { clients ≡ length made.port.chunks }
    ensures filled { OnOk result (Fills made port.new) }
    ensures same { OnErr result (port.new ≡ port.old) }
{
    let Made {
        port: agent,
        late,
        segments,
        clients: made,
    } = made;
    let left = boxed(alloc, made)?;
    let cell = Box::new(
        alloc,
        PortCell {
            port: agent,
            left,
            late,
            notes: segments,
            clients,
        },
    )?;
    *port = HindPort {
        slot: PortSlot::full(Loose::of(cell)),
        live: 1,
        pad: [0; 29],
    };
    Ok(())
}

/// Boxes the clients.
pub(crate) fn boxed(
    alloc: Global,
    clients: List<NodeClient>,
) -> Result<List<Box<ClientCell, Global>>, Memory>
    ensures { IfOk result (λ cells. map (λ boxed. boxed.value.client) cells.items ≡ clients.items) }
{
    let mut cells = List::new(alloc);
    for client in clients.into_vec() {
        cells.append(Box::new(alloc, ClientCell { client })?)?;
    }
    Ok(cells)
}

/// Takes the next client out of those that are left.
fn next_of(cell: &mut PortCell) -> Option<Box<ClientCell, Global>>
    ensures some { IfSome result (λ boxed. left_in cell.old ≡ left_in cell.new ++ boxed.value.client ∷ []) }
    ensures none { IfNone result ((left_in cell.old ≡ []) × (cell.new ≡ cell.old)) }
    ensures only { cell.new ≡ record cell.old { left = cell.new.left } }
{
    match cell.left.pop() {
        Some(boxed) => Some(boxed),
        None => None,
    }
}

/// Hands the next client of the port out, into a vacant handle. NOTHING, where all were handed out.
#[unsafe(no_mangle)]
pub extern "C" fn hindcore_client_open(
    alloc: Global,
    port: &mut HindPort,
    client: &mut HindClient,
) -> u32
    ensures vacant { (port.old.live ≡ 1 → ⊥) → (result ≡ VACANT) × (port.new ≡ port.old) × (client.new ≡ client.old) }
    ensures busy { port.old.live ≡ 1 → client.old.live ≡ 1 → (result ≡ BUSY) × (port.new ≡ port.old) × (client.new ≡ client.old) }
    ensures done { (cell : _) → HoldsPort port.old cell → result ≡ DONE → HandsOut cell port.new client.new }
    ensures nothing { (cell : _) → HoldsPort port.old cell → result ≡ NOTHING → (left_in cell ≡ []) × HoldsPort port.new cell × (client.new ≡ client.old) }
    ensures only { port.old.live ≡ 1 → (client.old.live ≡ 1 → ⊥) → result ≢ NOTHING → result ≡ DONE }
{
    if port.live != 1 {
        return VACANT;
    }
    if client.live == 1 {
        return BUSY;
    }
    let mut cell = replace(&mut port.slot, PortSlot::vacant())
        .open(alloc)
        .into_box();
    let next = next_of(&mut cell);
    port.slot = PortSlot::full(Loose::of(cell));
    match next {
        None => NOTHING,
        Some(next) => {
            *client = HindClient {
                slot: ClientSlot::full(Loose::of(next)),
                live: 1,
                pad: [0; 29],
            };
            DONE
        }
    }
}
