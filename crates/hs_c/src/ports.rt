//! The calls of a port.

ghost use Rattle.std.specs.Prelude.{◌≡◌};
ghost use Rattle.hs_c.specs.declared.codes.TheConstants.{DONE, VACANT};

use crate::cells::TakenChunk;
use crate::codes::{DONE, FULL, NOTHING, UNKNOWN, VACANT};
use crate::handles::{HindClient, HindPort};
use crate::loose::Loose;
use crate::slots::PortSlot;
use std::alloc::Global;
use std::mem::replace;

/// Takes the next chunk of a client, by its number, and gives its buffer back. NOTHING, where none came; FULL, where the pool did not
/// take the buffer in a million tries: it is gone.
#[unsafe(no_mangle)]
pub extern "C" fn hindcore_take(alloc: Global, port: &mut HindPort, client: u16) -> u32
    ensures vacant { (port.old.live ≡ 1 → ⊥) → (result ≡ VACANT) × (port.new ≡ port.old) }
    ensures live { port.new.live ≡ port.old.live }
{
    if port.live != 1 {
        return VACANT;
    }
    let mut cell = replace(&mut port.slot, PortSlot::vacant())
        .open(alloc)
        .into_box();
    let took = cell.take(client);
    port.slot = PortSlot::full(Loose::of(cell));
    match took {
        TakenChunk::Chunk => DONE,
        TakenChunk::Nothing => NOTHING,
        TakenChunk::Lost => FULL,
        TakenChunk::Unknown => UNKNOWN,
    }
}

/// Takes what came of a client's notes, one of its segments and one of its crumbs of traces that need not be open.
#[unsafe(no_mangle)]
pub extern "C" fn hindcore_take_notes(alloc: Global, port: &mut HindPort, client: u16) -> u32
    ensures vacant { (port.old.live ≡ 1 → ⊥) → (result ≡ VACANT) × (port.new ≡ port.old) }
    ensures done { port.old.live ≡ 1 → (result ≡ DONE) × (port.new.live ≡ 1) }
{
    if port.live != 1 {
        return VACANT;
    }
    let mut cell = replace(&mut port.slot, PortSlot::vacant())
        .open(alloc)
        .into_box();
    cell.take_notes(client);
    port.slot = PortSlot::full(Loose::of(cell));
    DONE
}

/// Frees what stands behind the handle, which is vacant from then on. Clients go on, and what they send comes nowhere.
#[unsafe(no_mangle)]
pub extern "C" fn hindcore_port_free(alloc: Global, port: &mut HindPort) -> u32
    ensures vacant { (port.old.live ≡ 1 → ⊥) → (result ≡ VACANT) × (port.new ≡ port.old) }
    ensures free { port.old.live ≡ 1 → (result ≡ DONE) × (port.new.live ≡ 0) }
{
    if port.live != 1 {
        return VACANT;
    }
    let slot = replace(&mut port.slot, PortSlot::vacant());
    port.live = 0;
    let _ = slot.open(alloc).into_box();
    DONE
}

fn is_send<T: Send>(_value: &T) {}

/// Asks for the proofs that the handles may go to other threads.
pub(crate) fn handles_may_cross(client: &HindClient, port: &HindPort) {
    is_send(client);
    is_send(port);
}
