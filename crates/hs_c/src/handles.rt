//! What C holds, and what it is told.

ghost use Rattle.std.specs.Prelude.{◌≡◌, IsSome};

use crate::slots::{ClientSlot, HubSlot, NodeSlot, PortSlot};

/// A client's handle. All zero is vacant. It takes 128 bytes, so that two that are aligned share no cache line.
#[repr(C)]
#[derive(Drop)]
pub struct HindClient {
    pub(crate) slot: ClientSlot,
    pub(crate) live: u32,
    pub(crate) pad: [u32; 29],
    pub(crate) ghost agrees: { live ≡ 1 → IsSome slot.held },
}

/// The handle of a port. All zero is vacant.
#[repr(C)]
#[derive(Drop)]
pub struct HindPort {
    pub(crate) slot: PortSlot,
    pub(crate) live: u32,
    pub(crate) pad: [u32; 29],
    pub(crate) ghost agrees: { live ≡ 1 → IsSome slot.held },
}

/// The handle of a node. All zero is vacant.
#[repr(C)]
#[derive(Drop)]
pub struct HindNode {
    pub(crate) slot: NodeSlot,
    pub(crate) live: u32,
    pub(crate) pad: [u32; 29],
    pub(crate) ghost agrees: { live ≡ 1 → IsSome slot.held },
}

/// The handle of a hub. All zero is vacant.
#[repr(C)]
#[derive(Drop)]
pub struct HindHub {
    pub(crate) slot: HubSlot,
    pub(crate) live: u32,
    pub(crate) pad: [u32; 29],
    pub(crate) ghost agrees: { live ≡ 1 → IsSome slot.held },
}

const _: () = prove!(std::mem::size_of::<HindClient>() == 128);

const _: () = prove!(std::mem::size_of::<HindPort>() == 128);

const _: () = prove!(std::mem::size_of::<HindHub>() == 128);

const _: () = prove!(std::mem::size_of::<HindNode>() == 128);

/// A trace id, its highest byte first.
#[repr(C)]
#[derive(Clone, Copy)]
pub struct HindTrace {
    pub bytes: [u8; 16],
}

/// Why settings are refused: a line, from 1, and the number of a reason.
#[repr(C)]
#[derive(Clone, Copy)]
pub struct HindFault {
    pub line: u64,
    pub reason: u32,
}

/// What a client did since it was made, and what it refused.
#[repr(C)]
#[derive(Clone, Copy)]
pub struct HindCounts {
    pub points: u64,
    pub null_pages: u64,
    pub stray_points: u64,
    pub full_points: u64,
    pub long_points: u64,
    pub spent_points: u64,
    pub refused_crumbs: u64,
    pub refused_triggers: u64,
    pub dropped_notes: u64,
}
