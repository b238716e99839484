//! A boxed cell behind a pointer that C keeps.

ghost use Rattle.std.specs.Prelude.{◌≡◌, Option, None, Some, IsSome};
ghost use Rattle.hs_c.specs.Holds.{client_owns, hub_owns, node_owns, port_owns};
ghost use Rattle.hs_c.specs.declared.cells.ClientCell.{ClientCell};
ghost use Rattle.hs_c.specs.declared.cells.HubCell.{HubCell};
ghost use Rattle.hs_c.specs.declared.cells.NodeCell.{NodeCell};
ghost use Rattle.hs_c.specs.declared.cells.PortCell.{PortCell};

use crate::cells::{ClientCell, HubCell, NodeCell, PortCell};
use crate::loose::Loose;
use std::alloc::Global;
use std::marker::Model;
use std::ptr::null_mut;

/// Owns the client at the pointer, or nothing.
#[repr(C)]
#[derive(Drop)]
pub struct ClientSlot {
    at: *mut (),
    pub ghost held: { Option ClientCell },
}

impl Model for ClientSlot {
    ghost also_owns = { λ s. client_owns s.at s.held };
}

unsafe impl Send for ClientSlot {}

impl ClientSlot {
    pub(crate) fn full(loose: Loose<ClientCell, Global>) -> ClientSlot
        ensures { result.held ≡ Some loose.value }
    {
        let Loose { at, alloc: _ } = loose;
        ClientSlot { at: at as *mut () }
    }

    pub(crate) fn vacant() -> ClientSlot
        ensures { result.held ≡ None }
    {
        ClientSlot { at: null_mut() }
    }

    pub(crate) fn open(self, alloc: Global) -> Loose<ClientCell, Global>
        requires { IsSome self.held }
        ensures { self.held ≡ Some result.value }
    {
        let ClientSlot { at } = self;
        Loose {
            at: at as *mut ClientCell,
            alloc,
        }
    }
}

/// Owns the port at the pointer, or nothing.
#[repr(C)]
#[derive(Drop)]
pub struct PortSlot {
    at: *mut (),
    pub ghost held: { Option PortCell },
}

impl Model for PortSlot {
    ghost also_owns = { λ s. port_owns s.at s.held };
}

unsafe impl Send for PortSlot {}

impl PortSlot {
    pub(crate) fn full(loose: Loose<PortCell, Global>) -> PortSlot
        ensures { result.held ≡ Some loose.value }
    {
        let Loose { at, alloc: _ } = loose;
        PortSlot { at: at as *mut () }
    }

    pub(crate) fn vacant() -> PortSlot
        ensures { result.held ≡ None }
    {
        PortSlot { at: null_mut() }
    }

    pub(crate) fn open(self, alloc: Global) -> Loose<PortCell, Global>
        requires { IsSome self.held }
        ensures { self.held ≡ Some result.value }
    {
        let PortSlot { at } = self;
        Loose {
            at: at as *mut PortCell,
            alloc,
        }
    }
}

/// Owns the hub at the pointer, or nothing.
#[repr(C)]
#[derive(Drop)]
pub struct HubSlot {
    at: *mut (),
    pub ghost held: { Option HubCell },
}

impl Model for HubSlot {
    ghost also_owns = { λ s. hub_owns s.at s.held };
}

unsafe impl Send for HubSlot {}

impl HubSlot {
    pub(crate) fn full(loose: Loose<HubCell, Global>) -> HubSlot
        ensures { result.held ≡ Some loose.value }
    {
        let Loose { at, alloc: _ } = loose;
        HubSlot { at: at as *mut () }
    }

    pub(crate) fn vacant() -> HubSlot
        ensures { result.held ≡ None }
    {
        HubSlot { at: null_mut() }
    }

    pub(crate) fn open(self, alloc: Global) -> Loose<HubCell, Global>
        requires { IsSome self.held }
        ensures { self.held ≡ Some result.value }
    {
        let HubSlot { at } = self;
        Loose {
            at: at as *mut HubCell,
            alloc,
        }
    }
}

/// Owns the node at the pointer, or nothing.
#[repr(C)]
#[derive(Drop)]
pub struct NodeSlot {
    at: *mut (),
    pub ghost held: { Option NodeCell },
}

impl Model for NodeSlot {
    ghost also_owns = { λ s. node_owns s.at s.held };
}

unsafe impl Send for NodeSlot {}

impl NodeSlot {
    pub(crate) fn full(loose: Loose<NodeCell, Global>) -> NodeSlot
        ensures { result.held ≡ Some loose.value }
    {
        let Loose { at, alloc: _ } = loose;
        NodeSlot { at: at as *mut () }
    }

    pub(crate) fn vacant() -> NodeSlot
        ensures { result.held ≡ None }
    {
        NodeSlot { at: null_mut() }
    }

    pub(crate) fn open(self, alloc: Global) -> Loose<NodeCell, Global>
        requires { IsSome self.held }
        ensures { self.held ≡ Some result.value }
    {
        let NodeSlot { at } = self;
        Loose {
            at: at as *mut NodeCell,
            alloc,
        }
    }
}
