//! What tells pages of a trace apart.

ghost use Rattle.std.specs.Prelude.{◌≡◌};
ghost use Rattle.hs_traces.specs.Keys.{is_from, is_own, key_of};

use hs_words::Header;

/// The core of a client that wrote a page: the node with its epoch, the client there, and the core's number among those of
/// the client.
#[derive(Clone, Copy, Debug, PartialEq, Eq)]
pub struct CoreId {
    pub node: u16,
    pub epoch: u64,
    pub client: u16,
    pub core: u64,
}

/// A page's place among those of its trace: by node, epoch, client and core, and by its number among those of the core.
#[derive(Clone, Copy, Debug, PartialEq, Eq, PartialOrd, Ord)]
pub struct PageKey {
    pub node: u16,
    pub epoch: u64,
    pub client: u16,
    pub core: u64,
    pub page: u32,
}

/// Whether a page names its sender's node and client.
pub fn is_own(sender: &CoreId, header: &Header) -> bool
    ensures { result ≡ is_own sender.now header.now }
{
    header.client.node == sender.node && header.client.number == sender.client
}

/// Whether a life of a node wrote the page.
pub fn is_from(node: u16, epoch: u64, key: &PageKey) -> bool
    ensures { result ≡ is_from node epoch key.now }
{
    key.node == node && key.epoch == epoch
}

/// The key of a sender's page.
pub fn key_of(sender: &CoreId, header: &Header) -> PageKey
    ensures { result ≡ key_of sender.now header.now }
{
    PageKey {
        node: sender.node,
        epoch: sender.epoch,
        client: sender.client,
        core: sender.core,
        page: header.page,
    }
}
