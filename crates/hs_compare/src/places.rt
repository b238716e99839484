//! The places of clients.

ghost use Rattle.std.specs.Prelude.{◌≡◌, ◌<◌, ◌*◌, ◌^◌};
ghost use Rattle.hs_law_outcome.specs.Outcomes.{client_at};

use hs_base::ClientId;

/// The client at a place in the order of node and number, where each node has so many.
pub(crate) fn client_at(each: u16, place: usize) -> ClientId
    requires some { 0 < each }
    requires low { place < 2 ^ 16 * each }
    ensures { result ≡ client_at each place }
{
    let each = each as usize;
    ClientId {
        node: (place / each) as u16,
        number: (place % each) as u16,
    }
}
