//! The receiving ends of links, by the number of their client.

ghost use Rattle.std.specs.Prelude.{◌≡◌, ◌<◌, length, IfSome};
ghost use Rattle.hs_link.specs.Contents.{Incoming};
ghost use Rattle.hs_live.specs.Live.{IsEnd, ReceivesAt};

use hs_base::List;
use hs_link::{Fact, Receiver};

/// Receives the next item of the client with this number.
pub fn receive_at<T: Drop, F: Fact<T>>(
    receivers: &mut List<Receiver<T, F>>,
    client: u16,
) -> Option<T>
    requires { client < length receivers.old.items }
    ensures received { ReceivesAt client receivers.old.items result receivers.new.items }
    ensures fact { IfSome result (λ item. (r : Incoming T F) × IsEnd client receivers.old.items r × F.holds r.key item) }
{
    receivers.as_mut_slice()[client as usize].receive()
}
