//! What goes from the client to the port and back.

ghost use Rattle.std.specs.Prelude.{◌≡◌, ◌≤◌, ℕ, IsSome, IfSome};
ghost use Rattle.tests_with.specs.Pairs.{CanCall, KeepsClient, KeepsPort, IsOnly, HasClient, IsOfPool};

use hs_base::{Crumb, Trigger};
use hs_live::{AgentPort, Called, Client};
use hs_ring::Lease;
use hs_words::{Given, Held};

/// The next chunk.
pub fn next_chunk(port: &mut AgentPort) -> Option<Held<Lease>>
    requires { HasClient port.old }
    ensures same { KeepsPort port.old port.new }
    ensures pool { IfSome result (IsOfPool port.new) }
    ensures page { IfSome result (λ held. IsSome held.chunk.page) }
{
    port.chunk(0)
}

/// The next crumb.
pub fn next_crumb(port: &mut AgentPort) -> Option<Crumb>
    requires { HasClient port.old }
    ensures { KeepsPort port.old port.new }
{
    port.crumb(0)
}

/// The next trigger.
pub fn next_trigger(port: &mut AgentPort) -> Option<Trigger>
    requires { HasClient port.old }
    ensures { KeepsPort port.old port.new }
{
    port.trigger(0)
}

/// Brings the two together.
pub fn meet(port: &mut AgentPort, client: &mut Client)
    requires { IsOnly port.old client.old }
    ensures same { KeepsPort port.old port.new × KeepsClient client.old client.new }
    ensures left { (size n : ℕ) → CanCall size n client.old → CanCall size n client.new }
    ensures trace { client.new.core.trace ≡ client.old.core.trace }
{
    port.meet(client, 0);
}

/// Puts what waits into the links, as far as there is room, and answers how much still waits.
pub fn flush(client: &mut Client) -> u32
    ensures same { KeepsClient client.old client.new }
    ensures left { (size n : ℕ) → CanCall size n client.old → CanCall size n client.new }
    ensures trace { client.new.core.trace ≡ client.old.core.trace }
{
    client.flush()
}

/// Renews the client for 64 calls, and answers whether it could.
pub fn renew(client: &mut Client) -> bool
    ensures left { (size n : ℕ) → n ≤ 64 → CanCall size n client.old → CanCall size n client.new }
    ensures trace { client.new.core.trace ≡ client.old.core.trace }
{
    match client.renew(64) {
        Called::Done => true,
        Called::Spent | Called::AlreadyOpen | Called::NoTrace | Called::TooWide => false,
    }
}

/// Gives a chunk back. Answers how often that missed before, and the stamp of the give, or `None` where it was not given
/// in so many tries.
pub fn give_back(port: &mut AgentPort, held: Held<Lease>, tries: u32) -> Option<(u32, u64)>
    requires { IsOfPool port.old held }
    ensures { KeepsPort port.old port.new }
{
    let mut held = held;
    for misses in 0..tries {
        held = match port.give(held) {
            Given::Given { stamp } => return Some((misses, stamp)),
            Given::Missed { held, stamp: _ } => held,
            Given::Unread { held } => held,
        };
    }
    None
}

/// Whether nothing more comes.
pub fn nothing_comes(port: &mut AgentPort) -> bool
    requires { HasClient port.old }
    ensures { KeepsPort port.old port.new }
{
    let chunk = next_chunk(port);
    let crumb = next_crumb(port);
    let trigger = next_trigger(port);
    chunk.is_none() && crumb.is_none() && trigger.is_none()
}
