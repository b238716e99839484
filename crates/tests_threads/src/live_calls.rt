//! Calls of a client, as tables name them.

ghost use Rattle.std.specs.Prelude.{◌≡◌, ℕ, ◌+◌, ◌*◌, ◌≤◌, length, None, IsTrue};
ghost use Rattle.hs_base.specs.declared.limits.TheConstants.{MIN_SIZE};
ghost use Rattle.tests_with.specs.Pairs.{CanCall, KeepsClient};

use hs_base::{Laterals, NodeId, TraceId, Trigger};
use hs_live::{Called, Client};
use tests_with::ID;

/// What fills a page of 64 bytes, and what needs a byte more.
pub const FULL: [u8; 30] = [7; 30];

pub const OVER: [u8; 31] = [8; 31];

/// A call of a client whose pages have 64 bytes. The numbers are moments, traces and values, as the names say.
#[derive(Clone, Copy)]
pub enum Call {
    Begin { trace: u128 },
    /// A point without bytes, with those that fill a page, and with one more.
    Empty { moment: u64 },
    Full { moment: u64 },
    Over { moment: u64 },
    /// A crumb to node 1.
    Crumb,
    Trigger { moment: u64, lead: u128 },
    Sample { moment: u64, value: u64 },
    End,
}

/// Makes one call.
pub fn do_call(client: &mut Client, call: Call) -> Called
    requires { CanCall MIN_SIZE 2 client.old }
    ensures left { (n : ℕ) → CanCall MIN_SIZE (n + 2) client.old → CanCall MIN_SIZE n client.new }
    ensures same { KeepsClient client.old client.new }
{
    match call {
        Call::Begin { trace } => client.begin(TraceId(trace)),
        Call::Empty { moment } => client.point(moment, &[]),
        Call::Full { moment } => client.point(moment, &FULL),
        Call::Over { moment } => client.point(moment, &OVER),
        Call::Crumb => client.crumb(NodeId(1)),
        Call::Trigger { moment, lead } => client.trigger(Trigger {
            moment,
            trigger: ID,
            lead: TraceId(lead),
            laterals: Laterals::none(),
        }),
        Call::Sample { moment, value } => client.sample(moment, 0, value, ID),
        Call::End => client.end(),
    }
}

/// Makes the calls, and answers how many were answered otherwise than the table says.
pub fn do_calls(client: &mut Client, calls: &[(Call, Called)]) -> u32
    requires few { length calls.now ≤ 100 }
    requires left { CanCall MIN_SIZE (2 * length calls.now) client.old }
    ensures left { (n : ℕ) → CanCall MIN_SIZE (2 * length calls.now + n) client.old → CanCall MIN_SIZE n client.new }
    ensures same { KeepsClient client.old client.new }
    ensures few { result ≤ length calls.now }
{
    let mut others = 0;
    for (call, answer) in calls {
        if do_call(client, *call) != *answer {
            others += 1;
        }
    }
    others
}

/// Whether no trace is open.
pub fn is_closed(client: &mut Client) -> bool
    requires { CanCall MIN_SIZE 1 client.old }
    ensures closed { IsTrue result → client.new.core.trace ≡ None }
    ensures same { KeepsClient client.old client.new }
{
    client.end() == Called::NoTrace
}
