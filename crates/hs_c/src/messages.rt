//! Messages as C sees them: bytes, and how they begin.

ghost use Rattle.std.specs.Prelude.{◌≡◌, ◌≢◌, ◌<◌, ◌++◌, length, drop};
ghost use Rattle.hs_wire.specs.Messages.{PlainMessage, IsMessage, message_bytes, kind_of, plain};
ghost use Rattle.hs_c.specs.Messages.{SpellsNone, head_of};
ghost use Rattle.hs_c.specs.declared.codes.TheConstants.{DONE as done, NO_MESSAGE as no_message, SHORT as short};

use crate::codes::{DONE, NO_MESSAGE, SHORT};
use hs_wire::{Body, Message, read, write};

/// How a message begins: its kind (1 Hello, 2 Told, 3 Ask, 4 Reported, 5 Standing), the node that speaks, of an ask the node that
/// is asked, the sender's epoch, and which message of that epoch it is.
#[repr(C)]
#[derive(Clone, Copy)]
pub struct HindHead {
    pub kind: u32,
    pub node: u32,
    pub epoch: u64,
    pub number: u64,
}

/// The number of the message's kind.
fn kind_number(message: &Message<'_>) -> u32
    ensures { result ≡ kind_of (plain message.now).said }
{
    match &message.body {
        Body::Hello(_) => 1,
        Body::Told(_) => 2,
        Body::Ask(_) => 3,
        Body::Reported(_) => 4,
        Body::Standing(_) => 5,
    }
}

/// Reads bytes as a message, and says how it begins. DONE, or NO_MESSAGE where the bytes spell none, and then `head` stays as it is.
#[unsafe(no_mangle)]
pub extern "C" fn hindcore_message_head(bytes: &[u8], head: &mut HindHead) -> u32
    ensures done { result ≡ done → (m : PlainMessage) × IsMessage m × (bytes.now ≡ message_bytes m) × (head.new ≡ head_of m) }
    ensures none { result ≢ done → (result ≡ no_message) × SpellsNone bytes.now × (head.new ≡ head.old) }
{
    let Some(message) = read(bytes) else {
        return NO_MESSAGE;
    };
    *head = HindHead {
        kind: kind_number(&message),
        node: u32::from(message.head.node.0),
        epoch: message.head.epoch,
        number: message.head.number,
    };
    DONE
}

/// Reads bytes as a message, and writes that message to the front of `out`. DONE, or NO_MESSAGE, or SHORT where `out` is shorter
/// than the message; then `out` stays as it is. What is written is what was read, byte for byte.
#[unsafe(no_mangle)]
pub extern "C" fn hindcore_message_copy(bytes: &[u8], out: &mut [u8]) -> u32
    ensures done { result ≡ done → (m : PlainMessage) × IsMessage m × (bytes.now ≡ message_bytes m) × (out.new ≡ bytes.now ++ drop (length bytes.now) out.old) }
    ensures none { result ≡ no_message → SpellsNone bytes.now }
    ensures short { result ≡ short → length out.old < length bytes.now }
    ensures same { result ≢ done → out.new ≡ out.old }
    ensures only { result ≢ done → result ≢ no_message → result ≡ short }
{
    let Some(message) = read(bytes) else {
        return NO_MESSAGE;
    };
    match write(out, &message) {
        Ok(_) => DONE,
        Err(_) => SHORT,
    }
}
