//! Memory for the bytes of one message.

ghost use Rattle.std.specs.Prelude.{◌≡◌, ◌≢◌, ℕ, ◌<◌, ◌≤◌, length, IfOk, OnOk, OnErr};
ghost use Rattle.hs_wire.specs.Messages.{IsMessage, message_bytes, plain};
ghost use Rattle.hs_wire.specs.Writing.{HasSpelling};

use hs_base::Memory;
use hs_wire::{Message, WriteFault, write};
use std::alloc::Global;
use std::marker::Model;

/// Memory for a message, with the message that was written last.
#[derive(Drop)]
pub struct MessageSlot {
    bytes: Vec<u8>,
    len: usize,
}

impl Model for MessageSlot {
    ghost use Rattle.std.specs.Prelude.{◌≤◌, length, take};
    ghost use Rattle.hs_outbox.specs.Slots.{Written};

    ghost Value = { Written };

    ghost view = { λ s. record { room = length s.bytes.items; bytes = take s.len s.bytes.items } };

    ghost invariant = { λ s. s.len ≤ length s.bytes.items };
}

impl MessageSlot {
    /// An empty slot of so many bytes.
    pub fn make(alloc: Global, room: u32) -> Result<MessageSlot, Memory>
        ensures { IfOk result (λ slot. slot.room ≡ room) }
    {
        match vec![in alloc; 0; room as usize] {
            Ok(bytes) => Ok(MessageSlot { bytes, len: 0 }),
            Err(_) => Err(Memory),
        }
    }

    /// Writes a message, or says why it cannot be written here.
    pub fn write(&mut self, message: &Message<'_>) -> Result<(), WriteFault>
        ensures bytes { OnOk result (self.new.bytes ≡ message_bytes (plain message.now)) }
        ensures message { OnOk result (IsMessage (plain message.now)) }
        ensures fits { OnOk result (length (message_bytes (plain message.now)) ≤ self.old.room) }
        ensures short { (wanted : ℕ) → result ≡ Err (WriteFault.Short wanted)
            → (wanted ≡ length (message_bytes (plain message.now))) × (self.old.room < wanted) }
        ensures beyond { result ≡ Err WriteFault.NoSpelling → ¬ HasSpelling (plain message.now) }
        ensures within { result ≢ Err WriteFault.NoSpelling → HasSpelling (plain message.now) }
        ensures room { self.new.room ≡ self.old.room }
    {
        self.len = write(&mut self.bytes, message)?;
        Ok(())
    }

    /// The bytes of the message that was written last.
    pub fn bytes(&self) -> &[u8]
        ensures { result.now ≡ self.now.bytes }
    {
        &self.bytes[..self.len]
    }
}
