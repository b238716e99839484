//! What spellings are. Each law is the contract of a function that does nothing.

ghost use Rattle.std.specs.Prelude.{◌≡◌, List, ℕ, ◌++◌};
ghost use Rattle.hs_wire.specs.Messages.{PlainMessage, IsMessage, message_bytes};

/// No two messages have the same bytes, whatever their kinds.
pub fn spells_once()
    ensures once { (a b : PlainMessage) → IsMessage a → IsMessage b → message_bytes a ≡ message_bytes b → a ≡ b }

    // Nor do a message's bytes begin another's: so messages that stand one behind another are told apart.
    ensures apart { (a b : PlainMessage) (x y : List ℕ) → IsMessage a → IsMessage b
        → message_bytes a ++ x ≡ message_bytes b ++ y → (a ≡ b) × (x ≡ y) }
{}
