//! Laws of the pins. Each is the contract of a function that does nothing.

ghost use Rattle.std.specs.Prelude.{ℕ, List};
ghost use Rattle.hs_base.specs.declared.settings.TriggerRule.{TriggerRule};
ghost use Rattle.hs_pins.specs.Calls.{Call, LooksBack, ClaimsStay};

use hs_words::Token;

/// After any calls a node remembers what they say when one looks back over them: its triggers decide which
/// of them were admitted, and each chunk that was pinned was let go in its turn or is still pinned.
pub fn any_calls_look_back<L: Token>()
    ensures { (node most : ℕ) (rules : List TriggerRule) (calls : List (Call L))
        → LooksBack node most rules calls }
{}

/// A trace is the group's that claimed it first, for good.
pub fn claims_stay<L: Token>()
    ensures { (node most : ℕ) (rules : List TriggerRule) (later earlier : List (Call L))
        → ClaimsStay node most rules later earlier }
{}
