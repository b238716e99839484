//! What holds of an agent over any calls. These functions do nothing: their contracts say it.

ghost use Rattle.std.specs.Prelude.{ℕ, List};
ghost use Rattle.hs_records.specs.Plain.{PlainSettings};
ghost use Rattle.hs_agent.specs.Calls.{Call, MeetsModel, FewAreAdmitted};

use hs_law_agent::laws::{events_lead_on, steps_say_what_they_tell};
use hs_words::Token;

/// After any inputs, offers and answers, a new agent's run has come to the state in which the model is after these inputs and
/// answers; with it come the fates, the hand, the claims and the reported pages. All that was told, in order, is what the model
/// said, and the log has one step for each event.
pub fn any_calls_meet_the_model<L: Token>()
    ensures { (settings : PlainSettings) (node : ℕ) (calls : List (Call L)) → MeetsModel settings node calls }
{
    events_lead_on();
    steps_say_what_they_tell();
}

/// An event admits one trigger at most: so who takes fewer than 2^32 - 1 events need not count the triggers that are admitted.
pub fn few_are_admitted()
    ensures { FewAreAdmitted }
{}
