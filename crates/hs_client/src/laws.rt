//! Laws of the core. Each is the contract of a function that does nothing.

ghost use Rattle.std.specs.Prelude.{ℕ, List};
ghost use Rattle.hs_base.specs.declared.ids.ClientId.{ClientId};
ghost use Rattle.hs_client.specs.Core.{CoreStep, new_core};
ghost use Rattle.hs_client.specs.Calls.{AreSteps, IsBook};

use hs_records::the_longest_runs_are_the_pages;
use hs_words::Token;

/// After any steps that a core may do, its notes are those of the pages of what was recorded, and the chunks
/// that it handed out hold these pages.
pub fn any_steps_make_the_book<L: Token>()
    ensures { (client : ClientId) (size calls : ℕ) (steps : List (CoreStep L))
        → AreSteps (new_core client size calls) steps → IsBook (new_core client size calls) steps }
{
    the_longest_runs_are_the_pages();
}
