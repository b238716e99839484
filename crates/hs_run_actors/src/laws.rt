//! Laws of clients. Each is the contract of a function that does nothing.

ghost use Rattle.std.specs.Prelude.{◌≡◌, List, length};
ghost use Rattle.hs_base.specs.declared.ids.ClientId.{ClientId};
ghost use Rattle.hs_records.specs.Plain.{Operation, PlainSettings};
ghost use Rattle.hs_run_actors.specs.ClientActors.{PlainClientActor};
ghost use Rattle.hs_run_actors.specs.Standing.{ClientActorIsAt, HasSentSoFar, HasSentAll};

use hs_client::any_steps_make_the_book;
use hs_client::sending_laws::{
    all_is_sent_in_the_end, cores_hand_out_so_far, the_first_crumbs_are_sent,
    the_first_operations_send, the_first_triggers_are_sent,
};
use hs_live::what_was_done_was_sent;
use hs_ring::Lease;

/// What a client sent and drew between rounds is what its operations so far send and start.
pub fn callers_have_sent()
    ensures { (settings : PlainSettings) (client : ClientId) (ops : List Operation) (caller : PlainClientActor) → ClientActorIsAt settings client ops caller → HasSentSoFar settings client ops caller }
{
    any_steps_make_the_book::<Lease>();
    what_was_done_was_sent();
    cores_hand_out_so_far::<Lease>();
    the_first_crumbs_are_sent();
    the_first_triggers_are_sent();
}

/// A client that has done all operations sent all that these send, and drew for each page.
pub fn callers_sent_all()
    ensures { (settings : PlainSettings) (client : ClientId) (ops : List Operation) (caller : PlainClientActor) → ClientActorIsAt settings client ops caller → caller.done ≡ length ops → HasSentAll settings client ops caller }
{
    callers_have_sent();
    all_is_sent_in_the_end();
    the_first_operations_send();
}
