//! What holds of what clients send. These functions do nothing: their contracts say it.

ghost use Rattle.hs_client.specs.Laws.{TimedPagesAreThePages, TimedPagesAreTimely, PagesFit};
ghost use Rattle.hs_client.specs.SoFar.{FirstOperationsSend, FirstCrumbsAreSent, FirstTriggersAreSent, FirstChunksAreSent, AllChunksAreSent, AllCrumbsAreSent, AllTriggersAreSent};
ghost use Rattle.hs_client.specs.HandedOut.{CoresHandOutSoFar};
ghost use Rattle.hs_client.specs.OneMore.{OneMoreOperation, OneMoreCrumb, OneMoreTrigger};
ghost use Rattle.hs_client.specs.Order.{CrumbsAreInOrder, TriggersAreInOrder, ChunksAreInOrder};
ghost use Rattle.std.specs.Prelude.{ℕ, ◌<◌, length};
ghost use Rattle.hs_records.specs.Plain.{PlainWorkload};
ghost use Rattle.hs_client.specs.Sending.{operations_at};
ghost use Rattle.hs_records.specs.Validity.{IsValid};
ghost use Rattle.hs_client.specs.Playable.{IsPlayable};

use crate::laws::any_steps_make_the_book;
use hs_records::pages_carry_the_records;
use hs_words::Token;

/// Of a client that ends its traces the pages beside their operations are all its pages.
pub fn timed_pages_are_the_pages()
    ensures { TimedPagesAreThePages }
{}

/// A page is sent no earlier than it is started, and the client's next page is started no earlier than that.
pub fn timed_pages_are_timely()
    ensures { TimedPagesAreTimely }
{
    pages_carry_the_records();
}

/// No page that is sent has more used bytes than its size.
pub fn pages_fit()
    ensures { PagesFit }
{}

/// The first operations of a client that ends its traces start as many pages as they have by themselves, and send
/// these but for the last one of a trace that is still open.
pub fn the_first_operations_send()
    ensures { FirstOperationsSend }
{
    pages_carry_the_records();
}

/// The crumbs that the first operations send are those that they have by themselves.
pub fn the_first_crumbs_are_sent()
    ensures { FirstCrumbsAreSent }
{}

/// The triggers that the first operations send are those that they have by themselves.
pub fn the_first_triggers_are_sent()
    ensures { FirstTriggersAreSent }
{}

/// The chunks that the first operations send are decided by the draws for the pages that they start.
pub fn the_first_chunks_are_sent()
    ensures { FirstChunksAreSent }
{
    pages_carry_the_records();
}

/// All operations together send all chunks, all crumbs and all triggers.
pub fn all_is_sent_in_the_end()
    ensures chunks { AllChunksAreSent }
    ensures crumbs { AllCrumbsAreSent }
    ensures triggers { AllTriggersAreSent }
{
    timed_pages_are_timely();
}

/// A core that has recorded the first operations of such a client has drawn once for each page that these start, and
/// has handed out the chunks of the pages that they send.
pub fn cores_hand_out_so_far<L: Token>()
    ensures { CoresHandOutSoFar L }
{
    any_steps_make_the_book::<L>();
    the_first_operations_send();
    the_first_chunks_are_sent();
}

/// One operation more sends its crumb or its trigger behind what the earlier ones sent.
pub fn one_operation_more()
    ensures numbered { OneMoreOperation }
    ensures crumbs { OneMoreCrumb }
    ensures triggers { OneMoreTrigger }
{}

/// Crumbs, triggers and chunks are sent in the order of the operations that send them.
pub fn items_are_sent_in_order()
    ensures crumbs { CrumbsAreInOrder }
    ensures triggers { TriggersAreInOrder }
    ensures chunks { ChunksAreInOrder }
{
    timed_pages_are_timely();
}

/// Each client of a valid workload may be played.
pub fn valid_clients_may_be_played()
    ensures { (W : PlainWorkload) → IsValid W → (place : ℕ) → place < length W.clients → IsPlayable W.settings (operations_at W place) }
{}
