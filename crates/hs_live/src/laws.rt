//! Laws of clients. Each is the contract of a function that does nothing.

ghost use Rattle.std.specs.Prelude.{false, List};
ghost use Rattle.hs_base.specs.declared.told.Crumb.{Crumb};
ghost use Rattle.hs_base.specs.declared.told.Trigger.{Trigger};
ghost use Rattle.hs_link.specs.Contents.{Outgoing, sent};
ghost use Rattle.hs_records.specs.Plain.{Operation};
ghost use Rattle.hs_records.specs.Records.{AreBracketed};
ghost use Rattle.hs_ring.specs.Parts.{Drawing, Leased};
ghost use Rattle.hs_words.specs.Buffers.{Buffer};
ghost use Rattle.hs_live.specs.Keys.{Key};
ghost use Rattle.hs_live.specs.Live.{PlainClient, GoesOn};
ghost use Rattle.hs_live.specs.Writing.{DrawsOn, Made};
ghost use Rattle.hs_live.specs.Apart.{AreApart};
ghost use Rattle.hs_live.specs.Done.{HasDone, HasSent, HasSentAll};

use hs_client::any_steps_make_the_book;
use hs_client::sending_laws::timed_pages_are_the_pages;
use hs_ring::Lease;

/// What a client sent, noted and keeps follows from the operations that it has done and the draws that were answered.
pub fn what_was_done_was_sent()
    ensures { (made : Made) (ops : List Operation) (client : PlainClient) → HasDone made ops client → HasSent made ops client }
{
    any_steps_make_the_book::<Lease>();
}

/// A client that has ended each trace that it began has sent what clients of a workload send, at its draws.
pub fn all_was_sent()
    ensures { (made : Made) (ops : List Operation) (client : PlainClient) → HasDone made ops client → AreBracketed false ops → HasSentAll made ops client }
{
    what_was_done_was_sent();
    timed_pages_are_the_pages();
}

/// The chunks that a client sent, over all its renewals, are told apart by the mark of the lease and the number of the page.
pub fn sent_chunks_are_told_apart()
    ensures { (made : Made) (ops : List Operation) (client : PlainClient) → HasDone made ops client → AreApart (sent client.chunks) }
{
    what_was_done_was_sent();
}

/// An end that went on, and then went on, went on.
pub fn ends_go_on()
    ensures chunks { (s t u : Outgoing (Buffer Leased) Key) → GoesOn s t → GoesOn t u → GoesOn s u }
    ensures crumbs { (s t u : Outgoing Crumb Key) → GoesOn s t → GoesOn t u → GoesOn s u }
    ensures triggers { (s t u : Outgoing Trigger Key) → GoesOn s t → GoesOn t u → GoesOn s u }
    ensures drawer { (a b c : Drawing) → DrawsOn a b → DrawsOn b c → DrawsOn a c }
{}
