//! The client.

ghost use Rattle.std.specs.Prelude.{◌≡◌, ◌+◌, ◌≤◌, ◌<◌, ◌^◌, [], length, map, IfOk, OnOk};
ghost use Rattle.hs_base.specs.declared.limits.TheConstants.{MAX_OPERATIONS, MIN_SIZE};
ghost use Rattle.hs_records.specs.Books.{client_book_of};
ghost use Rattle.hs_records.specs.Plain.{settings_of};
ghost use Rattle.hs_words.specs.Buffers.{buffer_in};
ghost use Rattle.hs_records.specs.Validity.{operation_pieces, client_pieces};
ghost use Rattle.hs_records.specs.Views.{operation_of};
ghost use Rattle.hs_client.specs.Playable.{IsPlayable};
ghost use Rattle.hs_replay_client.specs.Places.{ReplayClientIsAt, IsWithin, Goes, KeepsPool, IsWithinAt, GoesOn, TakesChunk, TakesCrumb, TakesTrigger, TellsLeft, TellsBare, IsDone, Notes};

use crate::doing::Doing;
use crate::well::Well;
use crate::writer::Writer;
use hs_auto::Auto;
use hs_base::{AutoRule, ClientId, Crumb, List, Memory, Settings, Trigger};
use hs_client::sending_laws::{
    cores_hand_out_so_far, items_are_sent_in_order, the_first_crumbs_are_sent,
    the_first_triggers_are_sent, timed_pages_are_timely,
};
use hs_client::{ClientCore, any_steps_make_the_book};
use hs_pool::PlainPool;
use hs_records::{ClientBook, Op, piece_count};
use hs_words::Held;
use std::alloc::Global;
use std::collections::VecDeque;
use std::marker::Model;

/// A client of a replay: what it has done of its operations, and what it sent that its agent has not taken yet. Where a call
/// answers that memory is wanted, the client is of no more use.
#[derive(Drop)]
pub struct ReplayClient {
    doing: Doing,
    done: usize,
}

impl Model for ReplayClient {
    ghost use Rattle.hs_replay_client.specs.ReplayClients.{PlainReplayClient};

    ghost Value = { PlainReplayClient };

    ghost use Rattle.hs_replay_client.specs.ReplayClientInside.{replay_client_in};

    ghost view = { replay_client_in };
}

impl ReplayClient {
    /// A client that has done none of these operations, which are those of a client of a valid workload with these settings.
    pub fn make(
        alloc: Global,
        client: ClientId,
        settings: &Settings,
        operations: &[Op],
    ) -> Result<ReplayClient, Memory>
        requires { IsPlayable (settings_of settings.now) (map operation_of operations.now) }
        ensures { IfOk result (ReplayClientIsAt (settings_of settings.now) client (map operation_of operations.now) [] 0 0 0 0) }
    {
        any_steps_make_the_book::<()>();
        cores_hand_out_so_far::<()>();
        the_first_crumbs_are_sent();
        the_first_triggers_are_sent();
        timed_pages_are_timely();
        let mut autos = List::with_room(alloc, settings.autos.len())?;
        for rule in settings.autos.as_slice() {
            autos.push(Auto::make(alloc, *rule)?);
        }
        let calls = count_calls(settings.size, operations);
        let writer = Writer {
            core: ClientCore::make(alloc, client, settings.size, calls)?,
            chunks: VecDeque::new(alloc),
        };
        Ok(ReplayClient {
            doing: Doing {
                writer,
                autos,
                crumbs: VecDeque::new(alloc),
                triggers: VecDeque::new(alloc),
            },
            done: 0,
        })
    }

    /// Does the next of its operations, at most so many, where these are the rules of its settings' autotriggers. Each page that
    /// they start draws a buffer of the pool.
    pub fn play(
        &mut self,
        pool: &mut PlainPool,
        rules: &[AutoRule],
        operations: &[Op],
        stride: u32,
    ) -> Result<(), Memory>
        requires within { IsWithin rules.now (map operation_of operations.now) pool.old self.old }
        requires stamps { pool.old.events + MAX_OPERATIONS < 2 ^ 64 }
        ensures goes { OnOk result (Goes stride (map operation_of operations.now) self.old pool.old self.new pool.new) }
        ensures pool { OnOk result (KeepsPool pool.old pool.new) }
    {
        self.play_from(pool, rules, operations, stride)
    }

    /// Does the next of its operations as `play` does, where the pages that they start draw from a well. The well is ready for
    /// as many draws as a client can make.
    pub fn play_from<W: Well>(
        &mut self,
        well: &mut W,
        rules: &[AutoRule],
        operations: &[Op],
        stride: u32,
    ) -> Result<(), Memory>
        requires { IsWithinAt W.way rules.now (map operation_of operations.now) well.old self.old }
        ensures { OnOk result (GoesOn W.way stride (map operation_of operations.now) self.old well.old self.new well.new) }
    {
        any_steps_make_the_book::<()>();
        cores_hand_out_so_far::<()>();
        the_first_crumbs_are_sent();
        the_first_triggers_are_sent();
        timed_pages_are_timely();
        let end = (self.done + stride as usize).min(operations.len());
        for operation in &operations[self.done..end] {
            self.doing.step(well, rules, operation)?;
        }
        self.done = end;
        Ok(())
    }

    /// The next chunk for the agent, or `None` where none waits.
    pub fn next_chunk(&mut self) -> Option<Held<()>>
        ensures { TakesChunk self.old (buffer_in result) self.new }
    {
        items_are_sent_in_order();
        self.doing.writer.chunks.pop_front()
    }

    /// The next crumb for the agent, or `None` where none waits.
    pub fn next_crumb(&mut self) -> Option<Crumb>
        ensures { TakesCrumb self.old result self.new }
    {
        items_are_sent_in_order();
        self.doing.crumbs.pop_front()
    }

    /// The next trigger for the agent, or `None` where none waits.
    pub fn next_trigger(&mut self) -> Option<Trigger>
        ensures { TakesTrigger self.old result self.new }
    {
        items_are_sent_in_order();
        self.doing.triggers.pop_front()
    }

    /// Whether operations are left of these, which are the client's.
    pub fn has_left(&self, operations: &[Op]) -> bool
        ensures { TellsLeft (map operation_of operations.now) self.now result }
    {
        self.done < operations.len()
    }

    /// Whether nothing waits for the agent.
    pub fn is_bare(&self) -> bool
        ensures { TellsBare self.now result }
    {
        self.doing.is_bare()
    }

    /// The book of the client: its draws and the pages that it wrote, when all its operations are done.
    pub fn finish(self) -> ClientBook
        requires { IsDone self }
        ensures { Notes self (client_book_of result) }
    {
        any_steps_make_the_book::<()>();
        self.doing.writer.core.finish()
    }
}

/// How many calls of a core the operations come to at most: a point counts once for each of its pieces.
fn count_calls(size: u32, operations: &[Op]) -> u32
    requires least { MIN_SIZE ≤ size }
    requires few { client_pieces size (map operation_of operations.now) ≤ MAX_OPERATIONS }
    ensures { result ≡ client_pieces size (map operation_of operations.now) }
{
    let mut calls = 0;
    for operation in operations {
        calls += calls_of(size, operation);
    }
    calls
}

/// How many calls of a core an operation comes to at most.
fn calls_of(size: u32, operation: &Op) -> u32
    requires least { MIN_SIZE ≤ size }
    requires few { operation_pieces size (operation_of operation.now) ≤ MAX_OPERATIONS }
    ensures { result ≡ operation_pieces size (operation_of operation.now) }
{
    match operation {
        Op::Point { payload, .. } => piece_count(size, payload.len()) as u32,
        _ => 1,
    }
}
