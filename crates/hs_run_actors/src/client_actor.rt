//! A client of a run.

ghost use Rattle.std.specs.Prelude.{◌≡◌, List, map, count_by};
ghost use Rattle.hs_base.specs.declared.ids.ClientId.{ClientId};
ghost use Rattle.hs_client.specs.Core.{is_null};
ghost use Rattle.hs_records.specs.Books.{client_book_of};
ghost use Rattle.hs_live.specs.Calls.{AreMates, MeetsAt};
ghost use Rattle.hs_live.specs.Live.{outgoing};
ghost use Rattle.hs_records.specs.Plain.{Operation, PlainSettings, settings_of};
ghost use Rattle.hs_records.specs.Views.{operation_of};
ghost use Rattle.hs_run_actors.specs.Standing.{ClientActorIsAt, Goes, TellsLeft, IsDone, Notes};

use crate::performing::perform;
use hs_base::{Gate, Settings};
use hs_live::{AgentPort, Client, Closed, ends_go_on, what_was_done_was_sent};
use hs_records::Op;
use std::marker::Model;

/// A client in a run: the client of the library, with its number among the actors of the run, and how many of its operations are
/// done.
#[derive(Drop)]
pub struct ClientActor {
    pub(crate) client: Client,
    pub(crate) actor: u32,
    pub(crate) done: usize,
}

impl Model for ClientActor {
    ghost use Rattle.hs_run_actors.specs.ClientActors.{PlainClientActor};

    ghost Value = { PlainClientActor };

    ghost use Rattle.hs_run_actors.specs.ClientActorInside.{client_actor_of};

    ghost view = { client_actor_of };
}

impl ClientActor {
    /// Does the next of its operations, at most as many as the stride, and puts into the rings what waits in the outboxes. It
    /// passes the gate before each operation, whose number is the step. It neither waits nor takes memory.
    pub fn perform_next<G: Gate>(&mut self, gate: &G, settings: &Settings, operations: &[Op])
        requires { (client : ClientId) × ClientActorIsAt (settings_of settings.now) client (map operation_of operations.now) self.old }
        ensures { Goes (settings_of settings.now) (map operation_of operations.now) self.old self.new }
    {
        ends_go_on();
        let end = (self.done + settings.stride as usize).min(operations.len());
        let rules = settings.autos.as_slice();
        for place in self.done..end {
            gate.pass(self.actor, place as u32);
            perform(&mut self.client, rules, &operations[place]);
        }
        self.done = end;
        self.client.flush();
    }

    /// Whether operations are left of these, which are the client's.
    pub fn has_left(&self, operations: &[Op]) -> bool
        ensures { TellsLeft (map operation_of operations.now) self.now result }
    {
        self.done < operations.len()
    }

    /// How many of its operations are done.
    pub fn done(&self) -> usize
        ensures { result ≡ self.now.done }
    {
        self.done
    }

    /// The number of draws so far that found the pool empty.
    pub fn nulls(&self) -> u32
        ensures { result ≡ count_by is_null self.now.client.core.draws }
    {
        self.client.nulls()
    }

    /// Brings the client together with the port of its node's agent, which has it by this number.
    pub fn meet(&mut self, port: &mut AgentPort, number: u16)
        requires { AreMates number port.old self.old.client }
        ensures met { MeetsAt number port.old self.old.client port.new self.new.client }
        ensures done { self.new.done ≡ self.old.done }
        ensures at { (settings : PlainSettings) (client : ClientId) (ops : List Operation) → ClientActorIsAt settings client ops self.old → ClientActorIsAt settings client ops self.new }
    {
        port.meet(&mut self.client, number);
    }

    /// Gives back what the client noted, and its ends, when all operations are done.
    pub fn close(self) -> Closed
        requires { IsDone self }
        ensures book { Notes self (client_book_of result.book) }
        ensures drawer { result.drawer ≡ self.client.drawer }
        ensures chunks { outgoing result.chunks ≡ self.client.chunks }
        ensures crumbs { result.crumbs ≡ self.client.crumbs }
        ensures triggers { result.triggers ≡ self.client.triggers }
    {
        what_was_done_was_sent();
        self.client.close()
    }
}
