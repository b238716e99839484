//! A node in the rounds: its clients and its agent, which act at once.

ghost use Rattle.std.specs.Thread.{IsSync};
ghost use Rattle.std.specs.Prelude.{◌≡◌, ℕ, ◌<◌, length, OnOk};
ghost use Rattle.hs_records.specs.Plain.{PlainWorkload, settings_of};
ghost use Rattle.hs_run_actors.specs.Work.{NodeWork};
ghost use Rattle.hs_run.specs.RunStates.{NodeActorsStand};
ghost use Rattle.hs_run.specs.Meeting.{NodeActorsMeet};
ghost use Rattle.hs_run.specs.Going.{MayGo, HasGone, AllMayGo, AllHaveGone};
ghost use Rattle.hs_run.specs.Sites.{MayPass, HasPassed, MayAct, HasActed, TellsSiteLeft, StandsSomewhere, MeetsOne};

use hs_base::{Gate, List, Memory, Settings};
use hs_records::Op;
use hs_run_actors::{AgentActor, ClientActor};
use std::marker::Model;
use std::thread;
use std::thread::{Threads, join_mut};

/// A node: its clients, by number, and its agent.
#[derive(Drop)]
pub(crate) struct NodeActors {
    pub(crate) callers: List<ClientActor>,
    pub(crate) agent: AgentActor,
}

impl Model for NodeActors {
    ghost use Rattle.hs_run.specs.RunStates.{PlainNodeActors as Stood};

    ghost Value = { Stood };

    ghost use Rattle.hs_run.specs.Layout.{site_of};

    ghost view = { site_of };
}

/// Each of these clients does its next operations, each in its own thread if one can be started.
fn all_perform_next<R: Threads + Sync, G: Gate>(
    rt: &R,
    gate: &G,
    settings: &Settings,
    operations: &[List<Op>],
    callers: &mut [ClientActor],
)
    requires { AllMayGo (settings_of settings.now) operations.now callers.old }
    ensures { AllHaveGone (settings_of settings.now) operations.now callers.old callers.new }
{
    let threads = callers.len().max(1);
    thread::for_each_mut(
        rt,
        callers,
        threads,
        &|number: usize, caller: &mut ClientActor|
            requires { (number < length operations.now) × MayGo (settings_of settings.now) operations.now number caller.now }
            ensures { HasGone (settings_of settings.entry.now) operations.entry.now number caller.entry.now caller.exit.now }
        { caller.perform_next(gate, settings, operations[number].as_slice()) },
    );
}

/// The agent makes its pass.
fn pass<G: Gate>(agent: &mut AgentActor, gate: &G) -> Result<(), Memory>
    requires { MayPass agent.old }
    ensures { OnOk result (HasPassed agent.old agent.new) }
{
    agent.pass(gate)
}

/// The agent makes its pass while the clients do their next operations.
fn pass_and_go<R: Threads + Sync, G: Gate>(
    rt: &R,
    gate: &G,
    settings: &Settings,
    operations: &[List<Op>],
    agent: &mut AgentActor,
    callers: &mut [ClientActor],
) -> Result<(), Memory>
    requires pass { MayPass agent.old }
    requires go { AllMayGo (settings_of settings.now) operations.now callers.old }
    ensures passed { OnOk result (HasPassed agent.old agent.new) }
    ensures gone { AllHaveGone (settings_of settings.now) operations.now callers.old callers.new }
{
    let (passed, _) = join_mut(
        rt,
        &mut || -> Result<(), Memory>
            requires { MayPass agent.now }
            ensures { OnOk result (HasPassed agent.entry.now agent.exit.now) }
        { pass(agent, gate) },
        &mut ||
            requires { IsSync R.row × AllMayGo (settings_of settings.now) operations.now callers.now }
            ensures { AllHaveGone (settings_of settings.entry.now) operations.entry.now callers.entry.now callers.exit.now }
        { all_perform_next(rt, gate, settings, operations, callers) },
    );
    passed
}

impl NodeActors {
    /// The agent makes a pass while the clients do their next operations, which are these. `Memory` is the agent's, and the
    /// clients go on all the same.
    pub(crate) fn act<R: Threads + Sync, G: Gate>(
        &mut self,
        rt: &R,
        gate: &G,
        settings: &Settings,
        operations: &[List<Op>],
    ) -> Result<(), Memory>
        requires { MayAct settings.now operations.now self.old }
        ensures { OnOk result (HasActed settings.now operations.now self.old self.new) }
    {
        pass_and_go(
            rt,
            gate,
            settings,
            operations,
            &mut self.agent,
            self.callers.as_mut_slice(),
        )
    }

    /// The agent's port meets the clients, one after another.
    pub(crate) fn meet(&mut self)
        requires { StandsSomewhere self.old }
        ensures { (W : PlainWorkload) (node : ℕ) (work : NodeWork) → NodeActorsStand W node work self.old → NodeActorsMeet W node work self.old self.new }
    {
        let count = self.callers.len();
        for number in 0..count {
            self.meet_one(number);
        }
    }

    /// The agent's port meets a client.
    fn meet_one(&mut self, number: usize)
        requires number { number < length self.old.callers }
        requires stands { StandsSomewhere self.old }
        ensures { (W : PlainWorkload) (node : ℕ) (work : NodeWork) → NodeActorsStand W node work self.old → MeetsOne W node work number self.old self.new }
    {
        let caller = &mut self.callers.as_mut_slice()[number];
        self.agent.meet(caller, number as u16);
    }

    /// Whether a client has operations left.
    pub(crate) fn has_left(&self, operations: &[List<Op>]) -> bool
        requires { length self.now.callers ≡ length operations.now }
        ensures { TellsSiteLeft operations.now self.now result }
    {
        for number in 0..self.callers.len() {
            if self.callers.as_slice()[number].has_left(operations[number].as_slice()) {
                return true;
            }
        }
        false
    }
}
