//! The triggers that an intake takes.

ghost use Rattle.std.specs.Prelude.{◌≡◌, ◌<◌, Bool, true, false, None, IfOk, OnOk, OnErr};
ghost use Rattle.hs_base.specs.Rules.{is_declared};
ghost use Rattle.hs_ring.specs.Parts.{Leased};
ghost use Rattle.hs_agent.specs.Runs.{AgentRun, Follows, Knows};
ghost use Rattle.hs_intake.specs.Intakes.{Stands, TakesTrigger, after_act, told_on, trigger_line};
ghost use Rattle.hs_intake.specs.declared.took.Fired.TheVariants.{Taken};
ghost use Rattle.hs_intake.specs.Taking.{TakesFired, TakesMost, DropsOne, DropsMany, TakesTriggers};

use super::{Intake, enter, say};
use crate::took::{Back, Fired, Stop, Took, TookTriggers};
use hs_agent::Agent;
use hs_base::limits::MAX_TAKEN;
use hs_base::{Memory, Told, Trigger};
use hs_ring::Lease;

impl Intake {
    /// The agent takes the next trigger of a client, if one has come and a word has a place. What it tells is said.
    fn take_trigger(&mut self, client: u16) -> Fired
        requires low { client < self.old.clients }
        requires front { self.old.back ≡ None }
        ensures next { (run : AgentRun Leased) → Stands run self.old → TakesFired run client self.old result self.new }
        ensures clients { self.new.clients ≡ self.old.clients }
        ensures taken { (tells : Bool) → result ≡ Taken tells → self.new.back ≡ None }
    {
        if self.is_mute() {
            return Fired::Stopped(Stop::Words);
        }
        if self.is_short() {
            return Fired::Stopped(Stop::Claims);
        }
        let Some(trigger) = self.port.trigger(client) else {
            return Fired::Stopped(Stop::Empty);
        };
        match fire(&mut self.agent, client, &trigger) {
            Ok(told) => {
                let tells = told.is_some();
                self.unsaid = told;
                enter(&mut self.claims, &self.unsaid);
                say(&mut self.mail, &mut self.claims, &mut self.unsaid);
                Fired::Taken { tells }
            }
            Err(_) => {
                self.back = Some(Back::Trigger { client, trigger });
                Fired::Stopped(Stop::Memory)
            }
        }
    }

    /// The agent takes the triggers of a client that have come, at most 64.
    fn take_triggers(&mut self, client: u16) -> TookTriggers
        requires low { client < self.old.clients }
        requires front { self.old.back ≡ None }
        ensures takes { (run : AgentRun Leased) → Stands run self.old → TakesMost run client self.old result self.new }
        ensures clients { self.new.clients ≡ self.old.clients }
    {
        let mut limited = 0;
        for count in 0..MAX_TAKEN {
            match self.take_trigger(client) {
                Fired::Taken { tells } => limited += u32::from(!tells),
                Fired::Stopped(stop) => {
                    return TookTriggers {
                        took: Took { count, stop },
                        limited,
                    };
                }
            }
        }
        TookTriggers {
            took: Took {
                count: MAX_TAKEN,
                stop: Stop::Most,
            },
            limited,
        }
    }

    /// The next trigger of a client leaves its link, if one has come. The agent does not see it.
    fn drop_trigger(&mut self, client: u16) -> bool
        requires { client < self.old.clients }
        ensures drops { (run : AgentRun Leased) → Stands run self.old → DropsOne run client self.old result self.new }
        ensures clients { self.new.clients ≡ self.old.clients }
    {
        self.port.trigger(client).is_some()
    }

    /// The triggers of a client that have come leave their link, at most 64. The agent does not see them.
    fn drop_triggers(&mut self, client: u16) -> TookTriggers
        requires { client < self.old.clients }
        ensures { (run : AgentRun Leased) → Stands run self.old → DropsMany run client self.old result self.new }
    {
        for count in 0..MAX_TAKEN {
            if !self.drop_trigger(client) {
                return TookTriggers::dropped(count, Stop::Empty);
            }
        }
        TookTriggers::dropped(MAX_TAKEN, Stop::Most)
    }

    /// The agent takes the triggers of a client that have come, at most 64, while words and claims have a place. Where claims have none at
    /// first, or no number is left for one more that is admitted, a trigger leaves its link, and the agent does not see it. The answer
    /// counts these, and those of whose id the bucket has no token. There is no more of a client that is not there, and while something
    /// waits at the front nothing is taken.
    pub fn triggers_of(&mut self, client: u16) -> TookTriggers
        ensures { (run : AgentRun Leased) → Stands run self.old → TakesTriggers run client self.old result self.new }
    {
        if client >= self.clients {
            return TookTriggers::none(Stop::Empty);
        }
        if self.has_front() {
            return TookTriggers::none(Stop::Memory);
        }
        if self.is_short() {
            return self.drop_triggers(client);
        }
        self.take_triggers(client)
    }
}

/// The agent takes a trigger, if a number is left for one more. Answers what is to be told, if it is admitted.
pub(super) fn fire(
    agent: &mut Agent<Lease>,
    client: u16,
    trigger: &Trigger,
) -> Result<Option<Told>, Memory>
    requires { Knows agent.old (λ run. is_declared run.settings.triggers trigger.now.trigger ≡ true) }
    ensures told { (run : AgentRun Leased) → Follows agent.old run → IfOk result (λ told. told ≡ told_on run client trigger.now) }
    ensures after { (run : AgentRun Leased) → Follows agent.old run → OnOk result (Follows agent.new (after_act run (TakesTrigger client trigger.now))) }
    ensures same { OnErr result (agent.new ≡ agent.old) }
    ensures alive { agent.new.spent ≡ false → agent.old.spent ≡ false }
{
    if agent.admitted() == u32::MAX {
        return Ok(None);
    }
    agent.try_trigger(client, trigger)
}
