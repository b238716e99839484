//! An agent that follows its log.

ghost use Rattle.std.specs.Prelude.{◌≡◌, IfOk, IfSome, IsSome};
ghost use Rattle.hs_records.specs.declared.journal.Step.TheVariants as steps;
ghost use Rattle.hs_records.specs.Plain.{PlainWorkload};
ghost use Rattle.hs_records.specs.Views.{workload_of};
ghost use Rattle.hs_check_follow.specs.Nodes.{IsTake, IsOffer, Readies, MayPerform, MayDo, KnowsRun, Performs, Does, PerformsOffer, name_of};

use crate::client::FollowedClient;
use crate::clients::{next_chunk, next_crumb, next_trigger};
use crate::found::FoundPage;
use hs_agent::{Agent, Input};
use hs_base::{Ask, List, Memory, Told};
use hs_law_agent::laws::{events_add_this, events_go_on, steps_say_what_they_tell};
use hs_records::{Step, Workload};
use hs_words::{Chunk, Given};

/// An agent that performs the steps of its log, with what its clients send. Where a call answers that memory is wanted, it is of
/// no more use.
#[derive(Drop)]
pub struct FollowedAgent {
    pub(crate) agent: Agent<()>,
    pub(crate) clients: List<FollowedClient>,
    /// All that the agent told.
    pub(crate) said: List<Told>,
    /// How many asks it took.
    pub(crate) asked: usize,
    /// The pages of the chunks that it gave back.
    pub(crate) gives: List<FoundPage>,
}

impl FollowedAgent {
    /// Takes the next chunk of a client, where it is there. Answers whether it was.
    fn take_chunk(&mut self, workload: &Workload, client: u16) -> Result<bool, Memory>
        requires { MayDo (workload_of workload.now) (steps.Chunk client) self.old }
        ensures { IfOk result (Does (workload_of workload.now) (steps.Chunk client) self.old self.new) }
    {
        events_go_on();
        events_add_this();
        steps_say_what_they_tell();
        match next_chunk(&mut self.clients, workload, client)? {
            None => Ok(false),
            Some(held) => {
                self.agent.take_chunk(client, held)?;
                Ok(true)
            }
        }
    }

    /// Makes a turn, which is always ready.
    fn turn(&mut self) -> Result<bool, Memory>
        requires { (W : PlainWorkload) × MayDo W steps.Turn self.old }
        ensures { (W : PlainWorkload) → IfOk result (Does W steps.Turn self.old self.new) }
    {
        events_go_on();
        events_add_this();
        steps_say_what_they_tell();
        self.agent.turn()?;
        Ok(true)
    }

    /// The input of a step that takes a crumb, a trigger or an ask, where it is there, out of its queue. These are all asks that were sent
    /// to the agent.
    fn next_input(&mut self, step: Step, asks: &[Ask]) -> Option<Input<()>>
        requires { IsTake step }
        ensures { (W : PlainWorkload) → Readies W step asks.now self.old result self.new }
    {
        match step {
            Step::Crumb { client } => match next_crumb(&mut self.clients, client) {
                Some(crumb) => Some(Input::Crumb { client, crumb }),
                None => None,
            },
            Step::Trigger { client } => match next_trigger(&mut self.clients, client) {
                Some(trigger) => Some(Input::Trigger { client, trigger }),
                None => None,
            },
            Step::Ask => {
                if self.asked >= asks.len() {
                    return None;
                }
                let ask = asks[self.asked];
                self.asked += 1;
                Some(Input::Ask { ask })
            }
            Step::Chunk { .. }
            | Step::Turn
            | Step::Given { .. }
            | Step::Missed { .. }
            | Step::Unread => unreachable!(),
        }
    }

    /// Performs a step that takes a crumb, a trigger or an ask, where it is ready. Answers whether it was. These are all asks that were
    /// sent to the agent.
    fn take(&mut self, step: Step, asks: &[Ask]) -> Result<bool, Memory>
        requires kind { IsTake step }
        requires may { (W : PlainWorkload) × MayPerform W step asks.now self.old }
        ensures { (W : PlainWorkload) → IfOk result (Performs W step asks.now self.old self.new) }
    {
        events_go_on();
        events_add_this();
        steps_say_what_they_tell();
        match self.next_input(step, asks) {
            None => Ok(false),
            Some(input) => match self.agent.step(input)? {
                None => Ok(true),
                Some(told) => {
                    self.said.append(told)?;
                    Ok(true)
                }
            },
        }
    }

    /// Offers the first of the hand, where there is one, and answers as a step says that does so. Answers whether there was one.
    fn offer(&mut self, step: Step) -> Result<bool, Memory>
        requires kind { IsOffer step }
        requires stands { KnowsRun self.old }
        ensures { IfOk result (PerformsOffer step self.old self.new) }
    {
        events_go_on();
        events_add_this();
        steps_say_what_they_tell();
        match self.agent.offer()? {
            None => Ok(false),
            Some(held) => {
                match step {
                    Step::Given { stamp } => {
                        self.gives.append(page_in(&held.chunk))?;
                        self.agent.gave(Given::Given { stamp });
                    }
                    Step::Missed { stamp } => self.agent.gave(Given::Missed { held, stamp }),
                    Step::Unread => self.agent.gave(Given::Unread { held }),
                    Step::Chunk { .. }
                    | Step::Crumb { .. }
                    | Step::Trigger { .. }
                    | Step::Ask
                    | Step::Turn => unreachable!(),
                }
                Ok(true)
            }
        }
    }

    /// Performs a step, where it is ready. Answers whether it was. These are all asks that were sent to the agent.
    pub(crate) fn perform(
        &mut self,
        workload: &Workload,
        step: Step,
        asks: &[Ask],
    ) -> Result<bool, Memory>
        requires { MayPerform (workload_of workload.now) step asks.now self.old }
        ensures { IfOk result (Performs (workload_of workload.now) step asks.now self.old self.new) }
    {
        match step {
            Step::Chunk { client } => self.take_chunk(workload, client),
            Step::Turn => self.turn(),
            Step::Given { .. } | Step::Missed { .. } | Step::Unread => self.offer(step),
            Step::Crumb { .. } | Step::Trigger { .. } | Step::Ask => self.take(step, asks),
        }
    }
}

/// The page of a chunk, which has one.
fn page_in(chunk: &Chunk) -> FoundPage
    requires { IsSome chunk.now.page }
    ensures { IfSome chunk.now.page (λ sheet. result ≡ name_of sheet) }
{
    match chunk.header() {
        Some(header) => FoundPage {
            client: header.client.number,
            page: header.page,
        },
        None => unreachable!(),
    }
}
