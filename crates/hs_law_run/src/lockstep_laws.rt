//! What holds of the lockstep schedule. These functions do nothing: their contracts say it.

ghost use Rattle.hs_law_run.specs.OneSchedule.{VersionsHaveOneSchedule};
ghost use Rattle.hs_law_run.specs.Reaching.{MachinesAreWhole, MachinesStartSo, MachinesLeadOn};
ghost use Rattle.hs_law_run.specs.Parts.{ClientsGoSo, AgentsTakeSo, AgentsGiveSo, CoordinatorHearsSo};
ghost use Rattle.hs_law_run.specs.Conditions.{MachinesFit, MachinesTellWithin};
ghost use Rattle.hs_law_run.specs.Ending.{RoundsEnd, ClosingEnds};
ghost use Rattle.hs_law_run.specs.Told.{ScheduleIsDoings};
ghost use Rattle.hs_law_run.specs.Clauses.{ScheduleHasShape, ScheduleHasStamps, ScheduleHasHistory, ScheduleHasAnswers, ScheduleHasPasses, ScheduleHasOffers, ScheduleIsFollowed, ScheduleHasUnreads, ScheduleHasRounds, ScheduleHasPace, ScheduleIsBare, ScheduleIsLawful, ValidWorkloadsRun};

use crate::laws::{
    doings_are_enough, doings_are_in_pace, doings_are_whole_passes, doings_can_be_followed,
    doings_make_their_offers, none_is_unread,
};
use hs_client::sending_laws::{the_first_chunks_are_sent, the_first_operations_send};
use hs_law_agent::laws::crumbs_lead_below;
use hs_law_journal::laws::{following_plays_out, known};
use hs_records::pieces_are_counted;

/// A workload has one schedule, whichever version it is written in.
pub fn versions_have_one_schedule()
    ensures { VersionsHaveOneSchedule }
{}

/// The schedule is doings that keep what its parts promise, whatever the workload.
pub fn schedule_is_doings()
    ensures { ScheduleIsDoings }
{
    known();
}

/// The lockstep journal of a workload keeps the clauses on order (L5 to L9): every log is one whole pass after another in which
/// all offers are made, no offer is unread, each step is ready when its turn comes, and all agents make as many passes, at least
/// as many as there are rounds.
pub fn schedule_has_order()
    ensures passes { ScheduleHasPasses }
    ensures offers { ScheduleHasOffers }
    ensures unreads { ScheduleHasUnreads }
    ensures followed { ScheduleIsFollowed }
    ensures rounds { ScheduleHasRounds }
{
    schedule_is_doings();
    doings_are_whole_passes();
    doings_make_their_offers();
    none_is_unread();
    doings_can_be_followed();
    doings_are_enough();
}

/// Agents and coordinator of the schedule do not fall behind the clients.
pub fn schedule_has_pace()
    ensures { ScheduleHasPace }
{
    known();
    the_first_operations_send();
    the_first_chunks_are_sent();
    doings_are_in_pace();
}

/// The schedule has the shape of its workload.
pub fn schedule_has_shape()
    ensures { ScheduleHasShape }
{
    known();
}

/// Its pools keep their promise: the stamps of each node number the events of its pool, these are a history of it, and each give answers the
/// draw of its chunk.
pub fn schedule_has_pools()
    ensures stamps { ScheduleHasStamps }
    ensures history { ScheduleHasHistory }
    ensures answers { ScheduleHasAnswers }
{
    known();
}

/// Closing ends, and then nothing is left over.
pub fn schedule_is_bare()
    ensures { ScheduleIsBare }
{
    known();
}

/// Valid workloads have all that the laws of the schedule ask for.
pub fn valid_workloads_run()
    ensures { ValidWorkloadsRun }
{}

/// The lockstep journal of each valid workload is lawful.
pub fn schedule_is_lawful()
    ensures { ScheduleIsLawful }
{
    valid_workloads_run();
    schedule_has_shape();
    schedule_has_pools();
    schedule_has_order();
    schedule_is_bare();
    schedule_has_pace();
}

/// What a machine noted up to some part of a round is performed, and nothing of it is left over.
pub fn machines_are_whole()
    ensures { MachinesAreWhole }
{
    known();
    valid_workloads_run();
}

/// At the start of the schedule no step is performed.
pub fn machines_start_so()
    ensures { MachinesStartSo }
{
    known();
}

/// All parts of rounds and passes lead from machine to machine.
pub fn machines_lead_on()
    ensures { MachinesLeadOn }
{}

/// A client's turn draws from its node's pool, and leaves all else.
pub fn clients_go_so()
    ensures { ClientsGoSo }
{
    known();
    valid_workloads_run();
}

/// What the agents take is ready step by step.
pub fn agents_take_so()
    ensures { AgentsTakeSo }
{
    known();
}

/// What the agents give may be given, step by step.
pub fn agents_give_so()
    ensures { AgentsGiveSo }
{
    known();
    valid_workloads_run();
}

/// The coordinator hears what the nodes told, one message after another.
pub fn coordinator_hears_so()
    ensures { CoordinatorHearsSo }
{
    known();
}

/// On the way through the schedule all that is taken, told and given fits.
pub fn machines_fit()
    ensures { MachinesFit }
{
    known();
    valid_workloads_run();
}

/// There are as many rounds as the longest client needs.
pub fn rounds_end()
    ensures { RoundsEnd }
{
    known();
    valid_workloads_run();
}

/// The closing ends where nothing waits any more, and no earlier.
pub fn closing_ends()
    ensures { ClosingEnds }
{
    schedule_is_bare();
    pieces_are_counted();
    valid_workloads_run();
}

/// What agents tell leads to nodes that there are.
pub fn machines_tell_within()
    ensures { MachinesTellWithin }
{
    following_plays_out();
    crumbs_lead_below();
}
