//! How an intake is made, with the clients of its node.

ghost use Rattle.std.specs.Prelude.{◌≡◌, IfOk, IfErr};
ghost use Rattle.hs_base.specs.Rules.{AreRules};
ghost use Rattle.hs_records.specs.Plain.{settings_of};
ghost use Rattle.hs_node_client.specs.Fitting.{HasFault};
ghost use Rattle.hs_intake.specs.Making.{IsMade};

use crate::intake::Intake;
use hs_agent::Agent;
use hs_base::{List, NodeId, Settings};
use hs_claimed::ClaimedTraces;
use hs_inbox::Inbox;
use hs_link::Receiver;
use hs_mail::Mail;
use hs_node_client::{
    ClientLimits, Made, MakeFault, NodeClient, SegmentKey, SegmentNote, make_clients,
};
use std::alloc::Global;

/// An intake and the clients of its node, by number, with the ends that receive their notes of segments.
#[derive(Drop)]
pub struct MadeIntake {
    pub intake: Intake,
    pub segments: List<Receiver<SegmentNote, SegmentKey>>,
    pub clients: List<NodeClient>,
}

/// An intake that has taken nothing, with the clients of its node, of which nothing was done. Its agent keeps no journal. So many asks
/// may wait, and so many traces may be claimed.
pub fn make_intake(
    alloc: Global,
    settings: &Settings,
    limits: &ClientLimits,
    mail: Mail,
    asks: u32,
    claims: u32,
) -> Result<MadeIntake, MakeFault>
    requires rules { AreRules settings.now.triggers.items }
    requires size { limits.now.size ≡ settings.now.size }
    ensures made { IfOk result (IsMade (settings_of settings.now) limits.now mail asks claims) }
    ensures fault { IfErr result (HasFault limits.now settings.now.autos.items settings.now.triggers.items settings.now.nodes) }
{
    let made = make_clients(
        alloc,
        limits,
        &settings.autos,
        &settings.triggers,
        settings.nodes,
    )?;
    let Ok(agent) = Agent::bare(alloc, NodeId(limits.node), settings) else {
        return Err(MakeFault::Memory);
    };
    let Ok(inbox) = Inbox::make(alloc, NodeId(limits.node), &settings.triggers, asks) else {
        return Err(MakeFault::Memory);
    };
    let Ok(claims) = ClaimedTraces::make(alloc, claims) else {
        return Err(MakeFault::Memory);
    };
    let Made {
        port,
        late,
        segments,
        clients,
    } = made;
    Ok(MadeIntake {
        intake: Intake::make(agent, port, late, mail, inbox, claims, limits.clients),
        segments,
        clients,
    })
}
