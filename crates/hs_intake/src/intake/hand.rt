//! The hand of an intake: the chunks whose buffers are to be given back.

ghost use Rattle.std.specs.Prelude.{◌≡◌, IfSome, IsSome, IfOk, OnErr, None};
ghost use Rattle.hs_claimed.specs.Claims.{after_spoke};
ghost use Rattle.hs_ring.specs.Parts.{Leased};
ghost use Rattle.hs_agent.specs.Runs.{AgentRun, Follows, Knows, state_of, first_place, answer_of};
ghost use Rattle.hs_wire.specs.Messages.{SaysReported};
ghost use Rattle.hs_mail.specs.Letters.{Posts};
ghost use Rattle.hs_intake.specs.Intakes.{Stands};
ghost use Rattle.hs_intake.specs.Handing.{page_of, say_by, handed_by, is_given, SaysFirst, GivesFirst, HandsOut};

use super::Intake;
use crate::took::{Handed, PartedChunk, Say};
use hs_agent::{Agent, Left};
use hs_base::Group;
use hs_claimed::ClaimedTraces;
use hs_mail::{Mail, Unposted};
use hs_ring::Lease;
use hs_wire::Reported;
use hs_words::{Chunk, Given};

impl Intake {
    /// Offers the first of the hand to the pool. Answers whether it took the buffer; `None` where memory was wanting.
    fn give_first(&mut self) -> Option<bool>
        requires { (run : AgentRun Leased) → Stands run self.old → IsSome (first_place (state_of run)) }
        ensures { (run : AgentRun Leased) → Stands run self.old → GivesFirst run self.old result self.new }
    {
        let Ok(offered) = self.agent.offer() else {
            return None;
        };
        let Some(held) = offered else { unreachable!() };
        let given = self.port.give(held);
        let was_given = is_given(&given);
        self.agent.gave(given);
        Some(was_given)
    }

    /// Offers the first chunk of the hand to the pool, so that its buffer can be drawn again (`docs/RULES.md`, "A node's pass").
    /// At the first offer of a chunk its page is posted to the hub if it was reported, and the answer has its trace and why it
    /// left. `Waits` comes where the mail has no place or no number for the page, and then nothing changed; `Offered` says
    /// whether the pool took the buffer, and if not a later call offers it again; `Empty` and `Spent` are of an empty hand and of
    /// an agent that is spent.
    pub fn hand_out(&mut self) -> Handed
        ensures { (run : AgentRun Leased) → Stands run self.old → HandsOut run self.old result self.new }
    {
        match say_first(&self.agent, &mut self.mail, &mut self.claims) {
            Say::Nothing => Handed::Empty,
            Say::Waits(fault) => Handed::Waits(fault),
            Say::Again => handed_by(None, self.give_first()),
            Say::Parted(parted) => handed_by(Some(parted), self.give_first()),
        }
    }
}

/// What the call answers where the pool took the buffer or did not.
fn handed_by(parted: Option<PartedChunk>, was_given: Option<bool>) -> Handed
    ensures { result ≡ handed_by parted was_given }
{
    match was_given {
        None => Handed::Spent,
        Some(is_given) => Handed::Offered { parted, is_given },
    }
}

/// Whether the pool took the buffer.
fn is_given(given: &Given<Lease>) -> bool
    ensures { result ≡ is_given (answer_of given.now) }
{
    match given {
        Given::Given { .. } => true,
        Given::Missed { .. } | Given::Unread { .. } => false,
    }
}

/// Posts the page of a chunk that was reported for a group, and whose client numbered its core so. Its number is noted.
fn post(
    mail: &mut Mail,
    claims: &mut ClaimedTraces,
    group: Group,
    chunk: &Chunk,
    core: u64,
) -> Result<u64, Unposted>
    requires { IsSome chunk.now.page }
    ensures posts { IfSome chunk.now.page (λ sheet. Posts mail.old (SaysReported (page_of group core sheet)) result mail.new) }
    ensures noted { IfOk result (λ number. claims.new ≡ after_spoke claims.old group.id number) }
    ensures same { OnErr result (claims.new ≡ claims.old) }
{
    let Some(header) = chunk.header() else {
        unreachable!()
    };
    let number = mail.page(&Reported {
        group,
        client: header.client.number,
        core,
        page: chunk.bytes(),
    })?;
    claims.spoke(group.id, number);
    Ok(number)
}

/// What is said of a reported chunk, where its page was posted or not.
fn say_by(parted: PartedChunk, posted: Result<u64, Unposted>) -> Say
    ensures { result ≡ say_by parted posted }
{
    match posted {
        Ok(_) => Say::Parted(parted),
        Err(Unposted::Full) => Say::Waits(Unposted::Full),
        Err(Unposted::Ended) => Say::Waits(Unposted::Ended),
        Err(fault) => Say::Parted(PartedChunk {
            unposted: Some(fault),
            ..parted
        }),
    }
}

/// Says why the first of the hand left, unless it was said before.
fn say_first(agent: &Agent<Lease>, mail: &mut Mail, claims: &mut ClaimedTraces) -> Say
    requires { Knows agent.now (λ run. run.offered ≡ None) }
    ensures { (run : AgentRun Leased) → Follows agent.now run → run.offered ≡ None
        → SaysFirst run (record { mail = mail.old; claims = claims.old }) result (record { mail = mail.new; claims = claims.new }) }
{
    let Some(first) = agent.first() else {
        return Say::Nothing;
    };
    if first.again {
        return Say::Again;
    }
    let Some(header) = first.chunk.header() else {
        unreachable!()
    };
    let parted = PartedChunk {
        trace: header.trace,
        client: header.client.number,
        core: first.lease.mark(),
        page: header.page,
        left: first.left,
        unposted: None,
    };
    match first.left {
        Left::Reported(group) => {
            let posted = post(mail, claims, group, first.chunk, parted.core);
            say_by(parted, posted)
        }
        Left::Evicted { .. } | Left::Abandoned(_) => Say::Parted(parted),
    }
}
