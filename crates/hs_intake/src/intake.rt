//! The intake of a node.

ghost use Rattle.std.specs.Prelude.{◌≡◌, ◌<◌, ◌≤◌, ◌+◌, length, map, ◌||◌, option_map, filter_map, true, false, Some, None};
ghost use Rattle.std.specs.Option.{is_some, option_to_list};
ghost use Rattle.hs_ring.specs.Parts.{Leased};
ghost use Rattle.hs_words.specs.Buffers.{Buffer};
ghost use Rattle.hs_outbox.specs.Queue.{waits, has_number};
ghost use Rattle.hs_mail.specs.Letters.{first_offered, pending_at, after, HandsOut, Acknowledges, OffersAgain, Posts};
ghost use Rattle.hs_wire.specs.Messages.{SaysHello, plain_hello};
ghost use Rattle.hs_agent.specs.Runs.{AgentRun};
ghost use Rattle.hs_intake.specs.Intakes.{Stands, chunk_line, crumb_line, SaysIt, HasRoom, claims_life, claim_by, new_intake};
ghost use Rattle.hs_intake.specs.declared.took.Next.TheVariants.{Taken};
ghost use Rattle.hs_intake.specs.Taking.{TakesNext, TakesMany, IsMute, TakesLine, IsShort, TakesBack, MakesTurn};

mod asks;
mod claims;
mod hand;
mod late;
mod triggers;

use crate::took::{Back, Next, Stop, Took, Turned};
use hs_agent::Agent;
use hs_base::limits::{MAX_LATERALS, MAX_TAKEN};
use hs_base::{Crumb, List, Told, Why};
use hs_claimed::ClaimedTraces;
use hs_inbox::{AskDelivered, Inbox};
use hs_link::Receiver;
use hs_live::{AgentPort, ClientKey};
use hs_mail::{Mail, Unposted};
use hs_ring::Lease;
use hs_wire::Hello;
use std::marker::Model;

/// The agent of a node, with the ends of its clients' links, the mail for what it tells, and the inbox of what it is asked. One thing at most waits at the front: what came,
/// and found no memory.
#[derive(Drop)]
pub struct Intake {
    agent: Agent<Lease>,
    port: AgentPort,
    /// The ends that receive crumbs of traces that need not be open.
    late: List<Receiver<Crumb, ClientKey>>,
    mail: Mail,
    inbox: Inbox,
    claims: ClaimedTraces,
    clients: u16,
    back: Option<Back>,
    unsaid: Option<Told>,
}

impl Model for Intake {
    ghost use Rattle.hs_intake.specs.Intakes.{PlainIntake};
    ghost use Rattle.hs_intake.specs.IntakeLayout.{intake_in, IsIntake};

    ghost Value = { PlainIntake };

    ghost view = { intake_in };

    ghost invariant = { IsIntake };
}

impl Intake {
    /// The agent takes the next chunk of a client, if one has come.
    fn take_chunk(&mut self, client: u16) -> Next
        requires low { client < self.old.clients }
        requires front { self.old.back ≡ None }
        ensures next { (run : AgentRun Leased) → Stands run self.old → TakesNext run chunk_line client self.old result self.new }
        ensures clients { self.new.clients ≡ self.old.clients }
        ensures taken { result ≡ Taken → self.new.back ≡ None }
    {
        let Some(held) = self.port.chunk(client) else {
            return Next::Stopped(Stop::Empty);
        };
        match self.agent.try_chunk(client, held) {
            Ok(()) => Next::Taken,
            Err(held) => {
                self.back = Some(Back::Chunk { client, held });
                Next::Stopped(Stop::Memory)
            }
        }
    }

    /// The agent takes the chunks of a client that have come, at most 64.
    fn take_chunks(&mut self, client: u16) -> Took
        requires low { client < self.old.clients }
        requires front { self.old.back ≡ None }
        ensures takes { (run : AgentRun Leased) → Stands run self.old → TakesMany run chunk_line client self.old result self.new }
        ensures clients { self.new.clients ≡ self.old.clients }
    {
        for count in 0..MAX_TAKEN {
            if let Next::Stopped(stop) = self.take_chunk(client) {
                return Took { count, stop };
            }
        }
        Took {
            count: MAX_TAKEN,
            stop: Stop::Most,
        }
    }

    /// Whether no word may be posted now.
    fn is_mute(&self) -> bool
        ensures mute { result ≡ true → IsMute self.now }
        ensures open { result ≡ false → self.now.unsaid ≡ None }
    {
        self.unsaid.is_some() || self.mail.free_words() == 0
    }

    /// Whether not each trace that one more group may claim has a place.
    fn is_short(&self) -> bool
        ensures short { result ≡ true → IsShort self.now }
        ensures room { result ≡ false → HasRoom self.now.claims }
    {
        self.claims.free() <= MAX_LATERALS
    }

    /// The agent takes the next crumb of a client, if one has come and a word has a place. What it tells is said.
    fn take_crumb(&mut self, client: u16) -> Next
        requires low { client < self.old.clients }
        requires front { self.old.back ≡ None }
        ensures next { (run : AgentRun Leased) → Stands run self.old → TakesNext run crumb_line client self.old result self.new }
        ensures clients { self.new.clients ≡ self.old.clients }
        ensures taken { result ≡ Taken → self.new.back ≡ None }
    {
        if self.is_mute() {
            return Next::Stopped(Stop::Words);
        }
        let Some(crumb) = self.port.crumb(client) else {
            return Next::Stopped(Stop::Empty);
        };
        match self.agent.try_crumb(client, crumb) {
            Ok(told) => {
                self.unsaid = told;
                say(&mut self.mail, &mut self.claims, &mut self.unsaid);
                Next::Taken
            }
            Err(_) => {
                self.back = Some(Back::Crumb { client, crumb });
                Next::Stopped(Stop::Memory)
            }
        }
    }

    /// The agent takes the crumbs of a client that have come, at most 64.
    fn take_crumbs(&mut self, client: u16) -> Took
        requires low { client < self.old.clients }
        requires front { self.old.back ≡ None }
        ensures takes { (run : AgentRun Leased) → Stands run self.old → TakesMany run crumb_line client self.old result self.new }
        ensures clients { self.new.clients ≡ self.old.clients }
    {
        for count in 0..MAX_TAKEN {
            if let Next::Stopped(stop) = self.take_crumb(client) {
                return Took { count, stop };
            }
        }
        Took {
            count: MAX_TAKEN,
            stop: Stop::Most,
        }
    }

    /// An intake with these parts, at whose front nothing waits.
    pub fn make(
        agent: Agent<Lease>,
        port: AgentPort,
        late: List<Receiver<Crumb, ClientKey>>,
        mail: Mail,
        inbox: Inbox,
        claims: ClaimedTraces,
        clients: u16,
    ) -> Intake
        requires { (run : AgentRun Leased) × Stands run (new_intake agent port late.items mail inbox claims clients) }
        ensures { result ≡ new_intake agent port late.items mail inbox claims clients }
    {
        Intake {
            agent,
            port,
            late,
            mail,
            inbox,
            claims,
            clients,
            back: None,
            unsaid: None,
        }
    }

    /// Whether something waits at the front.
    fn has_front(&self) -> bool
        ensures { result ≡ is_some self.now.back }
    {
        self.back.is_some()
    }

    /// The agent takes the chunks of a client that have come, at most 64. There is no more of a client that is not there, and while
    /// something waits at the front nothing is taken.
    pub fn chunks_of(&mut self, client: u16) -> Took
        ensures { (run : AgentRun Leased) → Stands run self.old → TakesLine run chunk_line client self.old result self.new }
    {
        if client >= self.clients {
            return Took::none(Stop::Empty);
        }
        if self.has_front() {
            return Took::none(Stop::Memory);
        }
        self.take_chunks(client)
    }

    /// The agent takes the crumbs of a client that have come, at most 64, while words have a place. There is no more of a client that is not
    /// there, and while something waits at the front nothing is taken.
    pub fn crumbs_of(&mut self, client: u16) -> Took
        ensures { (run : AgentRun Leased) → Stands run self.old → TakesLine run crumb_line client self.old result self.new }
    {
        if client >= self.clients {
            return Took::none(Stop::Empty);
        }
        if self.has_front() {
            return Took::none(Stop::Memory);
        }
        self.take_crumbs(client)
    }

    /// Posts what the agent told last, if that found no place in the mail before and finds one now.
    pub fn say(&mut self)
        ensures said { SaysIt self.old.mail self.old.claims self.old.unsaid self.new.mail self.new.claims self.new.unsaid }
        ensures only { self.new ≡ record self.old { mail = self.new.mail; claims = self.new.claims; unsaid = self.new.unsaid } }
    {
        say(&mut self.mail, &mut self.claims, &mut self.unsaid);
    }

    /// The agent makes a fair turn, if the mail has a place for each chunk that is pinned.
    pub fn turn(&mut self) -> Turned
        ensures { (run : AgentRun Leased) → Stands run self.old → MakesTurn run self.old result self.new }
    {
        if self.mail.free_pages() < self.agent.pinned() {
            return Turned::Full;
        }
        match self.agent.turn() {
            Ok(()) => Turned::Done,
            Err(_) => Turned::Spent,
        }
    }

    /// Says who the node is. The answer is the number of the message.
    pub fn hello(&mut self, hello: &Hello<'_>) -> Result<u64, Unposted>
        ensures posts { Posts self.old.mail (SaysHello (plain_hello hello.now)) result self.new.mail }
        ensures only { self.new ≡ record self.old { mail = self.new.mail } }
    {
        self.mail.hello(hello)
    }

    /// The message with the least number of those that are not handed out, with its number, if there is one.
    pub fn next(&self) -> Option<(u64, &[u8])>
        ensures { first_offered self.now.mail ≡ option_map (λ found. pending_at found.0 found.1.now) result }
    {
        self.mail.next()
    }

    /// Notes that the message that `next` answers is handed out. Any other number changes nothing.
    pub fn sent(&mut self, number: u64) -> bool
        ensures sent { result ≡ has_number (first_offered self.old.mail) number }
        ensures after { self.new ≡ record self.old { mail = after self.old.mail (HandsOut number) } }
    {
        self.mail.sent(number)
    }

    /// Lets the message of this number go. A number of which no message waits changes nothing.
    pub fn acknowledged(&mut self, number: u64) -> bool
        ensures waited { result ≡ (waits self.old.mail.pages number || waits self.old.mail.words number) }
        ensures after { self.new ≡ record self.old { mail = after self.old.mail (Acknowledges number) } }
    {
        self.mail.acknowledged(number)
    }

    /// Begins anew with the messages that are not acknowledged, as after a lost connection: `next` answers each of them once
    /// more, the oldest first.
    pub fn again(&mut self)
        ensures { self.new ≡ record self.old { mail = after self.old.mail OffersAgain } }
    {
        self.mail.again();
    }

    /// The agent takes what waits at the front, or it waits on. Answers whether nothing waits there now.
    pub fn take_back(&mut self) -> bool
        ensures { (run : AgentRun Leased) → Stands run self.old → TakesBack run self.old result self.new }
    {
        let is_mute = self.is_mute();
        let is_short = self.is_short();
        match self.back.take() {
            None => true,
            Some(Back::Chunk { client, held }) => match self.agent.try_chunk(client, held) {
                Ok(()) => true,
                Err(held) => {
                    self.back = Some(Back::Chunk { client, held });
                    false
                }
            },
            Some(Back::Crumb { client, crumb }) => {
                if is_mute {
                    self.back = Some(Back::Crumb { client, crumb });
                    return false;
                }
                match self.agent.try_crumb(client, crumb) {
                    Ok(told) => {
                        self.unsaid = told;
                        say(&mut self.mail, &mut self.claims, &mut self.unsaid);
                        true
                    }
                    Err(_) => {
                        self.back = Some(Back::Crumb { client, crumb });
                        false
                    }
                }
            }
            Some(Back::Trigger { client, trigger }) => {
                if is_mute || is_short {
                    self.back = Some(Back::Trigger { client, trigger });
                    return false;
                }
                match triggers::fire(&mut self.agent, client, &trigger) {
                    Ok(told) => {
                        self.unsaid = told;
                        enter(&mut self.claims, &self.unsaid);
                        say(&mut self.mail, &mut self.claims, &mut self.unsaid);
                        true
                    }
                    Err(_) => {
                        self.back = Some(Back::Trigger { client, trigger });
                        false
                    }
                }
            }
        }
    }
}

/// Says what waits to be said, if anything does, and notes its number, and the nodes that it names. What finds no place waits on.
fn say(mail: &mut Mail, claims: &mut ClaimedTraces, unsaid: &mut Option<Told>)
    ensures { SaysIt mail.old claims.old unsaid.old mail.new claims.new unsaid.new }
{
    if let Some(told) = unsaid {
        if let Ok(number) = mail.told(*told) {
            claims.named(told.group.id, told.crumbs, number);
            *unsaid = None;
        }
    }
}

/// A group that fired or answered claims its traces.
fn enter(claims: &mut ClaimedTraces, told: &Option<Told>)
    ensures { claims.new ≡ claims_life claims.old (filter_map claim_by (option_to_list told.now)) }
{
    let Some(told) = told else {
        return;
    };
    match told.why {
        Why::Fired | Why::Answer => {
            claims.claim(told.group, &told.laterals);
        }
        Why::Late => {}
    }
}
