//! The pass of a node.

ghost use Rattle.std.specs.Prelude.{◌≡◌, true, false};
ghost use Rattle.hs_ring.specs.Parts.{Leased};
ghost use Rattle.hs_agent.specs.Runs.{AgentRun, IsSpent};
ghost use Rattle.hs_intake.specs.Intakes.{Stands};
ghost use Rattle.hs_node.specs.Nodes.{GoesOn, GoesOnIf, OffersAs, PassesAs, is_unspent};
ghost use Rattle.hs_node.specs.Told.{is_told, node_standing};
ghost use Rattle.hs_node.specs.Passing.{Hears, HearsFrom, HearsAll, TakesChunks, TakesCrumbs, TakesLates, TakesTriggersOf, TakesFrom, TakesAll, TakesAsked, SaysFirst, TakesFront, Takes, Turns, OffersBy, OffersAll, StatesNext, LooksOn, StatesAll, ForgetsOne, ForgetsAll, Passes, is_stated};

use crate::hearing::{note, part};
use crate::node::Node;
use crate::standing::{are_told, told_standing};
use hs_base::limits::MAX_TAKEN;
use hs_claimed::StatedClaim;
use hs_intake::{Handed, Stated, Turned, receive_at};
use hs_wire::{Standing, Wholeness};

/// The most notes of a client that a pass hears at once. A link holds no more.
pub const MOST_NOTES: u32 = 131_072;

/// The most offers that a pass makes. A chunk that the pool does not take is offered again, until the numbers that found it empty are used up.
pub const MOST_OFFERS: u32 = 131_072;

/// How far a pass came.
#[derive(Clone, Copy, Debug, PartialEq, Eq)]
pub enum Passed {
    /// It was made.
    Done,
    /// Memory was wanting, and the agent is spent.
    Spent,
}

/// What became of the first of the hand.
#[derive(Clone, Copy)]
enum Offer {
    Offered,
    None,
    Spent,
}

/// Whether a standing was said, or is no news.
fn is_stated(stated: Stated) -> bool
    ensures { result ≡ is_stated stated }
{
    match stated {
        Stated::Said | Stated::Known => true,
        Stated::Waits(_) => false,
    }
}

/// Whether the agent is not spent by a turn.
fn is_unspent(turned: Turned) -> bool
    ensures { result ≡ is_unspent turned }
{
    match turned {
        Turned::Done | Turned::Full => true,
        Turned::Spent => false,
    }
}

impl Node {
    /// Hears the next note of a client, if one has come.
    fn hear(&mut self, client: u16) -> bool
        ensures on { (run : AgentRun Leased) → Stands run self.old.intake → GoesOn run self.old self.new }
        ensures does { (run : AgentRun Leased) → Stands run self.old.intake → Hears client result run self.old self.new }
    {
        if client >= self.clients {
            return false;
        }
        let Some(segment) = receive_at(&mut self.segments, client) else {
            return false;
        };
        note(&mut self.notes, client, &segment);
        true
    }

    /// Hears the notes of a client that have come.
    fn hear_all(&mut self, client: u16)
        ensures on { (run : AgentRun Leased) → Stands run self.old.intake → GoesOn run self.old self.new }
        ensures does { (run : AgentRun Leased) → Stands run self.old.intake → HearsFrom client run self.old self.new }
    {
        for _ in 0..MOST_NOTES {
            if !self.hear(client) {
                return;
            }
        }
    }

    /// Hears the notes of all clients that have come, one client after another.
    fn hear_each(&mut self)
        ensures on { (run : AgentRun Leased) → Stands run self.old.intake → GoesOn run self.old self.new }
        ensures does { (run : AgentRun Leased) → Stands run self.old.intake → HearsAll run self.old self.new }
    {
        for client in 0..self.clients {
            self.hear_all(client);
        }
    }

    /// The agent takes chunks of a client.
    fn take_chunks(&mut self, client: u16)
        ensures on { (run : AgentRun Leased) → Stands run self.old.intake → GoesOn run self.old self.new }
        ensures does { (run : AgentRun Leased) → Stands run self.old.intake → TakesChunks client run self.old self.new }
    {
        self.intake.chunks_of(client);
    }

    /// The agent takes crumbs of a client.
    fn take_crumbs(&mut self, client: u16)
        ensures on { (run : AgentRun Leased) → Stands run self.old.intake → GoesOn run self.old self.new }
        ensures does { (run : AgentRun Leased) → Stands run self.old.intake → TakesCrumbs client run self.old self.new }
    {
        self.intake.crumbs_of(client);
    }

    /// The agent takes crumbs of a client that are of traces that need not be open.
    fn take_lates(&mut self, client: u16)
        ensures on { (run : AgentRun Leased) → Stands run self.old.intake → GoesOn run self.old self.new }
        ensures does { (run : AgentRun Leased) → Stands run self.old.intake → TakesLates client run self.old self.new }
    {
        self.intake.late_crumbs_of(client);
    }

    /// The agent takes triggers of a client.
    fn take_triggers(&mut self, client: u16)
        ensures on { (run : AgentRun Leased) → Stands run self.old.intake → GoesOn run self.old self.new }
        ensures does { (run : AgentRun Leased) → Stands run self.old.intake → TakesTriggersOf client run self.old self.new }
    {
        let took = self.intake.triggers_of(client);
        self.limited = self.limited.saturating_add(u64::from(took.limited));
    }

    /// The agent takes asks.
    fn take_asks(&mut self)
        ensures on { (run : AgentRun Leased) → Stands run self.old.intake → GoesOn run self.old self.new }
        ensures does { (run : AgentRun Leased) → Stands run self.old.intake → TakesAsked run self.old self.new }
    {
        self.intake.take_asks();
    }

    /// Says what waits to be said.
    fn say(&mut self)
        ensures on { (run : AgentRun Leased) → Stands run self.old.intake → GoesOn run self.old self.new }
        ensures does { (run : AgentRun Leased) → Stands run self.old.intake → SaysFirst run self.old self.new }
    {
        self.intake.say();
    }

    /// The agent takes what waits at the front.
    fn take_back(&mut self)
        ensures on { (run : AgentRun Leased) → Stands run self.old.intake → GoesOn run self.old self.new }
        ensures does { (run : AgentRun Leased) → Stands run self.old.intake → TakesFront run self.old self.new }
    {
        self.intake.take_back();
    }

    /// Takes what a client sent, its notes first.
    fn take_from(&mut self, client: u16)
        ensures on { (run : AgentRun Leased) → Stands run self.old.intake → GoesOn run self.old self.new }
        ensures does { (run : AgentRun Leased) → Stands run self.old.intake → TakesFrom client run self.old self.new }
    {
        self.hear_all(client);
        self.take_chunks(client);
        self.take_crumbs(client);
        self.take_lates(client);
        self.take_triggers(client);
    }

    /// Takes what the clients sent, one after another.
    fn take_all(&mut self)
        ensures on { (run : AgentRun Leased) → Stands run self.old.intake → GoesOn run self.old self.new }
        ensures does { (run : AgentRun Leased) → Stands run self.old.intake → TakesAll run self.old self.new }
    {
        for client in 0..self.clients {
            self.take_from(client);
        }
    }

    /// Makes a fair turn, if the mail has a place for each chunk that is pinned. Answers whether the agent is not spent.
    fn turn(&mut self) -> bool
        ensures on { (run : AgentRun Leased) → Stands run self.old.intake → GoesOnIf run result self.old self.new }
        ensures does { (run : AgentRun Leased) → Stands run self.old.intake → result ≡ true → Turns run self.old self.new }
    {
        let turned = self.intake.turn();
        is_unspent(turned)
    }

    /// Offers the first of the hand to the pool.
    fn offer(&mut self) -> Offer
        ensures on { (run : AgentRun Leased) → Stands run self.old.intake → OffersAs run result self.old self.new }
        ensures does { (run : AgentRun Leased) → Stands run self.old.intake → OffersBy run result self.old self.new }
    {
        match self.intake.hand_out() {
            Handed::Empty => Offer::None,
            Handed::Waits(_) => Offer::None,
            Handed::Spent => Offer::Spent,
            Handed::Offered { parted, .. } => {
                part(&mut self.notes, &parted);
                Offer::Offered
            }
        }
    }

    /// Offers the chunks of the hand, until it is empty.
    fn offer_all(&mut self) -> bool
        ensures on { (run : AgentRun Leased) → Stands run self.old.intake → GoesOnIf run result self.old self.new }
        ensures does { (run : AgentRun Leased) → Stands run self.old.intake → result ≡ true → OffersAll run self.old self.new }
    {
        for _ in 0..MOST_OFFERS {
            match self.offer() {
                Offer::Offered => {}
                Offer::None => return true,
                Offer::Spent => return false,
            }
        }
        true
    }

    /// Whether each node to which a crumb of a claim's trace led, as far as the notes tell, was named by a message for its group, or for a group
    /// that claims the trace. Mostly its own group's messages name them all.
    fn is_told(&self, claim: &StatedClaim) -> bool
        ensures { result ≡ is_told self.now.notes self.now.intake.claims claim.now }
    {
        let crumbs = self.notes.crumbs(claim.trace);
        if are_told(crumbs, self.intake.claims().told_by(claim.group)) {
            return true;
        }
        are_told(crumbs, self.intake.claims().told_for(claim.trace))
    }

    /// How the node stands to a claim. It is whole or unheard only where each crumb was told.
    fn standing(&self, claim: &StatedClaim) -> Standing
        ensures { result ≡ node_standing self.now.notes self.now.intake.claims claim.now }
    {
        let standing = self.notes.standing(claim.trace, claim.group);
        match standing.wholeness {
            Wholeness::WholeSince | Wholeness::UnheardSince => {
                told_standing(self.is_told(claim), standing)
            }
            Wholeness::Lost | Wholeness::Unknown | Wholeness::Open => standing,
        }
    }

    /// Says how the node stands to the claim that is looked at, if that is news. Answers whether the next one may be looked at.
    fn state(&mut self) -> bool
        ensures on { (run : AgentRun Leased) → Stands run self.old.intake → GoesOn run self.old self.new }
        ensures does { (run : AgentRun Leased) → Stands run self.old.intake → StatesNext result run self.old self.new }
    {
        let Some(claim) = self.intake.claims().current().copied() else {
            return false;
        };
        let standing = self.standing(&claim);
        let stated = self.intake.state(&standing);
        is_stated(stated)
    }

    /// Looks at the next claim.
    fn look_on(&mut self)
        ensures on { (run : AgentRun Leased) → Stands run self.old.intake → GoesOn run self.old self.new }
        ensures does { (run : AgentRun Leased) → Stands run self.old.intake → LooksOn run self.old self.new }
    {
        self.intake.look_on();
    }

    /// Says what is news of the next claims, at most 64, while no chunk is in the hand.
    fn state_all(&mut self)
        ensures on { (run : AgentRun Leased) → Stands run self.old.intake → GoesOn run self.old self.new }
        ensures does { (run : AgentRun Leased) → Stands run self.old.intake → StatesAll run self.old self.new }
    {
        if self.intake.in_hand() != 0 {
            return;
        }
        for _ in 0..MAX_TAKEN {
            if !self.state() {
                return;
            }
            self.look_on();
        }
    }

    /// Forgets the group that claimed first, if more claims are kept than the limit says and it is settled.
    fn forget(&mut self) -> bool
        ensures on { (run : AgentRun Leased) → Stands run self.old.intake → GoesOn run self.old self.new }
        ensures does { (run : AgentRun Leased) → Stands run self.old.intake → ForgetsOne result run self.old self.new }
    {
        if !self.intake.claims().is_above(self.limit) {
            return false;
        }
        self.intake.forget_oldest()
    }

    /// Forgets the groups that claimed first and are settled, at most 64, while more claims are kept than the limit says.
    fn forget_all(&mut self)
        ensures on { (run : AgentRun Leased) → Stands run self.old.intake → GoesOn run self.old self.new }
        ensures does { (run : AgentRun Leased) → Stands run self.old.intake → ForgetsAll run self.old self.new }
    {
        for _ in 0..MAX_TAKEN {
            if !self.forget() {
                return;
            }
        }
    }

    /// Takes what waits at the front, then what the clients sent and what the hub asks. At last the notes are heard that came meanwhile, so
    /// that of a page that a turn reports its segment was heard.
    fn take(&mut self)
        ensures on { (run : AgentRun Leased) → Stands run self.old.intake → GoesOn run self.old self.new }
        ensures does { (run : AgentRun Leased) → Stands run self.old.intake → Takes run self.old self.new }
    {
        self.say();
        self.take_back();
        self.take_all();
        self.take_asks();
        self.hear_each();
    }

    /// Makes a pass: takes what waits at the front, of each client its notes, chunks, crumbs and triggers, and what the hub asks; hears the
    /// notes that came meanwhile; makes a turn; offers the hand to the pool; says what is news of claims; forgets settled groups.
    pub fn pass(&mut self) -> Passed
        ensures on { (run : AgentRun Leased) → Stands run self.old.intake → PassesAs run result self.old self.new }
        ensures does { (run : AgentRun Leased) → Stands run self.old.intake → result ≡ Passed.Done → Passes run self.old self.new }
    {
        self.take();
        if !self.turn() {
            return Passed::Spent;
        }
        if !self.offer_all() {
            return Passed::Spent;
        }
        self.state_all();
        self.forget_all();
        Passed::Done
    }
}
