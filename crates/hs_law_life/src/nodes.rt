//! Laws of nodes. Each is the contract of a function that does nothing.

ghost use Rattle.std.specs.Prelude.{◌≡◌, ℕ, List, [], ◌∷◌, ◌++◌, Some, Result};
ghost use Rattle.std.specs.List.{AllByRecursion};
ghost use Rattle.hs_base.specs.declared.ids.TraceId.{TraceId};
ghost use Rattle.hs_base.specs.declared.told.Group.{Group};
ghost use Rattle.hs_inbox.specs.Delivering.{PlainInbox, Delivers};
ghost use Rattle.hs_inbox.specs.declared.inbox.AskDelivered.{AskDelivered};
ghost use Rattle.hs_link.specs.Contents.{Incoming, Contains};
ghost use Rattle.hs_live.specs.Keys.{Key};
ghost use Rattle.hs_live.specs.Live.{PlainClient, IsEnd};
ghost use Rattle.hs_mail.specs.declared.mail.Room.{Room};
ghost use Rattle.hs_mail.specs.declared.mail.Unposted.{Unposted};
ghost use Rattle.hs_mail.specs.Letters.{Letters, MailDeed, Posts, after, no_letters};
ghost use Rattle.hs_node.specs.declared.making.MadeNode.{MadeNode};
ghost use Rattle.hs_node.specs.Made.{IsMadeBy, run_settings};
ghost use Rattle.hs_node.specs.Nodes.{PlainNode, GoesOn, with_mail};
ghost use Rattle.hs_node.specs.Passing.{Passes};
ghost use Rattle.hs_node_client.specs.Lives.{ClientLife, HasLife};
ghost use Rattle.hs_records.specs.Plain.{PlainSettings};
ghost use Rattle.hs_ring.specs.Parts.{Leased};
ghost use Rattle.hs_settings.specs.Settings.{PlainService};
ghost use Rattle.hs_wire.specs.Messages.{PlainHello, SaysHello};
ghost use Rattle.hs_words.specs.Buffers.{Buffer};
ghost use Rattle.hs_agent.specs.Runs.{AgentRun, bare_run, state_of};
ghost use Rattle.hs_intake.specs.Intakes.{PlainIntake, IntakeAct, Stands};
ghost use Rattle.hs_law_agent.specs.Laws.{IsInOnePlace, claiming_group};
ghost use Rattle.hs_law_life.specs.ClientLives.{IsInOrder};
ghost use Rattle.hs_law_life.specs.Following.{IsFollowed};
ghost use Rattle.hs_law_life.specs.NodeLives.{AreSettled, HasLived, IsWell, IsSpared, Keeps, run_by, state_by};
ghost use Rattle.hs_law_life.specs.Saying.{HasSpoken, IsSaid, Carries, first_mail};

use crate::clients::points_stand_on_pages;
use hs_law_agent::laws::{
    claims_stand, events_add_this, events_lead_on, lists_go_on, lives_go_on_well,
    nothing_claimed_goes, steps_say_what_they_tell,
};
use hs_mail::messages_go_out_in_order;

/// However a node goes on by one call after another, it goes on so by all of them: the acts of each follow those of the one before.
pub fn calls_go_on()
    ensures { (run : AgentRun Leased) (old mid new : PlainNode) → GoesOn run old mid → ((later : AgentRun Leased) → Stands later mid.intake → GoesOn later mid new) → GoesOn run old new }
{}

/// Wherever a node stands, each chunk that its agent took is in one place: indexed, pinned, in the hand, or given back.
pub fn taken_chunks_are_in_one_place()
    ensures { (run : AgentRun Leased) (d : PlainIntake) (place : ℕ) → Stands run d → IsInOnePlace (state_of run) place }
{
    lists_go_on();
}

/// What a node's agent did since the node was made is a life of its model, whose states are good. Each chunk that it took has its fate there.
pub fn acts_are_a_life_of_the_model()
    ensures { (settings : PlainSettings) (node : ℕ) (acts : List IntakeAct) → AreSettled (bare_run settings node) acts → IsWell settings node acts }
{
    lives_go_on_well();
    events_lead_on();
    events_add_this();
}

/// While a claim stands, so until its group is forgotten, no chunk of its trace is evicted.
pub fn claimed_traces_are_spared()
    ensures { (settings : PlainSettings) (node : ℕ) (acts later : List IntakeAct) (trace : TraceId) (group : Group) → AreSettled (bare_run settings node) (acts ++ later) → AllByRecursion (Keeps group) later
        → claiming_group (state_by settings node acts).claims trace ≡ Some group → IsSpared trace group (state_by settings node acts) (state_by settings node (acts ++ later)) }
{
    lives_go_on_well();
    events_lead_on();
    events_add_this();
    nothing_claimed_goes();
    claims_stand();
}

/// A node's life begins where nothing was taken. A pass that is made leads on by more acts, and no other call adds an act. So
/// at every moment the chunks that came of a client are, in order, those that the agent took, and then the one that waits at the front.
pub fn nodes_live_on()
    ensures made { (s : PlainService) (number epoch : ℕ) (made : MadeNode) → IsMadeBy s number epoch made → HasLived (run_settings s) number [] made.node.intake }
    ensures pass { (settings : PlainSettings) (number : ℕ) (acts : List IntakeAct) (old new : PlainNode) → HasLived settings number acts old.intake
        → Passes (run_by settings number acts) old new → (more : List IntakeAct) × HasLived settings number (acts ++ more) new.intake }
    ensures says { (settings : PlainSettings) (number : ℕ) (acts : List IntakeAct) (node : PlainNode) (mail : Letters) → HasLived settings number acts node.intake
        → HasLived settings number acts (with_mail node mail).intake }
    ensures hears { (settings : PlainSettings) (number : ℕ) (acts : List IntakeAct) (d : PlainIntake) (bytes : List ℕ) (answer : AskDelivered) (inbox : PlainInbox)
        → Delivers d.inbox bytes answer inbox → HasLived settings number acts d → HasLived settings number acts (record d { inbox = inbox }) }
{}

/// Over any number of renewals of a client, and any life of its node: each point of the client stands on a page, and each page is null, or in a chunk
/// that is written, in the outbox, in the ring, at the front, or taken by the agent, where it has its fate.
pub fn chunks_are_followed()
    ensures { (life : ClientLife) (client : PlainClient) (number : ℕ) (port : Incoming (Buffer Leased) Key) (settings : PlainSettings) (node : ℕ) (acts : List IntakeAct) (d : PlainIntake)
        → HasLife life client → IsInOrder life → Contains client.chunks port → IsEnd number d.port.chunks port → HasLived settings node acts d
        → IsFollowed life client number settings node acts d }
{
    points_stand_on_pages();
    acts_are_a_life_of_the_model();
}

/// A node's life begins with an empty mail, and nothing waits to be said. A pass that is made leads on by more acts and by what is said of them; a
/// hello is one more message; and what a carrier does says nothing.
pub fn nodes_speak_on()
    ensures made { (s : PlainService) (number epoch : ℕ) (made : MadeNode) → IsMadeBy s number epoch made
        → HasSpoken (run_settings s) number (first_mail s number epoch) [] [] made.node.intake }
    ensures pass { (settings : PlainSettings) (number : ℕ) (start : Letters) (acts : List IntakeAct) (deeds : List MailDeed) (old new : PlainNode)
        → HasSpoken settings number start acts deeds old.intake → Passes (run_by settings number acts) old new
        → (more : List IntakeAct) × ((said : List MailDeed) × HasSpoken settings number start (acts ++ more) (deeds ++ said) new.intake) }
    ensures hello { (settings : PlainSettings) (number : ℕ) (start : Letters) (acts : List IntakeAct) (deeds : List MailDeed) (d : PlainIntake) (hello : PlainHello) (answer : Result ℕ Unposted) (mail : Letters)
        → HasSpoken settings number start acts deeds d → Posts d.mail (SaysHello hello) answer mail
        → (said : List MailDeed) × HasSpoken settings number start acts (deeds ++ said) (record d { mail = mail }) }
    ensures carries { (settings : PlainSettings) (number : ℕ) (start : Letters) (acts : List IntakeAct) (deeds : List MailDeed) (d : PlainIntake) (deed : MailDeed) → Carries deed
        → HasSpoken settings number start acts deeds d → HasSpoken settings number start acts (deeds ++ deed ∷ []) (record d { mail = after d.mail deed }) }
    ensures hears { (settings : PlainSettings) (number : ℕ) (start : Letters) (acts : List IntakeAct) (deeds : List MailDeed) (d : PlainIntake) (bytes : List ℕ) (answer : AskDelivered) (inbox : PlainInbox)
        → Delivers d.inbox bytes answer inbox → HasSpoken settings number start acts deeds d → HasSpoken settings number start acts deeds (record d { inbox = inbox }) }
{}

/// What a node's agent told is what its model says, in order, and the pages that the node said are those of the model's reports, in order, as far as
/// these were offered. Each of these messages and pages was put into its outbox. What was put waits there until it is acknowledged, and goes out in order.
pub fn what_is_said_is_what_the_model_says()
    ensures { (settings : PlainSettings) (node epoch : ℕ) (pages words : Room) (acts : List IntakeAct) (deeds : List MailDeed) (d : PlainIntake)
        → HasSpoken settings node (no_letters (record { 0 = node }) epoch pages words) acts deeds d → IsSaid settings node epoch pages words acts deeds d }
{
    steps_say_what_they_tell();
    events_lead_on();
    events_add_this();
    messages_go_out_in_order();
}
