//! The calls of a node.

ghost use Rattle.std.specs.Prelude.{◌≡◌, ◌≢◌, ◌||◌, ◌++◌, [], ◌∷◌, is_some, OnOk, OnErr, IfSome, IfNone};
ghost use Rattle.hs_ring.specs.Parts.{Leased};
ghost use Rattle.hs_agent.specs.Runs.{AgentRun};
ghost use Rattle.hs_intake.specs.Intakes.{Stands};
ghost use Rattle.hs_inbox.specs.declared.inbox.AskDelivered.{AskDelivered};
ghost use Rattle.hs_inbox.specs.Delivering.{Delivers};
ghost use Rattle.hs_mail.specs.Letters.{first_offered, after, HandsOut, Acknowledges, OffersAgain, Posts};
ghost use Rattle.hs_wire.specs.Messages.{SaysHello};
ghost use Rattle.hs_node.specs.declared.pass.Passed.{Passed};
ghost use Rattle.hs_outbox.specs.Queue.{waits, has_number};
ghost use Rattle.hs_node.specs.Nodes.{with_mail, PassesAs};
ghost use Rattle.hs_node.specs.Passing.{Passes};
ghost use Rattle.hs_c.specs.declared.codes.TheConstants.{DONE as done, VACANT as vacant, BUSY as busy, MEMORY as memory, SETTINGS as settings, UNFIT as unfit, NOTHING as nothing};
ghost use Rattle.hs_c.specs.Opening.{IsRefused};
ghost use Rattle.hs_c.specs.Hubs.{flag};
ghost use Rattle.hs_c.specs.Nodes.{IsIdleNode, DoesNode, OpensNode, IsUnfitNode, FillsNode, HoldsNode, HandsOutTo, left_of, passed_code, asked_code, posted_code, ShowsNext, flag_code};

use crate::cells::{ClientCell, NodeCell};
use crate::codes::{
    BUSY, DONE, FULL, MEMORY, NO_MESSAGE, NOTHING, SETTINGS, SHORT, SPENT, UNFIT, VACANT,
};
use crate::handles::{HindClient, HindFault, HindNode};
use crate::loose::Loose;
use crate::opening::{boxed, no_room, refusal_out};
use crate::slots::{ClientSlot, NodeSlot};
use hs_base::Memory;
use hs_inbox::AskDelivered;
use hs_mail::Unposted;
use hs_node::{MadeNode, NodeFault, Passed, make_node};
use hs_node_client::MakeFault;
use hs_settings::SettingsFault;
use hs_wire::Hello;
use std::alloc::Global;
use std::mem::replace;

/// The digest of the settings that all nodes share.
#[repr(C)]
#[derive(Clone, Copy)]
pub struct HindDigest {
    pub bytes: [u8; 32],
}

/// Makes a node of this number in the life of this epoch, with its clients, by the text of a service's settings. All memory of its life
/// that has a fixed size is taken here. The code says why there is none, and of settings `fault` says where.
#[unsafe(no_mangle)]
pub extern "C" fn hindcore_node_open(
    alloc: Global,
    text: &[u8],
    number: u16,
    epoch: u64,
    node: &mut HindNode,
    fault: &mut HindFault,
) -> u32
    ensures done { result ≡ done → OpensNode text.now number epoch node.new }
    ensures same { result ≢ done → node.new ≡ node.old }
    ensures busy { node.old.live ≡ 1 → result ≡ busy }
    ensures free { result ≡ busy → node.old.live ≡ 1 }
    ensures settings { result ≡ settings → IsRefused text.now fault.new }
    ensures unfit { result ≡ unfit → IsUnfitNode text.now number }
    ensures only { result ≢ done → result ≢ busy → result ≢ settings → result ≢ unfit → result ≡ memory }
{
    if node.live == 1 {
        return BUSY;
    }
    match make_node(alloc, text, number, epoch) {
        Ok(made) => match fill_node(alloc, made, node) {
            Ok(()) => DONE,
            Err(Memory) => MEMORY,
        },
        Err(NodeFault::Settings(SettingsFault::Memory)) => MEMORY,
        Err(NodeFault::Settings(SettingsFault::NoRoom)) => {
            *fault = no_room();
            SETTINGS
        }
        Err(NodeFault::Settings(SettingsFault::Refused(refusal))) => {
            *fault = refusal_out(&refusal);
            SETTINGS
        }
        Err(NodeFault::Clients(MakeFault::Memory)) => MEMORY,
        Err(NodeFault::Clients(_)) => UNFIT,
        Err(NodeFault::Memory) => MEMORY,
    }
}

/// Fills the handle.
fn fill_node(alloc: Global, made: MadeNode, node: &mut HindNode) -> Result<(), Memory>
    ensures filled { OnOk result (FillsNode made node.new) }
    ensures same { OnErr result (node.new ≡ node.old) }
{
    let MadeNode {
        node: whole,
        clients,
    } = made;
    let left = boxed(alloc, clients)?;
    let cell = Box::new(alloc, NodeCell { node: whole, left })?;
    *node = HindNode {
        slot: NodeSlot::full(Loose::of(cell)),
        live: 1,
        pad: [0; 29],
    };
    Ok(())
}

/// Takes the next client out of those that are left.
fn next_of(cell: &mut NodeCell) -> Option<Box<ClientCell, Global>>
    ensures some { IfSome result (λ boxed. left_of cell.old ≡ left_of cell.new ++ boxed.value.client ∷ []) }
    ensures none { IfNone result ((left_of cell.old ≡ []) × (cell.new ≡ cell.old)) }
    ensures only { cell.new ≡ record cell.old { left = cell.new.left } }
{
    match cell.left.pop() {
        Some(boxed) => Some(boxed),
        None => None,
    }
}

/// Hands the next client of the node out, into a vacant handle. NOTHING, where all were handed out.
#[unsafe(no_mangle)]
pub extern "C" fn hindcore_node_client(
    alloc: Global,
    node: &mut HindNode,
    client: &mut HindClient,
) -> u32
    ensures vacant { (node.old.live ≡ 1 → ⊥) → (result ≡ vacant) × (node.new ≡ node.old) × (client.new ≡ client.old) }
    ensures busy { node.old.live ≡ 1 → client.old.live ≡ 1 → (result ≡ busy) × (node.new ≡ node.old) × (client.new ≡ client.old) }
    ensures done { (cell : _) → HoldsNode node.old cell → result ≡ done → HandsOutTo cell node.new client.new }
    ensures nothing { (cell : _) → HoldsNode node.old cell → result ≡ nothing → (left_of cell ≡ []) × HoldsNode node.new cell × (client.new ≡ client.old) }
    ensures only { node.old.live ≡ 1 → (client.old.live ≡ 1 → ⊥) → result ≢ nothing → result ≡ done }
{
    if node.live != 1 {
        return VACANT;
    }
    if client.live == 1 {
        return BUSY;
    }
    let mut cell = replace(&mut node.slot, NodeSlot::vacant())
        .open(alloc)
        .into_box();
    let next = next_of(&mut cell);
    node.slot = NodeSlot::full(Loose::of(cell));
    match next {
        None => NOTHING,
        Some(next) => {
            *client = HindClient {
                slot: ClientSlot::full(Loose::of(next)),
                live: 1,
                pad: [0; 29],
            };
            DONE
        }
    }
}

/// Makes a pass: takes what clients and the hub sent, makes a turn, gives chunks back, says what is news of claims, and forgets settled
/// groups. Writes 1 where a message is to be handed out, else 0. SPENT, where the node takes nothing any more for want of memory.
#[unsafe(no_mangle)]
pub extern "C" fn hindcore_node_pass(alloc: Global, node: &mut HindNode, says: &mut u32) -> u32
    ensures idle { IsIdleNode node.old result node.new }
    ensures pass { DoesNode (λ old code new. (passed : Passed) × (code ≡ passed_code passed) × ((run : AgentRun Leased) → Stands run old.intake → PassesAs run passed old new)) node.old result node.new }
    ensures does { DoesNode (λ old code new. code ≡ done → (run : AgentRun Leased) → Stands run old.intake → Passes run old new) node.old result node.new }
    ensures says { DoesNode (λ old code new. says.new ≡ flag (is_some (first_offered new.intake.mail))) node.old result node.new }
    ensures same { (node.old.live ≡ 1 → ⊥) → says.new ≡ says.old }
{
    if node.live != 1 {
        return VACANT;
    }
    let mut cell = replace(&mut node.slot, NodeSlot::vacant())
        .open(alloc)
        .into_box();
    let passed = cell.node.pass();
    *says = u32::from(cell.node.next().is_some());
    node.slot = NodeSlot::full(Loose::of(cell));
    match passed {
        Passed::Done => DONE,
        Passed::Spent => SPENT,
    }
}

impl NodeCell {
    /// Copies the next message that is to be handed out to the front of `out`.
    fn show_next(&self, number: &mut u64, out: &mut [u8], len: &mut u64) -> u32
        ensures { ShowsNext (first_offered self.now.node.intake.mail) number.old out.old len.old number.new out.new len.new result }
    {
        let Some((next, bytes)) = self.node.next() else {
            return NOTHING;
        };
        if bytes.len() > out.len() {
            *len = bytes.len() as u64;
            return SHORT;
        }
        let (front, _) = out.split_at_mut(bytes.len());
        front.copy_from_slice(bytes);
        *number = next;
        *len = bytes.len() as u64;
        DONE
    }
}

/// Copies the message with the least number of those that are not handed out to the front of `out`, and writes its number, and how many
/// bytes it has. NOTHING, where there is none; SHORT, where it does not fit: `len` says how many bytes it has.
#[unsafe(no_mangle)]
pub extern "C" fn hindcore_node_next(
    alloc: Global,
    node: &mut HindNode,
    number: &mut u64,
    out: &mut [u8],
    len: &mut u64,
) -> u32
    ensures idle { IsIdleNode node.old result node.new }
    ensures next { DoesNode (λ old code new. (new ≡ old) × ShowsNext (first_offered old.intake.mail) number.old out.old len.old number.new out.new len.new code) node.old result node.new }
{
    if node.live != 1 {
        return VACANT;
    }
    let cell = replace(&mut node.slot, NodeSlot::vacant())
        .open(alloc)
        .into_box();
    let code = cell.show_next(number, out, len);
    node.slot = NodeSlot::full(Loose::of(cell));
    code
}

/// The code of whether something was so.
fn code_of_flag(holds: bool) -> u32
    ensures { result ≡ flag_code holds }
{
    if holds { DONE } else { NOTHING }
}

/// Notes that the message that `hindcore_node_next` shows is handed out. NOTHING, where that has another number.
#[unsafe(no_mangle)]
pub extern "C" fn hindcore_node_sent(alloc: Global, node: &mut HindNode, number: u64) -> u32
    ensures idle { IsIdleNode node.old result node.new }
    ensures sent { DoesNode (λ old code new. (code ≡ flag_code (has_number (first_offered old.intake.mail) number)) × (new ≡ with_mail old (after old.intake.mail (HandsOut number)))) node.old result node.new }
{
    if node.live != 1 {
        return VACANT;
    }
    let mut cell = replace(&mut node.slot, NodeSlot::vacant())
        .open(alloc)
        .into_box();
    let sent = cell.node.sent(number);
    node.slot = NodeSlot::full(Loose::of(cell));
    code_of_flag(sent)
}

/// Lets the message of this number go. NOTHING, where none of this number waits.
#[unsafe(no_mangle)]
pub extern "C" fn hindcore_node_acknowledged(alloc: Global, node: &mut HindNode, number: u64) -> u32
    ensures idle { IsIdleNode node.old result node.new }
    ensures acknowledged { DoesNode (λ old code new. (code ≡ flag_code (waits old.intake.mail.pages number || waits old.intake.mail.words number)) × (new ≡ with_mail old (after old.intake.mail (Acknowledges number)))) node.old result node.new }
{
    if node.live != 1 {
        return VACANT;
    }
    let mut cell = replace(&mut node.slot, NodeSlot::vacant())
        .open(alloc)
        .into_box();
    let waited = cell.node.acknowledged(number);
    node.slot = NodeSlot::full(Loose::of(cell));
    code_of_flag(waited)
}

/// Offers all messages that were not acknowledged anew.
#[unsafe(no_mangle)]
pub extern "C" fn hindcore_node_again(alloc: Global, node: &mut HindNode) -> u32
    ensures idle { IsIdleNode node.old result node.new }
    ensures again { DoesNode (λ old code new. (code ≡ done) × (new ≡ with_mail old (after old.intake.mail OffersAgain))) node.old result node.new }
{
    if node.live != 1 {
        return VACANT;
    }
    let mut cell = replace(&mut node.slot, NodeSlot::vacant())
        .open(alloc)
        .into_box();
    cell.node.again();
    node.slot = NodeSlot::full(Loose::of(cell));
    DONE
}

/// Delivers a message. DONE, where it asks this node for a declared trigger id, and waits for the next pass; FULL, where no place is free;
/// NO_MESSAGE, where it is no such ask.
#[unsafe(no_mangle)]
pub extern "C" fn hindcore_node_deliver(alloc: Global, node: &mut HindNode, bytes: &[u8]) -> u32
    ensures idle { IsIdleNode node.old result node.new }
    ensures delivers { DoesNode (λ old code new. (delivered : AskDelivered) × (code ≡ asked_code delivered) × Delivers old.intake.inbox bytes.now delivered new.intake.inbox) node.old result node.new }
    ensures only { DoesNode (λ old code new. new ≡ record old { intake = record old.intake { inbox = new.intake.inbox } }) node.old result node.new }
{
    if node.live != 1 {
        return VACANT;
    }
    let mut cell = replace(&mut node.slot, NodeSlot::vacant())
        .open(alloc)
        .into_box();
    let delivered = cell.node.deliver(bytes);
    node.slot = NodeSlot::full(Loose::of(cell));
    match delivered {
        AskDelivered::Taken => DONE,
        AskDelivered::Full => FULL,
        AskDelivered::Refused => NO_MESSAGE,
    }
}

/// Says who the node is: its name, and the digest of the settings that all nodes share. FULL, where no place is free; UNFIT, where the name
/// has more than 64 bytes; SPENT, where the numbers of its epoch have ended. Then nothing changed.
#[unsafe(no_mangle)]
pub extern "C" fn hindcore_node_hello(
    alloc: Global,
    node: &mut HindNode,
    digest: &HindDigest,
    name: &[u8],
) -> u32
    ensures idle { IsIdleNode node.old result node.new }
    ensures posts { DoesNode (λ old code new. (posted : _) × (code ≡ posted_code posted) × Posts old.intake.mail (SaysHello (record { digest = digest.now.bytes; name = name.now })) posted new.intake.mail) node.old result node.new }
    ensures only { DoesNode (λ old code new. new ≡ with_mail old new.intake.mail) node.old result node.new }
{
    if node.live != 1 {
        return VACANT;
    }
    let mut cell = replace(&mut node.slot, NodeSlot::vacant())
        .open(alloc)
        .into_box();
    let hello = Hello {
        digest: digest.bytes,
        name,
    };
    let posted = cell.node.hello(&hello);
    node.slot = NodeSlot::full(Loose::of(cell));
    match posted {
        Ok(_) => DONE,
        Err(Unposted::Full) => FULL,
        Err(Unposted::TooLong) => UNFIT,
        Err(Unposted::NoSpelling) => UNFIT,
        Err(Unposted::Ended) => SPENT,
    }
}

/// Writes how many triggers of clients admitted no group since the node was made.
#[unsafe(no_mangle)]
pub extern "C" fn hindcore_node_limited(alloc: Global, node: &mut HindNode, count: &mut u64) -> u32
    ensures idle { IsIdleNode node.old result node.new }
    ensures limited { DoesNode (λ old code new. (code ≡ done) × (new ≡ old) × (count.new ≡ old.limited)) node.old result node.new }
    ensures idle_count { (node.old.live ≡ 1 → ⊥) → count.new ≡ count.old }
{
    if node.live != 1 {
        return VACANT;
    }
    let cell = replace(&mut node.slot, NodeSlot::vacant())
        .open(alloc)
        .into_box();
    *count = cell.node.limited();
    node.slot = NodeSlot::full(Loose::of(cell));
    DONE
}

/// Frees what stands behind the handle, which is vacant from then on. Clients go on, and what they send comes nowhere.
#[unsafe(no_mangle)]
pub extern "C" fn hindcore_node_free(alloc: Global, node: &mut HindNode) -> u32
    ensures idle { IsIdleNode node.old result node.new }
    ensures free { node.old.live ≡ 1 → (result ≡ done) × (node.new.live ≡ 0) }
{
    if node.live != 1 {
        return VACANT;
    }
    let slot = replace(&mut node.slot, NodeSlot::vacant());
    node.live = 0;
    let _ = slot.open(alloc).into_box();
    DONE
}
