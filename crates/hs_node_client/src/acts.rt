//! What a call does to the client of the library. Each tests first for what the library asks of its caller.

ghost use Rattle.std.specs.Prelude.{◌≡◌, ◌<◌, ◌≤◌, ◌+◌, true, false, length, None, IsSome};
ghost use Rattle.hs_base.specs.declared.limits.TheConstants.{MAX_PAYLOAD};
ghost use Rattle.hs_client.specs.Core.{NeedsPage};
ghost use Rattle.hs_live.specs.Calls.{IsAutoOf};
ghost use Rattle.hs_link.specs.Contents.{HasPlaces};
ghost use Rattle.hs_live.specs.Done.{DoesNothing};
ghost use Rattle.hs_live.specs.Keys.{IsTriggerOf};
ghost use Rattle.hs_records.specs.Plain.{Point, Crumb as LeaveCrumb, End, Fire, Sample};
ghost use Rattle.hs_node_client.specs.declared.answers.CallAnswer.TheVariants.{Done};
ghost use Rattle.hs_node_client.specs.Answers.{PointsBy, CrumbsBy, TriggersBy, SamplesBy, EndsBy, HasCallsFor, LacksCallsFor, PreparesBy, pieces_in};
ghost use Rattle.hs_node_client.specs.Clients.{PutsThrough, KeepsEnds};
ghost use Rattle.hs_node_client.specs.Known.{rules_in};
ghost use Rattle.hs_node_client.specs.Lives.{Lives};

use crate::answers::CallAnswer;
use crate::paged::Paged;
use crate::places::{has_chunk_places, has_crumb_place, has_trigger_place};
use hs_base::limits::{MAX_PAYLOAD, PIECE_COST};
use hs_base::{NodeId, Trigger, TriggerId};
use hs_live::Called as Live;
use hs_records::{piece_count, piece_limit};

/// How many pieces a payload of so many bytes has. Most have one, and no division is made for these.
fn pieces_of(client: &Paged, bytes: usize) -> u32
    requires { bytes ≤ MAX_PAYLOAD }
    ensures value { result ≡ pieces_in client.now bytes }
    ensures some { 1 ≤ result }
{
    let size = client.size();
    if bytes <= piece_limit(size) {
        1
    } else {
        piece_count(size, bytes) as u32
    }
}

/// Whether the core has calls for so many pieces on new pages, beside those that are set aside.
fn has_calls(client: &Paged, pieces: u32) -> bool
    ensures has { result ≡ true → HasCallsFor pieces client.now.core }
    ensures lacks { result ≡ false → LacksCallsFor pieces client.now.core }
{
    let aside = u64::from(client.size()) / PIECE_COST as u64 + 2;
    u64::from(pieces) + aside <= u64::from(client.calls_left())
}

/// Sees to calls of the core, draws and places for so many pieces on new pages, and answers whether there are as many. Where draws alone
/// are wanting, the allowance is made whole.
fn prepare(client: &mut Paged, pieces: u32) -> CallAnswer
    ensures answer { PreparesBy pieces client.old result client.new }
    ensures refused { (result ≡ Done → ⊥) → PutsThrough client.old client.new }
    ensures keeps { KeepsEnds client.old client.new }
    ensures core { client.new.core ≡ client.old.core }
    ensures rules { rules_in client.new ≡ rules_in client.old }
    ensures does { DoesNothing client.old client.new }
{
    if !has_calls(client, pieces) {
        return CallAnswer::Spent;
    }
    if client.draws_left() < pieces {
        if refill_for(client, pieces) {
            return CallAnswer::Done;
        }
        return CallAnswer::Spent;
    }
    if has_chunk_places(client, pieces) {
        return CallAnswer::Done;
    }
    CallAnswer::Full
}

/// Makes the allowance of draws whole for so many pieces, if it has as many and the outbox has as many places, and answers whether all of
/// this is so. Else no draw is added.
#[cold]
#[inline(never)]
fn refill_for(client: &mut Paged, pieces: u32) -> bool
    ensures most { result ≡ true → pieces ≤ client.old.drawer.most }
    ensures draws { result ≡ true → pieces ≤ client.new.drawer.left }
    ensures places { result ≡ true → HasPlaces pieces client.new.chunks }
    ensures refused { result ≡ false → PutsThrough client.old client.new }
    ensures keeps { KeepsEnds client.old client.new }
    ensures core { client.new.core ≡ client.old.core }
    ensures rules { rules_in client.new ≡ rules_in client.old }
    ensures does { DoesNothing client.old client.new }
{
    if client.draws_most() < pieces {
        return false;
    }
    if !has_chunk_places(client, pieces) {
        return false;
    }
    client.refill_draws()
}

/// Records a payload that the open page has no room for.
pub(crate) fn point(client: &mut Paged, moment: u64, payload: &[u8]) -> CallAnswer
    requires { NeedsPage client.old.core (length payload.now) }
    ensures answer { PointsBy client.old (length payload.now) result client.new }
    ensures does { Lives (Point moment payload.now) result client.old client.new }
    ensures refused { (result ≡ Done → ⊥) → PutsThrough client.old client.new }
    ensures keeps { KeepsEnds client.old client.new }
    ensures rules { rules_in client.new ≡ rules_in client.old }
    ensures trace { client.new.core.trace ≡ client.old.core.trace }
    ensures calls { result ≡ Done → HasCallsFor (pieces_in client.old (length payload.now)) client.old.core }
    ensures counted { result ≡ Done → client.new.core.counted ≡ client.old.core.counted + pieces_in client.old (length payload.now) }
    ensures some { result ≡ Done → 1 ≤ pieces_in client.old (length payload.now) }
{
    if client.trace().is_none() {
        return CallAnswer::NoTrace;
    }
    if payload.len() > MAX_PAYLOAD {
        return CallAnswer::TooWide;
    }
    let pieces = pieces_of(client, payload.len());
    match prepare(client, pieces) {
        CallAnswer::Done => {}
        CallAnswer::Full => return CallAnswer::Full,
        CallAnswer::Spent => return CallAnswer::Spent,
        CallAnswer::NoTrace | CallAnswer::AlreadyOpen | CallAnswer::TooWide | CallAnswer::Unknown =>
            unreachable!(),
    }
    match client.point(moment, payload) {
        Live::Done => CallAnswer::Done,
        Live::Spent | Live::AlreadyOpen | Live::NoTrace | Live::TooWide => unreachable!(),
    }
}

/// Leaves a crumb to one of the nodes.
pub(crate) fn crumb(client: &mut Paged, node: NodeId) -> CallAnswer
    requires { node.0 < client.old.crumbs.key.nodes }
    ensures answer { CrumbsBy client.old node result client.new }
    ensures does { Lives (LeaveCrumb node) result client.old client.new }
    ensures refused { (result ≡ Done → ⊥) → PutsThrough client.old client.new }
    ensures keeps { KeepsEnds client.old client.new }
    ensures rules { rules_in client.new ≡ rules_in client.old }
    ensures core { client.new.core ≡ client.old.core }
{
    if client.trace().is_none() {
        return CallAnswer::NoTrace;
    }
    if !has_crumb_place(client) {
        return CallAnswer::Full;
    }
    match client.crumb(node) {
        Live::Done => CallAnswer::Done,
        Live::Spent | Live::AlreadyOpen | Live::NoTrace | Live::TooWide => unreachable!(),
    }
}

/// Fires a trigger of a declared id.
pub(crate) fn trigger(client: &mut Paged, trigger: &Trigger) -> CallAnswer
    requires { IsTriggerOf client.old.triggers.key trigger.now }
    ensures answer { TriggersBy client.old trigger.now result client.new }
    ensures does { Lives (Fire trigger.now) result client.old client.new }
    ensures refused { (result ≡ Done → ⊥) → PutsThrough client.old client.new }
    ensures keeps { KeepsEnds client.old client.new }
    ensures rules { rules_in client.new ≡ rules_in client.old }
    ensures core { client.new.core ≡ client.old.core }
{
    if !has_trigger_place(client) {
        return CallAnswer::Full;
    }
    let _ = client.trigger(*trigger);
    CallAnswer::Done
}

/// Gives an autotrigger a value of the open trace.
pub(crate) fn sample(
    client: &mut Paged,
    moment: u64,
    auto: u32,
    value: u64,
    trigger: TriggerId,
) -> CallAnswer
    requires { IsAutoOf client.old auto trigger }
    ensures answer { SamplesBy client.old auto result client.new }
    ensures does { Lives (Sample moment auto value) result client.old client.new }
    ensures refused { (result ≡ Done → ⊥) → PutsThrough client.old client.new }
    ensures keeps { KeepsEnds client.old client.new }
    ensures rules { rules_in client.new ≡ rules_in client.old }
    ensures core { client.new.core ≡ client.old.core }
{
    if client.trace().is_none() {
        return CallAnswer::NoTrace;
    }
    if !has_trigger_place(client) {
        return CallAnswer::Full;
    }
    match client.sample(moment, auto, value, trigger) {
        Live::Done => CallAnswer::Done,
        Live::Spent | Live::AlreadyOpen | Live::NoTrace | Live::TooWide => unreachable!(),
    }
}

/// Closes the open trace, whose core has a call left.
pub(crate) fn end(client: &mut Paged) -> CallAnswer
    requires { IsSome client.old.core.trace → client.old.core.counted < client.old.core.calls }
    ensures answer { EndsBy client.old result client.new }
    ensures does { Lives End result client.old client.new }
    ensures refused { (result ≡ Done → ⊥) → PutsThrough client.old client.new }
    ensures keeps { KeepsEnds client.old client.new }
    ensures rules { rules_in client.new ≡ rules_in client.old }
    ensures closes { result ≡ Done → client.new.core.trace ≡ None }
    ensures counted { result ≡ Done → client.new.core.counted ≡ client.old.core.counted + 1 }
{
    if client.trace().is_none() {
        return CallAnswer::NoTrace;
    }
    if !has_chunk_places(client, 1) {
        return CallAnswer::Full;
    }
    match client.end() {
        Live::Done => CallAnswer::Done,
        Live::Spent | Live::AlreadyOpen | Live::NoTrace | Live::TooWide => unreachable!(),
    }
}
