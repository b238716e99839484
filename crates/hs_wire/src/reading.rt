//! Bytes, read as a message.

ghost use Rattle.std.specs.Prelude.{◌≡◌, ◌≢◌, ◌≤◌, nat_le, IfSome, IfNone};
ghost use Rattle.std.specs.Int.{w16, w32, w64, w128};
ghost use Rattle.hs_wire.specs.Messages.{PlainMessage, IsMessage, message_bytes, plain_hello, plain_reported, said_of, plain};
ghost use Rattle.hs_wire.specs.Reading.{Gives, all, behind, by, only_if, number_at, byte_at, bytes_at, node_at, why_of, wholeness_of, traces_at, head_at, id_at, group_at, laterals_at, losses_at, hello_at, told_at, ask_at, reported_at, standing_at, said_at, message_at};

use crate::message::{
    Body, Head, Hello, Losses, MOST_NAME, MOST_PAGE, Message, Reported, Standing, VERSION,
    Wholeness,
};
use hs_base::limits::{MAX_LATERALS, MOST_NODES};
use hs_base::{Ask, Group, GroupId, Laterals, NodeId, NodeSet, Told, TraceId, TriggerId, Why};

fn u8_of(bytes: &[u8]) -> Option<(u8, &[u8])>
    ensures { Gives (λ x. (x.0, x.1.now)) result (byte_at bytes.now) }
{
    let (byte, rest) = bytes.split_first()?;
    Some((*byte, rest))
}

fn u16_of(bytes: &[u8]) -> Option<(u16, &[u8])>
    ensures { Gives (λ x. (x.0, x.1.now)) result (number_at w16 bytes.now) }
{
    let (field, rest) = bytes.split_first_chunk::<2>()?;
    Some((u16::from_be_bytes(*field), rest))
}

fn u32_of(bytes: &[u8]) -> Option<(u32, &[u8])>
    ensures { Gives (λ x. (x.0, x.1.now)) result (number_at w32 bytes.now) }
{
    let (field, rest) = bytes.split_first_chunk::<4>()?;
    Some((u32::from_be_bytes(*field), rest))
}

fn u64_of(bytes: &[u8]) -> Option<(u64, &[u8])>
    ensures { Gives (λ x. (x.0, x.1.now)) result (number_at w64 bytes.now) }
{
    let (field, rest) = bytes.split_first_chunk::<8>()?;
    Some((u64::from_be_bytes(*field), rest))
}

fn u128_of(bytes: &[u8]) -> Option<(u128, &[u8])>
    ensures { Gives (λ x. (x.0, x.1.now)) result (number_at w128 bytes.now) }
{
    let (field, rest) = bytes.split_first_chunk::<16>()?;
    Some((u128::from_be_bytes(*field), rest))
}

/// The first `len` bytes, and the bytes behind them, or `None` where there are fewer.
fn bytes_of(len: usize, bytes: &[u8]) -> Option<(&[u8], &[u8])>
    ensures { Gives (λ x. (x.0.now, x.1.now)) result (bytes_at len bytes.now) }
{
    if bytes.len() < len {
        return None;
    }
    Some(bytes.split_at(len))
}

fn digest_of(bytes: &[u8]) -> Option<([u8; 32], &[u8])>
    ensures { Gives (λ x. (x.0, x.1.now)) result (bytes_at 32 bytes.now) }
{
    let (digest, rest) = bytes.split_first_chunk::<32>()?;
    Some((*digest, rest))
}

fn name_of(bytes: &[u8]) -> Option<(&[u8], &[u8])>
    ensures { Gives (λ x. (x.0.now, x.1.now)) result (behind (only_if (λ n. nat_le n MOST_NAME) byte_at) bytes_at bytes.now) }
{
    let (len, rest) = u8_of(bytes)?;
    if len > MOST_NAME {
        return None;
    }
    bytes_of(usize::from(len), rest)
}

fn page_of(bytes: &[u8]) -> Option<(&[u8], &[u8])>
    ensures { Gives (λ x. (x.0.now, x.1.now)) result (behind (only_if (λ n. nat_le n MOST_PAGE) (number_at w16)) bytes_at bytes.now) }
{
    let (len, rest) = u16_of(bytes)?;
    if len > MOST_PAGE {
        return None;
    }
    bytes_of(usize::from(len), rest)
}

fn node_of(bytes: &[u8]) -> Option<(u16, &[u8])>
    ensures { Gives (λ x. (x.0, x.1.now)) result (node_at bytes.now) }
{
    let (node, rest) = u16_of(bytes)?;
    if node < MOST_NODES {
        Some((node, rest))
    } else {
        None
    }
}

fn why_in(bytes: &[u8]) -> Option<(Why, &[u8])>
    ensures { Gives (λ x. (x.0, x.1.now)) result (by why_of byte_at bytes.now) }
{
    let (byte, rest) = u8_of(bytes)?;
    match byte {
        0 => Some((Why::Fired, rest)),
        1 => Some((Why::Answer, rest)),
        2 => Some((Why::Late, rest)),
        _ => None,
    }
}

fn wholeness_in(bytes: &[u8]) -> Option<(Wholeness, &[u8])>
    ensures { Gives (λ x. (x.0, x.1.now)) result (by wholeness_of byte_at bytes.now) }
{
    let (byte, rest) = u8_of(bytes)?;
    match byte {
        0 => Some((Wholeness::WholeSince, rest)),
        1 => Some((Wholeness::Lost, rest)),
        2 => Some((Wholeness::UnheardSince, rest)),
        3 => Some((Wholeness::Unknown, rest)),
        4 => Some((Wholeness::Open, rest)),
        _ => None,
    }
}

#[tactic(auto, unfolding(crate::specs::Reading::head_at))]
fn head_of(bytes: &[u8]) -> Option<(Head, &[u8])>
    ensures { Gives (λ x. (x.0, x.1.now)) result (head_at bytes.now) }
{
    let (epoch, rest) = u64_of(bytes)?;
    let (number, rest) = u64_of(rest)?;
    let (node, rest) = node_of(rest)?;
    let node = NodeId(node);
    Some((
        Head {
            epoch,
            number,
            node,
        },
        rest,
    ))
}

#[tactic(auto, unfolding(crate::specs::Reading::id_at))]
fn id_of(bytes: &[u8]) -> Option<(GroupId, &[u8])>
    ensures { Gives (λ x. (x.0, x.1.now)) result (id_at bytes.now) }
{
    let (node, rest) = node_of(bytes)?;
    let (number, rest) = u32_of(rest)?;
    Some((GroupId { node, number }, rest))
}

#[tactic(auto, unfolding(crate::specs::Reading::group_at))]
fn group_of(bytes: &[u8]) -> Option<(Group, &[u8])>
    ensures { Gives (λ x. (x.0, x.1.now)) result (group_at bytes.now) }
{
    let (id, rest) = id_of(bytes)?;
    let (trigger, rest) = u8_of(rest)?;
    let (lead, rest) = u128_of(rest)?;
    let group = Group {
        id,
        trigger: TriggerId(trigger),
        lead: TraceId(lead),
    };
    Some((group, rest))
}

/// The `count` trace ids that the bytes begin with, and the bytes behind them, or `None` where there are fewer.
fn traces_of(count: u8, bytes: &[u8]) -> Option<(Laterals, &[u8])>
    requires { count ≤ MAX_LATERALS }
    ensures { Gives (λ x. (x.0, x.1.now)) result (traces_at count bytes.now) }
{
    let mut laterals = Laterals::none();
    let mut rest = bytes;
    for _place in 0..count {
        let Some((trace, after)) = u128_of(rest) else {
            return None;
        };
        laterals.push(TraceId(trace));
        rest = after;
    }
    Some((laterals, rest))
}

#[tactic(auto, unfolding(crate::specs::Reading::laterals_at))]
fn laterals_of(bytes: &[u8]) -> Option<(Laterals, &[u8])>
    ensures { Gives (λ x. (x.0, x.1.now)) result (laterals_at bytes.now) }
{
    let (count, rest) = u8_of(bytes)?;
    if usize::from(count) > MAX_LATERALS {
        return None;
    }
    traces_of(count, rest)
}

#[tactic(auto, unfolding(crate::specs::Reading::losses_at))]
fn losses_of(bytes: &[u8]) -> Option<(Losses, &[u8])>
    ensures { Gives (λ x. (x.0, x.1.now)) result (losses_at bytes.now) }
{
    let (null_pages, rest) = u64_of(bytes)?;
    let (full_points, rest) = u64_of(rest)?;
    let (dry_points, rest) = u64_of(rest)?;
    let (long_points, rest) = u64_of(rest)?;
    let (refused_crumbs, rest) = u64_of(rest)?;
    let (evicted_crumbs, rest) = u64_of(rest)?;
    let (forgotten_crumbs, rest) = u64_of(rest)?;
    let (evicted_pages, rest) = u64_of(rest)?;
    let (abandoned_pages, rest) = u64_of(rest)?;
    let losses = Losses {
        null_pages,
        full_points,
        dry_points,
        long_points,
        refused_crumbs,
        evicted_crumbs,
        forgotten_crumbs,
        evicted_pages,
        abandoned_pages,
    };
    Some((losses, rest))
}

#[tactic(auto, unfolding(crate::specs::Reading::hello_at))]
fn hello_of(bytes: &[u8]) -> Option<(Hello<'_>, &[u8])>
    ensures { Gives (λ x. (plain_hello x.0, x.1.now)) result (hello_at bytes.now) }
{
    let (digest, rest) = digest_of(bytes)?;
    let (name, rest) = name_of(rest)?;
    Some((Hello { digest, name }, rest))
}

#[tactic(auto, unfolding(crate::specs::Reading::told_at))]
fn told_of(bytes: &[u8]) -> Option<(Told, &[u8])>
    ensures { Gives (λ x. (x.0, x.1.now)) result (told_at bytes.now) }
{
    let (group, rest) = group_of(bytes)?;
    let (why, rest) = why_in(rest)?;
    let (crumbs, rest) = u128_of(rest)?;
    let Some((laterals, rest)) = laterals_of(rest) else {
        return None;
    };
    let told = Told {
        group,
        laterals,
        crumbs: NodeSet(crumbs),
        why,
    };
    Some((told, rest))
}

#[tactic(auto, unfolding(crate::specs::Reading::ask_at))]
fn ask_of(bytes: &[u8]) -> Option<(Ask, &[u8])>
    ensures { Gives (λ x. (x.0, x.1.now)) result (ask_at bytes.now) }
{
    let (group, rest) = group_of(bytes)?;
    let Some((laterals, rest)) = laterals_of(rest) else {
        return None;
    };
    Some((Ask { group, laterals }, rest))
}

#[tactic(auto, unfolding(crate::specs::Reading::reported_at))]
fn reported_of(bytes: &[u8]) -> Option<(Reported<'_>, &[u8])>
    ensures { Gives (λ x. (plain_reported x.0, x.1.now)) result (reported_at bytes.now) }
{
    let (group, rest) = group_of(bytes)?;
    let (client, rest) = u16_of(rest)?;
    let (core, rest) = u64_of(rest)?;
    let (page, rest) = page_of(rest)?;
    let reported = Reported {
        group,
        client,
        core,
        page,
    };
    Some((reported, rest))
}

#[tactic(auto, unfolding(crate::specs::Reading::standing_at))]
fn standing_of(bytes: &[u8]) -> Option<(Standing, &[u8])>
    ensures { Gives (λ x. (x.0, x.1.now)) result (standing_at bytes.now) }
{
    let (trace, rest) = u128_of(bytes)?;
    let (group, rest) = id_of(rest)?;
    let (wholeness, rest) = wholeness_in(rest)?;
    let (open_segments, rest) = u32_of(rest)?;
    let (horizon, rest) = u64_of(rest)?;
    let (pages, rest) = u64_of(rest)?;
    let (crumbs, rest) = u128_of(rest)?;
    let (losses, rest) = losses_of(rest)?;
    let standing = Standing {
        trace: TraceId(trace),
        group,
        wholeness,
        open_segments,
        horizon,
        pages,
        crumbs: NodeSet(crumbs),
        losses,
    };
    Some((standing, rest))
}

/// What a message of this kind says in front of these bytes, and the bytes behind it, or `None` where they spell none.
#[tactic(auto, unfolding(crate::specs::Reading::said_at))]
fn body_of(kind: u8, bytes: &[u8]) -> Option<(Body<'_>, &[u8])>
    ensures { Gives (λ x. (said_of x.0, x.1.now)) result (said_at kind bytes.now) }
{
    match kind {
        1 => {
            let (hello, rest) = hello_of(bytes)?;
            Some((Body::Hello(hello), rest))
        }
        2 => {
            let Some((told, rest)) = told_of(bytes) else {
                return None;
            };
            Some((Body::Told(told), rest))
        }
        3 => {
            let Some((ask, rest)) = ask_of(bytes) else {
                return None;
            };
            Some((Body::Ask(ask), rest))
        }
        4 => {
            let (reported, rest) = reported_of(bytes)?;
            Some((Body::Reported(reported), rest))
        }
        5 => {
            let (standing, rest) = standing_of(bytes)?;
            Some((Body::Standing(standing), rest))
        }
        _ => None,
    }
}

/// The message at the front of the bytes.
#[tactic(auto, unfolding(crate::specs::Reading::message_at))]
fn message_of(bytes: &[u8]) -> Option<(Message<'_>, &[u8])>
    ensures { Gives (λ x. (plain x.0, x.1.now)) result (message_at bytes.now) }
{
    let (version, rest) = u8_of(bytes)?;
    if version != VERSION {
        return None;
    }
    let (kind, rest) = u8_of(rest)?;
    let (head, rest) = head_of(rest)?;
    let Some((body, rest)) = body_of(kind, rest) else {
        return None;
    };
    Some((Message { head, body }, rest))
}

/// The message that all of the bytes are.
fn find_message(bytes: &[u8]) -> Option<Message<'_>>
    ensures { Gives plain result (all message_at bytes.now) }
{
    let Some((message, rest)) = message_of(bytes) else {
        return None;
    };
    if rest.is_empty() { Some(message) } else { None }
}

/// The message that the bytes are, or `None` where they are none. Takes no memory: a name or a page is borrowed from the bytes.
pub fn read(bytes: &[u8]) -> Option<Message<'_>>
    // What is read is a message, and all of the bytes are its spelling.
    ensures some { IfSome result (λ m. IsMessage (plain m) × (bytes.now ≡ message_bytes (plain m))) }

    // What the bytes spell is read.
    ensures message { (m : PlainMessage) → IsMessage m → bytes.now ≡ message_bytes m → Gives plain result (Some m) }

    // Nothing is read only where the bytes spell no message.
    ensures none { IfNone result ((m : PlainMessage) → IsMessage m → message_bytes m ≢ bytes.now) }
{
    find_message(bytes)
}
