//! A mail with the messages that `docs/FORMATS.md` shows: pages and words in one order, full of pages, acknowledged in another order, and
//! offered again.

use crate::rows::row;
use hs_base::{Group, GroupId, Laterals, Memory, NodeId, NodeSet, Told, TraceId, TriggerId, Why};
use hs_mail::{Mail, Room, Unposted};
use hs_wire::{Hello, Losses, Reported, Standing, Wholeness};
use std::alloc::Global;

/// The group of the messages that `docs/FORMATS.md` shows.
fn group() -> Group {
    Group {
        id: GroupId { node: 3, number: 7 },
        trigger: TriggerId(2),
        lead: TraceId(0x0a1b),
    }
}

/// Nothing was lost of a trace with one page.
fn standing() -> Standing {
    Standing {
        trace: TraceId(0x0a1b),
        group: GroupId { node: 3, number: 7 },
        wholeness: Wholeness::WholeSince,
        open_segments: 0,
        horizon: 4,
        pages: 1,
        crumbs: NodeSet::none(),
        losses: Losses {
            null_pages: 0,
            full_points: 0,
            dry_points: 0,
            long_points: 0,
            refused_crumbs: 0,
            evicted_crumbs: 0,
            forgotten_crumbs: 0,
            evicted_pages: 0,
            abandoned_pages: 0,
        },
    }
}

/// A mail of node 3 in epoch 258, with so many places for pages and for words.
fn mail(alloc: Global, pages: u32, words: u32) -> Result<Mail, Memory> {
    let pages = Room {
        places: pages,
        bytes: 60,
    };
    let words = Room {
        places: words,
        bytes: 600,
    };
    Mail::make(alloc, NodeId(3), 258, pages, words)
}

fn says_hello(mail: &mut Mail, name: &[u8]) -> Result<u64, Unposted> {
    mail.hello(&Hello {
        digest: [7; 32],
        name,
    })
}

fn tells(mail: &mut Mail) -> Result<u64, Unposted> {
    mail.told(Told {
        group: group(),
        laterals: Laterals::none(),
        crumbs: NodeSet(5),
        why: Why::Late,
    })
}

/// Reports a page, which with all before it takes 55 bytes and so many more.
fn reports(mail: &mut Mail, page: &[u8]) -> Result<u64, Unposted> {
    mail.page(&Reported {
        group: group(),
        client: 4,
        core: 1,
        page,
    })
}

/// Whether the message of this number and this kind is offered next, and then handed out. The kind stands behind the version, the number
/// behind kind and epoch.
fn hands_out(mail: &mut Mail, number: u64, kind: u8) -> bool {
    let offered = match mail.next() {
        Some((found, bytes)) => {
            found == number
                && bytes.get(1) == Some(&kind)
                && bytes.get(17).map(|low| u64::from(*low)) == Some(number)
        }
        None => false,
    };
    offered && mail.sent(number)
}

/// Says who it is, reports, tells, and reports once more.
fn says_four(mail: &mut Mail) -> bool {
    says_hello(mail, b"n3") == Ok(0)
        && reports(mail, &[1, 2]) == Ok(1)
        && tells(mail) == Ok(2)
        && reports(mail, &[3]) == Ok(3)
}

/// Pages and words go out in the order in which they were said.
fn in_order(alloc: Global) -> Result<bool, Memory> {
    let mut mail = mail(alloc, 2, 2)?;
    Ok(
        says_four(&mut mail)
            && hands_out(&mut mail, 0, 1)
            && hands_out(&mut mail, 1, 4)
            && hands_out(&mut mail, 2, 2)
            && hands_out(&mut mail, 3, 4)
            && mail.next().is_none(),
    )
}

/// Where pages wait for long, words still have their places, and no number is lost.
fn full_of_pages(alloc: Global) -> Result<bool, Memory> {
    let mut mail = mail(alloc, 1, 2)?;
    Ok(
        reports(&mut mail, &[1]) == Ok(0)
            && reports(&mut mail, &[2]) == Err(Unposted::Full)
            && mail.free_pages() == 0
            && tells(&mut mail) == Ok(1)
            && mail.acknowledged(0)
            && reports(&mut mail, &[2]) == Ok(2)
            && mail.oldest() == Some(1),
    )
}

/// A page of 6 bytes does not fit its place, and one of 32,777 has no spelling.
fn too_long(alloc: Global) -> Result<bool, Memory> {
    let mut mail = mail(alloc, 1, 0)?;
    let long = vec![in alloc; 0; 32_777]?;
    Ok(
        reports(&mut mail, &[0; 6]) == Err(Unposted::TooLong)
            && reports(&mut mail, &long) == Err(Unposted::NoSpelling)
            && tells(&mut mail) == Err(Unposted::Full)
            && reports(&mut mail, &[0; 5]) == Ok(0),
    )
}

/// What was handed out and not acknowledged is offered again, in order, and nothing else.
fn again(alloc: Global) -> Result<bool, Memory> {
    let mut mail = mail(alloc, 2, 2)?;
    let said = says_four(&mut mail)
        && hands_out(&mut mail, 0, 1)
        && hands_out(&mut mail, 1, 4)
        && hands_out(&mut mail, 2, 2)
        && mail.acknowledged(1)
        && !mail.acknowledged(1);
    mail.again();
    Ok(
        said && hands_out(&mut mail, 0, 1)
            && hands_out(&mut mail, 2, 2)
            && hands_out(&mut mail, 3, 4),
    )
}

/// How a node stands to a trace is a word, and has its number.
fn a_standing(alloc: Global) -> Result<bool, Memory> {
    let mut mail = mail(alloc, 0, 1)?;
    Ok(mail.standing(standing()) == Ok(0) && hands_out(&mut mail, 0, 5) && mail.free_words() == 0)
}

#[test]
fn a_mail(rt: HostRuntime) {
    row(&rt, "in order", in_order(rt.alloc()));
    row(&rt, "full of pages", full_of_pages(rt.alloc()));
    row(&rt, "too long", too_long(rt.alloc()));
    row(&rt, "again", again(rt.alloc()));
    row(&rt, "a standing", a_standing(rt.alloc()));
}
