//! The sixth clause: in each pass all offers are made.

ghost use Rattle.std.specs.Prelude.{◌≡◌, ◌<◌, true, length, drop};
ghost use Rattle.hs_records.specs.Journals.{journal_of};
ghost use Rattle.hs_law_journal.specs.Ends.{is_followed};
ghost use Rattle.hs_law_journal.specs.Following.{followed};
ghost use Rattle.hs_law_journal.specs.Passes.{has_offers, passes_of, ends_between, is_offer, is_unread};
ghost use Rattle.hs_law_journal.specs.Played.{played};
ghost use Rattle.hs_records.specs.Validity.{IsValid};
ghost use Rattle.hs_records.specs.Views.{workload_of};
ghost use Rattle.hs_check_follow.specs.Finding.{IsFound};
ghost use Rattle.hs_check_follow.specs.Offering.{ends_front, ends_through, may_stand};

use crate::counting::log_of;
use crate::found::Found;
use hs_law_journal::laws::{following_plays_out, runs_are_of_the_journal};
use hs_records::{Journal, Step, Workload};

/// Whether behind each pass the hand is empty or the last offer is unread, and no other offer is.
pub fn has_offers(workload: &Workload, journal: &Journal, found: &Found) -> bool
    requires followed { is_followed (played (workload_of workload.now) (journal_of journal.now)) ≡ true }
    requires found { IsFound (workload_of workload.now).settings (followed (workload_of workload.now) (journal_of journal.now)) found.now }
    ensures { result ≡ has_offers (played (workload_of workload.now) (journal_of journal.now)) }
{
    following_plays_out();
    runs_are_of_the_journal();
    let nodes = found.nodes.as_slice();
    for node in 0..nodes.len() {
        if !offers_end(log_of(journal, node), nodes[node].hands.as_slice()) {
            return false;
        }
    }
    true
}

/// Whether all offers of these steps are made, where the hand has so many buffers behind each pass.
fn offers_end(log: &[Step], hands: &[usize]) -> bool
    requires { length hands.now ≡ length (passes_of log.now) }
    ensures { result ≡ ends_through log.now hands.now }
{
    let mut pass = 0;
    for place in 0..log.len() {
        let last = is_last(log, place);
        if !may_stand(last, log[place], hands[pass]) {
            return false;
        }
        if last {
            pass += 1;
        }
    }
    true
}

/// Whether a step may stand where it is, the last one of its pass or not, with so many buffers left in the hand behind the pass.
fn may_stand(last: bool, step: Step, hand: usize) -> bool
    ensures { result ≡ may_stand last step hand }
{
    if last {
        is_unread(step) || hand == 0
    } else {
        !is_unread(step)
    }
}

/// Whether a pass ends with the step at a place.
pub fn is_last(log: &[Step], place: usize) -> bool
    requires { place < length log.now }
    ensures { result ≡ ends_front (drop place log.now) }
{
    place + 1 == log.len() || ends_between(log[place], log[place + 1])
}

/// Whether a pass ends between two steps.
fn ends_between(step: Step, next: Step) -> bool
    ensures { result ≡ ends_between step next }
{
    (matches!(step, Step::Turn) || is_offer(step)) && !is_offer(next)
}

/// Whether a step is an offer.
fn is_offer(step: Step) -> bool
    ensures { result ≡ is_offer step }
{
    matches!(
        step,
        Step::Given { .. } | Step::Missed { .. } | Step::Unread
    )
}

/// Whether a step is an offer that was unread.
pub fn is_unread(step: Step) -> bool
    ensures { result ≡ is_unread step }
{
    matches!(step, Step::Unread)
}
