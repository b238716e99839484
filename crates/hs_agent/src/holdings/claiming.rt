//! A group that claims its traces, where all memory was asked for first.

ghost use Rattle.std.specs.Prelude.{◌≡◌, ◌+◌, ◌<◌, ◌≤◌, true, List, [], ◌∷◌, length, OnOk, OnErr};
ghost use Rattle.hs_base.specs.Rules.{is_declared};
ghost use Rattle.hs_base.specs.declared.ids.TraceId.{TraceId};
ghost use Rattle.hs_pins.specs.PinsLayout.{Pinning};
ghost use Rattle.hs_law_agent.specs.Claiming.{claim_each, claim_unclaimed, traces_of};
ghost use Rattle.hs_agent.specs.declared.placed.Tagged.{Tagged};
ghost use Rattle.hs_agent.specs.Asking.{IsClaiming, needed};
ghost use Rattle.hs_agent.specs.Keeping.{Kept, Point, Holds, HoldsThat, with_state};
ghost use Rattle.hs_agent.specs.Points.{claimed_for};

use super::Holdings;
use super::trying::drop_into;
use crate::claim_notes::ClaimNotes;
use crate::placed::Tagged;
use hs_base::{Ask, Memory, TraceId};
use hs_index::TraceIndex;
use hs_pins::{Claiming, Taken2};
use hs_records::Claim;
use hs_words::Token;

impl<L: Token> Holdings<L> {
    /// Claims what the group names and nobody claimed, and lets go what is too much then. All memory is asked for first, for
    /// the chunks of these traces and for what is pinned: where it is wanting nothing changes.
    pub(super) fn claim(&mut self, ask: &Ask) -> Result<(), Memory>
        requires { HoldsThat self.old (λ point. is_declared point.settings.triggers ask.now.group.trigger ≡ true) }
        ensures after { (point : Point L) → Holds self.old point → OnOk result (Holds self.new (claimed_for ask.now point)) }
        ensures same { OnErr result (self.new ≡ self.old) }
    {
        let traces = ask.laterals.len() as usize + 1;
        let chunks = chunks_needed(&self.index, ask);
        let room = self.pins.chunks() as usize + chunks as usize;
        self.claims.reserve(traces)?;
        self.sent.reserve(room)?;
        self.hand.reserve(room + 1)?;
        let mut claiming = self.pins.open(ask.group, ask.laterals, traces, chunks)?;
        claim_all::<L>(&mut self.index, &mut self.claims, &mut claiming, ask);
        let gone = self.pins.close(claiming);
        drop_into(&mut self.standings, &mut self.hand, gone);
        Ok(())
    }
}

/// For how many chunks a group needs room.
fn chunks_needed<L: Token>(index: &TraceIndex<Tagged<L>>, ask: &Ask) -> u32
    ensures { result ≡ needed index.now.touched (traces_of ask.now) }
{
    let indexed = index.chunks();
    let mut named = index.chunks_of(ask.group.lead);
    for place in 0..ask.laterals.len() {
        let Some(trace) = ask.laterals.get(place) else {
            unreachable!()
        };
        named += index.chunks_of(trace);
    }
    named.min(indexed as usize) as u32
}

/// Claims the lead and the laterals that nobody claimed. There is room.
fn claim_all<L: Token>(
    index: &mut TraceIndex<Tagged<L>>,
    notes: &mut ClaimNotes,
    claiming: &mut Claiming<Tagged<L>>,
    ask: &Ask,
)
    requires known { (kept : Kept L) × (pins : Pinning (Tagged L)) × (point : Point L) × IsClaiming ask.now (traces_of ask.now) kept pins index.old notes.old.items claiming.old point }
    requires traces { length ask.now.laterals + 1 ≤ claiming.old.traces }
    requires notes { notes.old.keeps ≡ true → length notes.old.items + (length ask.now.laterals + 1) ≤ notes.old.room }
    ensures after { (kept : Kept L) (pins : Pinning (Tagged L)) (point : Point L) → IsClaiming ask.now (traces_of ask.now) kept pins index.old notes.old.items claiming.old point
        → IsClaiming ask.now [] kept pins index.new notes.new.items claiming.new (with_state (claim_each ask.now point.state) point) }
    ensures ready { claiming.new.ready ≡ claiming.old.ready }
    ensures keeps { notes.new.keeps ≡ notes.old.keeps }
{
    claim_one::<L>(index, notes, claiming, ask, ask.group.lead);
    for place in 0..ask.laterals.len() {
        let Some(trace) = ask.laterals.get(place) else {
            unreachable!()
        };
        claim_one::<L>(index, notes, claiming, ask, trace);
    }
}

/// Claims a trace, unless it is claimed already. There is room.
fn claim_one<L: Token>(
    index: &mut TraceIndex<Tagged<L>>,
    notes: &mut ClaimNotes,
    claiming: &mut Claiming<Tagged<L>>,
    ask: &Ask,
    trace: TraceId,
)
    requires known { (left : List TraceId) × (kept : Kept L) × (pins : Pinning (Tagged L)) × (point : Point L) × IsClaiming ask.now (trace ∷ left) kept pins index.old notes.old.items claiming.old point }
    requires traces { 1 ≤ claiming.old.traces }
    requires notes { notes.old.keeps ≡ true → length notes.old.items < notes.old.room }
    ensures after { (left : List TraceId) (kept : Kept L) (pins : Pinning (Tagged L)) (point : Point L) → IsClaiming ask.now (trace ∷ left) kept pins index.old notes.old.items claiming.old point
        → IsClaiming ask.now left kept pins index.new notes.new.items claiming.new (with_state (claim_unclaimed ask.now point.state trace) point) }
    ensures traces { claiming.old.traces ≤ claiming.new.traces + 1 }
    ensures notes { length notes.new.items ≤ length notes.old.items + 1 }
    ensures room { notes.old.room ≤ notes.new.room }
    ensures ready { claiming.new.ready ≡ claiming.old.ready }
    ensures keeps { notes.new.keeps ≡ notes.old.keeps }
{
    if claiming.has(trace) {
        return;
    }
    let Ok(taken) = index.claim(trace) else {
        unreachable!()
    };
    notes.push(Claim {
        trace,
        group: ask.group,
    });
    claiming.claim(
        trace,
        Taken2 {
            held: taken.held,
            crumbs: taken.crumbs,
        },
    );
}
