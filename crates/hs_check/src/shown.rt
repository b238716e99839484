//! What a log shows of its node's pool as it is read.

ghost use Rattle.std.specs.Prelude.{◌≡◌, ◌==◌, ◌+◌, ◌<◌, ◌^◌, ◌++◌, [], ◌∷◌, List, max, nat_lt, false, OnOk};
ghost use Rattle.std.specs.Option.{option_map_or};
ghost use Rattle.hs_records.specs.declared.journal.Step.{Step};
ghost use Rattle.hs_law_journal.specs.Unreads.{round_of};
ghost use Rattle.hs_check_follow.specs.declared.found.FoundPage.{FoundPage};
ghost use Rattle.hs_check.specs.Showing.{may_be_unread, may_wait, HasGiven, IsShown, HasRoom};

use crate::page_draws::{NodePage, PageDraw};
use hs_base::Memory;
use hs_check_follow::FoundPage;
use hs_records::Step;
use std::alloc::Global;
use std::collections::HashSet;

/// What the steps of a log show, as far as it was read.
#[derive(Drop)]
pub(crate) struct Shown {
    /// The pages whose buffers were given back.
    given: HashSet<NodePage>,
    /// How many gives there were.
    gives: usize,
    /// How many gives and misses.
    events: usize,
    /// The highest stamp of these, 0 where there were none.
    highest: u64,
    /// How many turns.
    turns: usize,
}

impl Shown {
    /// Before any step.
    pub(crate) fn new(alloc: Global) -> Shown
        ensures { (gives : List FoundPage) → IsShown gives [] result }
    {
        Shown {
            given: HashSet::new(alloc),
            gives: 0,
            events: 0,
            highest: 0,
            turns: 0,
        }
    }

    /// The next step, of a log that gives back the buffers of these pages.
    pub(crate) fn note(&mut self, step: Step, gives: &[FoundPage]) -> Result<(), Memory>
        requires { HasRoom self.old }
        ensures { (earlier : List Step) → IsShown gives.now earlier self.old → OnOk result (IsShown gives.now (earlier ++ step ∷ []) self.new) }
    {
        match step {
            Step::Turn => {
                self.turns += 1;
                Ok(())
            }
            Step::Given { stamp } => {
                self.give(gives)?;
                self.pass(stamp);
                Ok(())
            }
            Step::Missed { stamp } => {
                self.pass(stamp);
                Ok(())
            }
            _ => Ok(()),
        }
    }

    /// A give, of the buffer of the next of these pages.
    fn give(&mut self, gives: &[FoundPage]) -> Result<(), Memory>
        requires { self.old.gives + 1 < 2 ^ 64 }
        ensures given { HasGiven gives.now self.old → OnOk result (HasGiven gives.now self.new) }
        ensures rest { OnOk result (self.new ≡ record self.old { given = self.new.given; gives = self.old.gives + 1 }) }
    {
        if self.gives < gives.len() {
            let page = gives[self.gives];
            self.given.insert(NodePage {
                client: page.client as usize,
                page: page.page as usize,
            })?;
        }
        self.gives += 1;
        Ok(())
    }

    /// An event of the pool, with this stamp.
    fn pass(&mut self, stamp: u64)
        requires { self.old.events + 1 < 2 ^ 64 }
        ensures { self.new ≡ record self.old { events = self.old.events + 1; highest = max self.old.highest stamp } }
    {
        self.events += 1;
        self.highest = self.highest.max(stamp);
    }

    /// Whether an offer that comes now may be unread, where the pool has so many buffers and these draws, in the order of their stamps.
    pub(crate) fn may_be_unread(&self, buffers: u32, stride: u32, draws: &[PageDraw]) -> bool
        requires { 0 < stride }
        ensures { (gives : List FoundPage) (earlier : List Step) → IsShown gives earlier self.now → result ≡ may_be_unread buffers stride draws.now gives earlier }
    {
        // Places begin behind the buffers that the pool starts with, and the entry of a place held the draw two pools before it.
        let buffers = buffers as usize;
        if self.events < buffers {
            return false;
        }
        let place = self.events - buffers;
        if place >= draws.len() {
            return false;
        }
        self.may_wait(stride, draws[place])
    }

    /// Whether the page of a draw may still be uncollected: its buffer was not given back, its client's next draw has no lower stamp
    /// than some event so far, and it was started in the round of this pass.
    fn may_wait(&self, stride: u32, draw: PageDraw) -> bool
        requires { 0 < stride }
        ensures { (gives : List FoundPage) (earlier : List Step) → IsShown gives earlier self.now → result ≡ may_wait stride gives earlier draw }
    {
        draw.got
            && !self.given.contains(&draw.page)
            && !self.is_past(draw.next)
            && self.is_in_round(stride, draw.started)
    }

    /// Whether there is a draw, and it has a lower stamp than some event so far.
    fn is_past(&self, next: Option<u64>) -> bool
        ensures { result ≡ option_map_or (λ stamp. nat_lt stamp self.now.highest) next false }
    {
        match next {
            Some(stamp) => stamp < self.highest,
            None => false,
        }
    }

    /// Whether an operation is of the round of this pass.
    fn is_in_round(&self, stride: u32, operation: usize) -> bool
        requires { 0 < stride }
        ensures { result ≡ (round_of stride operation == self.now.turns) }
    {
        self.turns > 0 && self.turns - 1 == operation / stride as usize
    }
}
