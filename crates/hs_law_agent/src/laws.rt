//! What holds of an agent after any events, and of the traces that it claims. These functions do nothing: their contracts say it.

ghost use Rattle.hs_law_agent.specs.Leading.{CrumbsLeadBelow};
ghost use Rattle.hs_law_agent.specs.Laws.{ListsHaveTheirChunks, StandingsPartition, HeldChunksAreInNoHand, TracesAreClaimedOnce, ClaimsHoldForGood, ChunksStandByTheirClaim, NothingClaimedIsEvicted, TheLeastGoes, LimitsHold, ReportedInOrder, EvictsWhileOver, EvictedWereOver, IndexedStayTouched, AbandonsWhileOver, EventsGoOn, ClientsPagesRise, VisitsAreApart, StepsSayWhatTheyTell, EventsAddThis, EventsAddFew, TurnsReport};
ghost use Rattle.hs_law_agent.specs.Bringing.{ClaimsAreOfWhatIsBrought};
ghost use Rattle.hs_law_agent.specs.Lives.{LivesGoOnWell, NothingClaimedGoes, ClaimsStand, EventsLeadOn, ListsGoOn};

/// The pinned and the reported chunks stand in their lists, each once, and the evicted, abandoned and
/// reported ones in the hand, each once, until they are given back.
pub fn lists_have_their_chunks()
    ensures { ListsHaveTheirChunks }
{}

/// Each chunk is indexed, or pinned, or let go, and only one of these.
pub fn standings_partition()
    ensures { StandingsPartition }
{}

/// The buffer of a chunk that is indexed or pinned is not in the hand, and was not given back.
pub fn held_chunks_are_in_no_hand()
    ensures { HeldChunksAreInNoHand }
{}

/// A trace has one claim at most, and a claimed trace is not indexed.
pub fn traces_are_claimed_once()
    ensures { TracesAreClaimedOnce }
{}

/// A claim holds for good: later ones stand behind it.
pub fn claims_hold_for_good()
    ensures { ClaimsHoldForGood }
{}

/// The chunks of a trace are pinned, reported and abandoned for the one group that claimed it.
pub fn chunks_stand_by_their_claim()
    ensures { ChunksStandByTheirClaim }
{}

/// No chunk of a claimed trace is evicted.
pub fn nothing_claimed_is_evicted()
    ensures { NothingClaimedIsEvicted }
{}

/// The group that is next to go has a pinned chunk. Its trigger id has most pinned chunks, and is the
/// smallest of those that have as many; and of the groups of that id it has the least priority.
pub fn the_least_goes()
    ensures { TheLeastGoes }
{}

/// After any events no more chunks and traces are indexed, and no more chunks pinned, than the settings
/// say.
pub fn limits_hold()
    ensures { LimitsHold }
{}

/// The pages of one trace are reported in the order in which they came.
pub fn reported_in_order()
    ensures { ReportedInOrder }
{}

/// Where the traces of indexed chunks are touched, traces go while too much is indexed, and no longer;
/// each time it is the one touched longest ago.
pub fn evicts_while_over()
    ensures { EvictsWhileOver }
{}

/// A chunk was evicted only where more chunks or more traces were indexed than may stay, by the counts that it
/// bears.
pub fn evicted_were_over()
    ensures { EvictedWereOver }
{}

/// After any events the traces of indexed chunks are touched.
pub fn indexed_stay_touched()
    ensures { IndexedStayTouched }
{}

/// Groups are abandoned while too much is pinned, and no longer; each time it is the one next to go.
pub fn abandons_while_over()
    ensures { AbandonsWhileOver }
{}

/// Events that follow others lead on from where those led.
pub fn events_go_on()
    ensures { EventsGoOn }
{}

/// Where each client's pages come in rising order, those of one trace are reported in rising order too,
/// client by client.
pub fn clients_pages_rise()
    ensures { ClientsPagesRise }
{}

/// A visit of one trigger id leaves what waits for any other, with its costs.
pub fn visits_are_apart()
    ensures { VisitsAreApart }
{}

/// An input adds its one message to those that were said, or none, and an offer's answer adds none.
pub fn steps_say_what_they_tell()
    ensures { StepsSayWhatTheyTell }
{}

/// An event adds its step to the log and the page of the chunk that it takes to the pages. Only a give gives a buffer back.
pub fn events_add_this()
    ensures { EventsAddThis }
{}

/// An input adds to the indexed and pinned chunks the one that it brings, and claims for one group at most; an offer
/// adds nothing.
pub fn events_add_few()
    ensures { EventsAddFew }
{}

/// A turn reports a chunk where one is pinned for a trigger id that has a share, and budgets pay for any page.
pub fn turns_report()
    ensures { TurnsReport }
{}

/// An agent remembers and tells no nodes but those to which crumbs led that it took.
pub fn crumbs_lead_below()
    ensures { CrumbsLeadBelow }
{}

/// An agent whose triggers and asks bring only traces that pass a test claims only such traces, and tells of no
/// other.
pub fn claims_are_of_what_is_brought()
    ensures { ClaimsAreOfWhatIsBrought }
{
    steps_say_what_they_tell();
}

/// An agent that forgets groups between events goes from good states to good ones, from its beginning on.
pub fn lives_go_on_well()
    ensures { LivesGoOnWell }
{}

/// In a good state no event evicts a chunk of a claimed trace, and forgetting moves none.
pub fn nothing_claimed_goes()
    ensures { NothingClaimedGoes }
{}

/// A claim stands until its group is forgotten.
pub fn claims_stand()
    ensures { ClaimsStand }
{}

/// Events lead on from any state, as those do that follow others.
pub fn events_lead_on()
    ensures { EventsLeadOn }
{}

/// From a state whose lists have their chunks, events and forgetting lead to such states.
pub fn lists_go_on()
    ensures { ListsGoOn }
{}
