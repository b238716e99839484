//! Why the journal of a run is lawful, as plain data. The argument in ten sentences:
//!
//! 1. In a round each client does its next operations, each agent makes a pass and the coordinator hears messages; behind the last round
//!    agents and coordinator make passes alone.
//! 2. *Doings* tell this pass by pass, and their journal notes the draws of the clients, the steps of the agents and whose messages the
//!    coordinator heard.
//! 3. A client draws once for each of its pages, so the journal has the shape of the workload (L1).
//! 4. An agent takes the items of each client in the order in which they are sent, takes an ask only if a message that was heard in an
//!    earlier pass led to it, and offers only what is in its hand; the coordinator hears only what was said by then.
//! 5. So each step can be carried out where it is told, and since all such orders of steps lead to the same end, following the journal
//!    leads to where the parts stood (L8).
//! 6. Each pass takes at most 64 items of each queue, in the order of the queues, then makes one turn and then offers; so the logs are whole
//!    passes (L5), and since all agents make equally many, at least one a round, there are enough of them (L9).
//! 7. Each pass offers until the hand is empty or an offer is unread (L6), and the pool tells of each unread offer why it could be (L7).
//! 8. A pool promises that stamps number all that happens at it (L2), that by stamp this is a history (L3), and that each give answers the
//!    draw of its chunk (L4).
//! 9. Behind each round the two sides of a pool hear of each other's stamps, so that later gives come behind the draws so far and later
//!    draws behind the gives so far; and each pass takes what was there by the pass before, or 64 of a queue: so all keep pace (L11).
//! 10. In the end all that was sent, asked and said was taken and heard, and nothing is pinned, so nothing is left over (L10).
//!
//! The laws of `laws` say this of all doings, clause by clause. The promises stand in `specs/Facts.antt`, `Pools.antt` and `Unread.antt`,
//! the clauses in `Playing.antt`. The schedule of one thread (`lockstep_laws`) and a run in threads (`hs_run`) differ in who keeps
//! these promises (`docs/ARCHITECTURE.md`, "Why a journal is lawful"). A run in threads is told as a story: where each part stood behind
//! each pass. A story is doings that keep all of them.
//!
//! That schedule, the lockstep schedule of a workload, is the journal that one thread makes (`docs/RULES.md`, "Schedules"). It is defined
//! in `Lockstep.antt`, and the laws of `lockstep_laws` hold of it.
#![tactic(auto)]

pub mod laws;
pub mod lockstep_laws;
