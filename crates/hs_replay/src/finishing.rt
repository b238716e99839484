//! A node at its end.

ghost use Rattle.std.specs.Prelude.{◌≡◌, ℕ, [], ◌++◌, map, None, IfOk, OnOk};
ghost use Rattle.std.specs.List.{range_with_len};
ghost use Rattle.hs_agent.specs.Runs.{Follows, Knows, AgentRun, state_of};
ghost use Rattle.hs_records.specs.Books.{agent_book_of, client_book_of};
ghost use Rattle.hs_law_run.specs.Lockstep.{Machine};
ghost use Rattle.hs_agent.specs.Points.{book_kept};
ghost use Rattle.hs_records.specs.Plain.{PlainWorkload};
ghost use Rattle.hs_replay.specs.Finishing.{HasEnded, HaveEnded, IsBookAt, client_noted};

use crate::node::ReplayNode;
use hs_agent::{Agent, Finished};
use hs_base::{List, Memory};
use hs_records::{AgentBook, ClientBook};
use hs_replay_client::ReplayClient;

impl ReplayNode {
    /// The book of the agent. The books of the clients go behind these. All operations are done, and nothing is pinned.
    pub fn finish(self, clients: &mut List<ClientBook>) -> Result<AgentBook, Memory>
        requires { (W : PlainWorkload) × (m : Machine) × (n : ℕ) × HasEnded W m n self }
        ensures agent { (W : PlainWorkload) (m : Machine) (n : ℕ) → HasEnded W m n self → IfOk result (λ book. IsBookAt W m n (agent_book_of book)) }
        ensures clients { (W : PlainWorkload) (m : Machine) (n : ℕ) → HasEnded W m n self → OnOk result (map client_book_of clients.new.items
            ≡ map client_book_of clients.old.items ++ map (client_noted W m n) (range_with_len 0 W.settings.clients)) }
    {
        let (players, agent) = self.ends();
        note_players(players, clients)?;
        agent_book(agent)
    }

    /// The clients and the agent.
    fn ends(self) -> (List<ReplayClient>, Agent<()>)
        ensures players { result.0.items ≡ self.players }
        ensures agent { result.1 ≡ self.agent }
    {
        let ReplayNode {
            pool: _,
            players,
            agent,
            asks: _,
            said: _,
        } = self;
        (players, agent)
    }
}

/// The books of these clients go behind the others.
fn note_players(players: List<ReplayClient>, clients: &mut List<ClientBook>) -> Result<(), Memory>
    requires { (W : PlainWorkload) × (m : Machine) × (n : ℕ) × HaveEnded W m n players.items }
    ensures { (W : PlainWorkload) (m : Machine) (n : ℕ) → HaveEnded W m n players.items → OnOk result (map client_book_of clients.new.items
        ≡ map client_book_of clients.old.items ++ map (client_noted W m n) (range_with_len 0 W.settings.clients)) }
{
    for player in players.into_vec() {
        clients.append(player.finish())?;
    }
    Ok(())
}

/// The book of this agent, which has nothing pinned.
fn agent_book(agent: Agent<()>) -> Result<AgentBook, Memory>
    requires { Knows agent (λ run. ((state_of run).pinned ≡ []) × (run.offered ≡ None)) }
    ensures { (run : AgentRun (Unit {0})) → Follows agent run → IfOk result (λ book. agent_book_of book ≡ book_kept run.keeps run.node (state_of run)) }
{
    let Finished { book, rest: _ } = agent.finish()?;
    Ok(book)
}
