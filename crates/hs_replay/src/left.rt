//! What a node has left.

ghost use Rattle.std.specs.Prelude.{◌≡◌, ℕ, Some};
ghost use Rattle.hs_law_journal.specs.Ends.{is_left_bare};
ghost use Rattle.hs_law_journal.specs.Following.{NodeRun, followed};
ghost use Rattle.hs_law_run.specs.Lockstep.{Machine};
ghost use Rattle.hs_law_run.specs.Parts.{node_at};
ghost use Rattle.hs_records.specs.Plain.{PlainWorkload};
ghost use Rattle.hs_replay.specs.Left.{HasClients, IsNodeDone, TellsNodeLeft, are_clients_bare};
ghost use Rattle.hs_replay.specs.Passing.{StandsStill};
ghost use Rattle.hs_replay.specs.Standing.{NodeIsAt};

use crate::node::ReplayNode;
use hs_base::List;
use hs_client::sending_laws::all_is_sent_in_the_end;
use hs_law_run::lockstep_laws::machines_are_whole;
use hs_records::Op;

impl ReplayNode {
    /// Whether one of the clients, which have these operations, has operations left.
    pub fn has_left(&self, clients: &[List<Op>]) -> bool
        requires { (W : PlainWorkload) × (m : Machine) × (n : ℕ) × NodeIsAt W m n self.now × HasClients W n clients.now }
        ensures { (W : PlainWorkload) (m : Machine) (n : ℕ) → NodeIsAt W m n self.now → HasClients W n clients.now
            → TellsNodeLeft W m n result }
    {
        let players = self.players.as_slice();
        for client in 0..clients.len() {
            if players[client].has_left(clients[client].as_slice()) {
                return true;
            }
        }
        false
    }

    /// Whether nothing waits at the node and nothing is pinned. All operations of its clients are done.
    pub fn is_bare(&self) -> bool
        requires { (W : PlainWorkload) × (m : Machine) × (n : ℕ) × StandsStill W m n self.now × IsNodeDone W m n }
        ensures { (W : PlainWorkload) (m : Machine) (n : ℕ) → StandsStill W m n self.now → IsNodeDone W m n → (run : NodeRun)
            → node_at W m.journal n ≡ Some run → result ≡ is_left_bare (followed W m.journal) run }
    {
        if !self.clients_are_bare() {
            return false;
        }
        if !self.asks.is_empty() {
            return false;
        }
        if !self.said.is_empty() {
            return false;
        }
        self.agent.pinned() == 0
    }

    /// Whether no client has anything left that waits for the agent. All operations of the clients are done.
    fn clients_are_bare(&self) -> bool
        requires { (W : PlainWorkload) × (m : Machine) × (n : ℕ) × StandsStill W m n self.now × IsNodeDone W m n }
        ensures { (W : PlainWorkload) (m : Machine) (n : ℕ) → StandsStill W m n self.now → IsNodeDone W m n → (run : NodeRun)
            → node_at W m.journal n ≡ Some run → result ≡ are_clients_bare run }
    {
        machines_are_whole();
        all_is_sent_in_the_end();
        for player in self.players.as_slice() {
            if !player.is_bare() {
                return false;
            }
        }
        true
    }
}
