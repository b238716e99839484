//! What an agent takes from, and where it gives buffers back.

ghost use Rattle.std.specs.Prelude.{◌≡◌, ◌<◌, ◌≤◌, length, IfSome};
ghost use Rattle.hs_base.specs.declared.told.Crumb.{Crumb};
ghost use Rattle.hs_base.specs.declared.told.Trigger.{Trigger};
ghost use Rattle.hs_live.specs.Keys.{IsChunkOf, IsCrumbOf, IsTriggerOf};
ghost use Rattle.hs_ring.specs.Parts.{Leased, Gives};
ghost use Rattle.hs_words.specs.Buffers.{Buffer, buffer_of, buffer_in};
ghost use Rattle.hs_words.specs.Ends.{answers_in};
ghost use Rattle.hs_words.specs.declared.token.TheConstants.{MAX_PUBLISHED};
ghost use Rattle.hs_run_actors.specs.Intakes.{Intake, Intakes, HandsAt, IsIntakeAt, key_of};

use hs_base::{Crumb, Trigger};
use hs_ring::Lease;
use hs_words::{Given, Held};

/// The lines of a node's clients, and the giver of its pool.
pub(crate) trait IntakeEnds {
    ghost sees: { Self → Intakes };

    /// The next chunk of a client, by its number.
    fn chunk(&mut self, client: u16) -> Option<Held<Lease>>
        requires { client < length (sees self.old).chunks }
        ensures hands { HandsAt client (sees self.old).chunks (buffer_in result) (sees self.new).chunks }
        ensures fact { IfSome result (λ held. (l : Intake (Buffer Leased)) × IsIntakeAt client (sees self.old).chunks l × IsChunkOf (key_of l) (buffer_of held)) }
        ensures only { sees self.new ≡ record (sees self.old) { chunks = (sees self.new).chunks } };

    /// The next crumb of a client, by its number.
    fn crumb(&mut self, client: u16) -> Option<Crumb>
        requires { client < length (sees self.old).crumbs }
        ensures hands { HandsAt client (sees self.old).crumbs result (sees self.new).crumbs }
        ensures fact { IfSome result (λ crumb. (l : Intake Crumb) × IsIntakeAt client (sees self.old).crumbs l × IsCrumbOf (key_of l) crumb) }
        ensures only { sees self.new ≡ record (sees self.old) { crumbs = (sees self.new).crumbs } };

    /// The next trigger of a client, by its number.
    fn trigger(&mut self, client: u16) -> Option<Trigger>
        requires { client < length (sees self.old).triggers }
        ensures hands { HandsAt client (sees self.old).triggers result (sees self.new).triggers }
        ensures fact { IfSome result (λ trigger. (l : Intake Trigger) × IsIntakeAt client (sees self.old).triggers l × IsTriggerOf (key_of l) trigger) }
        ensures only { sees self.new ≡ record (sees self.old) { triggers = (sees self.new).triggers } };

    /// Gives a chunk back to the pool.
    fn give(&mut self, held: Held<Lease>) -> Given<Lease>
        requires pool { held.lease.pool ≡ (sees self.old).giver.pool }
        requires size { held.chunk.size ≡ (sees self.old).giver.size }
        ensures given { Gives (sees self.old).giver held result (sees self.new).giver }
        ensures few { length (answers_in (sees self.new).giver.turns) ≤ MAX_PUBLISHED }
        ensures only { sees self.new ≡ record (sees self.old) { giver = (sees self.new).giver } };
}
