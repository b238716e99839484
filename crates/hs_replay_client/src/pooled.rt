//! The pool of a node as what its clients draw from.

ghost use Rattle.hs_replay_client.specs.Pooled.{pool_way};

use crate::well::Well;
use hs_base::Memory;
use hs_pool::PlainPool;
use hs_words::Drawn;

impl Well for PlainPool {
    ghost way = { pool_way };

    fn next_draw(&mut self) -> Result<Drawn<()>, Memory> {
        Ok(self.draw())
    }
}
