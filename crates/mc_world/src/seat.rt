//! A world's session as one end of a connection.

use crate::event::Event;
use crate::world::World;
use mc_hop::KeyHash;
use mc_protocol::Bytes;
use mc_session::{Endpoint, Turn};
use mc_time::Moment;
use std::alloc::{AllocError, Global};

/// A session of a world as one end of a connection.
#[derive(Drop)]
pub struct WorldSession {
    /// The session's number.
    pub number: u32,
    /// The number of turns it was given.
    pub turns: u64,
}

impl<K: KeyHash + Drop> Endpoint<World<K>> for WorldSession {
    ghost use Rattle.mc_world.specs.Rounds.{in_world};

    ghost waits = { (in_world K.hash_of).waits };

    ghost sends = { (in_world K.hash_of).sends };

    ghost turns = { (in_world K.hash_of).turns };

    ghost loses_turn = { (in_world K.hash_of).loses_turn };

    ghost takes = { (in_world K.hash_of).takes };

    ghost loses_piece = { (in_world K.hash_of).loses_piece };

    ghost is_idle = { (in_world K.hash_of).is_idle };

    ghost is_closed = { (in_world K.hash_of).is_closed };

    fn output<'a>(&'a self, world: &'a World<K>) -> &'a [u8] {
        world.out(self.number)
    }

    fn wrote(&mut self, world: &mut World<K>, n: usize) {
        world.sent(self.number, n);
    }

    fn take_turn(
        &mut self,
        alloc: Global,
        world: &mut World<K>,
        now: Moment,
    ) -> Result<Turn, AllocError> {
        let shelf = (self.turns % u64::from(world.shelves().max(1))) as u32;
        world.set_moment(now);
        match world.turn(alloc, self.number) {
            Ok(turn) => {
                world.grow(shelf);
                self.turns = self.turns.wrapping_add(1);
                Ok(turn)
            }
            Err(_) => Err(AllocError),
        }
    }

    fn bring(
        &mut self,
        alloc: Global,
        world: &mut World<K>,
        piece: &[u8],
    ) -> Result<(), AllocError> {
        match world.run(alloc, &[Event::Piece(self.number, Bytes::of(piece))]) {
            Ok(()) => Ok(()),
            Err(_) => Err(AllocError),
        }
    }
}
