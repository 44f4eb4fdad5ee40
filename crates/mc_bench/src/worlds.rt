//! Turns of the sessions of one world.
ghost use Rattle.std.specs.Prelude.{◌≡◌, [], ◌∷◌, OnOk};
ghost use Rattle.mc_world.specs.Worlds.{Told};

use mc_hop::{Fnv, KeyHash};
use mc_protocol::Bytes;
use mc_shelf::Settings;
use mc_time::Moment;
use mc_world::{Event, World};
use std::alloc::{AllocError, Global};

/// The input of a session in a round: two turns.
const SENT: &[u8] = b"set key 0 0 1\r\nx\r\nget key\r\n";

/// Opens the sessions and runs their rounds. Returns the bytes of their output.
pub fn serve_rounds(alloc: Global, sessions: u16, rounds: u32) -> Result<u64, AllocError> {
    let settings = Settings {
        pages: 64,
        greatest: 1_048_576,
        shelves: 64,
    };
    let mut world = World::new(alloc, settings, Fnv, Moment::from_seconds(1000))?;
    for _ in 0..sessions {
        run(&mut world, alloc, Event::Open)?;
    }
    let mut bytes: u64 = 0;
    for _ in 0..rounds {
        bytes = bytes.saturating_add(round(&mut world, alloc, sessions)?);
    }
    Ok(bytes)
}

/// Runs one round of every session.
fn round(world: &mut World<Fnv>, alloc: Global, sessions: u16) -> Result<u64, AllocError> {
    for session in 0..sessions {
        let piece = Event::Piece(u32::from(session) + 1, Bytes::of(SENT));
        run(world, alloc, piece)?;
    }
    for _ in 0..2 {
        turns(world, alloc, sessions)?;
    }
    Ok(take_output(world, sessions))
}

/// Takes one turn of every session.
fn turns(world: &mut World<Fnv>, alloc: Global, sessions: u16) -> Result<(), AllocError> {
    for session in 0..sessions {
        run(world, alloc, Event::Turn(u32::from(session) + 1))?;
    }
    Ok(())
}

/// Takes the output of every session, and returns its length.
fn take_output(world: &mut World<Fnv>, sessions: u16) -> u64 {
    let mut bytes: u64 = 0;
    for session in 0..sessions {
        let number = u32::from(session) + 1;
        let len = world.out(number).len();
        world.sent(number, len);
        bytes = bytes.saturating_add(len as u64);
    }
    bytes
}

/// Returns a list of one event.
fn alone(event: Event<'_>) -> [Event<'_>; 1]
    ensures { result ≡ event.entry ∷ [] }
{
    [event]
}

/// Runs one event of the world.
fn run<K: KeyHash + Drop>(
    world: &mut World<K>,
    alloc: Global,
    event: Event<'_>,
) -> Result<(), AllocError>
    ensures { OnOk result (Told K.hash_of world.old (event.entry ∷ []) world.new) }
{
    match world.run(alloc, &alone(event)) {
        Ok(()) => Ok(()),
        Err(_) => Err(AllocError),
    }
}
