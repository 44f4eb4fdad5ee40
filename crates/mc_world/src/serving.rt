//! Serving one session of a world.
//!
//! Written bytes leave a session's output, which is no event. So the contract puts them back in
//! front of the output: then the new world is what the events make of the old one.

ghost use Rattle.std.specs.Prelude.{◌≡◌, ◌≢◌, ◌<◌, ◌≤◌, ℕ, List, ◌∷◌, [], Err, OnOk, IfOk, IfErr, length};
ghost use Rattle.mc_world.specs.Worlds.{PlainWorld, Runs, Told};
ghost use Rattle.mc_world.specs.declared.event.Event.{Event};
ghost use Rattle.mc_world.specs.declared.event.Event.TheVariants.{Close};
ghost use Rattle.mc_world.specs.Serving.{with_front, scene, Served, ServedAll, RanShort};
ghost use Rattle.mc_world.specs.Rounds.{Begins};

use crate::event::Event;
use crate::seat::WorldSession;
use crate::world::World;
use mc_hop::KeyHash;
use mc_session::{ServeFault, TurnContext, piece_buffer, serve_endpoint, write_out};
use mc_time::Clock;
use std::alloc::Global;
use std::io::{Read, Write};

/// Opens a session of a world, serves it until the input ends or it closes, and closes it.
///
/// It reads pieces, takes turns at the clock's moments, each with some growth of a shelf, and
/// writes their texts: when no turn is due, at the end, and before a turn once there are 65536
/// bytes of output. Fewer than 65535 sessions may have been opened before.
///
/// The error is `Read` if the reader fails and after 2^40 turns, `Write` if the writer fails or
/// takes nothing, and `NoMemory` if memory is refused: before the session is opened, in a turn that
/// was due, or in a piece that was read. After an error a beginning of the run was done: the
/// session is closed, unwritten output stays in it, and the world may serve another.
pub fn serve_one<R: Read, W: Write, K: KeyHash + Drop, C: Clock>(
    alloc: Global,
    reader: &mut R,
    writer: &mut W,
    world: &mut World<K>,
    clock: &C,
) -> Result<(), ServeFault>
    requires { length world.old.sessions < 65535 }
    ensures ok { OnOk result (ServedAll K.hash_of (C.may_give clock.now)
        (scene world.old (R.remaining reader.old) (W.contents writer.old))
        (scene world.new (R.remaining reader.new) (W.contents writer.new))) }
    ensures served { result ≢ Err ServeFault.NoMemory → Served K.hash_of (C.may_give clock.now)
        (scene world.old (R.remaining reader.old) (W.contents writer.old))
        (scene world.new (R.remaining reader.new) (W.contents writer.new)) }
    ensures memory { result ≡ Err ServeFault.NoMemory → RanShort K.hash_of (C.may_give clock.now)
        (scene world.old (R.remaining reader.old) (W.contents writer.old))
        (scene world.new (R.remaining reader.new) (W.contents writer.new)) }
{
    let mut buffer = match piece_buffer(alloc) {
        Ok(buffer) => buffer,
        Err(fault) => return Err(fault),
    };
    let number = match begin(alloc, world) {
        Ok(number) => number,
        Err(fault) => return Err(fault),
    };
    let mut seat = WorldSession { number, turns: 0 };
    let piece = buffer.as_mut_slice();
    let context = TurnContext { alloc, clock };
    let ended = serve_endpoint(&context, reader, writer, &mut seat, world, piece);
    end(alloc, world, number);
    match ended {
        Ok(()) => write_out(writer, &mut seat, world),
        Err(fault) => Err(fault),
    }
}

/// States that bytes in front of a session's output make no difference to later events.
///
/// So it makes no difference whether output was written.
#[tactic(auto, using(crate::proofs::EventLemmas::runs_fronted))]
pub fn written_output_never_shows()
    ensures { (hash : List ℕ → ℕ) (shelves n : ℕ) (bytes : List ℕ) (old new : PlainWorld)
        (events : List Event) → 1 ≤ n → n ≤ length old.connections →
        Runs hash shelves old events new →
        Runs hash shelves (with_front n bytes old) events (with_front n bytes new) }
{}

/// Opens a session, and returns its number.
#[tactic(auto, using(crate::proofs::WorldLemmas::open_refused))]
fn begin<K: KeyHash + Drop>(alloc: Global, world: &mut World<K>) -> Result<u32, ServeFault>
    requires { length world.old.sessions < 65535 }
    ensures ok { IfOk result (λ session. Begins K.hash_of session world.old world.new) }
    ensures err { IfErr result (λ fault.
        (fault ≡ ServeFault.NoMemory) × (world.new ≡ world.old)) }
{
    world.stands();
    let session = world.session_count() as u32 + 1;
    match world.run(alloc, &[Event::Open]) {
        Ok(()) => Ok(session),
        Err(_) => Err(ServeFault::NoMemory),
    }
}

/// Closes the session, if it is open.
#[tactic(auto, using(crate::proofs::WorldLemmas::closes))]
fn end<K: KeyHash + Drop>(alloc: Global, world: &mut World<K>, session: u32)
    ensures { Told K.hash_of world.old (Close session ∷ []) world.new }
{
    // A close takes no memory.
    let _ = world.run(alloc, &[Event::Close(session)]);
}
