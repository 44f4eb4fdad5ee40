//! One session over a reader and a writer.
ghost use Rattle.std.specs.Prelude.{◌≡◌, ◌++◌, ℕ, List, [], Option, Some, Ok, Err};
ghost use Rattle.mc_protocol.specs.Plain.{Plain, opening};
ghost use Rattle.mc_parse.specs.Units.{ProtocolUnit};
ghost use Rattle.mc_parse.specs.Streams.{AreUnits};
ghost use Rattle.mc_session.specs.Turns.{turns};
ghost use Rattle.mc_sizes.specs.declared.settings.Settings.{Settings as Plan};
ghost use Rattle.mc_served.specs.Transcripts.{Transcript, AreAnsweredSoFar};
ghost use Rattle.mc_served.specs.Transcripts.{AreAnsweredUntilRefused};
ghost use Rattle.mc_run.specs.Runs.{Serves, EndsServed};

use mc_hop::Fnv;
use mc_host::End;
use mc_session::ServeFault;
use mc_shelf::Settings;
use mc_time::Clock;
use mc_world::{World, serve_one};
use std::alloc::Global;
use std::io::{Read, Write};

/// Serves one session in a new world with these settings, until it ends. Time is the clock's.
pub fn serve<R: Read, W: Write, C: Clock>(
    alloc: Global,
    settings: Settings,
    reader: &mut R,
    writer: &mut W,
    clock: &C,
) -> End
    ensures { EndsServed settings (C.may_give clock.now)
        (R.remaining reader.old) (R.remaining reader.new)
        (W.contents writer.old) (W.contents writer.new) result }
{
    End::Served(session(alloc, settings, reader, writer, clock))
}

/// Serves one session in a new world. Returns how it ended.
fn session<R: Read, W: Write, C: Clock>(
    alloc: Global,
    settings: Settings,
    reader: &mut R,
    writer: &mut W,
    clock: &C,
) -> Result<(), ServeFault>
    ensures { Serves settings (C.may_give clock.now)
        (R.remaining reader.old) (R.remaining reader.new)
        (W.contents writer.old) (W.contents writer.new) result }
{
    let Ok(mut world) = World::new(alloc, settings, Fnv, clock.now()) else {
        return Err(ServeFault::NoMemory);
    };
    serve_one(alloc, reader, writer, &mut world, clock)
}

/// States that a new plain machine answers the stream that the program serves with `--stdin`.
///
/// If the session was served whole, what is written is the transcript of the turns of the input's
/// units, from an empty store with these settings. Each turn is at a moment that the clock may
/// give. If the reader or the writer failed, what was written and the output that is dropped are
/// the transcript of some first turns. If memory was refused, the same holds, but the turn after
/// these may have been taken without its text.
pub fn a_new_store_answers_the_stream<C: Clock>()
    ensures whole { (settings : Plan) (clock : C) (input : List ℕ) (left out : Option (List ℕ))
        (units : List ProtocolUnit) →
        Serves settings (C.may_give clock) (Some input) left (Some []) out (Ok tt) →
        AreUnits settings.greatest 0 input units →
        (output : List ℕ) × (out ≡ Some output) × (state : Plain)
        × Transcript (C.may_give clock) (opening settings.pages settings.greatest) (turns units)
        output state }
    ensures failed { (settings : Plan) (clock : C) (input : List ℕ) (left out : Option (List ℕ))
        (units : List ProtocolUnit) (fault : ServeFault) → (fault ≡ ServeFault.NoMemory → ⊥) →
        Serves settings (C.may_give clock) (Some input) left (Some []) out (Err fault) →
        AreUnits settings.greatest 0 input units →
        (output : List ℕ) × (out ≡ Some output) × (waits : List ℕ) × (state : Plain)
        × AreAnsweredSoFar (C.may_give clock) (opening settings.pages settings.greatest) units
        (output ++ waits) state }
    ensures refused { (settings : Plan) (clock : C) (input : List ℕ) (left out : Option (List ℕ))
        (units : List ProtocolUnit) →
        Serves settings (C.may_give clock) (Some input) left (Some []) out
        (Err ServeFault.NoMemory) → AreUnits settings.greatest 0 input units →
        (output : List ℕ) × (out ≡ Some output) × (waits : List ℕ) × (state : Plain)
        × AreAnsweredUntilRefused (C.may_give clock) (opening settings.pages settings.greatest)
        units (output ++ waits) state }
{}
