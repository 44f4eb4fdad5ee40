//! Laws of a served stream, each the contract of a function that does nothing.

ghost use Rattle.std.specs.Prelude.{◌≡◌, ◌<◌, ◌++◌, ℕ, List, [], Some, length};
ghost use Rattle.mc_parse.specs.Units.{ProtocolUnit};
ghost use Rattle.mc_parse.specs.Streams.{AreUnits};
ghost use Rattle.mc_session.specs.Turns.{turns};
ghost use Rattle.mc_world.specs.Worlds.{PlainWorld, WorldState, Runs, WorldStandsAs, CanStand};
ghost use Rattle.mc_world.specs.Worlds.{Told, numbered, output_of};
ghost use Rattle.mc_world.specs.Serving.{WorldScene, Served, ServedAll, UntilRefused, next_session};
ghost use Rattle.mc_world.specs.declared.event.Event.{Event};
ghost use Rattle.mc_served.specs.Transcripts.{Transcript, AreAnsweredSoFar};
ghost use Rattle.mc_served.specs.Transcripts.{AreAnsweredUntilRefused, text_of};

use mc_hop::KeyHash;
use mc_time::Clock;

/// States that a list of events leads a plain world to one plain world.
///
/// So if two worlds represent one plain world, and have one hash and as many shelves, then after
/// the same events their stores have one state, and each session has the same output in both.
pub fn events_determine_the_world<K: KeyHash, O: KeyHash>()
    ensures plain { (hash : List ℕ → ℕ) (shelves : ℕ) (old new other : PlainWorld)
        (events : List Event) → Runs hash shelves old events new →
        Runs hash shelves old events other → other ≡ new }
    ensures worlds { (hash_of : K → List ℕ → ℕ) (other_hash_of : O → List ℕ → ℕ)
        (first : PlainWorld) (old new : WorldState K) (other_old other_new : WorldState O)
        (events : List Event) →
        WorldStandsAs first old → WorldStandsAs first other_old →
        other_hash_of other_old.hasher ≡ hash_of old.hasher →
        other_old.settings.shelves ≡ old.settings.shelves →
        Told hash_of old events new → Told other_hash_of other_old events other_new →
        (other_new.state ≡ new.state)
        × ((n : ℕ) → output_of (numbered n other_new.sessions)
        ≡ output_of (numbered n new.sessions)) }
{}

/// States that the plain machine answers a stream that was served.
///
/// If the stream was served whole, the output is the transcript of the turns of the input's units,
/// from the state of the store, and the store has the state that this leaves. Each turn is at a
/// moment that the clock may give. If the bytes of the reader and the writer aren't known, the same
/// holds of what was read and written.
///
/// If the reader or the writer failed, some first turns of the input's units were taken, whatever
/// bytes follow those that were read. Their transcript is what was written and the output that
/// waits. If memory was refused after the session was opened, the same holds, but the turn after
/// these may have been taken without its text.
pub fn a_served_stream_is_answered<K: KeyHash, C: Clock>()
    ensures whole { (hash_of : K → List ℕ → ℕ) (clock : C) (old new : WorldScene K)
        (input : List ℕ) (units : List ProtocolUnit) →
        length old.world.sessions < 65535 → CanStand old.world →
        ServedAll hash_of (C.may_give clock) old new →
        old.reader ≡ Some input → old.writer ≡ Some [] →
        AreUnits old.world.settings.greatest 0 input units →
        (output : List ℕ) × (new.writer ≡ Some output)
        × Transcript (C.may_give clock) old.world.state (turns units) output new.world.state }
    ensures read { (hash_of : K → List ℕ → ℕ) (clock : C) (old new : WorldScene K)
        (units : List ProtocolUnit) →
        length old.world.sessions < 65535 → CanStand old.world →
        (all : ServedAll hash_of (C.may_give clock) old new) →
        AreUnits old.world.settings.greatest 0 all.served.came.done.read units →
        Transcript (C.may_give clock) old.world.state (turns units)
        all.served.came.done.written new.world.state }
    ensures failed { (hash_of : K → List ℕ → ℕ) (clock : C) (old new : WorldScene K)
        (more : List ℕ) (units : List ProtocolUnit) →
        length old.world.sessions < 65535 → CanStand old.world →
        (served : Served hash_of (C.may_give clock) old new) →
        AreUnits old.world.settings.greatest 0 (served.came.done.read ++ more) units →
        AreAnsweredSoFar (C.may_give clock) old.world.state units
        (text_of old.world served.came.done.written new.world) new.world.state }
    ensures refused { (hash_of : K → List ℕ → ℕ) (clock : C) (old new : WorldScene K)
        (more : List ℕ) (units : List ProtocolUnit) →
        length old.world.sessions < 65535 → CanStand old.world →
        (short : UntilRefused hash_of (C.may_give clock) (next_session old.world) old.world
        old.reader old.writer new) →
        AreUnits old.world.settings.greatest 0 ((short.done.read ++ short.brings) ++ more) units →
        AreAnsweredUntilRefused (C.may_give clock) old.world.state units
        (text_of old.world short.done.written new.world) new.world.state }
{}

/// States that at one moment one input has one output.
///
/// Let two streams of the same bytes be served whole, while the clocks give one moment, by stores
/// of one state and one greatest charge of an item. Then the outputs are the same bytes, and the
/// stores have one state. So neither depends on how the readers cut their pieces, on the number of
/// shelves, or on the hash of keys.
pub fn one_input_has_one_answer<K: KeyHash, O: KeyHash, C: Clock>()
    ensures { (hash_of : K → List ℕ → ℕ) (other_hash_of : O → List ℕ → ℕ) (clock : C)
        (moment : ℕ) (old new : WorldScene K) (other_old other_new : WorldScene O)
        (input : List ℕ) →
        ((now : ℕ) → C.may_give clock now → now ≡ moment) →
        other_old.world.state ≡ old.world.state →
        other_old.world.settings.greatest ≡ old.world.settings.greatest →
        length old.world.sessions < 65535 → length other_old.world.sessions < 65535 →
        CanStand old.world → CanStand other_old.world →
        ServedAll hash_of (C.may_give clock) old new →
        ServedAll other_hash_of (C.may_give clock) other_old other_new →
        old.reader ≡ Some input → other_old.reader ≡ Some input →
        old.writer ≡ Some [] → other_old.writer ≡ Some [] →
        (other_new.writer ≡ new.writer) × (other_new.world.state ≡ new.world.state) }
{}
