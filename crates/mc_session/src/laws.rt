//! Laws of runs, each the contract of a function that does nothing.

ghost use Rattle.std.specs.Prelude.{◌≡◌, ◌⊎◌, ◌↔◌, ◌≤◌, ℕ, List, ◌++◌, length, IsFalse};
ghost use Rattle.mc_parse.specs.Units.{ProtocolUnit};
ghost use Rattle.mc_parse.specs.Streams.{AreUnits};
ghost use Rattle.mc_parse.specs.Feeds.{Unread, settled};
ghost use Rattle.mc_session.specs.Turns.{SessionState, NoTurnDue, to_read, HasUnits, turns, opened, fed};
ghost use Rattle.mc_session.specs.Endpoints.{in_session};
ghost use Rattle.mc_session.specs.Exchanges.{Exchange};
ghost use Rattle.mc_session.specs.Serving.{Run, turns_taken, with_written};

use mc_parse::no_spelling_begins_another;
use mc_protocol::Steps;
use mc_time::Clock;

/// States that the turns of a run are the first turns of the units that were read, in order.
///
/// They are all of these turns if no further turn is due, or if the session was closed.
pub fn a_run_takes_the_turns_of_its_stream<S: Steps, C: Clock>()
    ensures first { (clock : C) (greatest : ℕ) (read : List ℕ) (units : List ProtocolUnit)
        (taken : List (ProtocolUnit × ℕ)) (last : SessionState) (before after : S) →
        AreUnits greatest 0 read units →
        Run S.Steps (C.may_give clock) (fed (opened greatest) read) before taken last after →
        (later : List (ProtocolUnit × ℕ)) × (turns units ≡ taken ++ later) }
    ensures all { (clock : C) (greatest : ℕ) (read : List ℕ) (units : List ProtocolUnit)
        (taken : List (ProtocolUnit × ℕ)) (last : SessionState) (before after : S) →
        AreUnits greatest 0 read units →
        Run S.Steps (C.may_give clock) (fed (opened greatest) read) before taken last after →
        (IsFalse last.is_open ⊎ NoTurnDue last) → turns units ≡ taken }
{
    no_spelling_begins_another();
}

/// States that it makes no difference in which pieces a stream came.
///
/// The turns that were taken are those of a run of the joined stream. That run's output is what was
/// written, and then the output that isn't written yet. Each turn is one of the calls.
pub fn the_pieces_of_a_stream_do_not_matter<S: Steps, C: Clock>()
    ensures run { (clock : C) (greatest calls : ℕ) (read written : List ℕ)
        (last : SessionState) (before after : S) →
        (exchange : Exchange (in_session S.Steps) (C.may_give clock) (opened greatest) before
        calls read written last after) →
        Run S.Steps (C.may_give clock) (fed (opened greatest) read) before
        (turns_taken S.Steps (C.may_give clock) exchange.1) (with_written written last) after }
    ensures few { (clock : C) (greatest calls : ℕ) (read written : List ℕ)
        (last : SessionState) (before after : S) →
        (exchange : Exchange (in_session S.Steps) (C.may_give clock) (opened greatest) before
        calls read written last after) →
        length (turns_taken S.Steps (C.may_give clock) exchange.1) ≤ calls }
{}

/// States that skipped bytes may be dropped as soon as they come.
///
/// What is to be read is the same, and so are its units.
pub fn passing_over_early_does_not_matter()
    ensures read { (unread : Unread) → to_read (settled unread) ≡ to_read unread }
    ensures units { (unread : Unread) (units : List ProtocolUnit) →
        HasUnits (settled unread) units ↔ HasUnits unread units }
{}
