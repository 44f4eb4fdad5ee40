//! Laws of the plain world, each the contract of a function that does nothing.

ghost use Rattle.std.specs.Prelude.{◌≡◌, ℕ, List, ◌∷◌, ◌++◌, ◌↔◌, Some, true};
ghost use Rattle.mc_session.specs.Turns.{SessionState, NoTurnDue};
ghost use Rattle.mc_world.specs.Connections.{Connection, Stands, HasNoNext};
ghost use Rattle.mc_world.specs.Worlds.{PlainWorld, WorldState, WorldStandsAs, Runs, numbered};
ghost use Rattle.mc_world.specs.Laws.{RunAlike, DecidesNoStepBehind, IsApart};
ghost use Rattle.mc_world.specs.Laws.{Answer, HasAnswers, Leaves};
ghost use Rattle.mc_world.specs.Laws.{Grammar};
ghost use Rattle.mc_world.specs.declared.event.Event.{Event};
ghost use Rattle.mc_world.specs.declared.event.Event.TheVariants.{Grow, Piece};

use mc_hop::KeyHash;

/// States that growth is invisible: an event of growth may be added or removed anywhere.
pub fn growth_never_shows()
    ensures { (shelf : ℕ) (front rest : List Event) →
        RunAlike (front ++ Grow shelf ∷ rest) (front ++ rest) }
{}

/// States that a piece may be cut in two anywhere.
pub fn a_piece_may_be_cut()
    ensures { (session : ℕ) (piece more : List ℕ) (front rest : List Event) → RunAlike
        (front ++ Piece session piece ∷ Piece session more ∷ rest)
        (front ++ Piece session (piece ++ more) ∷ rest) }
{}

/// States that an event of a session that decides no step may be swapped with a neighbour.
///
/// The neighbour is any event of another session, except an opening, or a clock, a growth or a
/// purge.
pub fn sessions_may_change_places()
    ensures { (hash : List ℕ → ℕ) (shelves n : ℕ) (still other : Event) (old new : PlainWorld)
        (front rest : List Event) →
        DecidesNoStepBehind hash shelves old front still n → IsApart other n →
        Runs hash shelves old (front ++ still ∷ other ∷ rest) new
        ↔ Runs hash shelves old (front ++ other ∷ still ∷ rest) new }
{}

/// States that a session's input and output follow from its own events and its steps' replies.
///
/// The rest of a run (other sessions, the clock, growth and purges) shows only in those replies.
#[tactic(auto, using(crate::proofs::AnswerLemmas::runs_answering))]
pub fn a_session_follows_its_own_answers()
    ensures answered { (hash : List ℕ → ℕ) (shelves n : ℕ) (old new : PlainWorld)
        (events : List Event) (first : Connection) →
        numbered n old.connections ≡ Some first → Runs hash shelves old events new →
        HasAnswers hash shelves n old events new }
    ensures follows { (n : ℕ) (first : Connection) (own : List Event) (answers : List Answer)
        (last other : Connection) →
        Leaves n first own answers last → Leaves n first own answers other → other ≡ last }
{}

/// States that a plain world represents only one state with given settings and hasher.
///
/// So the contract about a world determines it, but for what its growths have left to move.
#[tactic(auto, using(crate::proofs::ConnectionLemmas::stands_one))]
pub fn a_plain_world_stands_one_way<K: KeyHash>()
    ensures { (plain : PlainWorld) (one other : WorldState K) →
        WorldStandsAs plain one → WorldStandsAs plain other →
        other.settings ≡ one.settings → other.hasher ≡ one.hasher →
        record other { left = one.left } ≡ one }
{}

/// States that a turn of an open session is due exactly if its connection has a next one.
pub fn a_turn_is_due_of_both()
    ensures { (connection : Connection) (session : SessionState) →
        Stands connection session → connection.is_open ≡ true →
        NoTurnDue session ↔ HasNoNext connection }
{}

/// States that the laws of the grammar and of sessions hold, as far as the proofs here use them.
#[tactic(auto, using(crate::proofs::ConnectionLemmas::the_grammar))]
pub fn grammar()
    ensures { Grammar }
{}
