//! Laws of visits, each the contract of a function that does nothing.

ghost use Rattle.std.specs.Prelude.{◌≡◌, ◌≤◌, ℕ, List, [], ◌++◌, length, Some, slice_get, IsTrue, IsFalse};
ghost use Rattle.mc_guests.specs.Books.{BooksState, HasNumber, StandsAt};
ghost use Rattle.mc_guests.specs.Budgets.{is_retry_due};
ghost use Rattle.mc_guests.specs.Fairness.{IsFair, NoneFindsRoom, StandsBy};
ghost use Rattle.mc_guests.specs.Retries.{begun_anew, looks};
ghost use Rattle.mc_guests.specs.Turns.{VisitsAll};
ghost use Rattle.mc_guests.specs.Links.{LinkState, grown};
ghost use Rattle.mc_guests.specs.Guests.{GuestState, RowGuest, welcomed, told};
ghost use Rattle.mc_guests.specs.Visits.{Visited, GoesRound};
ghost use Rattle.mc_guests.specs.Telling.{TakenTurn, Visits, texts, turns_of};
ghost use Rattle.mc_guests.specs.Telling.{bytes_given, bytes_taken, AnswerFirst, AnswerAll};
ghost use Rattle.mc_parse.specs.Units.{ProtocolUnit};
ghost use Rattle.mc_parse.specs.Streams.{AreUnits};

use crate::guest::Visit;
use mc_parse::no_spelling_begins_another;
use mc_protocol::Steps;

/// States that links take the texts of turns, in order, and nothing else.
///
/// What a link took, followed by the output that is left, grows with each visit by the text of the
/// turn that the visit took, and by nothing if it took none. So with visits in order it grows by
/// the texts of their turns.
///
/// So what a link took since its guest was made is a front of the texts of all turns, and all of
/// them once a visit has answered `Served`. The law doesn't cover links whose bytes are
/// unspecified.
pub fn links_take_texts_of_turns<S: Steps>()
    ensures visit { (now : ℕ) (answer : Visit) (old new : GuestState) (before after : S)
        (visited : Visited S.Steps now answer old new before after) →
        told new ≡ grown (told old)
        (texts S.Steps (turns_of S.Steps now answer old new before after visited)) }
    ensures visits { (turns : List (TakenTurn S.Steps)) (old new : GuestState) →
        Visits S.Steps turns old new → told new ≡ grown (told old) (texts S.Steps turns) }
    ensures front { (turns : List (TakenTurn S.Steps)) (greatest : ℕ) (link : LinkState)
        (new : GuestState) (taken : List ℕ) → link.taken ≡ Some [] →
        Visits S.Steps turns (welcomed greatest link) new → new.link.taken ≡ Some taken →
        texts S.Steps turns ≡ taken ++ new.session.out }
    ensures all { (turns : List (TakenTurn S.Steps)) (greatest : ℕ) (link : LinkState)
        (new : GuestState) → link.taken ≡ Some [] →
        Visits S.Steps turns (welcomed greatest link) new → new.last ≡ Some Visit.Served →
        new.link.taken ≡ Some (texts S.Steps turns) }
{}

/// States that the output of a link is the answer to its input.
///
/// The turns of a guest's visits are the first turns of the units of the bytes that its link gave,
/// in order. What the link took, followed by the output that is left, is the texts of these turns.
/// Once a visit has answered `Served` they are all turns of that stream, and the link took all
/// their texts.
///
/// The bytes are those that the visits brought to the session and that left its output, so the law
/// holds for every link, also if its bytes are unspecified. For any other link they are the bytes
/// that it shows.
pub fn links_are_answered_what_they_gave<S: Steps>()
    ensures first { (turns : List (TakenTurn S.Steps)) (greatest : ℕ) (link : LinkState)
        (new : GuestState) (units : List ProtocolUnit) →
        (visits : Visits S.Steps turns (welcomed greatest link) new) →
        AreUnits greatest 0 (bytes_given S.Steps visits) units →
        AnswerFirst S.Steps units turns (bytes_taken S.Steps visits ++ new.session.out) }
    ensures all { (turns : List (TakenTurn S.Steps)) (greatest : ℕ) (link : LinkState)
        (new : GuestState) (units : List ProtocolUnit) →
        (visits : Visits S.Steps turns (welcomed greatest link) new) →
        AreUnits greatest 0 (bytes_given S.Steps visits) units → new.last ≡ Some Visit.Served →
        AnswerAll S.Steps units turns (bytes_taken S.Steps visits) }
    ensures given { (turns : List (TakenTurn S.Steps)) (old new : GuestState) →
        (visits : Visits S.Steps turns old new) →
        new.link.given ≡ grown old.link.given (bytes_given S.Steps visits) }
    ensures taken { (turns : List (TakenTurn S.Steps)) (old new : GuestState) →
        (visits : Visits S.Steps turns old new) →
        new.link.taken ≡ grown old.link.taken (bytes_taken S.Steps visits) }
{
    no_spelling_begins_another();
}

/// States that a round visits each of its guests, and that visits continue from round to round.
///
/// The turns of a round follow those of the round before.
pub fn rounds_are_visits<S: Steps>()
    ensures round { (now at : ℕ) (olds news : List GuestState) (before after : S)
        (old new : GuestState) → GoesRound S.Steps now olds news before after →
        slice_get olds at ≡ Some old → slice_get news at ≡ Some new →
        (turns : List (TakenTurn S.Steps)) × Visits S.Steps turns old new }
    ensures rounds { (turns later : List (TakenTurn S.Steps)) (first mid last : GuestState) →
        Visits S.Steps turns first mid → Visits S.Steps later mid last →
        Visits S.Steps (turns ++ later) first last }
{}

/// States who goes on and who waits on after a retry of the waiting guests.
///
/// A retry wakes a guest of the queue only if it finds room beside what was promised to others
/// before, and a sleeping one that was left out of the queue. Other guests stay as they are. A
/// number leaves the queue only if no guest waits by it then. What is promised fits into the share
/// beside what is held, or goes to one guest while none holds much.
///
/// Each guest that was looked at and still waits finds no room. All were, if the queue has up to
/// 256 numbers, unless others wait for the oldest: then that guest waited for 2 s and finds no
/// room.
pub fn retries_are_fair<S: Steps>()
    ensures fair { (now : ℕ) (old new : BooksState) (before after : S)
        (visits : VisitsAll S.Steps now old new before after) →
        IsTrue (is_retry_due old.budget) → IsFair (begun_anew old) visits.between }
    ensures all { (now : ℕ) (old new : BooksState) (before after : S)
        (visits : VisitsAll S.Steps now old new before after) →
        IsTrue (is_retry_due old.budget) → length old.queue ≤ looks →
        IsFalse visits.between.budget.is_kept → NoneFindsRoom visits.between }
    ensures others { (now at number : ℕ) (guest : RowGuest) (old new : BooksState)
        (before after : S) (visits : VisitsAll S.Steps now old new before after) →
        HasNumber old.row at number → StandsAt at old.row guest → IsFalse guest.waits →
        StandsBy number guest visits.between.row }
{}
