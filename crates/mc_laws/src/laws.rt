//! Laws of the shared store, each the contract of a function that does nothing.
//!
//! They hold for every legal history that keeps a caller's past; each call promises that there is
//! one. So they state what callers read of one another's writes, whichever history it was.

ghost use Rattle.std.specs.Prelude.{◌≡◌, ◌+◌, ◌%◌, ◌^◌, ◌<◌, ◌≤◌, ◌⊎◌, ℕ, ℤ};
ghost use Rattle.std.specs.Prelude.{List, [], ◌∷◌, ◌++◌, Bool, true, false, Some, None};
ghost use Rattle.mc_protocol.specs.declared.step.KeyStep.{KeyStep};
ghost use Rattle.mc_protocol.specs.declared.reply.Reply.{Reply};
ghost use Rattle.mc_protocol.specs.Commands.{key_of};
ghost use Rattle.mc_protocol.specs.Laws.{IsOnKey};
ghost use Rattle.mc_protocol.specs.Plain.{Plain, opening};
ghost use Rattle.mc_protocol.specs.Plain.{Entry as Item};
ghost use Rattle.mc_shared.specs.Sums.{total};
ghost use Rattle.mc_shared.specs.History.{Beginning, Name, Operation, Stepped, HistoryEntry};
ghost use Rattle.mc_shared.specs.History.{after, IsLegal};
ghost use Rattle.mc_shared.specs.Past.{Past, spent, call, held, callers, times, Whole, KeptBy};
ghost use Rattle.mc_shared.specs.Past as past;
ghost use Rattle.mc_shared.specs.Steps.{entry_of, Agrees};
ghost use Rattle.mc_shared.specs.Store.{with_call, IsShown};
ghost use Rattle.mc_shared.specs.Close.{IsAfter};
ghost use Rattle.mc_laws.specs.Laws.{StandsInLog, StandsBefore, Has, PastIsWithin, CallerKnew, WentOn};
ghost use Rattle.mc_laws.specs.Laws.{IsAlone, Call, with_calls, heeded, PlainAnswers};
ghost use Rattle.mc_laws.specs.Laws.{MayChange, ReadsLatest, ReadsWrite, item_after, item_given};
ghost use Rattle.mc_laws.specs.Laws.{Found, IsHit, IsNoOlder, HasItem, Wrote, HasDrawnNumbers};
ghost use Rattle.mc_laws.specs.Laws.{StoresAsGiven, IsTakenAway};
ghost use Rattle.mc_laws.specs.Laws.{IsWrittenIn, IsNumber, IsCount, counts_up};
ghost use Rattle.mc_laws.specs.Together.{AreAnswered, two_callers, IsMixOf};
ghost use Rattle.mc_laws.specs.Together.{one_note, IsMixWithNote};

use mc_protocol::other_keys_stay;

/// States that all callers, in however many threads, share one plain store.
///
/// There is one list of all calls in a caller's past, each once. In it each call comes after all
/// that its caller knew when it made it. The plain machine, given these calls in order and the
/// state in which the store began, replies to each as its caller was answered. The list may also
/// have calls by others; once all callers are joined it has exactly their calls. A closed store has
/// the state in which such a list leaves the plain machine.
///
/// So if the first caller made another, each made its calls, and they were joined, then some
/// interleaving of the two lists, each in its order, gets these replies from the plain machine.
pub fn callers_share_a_plain_store()
    ensures one { (began : Beginning) (p : Past) → Agrees began p →
        (calls : List HistoryEntry) × (left : Plain) × AreAnswered began p calls left }
    ensures closed { (began : Beginning) (p : Past) (left : Plain) → IsAfter began p left →
        (calls : List HistoryEntry) × AreAnswered began p calls left }
    ensures two { (began : Beginning) (first second : List Call) →
        Agrees began (two_callers first second) →
        (mix : List Call) × IsMixOf first second mix × PlainAnswers began.plain mix }
{}

/// States that the history has the calls in the order in which they were made.
///
/// All that was in a caller's past when it made a call comes before that call. So a caller's own
/// calls are in their order. What its maker did before it made the caller comes before all that the
/// caller does. What was joined comes before all that follows the join.
pub fn calls_keep_their_order()
    ensures stands { (log : List HistoryEntry) (p : Past) (e : HistoryEntry) →
        KeptBy log p → Has p e → StandsInLog log e }
    ensures order { (log : List HistoryEntry) (p q r : Past) (e first : HistoryEntry) →
        KeptBy log r → PastIsWithin (call q e) r → PastIsWithin p q → Has p first →
        StandsBefore log first e }
    ensures numbers { (p q : Past) (first second : Operation) →
        WentOn (call p (entry_of p first)) q →
        ((entry_of q second).by ≡ (entry_of p first).by)
        × ((entry_of p first).number < (entry_of q second).number) }
{}

/// States that a history has of a caller exactly what the past that holds the caller has.
///
/// No entry occurs twice. If a past holds a caller, it holds each entry of that caller, and if the
/// past is whole, each entry at all. So a step takes effect once, and never if it isn't taken.
pub fn a_history_has_nothing_else()
    ensures once { (log : List HistoryEntry) (p : Past) (first second : HistoryEntry) →
        KeptBy log p → StandsBefore log first second → first.by ≡ second.by →
        first.number ≡ second.number → ⊥ }
    ensures own { (log : List HistoryEntry) (p : Past) (e : HistoryEntry) →
        KeptBy log p → 1 ≤ times e.by (callers p) → StandsInLog log e → StandsInLog (held p) e }
    ensures whole { (log : List HistoryEntry) (p : Past) (e : HistoryEntry) →
        KeptBy log p → Whole p → StandsInLog log e → StandsInLog (held p) e }
{}

/// States that a caller reads what it knows to be stored.
///
/// It knows its own writes, its maker's writes before it was made, and the writes of callers that
/// were joined into it. Let a write be answered Stored, and a read of its key follow. Then the read
/// returns the result of that write, or a miss once the item is dead, or an entry between the two
/// may have changed the key's item: a step on the key, a flush, or a purge of the key's shelf.
pub fn a_known_write_is_read()
    ensures { (began : Beginning) (log : List HistoryEntry) (p : Past) (now : ℕ) (reply : Reply)
        (step : KeyStep) (then : ℕ) (write : HistoryEntry) →
        IsLegal began began.plain log →
        KeptBy log (with_call p (KeyStep.Read (key_of step)) now reply) →
        Has p write → write.what ≡ Stepped step then Reply.Stored → IsOnKey step →
        ReadsWrite began log now reply step then write
        (entry_of p (Stepped (KeyStep.Read (key_of step)) now reply)) }
{
    other_keys_stay();
}

/// States what `Shared::absent` proves to a caller: the key had no item.
///
/// At that moment of a history that keeps all that the caller knew, the key had no item. So a key
/// that has an item in each such history is never reported absent to that caller. Let the caller
/// know that a key was stored: by itself, by its maker before it was made, or by a caller that was
/// joined into it. Then the key is reported absent only if another entry of that history, after the
/// write, may have changed the key's item: a step on the key, a flush, or a purge of the key's
/// shelf.
pub fn what_is_absent_is_not_there()
    ensures gone { (began : Beginning) (p : Past) (key : List ℕ) → IsShown began p key true →
        (log : List HistoryEntry) × IsLegal began began.plain log × KeptBy log p
        × (item_after began log key ≡ None) }
    ensures there { (began : Beginning) (p : Past) (key : List ℕ) (answer : Bool) →
        IsShown began p key answer →
        ((log : List HistoryEntry) → IsLegal began began.plain log → KeptBy log p →
        item_after began log key ≡ None → ⊥) → answer ≡ false }
    ensures known { (began : Beginning) (p : Past) (step : KeyStep) (then : ℕ)
        (write : HistoryEntry) → Has p write → write.what ≡ Stepped step then Reply.Stored →
        StoresAsGiven step then → IsShown began p (key_of step) true →
        IsTakenAway began p (key_of step) write }
{
    other_keys_stay();
}

/// States what a caller reads, given what it knows.
///
/// It knows its own calls, its maker's calls before it was made, and those of callers that were
/// joined into it. A read returns the result of one entry E. No entry that the caller knows and
/// that may change the key's item comes after E. So a caller reads a write that it knows, or
/// something later; and of two such writes the later one, or something later still.
///
/// The result of an entry under a key is the item that it stored, as it was given, with its unique
/// number; the result of a delete is nothing.
pub fn a_caller_reads_what_it_knows()
    ensures latest { (began : Beginning) (log : List HistoryEntry) (p : Past) (key : List ℕ)
        (now : ℕ) (reply : Reply) (known : HistoryEntry) →
        IsLegal began began.plain log → KeptBy log (with_call p (KeyStep.Read key) now reply) →
        Has p known → MayChange began key known.what →
        ReadsLatest began log p key now reply (entry_of p (Stepped (KeyStep.Read key) now reply)) }
    ensures given { (began : Beginning) (log before rest : List HistoryEntry) (write : HistoryEntry)
        (step : KeyStep) (then : ℕ) (item : Item) →
        IsLegal began began.plain log → log ≡ before ++ write ∷ rest →
        write.what ≡ Stepped step then Reply.Stored →
        item_given step then (after began began.plain before).next_unique ≡ Some item →
        item_after began (before ++ write ∷ []) (key_of step) ≡ Some item }
    ensures deleted { (began : Beginning) (log before rest : List HistoryEntry)
        (delete : HistoryEntry) (key : List ℕ) (then : ℕ) (reply : Reply) →
        IsLegal began began.plain log → log ≡ before ++ delete ∷ rest →
        delete.what ≡ Stepped (KeyStep.Delete key) then reply →
        item_after began (before ++ delete ∷ []) key ≡ None }
{
    other_keys_stay();
}

/// States that no read goes back.
///
/// If a get or a gat hits, and its caller knows of an earlier hit of the key (its own, one of its
/// maker before it was made, or one of a caller that was joined into it), then its unique number
/// isn't smaller; and if the number is the same, so are the flags and the block. The same holds for
/// any two hits of a key in the history, of any callers; and the same number twice means that no
/// entry between them wrote the key. So clients see an order: of two hits of a key, the one with
/// the smaller number stands first, whichever callers made them. The law requires that the number
/// of each item was drawn, which is so in a new store and stays so.
pub fn no_read_goes_back()
    ensures known { (began : Beginning) (p : Past) (first second : HistoryEntry) (key : List ℕ)
        (was is : Found) →
        HasDrawnNumbers began.plain → Agrees began p → CallerKnew p second first →
        IsHit key was first.what → IsHit key is second.what → IsNoOlder was is }
    ensures history { (began : Beginning) (log : List HistoryEntry) (first second : HistoryEntry)
        (key : List ℕ) (was is : Found) →
        HasDrawnNumbers began.plain → IsLegal began began.plain log →
        StandsBefore log first second →
        IsHit key was first.what → IsHit key is second.what → IsNoOlder was is }
    ensures written { (began : Beginning) (log : List HistoryEntry)
        (first second other : HistoryEntry) (key : List ℕ) (was is : Found) →
        HasDrawnNumbers began.plain → IsLegal began began.plain log →
        (places : StandsBefore log first second) →
        IsHit key was first.what → IsHit key is second.what →
        StandsInLog places.between other → Wrote key other.what → was.unique < is.unique }
    ensures numbers { (began : Beginning) (log : List HistoryEntry) (first second : HistoryEntry)
        (key : List ℕ) (was is : Found) →
        HasDrawnNumbers began.plain → IsLegal began began.plain log →
        StandsInLog log first → StandsInLog log second →
        IsHit key was first.what → IsHit key is second.what → was.unique < is.unique →
        StandsBefore log first second }
{
    other_keys_stay();
}

/// States that the first caller, while it is alone, has a plain store.
///
/// Every history that keeps its past has its calls, in their order, and nothing else. So each reply
/// is the plain machine's, from the state in which the store began.
pub fn a_caller_alone_has_a_plain_store()
    ensures history { (log : List HistoryEntry) (p : Past) →
        IsAlone p → KeptBy log p → log ≡ held p }
    ensures legal { (began : Beginning) (p : Past) →
        IsAlone p → Agrees began p → IsLegal began began.plain (held p) }
    ensures replies { (began : Beginning) (calls : List Call) →
        Agrees began (with_calls (past.start [] spent) calls) → PlainAnswers began.plain calls }
{}

/// States that a read returns only what was stored.
///
/// The item of a hit was under the key when the store began, or an entry before the read wrote it
/// with that unique number.
pub fn nothing_is_made_up()
    ensures { (began : Beginning) (log front rest : List HistoryEntry) (read : HistoryEntry)
        (step : KeyStep) (now flags unique : ℕ) (block : List ℕ) →
        IsLegal began began.plain log → log ≡ front ++ read ∷ rest →
        read.what ≡ Stepped step now (Reply.Hit flags unique block) →
        HasItem began.plain (key_of step) flags unique block
        ⊎ IsWrittenIn began front (key_of step) flags unique block }
{
    other_keys_stay();
}

/// States that a cas that was answered Stored replaced the item whose unique number it names.
///
/// No entry wrote the key between the retrieval that returned this number and the cas. The law
/// requires that the number of each item was drawn, which is so in a new store and stays so.
pub fn a_cas_is_of_what_was_read()
    ensures new { (pages greatest : ℕ) → HasDrawnNumbers (opening pages greatest) }
    ensures stays { (began : Beginning) (log : List HistoryEntry) →
        HasDrawnNumbers began.plain → IsLegal began began.plain log →
        HasDrawnNumbers (after began began.plain log) }
    ensures unwritten { (began : Beginning) (log : List HistoryEntry)
        (read cas other : HistoryEntry) (step : KeyStep) (then now flags unique more : ℕ)
        (exptime : ℤ) (block brought : List ℕ) →
        HasDrawnNumbers began.plain → IsLegal began began.plain log →
        (places : StandsBefore log read cas) →
        read.what ≡ Stepped step then (Reply.Hit flags unique block) →
        cas.what
        ≡ Stepped (KeyStep.Cas (key_of step) more exptime brought unique) now Reply.Stored →
        StandsInLog places.between other → Wrote (key_of step) other.what → ⊥ }
{
    other_keys_stay();
}

/// States that no count is lost.
///
/// Let a key's item be a number, and let each later entry that may change it be an incr that was
/// answered with a number. Then it grows by the sum of their counts, each once, and wraps at 2^64.
/// So once all callers are joined it is the first number plus all counts.
pub fn no_count_is_lost()
    ensures counted { (began : Beginning) (front log : List HistoryEntry) (key : List ℕ) (n : ℕ) →
        IsLegal began began.plain (front ++ log) →
        IsNumber (after began began.plain front) key n →
        ((e : HistoryEntry) → StandsInLog log e → MayChange began key e.what → IsCount key e.what) →
        IsNumber (after began began.plain (front ++ log)) key
        ((n + total (counts_up key) log) % (2 ^ 64)) }
    ensures whole { (began : Beginning) (log : List HistoryEntry) (p : Past) (key : List ℕ)
        (n : ℕ) →
        IsLegal began began.plain log → KeptBy log p → Whole p → IsNumber began.plain key n →
        ((e : HistoryEntry) → StandsInLog (held p) e → MayChange began key e.what →
        IsCount key e.what) →
        IsNumber (after began began.plain log) key
        ((n + total (counts_up key) (held p)) % (2 ^ 64)) }
{
    other_keys_stay();
}

/// States that a caller that heeds a note makes its later calls after all that the note knows.
///
/// A note is a caller without calls. `Shared::note` makes it when the giver's calls have returned,
/// and `Shared::heed` joins it into the taker. In every history that keeps a past in which that
/// happened, each call that the giver had made or knew stands before each later call of the taker.
/// A giver may give several notes. The same holds of `Shared::caller` and `Shared::join`.
///
/// So if the first caller made another, gave it a note, and the other was joined, then the plain
/// machine answers one list of their calls in two parts: all calls that the giver made before the
/// note are in the first part, and all calls that the taker made after it are in the second.
///
/// A history is linearizable, in Herlihy and Wing's words, if its order has each call before every
/// call that is invoked after it returned. All calls promise sequential consistency, which has that
/// for the calls of one caller. This law adds each pair of calls between which a note is passed.
/// That the other callers' calls are answered as without the note is argument: to give and to heed
/// a note loads one word twice, and stores none.
pub fn who_heeds_a_note_comes_after()
    ensures knows { (giver taker q r : Past) (note : Name) (known later : HistoryEntry) →
        WentOn (heeded taker note giver) q → PastIsWithin (call q later) r → Has giver known →
        CallerKnew r later known }
    ensures order { (log : List HistoryEntry) (giver taker q r : Past) (note : Name)
        (known later : HistoryEntry) → KeptBy log r → WentOn (heeded taker note giver) q →
        PastIsWithin (call q later) r → Has giver known → StandsBefore log known later }
    ensures two { (began : Beginning) (firsts more earlier lates : List Call) →
        Agrees began (one_note firsts more earlier lates) →
        (mix : List Call) × IsMixWithNote firsts more earlier lates mix
        × PlainAnswers began.plain mix }
{}
