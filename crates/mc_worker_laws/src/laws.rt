//! Laws of workers, each the contract of a function that does nothing.

ghost use Rattle.std.specs.Prelude.{ℕ, List, length};
ghost use Rattle.mc_protocol.specs.Plain.{Plain};
ghost use Rattle.mc_shelf.specs.Stores.{StoreState};
ghost use Rattle.mc_shared.specs.History.{HistoryEntry, start_of};
ghost use Rattle.mc_shared.specs.Past.{Past};
ghost use Rattle.mc_shared.specs.Shown.{CallerState};
ghost use Rattle.mc_shared.specs.Steps.{Agrees};
ghost use Rattle.mc_laws.specs.Laws.{PastIsWithin};
ghost use Rattle.mc_laws.specs.Together as Together;
ghost use Rattle.mc_workers.specs.Rounds.{WorksToEnd};
ghost use Rattle.mc_workers.specs.Tending.{asked_by};
ghost use Rattle.mc_guests.specs.Arrivals.{turned_away};
ghost use Rattle.mc_workers.specs.Came.{all_came};
ghost use Rattle.mc_workers.specs.Gone.{all_let_go};
ghost use Rattle.mc_worker_laws.specs.Traces.{AreAnswered, AreCounted, AreAllOf, all_links};
ghost use Rattle.mc_worker_laws.specs.Calls.{AreAnsweredAmong};

use mc_guests::WorkEnd;
use mc_hop::KeyHash;
use mc_parse::no_spelling_begins_another;
use mc_time::Clock;

/// States that each link that a worker admits is answered, and that its counts are right.
///
/// All that the worker did is one trace. Each call of its caller is a purge, or belongs to one
/// guest: it is the step of a turn, a read that measures its next key's block, or a step whose text
/// was refused for want of memory. At the end each guest has ended: it was served, or its link or
/// memory failed. What its link took, and then the output that was left, is the texts of the first
/// turns of the units of the bytes that the link gave, and of all turns if it was served. These
/// turns are the guest's own in the trace, and their calls are the caller's, in order.
///
/// Each link that came was admitted, and has a guest, or was refused at the door. The worker
/// returns how many guests were served, how many lost their links, and how many were refused memory
/// or at the door; a counter stops at its greatest number. The links that were let go are those of
/// the guests, as each was when its guest left, and those that were refused, each once. Which links
/// come, and that these went to `let_go` in this order, are clauses of `work`. The law doesn't
/// state that a link that is closed to make room fails.
pub fn a_worker_answers_its_links<K: KeyHash, C: Clock>()
    ensures { (hash_of : K → List ℕ → ℕ) (clock : C) (first share : ℕ) (began : StoreState K)
        (caller : CallerState) (back : CallerState × WorkEnd)
        (works : WorksToEnd hash_of (C.may_give clock) first share began caller back) →
        (answered : AreAnswered hash_of (C.may_give clock) (all_links hash_of (C.may_give clock)
        works) (asked_by began caller) works.final.asking)
        × AreCounted answered.guests
        (length (turned_away (all_came hash_of (C.may_give clock) works))) back.1
        × AreAllOf answered.guests (turned_away (all_came hash_of (C.may_give clock) works))
        (all_let_go hash_of (C.may_give clock) works) }
{
    no_spelling_begins_another();
}

/// States that one list of calls answers the links of all workers.
///
/// Let a legal history keep a past, into which the callers of workers were joined. Then there is
/// one list of all calls in that past, each once, and the plain machine, given these calls in order
/// and the state in which the store began, replies to each as its caller was answered. Once all
/// callers are joined it has exactly their calls. The links of each of these workers are answered
/// within this list: each call of the worker's caller is a purge, a read that measures the block of
/// a guest's next key, a turn's step, or a step whose text was refused for want of memory. All are
/// in the list in their order, and those of a link's turns are in the order of its requests. What
/// else a worker's caller has it had before the worker began.
pub fn all_workers_answer_their_links<K: KeyHash, C: Clock>()
    ensures { (hash_of : K → List ℕ → ℕ) (clock : C) (began : StoreState K) (past : Past) →
        Agrees (start_of hash_of began) past → (calls : List HistoryEntry) × (left : Plain)
        × Together.AreAnswered (start_of hash_of began) past calls left
        × ((first share : ℕ) (caller : CallerState) (back : CallerState × WorkEnd)
        (works : WorksToEnd hash_of (C.may_give clock) first share began caller back) →
        PastIsWithin back.0.past past →
        AreAnsweredAmong hash_of (C.may_give clock) calls
        (all_links hash_of (C.may_give clock) works) (asked_by began caller) works.final.asking) }
{
    no_spelling_begins_another();
}
