//! What follows of what a server has served, as the contract of a function that does nothing.
ghost use Rattle.std.specs.Prelude.{List, IsPermutation};
ghost use Rattle.mc_shared.specs.History.{HistoryEntry};
ghost use Rattle.mc_shared.specs.Past.{held};
ghost use Rattle.mc_run.specs.Served.{HasServed};
ghost use Rattle.mc_run.specs.Answered.{AreAllAnswered};

use mc_hop::Fnv;
use mc_host::AskedClock;
use mc_options::Options;
use mc_time::Clock;
use mc_worker_laws::all_workers_answer_their_links;

/// States that one list of calls answers all links of a server that has served.
///
/// It has exactly the calls of all threads of the server, each once and each caller's in order. The
/// plain machine, from an empty store, takes them in order, and replies to each as its caller was
/// answered. Each link that a worker admitted is answered within this list, by the calls of its own
/// turns.
pub fn one_list_answers_all_links<C: Clock>()
    ensures { (options : Options) (clock : C)
        (served : HasServed options (C.may_give clock)) →
        (calls : List HistoryEntry) × IsPermutation (held served.past) calls
        × AreAllAnswered options (C.may_give clock) served calls }
{
    all_workers_answer_their_links::<Fnv, AskedClock<C>>();
}
