//! A worker's loop.
//!
//! Each shelf is tidied once in 64 clock ticks, at any number of shelves, and before the visits of
//! a round: all workers' clocks rise together, so tidying after visits made three workers wait for
//! each other. If a write finds no chunk, all shelves are tidied in the worker's next 16 series of
//! rounds, since dead items may have what it lacks.
ghost use Rattle.std.specs.Prelude.{◌≡◌, ◌-◌, ◌^◌, nat_lt, false};
ghost use Rattle.mc_guests.specs.Arrivals.{seen_by, Brings};
ghost use Rattle.mc_guests.specs.Leaving.{AreLetGo};
ghost use Rattle.mc_shared.specs.History.{start_of};
ghost use Rattle.mc_shared.specs.Steps.{Agrees};
ghost use Rattle.mc_workers.specs.Came.{all_came};
ghost use Rattle.mc_workers.specs.Gone.{all_let_go, gone_after, gone_in_rounds};
ghost use Rattle.mc_workers.specs.Moments.{ReadsOn};
ghost use Rattle.mc_workers.specs.Room.{MakesRoom, EndsUpTo, JudgesUpTo};
ghost use Rattle.mc_workers.specs.Rounds.{MakesRounds, VisitsAndSettles, WorksToEnd};
ghost use Rattle.mc_workers.specs.Tending.{GoesFurther, Further, TidiesInTurn};

use crate::counting::Counting;
use crate::rereading::RereadClock;
use crate::tending::Tending;
use mc_guests::{
    Admission, Budget, Guests, LeavingLink, Link, Links, NoTally, Tally, Verdict, WorkEnd,
};
use mc_hop::KeyHash;
use mc_shared::{Caller, Gate, Shared};
use mc_time::{Clock, Moment};
use std::alloc::Global;
use std::sync::Wait;

/// After this many visits the links look for events, even if a guest is awake.
const VISITS: usize = 256;

/// The settings of a worker's loop.
#[derive(Drop)]
pub struct Worker<'a, G: Gate, T: Tally, C: Clock> {
    /// Called once in each step, while the step's shelf is held.
    pub gate: &'a G,
    /// Gets each step that was taken with its outcome, and what the guests hold.
    pub tally: &'a T,
    pub clock: &'a C,
    /// The shelf that is tidied first, modulo their number. Workers that start apart don't meet.
    pub first: u32,
    /// Bytes of input and output that its guests may hold.
    ///
    /// Above it, a guest that needs more than 16384 bytes waits. While guests wait, the slowest of
    /// those that hold more than 16384 bytes are closed: they moved nothing for 5 seconds, or less
    /// than 65536 bytes a second.
    pub share: usize,
}

impl<'a, G: Gate, T: Tally, C: RereadClock> Worker<'a, G, T, C> {
    /// Serves links until no link comes any more and all sessions have ended.
    ///
    /// It makes rounds of the guests that are awake until none is, or 256 visits were made, and then
    /// admits up to 32 new links. The clock is read anew before these rounds, and all of their
    /// visits have its moment. When it has risen, the dead items of the next shelf in turn are
    /// dropped first; with more than 64 shelves it takes several, so that 64 risings reach all
    /// shelves. Since a write found no chunk, one more for each 16 shelves is taken before each of
    /// the next 16 series of rounds. Each step is followed by the growth of its key's shelf by 8
    /// entries.
    ///
    /// The caller is returned with further calls in its past and nothing else, each at a moment
    /// that the clock may give; there is a legal history that keeps this past. A fault of one link,
    /// or one session's want of memory, ends only that session. If the links that are to come are
    /// known, these came, in order, and all of them. The links that were let go are those of guests
    /// that ended, after the round in which they did, and those that were refused.
    pub fn work<R: Wait, K: KeyHash + Drop, L: LeavingLink + Drop, Q: Links<L>>(
        &self,
        rt: &R,
        alloc: Global,
        shared: &Shared<K>,
        caller: Caller,
        links: &mut Q,
    ) -> (Caller, WorkEnd)
        requires own { caller.table ≡ shared.now.table }
        ensures same { result.0.table ≡ caller.table }
        ensures calls { Further (C.may_give self.now.clock.now) caller.past result.0.past }
        ensures kept { Agrees (start_of K.hash_of shared.now.began) result.0.past }
        ensures works { (works : WorksToEnd K.hash_of (C.may_give self.now.clock.now)
            self.now.first self.now.share shared.now.began caller result)
            × ReadsOn K.hash_of (C.may_give self.now.clock.now) (C.may_follow self.now.clock.now)
            works
            × Brings (all_came K.hash_of (C.may_give self.now.clock.now) works) false
            (seen_by L.shown (Q.coming links.old)) (seen_by L.shown (Q.coming links.new))
            × AreLetGo L.leaves (all_let_go K.hash_of (C.may_give self.now.clock.now) works) 0
            works.final.books.gone }
    {
        let tending = Tending::new(rt, shared, caller, self.gate);
        let mut counting = Counting::new(tending, self.tally);
        let mut door = Admission::new(shared.greatest());
        let mut guests = Guests::new(alloc, Budget::new(self.share, shared.greatest()));
        let mut end = WorkEnd {
            served: 0,
            broken: 0,
            refused: 0,
        };
        let mut before = self.clock.now();
        let mut turn = self.first;
        for _ in rt.forever() {
            let now = self.clock.now_after(before);
            turn = tidy_in_turn(&mut counting, turn, before, now);
            make_rounds(alloc, &mut guests, &mut counting, links, &mut end, now);
            look_if_busy(&guests, links);
            guests.report(self.tally);
            make_room(&mut guests, links);
            if !door.open_for_all(alloc, links, &mut guests, &mut end) {
                return (counting.into_steps().into_caller(), end);
            }
            before = now;
        }
        unreachable!()
    }
}

/// Serves links as a `Worker` does, without a tally, and tidies the first shelf first.
pub fn work<
    R: Wait,
    K: KeyHash + Drop,
    L: LeavingLink + Drop,
    Q: Links<L>,
    G: Gate,
    C: RereadClock,
>(
    rt: &R,
    alloc: Global,
    shared: &Shared<K>,
    caller: Caller,
    links: &mut Q,
    gate: &G,
    clock: &C,
) -> (Caller, WorkEnd)
    requires own { caller.table ≡ shared.now.table }
    ensures same { result.0.table ≡ caller.table }
    ensures calls { Further (C.may_give clock.now) caller.past result.0.past }
    ensures kept { Agrees (start_of K.hash_of shared.now.began) result.0.past }
    ensures works { (works : WorksToEnd K.hash_of (C.may_give clock.now) 0 (2 ^ 64 - 1)
        shared.now.began caller result)
        × ReadsOn K.hash_of (C.may_give clock.now) (C.may_follow clock.now) works
        × Brings (all_came K.hash_of (C.may_give clock.now) works) false
        (seen_by L.shown (Q.coming links.old)) (seen_by L.shown (Q.coming links.new))
        × AreLetGo L.leaves (all_let_go K.hash_of (C.may_give clock.now) works) 0
        works.final.books.gone }
{
    let worker = Worker {
        gate,
        tally: &NoTally,
        clock,
        first: 0,
        share: usize::MAX,
    };
    worker.work(rt, alloc, shared, caller, links)
}

/// Makes a round at a moment, and further ones as long as a guest is awake, fewer than 256 visits
/// were made, and the links aren't due.
///
/// A request takes four visits, and the links have nothing to add between them.
fn make_rounds<R: Wait, K: KeyHash + Drop, L: LeavingLink + Drop, Q: Links<L>, G: Gate, T: Tally>(
    alloc: Global,
    guests: &mut Guests<L>,
    counting: &mut Counting<'_, Tending<'_, R, K, G>, T>,
    links: &Q,
    end: &mut WorkEnd,
    now: Moment,
)
    ensures further { GoesFurther (λ moment. moment ≡ now) counting.old counting.new }
    ensures rounds { (rounds : MakesRounds K.hash_of now (counting.old, guests.old, end.old)
        (counting.new, guests.new, end.new))
        × AreLetGo L.leaves (gone_in_rounds K.hash_of rounds) guests.old.gone guests.new.gone }
{
    let mut left = VISITS.saturating_sub(guests.awake());
    make_round(alloc, guests, counting, end, now);
    for _ in 0..VISITS {
        if left == 0 || guests.is_quiet() || links.is_due() {
            return;
        }
        left = left.saturating_sub(guests.awake());
        make_round(alloc, guests, counting, end, now);
    }
}

/// Lets the links look for events if a guest is awake. Otherwise they will rest.
fn look_if_busy<L: Link + Drop, Q: Links<L>>(guests: &Guests<L>, links: &mut Q)
    ensures { Q.coming links.new ≡ Q.coming links.old }
{
    if !guests.is_quiet() {
        links.look();
    }
}

/// Makes a round at a moment: visits all awake guests, drops those that ended, lets their links go,
/// and puts idle ones to sleep.
#[inline]
fn make_round<R: Wait, K: KeyHash + Drop, L: LeavingLink + Drop, G: Gate, T: Tally>(
    alloc: Global,
    guests: &mut Guests<L>,
    counting: &mut Counting<'_, Tending<'_, R, K, G>, T>,
    end: &mut WorkEnd,
    now: Moment,
)
    ensures further { GoesFurther (λ moment. moment ≡ now) counting.old counting.new }
    ensures round { (round : VisitsAndSettles K.hash_of now (counting.old, guests.old, end.old)
        (counting.new, guests.new, end.new))
        × AreLetGo L.leaves (gone_after K.hash_of round) guests.old.gone guests.new.gone }
{
    guests.visit_all(alloc, counting, now);
    guests.settle(end);
}

/// Drops the dead items of the next shelves if the clock has risen, or writes lack chunks.
///
/// Returns the next shelf to tidy. The clocks of all workers rise at once. A worker that
/// tidies its own shelves first doesn't want a shelf that another tidies.
fn tidy_in_turn<R: Wait, K: KeyHash + Drop, G: Gate, T: Tally>(
    counting: &mut Counting<'_, Tending<'_, R, K, G>, T>,
    turn: u32,
    before: Moment,
    now: Moment,
) -> u32
    ensures further { GoesFurther (λ moment. moment ≡ now) counting.old counting.new }
    ensures tidies { TidiesInTurn K.hash_of (nat_lt before now) now turn result counting.old
        counting.new }
{
    counting.tidy(turn, before.seconds() < now.seconds(), now)
}

/// Once a tick ends readers of what has left the store, if that is more than the share, and judges
/// the slowest guests that hold much: as many as wait, at most 16.
fn make_room<L: Link + Drop, Q: Links<L>>(guests: &mut Guests<L>, links: &mut Q)
    ensures room { MakesRoom guests.old guests.new }
    ensures same { Q.coming links.new ≡ Q.coming links.old }
{
    guests.tick(links.ticks());
    let readers = guests.takes_turn_to_end();
    end_readers(guests, links, readers);
    let most = guests.takes_turn_to_judge();
    judge_slow(guests, links, most);
}

/// Closes the links of the slowest readers of what has left the store, until that is within the
/// share, at most `readers`.
fn end_readers<L: Link + Drop, Q: Links<L>>(guests: &mut Guests<L>, links: &mut Q, readers: usize)
    ensures ends { EndsUpTo readers guests.old guests.new }
    ensures same { Q.coming links.new ≡ Q.coming links.old }
{
    for _ in 0..readers {
        match guests.end_slowest_reader() {
            Some(number) => links.end(number),
            None => return,
        }
    }
}

/// Judges the slowest guests that hold much, at most `most`.
fn judge_slow<L: Link + Drop, Q: Links<L>>(guests: &mut Guests<L>, links: &mut Q, most: usize)
    ensures judges { JudgesUpTo most guests.old guests.new }
    ensures same { Q.coming links.new ≡ Q.coming links.old }
{
    for _ in 0..most {
        match guests.judge_slowest() {
            Some(judged) => carry_out(links, judged),
            None => return,
        }
    }
}

/// Asks the link of a slow guest again, or closes it, as it was judged.
fn carry_out<L: Link + Drop, Q: Links<L>>(links: &mut Q, judged: Verdict)
    ensures { Q.coming links.new ≡ Q.coming links.old }
{
    match judged {
        Verdict::Asks(number) => links.ask_again(number),
        Verdict::Ends(number) => links.end(number),
    }
}
