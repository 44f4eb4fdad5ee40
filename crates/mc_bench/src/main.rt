//! Measurements of the crates themselves, and a record of random calls in threads.
//!
//! A contract can't state how long a turn, a step or a search takes, and through a socket it can't
//! be measured, because the system calls cost more. So this program calls the crates, and the
//! measuring script takes the time of a whole run, or counts its instructions (docs/BENCHMARKS.md).
//! Threads that race can be tested only by their replies: `record` prints their calls, and an
//! independent search then explains them by an order, or can't (tests/history). Contracts cover
//! only the command line and the calls that are drawn.
//!
//! - `mc_bench worlds SESSIONS ROUNDS`: the sessions of one world take their turns round robin. In
//!   a round each session sets a key and gets it again, which is two turns. All use one key, so
//!   that the store is the same for any number of sessions. It prints the bytes of the sessions'
//!   output.
//! - `mc_bench steps OVER MIX THREADS ROUNDS [SHELVES]`: each of 1, 2 or 4 threads takes ROUNDS
//!   steps of a store with SHELVES shelves, by default 64. OVER is `store`, the store of one
//!   thread; `own`, a shared store with a key for each thread; `side`, the same with keys on
//!   neighbouring shelves; `same`, with one key for all; or `drawn`, with keys that each thread
//!   draws from 4096 at each step. MIX is `gets`; `sets`; `mixed`, nine gets to a set; `misses`,
//!   gets of a key that isn't there; or `renewals`, sets of such a key, each followed by its
//!   delete. It prints how many steps had the expected reply.
//! - `mc_bench record SEED [CALLS]`: four callers in threads of their own make CALLS random calls
//!   each of one shared store, by default 25,000. It prints each call with its reply, in each
//!   caller's order.
//! - `mc_bench finds WITHIN ITEMS WINDOWS`: inserts ITEMS items with keys of 32 bytes and blocks of
//!   100, and searches random keys, 1024 a window, in WINDOWS windows of each kind. The kinds are
//!   `hits`, keys with an item; `turns`, such hits one at a time, each begun after the previous one
//!   has ended; and `misses`, keys without an item. WITHIN is `index`, the shelves' indexes by
//!   themselves, or `store`, whole gets. It prints a line for each window: its kind, how many keys
//!   were found, and the processor time in nanoseconds.
//!
//! Tests: none.
#![tactic(auto)]

mod asked;
mod call;
mod finds;
mod indexes;
mod record;
mod steps;
mod worlds;

use asked::{Run, asked_run};
use std::{env, io};

fn main(rt: HostRuntime) -> io::Result<()> {
    let alloc = rt.alloc();
    let words: Vec<String> = env::args(&rt)?.collect(alloc)?;
    match asked_run(words.as_slice()) {
        Some(Run::Worlds { sessions, rounds }) => {
            let bytes = worlds::serve_rounds(alloc, sessions, rounds)?;
            println!(rt; "{bytes}")
        }
        Some(Run::Steps(threaded)) => {
            let answered = steps::count_answered(&rt, alloc, threaded)?;
            println!(rt; "{answered}")
        }
        Some(Run::Record { seed, calls }) => {
            for told in record::tell_calls(&rt, alloc, seed, calls)? {
                print!(rt; "{told}")?;
            }
            Ok(())
        }
        Some(
            Run::Finds {
                within,
                items,
                windows,
            },
        ) => finds::tell_finds(&rt, alloc, within, items, windows),
        None => Err(io::Error::from(io::ErrorKind::InvalidInput)),
    }
}
