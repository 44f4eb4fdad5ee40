//! What the program does, by its command line.
ghost use Rattle.std.specs.Prelude.{◌≡◌, true, false};
ghost use Rattle.mc_host.specs.Ends.{EndsListening};
ghost use Rattle.mc_host.specs.Clocks.{moments};
ghost use Rattle.mc_run.specs.Runs.{IsProgramMoment, EndsServed};
ghost use Rattle.mc_run.specs.Served.{EndsServing};
ghost use Rattle.mc_time.specs.declared.reading.Reading.{Reading};

use crate::listening::listen;
use crate::serving::serve;
use mc_host::{AskedClock, Diagnostics, End};
use mc_options::Options;
use mc_time::{HostClocks, SteadyClock};
use std::alloc::AllocGlobal;
use std::fs::Files;
use std::io::{Read, Write};
use std::net::Net;
use std::sync::Wait;
use std::thread::Threads;
use std::time;

/// Runs the program by its options.
///
/// With `--stdin` it serves one session over the reader and the writer, by the options' clock.
/// Without, it listens at the endpoints, answers scrapes if that is an option, and ends if it is
/// asked to and may be; it neither reads nor writes here. After it has served, the callers of all
/// its threads are joined into one, within whose past each worker's links are answered.
pub fn run<H, R, W>(
    rt: &H,
    diagnostics: Diagnostics,
    options: Options,
    reader: &mut R,
    writer: &mut W,
) -> End
where
    H: Net + Files + AllocGlobal + Wait + Threads + time::Clock + Sync,
    R: Read,
    W: Write,
    ensures serves { options.stdin ≡ true → (start : Reading)
        × EndsServed options.settings (moments options.now (IsProgramMoment start))
        (R.remaining reader.old) (R.remaining reader.new)
        (W.contents writer.old) (W.contents writer.new) result }
    ensures listens { options.stdin ≡ false
        → EndsListening options.endpoints options.scrapes options.may_quit result }
    ensures answers { options.stdin ≡ false → (start : Reading)
        × EndsServing options (IsProgramMoment start) result }
    ensures reads_nothing { options.stdin ≡ false → reader.new ≡ reader.old }
    ensures writes_nothing { options.stdin ≡ false → writer.new ≡ writer.old }
{
    let system = SteadyClock::new(HostClocks::new(rt));
    if options.stdin {
        let clock = AskedClock {
            asked: options.now,
            system,
        };
        serve(rt.alloc(), options.settings, reader, writer, &clock)
    } else {
        listen(rt, diagnostics, options, &system)
    }
}
