//! Serving one session from its beginning to its end.
//!
//! `serve` writes its output at 64 KiB, not only when idle: no turn is taken with more, so the
//! output is at most 64 KiB and one text. Interrupted reads and writes are retried.

ghost use Rattle.std.specs.Prelude.{◌≡◌, Ok, OnOk};
ghost use Rattle.mc_session.specs.Serving.{Serves, ServesAll, ServesUntilRefused};

use crate::rounds::{TurnContext, piece_buffer, serve_endpoint, write_out};
use crate::session::Session;
use mc_protocol::{ServeFault, Steps};
use mc_time::Clock;
use std::alloc::Global;
use std::io::{Read, Write};

/// Serves one session until the input ends or the session closes.
///
/// It reads pieces, takes turns at the clock's moments and writes their texts: when no turn is due,
/// at the end, and once there are `WRITE_AT` bytes of output.
///
/// The error is `Read` if the reader fails and after 2^40 calls of `Session::turn`, `Write` if the
/// writer fails or takes nothing, and `NoMemory` if memory is refused for the buffer, a piece or a
/// turn. After an error a beginning of the run was done: what was read is answered by what was
/// written and by output that is dropped.
pub fn serve<R: Read, W: Write, S: Steps, C: Clock>(
    alloc: Global,
    reader: &mut R,
    writer: &mut W,
    greatest: u64,
    store: &mut S,
    clock: &C,
) -> Result<(), ServeFault>
    ensures ok { OnOk result (ServesAll S.Steps (C.may_give clock.now) greatest store.old store.new
        (R.remaining reader.old) (R.remaining reader.new)
        (W.contents writer.old) (W.contents writer.new)) }
    ensures read { result ≡ Err ServeFault.Read →
        Serves S.Steps (C.may_give clock.now) greatest store.old store.new
        (R.remaining reader.old) (R.remaining reader.new)
        (W.contents writer.old) (W.contents writer.new) }
    ensures write { result ≡ Err ServeFault.Write →
        Serves S.Steps (C.may_give clock.now) greatest store.old store.new
        (R.remaining reader.old) (R.remaining reader.new)
        (W.contents writer.old) (W.contents writer.new) }
    ensures memory { result ≡ Err ServeFault.NoMemory →
        ServesUntilRefused S.Steps (C.may_give clock.now) greatest store.old store.new
        (R.remaining reader.old) (R.remaining reader.new)
        (W.contents writer.old) (W.contents writer.new) }
{
    let mut session = Session::new(alloc, greatest);
    let mut buffer = match piece_buffer(alloc) {
        Ok(buffer) => buffer,
        Err(fault) => return Err(fault),
    };
    let piece = buffer.as_mut_slice();
    let context = TurnContext { alloc, clock };
    match serve_endpoint(&context, reader, writer, &mut session, store, piece) {
        Ok(()) => write_out(writer, &mut session, store),
        Err(fault) => Err(fault),
    }
}
