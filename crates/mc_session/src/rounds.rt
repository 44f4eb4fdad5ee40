//! The loop that serves an endpoint: turns, and the writes and reads that they require.

ghost use Rattle.std.specs.Prelude.{◌≡◌, ◌≢◌, ◌<◌, ◌↔◌, ◌^◌, [], true, Ok, Err, OnOk, IfOk, IfErr, IsFalse, length};
ghost use Rattle.std.specs.Io.KnownBytes.{IsAtEnd};
ghost use Rattle.mc_session.specs.Exchanges.{longest_piece, most_waiting};
ghost use Rattle.mc_session.specs.Exchanges.{scene, Wrote, Exchanges, FallsShort, HasEnded};
ghost use Rattle.mc_session.specs.Rounds.{Reads, LosesPiece, GoesOn, IsRefused};

use crate::endpoint::Endpoint;
use crate::session::Turn;
use mc_protocol::ServeFault;
use mc_time::Clock;
use std::alloc::Global;
use std::io::{ErrorKind, Read, Write};

/// The most turns of a run, including calls that find none due.
const TURNS: u64 = 1 << 40;

/// The most bytes read at once.
pub const LONGEST_PIECE: usize = 16384;

/// Output of this many bytes is written before the next turn.
pub const WRITE_AT: usize = 65536;

/// What the turns of a run are given: memory and moments.
#[derive(Drop)]
pub struct TurnContext<'a, C: Clock> {
    pub alloc: Global,
    pub clock: &'a C,
}

/// Returns a buffer for pieces of `LONGEST_PIECE` bytes. The only error is `NoMemory`.
pub fn piece_buffer(alloc: Global) -> Result<Vec<u8>, ServeFault>
    ensures ok { IfOk result (λ buffer. length buffer.items ≡ longest_piece) }
    ensures err { IfErr result (λ fault. fault ≡ ServeFault.NoMemory) }
{
    match vec![in alloc; 0; LONGEST_PIECE] {
        Ok(buffer) => Ok(buffer),
        Err(_) => Err(ServeFault::NoMemory),
    }
}

/// Serves an endpoint until the input ends or the endpoint closes.
///
/// It takes turns at the clock's moments, reads a piece when no turn is due, and writes the output
/// then and before a turn once there are `WRITE_AT` bytes of it. At the end some output may be
/// unwritten.
///
/// The error is `Read` if the reader fails and after 2^40 turns, `Write` if the writer fails or
/// takes nothing, and `NoMemory` if memory is refused for a piece or a turn.
pub fn serve_endpoint<R: Read, W: Write, S, E: Endpoint<S>, C: Clock>(
    context: &TurnContext<'_, C>,
    reader: &mut R,
    writer: &mut W,
    endpoint: &mut E,
    store: &mut S,
    piece: &mut [u8],
) -> Result<(), ServeFault>
    requires { 0 < length piece.old }
    ensures goes { result ≢ Err ServeFault.NoMemory →
        Exchanges E.Endpoint (C.may_give context.now.clock.now) (2 ^ 40)
        (scene endpoint.old store.old (R.remaining reader.old) (W.contents writer.old))
        (scene endpoint.new store.new (R.remaining reader.new) (W.contents writer.new)) }
    ensures ended { OnOk result
        (HasEnded E.Endpoint endpoint.new store.new (R.remaining reader.new)) }
    ensures memory { result ≡ Err ServeFault.NoMemory →
        FallsShort E.Endpoint (C.may_give context.now.clock.now)
        (scene endpoint.old store.old (R.remaining reader.old) (W.contents writer.old))
        (scene endpoint.new store.new (R.remaining reader.new) (W.contents writer.new)) }
{
    for _turn in 0..TURNS {
        match round(context, reader, writer, endpoint, store, piece) {
            Ok(true) => return Ok(()),
            Ok(false) => {}
            Err(fault) => return Err(fault),
        }
    }
    Err(ServeFault::Read)
}

/// Takes one turn, with the writes and the read that it requires.
///
/// Returns whether nothing more is to come.
fn round<R: Read, W: Write, S, E: Endpoint<S>, C: Clock>(
    context: &TurnContext<'_, C>,
    reader: &mut R,
    writer: &mut W,
    endpoint: &mut E,
    store: &mut S,
    piece: &mut [u8],
) -> Result<bool, ServeFault>
    requires { 0 < length piece.old }
    ensures goes { result ≢ Err ServeFault.NoMemory →
        GoesOn E.Endpoint (C.may_give context.now.clock.now)
        (scene endpoint.old store.old (R.remaining reader.old) (W.contents writer.old))
        (scene endpoint.new store.new (R.remaining reader.new) (W.contents writer.new)) }
    ensures end { result ≡ Ok true →
        HasEnded E.Endpoint endpoint.new store.new (R.remaining reader.new) }
    ensures memory { result ≡ Err ServeFault.NoMemory →
        IsRefused E.Endpoint (C.may_give context.now.clock.now)
        (scene endpoint.old store.old (R.remaining reader.old) (W.contents writer.old))
        (scene endpoint.new store.new (R.remaining reader.new) (W.contents writer.new)) }
{
    write_much(writer, endpoint, store)?;
    match endpoint.take_turn(context.alloc, store, context.clock.now()) {
        Ok(Turn::Did) => Ok(false),
        Ok(Turn::Closed) => Ok(true),
        Ok(Turn::Idle) => {
            write_out(writer, endpoint, store)?;
            read_piece(context.alloc, reader, endpoint, store, piece)
        }
        Err(_) => Err(ServeFault::NoMemory),
    }
}

/// Writes the output if there are at least `WRITE_AT` bytes of it.
///
/// After an error the unwritten output is kept.
fn write_much<W: Write, S, E: Endpoint<S>>(
    writer: &mut W,
    endpoint: &mut E,
    store: &mut S,
) -> Result<(), ServeFault>
    ensures wrote { Wrote E.Endpoint endpoint.old store.old endpoint.new store.new
        (W.contents writer.old) (W.contents writer.new) }
    ensures ok { OnOk result (length (E.waits endpoint.new store.new) < most_waiting) }
    ensures err { IfErr result (λ fault. fault ≡ ServeFault.Write) }
{
    if is_full(endpoint, store) {
        write_out(writer, endpoint, store)
    } else {
        Ok(())
    }
}

/// Returns whether the output must be written before the next turn.
fn is_full<S, E: Endpoint<S>>(endpoint: &E, store: &S) -> bool
    ensures { IsFalse result ↔ (length (E.waits endpoint.now store.now) < most_waiting) }
{
    endpoint.output(store).len() >= WRITE_AT
}

/// Writes an endpoint's output.
///
/// The error is `Write` if the writer fails or takes nothing, and the unwritten output is then
/// kept. An interrupted write is retried.
pub fn write_out<W: Write, S, E: Endpoint<S>>(
    writer: &mut W,
    endpoint: &mut E,
    store: &mut S,
) -> Result<(), ServeFault>
    ensures wrote { Wrote E.Endpoint endpoint.old store.old endpoint.new store.new
        (W.contents writer.old) (W.contents writer.new) }
    ensures idle { E.is_idle endpoint.old store.old → E.is_idle endpoint.new store.new }
    ensures ok { OnOk result (E.waits endpoint.new store.new ≡ []) }
    ensures err { IfErr result (λ fault. fault ≡ ServeFault.Write) }
{
    for _ in 0..u64::MAX {
        if endpoint.output(store).is_empty() {
            return Ok(());
        }
        match writer.write(endpoint.output(store)) {
            Ok(0) => return Err(ServeFault::Write),
            Ok(written) => endpoint.wrote(store, written),
            Err(error) => {
                if error.kind() != ErrorKind::Interrupted {
                    return Err(ServeFault::Write);
                }
            }
        }
    }
    Err(ServeFault::Write)
}

/// Reads the next piece and brings it to the endpoint. Returns whether the input is at its end.
///
/// The piece has at most `LONGEST_PIECE` bytes, whatever room there is. An interrupted read brings
/// nothing.
fn read_piece<R: Read, S, E: Endpoint<S>>(
    alloc: Global,
    reader: &mut R,
    endpoint: &mut E,
    store: &mut S,
    piece: &mut [u8],
) -> Result<bool, ServeFault>
    requires { 0 < length piece.old }
    ensures reads { result ≢ Err ServeFault.NoMemory →
        Reads E.Endpoint endpoint.old store.old (R.remaining reader.old) (R.remaining reader.new)
        endpoint.new store.new }
    ensures end { result ≡ Ok true → (endpoint.new ≡ endpoint.old) × (store.new ≡ store.old)
        × IsAtEnd (R.remaining reader.new) }
    ensures memory { result ≡ Err ServeFault.NoMemory →
        LosesPiece E.Endpoint endpoint.old store.old
        (R.remaining reader.old) (R.remaining reader.new) endpoint.new store.new }
{
    let (room, _) = piece.split_at_mut(piece.len().min(LONGEST_PIECE));
    match reader.read(room) {
        Ok(0) => Ok(true),
        Ok(len) => {
            let (read, _) = room.split_at(len);
            match endpoint.bring(alloc, store, read) {
                Ok(()) => Ok(false),
                Err(_) => Err(ServeFault::NoMemory),
            }
        }
        Err(error) => {
            if error.kind() == ErrorKind::Interrupted {
                Ok(false)
            } else {
                Err(ServeFault::Read)
            }
        }
    }
}
