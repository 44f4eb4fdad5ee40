//! Calls of many threads, with their replies.
ghost use Rattle.std.specs.Prelude.{◌≡◌, IfOk};

use crate::call::{Call, KEYS, draw_call, tell_reply};
use mc_hop::Fnv;
use mc_protocol::Reply;
use mc_shared::{Caller, Shared};
use mc_shelf::{Settings, Store};
use mc_testing::Dice;
use mc_time::Moment;
use std::alloc::{AllocError, Global};
use std::sync::Wait;
use std::thread;
use std::thread::Threads;

/// What a caller draws its calls from, how many it makes, and its number.
#[derive(Clone, Copy)]
struct Script {
    seed: u64,
    calls: u32,
    number: u64,
}

/// The lines of a caller's calls.
#[derive(Drop)]
struct Lines {
    text: String,
    /// The caller's number.
    caller: u64,
    /// The number of the next call.
    call: u64,
}

/// Runs four callers, each in a thread of its own, and returns their records, each in its order.
///
/// Afterwards they are joined, and one of them reads all keys. The record has the form that
/// tests/history reads. A flush that is to come and tidying have no line: while the clock stands,
/// no reply shows them.
pub fn tell_calls<R: Threads + Wait + Sync>(
    rt: &R,
    alloc: Global,
    seed: u64,
    calls: u32,
) -> Result<Vec<String>, AllocError> {
    let script = Script {
        seed,
        calls,
        number: 0,
    };
    let others = Script {
        number: 2,
        ..script
    };
    let settings = Settings {
        pages: 64,
        greatest: 1_048_576,
        shelves: 64,
    };
    let (shared, mut me) = Shared::over(alloc, Store::new(alloc, settings, Fnv)?)?;
    let second = shared.caller(&mut me);
    let third = shared.caller(&mut me);
    let fourth = shared.caller(&mut me);
    let (one, other) = thread::join(
        rt,
        || -> Result<(Caller, String), AllocError>
            requires { (me.table ≡ shared.table) × (second.table ≡ shared.table) }
            ensures { IfOk result (λ r. r.0.table ≡ shared.table) }
        { pair(rt, alloc, &shared, me, second, script) },
        || -> Result<(Caller, String), AllocError>
            requires { (third.table ≡ shared.table) × (fourth.table ≡ shared.table) }
            ensures { IfOk result (λ r. r.0.table ≡ shared.table) }
        { pair(rt, alloc, &shared, third, fourth, others) },
    );
    let (mut me, first_told) = one?;
    let (third, second_told) = other?;
    shared.join(&mut me, third);
    let last_told = last(rt, alloc, &shared, me, script)?;
    let begun = format!(in alloc; "0 0 made 1\n0 1 made 2\n0 2 made 3\n")?;
    Ok(vec![in alloc; begun, first_told, second_told, last_told]?)
}

/// Runs two callers and joins them. The first has the script's number, and the other the next.
fn pair<R: Threads + Wait + Sync>(
    rt: &R,
    alloc: Global,
    shared: &Shared<Fnv>,
    first: Caller,
    second: Caller,
    script: Script,
) -> Result<(Caller, String), AllocError>
    requires first { first.table ≡ shared.now.table }
    requires second { second.table ≡ shared.now.table }
    ensures { IfOk result (λ r. r.0.table ≡ shared.now.table) }
{
    let number = script.number;
    let next = Script {
        number: number | 1,
        ..script
    };
    let (one, other) = thread::join(
        rt,
        || -> Result<(Caller, String), AllocError>
            requires { first.table ≡ shared.now.table }
            ensures { IfOk result (λ r. r.0.table ≡ shared.entry.now.table) }
        { calls(rt, alloc, shared, first, script) },
        || -> Result<(Caller, String), AllocError>
            requires { second.table ≡ shared.now.table }
            ensures { IfOk result (λ r. r.0.table ≡ shared.entry.now.table) }
        { calls(rt, alloc, shared, second, next) },
    );
    let (mut first, mut told) = one?;
    let (second, second_told) = other?;
    shared.join(&mut first, second);
    told.push_str(second_told.as_str())?;
    let (after, other) = (u64::from(script.calls) + 3, next.number);
    writeln!(told, "{number} {after} joined {other}")?;
    Ok((first, told))
}

/// Makes one caller's calls.
fn calls<R: Wait>(
    rt: &R,
    alloc: Global,
    shared: &Shared<Fnv>,
    caller: Caller,
    script: Script,
) -> Result<(Caller, String), AllocError>
    requires { caller.table ≡ shared.now.table }
    ensures { IfOk result (λ r. r.0.table ≡ shared.now.table) }
{
    let mut caller = caller;
    let number = script.number;
    let mut dice = Dice::new(script.seed.wrapping_mul(4).wrapping_add(number));
    let mut seen = [0; KEYS];
    let mut lines = Lines {
        text: String::new(alloc),
        caller: number,
        call: 3,
    };
    for turn in 0..u64::from(script.calls) {
        let call = match draw_call(
            alloc,
            &mut dice,
            turn.wrapping_mul(4).wrapping_add(number),
            &seen,
        ) {
            Ok(call) => call,
            Err(fault) => return Err(fault),
        };
        match told_call(rt, alloc, shared, &mut caller, &call, &mut lines) {
            Ok(0) => {}
            Ok(unique) => seen[call.key] = unique,
            Err(fault) => return Err(fault),
        }
    }
    Ok((caller, lines.text))
}

/// Makes one call, and appends its line with the caller's and the call's numbers.
///
/// Returns the unique number of a hit, or 0.
fn told_call<R: Wait>(
    rt: &R,
    alloc: Global,
    shared: &Shared<Fnv>,
    caller: &mut Caller,
    call: &Call,
    lines: &mut Lines,
) -> Result<u64, AllocError>
    requires { caller.old.table ≡ shared.now.table }
    ensures { caller.new.table ≡ caller.old.table }
{
    let now = Moment::from_seconds_at_most(1000);
    let number = lines.call;
    lines.call = number.saturating_add(1);
    let Some(step) = call.step() else {
        let shelf = shared.shelf_of(call.key().as_bytes());
        shared.tidy(rt, caller, shelf, now);
        return Ok(0);
    };
    let reply = match shared.step(rt, alloc, caller, &step, now) {
        Ok(reply) => reply,
        Err(_) => return Err(AllocError),
    };
    if call.has_line() {
        let caller = lines.caller;
        write!(lines.text, "{caller} {number} ")?;
        call.tell(&mut lines.text)?;
        write!(lines.text, " ")?;
        tell_reply(&mut lines.text, &reply)?;
        writeln!(lines.text)?;
    }
    Ok(match reply {
        Reply::Hit { unique, .. } => unique,
        _ => 0,
    })
}

/// Reads all keys by the caller.
fn last<R: Wait>(
    rt: &R,
    alloc: Global,
    shared: &Shared<Fnv>,
    caller: Caller,
    script: Script,
) -> Result<String, AllocError>
    requires { caller.table ≡ shared.now.table }
{
    let mut caller = caller;
    let after = u64::from(script.calls) + 4;
    let mut lines = Lines {
        text: format!(in alloc; "0 {after} joined 2\n")?,
        caller: 0,
        call: after + 1,
    };
    for key in 0..KEYS {
        let call = Call::get(alloc, key);
        if let Err(fault) = told_call(rt, alloc, shared, &mut caller, &call, &mut lines) {
            return Err(fault);
        }
    }
    Ok(lines.text)
}
