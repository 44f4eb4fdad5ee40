//! The texts of replies and faults.

use crate::checks::are_bytes;
use mc_protocol::{Block, Bytes, Command, Keys, LineFault, Lone, Reply, Verb, steps_of};
use mc_reply::{write, write_fault, write_hit, write_plain, write_spent, write_too_long};
use std::alloc::{AllocError, Global};
use std::process::Abort;
use std::test::Fail;

/// The content of the vector before each call.
const BEFORE: &[u8] = b"END\r\n";

/// The reply to step `at` of a retrieval, and its text.
#[derive(Clone, Copy, Drop)]
struct Found {
    with_unique: bool,
    at: usize,
    flags: u32,
    unique: u64,
    block: &'static [u8],
    text: &'static str,
}

/// One call of mc_reply.
#[derive(Drop)]
enum Call<'a> {
    Step(&'a Command<'a>, usize, &'a Reply),
    Hit(&'a Command<'a>, usize, u32, u64, &'a [Bytes<'a>]),
    Fault(LineFault),
    Plain(&'a Command<'a>),
    TooLong,
    Spent(&'a Command<'a>),
}

/// Calls once. A step that its command doesn't have is an error, as a refusal is.
fn call_once(call: &Call<'_>, out: &mut Vec<u8>) -> Result<(), AllocError> {
    match call {
        Call::Step(command, at, reply) => {
            if *at >= steps_of(command) {
                return Err(AllocError);
            }
            write(command, *at, reply, out)
        }
        Call::Hit(command, at, flags, unique, parts) => {
            if *at >= steps_of(command) {
                return Err(AllocError);
            }
            write_hit(command, *at, *flags, *unique, parts, out)
        }
        Call::Fault(fault) => write_fault(fault, out),
        Call::Plain(command) => write_plain(command, out),
        Call::TooLong => write_too_long(out),
        Call::Spent(command) => write_spent(command, out),
    }
}

/// Returns a vector of these bytes without room for more. It allocates twice if memory is refused.
fn filled(alloc: Global, bytes: &[u8]) -> Result<Vec<u8>, AllocError> {
    match Vec::from_slice(alloc, bytes) {
        Ok(vector) => Ok(vector),
        Err(_) => Vec::from_slice(alloc, bytes),
    }
}

/// Checks that the call appends this text.
///
/// After an error the vector must be unchanged, and the call must succeed the second time.
fn expect(rt: &impl Abort, alloc: Global, call: &Call<'_>, want: &str) -> Result<(), Fail> {
    let mut out = filled(alloc, BEFORE)?;
    Ok(appends(rt, call, &mut out, want)?)
}

/// The same for a vector of `BEFORE` without room for more.
fn appends(
    rt: &impl Abort,
    call: &Call<'_>,
    out: &mut Vec<u8>,
    want: &str,
) -> Result<(), AllocError> {
    if call_once(call, out).is_err() {
        are_bytes(rt, out.as_slice(), BEFORE);
        call_once(call, out)?;
    }
    stands_behind(rt, out.as_slice(), want.as_bytes());
    Ok(())
}

/// Checks that this text stands behind `BEFORE`.
fn stands_behind(rt: &impl Abort, out: &[u8], text: &[u8]) {
    match out.strip_prefix(BEFORE) {
        Some(behind) => are_bytes(rt, behind, text),
        None => are_bytes(rt, out, BEFORE),
    }
}

fn store(quiet: bool) -> Command<'static> {
    Command::Store {
        verb: Verb::Set,
        key: Bytes::of(b"a"),
        flags: 5,
        exptime: 0,
        block: Bytes::of(b"abc"),
        quiet,
    }
}

/// Checks that a storage command is answered this reply by its text.
fn is_told(rt: &impl Abort, alloc: Global, reply: &Reply, want: &str) -> Result<(), Fail> {
    expect(rt, alloc, &Call::Step(&store(false), 0, reply), want)
}

/// Returns a reply without a block, and its text.
fn reply_of(at: u32) -> (Reply, &'static str) {
    match at {
        0 => (Reply::Stored, "STORED\r\n"),
        1 => (Reply::NotStored, "NOT_STORED\r\n"),
        2 => (Reply::Exists, "EXISTS\r\n"),
        3 => (Reply::NotFound, "NOT_FOUND\r\n"),
        4 => (Reply::Touched, "TOUCHED\r\n"),
        5 => (Reply::Deleted, "DELETED\r\n"),
        _ => later_reply_of(at),
    }
}

/// The same for those from the seventh on.
fn later_reply_of(at: u32) -> (Reply, &'static str) {
    match at {
        6 => (Reply::Number(0), "0\r\n"),
        7 => (Reply::Number(u64::MAX), "18446744073709551615\r\n"),
        8 => (Reply::NotNumeric, NOT_NUMERIC),
        9 => (
            Reply::TooLarge,
            "SERVER_ERROR object too large for cache\r\n",
        ),
        10 => (
            Reply::NoChunk,
            "SERVER_ERROR out of memory storing object\r\n",
        ),
        _ => (Reply::Flushed, "OK\r\n"),
    }
}

const NOT_NUMERIC: &str = "CLIENT_ERROR cannot increment or decrement non-numeric value\r\n";

#[test]
fn a_reply_is_a_line(rt: HostRuntime) -> Result<(), Fail> {
    for at in 0..12 {
        let (reply, want) = reply_of(at);
        is_told(&rt, rt.alloc(), &reply, want)?;
    }
    Ok(())
}

/// Returns a command that can end in `noreply`, with it. There are 6.
fn quiet_command(at: u32) -> Command<'static> {
    let key = Bytes::of(b"a");
    let quiet = true;
    match at {
        0 => store(quiet),
        1 => Command::Cas {
            key,
            flags: 5,
            exptime: 0,
            block: Bytes::of(b"abc"),
            unique: 1,
            quiet,
        },
        2 => Command::Touch {
            key,
            exptime: 0,
            quiet,
        },
        3 => Command::Delete { key, quiet },
        4 => Command::Count {
            key,
            up: true,
            by: 1,
            quiet,
        },
        _ => Command::FlushAll { delay: 0, quiet },
    }
}

/// Checks that a quiet command is answered nothing.
fn quiet_is_told(rt: &impl Abort, alloc: Global, command: &Command<'_>) -> Result<(), Fail> {
    expect(rt, alloc, &Call::Step(command, 0, &Reply::NoChunk), "")
}

#[test]
fn a_quiet_command_is_answered_nothing(rt: HostRuntime) -> Result<(), Fail> {
    for at in 0..6 {
        quiet_is_told(&rt, rt.alloc(), &quiet_command(at))?;
    }
    Ok(())
}

/// Checks that a command is told of spent numbers by this text.
fn spent_is_told(
    rt: &impl Abort,
    alloc: Global,
    command: &Command<'_>,
    want: &str,
) -> Result<(), Fail> {
    expect(rt, alloc, &Call::Spent(command), want)
}

#[test]
fn a_quiet_command_is_told_of_no_spent_numbers(rt: HostRuntime) -> Result<(), Fail> {
    for at in 0..6 {
        spent_is_told(&rt, rt.alloc(), &quiet_command(at), "")?;
    }
    Ok(())
}

/// Returns a retrieval of two keys by get or gets, or by gat or gats.
fn retrieval(with_unique: bool, touches: bool) -> Command<'static> {
    let keys = Keys::of(b" a bc");
    if touches {
        return Command::GetTouch {
            exptime: 10,
            keys,
            with_unique,
        };
    }
    Command::Get { keys, with_unique }
}

/// Hits of a retrieval.
static FOUND: [Found; 4] = [
    Found {
        with_unique: false,
        at: 0,
        flags: 4294967295,
        unique: 18446744073709551614,
        block: b"x\r\ny",
        text: "VALUE a 4294967295 4\r\nx\r\ny\r\n",
    },
    Found {
        with_unique: false,
        at: 1,
        flags: 4294967295,
        unique: 18446744073709551614,
        block: b"x\r\ny",
        text: "VALUE bc 4294967295 4\r\nx\r\ny\r\nEND\r\n",
    },
    Found {
        with_unique: true,
        at: 0,
        flags: 4294967295,
        unique: 18446744073709551614,
        block: b"x\r\ny",
        text: "VALUE a 4294967295 4 18446744073709551614\r\nx\r\ny\r\n",
    },
    Found {
        with_unique: true,
        at: 1,
        flags: 0,
        unique: 1,
        block: b"",
        text: "VALUE bc 0 0 1\r\n\r\nEND\r\n",
    },
];

fn found_in_parts(
    rt: &impl Abort,
    alloc: Global,
    command: &Command<'_>,
    found: &Found,
    parts: &[Bytes<'_>],
) -> Result<(), Fail> {
    let call = Call::Hit(command, found.at, found.flags, found.unique, parts);
    expect(rt, alloc, &call, found.text)
}

/// Checks that a hit has the same text from a reply and from its block in one part or more.
fn found_is_told(rt: &impl Abort, alloc: Global, found: &Found) -> Result<(), Fail> {
    let reply = Reply::Hit {
        flags: found.flags,
        unique: found.unique,
        block: Block::of(filled(alloc, found.block)?),
    };
    is_one_text(rt, alloc, found, &reply)
}

/// The same for get or gets, and for gat or gats.
fn is_one_text(rt: &impl Abort, alloc: Global, found: &Found, reply: &Reply) -> Result<(), Fail> {
    for touches in [false, true] {
        let command = retrieval(found.with_unique, touches);
        found_in_reply(rt, alloc, &command, found, reply)?;
        found_in_one_part(rt, alloc, &command, found)?;
        found_in_three_parts(rt, alloc, &command, found)?;
    }
    Ok(())
}

fn found_in_reply(
    rt: &impl Abort,
    alloc: Global,
    command: &Command<'_>,
    found: &Found,
    reply: &Reply,
) -> Result<(), Fail> {
    let call = Call::Step(command, found.at, reply);
    expect(rt, alloc, &call, found.text)
}

fn found_in_one_part(
    rt: &impl Abort,
    alloc: Global,
    command: &Command<'_>,
    found: &Found,
) -> Result<(), Fail> {
    found_in_parts(rt, alloc, command, found, &[Bytes::of(found.block)])
}

/// The part in the middle is empty.
fn found_in_three_parts(
    rt: &impl Abort,
    alloc: Global,
    command: &Command<'_>,
    found: &Found,
) -> Result<(), Fail> {
    let (front, back) = found.block.split_at(found.block.len() / 2);
    let parts = [Bytes::of(front), Bytes::of(b"".as_slice()), Bytes::of(back)];
    found_in_parts(rt, alloc, command, found, &parts)
}

#[test]
fn a_retrieval_tells_what_it_found_and_ends(rt: HostRuntime) -> Result<(), Fail> {
    for found in &FOUND {
        found_is_told(&rt, rt.alloc(), found)?;
    }
    Ok(())
}

/// Checks the text of a miss in step `at` of a retrieval.
fn miss_is_told(
    rt: &impl Abort,
    alloc: Global,
    command: &Command<'_>,
    at: usize,
    want: &str,
) -> Result<(), Fail> {
    expect(rt, alloc, &Call::Step(command, at, &Reply::Miss), want)
}

#[test]
fn a_retrieval_tells_nothing_of_a_miss_and_ends(rt: HostRuntime) -> Result<(), Fail> {
    for touches in [false, true] {
        miss_is_told(&rt, rt.alloc(), &retrieval(false, touches), 0, "")?;
        miss_is_told(&rt, rt.alloc(), &retrieval(true, touches), 1, "END\r\n")?;
    }
    Ok(())
}

/// Faults and their texts.
static FAULTS: [(LineFault, &str); 5] = [
    (LineFault::Unknown, "ERROR\r\n"),
    (
        LineFault::BadFormat,
        "CLIENT_ERROR bad command line format\r\n",
    ),
    (
        LineFault::BadDelta,
        "CLIENT_ERROR invalid numeric delta argument\r\n",
    ),
    (
        LineFault::TooLarge { passed: 9 },
        "SERVER_ERROR object too large for cache\r\n",
    ),
    (LineFault::BadChunk, "CLIENT_ERROR bad data chunk\r\n"),
];

#[test]
fn faults_have_their_texts(rt: HostRuntime) -> Result<(), Fail> {
    for (fault, want) in &FAULTS {
        expect(&rt, rt.alloc(), &Call::Fault(*fault), want)?;
    }
    expect(
        &rt,
        rt.alloc(),
        &Call::TooLong,
        "CLIENT_ERROR line too long\r\n",
    )
}

/// Commands that are only a name, and their texts.
static LONE: [(Lone, &str); 2] = [(Lone::Version, "VERSION 1.6.0\r\n"), (Lone::Quit, "")];

#[test]
fn plain_commands_have_their_texts(rt: HostRuntime) -> Result<(), Fail> {
    for (lone, want) in &LONE {
        expect(&rt, rt.alloc(), &Call::Plain(&Command::Lone(*lone)), want)?;
    }
    Ok(())
}

#[test]
fn spent_numbers_have_their_text(rt: HostRuntime) -> Result<(), Fail> {
    let want = "SERVER_ERROR out of unique numbers\r\n";
    spent_is_told(&rt, rt.alloc(), &store(false), want)
}
