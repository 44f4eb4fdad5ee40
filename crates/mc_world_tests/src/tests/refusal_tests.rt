//! Rows of the protocol, for which tests/refusals refuses each allocation in turn.
//!
//! A command that is refused memory is sent again by a new session, unless its step was decided:
//! then it was taken, and has no text. So each row ends as with ample memory, and its last read
//! shows whether anything was lost or done twice.

ghost use Rattle.std.specs.Prelude.{◌≤◌};

use crate::tests::texts::{around, get_of, hit_of, large_set, set_of};
use crate::worlds::{retried_world, twice};
use mc_hop::{Constant, Fnv, KeyHash};
use mc_protocol::Bytes;
use mc_world::{Event, Refused, World};
use std::alloc::{AllocError, Global};
use std::process::Abort;
use std::test::Fail;

/// The reply to a step without a chunk.
const NO_CHUNK: &[u8] = b"SERVER_ERROR out of memory storing object\r\n";

/// A command, and its reply.
type Row<'a> = (&'a [u8], &'a [u8]);

/// A world, and the session that sends commands.
#[derive(Drop)]
struct Asker<'a, R: Abort, K: KeyHash + Drop> {
    rt: &'a R,
    alloc: Global,
    world: World<K>,
    session: u32,
}

impl<'a, R: Abort, K: KeyHash + Drop> Asker<'a, R, K> {
    /// Sends commands to that world by its first session.
    fn of(rt: &'a R, alloc: Global, world: World<K>) -> Asker<'a, R, K> {
        let mut asker = Asker {
            rt,
            alloc,
            world,
            session: 0,
        };
        asker.open_next();
        asker
    }

    /// Opens the next session, and sends commands by it. It tries again if memory is refused.
    fn open_next(&mut self) {
        let opened = self.world.session_count();
        if self.world.run(self.alloc, &[Event::Open]).is_err() {
            self.open_again(opened);
        }
        self.session = self.session.wrapping_add(1);
    }

    /// Opens a session that was refused once. As many as before are there.
    fn open_again(&mut self, opened: usize) {
        let has = self.world.session_count();
        assert!(self.rt; has == opened, "a refused session is there");
        let again = self.world.run(self.alloc, &[Event::Open]);
        assert!(self.rt; again.is_ok(), "a second refusal");
    }

    /// Sends a command, and takes its turn.
    fn send(&mut self, command: &[u8]) -> Result<(), Refused> {
        let piece = Event::Piece(self.session, Bytes::of(command));
        let turn = Event::Turn(self.session);
        self.world.run(self.alloc, &[piece, turn])
    }

    /// Checks the session's output, which is then written.
    fn is_told(&mut self, text: &[u8]) {
        let out = self.world.out(self.session);
        assert!(self.rt; out == text, "another text");
        let written = out.len();
        self.world.sent(self.session, written);
    }

    /// Checks that the session was refused, and is closed without a text. Then opens another one.
    fn is_refused(&mut self, refused: &Refused) {
        let session = self.session;
        assert!(self.rt; refused.session == Some(session), "another session");
        assert!(self.rt; self.world.is_closed(session), "it is open");
        assert!(self.rt;
            self.world.out(session).is_empty(),
            "a refused turn has a text"
        );
        self.open_next();
    }

    /// Sends a command, and returns whether its step was taken.
    fn stands(&mut self, command: &[u8], text: &[u8]) -> bool {
        match self.send(command) {
            Ok(()) => {
                self.is_told(text);
                true
            }
            Err(refused) => {
                self.is_refused(&refused);
                refused.decided
            }
        }
    }

    /// Sends a command until it has this reply, or its step is taken without a text.
    fn answers(&mut self, command: &[u8], text: &[u8]) {
        if !self.stands(command, text) {
            let stands = self.stands(command, text);
            assert!(self.rt; stands, "a second refusal");
        }
    }

    /// Sends a command that reads, until it has the expected reply.
    fn reads(&mut self, read: Row<'_>) {
        let session = self.session;
        let (command, text) = read;
        self.answers(command, text);
        if self.session != session {
            self.answers(command, text);
        }
    }

    /// Sends commands in order, and then one that reads, until it has the expected reply.
    fn rows(&mut self, rows: &[Row<'_>], read: Row<'_>) {
        for (command, text) in rows {
            self.answers(command, text);
        }
        self.reads(read);
    }

    /// Sets the key of a number, and moves entries of its shelf, which takes no memory.
    fn sets_key(&mut self, number: u32) -> Result<(), AllocError> {
        let set = set_of(self.alloc, number)?;
        self.answers(set.as_bytes(), b"STORED\r\n");
        let grown = self.world.run(self.alloc, &[Event::Grow(0)]);
        assert!(self.rt; grown.is_ok(), "growth took memory");
        Ok(())
    }

    /// Finds the key of a number.
    fn finds_key(&mut self, number: u32) -> Result<(), AllocError> {
        let get = get_of(self.alloc, number)?;
        let hit = hit_of(self.alloc, number)?;
        self.reads((get.as_bytes(), hit.as_bytes()));
        Ok(())
    }
}

/// Checks the replies to these in a new world with this many pages, and then to one that reads.
fn are_answered(
    rt: &impl Abort,
    alloc: Global,
    pages: u32,
    rows: &[Row<'_>],
    read: Row<'_>,
) -> Result<(), Fail>
    requires { (1 ≤ pages) × (pages ≤ 65536) }
{
    let mut asker = Asker::of(rt, alloc, retried_world(alloc, Fnv, pages)?);
    asker.rows(rows, read);
    Ok(())
}

#[test]
fn a_cas_stores_once(rt: HostRuntime) -> Result<(), Fail> {
    static ROWS: [Row<'static>; 4] = [
        (b"set a 0 0 1\r\nx\r\n", b"STORED\r\n"),
        (b"gets a\r\n", b"VALUE a 0 1 1\r\nx\r\nEND\r\n"),
        (b"cas a 0 0 1 1\r\ny\r\n", b"STORED\r\n"),
        (b"cas a 0 0 1 1\r\nz\r\n", b"EXISTS\r\n"),
    ];
    const READ: Row<'static> = (b"gets a\r\n", b"VALUE a 0 1 2\r\ny\r\nEND\r\n");
    are_answered(&rt, rt.alloc(), 64, &ROWS, READ)
}

#[test]
fn appended_and_prepended_blocks_keep_flags(rt: HostRuntime) -> Result<(), Fail> {
    static ROWS: [Row<'static>; 4] = [
        (b"append a 9 9 1\r\nx\r\n", b"NOT_STORED\r\n"),
        (b"set a 7 0 1\r\nb\r\n", b"STORED\r\n"),
        (b"append a 9 0 1\r\nc\r\n", b"STORED\r\n"),
        (b"prepend a 9 0 1\r\na\r\n", b"STORED\r\n"),
    ];
    const READ: Row<'static> = (b"gets a\r\n", b"VALUE a 7 3 3\r\nabc\r\nEND\r\n");
    are_answered(&rt, rt.alloc(), 64, &ROWS, READ)
}

#[test]
fn a_number_that_leaves_its_class_finds_no_chunk(rt: HostRuntime) -> Result<(), Fail> {
    static ROWS: [Row<'static>; 2] = [
        (
            b"set a_key_of_as_many_bytes_as_leave_room_for_one_01 0 0 1\r\n9\r\n",
            b"STORED\r\n",
        ),
        (
            b"incr a_key_of_as_many_bytes_as_leave_room_for_one_01 1\r\n",
            NO_CHUNK,
        ),
    ];
    const READ: Row<'static> = (
        b"get a_key_of_as_many_bytes_as_leave_room_for_one_01\r\n",
        b"VALUE a_key_of_as_many_bytes_as_leave_room_for_one_01 0 1\r\n9\r\nEND\r\n",
    );
    are_answered(&rt, rt.alloc(), 1, &ROWS, READ)
}

/// Checks that a world of one page stores the first of these items.
///
/// Then there is no room for a small item nor for the second, and a get finds the first.
fn first_is_held<'a>(
    rt: &impl Abort,
    alloc: Global,
    first: &'a [u8],
    second: &'a [u8],
    hit: &'a [u8],
) -> Result<(), Fail> {
    let rows: [Row<'a>; 3] = [
        (first, b"STORED\r\n"),
        (b"set s 0 0 1\r\ny\r\n", NO_CHUNK),
        (second, NO_CHUNK),
    ];
    are_answered(rt, alloc, 1, &rows, (b"get b\r\n", hit))
}

#[test]
fn one_page_holds_one_large_item(rt: HostRuntime) -> Result<(), Fail> {
    let alloc = rt.alloc();
    let first = twice!(large_set(alloc, 'b', 0, b'x'))?;
    let second = twice!(large_set(alloc, 'b', 0, b'z'))?;
    let value = b"VALUE b 0 600000\r\n";
    let hit = twice!(around(alloc, value, (b'x', 600000), b"\r\nEND\r\n"))?;
    first_is_held(&rt, alloc, &first, &second, &hit)
}

fn sets_forty_keys<R: Abort>(asker: &mut Asker<'_, R, Constant>) -> Result<(), AllocError> {
    for number in 1..41 {
        asker.sets_key(number)?;
    }
    Ok(())
}

fn finds_forty_keys<R: Abort>(asker: &mut Asker<'_, R, Constant>) -> Result<(), AllocError> {
    for number in 1..41 {
        asker.finds_key(number)?;
    }
    Ok(())
}

/// Sets forty keys, and then finds them.
fn forty_keys_are_apart<R: Abort>(asker: &mut Asker<'_, R, Constant>) -> Result<(), Fail> {
    sets_forty_keys(asker)?;
    finds_forty_keys(asker)?;
    Ok(())
}

#[test]
fn keys_of_one_hash_are_apart_while_tables_grow(rt: HostRuntime) -> Result<(), Fail> {
    let world = retried_world(rt.alloc(), Constant(0), 64)?;
    forty_keys_are_apart(&mut Asker::of(&rt, rt.alloc(), world))
}
