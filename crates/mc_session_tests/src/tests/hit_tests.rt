//! Sessions over a store that delivers a hit from where its block lies.

ghost use Rattle.std.specs.Prelude.{◌≡◌, OnOk, OnErr};
ghost use Rattle.mc_protocol.specs.declared.reply.Reply.{Reply as Told};

use crate::checks::are_bytes_at;
use crate::delivering::{Delivering, Delivers};
use crate::tests::session_tests::RUNS;
use mc_command::PlainStore;
use mc_protocol::{Answer, Bytes, KeyStep, Reply, StepFault, Steps};
use mc_session::{Session, Turn, TurnFault};
use mc_time::Moment;
use std::alloc::{AllocError, Global};
use std::process::Abort;
use std::test::Fail;

/// The greatest charge: a block of 51 bytes under a key of one byte.
const GREATEST: u64 = 100;

/// More turns than any test takes.
const TURNS: u64 = 1000;

/// How hits are delivered.
#[derive(Clone, Copy, PartialEq)]
enum Telling {
    /// With a block in one part.
    Whole,
    /// With a block in three parts; the middle one is empty.
    InParts,
    /// With a block of two bytes, two bytes and the rest, and once more if memory is refused.
    Again,
    /// Not at all: memory for each is refused.
    Refused,
}

/// A plain store that delivers a hit from where its block lies.
type Lending = Delivering<Hits>;

/// The items, and how hits are delivered.
#[derive(Drop)]
struct Hits {
    store: PlainStore,
    telling: Telling,
}

impl Delivers for Hits {
    fn take(&mut self, alloc: Global, step: &KeyStep<'_>, now: Moment) -> Result<Reply, StepFault> {
        self.store.step(alloc, step, now)
    }

    fn deliver<A: Answer>(&self, reply: &Reply, answer: &mut A) -> Result<(), AllocError> {
        tell(reply, self.telling, answer)
    }
}

/// Delivers a reply; a hit from where its block lies, unless hits are refused.
fn tell<A: Answer>(reply: &Reply, telling: Telling, answer: &mut A) -> Result<(), AllocError>
    ensures told { OnOk result (A.told answer.old reply.now answer.new) }
    ensures err { OnErr result (answer.new ≡ answer.old) }
{
    match reply {
        Reply::Hit {
            flags,
            unique,
            block,
        } => tell_hit(*flags, *unique, block.bytes(), telling, answer),
        _ => answer.reply(reply),
    }
}

/// Delivers a hit, with its block cut in three for `InParts`.
fn tell_hit<A: Answer>(
    flags: u32,
    unique: u64,
    block: &[u8],
    telling: Telling,
    answer: &mut A,
) -> Result<(), AllocError>
    ensures told { OnOk result (A.told answer.old (Told.Hit flags unique block.now) answer.new) }
    ensures err { OnErr result (answer.new ≡ answer.old) }
{
    match telling {
        Telling::Refused => Err(AllocError),
        Telling::Whole => answer.hit(flags, unique, &[Bytes::of(block)]),
        Telling::InParts => {
            let (front, back) = block.split_at(block.len() / 2);
            let parts = [Bytes::of(front), Bytes::of(b"".as_slice()), Bytes::of(back)];
            answer.hit(flags, unique, &parts)
        }
        Telling::Again => {
            let (front, rest) = block.split_at(block.len().min(2));
            let (middle, back) = rest.split_at(rest.len().min(2));
            let parts = [Bytes::of(front), Bytes::of(middle), Bytes::of(back)];
            match answer.hit(flags, unique, &parts) {
                Ok(()) => Ok(()),
                Err(_) => answer.hit(flags, unique, &parts),
            }
        }
    }
}

/// Returns a store that delivers hits in this way.
fn store_with(store: PlainStore, telling: Telling) -> Lending {
    Delivering {
        by: Hits { store, telling },
    }
}

/// Returns an empty store.
fn new_store(alloc: Global, telling: Telling) -> Result<Lending, AllocError> {
    let store = PlainStore::new(alloc, 64, 1_048_576)?;
    Ok(store_with(store, telling))
}

/// Takes a turn, and returns whether none was due. A refused turn closes the session.
fn is_over(
    rt: &impl Abort,
    alloc: Global,
    session: &mut Session,
    store: &mut Lending,
) -> Result<bool, TurnFault> {
    let turn = session.turn(alloc, store, Moment::from_seconds(1000));
    assert!(rt; turn.is_ok() || session.is_closed());
    Ok(turn? != Turn::Did)
}

/// Feeds a piece and takes the turns that are due. A refused turn closes the session.
fn take_turns(
    rt: &impl Abort,
    alloc: Global,
    session: &mut Session,
    store: &mut Lending,
    piece: &str,
) -> Result<(), TurnFault> {
    session.feed(piece.as_bytes())?;
    for _ in 0..TURNS {
        if is_over(rt, alloc, session, store)? {
            return Ok(());
        }
    }
    Ok(())
}

/// Checks the output of a session.
fn tells(
    rt: &impl Abort,
    alloc: Global,
    session: &mut Session,
    store: &mut Lending,
    (input, output): (&str, &str),
) -> Result<(), TurnFault> {
    take_turns(rt, alloc, session, store, input)?;
    are_bytes_at(rt, input, session.out(), output.as_bytes());
    Ok(())
}

/// Checks the output of a session of its own.
fn is_told(
    rt: &impl Abort,
    alloc: Global,
    store: &mut Lending,
    input: &str,
    output: &str,
) -> Result<(), TurnFault> {
    let mut session = Session::new(alloc, GREATEST);
    tells(rt, alloc, &mut session, store, (input, output))
}

fn session_is_told(
    rt: &impl Abort,
    alloc: Global,
    telling: Telling,
    input: &str,
    output: &str,
) -> Result<(), TurnFault> {
    let mut store = new_store(alloc, telling)?;
    is_told(rt, alloc, &mut store, input, output)
}

/// Checks that sessions get the same output as from replies, with hits delivered this way.
fn sessions_are_told(rt: &impl Abort, alloc: Global, telling: Telling) -> Result<(), TurnFault> {
    for (input, output) in &RUNS {
        if session_is_told(rt, alloc, telling, input, output).is_err() {
            session_is_told(rt, alloc, telling, input, output)?;
        }
    }
    Ok(())
}

#[test]
fn sessions_are_answered_as_from_replies(rt: HostRuntime) -> Result<(), Fail> {
    Ok(sessions_are_told(&rt, rt.alloc(), Telling::Whole)?)
}

#[test]
fn sessions_are_answered_from_parts_as_from_replies(rt: HostRuntime) -> Result<(), Fail> {
    Ok(sessions_are_told(&rt, rt.alloc(), Telling::InParts)?)
}

/// A set, and a get that finds its item, with its text.
#[derive(Clone, Copy, Drop)]
struct Found {
    set: &'static str,
    get: &'static str,
    text: &'static str,
}

/// An item with a block of two bytes.
static OF_TWO_BYTES: Found = Found {
    set: "set a 5 0 2\r\n12\r\n",
    get: "get a\r\n",
    text: "VALUE a 5 2\r\n12\r\nEND\r\n",
};

/// An item with a block for three parts and the unique number 7.
static OF_FIVE_BYTES: Found = Found {
    set: "set a 5 0 5\r\n12\r\n3\r\n",
    get: "gets a\r\n",
    text: "VALUE a 5 5 7\r\n12\r\n3\r\nEND\r\n",
};

/// Checks a hit that comes after another turn, over a store whose first unique number is 7.
///
/// If memory for its text is refused, the session closes with the text of the other turn, nothing
/// is decided, and the store answers another session as before.
fn hit_is_told(
    rt: &impl Abort,
    alloc: Global,
    telling: Telling,
    found: &Found,
) -> Result<(), TurnFault> {
    let store = PlainStore::starting(alloc, 64, 1_048_576, 7)?;
    hit_is_told_over(
        rt,
        alloc,
        &mut store_with(store, Telling::Whole),
        telling,
        found,
    )
}

/// The same over an empty store.
fn hit_is_told_over(
    rt: &impl Abort,
    alloc: Global,
    store: &mut Lending,
    telling: Telling,
    found: &Found,
) -> Result<(), TurnFault> {
    let mut session = Session::new(alloc, GREATEST);
    hit_is_told_in(rt, alloc, &mut session, store, telling, found)
}

/// The same in a session that was fed nothing.
fn hit_is_told_in(
    rt: &impl Abort,
    alloc: Global,
    session: &mut Session,
    store: &mut Lending,
    telling: Telling,
    found: &Found,
) -> Result<(), TurnFault> {
    is_told(rt, alloc, store, found.set, "STORED\r\n")?;
    take_turns(rt, alloc, session, store, "foo\r\n")?;
    store.by.telling = telling;
    let told = take_turns(rt, alloc, session, store, found.get);
    assert!(rt; has_text_of_hit(session, &told, telling, found));
    store.by.telling = Telling::Whole;
    is_told(rt, alloc, store, found.get, found.text)?;
    if telling == Telling::Refused {
        return Ok(());
    }
    told
}

/// Returns whether a hit left the right output: its text behind that of the turn before.
///
/// If it is refused, that stands alone, and nothing is decided.
fn has_text_of_hit(
    session: &Session,
    told: &Result<(), TurnFault>,
    telling: Telling,
    found: &Found,
) -> bool {
    let text = session.out().strip_prefix(b"ERROR\r\n".as_slice());
    match told {
        Ok(()) => telling != Telling::Refused && text == Some(found.text.as_bytes()),
        Err(fault) => !fault.decided && text == Some(b"".as_slice()),
    }
}

#[test]
fn a_hit_is_told_where_its_block_lies(rt: HostRuntime) -> Result<(), Fail> {
    for telling in [Telling::Whole, Telling::InParts] {
        if hit_is_told(&rt, rt.alloc(), telling, &OF_TWO_BYTES).is_err() {
            hit_is_told(&rt, rt.alloc(), telling, &OF_TWO_BYTES)?;
        }
    }
    Ok(())
}

#[test]
fn a_refused_hit_decides_nothing(rt: HostRuntime) -> Result<(), Fail> {
    if hit_is_told(&rt, rt.alloc(), Telling::Refused, &OF_TWO_BYTES).is_err() {
        hit_is_told(&rt, rt.alloc(), Telling::Refused, &OF_TWO_BYTES)?;
    }
    Ok(())
}

/// If memory for it is refused the output is unchanged, and the hit is delivered again.
#[test]
fn a_hit_in_parts_is_one_text(rt: HostRuntime) -> Result<(), Fail> {
    if hit_is_told(&rt, rt.alloc(), Telling::Again, &OF_FIVE_BYTES).is_err() {
        hit_is_told(&rt, rt.alloc(), Telling::Again, &OF_FIVE_BYTES)?;
    }
    Ok(())
}
