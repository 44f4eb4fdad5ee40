//! Replies that are delivered to an `Answer`. If memory is refused the step is taken again.

ghost use Rattle.std.specs.Prelude.{◌≡◌, refl};

use crate::stores::{LARGE, SOME, shared_store};
use mc_hop::Fnv;
use mc_protocol::{Answer, Block, Bytes, KeyStep, Reply, StepFault, Steps, Unanswered, Verb};
use mc_shared::{Asking, NoGate};
use mc_testing::{Ask, Row, Want, filled_block, first_unlike, set, step_of};
use mc_time::Moment;
use std::alloc::{AllocError, Global};
use std::marker::Model;
use std::sync::Wait;
use std::test::*;

/// Keeps the reply that is delivered, with a copy of a hit's block.
#[derive(Drop)]
struct Keeper {
    alloc: Global,
    kept: Option<Reply>,
}

impl Answer for Keeper {
    ghost told = { λ old reply new. Unit {0} };

    fn hit(&mut self, flags: u32, unique: u64, parts: &[Bytes<'_>]) -> Result<(), AllocError> {
        let block = Block::of(joined(self.alloc, parts)?);
        self.kept = Some(Reply::Hit {
            flags,
            unique,
            block,
        });
        Ok(())
    }

    fn reply(&mut self, reply: &Reply) -> Result<(), AllocError> {
        self.kept = without_block(reply);
        Ok(())
    }
}

/// Copies parts into one block.
fn joined(alloc: Global, parts: &[Bytes<'_>]) -> Result<Vec<u8>, AllocError> {
    let mut block = Vec::new(alloc);
    for part in parts {
        block.extend_from_slice(part.as_slice())?;
    }
    Ok(block)
}

/// Copies a reply that has no block.
fn without_block(reply: &Reply) -> Option<Reply> {
    match reply {
        Reply::Stored => Some(Reply::Stored),
        Reply::NotStored => Some(Reply::NotStored),
        Reply::Exists => Some(Reply::Exists),
        Reply::NotFound => Some(Reply::NotFound),
        Reply::Miss => Some(Reply::Miss),
        Reply::Hit { .. } => None,
        Reply::Touched => Some(Reply::Touched),
        Reply::Deleted => Some(Reply::Deleted),
        Reply::Number(number) => Some(Reply::Number(*number)),
        Reply::NotNumeric => Some(Reply::NotNumeric),
        Reply::TooLarge => Some(Reply::TooLarge),
        Reply::NoChunk => Some(Reply::NoChunk),
        Reply::Flushed => Some(Reply::Flushed),
    }
}

/// Refuses every reply.
#[derive(Drop)]
struct Deaf;

impl Answer for Deaf {
    ghost told = { λ old reply new. Unit {0} };

    fn hit(&mut self, _flags: u32, _unique: u64, _parts: &[Bytes<'_>]) -> Result<(), AllocError> {
        Err(AllocError)
    }

    fn reply(&mut self, _reply: &Reply) -> Result<(), AllocError> {
        Err(AllocError)
    }
}

/// A caller that keeps its replies. Contracts see which store it calls.
#[derive(Drop)]
struct Heard<'a, R: Wait> {
    asking: Asking<'a, R, Fnv, NoGate>,
}

impl<'a, R: Wait> Model for Heard<'a, R> {
    ghost use Rattle.atomic_table.specs.Seated.{TableId, table_id_coded};

    ghost Value = { TableId };

    ghost coded = { table_id_coded };

    ghost view = { λ h. h.asking.table };
}

impl<'a, R: Wait> Steps for Heard<'a, R> {
    ghost took = { λ old step now reply new. new ≡ old };

    ghost spent = { λ old step now. old ≡ old };

    ghost same = { λ old new. new ≡ old };

    ghost holds_itself = { λ _. refl };

    fn step(&mut self, alloc: Global, step: &KeyStep<'_>, now: Moment) -> Result<Reply, StepFault> {
        let mut keeper = Keeper { alloc, kept: None };
        match self.asking.step_telling(alloc, step, now, &mut keeper) {
            Ok(()) => Ok(keeper.kept.unwrap_or(Reply::Exists)),
            Err(Unanswered::NumbersSpent) => Err(StepFault::NumbersSpent),
            Err(Unanswered::NoMemory | Unanswered::Untold) => Err(StepFault::NoMemory),
        }
    }
}

/// Returns the first unexpected reply with its second, in a store that has `a` and `k`.
fn first_untold<R: Wait>(
    rt: &R,
    alloc: Global,
    rows: &[Row<'_>],
) -> Result<Option<(u64, &'static str)>, StepFault> {
    let (shared, caller) = shared_store(alloc, SOME)?;
    let mut heard = Heard {
        asking: Asking::new(rt, &shared, caller, &NoGate),
    };
    first_unlike(&mut heard, alloc, rows)
}

static REPLIES: [Row<'static>; 12] = [
    (1000, b"a", Ask::Get, Want::Hit(1, b"x")),
    (1000, b"zz", Ask::Get, Want::Told("miss")),
    (1000, b"zz", Ask::Gat(5), Want::Told("miss")),
    (1000, b"a", Ask::Gat(10), Want::Hit(1, b"x")),
    (1009, b"a", Ask::Get, Want::Hit(1, b"x")),
    (1010, b"a", Ask::Get, Want::Told("miss")),
    (1010, b"a", Ask::Gat(10), Want::Told("miss")),
    (
        1010,
        b"k",
        Ask::Store(Verb::Set, 0, b"7"),
        Want::Told("stored"),
    ),
    (1010, b"k", Ask::Incr(4), Want::Number(11)),
    (1010, b"k", Ask::Get, Want::Hit(4, b"11")),
    (1010, b"", Ask::Flush(0), Want::Told("flushed")),
    (1010, b"k", Ask::Get, Want::Told("miss")),
];

#[test]
fn replies_are_told_as_they_are_given(rt: HostRuntime) -> Result<(), Fail> {
    assert_eq!(rt; first_untold(&rt, rt.alloc(), &REPLIES)?, None);
    Ok(())
}

/// Returns the name of a step's result with an `Answer` that refuses it.
fn unheard<R: Wait>(
    asking: &mut Asking<'_, R, Fnv, NoGate>,
    alloc: Global,
    key: &[u8],
    ask: Ask<'_>,
) -> &'static str {
    if key.len() > 250 {
        return "too long a key";
    }
    let step = step_of(key, ask);
    let now = Moment::from_seconds_at_most(1000);
    match asking.step_telling(alloc, &step, now, &mut Deaf) {
        Ok(()) => "told",
        Err(Unanswered::NoMemory) => "not taken",
        Err(Unanswered::NumbersSpent) => "numbers spent",
        Err(Unanswered::Untold) => "taken",
    }
}

/// Returns the names of a gat of `k` and of `zz`, and whether a set of `a` is taken.
///
/// The set is tried again if memory is refused.
fn unheard_each<R: Wait>(
    asking: &mut Asking<'_, R, Fnv, NoGate>,
    alloc: Global,
) -> (&'static str, &'static str, bool) {
    let hit = unheard(asking, alloc, b"k", Ask::Gat(10));
    let miss = unheard(asking, alloc, b"zz", Ask::Gat(10));
    let set = Ask::Store(Verb::Set, 0, b"z");
    let first = unheard(asking, alloc, b"a", set);
    let is_taken = first == "taken" || unheard(asking, alloc, b"a", set) == "taken";
    (hit, miss, is_taken)
}

/// What is seen of them, and the first unexpected reply behind them with its second.
type Unheard = (
    (&'static str, &'static str, bool),
    Option<(u64, &'static str)>,
);

/// Returns them for a store that has `a` and `k`.
fn seen_by<R: Wait>(
    asking: &mut Asking<'_, R, Fnv, NoGate>,
    alloc: Global,
    rows: &[Row<'_>],
) -> Result<Unheard, StepFault> {
    let told = unheard_each(asking, alloc);
    Ok((told, first_unlike(asking, alloc, rows)?))
}

/// Returns the same for a new store.
fn seen_unheard<R: Wait>(rt: &R, alloc: Global, rows: &[Row<'_>]) -> Result<Unheard, StepFault> {
    let (shared, caller) = shared_store(alloc, SOME)?;
    let mut asking = Asking::new(rt, &shared, caller, &NoGate);
    seen_by(&mut asking, alloc, rows)
}

/// Reads behind replies that are refused.
static UNHEARD: [Row<'static>; 2] = [
    (1010, b"k", Ask::Get, Want::Hit(2, b"y")),
    (1010, b"a", Ask::Get, Want::Hit(3, b"z")),
];

/// A refused hit isn't taken; its shelf is free and its item's expiry unchanged.
///
/// Any other step is taken.
#[test]
fn a_hit_that_is_not_heard_is_not_taken(rt: HostRuntime) -> Result<(), Fail> {
    let seen = seen_unheard(&rt, rt.alloc(), &UNHEARD)?;
    assert_eq!(rt; seen, (("not taken", "taken", true), None));
    Ok(())
}

/// Counts the parts of a hit that have bytes, and the bytes in them. It takes no memory.
#[derive(Drop)]
struct Counter {
    parts: usize,
    bytes: usize,
}

impl Answer for Counter {
    ghost told = { λ old reply new. Unit {0} };

    fn hit(&mut self, _flags: u32, _unique: u64, parts: &[Bytes<'_>]) -> Result<(), AllocError> {
        for part in parts {
            let len = part.as_slice().len();
            if len > 0 {
                self.parts = self.parts.saturating_add(1);
                self.bytes = self.bytes.saturating_add(len);
            }
        }
        Ok(())
    }

    fn reply(&mut self, _reply: &Reply) -> Result<(), AllocError> {
        Err(AllocError)
    }
}

/// Returns a block of three pages, with a key of one byte.
///
/// It has `y` on both sides of the end of the first page, and `z` at the end of the second.
fn large_block(alloc: Global) -> Result<Vec<u8>, AllocError> {
    let mut block = filled_block(alloc, 2_500_000)?;
    for (at, byte) in block.iter_mut().enumerate() {
        if at == 1_048_526 || at == 1_048_527 {
            *byte = b'y';
        } else if at == 2_097_102 || at == 2_097_103 {
            *byte = b'z';
        }
    }
    Ok(block)
}

/// Returns how many parts of the item of `a` have bytes, and how many bytes they are.
///
/// The item is delivered to a counter. Returns `None` if that fails.
fn parts_of<R: Wait>(heard: &mut Heard<'_, R>, alloc: Global) -> Option<(usize, usize)> {
    let mut counter = Counter { parts: 0, bytes: 0 };
    let step = step_of(b"a", Ask::Gat(20));
    let now = Moment::from_seconds_at_most(1009);
    match heard.asking.step_telling(alloc, &step, now, &mut counter) {
        Ok(()) => Some((counter.parts, counter.bytes)),
        Err(_) => None,
    }
}

/// The first unexpected reply with its second, and the parts of a large item.
type SeenLarge = (Option<(u64, &'static str)>, Option<(usize, usize)>);

/// Sets `a` to a block, and reads it.
///
/// Returns the first unexpected reply with its second, and the parts of the item.
fn seen_of_large<R: Wait>(
    heard: &mut Heard<'_, R>,
    alloc: Global,
    block: &[u8],
) -> Result<SeenLarge, StepFault> {
    let rows: &[Row<'_>] = &[
        set(1000, b"a", 0, block, "stored"),
        (1000, b"a", Ask::Get, Want::Hit(3, block)),
        (1000, b"a", Ask::Gat(10), Want::Hit(3, block)),
    ];
    let unlike = first_unlike(heard, alloc, rows)?;
    Ok((unlike, parts_of(heard, alloc)))
}

/// Returns them for a new store.
fn seen_in_new_store<R: Wait>(rt: &R, alloc: Global, block: &[u8]) -> Result<SeenLarge, StepFault> {
    let (shared, caller) = shared_store(alloc, LARGE)?;
    let mut heard = Heard {
        asking: Asking::new(rt, &shared, caller, &NoGate),
    };
    seen_of_large(&mut heard, alloc, block)
}

/// A block in three pages is delivered whole and needs no memory.
///
/// It succeeds whatever allocation is refused.
#[test]
fn an_item_of_several_pages_is_told_where_it_lies(rt: HostRuntime) -> Result<(), Fail> {
    let block = large_block(rt.alloc())?;
    let seen = seen_in_new_store(&rt, rt.alloc(), block.as_slice())?;
    assert_eq!(rt; seen, (None, Some((3, 2_500_000))));
    Ok(())
}
