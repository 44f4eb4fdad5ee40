//! The counts of a store's shelves and classes. If memory is refused the call is made again.

ghost use Rattle.std.specs.Prelude.{◌≡◌};

use crate::sole::{Act, FLUSH, Row, SET, SET_FOR_5, SET_FOR_10, Sole};
use crate::stores::{MANY, ONE, SOME};
use mc_hop::Fnv;
use mc_shared::{Caller, Shared};
use mc_shelf::{Settings, ShelfCounts};
use mc_slab::{Account, Class, class_of};
use mc_testing::{Ask, filled_block};
use std::alloc::{AllocError, Global};
use std::sync::Wait;
use std::test::*;

/// Returns the counts of a key's shelf. The caller's past is unchanged.
fn counts_beside<R: Wait>(
    rt: &R,
    shared: &Shared<Fnv>,
    caller: &mut Caller,
    key: &[u8],
) -> ShelfCounts
    requires { caller.old.table ≡ shared.now.table }
    ensures { caller.new ≡ caller.old }
{
    shared.shelf_counts(rt, caller, shared.shelf_of(key))
}

/// Returns the account of a class. The caller's past is unchanged.
fn account_of<R: Wait>(rt: &R, shared: &Shared<Fnv>, caller: &mut Caller, class: Class) -> Account
    requires { caller.old.table ≡ shared.now.table }
    ensures { caller.new ≡ caller.old }
{
    shared.account(rt, caller, class)
}

/// Returns the number of reclaimed items of a key's shelf. The caller's past is unchanged.
fn reclaimed_beside<R: Wait>(rt: &R, shared: &Shared<Fnv>, caller: &mut Caller, key: &[u8]) -> u64
    requires { caller.old.table ≡ shared.now.table }
    ensures { caller.new ≡ caller.old }
{
    shared.reclaimed(rt, caller, shared.shelf_of(key))
}

/// Returns the number of items of a key's shelf, if its table has 64 homes, else 0.
fn items<R: Wait>(sole: &mut Sole<'_, R, Fnv>, key: &[u8]) -> u64 {
    let Sole { rt, shared, caller } = sole;
    let ShelfCounts {
        items,
        homes,
        growing,
        left,
        strays,
    } = counts_beside(*rt, shared, caller, key);
    if homes == 64 && !growing && left == 0 && strays == 0 {
        items
    } else {
        0
    }
}

/// Returns the pages of the class of a charge, and how many of its chunks items use.
fn account<R: Wait>(sole: &mut Sole<'_, R, Fnv>, charge: u64) -> Option<(u32, u32)> {
    let class = class_of(charge)?;
    let Sole { rt, shared, caller } = sole;
    let Account { pages, out } = account_of(*rt, shared, caller, class);
    Some((pages, out))
}

/// An item of 50 bytes with its head, in a chunk of 96, and another in such a chunk.
///
/// The first is dead at 1010.
static BOTH: [Row; 2] = [(1000, b"a", SET_FOR_10), (1000, b"k", SET)];

/// Drops the first item.
static TIDY: Row = (1010, b"a", Act::Tidy);

/// Returns whether they are set, and a third item of 1049 bytes with its head, in a chunk of 1184.
fn are_set<R: Wait>(sole: &mut Sole<'_, R, Fnv>, alloc: Global) -> Result<bool, AllocError> {
    if sole.first_untold(alloc, &BOTH).is_some() {
        return Ok(false);
    }
    let block = filled_block(alloc, 1000)?;
    Ok(sole.set(alloc, b"b", block.as_slice()) == "stored")
}

/// The counts of the shelves of `a`, `k` and `b`, and the accounts of three classes.
///
/// Their chunks are of 96, 120 and 1184 bytes.
type Told = ([u64; 3], [Option<(u32, u32)>; 3]);

/// Returns them.
fn told<R: Wait>(sole: &mut Sole<'_, R, Fnv>) -> Told {
    let items = [items(sole, b"a"), items(sole, b"k"), items(sole, b"b")];
    let accounts = [account(sole, 96), account(sole, 97), account(sole, 1184)];
    (items, accounts)
}

/// Returns them with three items, and again after the first is dropped; `None` if one isn't stored.
fn told_twice<R: Wait>(
    sole: &mut Sole<'_, R, Fnv>,
    alloc: Global,
) -> Result<Option<(Told, Told)>, AllocError> {
    if !are_set(sole, alloc)? {
        return Ok(None);
    }
    let before = told(sole);
    let _ = sole.is_told(alloc, &TIDY);
    Ok(Some((before, told(sole))))
}

/// Returns both for a store with this many shelves.
fn told_by<R: Wait>(
    rt: &R,
    alloc: Global,
    shelves: u32,
) -> Result<Option<(Told, Told)>, AllocError> {
    let Some(settings) = Settings::new(64, Settings::GREATEST, shelves) else {
        return Ok(None);
    };
    let mut sole = Sole::open(rt, alloc, settings, Fnv)?;
    told_twice(&mut sole, alloc)
}

const BEFORE: [Option<(u32, u32)>; 3] = [Some((1, 2)), Some((0, 0)), Some((1, 1))];

const AFTER: [Option<(u32, u32)>; 3] = [Some((1, 1)), Some((0, 0)), Some((1, 1))];

/// The number of a store's shelves, and its expected counts.
const COUNTS: [(u32, (Told, Told)); 3] = [
    (1, (([3, 3, 3], BEFORE), ([2, 2, 2], AFTER))),
    (64, (([1, 1, 1], BEFORE), ([0, 1, 1], AFTER))),
    (256, (([1, 1, 1], BEFORE), ([0, 1, 1], AFTER))),
];

#[test]
fn items_and_chunks_are_counted(rt: HostRuntime) -> Result<(), Fail> {
    for (shelves, wanted) in &COUNTS {
        let told = told_by(&rt, rt.alloc(), *shelves)?;
        assert!(rt; told == Some(*wanted));
    }
    Ok(())
}

/// Returns the number of reclaimed items of the shelves of `a` and `k`.
fn reclaimed<R: Wait>(sole: &mut Sole<'_, R, Fnv>) -> [u64; 2] {
    let Sole { rt, shared, caller } = sole;
    let first = reclaimed_beside(*rt, shared, caller, b"a");
    [first, reclaimed_beside(*rt, shared, caller, b"k")]
}

/// Calls, and the number of items reclaimed after each of the shelves of `a` and `k`.
///
/// The first numbers are those of a store with one shelf, which both keys have. A step that finds
/// its key's item dead drops it, and it isn't counted. The last flush drops all items.
static DROPS: [(Row, [u64; 2], [u64; 2]); 11] = [
    ((1000, b"a", SET_FOR_10), [0, 0], [0, 0]),
    ((1000, b"k", SET), [0, 0], [0, 0]),
    ((1009, b"a", Act::Tidy), [0, 0], [0, 0]),
    ((1010, b"a", Act::Tidy), [1, 1], [1, 0]),
    ((1010, b"a", SET_FOR_5), [1, 1], [1, 0]),
    ((1015, b"a", Act::Told(Ask::Get, "miss")), [1, 1], [1, 0]),
    ((1015, b"a", Act::Tidy), [1, 1], [1, 0]),
    ((1015, b"", FLUSH_AT_1020), [1, 1], [1, 0]),
    ((1020, b"k", Act::Tidy), [2, 2], [1, 1]),
    ((1020, b"a", SET), [2, 2], [1, 1]),
    ((1020, b"", FLUSH), [3, 3], [2, 1]),
];

/// A flush that is asked for at 1015.
const FLUSH_AT_1020: Act = Act::Told(Ask::Flush(5), "flushed");

/// Returns whether the calls have their results and numbers.
fn are_counted<R: Wait>(sole: &mut Sole<'_, R, Fnv>, alloc: Global, has_one: bool) -> bool {
    for (row, of_one, of_many) in &DROPS {
        let wanted = if has_one { *of_one } else { *of_many };
        if !sole.is_told(alloc, row) || reclaimed(sole) != wanted {
            return false;
        }
    }
    true
}

/// Returns the same for a new store with these settings.
fn are_counted_in<R: Wait>(
    rt: &R,
    alloc: Global,
    settings: Settings,
    has_one: bool,
) -> Result<bool, AllocError> {
    let mut sole = Sole::open(rt, alloc, settings, Fnv)?;
    Ok(are_counted(&mut sole, alloc, has_one))
}

#[test]
fn items_that_purges_and_flushes_drop_are_counted(rt: HostRuntime) -> Result<(), Fail> {
    for (settings, has_one) in [(ONE, true), (SOME, false), (MANY, false)] {
        assert!(rt; are_counted_in(&rt, rt.alloc(), settings, has_one)?);
    }
    Ok(())
}
