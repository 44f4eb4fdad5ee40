//! Plays in a new store, and what is seen of them. All blocks have equal bytes.

use crate::seen::account;
use crate::stores::set_up;
use mc_hop::Fnv;
use mc_protocol::StepFault;
use mc_shelf::{Settings, Store};
use mc_testing::{Play, filled_block, first_wrong, first_wrong_unread};
use std::alloc::Global;
use std::process::Abort;
use std::test::*;

/// The longest block.
const LONGEST: usize = 3_000_000;

/// A charge of the last class, whose chunks are pages.
pub(crate) const PAGE: u64 = 1_048_576;

/// The place of the first unexpected answer, and the pages and chunks out of the last class.
type Seen = (Option<usize>, (u32, u32));

/// Returns what is seen of plays in a store. `read` tells whether a key is read before its step.
fn seen_in(
    store: &mut Store<Fnv>,
    alloc: Global,
    bytes: &[u8],
    plays: &[Play],
    read: bool,
) -> Result<Seen, StepFault> {
    let wrong = if read {
        first_wrong(store, alloc, bytes, plays)?
    } else {
        first_wrong_unread(store, alloc, bytes, plays)
    };
    Ok((wrong, account(store, PAGE)))
}

/// Returns what is seen of plays in a new store with these settings.
fn seen_of(alloc: Global, settings: Settings, plays: &[Play], read: bool) -> Result<Seen, Fail> {
    let bytes = filled_block(alloc, LONGEST)?;
    let mut store = set_up(alloc, settings, Fnv)?;
    Ok(seen_in(&mut store, alloc, bytes.as_slice(), plays, read)?)
}

/// Checks that all answers were expected, and the account of the last class then.
fn is_right(rt: &impl Abort, seen: Seen, account: (u32, u32)) {
    assert_eq!(rt; seen, (None, account));
}

/// Checks plays in a new store with these settings, and the account of the last class then.
///
/// `read` tells whether a key is read before its step.
pub(crate) fn are_answered(
    rt: &impl Abort,
    alloc: Global,
    settings: Settings,
    plays: &[Play],
    account: (u32, u32),
    read: bool,
) -> Result<(), Fail> {
    let seen = seen_of(alloc, settings, plays, read)?;
    is_right(rt, seen, account);
    Ok(())
}
