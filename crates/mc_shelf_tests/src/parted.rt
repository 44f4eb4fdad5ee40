//! Steps in two parts, as the shared store takes them.

ghost use Rattle.std.specs.Prelude.{◌≡◌, ◌≤◌, length, IfOk, OnErr};
ghost use Rattle.mc_protocol.specs.Commands.{key_of};
ghost use Rattle.mc_protocol.specs.Laws.{IsOnKey};
ghost use Rattle.mc_shelf.specs.States.{CanStandAt};
ghost use Rattle.mc_shelf.specs.Plans.{CanLook, CanWrite, StepTaken, IsPlan, HasRoom};

use mc_hop::KeyHash;
use mc_protocol::{KeyStep, Reply, StepFault};
use mc_shelf::{Desk, Plan, Shelf, StepMemory, Store, StoreParts};
use mc_time::Moment;
use std::alloc::{AllocError, Global};

/// How a step gets its plan, and the room for the entry that it inserts.
#[derive(Clone, Copy)]
pub(crate) enum Way {
    /// By `look`.
    Looked,
    /// By `plan` and `make_room_at`, as where memory for room was refused before.
    AtDesk,
}

/// A step on one key, the key's hash, and the way to its plan.
#[derive(Drop)]
struct HashedStep<'a> {
    step: &'a KeyStep<'a>,
    hash: u64,
    way: Way,
}

/// Takes a step that was planned. Returns whether something was left to its second part.
///
/// A join gets pages in exchange for those of its item.
fn take_planned(
    alloc: Global,
    shelf: &mut Shelf,
    desk: &mut Desk,
    mut plan: Plan<'_>,
    step: &KeyStep<'_>,
    left: &mut bool,
) -> Result<Reply, StepFault>
    requires plan { IsPlan plan shelf.old.content step.now plan.moment }
    requires room { CanWrite plan.next shelf.old.content (key_of step.now) plan.moment desk.old →
        HasRoom plan shelf.old step.now }
    requires key { length (key_of step.now) ≤ 250 }
    requires stands { CanStandAt (key_of step.now) shelf.old.content desk.old }
    ensures took { IfOk result (λ reply. StepTaken step.now plan.entry.moment plan.entry.hash
        shelf.old.content desk.old reply shelf.new.content desk.new) }
    ensures err { OnErr result
        ((shelf.new.content ≡ shelf.old.content) × (desk.new ≡ desk.old)) }
{
    let exchange = shelf.exchange(alloc, &plan)?;
    let brought = StepMemory {
        pages: None,
        exchange,
    };
    shelf.begin(alloc, &mut plan, step, desk, brought)?;
    *left = plan.is_left();
    Ok(shelf.finish(plan, step))
}

/// Plans a step, and makes room for the entry that it inserts.
fn planned<'a>(
    alloc: Global,
    shelf: &mut Shelf,
    desk: &Desk,
    hashed: &HashedStep<'a>,
    now: Moment,
) -> Result<Plan<'a>, AllocError>
    requires look { CanLook hashed.now.step.now hashed.now.hash shelf.old.content }
    requires stands { CanStandAt (key_of hashed.now.step.now) shelf.old.content desk.now }
    ensures plan { IfOk result (λ plan. IsPlan plan shelf.old.content hashed.now.step.now now) }
    ensures hash { IfOk result (λ plan. plan.hash ≡ hashed.now.hash) }
    ensures room { IfOk result (λ plan. CanWrite plan.next shelf.old.content
        (key_of hashed.now.step.now) plan.moment desk.now
        → HasRoom plan shelf.new hashed.now.step.now) }
    ensures content { shelf.new.content ≡ shelf.old.content }
{
    let HashedStep { step, hash, way } = *hashed;
    match way {
        Way::Looked => shelf.look(alloc, step, hash, now),
        Way::AtDesk => {
            let plan = shelf.plan(alloc, step, hash, now)?;
            shelf.make_room_at(alloc, &plan, desk)?;
            Ok(plan)
        }
    }
}

/// Takes a step on a shelf's key in two parts. Returns whether something was left to the second.
///
/// Nothing comes between them.
fn step_in_parts(
    alloc: Global,
    shelf: &mut Shelf,
    desk: &mut Desk,
    hashed: &HashedStep<'_>,
    now: Moment,
    left: &mut bool,
) -> Result<Reply, StepFault>
    requires look { CanLook hashed.now.step.now hashed.now.hash shelf.old.content }
    requires stands { CanStandAt (key_of hashed.now.step.now) shelf.old.content desk.old }
    ensures took { IfOk result (λ reply. StepTaken hashed.now.step.now now hashed.now.hash
        shelf.old.content desk.old reply shelf.new.content desk.new) }
    ensures err { OnErr result
        ((shelf.new.content ≡ shelf.old.content) × (desk.new ≡ desk.old)) }
{
    let plan = planned(alloc, shelf, desk, hashed, now)?;
    take_planned(alloc, shelf, desk, plan, hashed.step, left)
}

/// Takes a step at its key's shelf in two parts. Returns whether something was left to the second.
pub(crate) fn begin_and_finish<K: KeyHash + Drop>(
    store: Store<K>,
    alloc: Global,
    step: &KeyStep<'_>,
    now: Moment,
    way: Way,
    left: &mut bool,
) -> (Store<K>, Result<Reply, StepFault>)
    requires on_key { IsOnKey step.now }
    requires key { length (key_of step.now) ≤ 250 }
{
    let mut parts = store.into_parts();
    let hash = parts.hasher.hash(step.key());
    let at = hash % u64::from(parts.settings.shelves);
    let hashed = HashedStep { step, hash, way };
    let StoreParts { shelves, desk, .. } = &mut parts;
    let shelf = &mut shelves[at as usize];
    let answer = step_in_parts(alloc, shelf, desk, &hashed, now, left);
    (Store::from_parts(parts), answer)
}
