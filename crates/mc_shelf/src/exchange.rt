//! Pages for the desk in exchange for an item's own, so that a join copies without the desk.
//!
//! A join that can't stay in its item's chunks copies the item into others. While the desk is held
//! every other writer waits, and the item's chunks have to be free when the desk is given back. So
//! the same number of pages, which belong to no slab, may be made before: the desk gets these, and
//! the item keeps its own until `finish` has copied it and frees them. If memory for them is
//! refused, the copy is made at the desk.

ghost use Rattle.std.specs.Prelude.{◌≡◌, ◌-◌, ◌<◌, ◌^◌, ℕ, IfOk, IfSome, OnErr, None, is_some};
ghost use Rattle.std.specs.Prelude.{true, false};
ghost use Rattle.std.specs.FinMap.{get};
ghost use Rattle.mc_slab.specs.Chunks.{need_in};
ghost use Rattle.mc_slab.specs.Needs.{NeedState};
ghost use Rattle.mc_protocol.specs.declared.step.KeyStep.{KeyStep as Step};
ghost use Rattle.mc_protocol.specs.Commands.{key_of};
ghost use Rattle.mc_shelf.specs.Plans.{GivesBack, IsOut, IsPlan, IsSought, drawn, exchange_for};
ghost use Rattle.mc_shelf.specs.Plans.{left_behind, need_brought, pages_in};

use crate::desk::Desk;
use crate::plan::{Action, Plan};
use crate::shelf::Shelf;
use crate::write::{has_need, is_same};
use mc_protocol::{Body, KeyStep};
use mc_slab::{Chunks, Need, Pages, Slab};
use std::alloc::{AllocError, Global};

/// The class whose chunks are whole pages.
const PAGES: u8 = 40;

/// The most pages of a need.
const MOST: u32 = 8;

/// Memory that was allocated for a step before the desk is held.
#[derive(Drop)]
pub struct StepMemory {
    /// Pages for the class of the item that is written.
    pub pages: Option<Pages>,
    /// Chunks in exchange for those of the key's item.
    pub exchange: Option<Chunks>,
}

/// Allocates chunks of a need that belong to no slab. Their content is unspecified.
///
/// Pages are freed when they are dropped; memory of smaller chunks stays with the process. The only
/// error is a refused allocation.
fn chunks_of(alloc: Global, need: Need) -> Result<Chunks, AllocError>
    ensures { IfOk result (λ chunks. need_in chunks ≡ need) }
{
    let mut slab = Slab::new(alloc, MOST)?;
    match slab.take_all(alloc, need) {
        Ok(chunks) => Ok(chunks),
        Err(_) => Err(AllocError),
    }
}

impl Shelf {
    /// Allocates pages in exchange for those of the key's item, for `begin`.
    ///
    /// They are as many as that item has, if it has pages and the planned step joins its block with
    /// the item in other chunks. For any other step it returns `None` and allocates nothing. The
    /// only error is a refused allocation.
    pub fn exchange(&self, alloc: Global, plan: &Plan<'_>) -> Result<Option<Chunks>, AllocError>
        requires { (step : Step) × (now : ℕ) × IsPlan plan.now self.now.content step now }
        ensures made { IfOk result (λ chunks. need_brought chunks ≡ exchange_for plan.now.next
            plan.now.key (get self.now.content.items plan.now.key)) }
        ensures refused { OnErr result (is_some (exchange_for plan.now.next
            plan.now.key (get self.now.content.items plan.now.key)) ≡ true) }
    {
        match self.copied_pages(plan) {
            Some(need) => Ok(Some(chunks_of(alloc, need)?)),
            None => Ok(None),
        }
    }

    /// Returns the need of the key's item, if it has pages and is joined in other chunks.
    fn copied_pages(&self, plan: &Plan<'_>) -> Option<Need>
        requires { (step : Step) × (now : ℕ) × IsPlan plan.now self.now.content step now }
        ensures { result ≡ exchange_for plan.now.next plan.now.key
            (get self.now.content.items plan.now.key) }
    {
        let Action::Write { charge, body, .. } = plan.next else {
            return None;
        };
        if !joins(body) {
            return None;
        }
        let item = self.planned_entry(plan)?;
        pages_of_join(body, item.need(), self.need_for(charge))
    }

    /// Gives the desk chunks in exchange for those of the key's item, if they are of the same need.
    ///
    /// Returns the number that it drew for the write if it did, and `None` if not. The item keeps
    /// its own chunks. Other chunks are freed.
    pub(crate) fn exchange_drawn(
        &self,
        plan: &Plan<'_>,
        step: &KeyStep<'_>,
        exchange: Option<Chunks>,
        desk: &mut Desk,
    ) -> Option<u64>
        requires sought { IsSought self.now.content (key_of step.now) plan.now.hash
            plan.now.place }
        requires out { IsOut (key_of step.now) self.now.content desk.old }
        requires number { desk.old.next_unique < 2 ^ 64 - 1 }
        ensures given { IfSome result (λ unique. (unique ≡ desk.old.next_unique)
            × GivesBack (key_of step.now) (get self.now.content.items (key_of step.now))
            (drawn desk.old) desk.new) }
        ensures kept { result ≡ None → desk.new ≡ desk.old }
    {
        let Some(chunks) = exchange else {
            return None;
        };
        let item = self.entry(plan.place, plan.hash, step.key());
        if !has_need(item, chunks.need()) {
            return None;
        }
        let unique = desk.draw();
        desk.give(chunks);
        Some(unique)
    }
}

/// Returns whether the block is joined with the present one.
fn joins(body: Body) -> bool
    ensures { result ≡ false → (own need : NeedState) → left_behind body own need ≡ None }
{
    match body {
        Body::Appended | Body::Prepended => true,
        Body::Given | Body::Counted(_) => false,
    }
}

/// Returns the need of an item with pages whose block is joined in other chunks, or `None`.
fn pages_of_join(body: Body, own: Need, need: Need) -> Option<Need>
    ensures { result ≡ left_behind body own need }
{
    match body {
        Body::Appended if is_same(own, need) => None,
        Body::Appended | Body::Prepended => pages_in(own),
        Body::Given | Body::Counted(_) => None,
    }
}

/// Returns the need if it is one of pages.
fn pages_in(own: Need) -> Option<Need>
    ensures { result ≡ pages_in own }
{
    if own.class().number() == PAGES {
        Some(own)
    } else {
        None
    }
}
