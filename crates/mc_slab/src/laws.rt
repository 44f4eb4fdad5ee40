//! Laws of pages, each the contract of a function that does nothing.

ghost use Rattle.std.specs.Prelude.{◌≡◌, ℕ, ◌+◌, ◌*◌, ◌<◌, ◌≤◌, true};
ghost use Rattle.mc_slab.specs.Classes.{chunks_a_page};
ghost use Rattle.mc_slab.specs.Needs.{NeedState, IsNeed};
ghost use Rattle.mc_slab.specs.Slabs.{SlabState, IsSlab, TellsFull, WantsPages, given, has_room};
ghost use Rattle.mc_slab.specs.Slabs.{has_room_with, made_ready, out_of, pages_left, pages_wanted};
ghost use Rattle.mc_slab.specs.Slabs.{unused};

/// States that a class is given the fewest pages that serve a need. It does nothing.
///
/// If there is room for the need, that many pages are left.
pub fn wanted_pages_are_least()
    ensures enough { (slab : SlabState) (need : NeedState) (back : ℕ) → IsNeed need
        → need.count ≤ unused slab need.class + back
        + pages_wanted slab need back * chunks_a_page need.class }
    ensures least { (slab : SlabState) (need : NeedState) (back fewer : ℕ) → IsNeed need
        → fewer < pages_wanted slab need back
        → unused slab need.class + back + fewer * chunks_a_page need.class < need.count }
    ensures left { (slab : SlabState) (need : NeedState) (back : ℕ) → IsNeed need
        → has_room_with slab need back ≡ true → pages_wanted slab need back ≤ pages_left slab }
{}

/// States that a class made ready for a need wants no further page. It does nothing.
///
/// The need can be taken once the chunks that were to be given back were given back.
pub fn ready_is_enough()
    ensures room { (slab : SlabState) (need : NeedState) (back : ℕ) → IsSlab slab → IsNeed need
        → back ≤ out_of slab need.class
        → has_room (given (made_ready slab need back) need.class back) need ≡ true }
    ensures no_pages { (slab : SlabState) (need : NeedState) (back : ℕ) → IsSlab slab → IsNeed need
        → back ≤ out_of slab need.class
        → pages_wanted (given (made_ready slab need back) need.class back) need 0 ≡ 0 }
    ensures not_full { (slab : SlabState) (need : NeedState) (back : ℕ) → IsSlab slab → IsNeed need
        → back ≤ out_of slab need.class → (class pages out : ℕ)
        → TellsFull (given (made_ready slab need back) need.class back) need 0 class pages out → ⊥ }
    ensures no_memory { (slab : SlabState) (need : NeedState) (back : ℕ) → IsSlab slab → IsNeed need
        → back ≤ out_of slab need.class
        → WantsPages (given (made_ready slab need back) need.class back) need 0 → ⊥ }
{}
