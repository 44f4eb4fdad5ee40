//! Slabs to take chunks from.

ghost use Rattle.std.specs.Prelude.{◌≤◌};

use mc_slab::Slab;
use std::alloc::Global;
use std::test::Fail;

/// Makes a slab with some pages. A run may refuse one allocation, so it tries twice.
pub(crate) fn slab_of(alloc: Global, pages: u32) -> Result<Slab, Fail>
    requires { (1 ≤ pages) × (pages ≤ 65536) }
{
    match Slab::new(alloc, pages) {
        Ok(slab) => Ok(slab),
        Err(_) => Ok(Slab::new(alloc, pages)?),
    }
}
