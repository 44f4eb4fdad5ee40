//! The class and the number of chunks that hold a charge.

ghost use Rattle.std.specs.Prelude.{◌≡◌, ◌+◌, ◌*◌, ◌<◌, ◌≤◌, ◌↔◌, IfSome, IsNone};
ghost use Rattle.mc_sizes.specs.Classes.{IsClass, page_size};
ghost use Rattle.mc_sizes.specs.Needs.{NeedState, IsNeed, IsSmaller, largest_charge, need_of, size_in};

use crate::class::{CLASSES, Class, PAGE_SIZE, class_of};
use std::alloc::AllocError;
use std::marker::Model;

/// The largest charge, in bytes, that chunks can hold: eight pages.
pub const LARGEST_CHARGE: u64 = 8 * WHOLE;

/// Bytes of charge that a page holds.
const WHOLE: u64 = PAGE_SIZE as u64;

/// What a charge needs: one chunk of a class, or two to eight whole pages.
///
/// Contracts see the class and the count.
#[derive(Debug, PartialEq, Eq)]
pub struct Need {
    class: Class,
    count: u8,
}

impl Model for Need {
    ghost use Rattle.mc_sizes.specs.Needs.{NeedState, coded_need, IsNeed};

    ghost Value = { NeedState };

    ghost coded = { coded_need };

    ghost view = { λ n. record { class = n.class; count = n.count } };

    ghost invariant = { λ n. IsNeed (record { class = n.class; count = n.count }) };

    ghost inverse = { λ n. record { class = n.class; count = n.count } };
}

impl Clone for Need {
    ghost is_clone = { λ x y. y ≡ x };

    ghost is_infallible = { λ _. Unit {0} };

    fn clone(&self) -> Result<Need, AllocError> {
        Ok(*self)
    }
}

impl Copy for Need {}

impl Need {
    /// Returns the need of one chunk of the class.
    pub fn one(class: Class) -> Need
        requires { IsClass class }
        ensures { result ≡ record { class = class; count = 1 } }
    {
        Need { class, count: 1 }
    }

    /// Returns the need of `count` pages, 1 to 8.
    pub fn pages(count: u8) -> Need
        requires { (1 ≤ count) × (count ≤ 8) }
        ensures { result ≡ record { class = 40; count = count } }
    {
        Need {
            class: Class::of(CLASSES),
            count,
        }
    }

    /// Returns the class of its chunks.
    pub fn class(self) -> Class
        ensures value { result ≡ self.class }
        ensures is_need { IsNeed self }
    {
        self.class
    }

    /// Returns the number of its chunks, 1 to 8; more than one are pages.
    pub fn count(self) -> u32
        ensures value { result ≡ self.count }
        ensures range { (1 ≤ result) × (result ≤ 8) }
        ensures is_need { IsNeed self }
    {
        u32::from(self.count)
    }
}

/// Returns the need of a charge of that many bytes, or `None` above [`LARGEST_CHARGE`].
///
/// It is one chunk of the smallest class that holds the charge, and above a page the fewest whole
/// pages that do. It takes at most six comparisons, and two more above a page.
pub fn need_of(charge: u64) -> Option<Need>
    ensures value { result ≡ need_of charge }
    ensures none { IsNone result ↔ (largest_charge < charge) }
    ensures is_need { IfSome result IsNeed }
    ensures holds { IfSome result (λ need. charge ≤ size_in need) }
    ensures smallest { IfSome result (λ need.
        (smaller : NeedState) → IsNeed smaller → IsSmaller smaller need → size_in smaller < charge) }
{
    match class_of(charge) {
        Some(class) => Some(Need::one(class)),
        None => pages_of(charge),
    }
}

/// Returns the fewest pages that hold a charge above one page, if eight are enough.
fn pages_of(charge: u64) -> Option<Need>
    requires { page_size < charge }
    ensures value { result ≡ need_of charge }
    ensures none { IsNone result ↔ (largest_charge < charge) }
    ensures is_need { IfSome result IsNeed }
    ensures holds { IfSome result (λ need. charge ≤ size_in need) }
    ensures smallest { IfSome result (λ need.
        (smaller : NeedState) → IsNeed smaller → IsSmaller smaller need → size_in smaller < charge) }
{
    if charge > LARGEST_CHARGE {
        return None;
    }
    Some(Need::pages(((charge + (WHOLE - 1)) / WHOLE) as u8))
}
