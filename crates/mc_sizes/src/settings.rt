//! The settings of a store.
//!
//! They carry their ranges as ghost fields, so no call above requires them again. There are at most
//! 256 shelves: a key's home in its shelf's table is its hash divided by 256.

ghost use Rattle.std.specs.Prelude.{◌≡◌, ◌↔◌, IfSome, IsSome};
ghost use Rattle.mc_sizes.specs.Ranges.{AreInRange, IsGreatestCharge, IsPageCount, IsShelfCount};
ghost use Rattle.mc_sizes.specs.Ranges.{is_shelf_count};

use crate::class::PAGE_SIZE;
use crate::need::LARGEST_CHARGE;

/// The settings of a store. Each value is in its range.
#[derive(Clone, Copy, Debug, PartialEq, Eq)]
pub struct Settings {
    /// The limit of pages, 1 to 65536.
    pub pages: u32,
    /// The greatest charge of an item, in bytes: that of one page to that of eight.
    pub greatest: u64,
    /// The number of shelves: a power of two, 1 to 256.
    pub shelves: u32,
    pub ghost pages_fit: { IsPageCount pages },
    pub ghost greatest_fits: { IsGreatestCharge greatest },
    pub ghost shelves_fit: { IsShelfCount shelves },
}

impl Settings {
    /// The most pages of a store.
    pub const MOST_PAGES: u32 = 65536;

    /// The default greatest charge of an item, in bytes: one page. A store can't have a smaller
    /// one.
    pub const GREATEST: u64 = PAGE_SIZE as u64;

    /// The largest greatest charge of an item, in bytes: eight pages.
    pub const MOST_GREATEST: u64 = LARGEST_CHARGE;

    /// The most shelves of a store.
    pub const MOST_SHELVES: u32 = 256;

    /// Makes settings, or returns `None` if a value is out of its range.
    ///
    /// The ranges: 1 to 65536 pages, a greatest charge of an item of one page to eight, and 1 to 256
    /// shelves, a power of two.
    pub fn new(pages: u32, greatest: u64, shelves: u32) -> Option<Settings>
        ensures some { IfSome result (λ settings. (settings.pages ≡ pages)
            × (settings.greatest ≡ greatest) × (settings.shelves ≡ shelves)) }
        ensures exactly { IsSome result ↔ AreInRange pages greatest shelves }
    {
        if pages == 0
            || pages > Settings::MOST_PAGES
            || greatest < Settings::GREATEST
            || greatest > Settings::MOST_GREATEST
            || !is_shelf_count(shelves)
        {
            return None;
        }
        Some(Settings {
            pages,
            greatest,
            shelves,
        })
    }
}

/// Returns whether a store may have this number of shelves.
fn is_shelf_count(shelves: u32) -> bool
    ensures { result ≡ is_shelf_count shelves }
{
    shelves == 1
        || shelves == 2
        || shelves == 4
        || shelves == 8
        || shelves == 16
        || shelves == 32
        || shelves == 64
        || shelves == 128
        || shelves == 256
}
