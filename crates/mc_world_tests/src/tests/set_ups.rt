//! Settings of the stores of tests.

use mc_shelf::Settings;

/// Makes settings of a number of pages, a greatest charge and a number of shelves.
///
/// A constant can't call a function.
macro_rules! settings {
    ($pages:literal, $greatest:ident, $shelves:literal) => {
        Settings {
            pages: $pages,
            greatest: Settings::$greatest,
            shelves: $shelves,
        }
    };
}

/// Settings of stores with one shelf, 64 and 256.
pub(crate) const ONE: Settings = settings!(64, GREATEST, 1);

pub(crate) const SOME: Settings = settings!(64, GREATEST, 64);

pub(crate) const MANY: Settings = settings!(64, GREATEST, 256);

pub(crate) const EACH: [Settings; 3] = [ONE, SOME, MANY];

/// The same with one page.
pub(crate) const ONE_SMALL: Settings = settings!(1, GREATEST, 1);

pub(crate) const SOME_SMALL: Settings = settings!(1, GREATEST, 64);

pub(crate) const MANY_SMALL: Settings = settings!(1, GREATEST, 256);

/// Settings of stores with two, three and eight pages, and items of up to eight.
pub(crate) const TWO_LARGE: Settings = settings!(2, MOST_GREATEST, 64);

pub(crate) const THREE_LARGE: Settings = settings!(3, MOST_GREATEST, 64);

pub(crate) const EIGHT_LARGE: Settings = settings!(8, MOST_GREATEST, 64);

/// The shelf of `a`, and that of `b`, of 64.
pub(crate) const SHELF_OF_A: u32 = 12;

pub(crate) const SHELF_OF_B: u32 = 37;

/// The shelf of `b`, of 256.
pub(crate) const SHELF_OF_B_OF_MANY: u32 = 165;
