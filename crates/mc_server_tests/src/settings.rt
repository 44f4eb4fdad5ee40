//! The store of these tests.
ghost use Rattle.std.specs.Prelude.{◌≡◌};

use mc_shelf::Settings;

/// Returns the settings of a store of one page and 64 shelves.
pub(crate) fn one_page() -> Settings
    ensures { result.pages ≡ 1 }
{
    Settings {
        pages: 1,
        greatest: Settings::GREATEST,
        shelves: 64,
    }
}
