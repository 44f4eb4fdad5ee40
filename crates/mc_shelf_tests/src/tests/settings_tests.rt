//! Settings that a store may have, and others.

use mc_shelf::Settings;
use std::test::*;

/// Pages, a greatest charge and shelves, and whether these are settings.
type Row = (u32, u64, u32, bool);

static ROWS: [Row; 23] = [
    (0, 1048576, 64, false),
    (1, 1048576, 64, true),
    (65536, 1048576, 64, true),
    (65537, 1048576, 64, false),
    (64, 1048575, 64, false),
    (64, 1048577, 64, true),
    (64, 8388608, 64, true),
    (64, 8388609, 64, false),
    (64, 1048576, 0, false),
    (64, 1048576, 1, true),
    (64, 1048576, 2, true),
    (64, 1048576, 3, false),
    (64, 1048576, 4, true),
    (64, 1048576, 8, true),
    (64, 1048576, 16, true),
    (64, 1048576, 32, true),
    (64, 1048576, 63, false),
    (64, 1048576, 64, true),
    (64, 1048576, 96, false),
    (64, 1048576, 128, true),
    (64, 1048576, 255, false),
    (64, 1048576, 256, true),
    (64, 1048576, 512, false),
];

#[test]
fn settings_are_made_of_numbers_in_range(rt: HostRuntime) -> Result<(), Fail> {
    for (pages, greatest, shelves, fits) in &ROWS {
        let made = Settings::new(*pages, *greatest, *shelves);
        assert!(rt; made.is_some() == *fits, "{pages} {greatest} {shelves}");
    }
    Ok(())
}
