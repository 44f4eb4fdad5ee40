//! Lines that announce a block, and what arrives of it.

/// The greatest charge that a line may announce.
pub(crate) const GREATEST: u64 = 16_777_216;

/// The bytes of a block that arrive: enough that room for all of it is wanted.
pub(crate) const BEGUN: usize = 30_000;

// Lines that announce a block, named by their length with the block. At most its first bytes
// arrive.

pub(crate) const OF_16384: &[u8] = b"set b 0 0 16365\r\n";

pub(crate) const OF_16385: &[u8] = b"set b 0 0 16366\r\n";

pub(crate) const OF_131073: &[u8] = b"set b 0 0 131053\r\n";

pub(crate) const OF_380000: &[u8] = b"set b 0 0 379980\r\n";

pub(crate) const OF_400000: &[u8] = b"set b 0 0 399980\r\n";

pub(crate) const OF_400001: &[u8] = b"set b 0 0 399981\r\n";

pub(crate) const OF_600000: &[u8] = b"set b 0 0 599980\r\n";

pub(crate) const OF_1000000: &[u8] = b"set b 0 0 999980\r\n";

pub(crate) const OF_1200000: &[u8] = b"set b 0 0 1199979\r\n";

pub(crate) const OF_9000000: &[u8] = b"set b 0 0 8999979\r\n";
