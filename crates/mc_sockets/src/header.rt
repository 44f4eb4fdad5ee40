//! Headers of memcached's binary protocol.
ghost use Rattle.std.specs.Prelude.{◌≡◌, ◌<◌, ◌∷◌, [], length, take};
ghost use Rattle.mc_sockets.specs.Headers.{is_binary_header};

/// The size of a header.
pub const HEADER: usize = 24;

/// The first byte of a header.
pub const MAGIC: u8 = 0x80;

/// The first bytes of a header: 1 to 23.
#[derive(Clone, Copy)]
pub struct HeaderPart {
    pub bytes: [u8; 24],
    /// How many of them came.
    pub count: usize,
    pub ghost short: { count < 24 },
    pub ghost whole: { length bytes ≡ 24 },
}

impl HeaderPart {
    /// Returns the part that is the first byte.
    pub fn begun() -> HeaderPart
        ensures { take result.count result.bytes ≡ 128 ∷ [] }
    {
        HeaderPart {
            bytes: [MAGIC; 24],
            count: 1,
        }
    }
}

/// Returns whether 24 bytes are the header of a request of the binary protocol.
pub fn is_binary_header(header: &[u8; 24]) -> bool
    ensures { result ≡ is_binary_header header.now }
{
    let key = 256 * u64::from(header[2]) + u64::from(header[3]);
    let extras = u64::from(header[4]);
    let high = 16_777_216 * u64::from(header[8]) + 65_536 * u64::from(header[9]);
    let low = 256 * u64::from(header[10]) + u64::from(header[11]);
    header[0] == MAGIC && header[5] == 0 && extras + key <= high + low
}
