//! Hashes of keys, compared with published ones.

use mc_hop::{Constant, Fnv, KeyHash};
use std::test::*;

#[test]
fn hashes_that_others_publish(rt: HostRuntime) {
    assert_eq!(rt; Fnv.hash(b""), 0xcbf29ce484222325);
    assert_eq!(rt; Fnv.hash(b"a"), 0xaf63dc4c8601ec8c);
    assert_eq!(rt; Fnv.hash(b"b"), 0xaf63df4c8601f1a5);
    assert_eq!(rt; Fnv.hash(b"foobar"), 0x85944171f73967e8);
    assert_eq!(rt; Constant(7).hash(b"foobar"), 7);
}
