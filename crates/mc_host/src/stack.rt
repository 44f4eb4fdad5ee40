//! The limit of the stack.
//!
//! Each thread's stack is as large as it, or smaller. A thread that exceeds its stack ends the
//! program by a fault, so the limit is read before anything else is done.
ghost use Rattle.std.specs.Prelude.{◌≡◌};
ghost use Rattle.mc_host.specs.Stacks.{is_small};

use crate::descriptors::soft_limit;
use std::alloc::AllocGlobal;
use std::fs::Files;

/// The beginning of the line with the bytes of the stack.
const STACK: &str = "Max stack size";

/// The least limit of the stack, in bytes.
const LEAST: u64 = 524_288;

/// Returns whether the system reports a limit of the stack below 512 KiB.
pub fn has_small_stack<R: Files + AllocGlobal>(rt: &R) -> bool {
    is_small(soft_limit(rt, STACK))
}

/// Returns whether there is a limit below 512 KiB.
fn is_small(limit: Option<u64>) -> bool
    ensures { result ≡ is_small limit }
{
    match limit {
        Some(bytes) => bytes < LEAST,
        None => false,
    }
}
