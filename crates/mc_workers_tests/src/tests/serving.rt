//! One link in memory or two, and a worker that serves one.

ghost use Rattle.std.specs.Prelude.{◌≡◌};

use crate::held::HeldLink;
use mc_guests::{Links, Next, WorkEnd};
use mc_hop::Fnv;
use mc_shared::{Caller, Gate, Shared};
use mc_time::{Fixed, Moment};
use mc_workers::work;
use std::alloc::Global;
use std::sync::Wait;

/// One link or two, and then none. It names them in turn.
#[derive(Drop)]
pub(crate) struct HeldLinks<'a> {
    first: Option<HeldLink<'a>>,
    second: Option<HeldLink<'a>>,
    named: u64,
}

impl<'a> HeldLinks<'a> {
    pub(crate) fn one(link: HeldLink<'a>) -> HeldLinks<'a> {
        HeldLinks {
            first: Some(link),
            second: None,
            named: 0,
        }
    }

    pub(crate) fn two(first: HeldLink<'a>, second: HeldLink<'a>) -> HeldLinks<'a> {
        HeldLinks {
            first: Some(first),
            second: Some(second),
            named: 0,
        }
    }
}

impl<'a> Links<HeldLink<'a>> for HeldLinks<'a> {
    fn next(&mut self) -> Next<HeldLink<'a>> {
        let link = match self.first.take() {
            Some(link) => Some(link),
            None => self.second.take(),
        };
        match link {
            Some(link) => Next::Link(link),
            None => Next::Closed,
        }
    }

    fn ready(&mut self) -> Option<u64> {
        let name = self.named;
        if name < 2 {
            self.named = name + 1;
            Some(name)
        } else {
            self.named = 0;
            None
        }
    }

    fn rest(&mut self) {}

    fn is_due(&self) -> bool {
        false
    }

    fn look(&mut self) {}
}

/// Serves one link at second 1000, and returns the caller.
pub(crate) fn serves<R: Wait, G: Gate>(
    rt: &R,
    alloc: Global,
    shared: &Shared<Fnv>,
    caller: Caller,
    link: HeldLink<'_>,
    gate: &G,
) -> (Caller, WorkEnd)
    requires { caller.table ≡ shared.now.table }
    ensures { result.0.table ≡ shared.now.table }
{
    let clock = Fixed(Moment::from_seconds_at_most(1000));
    let mut links = HeldLinks::one(link);
    work(rt, alloc, shared, caller, &mut links, gate, &clock)
}
