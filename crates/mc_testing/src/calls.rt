//! How the calls of links in memory end.

use std::marker::Model;

/// How a call of a link ends.
#[derive(Clone, Copy, Debug, PartialEq, Eq)]
pub enum Call {
    Fails,
    /// The failures can't be counted any more.
    GivesNone,
    /// No bytes are passed.
    IsEmpty,
    /// One byte is passed, if there is one.
    GoesOn,
}

/// The calls of a link; every other one is empty. Contracts see how many failed.
#[derive(Drop)]
pub struct Calls {
    /// In how many calls from now one fails; at 0 none does.
    until_fault: u64,
    faults: u64,
    was_empty: bool,
}

impl Model for Calls {
    ghost use Rattle.std.specs.Prelude.{ℕ};

    ghost Value = { ℕ };

    ghost view = { λ c. c.faults };
}

impl Calls {
    ghost use Rattle.std.specs.Prelude.{◌≡◌, ◌+◌, ◌-◌, ◌^◌};

    /// Returns calls of which call number `call` fails, counted from 1; with 0 none does.
    pub fn failing_at(call: u64) -> Calls
        ensures { result ≡ 0 }
    {
        Calls {
            until_fault: call,
            faults: 0,
            was_empty: false,
        }
    }

    /// Returns how many calls failed.
    pub fn faults(&self) -> u64
        ensures { result ≡ self.now }
    {
        self.faults
    }

    /// Returns how the next call ends.
    pub fn next(&mut self) -> Call
        ensures full { self.old ≡ 2 ^ 64 - 1 → result ≡ Call.GivesNone }
        ensures fails { result ≡ Call.Fails → self.new ≡ self.old + 1 }
        ensures none { result ≡ Call.GivesNone → self.new ≡ self.old }
        ensures empty { result ≡ Call.IsEmpty → self.new ≡ self.old }
        ensures goes { result ≡ Call.GoesOn → self.new ≡ self.old }
    {
        if self.faults == u64::MAX {
            return Call::GivesNone;
        }
        if self.until_fault == 1 {
            self.until_fault = 0;
            self.faults += 1;
            return Call::Fails;
        }
        self.until_fault = self.until_fault.saturating_sub(1);
        self.was_empty = !self.was_empty;
        if self.was_empty {
            Call::GoesOn
        } else {
            Call::IsEmpty
        }
    }
}
