//! The phases of accepting connections.
ghost use Rattle.std.specs.Prelude.{◌≡◌};
ghost use Rattle.mc_sockets.specs.Phases.{phase_number, no_more_come, all_end, all_end_as_asked};

use std::sync::atomic::{AtomicU32, Ordering};

/// How far the program has gone with its connections.
#[derive(Clone, Copy)]
pub enum Phase {
    /// Connections are accepted.
    Open,
    /// The same, and the acceptors are asked to stop.
    Asked,
    /// No more connections are accepted, and open ones may end by themselves.
    Closing,
    /// All connections end, because that was asked for.
    Over,
    /// All connections end, because a listener failed.
    Failed,
}

impl Phase {
    /// Returns its number.
    fn number(self) -> u32
        ensures { result ≡ phase_number self }
    {
        self as u32
    }

    /// Returns the phase of this number; any above the last is that of a failed listener.
    fn of(number: u32) -> Phase
        ensures { (phase : Phase) → number ≡ phase_number phase → result ≡ phase }
    {
        match number {
            0 => Phase::Open,
            1 => Phase::Asked,
            2 => Phase::Closing,
            3 => Phase::Over,
            _ => Phase::Failed,
        }
    }

    /// Returns whether no more connections are accepted.
    pub fn is_closing(self) -> bool
        ensures { result ≡ no_more_come self }
    {
        match self {
            Phase::Open | Phase::Asked => false,
            Phase::Closing | Phase::Over | Phase::Failed => true,
        }
    }

    /// Returns whether no more connections are accepted, and all open ones end.
    pub fn is_over(self) -> bool
        ensures { result ≡ all_end self }
    {
        match self {
            Phase::Open | Phase::Asked | Phase::Closing => false,
            Phase::Over | Phase::Failed => true,
        }
    }

    /// Returns whether all connections end because that was asked for.
    pub fn is_over_as_asked(self) -> bool
        ensures { result ≡ all_end_as_asked self }
    {
        match self {
            Phase::Over => true,
            Phase::Open | Phase::Asked | Phase::Closing | Phase::Failed => false,
        }
    }
}

/// The phase, which threads share.
#[derive(Drop)]
pub struct SharedPhase {
    number: AtomicU32,
}

impl SharedPhase {
    /// Returns the first phase.
    pub fn new() -> SharedPhase {
        SharedPhase {
            number: AtomicU32::new(Phase::Open.number()),
        }
    }

    /// Returns the phase.
    pub fn get(&self) -> Phase {
        Phase::of(self.number.load(Ordering::SeqCst))
    }

    /// Sets the phase.
    pub fn set(&self, phase: Phase) {
        self.number.store(phase.number(), Ordering::SeqCst);
    }

    /// Changes the phase, and returns whether it was `from`.
    pub fn turn(&self, from: Phase, to: Phase) -> bool {
        let turned = self.number.compare_exchange(
            from.number(),
            to.number(),
            Ordering::SeqCst,
            Ordering::SeqCst,
        );
        turned.is_ok()
    }
}
