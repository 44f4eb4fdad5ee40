//! Laws of readiness, each the contract of a function that does nothing.

ghost use Rattle.std.specs.Prelude.{◌≡◌, ◌⊎◌, ℕ, true};
ghost use Rattle.mc_time.specs.Chains.{Repeats};
ghost use Rattle.mc_sockets.specs.declared.readiness.Readiness.{Readiness};
ghost use Rattle.mc_sockets.specs.declared.readiness.Report.{Report};
ghost use Rattle.mc_sockets.specs.declared.stream.NoBytes.TheVariants.{WouldBlock};
ghost use Rattle.mc_sockets.specs.declared.stream.Received.TheVariants as received;
ghost use Rattle.mc_sockets.specs.Readiness.{Happening, Read, Reported, after, names};
ghost use Rattle.mc_sockets.specs.Wakeups.{Watched, Step, MissesNothing, IsCall};

/// States that no wake-up is lost, and that only links that wait are named.
///
/// The system watches connections edge-triggered: a change is owed a report, and what didn't change
/// may never be reported again. After any steps of a connection from its registration, whose first
/// report is owed, a report is owed where its link would answer `Later` although there is input or
/// room. The next report names each link that waits. A link that answered `Later` waits until it is
/// named or called, and no other is named.
#[tactic(auto, using(crate::proofs::WakeupLemmas::wakeups))]
pub fn no_wake_up_is_lost()
    ensures owed { (count : ℕ) (first last : Watched) → first.owed ≡ true →
        Repeats Step count first last → MissesNothing last }
    ensures later { (known : Readiness) (piece : ℕ) →
        (after known (Read (received.Hindered WouldBlock) piece)).waits ≡ true }
    ensures waits { (known : Readiness) (happening : Happening) → known.waits ≡ true →
        (IsCall happening → ⊥) →
        ((after known happening).waits ≡ true) ⊎ (names known happening ≡ true) }
    ensures named { (known : Readiness) (report : Report) → known.waits ≡ true →
        names known (Reported report) ≡ true }
    ensures alone { (known : Readiness) (happening : Happening) →
        names known happening ≡ true → known.waits ≡ true }
{}
