//! Which counter a step raises.
ghost use Rattle.std.specs.Prelude.{◌≡◌};
ghost use Rattle.mc_telemetry.specs.Counting.{badval_of, counted_as, ways_of};

use mc_links::Outcome;
use mc_metrics::Counted;
use mc_protocol::{KeyStep, StepKind};

/// Returns the counter of a step with this outcome. A step that was too large has none, because it
/// is counted when it is answered. A step on an item that is no number has none either.
pub fn counted_as(step: &KeyStep<'_>, outcome: Outcome) -> Option<Counted>
    ensures { result ≡ counted_as step.now outcome }
{
    match outcome {
        Outcome::Hit
        | Outcome::Stored
        | Outcome::Touched
        | Outcome::Deleted
        | Outcome::Number
        | Outcome::Flushed => Some(ways_of(step.kind()).0),
        Outcome::Miss | Outcome::NotFound | Outcome::NotStored => Some(ways_of(step.kind()).1),
        Outcome::Exists => badval_of(step.kind()),
        Outcome::NoChunk => Some(Counted::Refused),
        Outcome::NotNumeric | Outcome::TooLarge => None,
    }
}

/// Returns the counter of a step that did what it asked for, and that of one that found no item, or
/// one in its way. A flush is never in vain.
fn ways_of(kind: StepKind) -> (Counted, Counted)
    ensures { result ≡ ways_of kind }
{
    match kind {
        StepKind::Set => (Counted::SetStored, Counted::SetNotStored),
        StepKind::Cas => (Counted::CasHit, Counted::CasMiss),
        StepKind::Get => (Counted::GetHit, Counted::GetMiss),
        StepKind::Touch => (Counted::TouchHit, Counted::TouchMiss),
        StepKind::Delete => (Counted::DeleteHit, Counted::DeleteMiss),
        StepKind::Incr => (Counted::IncrHit, Counted::IncrMiss),
        StepKind::Decr => (Counted::DecrHit, Counted::DecrMiss),
        StepKind::Flush => (Counted::Flush, Counted::Flush),
    }
}

/// Returns the counter of a step that found its item changed. Only a cas has one.
fn badval_of(kind: StepKind) -> Option<Counted>
    ensures { result ≡ badval_of kind }
{
    match kind {
        StepKind::Cas => Some(Counted::CasBadval),
        StepKind::Set
        | StepKind::Get
        | StepKind::Touch
        | StepKind::Delete
        | StepKind::Incr
        | StepKind::Decr
        | StepKind::Flush => None,
    }
}
