//! The first turn of each kind of unit.

ghost use Rattle.std.specs.Prelude.{◌≡◌, ◌++◌, ◌^◌, ◌<◌, ℕ, List, IfOk, IfErr, IfSome, IsTrue, IsFalse, OnOk, OnErr, length};
ghost use Rattle.mc_protocol.specs.Commands.{steps, HasShortKeys};
ghost use Rattle.mc_protocol.specs.Commands.{Command};
ghost use Rattle.mc_parse.specs.Units.{Request, Fault, LongLine};
ghost use Rattle.mc_parse.specs.Peeks.{unit_of};
ghost use Rattle.mc_session.specs.Answers.{next_of, Tells, TakesFirst, DecidesFound};
ghost use Rattle.mc_parse.specs.Streams.{is_quit};
ghost use Rattle.mc_session.specs.Turns.{Answers, turn_count};
ghost use Rattle.mc_reply.specs.Texts.{fault_text, long_text, plain_text, spent_text};

use crate::after_turn::AfterTurn;
use crate::output::Outgoing;
use crate::session::TurnFault;
use crate::teller::{Asked, Teller};
use mc_parse::Peek;
use mc_protocol::{Command, LineFault, Steps, Unanswered, step_at, steps_of};
use mc_reply::Text;
use mc_time::Moment;
use std::alloc::Global;

/// Takes the first turn of a unit, and appends its text to the output.
///
/// It does nothing if there is no unit. After an error the output is unchanged, and `decided` is
/// whether the store took the step.
pub fn answer<S: Steps, O: Outgoing>(
    alloc: Global,
    found: &Peek<'_>,
    store: &mut S,
    now: Moment,
    out: &mut O,
) -> Result<Option<AfterTurn>, TurnFault>
    requires { (command : Command) (len : ℕ) → unit_of found.now ≡ Some (Request command, len) →
        HasShortKeys command }
    ensures none { result ≡ Ok None → (unit_of found.now ≡ None) × (out.new ≡ out.old)
        × (store.new ≡ store.old) }
    ensures some { IfOk result (λ told. IfSome told
        (λ next. Tells S.Steps now (unit_of found.now) next store.old store.new (O.bytes out.old)
        (O.bytes out.new))) }
    ensures err { OnErr result (out.new ≡ out.old) }
    ensures undecided { IfErr result (λ fault. IsFalse fault.decided →
        S.same store.old store.new) }
    ensures due { OnErr result (unit_of found.now ≡ None → ⊥) }
    ensures decided { IfErr result (λ fault. IsTrue fault.decided →
        DecidesFound S.Steps now (unit_of found.now) store.old store.new) }
{
    match found {
        Peek::More => Ok(None),
        Peek::TooLong => Ok(Some(answer_too_long(out)?)),
        Peek::Bad(fault, len) => Ok(Some(answer_fault(*fault, *len, out)?)),
        Peek::Whole(command, len) => {
            Ok(Some(answer_command(alloc, command, *len, store, now, out)?))
        }
    }
}

/// Appends the text of a line that is too long.
#[inline(never)]
fn answer_too_long<O: Outgoing>(out: &mut O) -> Result<AfterTurn, TurnFault>
    ensures ok { IfOk result (λ next. (next ≡ next_of LongLine 0 65537)
        × (O.bytes out.new ≡ O.bytes out.old ++ long_text)) }
    ensures err { OnErr result (out.new ≡ out.old) }
    ensures undecided { IfErr result (λ fault. IsFalse fault.decided) }
{
    out.append(&Text::TooLong)?;
    Ok(AfterTurn::Close)
}

/// Appends the text of a line's fault.
#[inline(never)]
fn answer_fault<O: Outgoing>(
    fault: LineFault,
    len: usize,
    out: &mut O,
) -> Result<AfterTurn, TurnFault>
    ensures ok { IfOk result (λ next. (next ≡ next_of (Fault fault) 0 len)
        × (O.bytes out.new ≡ O.bytes out.old ++ fault_text fault)) }
    ensures err { OnErr result (out.new ≡ out.old) }
    ensures undecided { IfErr result (λ fault. IsFalse fault.decided) }
{
    out.append(&Text::Flaw(fault))?;
    let passed = match fault {
        LineFault::TooLarge { passed } => passed,
        LineFault::Unknown | LineFault::BadFormat | LineFault::BadDelta | LineFault::BadChunk => 0,
    };
    Ok(AfterTurn::Read { len, passed })
}

/// Takes the first turn of a command of `len` bytes, and appends its text.
fn answer_command<S: Steps, O: Outgoing>(
    alloc: Global,
    command: &Command<'_>,
    len: usize,
    store: &mut S,
    now: Moment,
    out: &mut O,
) -> Result<AfterTurn, TurnFault>
    requires { HasShortKeys command.now }
    ensures ok { IfOk result (λ next. Tells S.Steps now (Some (Request command.now, len)) next
        store.old store.new (O.bytes out.old) (O.bytes out.new)) }
    ensures err { OnErr result (out.new ≡ out.old) }
    ensures undecided { IfErr result (λ fault. IsFalse fault.decided →
        S.same store.old store.new) }
    ensures decided { IfErr result (λ fault. IsTrue fault.decided →
        TakesFirst S.Steps now command.now store.old store.new) }
{
    if steps_of(command) == 0 {
        answer_plainly(command, out)?;
        return Ok(next_after(command, len));
    }
    answer_step(alloc, command, store, now, out)?;
    Ok(next_after(command, len))
}

/// Appends the text of a command that takes no step.
#[inline(never)]
fn answer_plainly<O: Outgoing>(command: &Command<'_>, out: &mut O) -> Result<(), TurnFault>
    requires { length (steps command.now) ≡ 0 }
    ensures ok { OnOk result (O.bytes out.new ≡ O.bytes out.old ++ plain_text command.now) }
    ensures err { OnErr result (out.new ≡ out.old) }
    ensures undecided { IfErr result (λ fault. IsFalse fault.decided) }
{
    Ok(out.append(&Text::Plain(command))?)
}

/// Returns what comes after the first turn of a command of `len` bytes.
fn next_after(command: &Command<'_>, len: usize) -> AfterTurn
    ensures next { result ≡ next_of (Request command.now) 0 len }
    ensures few { turn_count (Request command.now) < 2 ^ 64 }
{
    let steps = steps_of(command);
    if is_quit(command) {
        AfterTurn::Close
    } else if steps <= 1 {
        AfterTurn::Read { len, passed: 0 }
    } else {
        AfterTurn::Step
    }
}

/// Returns whether a command ends its stream.
fn is_quit(command: &Command<'_>) -> bool
    ensures { result ≡ is_quit command.now }
{
    match command {
        Command::Lone(lone) => lone.closes(),
        _ => false,
    }
}

/// Takes the first step of a command, and appends the text of its reply.
fn answer_step<S: Steps, O: Outgoing>(
    alloc: Global,
    command: &Command<'_>,
    store: &mut S,
    now: Moment,
    out: &mut O,
) -> Result<(), TurnFault>
    requires steps { 0 < length (steps command.now) }
    requires keys { HasShortKeys command.now }
    ensures ok { OnOk result ((text : List ℕ) × (O.bytes out.new ≡ O.bytes out.old ++ text)
        × Answers S.Steps (Request command.now) 0 now store.old store.new text) }
    ensures err { OnErr result (out.new ≡ out.old) }
    ensures undecided { IfErr result (λ fault. IsFalse fault.decided →
        S.same store.old store.new) }
    ensures decided { IfErr result (λ fault. IsTrue fault.decided →
        TakesFirst S.Steps now command.now store.old store.new) }
{
    let asked = Asked { command };
    let mut teller = Teller {
        alloc,
        asked: &asked,
        out,
    };
    match store.step_telling(alloc, &step_at(command, 0), now, &mut teller) {
        Ok(()) => Ok(()),
        Err(Unanswered::NumbersSpent) => answer_spent(command, out),
        Err(Unanswered::NoMemory) => Err(TurnFault { decided: false }),
        Err(Unanswered::Untold) => Err(TurnFault { decided: true }),
    }
}

/// Appends the text of a command whose step was refused, as no number is left for an item.
#[inline(never)]
fn answer_spent<O: Outgoing>(command: &Command<'_>, out: &mut O) -> Result<(), TurnFault>
    requires { 0 < length (steps command.now) }
    ensures ok { OnOk result (O.bytes out.new ≡ O.bytes out.old ++ spent_text command.now) }
    ensures err { OnErr result (out.new ≡ out.old) }
    ensures undecided { IfErr result (λ fault. IsFalse fault.decided) }
{
    Ok(out.append(&Text::Spent(command))?)
}
