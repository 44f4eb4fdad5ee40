//! The program's listeners, its clock, its limits, the client of `--quit`, and how it ends.
//!
//! A start mostly fails because of the machine: a port is taken, an address isn't its own, there
//! are too few descriptors, or no memory. Each of these ends the program with a status and a line
//! with what to do about it, the same in every run. So listeners, clock and descriptors are here,
//! beside the table of ends; serving connections is in `mc_server`.
//!
//! An [`End`] is how the program ends, with its status and its text (`End::ending`). A
//! [`ListenFault`] is the endpoint at which it can't listen, and the [`ListenFaultKind`].
//! [`bound_all`] binds the [`Listeners`], one for each endpoint; [`bind_needed`] leaves out 0.0.0.0
//! if `::` at the same port accepts IPv4, too. [`sockets_of`] returns streams of them, whose
//! shutdown wakes the threads that accept. [`look_for_descriptors`] checks that there are enough to
//! begin with. A [`ScrapeListener`] is a listener for scrapes. [`AskedClock`] is the clock of the
//! command line: it stands at `--now`, or is the system's. [`Diagnostics`] is standard error, with
//! the [`Level`] of each line in the journal of systemd. [`ask_server`] is the client of `--quit`:
//! [`ask_to_end`] over a socket. [`has_small_stack`] reads the limit of the stack.
//!
//! Contracts state each end's status and text exactly, which end follows from the command line and
//! from a served session, that there is a listener for each endpoint that needs one, and which ends
//! a failure may have; what `--quit` sends, and which answers accept. No contract states what the
//! system does with a listener.
//!
//! Begin with `specs/Ends.antt` and `src/end.rt`, then `src/binding.rt`.
//!
//! Tests: mc_server_tests, src/tests/session_tests.rt.
#![tactic(auto)]

mod binding;
mod clock;
mod covers;
mod descriptors;
mod diagnostics;
mod door;
mod end;
mod quit;
mod stack;

pub use binding::{Listeners, Wanting, bind_listener, bound_all, look_for_descriptors, sockets_of};
pub use clock::AskedClock;
pub use covers::bind_needed;
pub use descriptors::most_descriptors;
pub use diagnostics::{Diagnostics, Level};
pub use door::{ScrapeListener, open_door};
pub use end::{End, ListenFault, ListenFaultKind, QuitFault, QuitFaultKind, ending};
pub use quit::{ask_server, ask_to_end};
pub use stack::has_small_stack;
