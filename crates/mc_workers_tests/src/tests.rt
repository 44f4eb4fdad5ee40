//! The tests, a module of each subject, and what they share.

mod counting_tests;
mod gate_tests;
mod serving;
mod tidying_tests;
mod worker_tests;
