//! The tests, a module of each subject.

mod budget_tests;
mod door_tests;
mod gathering_tests;
mod leaving_tests;
mod visit_tests;
mod waiting_tests;
