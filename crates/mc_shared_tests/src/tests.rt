//! The tests, a module of each subject.

mod absent_tests;
mod busy_tests;
mod closing_tests;
mod flush_tests;
mod gate_tests;
mod growth_tests;
mod join_tests;
mod law_tests;
mod lent_tests;
mod note_tests;
mod presence_tests;
mod step_tests;
mod survey_tests;
mod telling_tests;
mod thread_tests;
