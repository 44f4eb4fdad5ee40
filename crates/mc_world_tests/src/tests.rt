//! The tests, a module of each subject, and what they share.

mod acts;
mod event_tests;
mod growth_tests;
mod hostile_tests;
mod keys;
mod large_tests;
mod refusal_tests;
mod room_tests;
mod runs;
mod serving_tests;
mod set_ups;
mod texts;
mod through_tests;
mod told;
