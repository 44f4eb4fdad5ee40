//! The tests, a module of each subject.

mod displace_tests;
mod growth_tests;
mod hash_tests;
mod hop_tests;
mod index_tests;
mod lag_tests;
mod random_tests;
mod stray_tests;
mod stream_tests;
