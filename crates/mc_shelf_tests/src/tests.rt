//! The tests, a module of each subject.

mod aside_tests;
mod compare_tests;
mod lag_tests;
mod number_tests;
mod overwrite_tests;
mod paged_tests;
mod settings_tests;
mod store_tests;
