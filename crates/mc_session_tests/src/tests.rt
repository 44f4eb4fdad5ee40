//! The tests, a module of each subject.

mod hit_tests;
mod lent_tests;
mod parse_line_tests;
mod parse_tests;
mod plain_tests;
mod reply_tests;
mod rows_tests;
mod session_tests;
mod spares_tests;
