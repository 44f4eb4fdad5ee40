//! The tests, a module of each subject.

mod idle_tests;
mod io_stream_tests;
mod lines_tests;
mod quit_tests;
mod screen_tests;
mod session_tests;
mod tcp_tests;
mod telemetry_tests;
