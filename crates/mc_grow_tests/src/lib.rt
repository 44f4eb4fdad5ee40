//! The tests of `mc_hop`, `mc_displace`, `mc_grow` and `mc_testing`.
//!
//! A crate that has tests is proved twice, without them and with them. So these have a crate of
//! their own, and the libraries, which many crates need, are proved once.
//!
//! A test is a module of what it tests: hashes of keys and a table of marks (`mc_hop`), a bucket
//! that is brought near (`mc_displace`), an index that grows, lags and is searched in all its parts
//! (`mc_grow`), and streams (`mc_testing`). What tests of an index share is `src/marked.rt`.
#![tactic(auto)]

mod marked;
#[cfg(test)]
mod tests;
