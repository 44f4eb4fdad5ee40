//! Sizes: the classes of chunks, what a charge needs of them, and the settings of a store.
//!
//! A store's memory is handed out in pages of [`PAGE_SIZE`] bytes, each cut into chunks of one size.
//! Which sizes there are, and which of them holds a charge, is more than the slab's own matter: the
//! plain machine says by it when a write finds no room, a parser reserves memory by it, and an
//! operator sees it on the page of metrics. So the table is here, below all of them, without any
//! memory.
//!
//! A [`Class`] is one of 40 sizes, 96 bytes to a page ([`class_of`]), which grow by about a quarter.
//! That is memcached's scheme (doc/protocol.txt there, "Slab statistics"). A [`Need`] is a class and
//! the number of its chunks that hold a charge ([`need_of`]): one chunk up to a page, and two to
//! eight whole pages above. An [`Account`] is what was handed out of a class. An item's header has
//! [`HEADER_SIZE`] bytes. [`Settings`] are a limit of pages, a greatest charge and a number of
//! shelves, each in its range.
//!
//! Contracts see a class as its number, and a need as the class and the count. They state exactly
//! which class and which need a charge has, that it is the smallest, and which settings there are.
//! The law states the table of sizes.
//!
//! Begin with `specs/Classes.antt` and `src/class.rt`, then `src/need.rt`.
//!
//! Tests: mc_item_tests, src/slab_tests.rt.
#![tactic(auto)]

mod account;
mod block;
mod class;
mod laws;
mod need;
mod settings;

pub use account::Account;
pub use block::{BESIDE, HEADER_SIZE, LARGEST_BLOCK};
pub use class::{CLASSES, Class, LENT, PAGE_SIZE, class_of};
pub use laws::table_of_classes;
pub use need::{LARGEST_CHARGE, Need, need_of};
pub use settings::Settings;
