//! Slab classes, and the pages and chunks that a store's memory is handed out in.
//!
//! A store has a limit of pages, and must report exactly when it is full. With the system's
//! allocator it couldn't: the allocator reports neither its overhead for a block nor the unused
//! memory between blocks. So memory comes in pages of [`PAGE_SIZE`] bytes. Each page goes to one
//! class of chunks and stays with it, and a charge gets a chunk of the smallest class that holds
//! it. That is memcached's scheme (doc/protocol.txt there, "Slab statistics"), with sizes that grow
//! by about a quarter. A charge above a page gets two to eight whole pages.
//!
//! A [`Class`] is one of 40 sizes, 96 bytes to a page ([`class_of`]). A [`Need`] is a class and the
//! number of its chunks that hold a charge ([`need_of`]). A [`Slab`] counts the pages that are
//! left, and keeps for each class the free chunks and the memory that isn't cut yet. [`Chunks`] are
//! what is taken and given back: they are moved and never copied. A part of a chunk of class 27 to
//! 40, of 33904 bytes and more, can be lent beyond a borrow ([`Chunks::lend`]): the reader keeps
//! its bytes, and a write meanwhile goes to a copy of the chunk. Such a chunk can also take over
//! memory that a block was read into, and leave its own ([`Chunks::take_over`]). An item's header
//! and key stand in the head of its chunks ([`Chunks::head`]), which from class 27 on is memory
//! beside the chunk and isn't lent. [`Pages`] are memory that is allocated before a slab is at
//! hand, so that a thread holds a shared slab only briefly.
//!
//! Contracts see a slab as its limit of pages and, for each class, its pages and the chunks that
//! are out. `take_all` fails as full exactly if the unused chunks and those of the pages left are
//! too few. It allocates only for pages, and an error changes nothing. The laws state that no class
//! is given more pages than a need wants.
//!
//! Begin with `specs/Slabs.antt` and `src/slab.rt`; the table of sizes is in `mc_sizes`.
//!
//! Tests: mc_item_tests, src/slab_tests.rt.
#![tactic(auto)]

mod block;
mod chunks;
mod class_pages;
mod head;
mod held;
mod laws;
mod lone;
mod page_chain;
mod run;
mod slab;
mod whole;

pub use chunks::Chunks;
pub use laws::{ready_is_enough, wanted_pages_are_least};
pub use mc_sizes::{
    Account, BESIDE, Class, HEADER_SIZE, LARGEST_BLOCK, LARGEST_CHARGE, Need, PAGE_SIZE, class_of,
    need_of, table_of_classes,
};
pub use run::Pages;
pub use slab::{Slab, TakeFault};
