//! Where chunks are: behind a thin pointer whose tag is the class.
//!
//! A chunk takes 16 bytes of memory: an enum whose variant is the class and which holds a thin
//! pointer, below class 27 to an array of that class's length, else to a block with its head. A
//! slice would take 24 bytes. The class is read from the tag alone, and a chunk's length from the
//! table of sizes and not from its variant, because match arms that differ in a constant compile to
//! a jump table. A chunk is written by `write_at` and lends no mutable slice: a method that lends
//! one isn't proved if its length is an invariant.

ghost use Rattle.std.specs.Prelude.{◌≡◌, ◌+◌, ◌-◌, ◌<◌, ◌≤◌, length, take, drop, IfSome, IsTrue, IsFalse};
ghost use Rattle.mc_slab.specs.Chunks.{AreChunks, IsFirst, IsHead, TakesOver, chunk_at, need_in};
ghost use Rattle.mc_slab.specs.Chunks.{one_chunk, with_part, written_cut};
ghost use Rattle.mc_slab.specs.Classes.{size_of};
ghost use Rattle.mc_slab.specs.Helds.{chunks_in};

use crate::lone::LoneChunk;
use crate::page_chain::PageChain;
use mc_bytes::{Large, Lent};
use mc_sizes::{CLASSES, Class, LENT, Need, each_class};
use std::sync::Arc;

/// One chunk of a class below the last, or the chunks of the last class.
///
/// From class 27 on a chunk can be lent, and is memory of its own. `each_class!` has the same
/// variants and sizes. They stand here again, because no macro may write a type.
#[derive(Drop)]
pub(crate) enum Held {
    C1(&'static mut [u8; 96]),
    C2(&'static mut [u8; 120]),
    C3(&'static mut [u8; 152]),
    C4(&'static mut [u8; 192]),
    C5(&'static mut [u8; 240]),
    C6(&'static mut [u8; 304]),
    C7(&'static mut [u8; 384]),
    C8(&'static mut [u8; 480]),
    C9(&'static mut [u8; 600]),
    C10(&'static mut [u8; 752]),
    C11(&'static mut [u8; 944]),
    C12(&'static mut [u8; 1184]),
    C13(&'static mut [u8; 1480]),
    C14(&'static mut [u8; 1856]),
    C15(&'static mut [u8; 2320]),
    C16(&'static mut [u8; 2904]),
    C17(&'static mut [u8; 3632]),
    C18(&'static mut [u8; 4544]),
    C19(&'static mut [u8; 5680]),
    C20(&'static mut [u8; 7104]),
    C21(&'static mut [u8; 8880]),
    C22(&'static mut [u8; 11104]),
    C23(&'static mut [u8; 13880]),
    C24(&'static mut [u8; 17352]),
    C25(&'static mut [u8; 21696]),
    C26(&'static mut [u8; 27120]),
    C27(Box<LoneChunk>),
    C28(Box<LoneChunk>),
    C29(Box<LoneChunk>),
    C30(Box<LoneChunk>),
    C31(Box<LoneChunk>),
    C32(Box<LoneChunk>),
    C33(Box<LoneChunk>),
    C34(Box<LoneChunk>),
    C35(Box<LoneChunk>),
    C36(Box<LoneChunk>),
    C37(Box<LoneChunk>),
    C38(Box<LoneChunk>),
    C39(Box<LoneChunk>),
    Sheets(Box<PageChain>),
}

/// Matches on where chunks lie. Each arm gives the class.
macro_rules! match_class {
    ($held:ident $($number:literal $variant:ident $size:literal,)*) => {
        match $held {
            $(Held::$variant(_) => Class::of($number),)*
            Held::Sheets(_) => Class::of(CLASSES),
        }
    };
}

/// Matches on where one chunk of some classes lies. They share one arm, which sees the pointer.
macro_rules! match_one {
    ($held:ident { $one:ident => $then:expr, $others:pat => $else:expr, }
        $($number:literal $variant:ident $size:literal,)*) => {
        match $held {
            $(Held::$variant($one) => $then,)*
            $others => $else,
        }
    };
}

/// Matches on where chunks lie that can be lent. Lone ones share one arm.
macro_rules! match_lent {
    ($held:ident { $lone:ident => $one:expr, $sheet:ident => $last:expr, }
        $($number:literal $variant:ident $size:literal,)*) => {
        match $held {
            $(Held::$variant($lone) => $one,)*
            Held::Sheets($sheet) => $last,
            _ => unreachable!(),
        }
    };
}

/// Matches on the class of one chunk. Each arm gives where it lies, with the same pointer.
macro_rules! of_class {
    ($class:ident ($pointer:expr) $($number:literal $variant:ident $size:literal,)*) => {
        match $class.number() {
            $($number => Held::$variant($pointer),)*
            _ => unreachable!(),
        }
    };
}

/// Returns their class.
pub(crate) fn class(held: &Held) -> Class
    ensures { result ≡ (chunks_in held.now).class }
{
    each_class!(all match_class! held)
}

/// Returns the need that they serve.
pub(crate) fn need(held: &Held) -> Need
    requires { AreChunks (chunks_in held.now) }
    ensures { result ≡ need_in (chunks_in held.now) }
{
    let class = class(held);
    if class.number() < CLASSES {
        Need::one(class)
    } else {
        Need::pages(sheet(held).count())
    }
}

/// Lends the bytes of the first chunk, as many as the class's size.
pub(crate) fn first(held: &Held) -> &[u8]
    requires { AreChunks (chunks_in held.now) }
    ensures { result.now
        ≡ take (size_of (chunks_in held.now).class) (chunks_in held.now).bytes }
{
    // The length is read from the table of sizes. Matching on the variants alone would compile to a
    // jump with 40 targets.
    &whole(held)[..class(held).size() as usize]
}

/// Lends the bytes of the first chunk.
fn whole(held: &Held) -> &[u8]
    requires { 1 ≤ (chunks_in held.now).count }
    ensures { IsFirst (chunks_in held.now) result.now }
{
    if class(held).number() < LENT {
        cut_bytes(held)
    } else {
        lent_bytes(held)
    }
}

/// Lends the bytes of a chunk of a class below 27.
fn cut_bytes(held: &Held) -> &[u8]
    requires { (chunks_in held.now).class < 27 }
    ensures { result.now ≡ (chunks_in held.now).bytes }
{
    each_class!(cut match_one! held { bytes => &bytes[..], _ => unreachable!(), })
}

/// Lends the bytes of the first chunk of a class from 27 on.
#[inline(never)]
fn lent_bytes(held: &Held) -> &[u8]
    requires class { 27 ≤ (chunks_in held.now).class }
    requires some { 1 ≤ (chunks_in held.now).count }
    ensures { IsFirst (chunks_in held.now) result.now }
{
    each_class!(lent match_lent! held {
        lone => lone.bytes(),
        sheet => sheet.first(),
    })
}

/// Lends the bytes of the head.
pub(crate) fn head(held: &Held) -> &[u8]
    requires { AreChunks (chunks_in held.now) }
    ensures { result.now ≡ (chunks_in held.now).head }
{
    let class = class(held);
    if class.number() >= LENT {
        return lent_head(held);
    }
    // The length is read from the table of sizes, as in `first`.
    &cut_bytes(held)[..class.size() as usize]
}

/// Lends the bytes of the head of chunks that can be lent.
#[inline(never)]
fn lent_head(held: &Held) -> &[u8]
    requires { 27 ≤ (chunks_in held.now).class }
    ensures { result.now ≡ (chunks_in held.now).head }
{
    each_class!(lent match_lent! held {
        lone => lone.head(),
        sheet => sheet.head(),
    })
}

/// Lends bytes of the chunk at a place, the first at 0, for as long as the result is there.
///
/// `None` for a class below 27, and for memory that can't be lent.
pub(crate) fn lend(held: &Held, at: usize, from: usize, to: usize) -> Option<Lent>
    requires are { AreChunks (chunks_in held.now) }
    requires place { at < (chunks_in held.now).count }
    requires order { from ≤ to }
    requires within { to ≤ size_of (chunks_in held.now).class }
    ensures { IfSome result (λ lent. lent
        ≡ take (to - from) (drop from (chunk_at (chunks_in held.now) at))) }
{
    let class = class(held).number();
    if class < LENT {
        return None;
    }
    if class < CLASSES {
        lone(held).lend(from, to)
    } else {
        sheet(held).lend(at, from, to)
    }
}

/// Copies `part` to the place `at` of the bytes, counted over all chunks.
///
/// The other bytes are unchanged, and so is the head from class 27 on.
pub(crate) fn write_at(held: &mut Held, at: usize, part: &[u8])
    requires { at + length part.now ≤ length (chunks_in held.old).bytes }
    ensures cut { (chunks_in held.old).class < 27
        → chunks_in held.new ≡ written_cut (chunks_in held.old) at part.now }
    ensures lent { 27 ≤ (chunks_in held.old).class
        → chunks_in held.new ≡ record (chunks_in held.old) {
          bytes = with_part (chunks_in held.old).bytes at part.now;
        } }
{
    if class(held).number() < LENT {
        return write_cut(held, at, part);
    }
    write_lent(held, at, part);
}

/// Copies `part` to the place `at` of the head.
///
/// Its other bytes are unchanged, and so are those of the chunks from class 27 on.
pub(crate) fn write_head(held: &mut Held, at: usize, part: &[u8])
    requires head { IsHead (chunks_in held.old) }
    requires room { at + length part.now ≤ length (chunks_in held.old).head }
    ensures cut { (chunks_in held.old).class < 27
        → chunks_in held.new ≡ written_cut (chunks_in held.old) at part.now }
    ensures lent { 27 ≤ (chunks_in held.old).class
        → chunks_in held.new ≡ record (chunks_in held.old) {
          head = with_part (chunks_in held.old).head at part.now;
        } }
{
    if class(held).number() >= LENT {
        return write_lent_head(held, at, part);
    }
    write_cut(held, at, part);
}

/// Takes the memory of a part over as that of the chunk: its bytes begin with the part's.
///
/// `false` if it doesn't, as below class 27 and for memory of more than `most` bytes, and nothing
/// changed.
pub(crate) fn take_over(held: &mut Held, part: &Lent, most: usize) -> bool
    requires { length part.now ≤ length (chunks_in held.old).bytes }
    ensures taken { IsTrue result
        → TakesOver (chunks_in held.old) part.now (chunks_in held.new) }
    ensures kept { IsFalse result → chunks_in held.new ≡ chunks_in held.old }
{
    if class(held).number() < LENT {
        return false;
    }
    take_over_lent(held, part, most)
}

/// Has chunks of the last class whose bytes are pieces of one memory lie in blank memory.
pub(crate) fn give_up(held: &mut Held, blank: &Arc<Large>)
    ensures size { length (chunks_in held.new).bytes ≡ length (chunks_in held.old).bytes }
    ensures same { chunks_in held.new
        ≡ record (chunks_in held.old) { bytes = (chunks_in held.new).bytes } }
{
    match held {
        Held::Sheets(sheet) => sheet.give_up(blank),
        _ => {}
    }
}

/// Copies `part` to the place `at` of a chunk of a class below 27.
#[inline]
fn write_cut(held: &mut Held, at: usize, part: &[u8])
    requires class { (chunks_in held.old).class < 27 }
    requires room { at + length part.now ≤ length (chunks_in held.old).bytes }
    ensures { chunks_in held.new ≡ written_cut (chunks_in held.old) at part.now }
{
    each_class!(cut match_one! held {
        bytes => write_part(&mut bytes[..], at, part),
        _ => unreachable!(),
    })
}

/// Copies `part` to the place `at` of the bytes of chunks that can be lent.
#[inline(never)]
fn write_lent(held: &mut Held, at: usize, part: &[u8])
    requires class { 27 ≤ (chunks_in held.old).class }
    requires room { at + length part.now ≤ length (chunks_in held.old).bytes }
    ensures { chunks_in held.new ≡ record (chunks_in held.old) {
      bytes = with_part (chunks_in held.old).bytes at part.now;
    } }
{
    each_class!(lent match_lent! held {
        lone => lone.write_at(at, part),
        sheet => sheet.write_at(at, part),
    })
}

/// Takes the memory of a part over as that of a chunk that can be lent, and returns whether it did.
#[inline(never)]
fn take_over_lent(held: &mut Held, part: &Lent, most: usize) -> bool
    requires class { 27 ≤ (chunks_in held.old).class }
    requires room { length part.now ≤ length (chunks_in held.old).bytes }
    ensures taken { IsTrue result
        → TakesOver (chunks_in held.old) part.now (chunks_in held.new) }
    ensures kept { IsFalse result → chunks_in held.new ≡ chunks_in held.old }
{
    each_class!(lent match_lent! held {
        lone => lone.take_over(part, most),
        sheet => sheet.take_over(part, most),
    })
}

/// Copies `part` to the place `at` of the head of chunks that can be lent.
#[inline(never)]
fn write_lent_head(held: &mut Held, at: usize, part: &[u8])
    requires class { 27 ≤ (chunks_in held.old).class }
    requires room { at + length part.now ≤ length (chunks_in held.old).head }
    ensures { chunks_in held.new ≡ record (chunks_in held.old) {
      head = with_part (chunks_in held.old).head at part.now;
    } }
{
    each_class!(lent match_lent! held {
        lone => lone.write_head(at, part),
        sheet => sheet.write_head(at, part),
    })
}

/// Copies `part` to the place `at` of `bytes`.
pub(crate) fn write_part(bytes: &mut [u8], at: usize, part: &[u8])
    requires { at + length part.now ≤ length bytes.old }
    ensures { bytes.new ≡ with_part bytes.old at part.now }
{
    copy(&mut bytes[at..at + part.len()], part);
}

/// Copies `part` over `bytes`, which are equally many.
///
/// It is a function of its own so that the compiler sees that each variant is written alike, and
/// makes no jump with 40 targets.
#[inline(never)]
fn copy(bytes: &mut [u8], part: &[u8])
    requires { length part.now ≡ length bytes.old }
    ensures { bytes.new ≡ part.now }
{
    bytes.copy_from_slice(part);
}

/// Lends the memory of a chunk of a class from 27 to 39.
fn lone(held: &Held) -> &LoneChunk
    requires { (27 ≤ (chunks_in held.now).class) × ((chunks_in held.now).class < 40) }
    ensures { result.now.bytes ≡ (chunks_in held.now).bytes }
{
    each_class!(lent match_one! held { lone => lone, _ => unreachable!(), })
}

/// Returns where a chunk of a class below 27 lies whose bytes are given.
#[tactic(auto, using(mc_sizes::proofs::ClassLemmas::sizes))]
pub(crate) fn of_bytes(class: Class, bytes: &'static mut [u8]) -> Held
    requires class { class < 27 }
    requires size { length bytes.old ≡ size_of class }
    ensures { chunks_in result ≡ one_chunk class bytes.entry.now bytes.entry.now }
{
    each_class!(cut of_class! class (array_of(bytes)))
}

/// Returns `N` bytes as an array.
fn array_of<const N: usize>(bytes: &'static mut [u8]) -> &'static mut [u8; N]
    requires { length bytes.old ≡ N }
    ensures { result.now ≡ bytes.entry.now }
{
    let (array, _) = bytes.split_first_chunk_mut::<N>().unwrap();
    array
}

/// Returns where a chunk of a class from 27 to 39 lies whose memory is given.
pub(crate) fn of_lone(class: Class, lone: Box<LoneChunk>) -> Held
    requires { (27 ≤ class) × (class < 40) }
    ensures { chunks_in result ≡ one_chunk class lone.value.bytes lone.value.head }
{
    each_class!(lent of_class! class (lone))
}

/// Lends the sheet of chunks of the last class.
pub(crate) fn sheet(held: &Held) -> &PageChain
    requires { (chunks_in held.now).class ≡ 40 }
    ensures { (result.now.0 ≡ (chunks_in held.now).count)
        × (result.now.1.0 ≡ (chunks_in held.now).bytes) }
{
    match held {
        Held::Sheets(sheet) => sheet,
        _ => unreachable!(),
    }
}

/// Returns the sheet of chunks of the last class.
pub(crate) fn into_sheet(held: Held) -> Box<PageChain>
    requires { (chunks_in held).class ≡ 40 }
    ensures { (result.value.0 ≡ (chunks_in held.entry).count)
        × (result.value.1.0 ≡ (chunks_in held.entry).bytes)
        × (result.value.1.1 ≡ (chunks_in held.entry).head) }
{
    match held {
        Held::Sheets(sheet) => sheet,
        _ => unreachable!(),
    }
}
