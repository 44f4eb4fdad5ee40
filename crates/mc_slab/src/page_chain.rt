//! A chunk of a page's size, and the chunks that are linked behind it.

ghost use Rattle.std.specs.Prelude.{◌≡◌, ◌+◌, ◌-◌, ◌*◌, ◌<◌, ◌≤◌, ◌++◌, length, take, drop, IfOk, IfSome, IsTrue, IsFalse};
ghost use Rattle.mc_slab.specs.Chunks.{with_part};
ghost use Rattle.mc_slab.specs.Classes.{page_size};
ghost use Rattle.mc_slab.specs.PageChains.{sheets_in};

use crate::head::HeadBytes;
use crate::whole::{WHOLE, Whole};
use mc_bytes::{Large, Lent};
use std::alloc::{AllocError, Global};
use std::marker::Model;
use std::mem;
use std::sync::Arc;

/// A chunk of a page's size, and the chunks that are linked behind it.
///
/// Its box is allocated with the chunk, so that linking takes no memory. Contracts see the number
/// of chunks, their bytes one after another, and the head of the first.
#[cycle(page_chain)]
#[derive(Drop)]
pub(crate) struct PageChain {
    head: HeadBytes,
    node: Node,
}

/// The content of a sheet.
#[cycle(page_chain)]
#[derive(Drop)]
enum Node {
    Last(Whole),
    Before(Whole, Box<PageChain>),
    /// The chunk was moved out for a moment.
    Hollow,
}

impl Model for PageChain {
    ghost use Rattle.std.specs.Prelude.{ℕ, List};

    ghost Value = { ℕ × (List ℕ × List ℕ) };

    ghost use Rattle.mc_slab.specs.PageChains.{sheets_in};

    ghost view = { λ s. ((sheets_in s.node).0, ((sheets_in s.node).1, s.head)) };

    ghost size = { λ s. s.0 };

    ghost use Rattle.std.proofs.Common.{arith};

    ghost size_decreases = { λ a h. Prim.grind (arith) };
}

impl PageChain {
    /// Allocates one sheet of zeros in its box. The only error is a refused allocation.
    pub(crate) fn new(alloc: Global) -> Result<Box<PageChain>, AllocError>
        ensures { IfOk result (λ sheet. (sheet.value.0 ≡ 1)
            × (length sheet.value.1.0 ≡ page_size) × (length sheet.value.1.1 ≡ 304)) }
    {
        let sheet = PageChain {
            head: HeadBytes::new(),
            node: Node::Last(Whole::new(alloc)?),
        };
        Ok(Box::new(alloc, sheet)?)
    }

    /// Lends the bytes of the head.
    pub(crate) fn head(&self) -> &[u8]
        ensures { result.now ≡ self.now.1.1 }
    {
        self.head.bytes()
    }

    /// States that its head has 304 bytes. It does nothing.
    pub(crate) fn has_head(&self)
        ensures { length self.now.1.1 ≡ 304 }
    {
        self.head.is_head();
    }

    /// Returns the number of chunks.
    #[inline(never)]
    pub(crate) fn count(&self) -> u8
        requires { self.now.0 ≤ 8 }
        ensures { result ≡ self.now.0 }
    {
        match &self.node {
            Node::Last(_) => 1,
            Node::Before(_, behind) => 1 + behind.count(),
            Node::Hollow => 0,
        }
    }

    /// Lends the bytes of the first chunk.
    #[tactic(auto, using(crate::proofs::SheetLemmas::first_here, crate::proofs::SheetLemmas::first_alone))]
    pub(crate) fn first(&self) -> &[u8]
        requires { 1 ≤ self.now.0 }
        ensures { result.now ≡ take page_size self.now.1.0 }
    {
        match &self.node {
            Node::Last(whole) => whole.bytes(),
            Node::Before(whole, _) => whole.bytes(),
            Node::Hollow => unreachable!(),
        }
    }

    /// Lends the bytes of the chunk at a place, the first at 0. It walks from chunk to chunk.
    #[inline(never)]
    pub(crate) fn part(&self, at: usize) -> &[u8]
        requires { at < self.now.0 }
        ensures { result.now ≡ take page_size (drop (at * page_size) self.now.1.0) }
    {
        if at == 0 {
            return self.first();
        }
        match &self.node {
            Node::Before(whole, behind) => {
                whole.is_whole();
                behind.part(at - 1)
            }
            Node::Last(_) | Node::Hollow => unreachable!(),
        }
    }

    /// Lends bytes of the chunk at a place, the first at 0, for as long as the result is there.
    ///
    /// `from` and `to` are places within that chunk. It walks from chunk to chunk, and takes no
    /// memory. `None` if the chunk lies in memory that can't be lent.
    #[inline(never)]
    pub(crate) fn lend(&self, at: usize, from: usize, to: usize) -> Option<Lent>
        requires place { at < self.now.0 }
        requires order { from ≤ to }
        requires within { to ≤ page_size }
        ensures { IfSome result (λ lent. lent
            ≡ take (to - from) (drop from (take page_size (drop (at * page_size) self.now.1.0)))) }
    {
        if at == 0 {
            return self.lend_first(from, to);
        }
        match &self.node {
            Node::Before(whole, behind) => {
                whole.is_whole();
                behind.lend(at - 1, from, to)
            }
            Node::Last(_) | Node::Hollow => unreachable!(),
        }
    }

    /// Lends bytes of the first chunk for as long as the result is there.
    fn lend_first(&self, from: usize, to: usize) -> Option<Lent>
        requires place { 1 ≤ self.now.0 }
        requires order { from ≤ to }
        requires within { to ≤ page_size }
        ensures { IfSome result (λ lent. lent
            ≡ take (to - from) (drop from (take page_size self.now.1.0))) }
    {
        match &self.node {
            Node::Last(whole) => whole.lend(from, to),
            Node::Before(whole, _) => whole.lend(from, to),
            Node::Hollow => unreachable!(),
        }
    }

    /// Puts one sheet in front of others. It takes no memory.
    pub(crate) fn in_front(mut sheet: Box<PageChain>, behind: Box<PageChain>) -> Box<PageChain>
        requires one { (sheet.value.0 ≡ 1) × (length sheet.value.1.0 ≡ page_size) }
        ensures { result.value ≡ (
          1 + behind.value.0,
          (sheet.value.1.0 ++ behind.value.1.0, sheet.value.1.1),
        ) }
    {
        let node = mem::replace(&mut sheet.node, Node::Hollow);
        sheet.node = before(node, behind);
        sheet
    }

    /// Splits the first sheet from the others. It takes no memory.
    pub(crate) fn taken_off(mut sheet: Box<PageChain>) -> (Box<PageChain>, Box<PageChain>)
        requires { 2 ≤ sheet.value.0 }
        ensures one { (result.0.value.0 ≡ 1)
            × (length result.0.value.1.0 ≡ page_size) }
        ensures behind { (1 + result.1.value.0 ≡ sheet.value.0)
            × (page_size + length result.1.value.1.0 ≡ length sheet.value.1.0) }
        ensures heads { (length result.0.value.1.1 ≡ 304)
            × (length result.1.value.1.1 ≡ 304) }
    {
        let node = mem::replace(&mut sheet.node, Node::Hollow);
        let (node, behind) = part_node(node);
        sheet.node = node;
        sheet.has_head();
        behind.has_head();
        (sheet, behind)
    }

    /// Copies `part` to the place `at` of the bytes, counted over all chunks.
    ///
    /// The other bytes are unchanged.
    #[cycle(write_at)]
    #[inline(never)]
    pub(crate) fn write_at(&mut self, at: usize, part: &[u8])
        requires { at + length part.now ≤ length self.old.1.0 }
        ensures { self.new
            ≡ (self.old.0, (with_part self.old.1.0 at part.now, self.old.1.1)) }
    {
        match &mut self.node {
            Node::Last(whole) => write_last(whole, at, part),
            Node::Before(whole, behind) => {
                whole.settle();
                behind.settle();
                write_before(whole, &mut **behind, at, part);
            }
            Node::Hollow => {}
        }
    }

    /// Copies the bytes of chunks that are pieces of larger memory to memory of each chunk.
    #[inline(never)]
    fn settle(&mut self)
        ensures { self.new ≡ self.old }
    {
        match &mut self.node {
            Node::Last(whole) => whole.settle(),
            Node::Before(whole, behind) => {
                whole.settle();
                behind.settle();
            }
            Node::Hollow => {}
        }
    }

    /// Has chunks whose bytes are pieces of larger memory lie in blank memory.
    ///
    /// Their bytes are unspecified then. It takes no memory.
    #[inline(never)]
    pub(crate) fn give_up(&mut self, blank: &Arc<Large>)
        ensures size { length self.new.1.0 ≡ length self.old.1.0 }
        ensures same { (self.new.0 ≡ self.old.0) × (self.new.1.1 ≡ self.old.1.1) }
    {
        match &mut self.node {
            Node::Last(whole) => {
                whole.is_whole();
                whole.give_up(blank);
            }
            Node::Before(whole, behind) => {
                whole.is_whole();
                whole.give_up(blank);
                behind.give_up(blank);
            }
            Node::Hollow => {}
        }
    }

    /// Takes the memory of a part over as that of its chunks: the bytes begin with the part's.
    /// Their former memory is left with the part.
    ///
    /// `false` if the first doesn't, as for memory of more than `most` bytes, and nothing changed.
    /// One of the others that can't take its piece over copies it.
    #[inline(never)]
    pub(crate) fn take_over(&mut self, part: &Lent, most: usize) -> bool
        requires { length part.now ≤ length self.old.1.0 }
        ensures taken { IsTrue result → take (length part.now) self.new.1.0 ≡ part.now }
        ensures size { length self.new.1.0 ≡ length self.old.1.0 }
        ensures same { (self.new.0 ≡ self.old.0) × (self.new.1.1 ≡ self.old.1.1) }
        ensures kept { IsFalse result → self.new ≡ self.old }
    {
        match &mut self.node {
            Node::Last(whole) => take_over_last(whole, part, most),
            Node::Before(whole, behind) => take_over_all(whole, &mut **behind, part, most),
            Node::Hollow => false,
        }
    }

    /// Has the bytes begin with those of a part from the place `at` on, as `take_over` does.
    #[cycle(put_from)]
    #[inline(never)]
    fn put_from(&mut self, part: &Lent, at: usize, most: usize)
        requires inside { at ≤ length part.now }
        requires room { length part.now - at ≤ length self.old.1.0 }
        ensures begins { take (length part.now - at) self.new.1.0 ≡ drop at part.now }
        ensures size { length self.new.1.0 ≡ length self.old.1.0 }
        ensures same { (self.new.0 ≡ self.old.0) × (self.new.1.1 ≡ self.old.1.1) }
    {
        match &mut self.node {
            Node::Last(whole) => put_last(whole, part, at, most),
            Node::Before(whole, behind) => put_before(whole, &mut **behind, part, at, most),
            Node::Hollow => {}
        }
    }

    /// Copies `part` to the place `at` of the head. Everything else is unchanged.
    pub(crate) fn write_head(&mut self, at: usize, part: &[u8])
        requires { at + length part.now ≤ length self.old.1.1 }
        ensures { self.new
            ≡ (self.old.0, (self.old.1.0, with_part self.old.1.1 at part.now)) }
    {
        self.head.write_at(at, part);
    }
}

/// Returns the node of one chunk with others behind it.
fn before(node: Node, behind: Box<PageChain>) -> Node
    requires { ((sheets_in node).0 ≡ 1) × (length (sheets_in node).1 ≡ page_size) }
    ensures { sheets_in result
        ≡ (1 + behind.value.0, (sheets_in node).1 ++ behind.value.1.0) }
{
    match node {
        Node::Last(whole) => Node::Before(whole, behind),
        Node::Before(whole, _hollow) => {
            whole.is_whole();
            Node::Before(whole, behind)
        }
        Node::Hollow => unreachable!(),
    }
}

/// Returns the node of the first chunk, and the sheet behind it.
fn part_node(node: Node) -> (Node, Box<PageChain>)
    requires { 2 ≤ (sheets_in node).0 }
    ensures one { ((sheets_in result.0).0 ≡ 1)
        × (length (sheets_in result.0).1 ≡ page_size) }
    ensures behind { (1 + result.1.value.0 ≡ (sheets_in node).0)
        × (page_size + length result.1.value.1.0 ≡ length (sheets_in node).1) }
{
    match node {
        Node::Before(whole, behind) => {
            whole.is_whole();
            (Node::Last(whole), behind)
        }
        Node::Last(_) | Node::Hollow => unreachable!(),
    }
}

/// Copies `part` to the place `at` of the last chunk.
fn write_last(whole: &mut Whole, at: usize, part: &[u8])
    requires { at + length part.now ≤ length whole.old }
    ensures { whole.new ≡ with_part whole.old at part.now }
{
    whole.is_whole();
    whole.write_at(at, part);
}

/// Takes the memory of a part over as that of the last chunk, and returns whether it did.
fn take_over_last(whole: &mut Whole, part: &Lent, most: usize) -> bool
    requires { length part.now ≤ length whole.old }
    ensures taken { IsTrue result → take (length part.now) whole.new ≡ part.now }
    ensures size { length whole.new ≡ length whole.old }
    ensures kept { IsFalse result → whole.new ≡ whole.old }
{
    whole.is_whole();
    whole.take_over(part, most)
}

/// Takes the memory of a part over as that of a chunk and those behind it, and returns whether the
/// first did.
fn take_over_all(whole: &mut Whole, behind: &mut PageChain, part: &Lent, most: usize) -> bool
    requires { length part.now ≤ length (whole.old ++ behind.old.1.0) }
    ensures taken { IsTrue result
        → take (length part.now) (whole.new ++ behind.new.1.0) ≡ part.now }
    ensures size { length (whole.new ++ behind.new.1.0)
        ≡ length (whole.old ++ behind.old.1.0) }
    ensures count { (behind.new.0 ≡ behind.old.0)
        × (behind.new.1.1 ≡ behind.old.1.1) }
    ensures kept { IsFalse result → (whole.new ≡ whole.old) × (behind.new ≡ behind.old) }
{
    whole.is_whole();
    let to = end_of_piece(0, part.len());
    if !take_piece(whole, part, 0, to, most) {
        return false;
    }
    behind.put_from(part, to, most);
    true
}

/// Has a chunk and those behind it begin with the bytes of a part from the place `at` on.
#[cycle(put_from)]
fn put_before(whole: &mut Whole, behind: &mut PageChain, part: &Lent, at: usize, most: usize)
    requires inside { at ≤ length part.now }
    requires room { length part.now - at ≤ length (whole.old ++ behind.old.1.0) }
    ensures begins { take (length part.now - at) (whole.new ++ behind.new.1.0)
        ≡ drop at part.now }
    ensures size { length (whole.new ++ behind.new.1.0)
        ≡ length (whole.old ++ behind.old.1.0) }
    ensures count { (behind.new.0 ≡ behind.old.0)
        × (behind.new.1.1 ≡ behind.old.1.1) }
{
    whole.is_whole();
    let to = end_of_piece(at, part.len());
    put_piece(whole, part, at, to, most);
    behind.put_from(part, to, most);
}

/// Has the last chunk begin with the bytes of a part from the place `at` on.
fn put_last(whole: &mut Whole, part: &Lent, at: usize, most: usize)
    requires inside { at ≤ length part.now }
    requires room { length part.now - at ≤ length whole.old }
    ensures begins { take (length part.now - at) whole.new ≡ drop at part.now }
    ensures size { length whole.new ≡ length whole.old }
{
    whole.is_whole();
    put_piece(whole, part, at, part.len(), most);
}

/// Returns where the piece of `len` bytes ends that begins at a place and is at most a page long.
fn end_of_piece(at: usize, len: usize) -> usize
    requires { at ≤ len }
    ensures order { (at ≤ result) × (result ≤ len) }
    ensures page { result - at ≤ page_size }
    ensures full { result < len → result ≡ at + page_size }
{
    if len - at <= WHOLE { len } else { at + WHOLE }
}

/// Has a chunk begin with the bytes of a part between two places: it takes their memory over, or
/// copies them.
fn put_piece(whole: &mut Whole, part: &Lent, from: usize, to: usize, most: usize)
    requires order { (from ≤ to) × (to ≤ length part.now) }
    requires page { to - from ≤ page_size }
    ensures begins { take (to - from) whole.new ≡ take (to - from) (drop from part.now) }
    ensures whole { length whole.new ≡ page_size }
{
    if !take_piece(whole, part, from, to, most) {
        whole.write_at(0, &part.as_slice()[from..to]);
    }
}

/// Takes the memory of a part between two places over as that of a chunk, and returns whether it
/// did. The chunk's former memory is left with the part.
fn take_piece(whole: &mut Whole, part: &Lent, from: usize, to: usize, most: usize) -> bool
    requires order { (from ≤ to) × (to ≤ length part.now) }
    requires page { to - from ≤ page_size }
    ensures taken { IsTrue result
        → take (to - from) whole.new ≡ take (to - from) (drop from part.now) }
    ensures whole { length whole.new ≡ page_size }
    ensures kept { IsFalse result → whole.new ≡ whole.old }
{
    whole.is_whole();
    if let Some(piece) = part.part(from, to) {
        if whole.take_over(&piece, most) {
            if let Some(left) = piece.take_left() {
                part.leave(left);
            }
            return true;
        }
    }
    false
}

/// Copies `part` to the place `at` of a chunk and those behind it.
#[cycle(write_at)]
fn write_before(whole: &mut Whole, behind: &mut PageChain, at: usize, part: &[u8])
    requires { at + length part.now ≤ length (whole.old ++ behind.old.1.0) }
    ensures value { whole.new ++ behind.new.1.0
        ≡ with_part (whole.old ++ behind.old.1.0) at part.now }
    ensures count { (behind.new.0 ≡ behind.old.0)
        × (behind.new.1.1 ≡ behind.old.1.1) }
{
    whole.is_whole();
    if at >= WHOLE {
        behind.write_at(at - WHOLE, part);
    } else if part.len() <= WHOLE - at {
        whole.write_at(at, part);
    } else {
        let (front, rest) = part.split_at(WHOLE - at);
        whole.write_at(at, front);
        behind.write_at(0, rest);
    }
}
