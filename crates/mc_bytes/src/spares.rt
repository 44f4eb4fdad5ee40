//! Large buffers that a worker keeps between two requests.
//!
//! The system gives memory for a block of megabytes page by page, and each page costs a fault: for 8
//! MiB twice what it costs to send them. So a worker keeps large buffers that its connections free,
//! and its next connection that wants one takes it. Connections that share spares are served by one
//! thread.
//!
//! Otherwise buffers are shrunk before they are freed. The C library keeps freed memory up to the
//! size of the largest mapping that was freed whole. Then it also serves the tables of an index from
//! its heap, and outgrown tables leave holes there: 10 % of the memory of 10^6 items of 100 bytes.
ghost use Rattle.std.specs.Prelude.{◌≤◌, ◌<◌, length, vec_capacity, IfSome};

use std::alloc::{AllocError, Global};
use std::cell::RefCell;
use std::rc::Rc;

/// The least bytes of a buffer that is kept.
const LEAST: usize = 65_536;

/// The most buffers that are kept.
const MOST: usize = 8;

/// The size in bytes to which a large buffer is shrunk before it is freed.
const SMALL: usize = 4096;

/// Large buffers that the connections of one worker take and give back. Contracts see nothing of
/// them: what a kept buffer once held is never shown.
#[derive(Drop)]
pub struct Spares {
    kept: Rc<RefCell<Kept>>,
}

impl Spares {
    /// Makes a collection without buffers. The only error is a refused allocation.
    pub fn new(alloc: Global) -> Result<Spares, AllocError> {
        let buffers = Vec::with_capacity(alloc, MOST)?;
        match Rc::new(alloc, RefCell::new(Kept { buffers, unused: 0 })) {
            Ok(kept) => Ok(Spares { kept }),
            Err(_) => Err(AllocError),
        }
    }

    /// Returns a further reference to the same buffers, if these are some.
    pub fn another(spares: Option<&Spares>) -> Option<Spares> {
        match spares {
            Some(spares) => match spares.kept.clone() {
                Ok(kept) => Some(Spares { kept }),
                Err(_) => None,
            },
            None => None,
        }
    }

    /// Takes a buffer with `least` to `most` bytes of memory, of which the first `front` may be
    /// written.
    pub(crate) fn take(&self, front: usize, least: usize, most: usize) -> Option<Vec<u8>>
        ensures front { IfSome result (λ buffer. front ≤ length buffer.items) }
        ensures most { IfSome result (λ buffer. vec_capacity buffer ≤ most) }
    {
        let Ok(mut kept) = self.kept.try_borrow_mut() else {
            return None;
        };
        kept.take(front, least, most)
    }

    /// Frees buffers of `bytes` bytes together, the longest kept first: the caller allocates as many.
    pub(crate) fn make_way(&self, bytes: usize) {
        if let Ok(mut kept) = self.kept.try_borrow_mut() {
            let most = kept.memory().saturating_sub(bytes);
            kept.keep_within(most);
        }
    }

    /// Keeps a buffer that is no longer wanted, or frees it if it is small. Of more than 8 the
    /// longest kept is freed.
    pub(crate) fn keep(&self, buffer: Vec<u8>) {
        if buffer.capacity() < LEAST {
            return;
        }
        if let Ok(mut kept) = self.kept.try_borrow_mut() {
            kept.keep(buffer);
        }
    }

    /// Frees buffers, the longest kept first, until they have at most `bytes` bytes together.
    pub fn keep_within(&self, bytes: usize) {
        if let Ok(mut kept) = self.kept.try_borrow_mut() {
            kept.keep_within(bytes);
        }
    }

    /// Frees as many buffers as were never needed since the last call, the longest kept first.
    pub fn free_unused(&self) {
        if let Ok(mut kept) = self.kept.try_borrow_mut() {
            kept.free_unused();
        }
    }
}

/// The buffers of one worker.
#[derive(Drop)]
struct Kept {
    /// The buffers, the longest kept first.
    buffers: Vec<Vec<u8>>,
    /// The least number of buffers that were here at once since unused ones were freed.
    unused: usize,
}

impl Kept {
    /// Takes a buffer with `least` to `most` bytes of memory, of which the first `front` may be
    /// written.
    fn take(&mut self, front: usize, least: usize, most: usize) -> Option<Vec<u8>>
        ensures front { IfSome result (λ buffer. front ≤ length buffer.items) }
        ensures most { IfSome result (λ buffer. vec_capacity buffer ≤ most) }
    {
        let at = place_of(self.buffers.as_slice(), front, least, most)?;
        let buffer = self.buffers.remove(at);
        self.unused = self.unused.min(self.buffers.len());
        if buffer.len() < front || buffer.capacity() > most {
            return None;
        }
        Some(buffer)
    }

    /// Keeps a buffer. Of more than 8 the longest kept is freed.
    fn keep(&mut self, buffer: Vec<u8>) {
        if self.buffers.len() >= MOST {
            self.free_oldest();
        }
        let _ = self.buffers.push(buffer);
    }

    /// Frees buffers, the longest kept first, until they have at most `bytes` bytes together.
    fn keep_within(&mut self, bytes: usize) {
        for _ in 0..MOST {
            if self.memory() <= bytes {
                return;
            }
            self.free_oldest();
        }
    }

    /// Frees as many buffers as were never needed since the last call, the longest kept first.
    fn free_unused(&mut self) {
        for _ in 0..self.unused {
            self.free_oldest();
        }
        self.unused = self.buffers.len();
    }

    /// Frees the buffer that was kept longest.
    fn free_oldest(&mut self) {
        if !self.buffers.is_empty() {
            free(self.buffers.remove(0));
        }
        self.unused = self.unused.min(self.buffers.len());
    }

    /// Returns the memory of the buffers in bytes.
    fn memory(&self) -> usize {
        let mut memory = 0usize;
        for buffer in self.buffers.as_slice() {
            memory = memory.saturating_add(buffer.capacity());
        }
        memory
    }
}

/// Frees a buffer. A large one is shrunk before.
pub(crate) fn free(buffer: Vec<u8>) {
    let mut buffer = buffer;
    if buffer.capacity() >= LEAST {
        buffer.clear();
        buffer.shrink_to(SMALL);
    }
}

/// Returns the place of a buffer with `least` to `most` bytes of memory, of which the first `front`
/// may be written.
fn place_of(kept: &[Vec<u8>], front: usize, least: usize, most: usize) -> Option<usize>
    ensures { IfSome result (λ at. at < length kept.now) }
{
    for at in 0..kept.len() {
        let memory = kept[at].capacity();
        if least <= memory && memory <= most && front <= kept[at].len() {
            return Some(at);
        }
    }
    None
}
