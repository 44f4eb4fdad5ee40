//! A value on the heap.
//!
//! A bay holds its shelf or desk in a box, so taking it and giving it back moves a pointer.
ghost use Rattle.std.specs.Prelude.{◌≡◌, IfOk};

use std::alloc::{AllocError, Global};
use std::marker::Model;

/// A value on the heap, so that only a pointer is moved. Contracts see the value.
#[derive(Drop)]
pub struct Boxed<T: Drop> {
    pub(crate) inner: Box<T>,
}

impl<T: Drop> Model for Boxed<T> {
    ghost Value = { T };

    ghost coded = { T.code };

    ghost view = { λ b. b.inner.value };
}

impl<T: Drop> Boxed<T> {
    /// Puts a value on the heap. The only error is a refused allocation; the value is then dropped.
    pub fn new(alloc: Global, value: T) -> Result<Boxed<T>, AllocError>
        ensures { IfOk result (λ b. b ≡ value) }
    {
        let inner = Box::new(alloc, value)?;
        Ok(Boxed { inner })
    }

    /// Returns the value of a box.
    pub fn of(inner: Box<T>) -> Boxed<T>
        ensures { result ≡ inner.value }
    {
        Boxed { inner }
    }

    /// Returns the box.
    pub fn into_box(self) -> Box<T>
        ensures { result.value ≡ self }
    {
        let Boxed { inner } = self;
        inner
    }
}
