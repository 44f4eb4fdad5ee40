//! Slab classes: the sizes of chunks.

ghost use Rattle.std.specs.Prelude.{◌≡◌, ℕ, ◌-◌, ◌+◌, ◌<◌, ◌≤◌, ◌↔◌, IfSome, IsNone};
ghost use Rattle.mc_sizes.specs.Classes.{IsClass, page_size, size_of, chunks_a_page, class_of, PartsAt};

use std::alloc::AllocError;
use std::marker::Model;

/// The bytes of a page.
pub const PAGE_SIZE: u32 = 1048576;

/// The number of classes.
pub const CLASSES: u8 = 40;

/// The first class whose chunks can be lent: each of them is memory of its own.
pub const LENT: u8 = 27;

/// Calls a macro with classes below the last: each one's number, variant of `Held`, and bytes of a
/// chunk.
///
/// What else the macro takes stands in front of them. `all` lists each class, `cut` the first 26,
/// and `lent` the others.
#[macro_export]
macro_rules! each_class {
    (cut $to:ident! $($given:tt)*) => {
        $to! { $($given)*
            1 C1 96, 2 C2 120, 3 C3 152, 4 C4 192, 5 C5 240, 6 C6 304, 7 C7 384, 8 C8 480,
            9 C9 600, 10 C10 752, 11 C11 944, 12 C12 1184, 13 C13 1480, 14 C14 1856,
            15 C15 2320, 16 C16 2904, 17 C17 3632, 18 C18 4544, 19 C19 5680, 20 C20 7104,
            21 C21 8880, 22 C22 11104, 23 C23 13880, 24 C24 17352, 25 C25 21696, 26 C26 27120, }
    };
    (lent $to:ident! $($given:tt)*) => {
        $to! { $($given)*
            27 C27 33904, 28 C28 42384, 29 C29 52984, 30 C30 66232,
            31 C31 82792, 32 C32 103496, 33 C33 129376, 34 C34 161720,
            35 C35 202152, 36 C36 252696, 37 C37 315872, 38 C38 394840, 39 C39 493552, }
    };
    // The first part is handed back to this macro, which puts the next part behind it.
    (all $to:ident! $($given:tt)*) => {
        each_class! { cut each_class! lent $to! $($given)* }
    };
}

/// Lists the bytes of a chunk of each class, with those of the last, which is a page.
macro_rules! sizes {
    ($($number:literal $variant:ident $size:literal,)*) => {
        [$($size,)* PAGE_SIZE]
    };
}

/// Bytes of a chunk of each class, class 1 first.
static SIZES: [u32; 40] = each_class!(all sizes!);

/// A class of chunks of one size. Contracts see it as its number, from 1 to 40.
#[derive(Debug, PartialEq, Eq)]
pub struct Class {
    number: u8,
}

impl Model for Class {
    ghost use Rattle.std.specs.Prelude.{ℕ};
    ghost use Rattle.mc_sizes.specs.Classes.{IsClass};

    ghost Value = { ℕ };

    ghost view = { λ c. c.number };

    ghost invariant = { λ c. IsClass c.number };

    ghost inverse = { λ n. record { number = n } };
}

impl Clone for Class {
    ghost is_clone = { λ x y. y ≡ x };

    ghost is_infallible = { λ _. Unit {0} };

    fn clone(&self) -> Result<Class, AllocError> {
        Ok(*self)
    }
}

impl Copy for Class {}

impl Class {
    /// Returns the class of a number, from 1 to 40.
    pub fn of(number: u8) -> Class
        requires { IsClass number }
        ensures { result ≡ number }
    {
        Class { number }
    }

    /// Returns its index in the table, from 0 to 39.
    pub fn index(self) -> usize
        ensures value { result ≡ self - 1 }
        ensures is_class { IsClass self }
    {
        usize::from(self.number) - 1
    }

    /// Returns its number, from 1 to 40.
    pub fn number(self) -> u8
        ensures value { result ≡ self }
        ensures is_class { IsClass result }
    {
        self.number
    }

    /// Returns the size of its chunks, 96 to [`PAGE_SIZE`] bytes.
    pub fn size(self) -> u32
        ensures value { result ≡ size_of self }
        ensures range { (96 ≤ result) × (result ≤ page_size) }
        ensures is_class { IsClass self }
    {
        SIZES[usize::from(self.number) - 1]
    }

    /// Returns how many of its chunks a page holds, 1 to 10922.
    pub fn chunks_a_page(self) -> u32
        ensures value { result ≡ chunks_a_page self }
        ensures range { (1 ≤ result) × (result ≤ 10922) }
        ensures is_class { IsClass self }
    {
        PAGE_SIZE / self.size()
    }
}

/// Returns how many sizes are smaller than the charge.
fn smaller_sizes(charge: u64) -> usize
    ensures { PartsAt charge result }
{
    SIZES.partition_point(|size| u64::from(*size) < charge)
}

/// Returns the smallest class whose chunks hold a charge of that many bytes.
///
/// It is `None` above [`PAGE_SIZE`] bytes. It takes at most six comparisons.
pub fn class_of(charge: u64) -> Option<Class>
    ensures value { result ≡ class_of charge }
    ensures none { IsNone result ↔ (page_size < charge) }
    ensures is_class { IfSome result IsClass }
    ensures holds { IfSome result (λ class. charge ≤ size_of class) }
    ensures smallest { IfSome result (λ class.
        (smaller : ℕ) → 1 ≤ smaller → smaller < class → size_of smaller < charge) }
{
    let smaller = smaller_sizes(charge);
    if smaller < SIZES.len() {
        Some(Class {
            number: smaller as u8 + 1,
        })
    } else {
        None
    }
}
