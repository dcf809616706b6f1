//! An allocator for tests, which refuses one request for memory and grants all others.
//!
//! A test increases the number of the refused request until no request is refused in a run. So each allocation of the
//! call under test fails once, and the test can repeat the call after the failure.

ghost use Rattle.std.specs.Prelude.{◌≡◌, ◌<◌, IfSome, IsTrue};

use std::alloc::{AllocError, Allocator};
use std::cell::Cell;

/// An allocator over `inner` that refuses a single request for memory, by its number.
///
/// Growing or shrinking a block is also one request. A collection uses it by reference, as `&Refusing<B>`.
#[derive(Drop)]
pub struct Refusing<B> {
    /// The allocator that serves the granted requests and frees all blocks.
    pub inner: B,
    /// The number of the refused request: the first request has number 1. With 0, no request is refused.
    pub number: u64,
    // how many requests have been made
    seen: Cell<u64>,
}

impl<B> Refusing<B> {
    /// Refuses the request with this number: the first request has number 1. With 0, it refuses none.
    pub fn new(inner: B, number: u64) -> Refusing<B>
        ensures inner { result.inner ≡ inner }
        ensures number { result.number ≡ number }
    {
        Refusing {
            inner,
            number,
            seen: Cell::new(0),
        }
    }

    /// Whether the refused request has not come yet: `false` after it was refused, and `false` if `number` is 0.
    ///
    /// No contract can describe the content of a cell, so only tests check the count.
    pub fn is_pending(&self) -> bool
        ensures { IsTrue result → 0 < self.now.number }
    {
        self.seen.get() < self.number
    }

    // Counts a request, and returns the inner allocator unless this is the refused request.
    fn granted(&self) -> Option<&B>
        ensures { IfSome result (λ h. h.now ≡ self.now.inner) }
    {
        let request = self.seen.get().saturating_add(1);
        self.seen.set(request);
        if request == self.number {
            None
        } else {
            Some(&self.inner)
        }
    }
}

unsafe impl<B: Allocator> Allocator for Refusing<B> {
    ghost dealloc_token = { λ heap ty ptr. B.dealloc_token heap.inner ty ptr };

    fn allocate(&self, size: usize, align: usize) -> Result<*mut u8, AllocError> {
        match self.granted() {
            Some(inner) => inner.allocate(size, align),
            None => Err(AllocError),
        }
    }

    unsafe fn deallocate(&self, ptr: *mut u8, size: usize, align: usize) {
        self.inner.deallocate(ptr, size, align);
    }
}
