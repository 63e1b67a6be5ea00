// An allocator that refuses growths by their number.
ghost use Rattle.std.specs.Prelude.{◌≡◌, IfSome};

use std::alloc::{AllocError, Allocator};
use std::sync::atomic::{AtomicU64, Ordering};

/// An allocator that hands each growth on to another one, but for those that it refuses. Collections take a reference to it,
/// from any thread.
#[derive(Drop)]
pub struct Refusing<B> {
    inner: B,
    asked: AtomicU64,
    /// The numbers of the first and of the last growth that is refused; none where the first is 0.
    first: AtomicU64,
    last: AtomicU64,
}

impl<B> Refusing<B> {
    /// An allocator over another one that refuses nothing yet.
    pub fn new(inner: B) -> Self {
        Refusing {
            inner,
            asked: AtomicU64::new(0),
            first: AtomicU64::new(0),
            last: AtomicU64::new(0),
        }
    }

    /// Counts growths anew, from 1, and refuses none of them.
    pub fn grant(&self) {
        self.refuse_within(0, 0);
    }

    /// Counts growths anew, from 1, and refuses the one of this number.
    pub fn refuse(&self, number: u64) {
        self.refuse_within(number, number);
    }

    /// Counts growths anew, from 1, and refuses the one of this number and all that follow it.
    pub fn refuse_from(&self, number: u64) {
        self.refuse_within(number, u64::MAX);
    }

    fn refuse_within(&self, first: u64, last: u64) {
        self.asked.store(0, Ordering::SeqCst);
        self.first.store(first, Ordering::SeqCst);
        self.last.store(last, Ordering::SeqCst);
    }

    /// How many growths were asked for since the count began anew, the refused ones among them.
    pub fn asked(&self) -> u64 {
        self.asked.load(Ordering::SeqCst)
    }

    /// Counts one growth more, and gives the other allocator unless this one is refused.
    fn turn(&self) -> Option<&B>
        ensures { IfSome result (λ inner. inner.now ≡ self.now.inner) }
    {
        let number = self.asked.fetch_add(1, Ordering::SeqCst).wrapping_add(1);
        let first = self.first.load(Ordering::SeqCst);
        if first > 0 && first <= number && number <= self.last.load(Ordering::SeqCst) {
            return None;
        }
        Some(&self.inner)
    }
}

unsafe impl<B: Allocator> Allocator for Refusing<B> {
    ghost dealloc_token = { λ heap ty ptr. B.dealloc_token heap.inner ty ptr };

    fn allocate(&self, size: usize, align: usize) -> Result<*mut u8, AllocError> {
        match self.turn() {
            Some(inner) => inner.allocate(size, align),
            None => Err(AllocError),
        }
    }

    unsafe fn deallocate(&self, ptr: *mut u8, size: usize, align: usize) {
        self.inner.deallocate(ptr, size, align);
    }
}
