// A stock: a list of at most N values. The test's own: it shares no type with what it is held against.
ghost use Rattle.std.specs.Prelude.{◌≤◌, length};

use std::alloc::AllocError;

#[derive(Copy)]
pub struct Stock<T: Copy, const N: usize> {
    cells: [T; N],
    count: usize,
    ghost fits: { count ≤ N },
}

// By hand: none is derived beside a ghost field.
impl<T: Copy, const N: usize> Clone for Stock<T, N> {
    fn clone(&self) -> Result<Self, AllocError> {
        Ok(*self)
    }
}

impl<T: Copy + Default, const N: usize> Stock<T, N> {
    pub fn new() -> Self {
        Stock {
            cells: [T::default(); N],
            count: 0,
        }
    }

    pub fn clear(&mut self) {
        self.count = 0;
    }

    pub fn len(&self) -> usize
        ensures { result ≤ N }
    {
        self.count
    }

    pub fn is_full(&self) -> bool {
        self.count == N
    }

    pub fn as_slice(&self) -> &[T]
        ensures { length result.now ≤ N }
    {
        &self.cells[..self.count]
    }

    /// One more, unless the list is full: then it stays, and the answer is false.
    pub fn push(&mut self, x: T) -> bool {
        if self.count >= N {
            return false;
        }
        self.cells[self.count] = x;
        self.count += 1;
        true
    }

    /// Takes out the one at a place, if there is one.
    pub fn take_out(&mut self, k: usize) -> Option<T> {
        if k >= self.count {
            return None;
        }
        let x = self.cells[k];
        self.cells.copy_within(k + 1..self.count, k);
        self.count -= 1;
        Some(x)
    }
}
