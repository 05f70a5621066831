// A list of at most N values, in an array and with no allocation: a count, and a blank that stands in each unused place.
#![tactic(auto)]

ghost use Rattle.std.specs.Prelude.{◌≡◌, ◌+◌, ◌-◌, ◌<◌, ◌≤◌, ◌↔◌, ⊤, [], ◌∷◌, ◌++◌, length, take, IsSome, IfSome};
ghost use Rattle.std.specs.List.{remove};
ghost use Rattle.bounded_list.specs.Bounded.{holding};

use std::alloc::AllocError;
use std::marker::Model;

// The list is the first `count` cells; the others hold `blank`, so that the list and the blank give the fields back, and it is Copy.
pub struct BoundedList<T: Copy, const N: usize> {
    cells: [T; N],
    count: usize,
    blank: T,
}

impl<T: Copy, const N: usize> Model for BoundedList<T, N> {
    ghost use Rattle.std.specs.Prelude.{◌-◌, ◌++◌, length, take, replicate};
    ghost use Rattle.bounded_list.specs.Bounded.{Bounded, bounded_code, Filled, cells_back, count_back};

    ghost Value = { Bounded T };

    ghost coded = { bounded_code T.code };

    ghost view = { λ a. record { items = take a.count a.cells; blank = a.blank } };

    ghost invariant = { λ a. Filled N a.count a.cells a.blank };

    ghost inverse = { λ v. record { cells = v.items ++ replicate (N - length v.items) v.blank; count = length v.items; blank = v.blank } };

    ghost inverse_ok = { λ a h i. record { cells = cells_back h i; count = count_back h i; blank = a.blank } };
}

// By hand, as is Clone: a derived `clone` clones the values one by one.
impl<T: Copy, const N: usize> Copy for BoundedList<T, N> {}

impl<T: Copy, const N: usize> Clone for BoundedList<T, N> {
    ghost is_clone = { λ a b. b ≡ a };

    ghost is_infallible = { λ _. ⊤ };

    fn clone(&self) -> Result<Self, AllocError> {
        Ok(*self)
    }
}

impl<T: Copy, const N: usize> BoundedList<T, N> {
    // No values.
    pub fn new(blank: T) -> Self
        ensures { result ≡ holding [] blank }
    {
        BoundedList {
            cells: [blank; N],
            count: 0,
            blank,
        }
    }

    // The values of a slice, where there is room for them.
    pub fn from_slice(blank: T, xs: &[T]) -> Option<Self>
        ensures fits { IsSome result ↔ (length xs.now ≤ N) }
        ensures value { IfSome result (λ v. v ≡ holding xs.now blank) }
    {
        if xs.len() > N {
            return None;
        }
        let mut list = Self::new(blank);
        list.extend_from_slice(xs);
        Some(list)
    }

    pub fn len(&self) -> usize
        ensures value { result ≡ length self.now.items }
        ensures fits { result ≤ N }
    {
        self.as_slice().len()
    }

    pub fn as_slice(&self) -> &[T]
        ensures value { result.now ≡ self.now.items }
        ensures fits { length result.now ≤ N }
    {
        &self.cells[..self.count]
    }

    // One more, at the end.
    pub fn push(&mut self, x: T)
        requires { length self.old.items < N }
        ensures { self.new ≡ holding (self.old.items ++ x ∷ []) self.old.blank }
    {
        self.cells[self.count] = x;
        self.count += 1;
    }

    // The same where there is room; a full list stays.
    pub fn push_if_room(&mut self, x: T)
        ensures { self.new ≡ holding (take N (self.old.items ++ x ∷ [])) self.old.blank }
    {
        if self.count < N {
            self.push(x);
        }
    }

    // More, at the end, one by one: by `copy_from_slice` a library for C wants memmove from outside.
    pub fn extend_from_slice(&mut self, xs: &[T])
        requires { length self.old.items + length xs.now ≤ N }
        ensures { self.new ≡ holding (self.old.items ++ xs.now) self.old.blank }
    {
        for x in xs {
            self.push(*x);
        }
    }

    // The last one goes.
    pub fn pop(&mut self)
        requires { 0 < length self.old.items }
        ensures { self.new ≡ holding (take (length self.old.items - 1) self.old.items) self.old.blank }
    {
        self.count -= 1;
        self.cells[self.count] = self.blank;
    }

    // Those behind move up by one.
    pub fn remove(&mut self, i: usize)
        requires { i < length self.old.items }
        ensures { self.new ≡ holding (remove self.old.items i) self.old.blank }
    {
        self.cells.copy_within(i + 1..self.count, i);
        self.pop();
    }

    // An empty list stays as it is: its cells are blank.
    pub fn clear(&mut self)
        ensures { self.new ≡ holding [] self.old.blank }
    {
        if self.count > 0 {
            *self = Self::new(self.blank);
        }
    }
}
