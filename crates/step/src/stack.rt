// A stack in fixed memory.
ghost use Rattle.std.specs.Prelude.{◌≡◌, ◌+◌, ◌-◌, ◌<◌, ◌≤◌, nat_eq, replicate, slice_get, slice_set, Some};

use std::alloc::AllocError;

// A stack of at most N items: the first `len` of the array, the last of them on top.
#[derive(Drop)]
pub struct Stack<T, const N: usize> {
    pub items: [T; N],
    pub len: usize,
    ghost within: { len ≤ N },
}

impl<T: Copy, const N: usize> Clone for Stack<T, N> {
    ghost use Rattle.std.specs.Prelude.{◌≡◌, ⊤};

    ghost is_clone = { λ x y. y ≡ x };

    ghost is_infallible = { λ _. ⊤ };

    fn clone(&self) -> Result<Self, AllocError> {
        Ok(*self)
    }
}

impl<T: Copy, const N: usize> Copy for Stack<T, N> {}

impl<T: Copy, const N: usize> Stack<T, N> {
    // The empty stack, its array filled with an item.
    pub(crate) fn new(filler: T) -> Self
        ensures items { result.items ≡ replicate N filler }
        ensures len { result.len ≡ 0 }
    {
        Stack {
            items: [filler; N],
            len: 0,
        }
    }

    // Whether nothing is on the stack.
    pub(crate) fn is_empty(&self) -> bool
        ensures { result ≡ nat_eq self.now.len 0 }
    {
        self.len == 0
    }

    // The topmost item.
    pub(crate) fn top(&self) -> T
        requires { 0 < self.now.len }
        ensures { slice_get self.now.items (self.now.len - 1) ≡ Some result }
    {
        self.items[self.len - 1]
    }

    // Puts an item on top.
    pub(crate) fn push(&mut self, item: T)
        requires { self.old.len < N }
        ensures items { self.new.items ≡ slice_set self.old.items self.old.len item }
        ensures len { self.new.len ≡ self.old.len + 1 }
    {
        self.items[self.len] = item;
        self.len += 1;
    }

    // Puts an item in the place of the topmost.
    pub(crate) fn set_top(&mut self, item: T)
        requires { 0 < self.old.len }
        ensures items { self.new.items ≡ slice_set self.old.items (self.old.len - 1) item }
        ensures len { self.new.len ≡ self.old.len }
    {
        self.items[self.len - 1] = item;
    }

    // Takes the topmost item off.
    pub(crate) fn pop(&mut self) -> T
        requires { 0 < self.old.len }
        ensures top { slice_get self.old.items (self.old.len - 1) ≡ Some result }
        ensures items { self.new.items ≡ self.old.items }
        ensures len { self.new.len ≡ self.old.len - 1 }
    {
        self.len -= 1;
        self.items[self.len]
    }

    // Takes items off until so many are left.
    pub(crate) fn truncate(&mut self, len: usize)
        requires { len ≤ self.old.len }
        ensures items { self.new.items ≡ self.old.items }
        ensures len { self.new.len ≡ len }
    {
        self.len = len;
    }
}
