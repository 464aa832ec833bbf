// Lent items.
ghost use Rattle.std.specs.Prelude.{◌≡◌, ℕ, ◌+◌, ◌<◌, ◌≤◌, min, length, take, nat_le, slice_set};
ghost use Rattle.builder.specs.Put.{put};

// Items that the caller lends, of which the first ones are used: a `Vec` would allocate.
#[derive(Drop)]
pub(crate) struct Lent<'a, T> {
    pub(crate) items: &'a mut [T],
    pub(crate) used: usize,
    ghost within: { used ≤ length items.now },
}

impl<'a, T: Copy> Lent<'a, T> {
    // Items of which none is used.
    pub(crate) fn new(items: &'a mut [T]) -> Lent<'a, T>
        ensures items { result.items.now ≡ items.old }
        ensures used { result.used ≡ 0 }
    {
        Lent { items, used: 0 }
    }

    // Whether this many more are free, where at most so many may be used.
    pub(crate) fn has_room(&self, n: usize, most: usize) -> bool
        ensures { result ≡ nat_le (self.now.used + n) (min (length self.now.items.now) most) }
    {
        let room = self.items.len().min(most);
        self.used <= room && n <= room - self.used
    }

    // One more, where one is free.
    pub(crate) fn push(&mut self, item: T)
        requires { self.old.used < length self.old.items.now }
        ensures items { self.new.items.now ≡ slice_set self.old.items.now self.old.used item }
        ensures used { self.new.used ≡ self.old.used + 1 }
    {
        self.items[self.used] = item;
        self.used += 1;
    }

    // These more, where they are free.
    pub(crate) fn extend_from_slice(&mut self, more: &[T])
        requires { self.old.used + length more.now ≤ length self.old.items.now }
        ensures items { self.new.items.now ≡ put self.old.items.now self.old.used more.now }
        ensures used { self.new.used ≡ self.old.used + length more.now }
    {
        let end = self.used + more.len();
        self.items[self.used..end].copy_from_slice(more);
        self.used = end;
    }

    // What is used.
    pub(crate) fn used_items(&self) -> &[T]
        ensures { result.now ≡ take self.now.used self.now.items.now }
    {
        &self.items[..self.used]
    }
}
